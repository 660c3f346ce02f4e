// What stands on the board as sets of squares by side and kind, with no list of cells: what must be fast reads these. A setup's sets come from one pass over
// its cells, without a branch on what stands there.
ghost use Rattle.std.specs.Prelude.{◌≡◌, Some, length, true};
ghost use Rattle.dob_pieces.specs.Boards.{IsBoardOf, HasTwoLions, AreAttackersOf, is_other, planes_of};
ghost use Rattle.dob_pieces.specs.Masks.{AreSquares, IsMask, attacks, is_empty, is_end, is_own, is_piece};
ghost use Rattle.dob_pieces.specs.Setups.{at, mirrored, piece_of, turned};
ghost use Rattle.dob_pieces.specs.declared.kind.Side.TheVariants.{Mover, Enemy};
ghost use Rattle.dob_pieces.specs.declared.setup.Setup.{Setup};

use crate::hand::Hands;
use crate::kind::Kind;
use crate::planes::{CHICKS, ELEPHANTS, ENEMIES, GIRAFFES_AND_HENS, LIONS, entry_of, plane};
use crate::setup::Setup;
use crate::square::Square;
use crate::square_set::SquareSet;

/// What stands on the board, as sets of squares; and what lies in the hands.
#[derive(Clone, Copy)]
pub struct Board {
    pub own_lion: SquareSet,
    pub enemy_lion: SquareSet,
    /// Chicks and hens of both sides.
    pub chicks: SquareSet,
    pub elephants: SquareSet,
    pub giraffes: SquareSet,
    /// Hens of both sides.
    pub hens: SquareSet,
    /// The enemy's pieces other than the lion.
    pub enemies: SquareSet,
    pub hands: Hands,
}

impl Board {
    /// What stands on the setup's board.
    pub fn of(setup: &Setup) -> Board
        ensures { IsBoardOf setup.now result }
    {
        let mut planes: u64 = 0;
        for square in (0..Square::COUNT).rev() {
            let entry = entry_of(setup.board[square]);
            planes = 2 * planes + entry;
        }
        Board::in_planes(planes, setup.hands)
    }

    /// The sets in a word of planes, with those hands.
    #[inline(always)]
    pub fn in_planes(planes: u64, hands: Hands) -> Board
        ensures { (setup : Setup) → length setup.board ≡ 12 → planes ≡ planes_of setup.board → hands ≡ setup.hands → IsBoardOf setup result }
    {
        let lions = plane(planes, LIONS);
        let enemies = plane(planes, ENEMIES);
        let chicks = plane(planes, CHICKS);
        let elephants = plane(planes, ELEPHANTS);
        let giraffes_and_hens = plane(planes, GIRAFFES_AND_HENS);
        Board {
            own_lion: lions.but_not(enemies),
            enemy_lion: lions.and(enemies),
            chicks,
            elephants,
            giraffes: giraffes_and_hens.but_not(chicks),
            hens: giraffes_and_hens.and(chicks),
            enemies: enemies.but_not(lions),
            hands,
        }
    }

    /// The mirror image: columns a and c exchanged.
    pub fn mirrored(&self) -> Board
        ensures { (setup : Setup) → IsBoardOf setup self.now → IsBoardOf (mirrored setup) result }
    {
        Board {
            own_lion: self.own_lion.mirrored(),
            enemy_lion: self.enemy_lion.mirrored(),
            chicks: self.chicks.mirrored(),
            elephants: self.elephants.mirrored(),
            giraffes: self.giraffes.mirrored(),
            hens: self.hens.mirrored(),
            enemies: self.enemies.mirrored(),
            hands: self.hands,
        }
    }

    /// The same seen from the other side.
    pub fn turned(&self) -> Board
        ensures { (setup : Setup) → IsBoardOf setup self.now → IsBoardOf (turned setup) result }
    {
        Board {
            own_lion: self.enemy_lion.turned(),
            enemy_lion: self.own_lion.turned(),
            chicks: self.chicks.turned(),
            elephants: self.elephants.turned(),
            giraffes: self.giraffes.turned(),
            hens: self.hens.turned(),
            enemies: self.others().but_not(self.enemies).turned(),
            hands: Hands {
                mover: self.hands.enemy,
                enemy: self.hands.mover,
            },
        }
    }

    /// Whether the lions say that the mirror image is the earlier one: the own one stands on column c, or on b and the enemy's on c. It is a hint, on which
    /// nothing rests but time.
    pub fn is_later_image(&self) -> bool {
        let aside = if self.own_lion.and(SquareSet::COLUMN_B).is_empty() {
            self.own_lion
        } else {
            self.enemy_lion
        };
        !aside.and(SquareSet::COLUMN_C).is_empty()
    }

    /// The mover's pieces.
    #[inline(always)]
    pub fn own(&self) -> SquareSet
        ensures { (setup : Setup) → IsBoardOf setup self.now → AreSquares setup is_own result }
    {
        self.own_lion.or(self.others().but_not(self.enemies))
    }

    // All pieces other than lions.
    #[inline(always)]
    fn others(&self) -> SquareSet
        ensures { (setup : Setup) → IsBoardOf setup self.now → AreSquares setup is_other result }
    {
        self.chicks.or(self.elephants).or(self.giraffes)
    }

    // The mover's pieces of that kind.
    #[inline(always)]
    fn own_of(&self, kind: Kind) -> SquareSet
        ensures { (setup : Setup) → IsBoardOf setup self.now → AreSquares setup (is_piece Mover kind) result }
    {
        match kind {
            Kind::Lion => self.own_lion,
            Kind::Giraffe => self.giraffes.but_not(self.enemies),
            Kind::Elephant => self.elephants.but_not(self.enemies),
            Kind::Chick => self.chicks.but_not(self.hens.or(self.enemies)),
            Kind::Hen => self.hens.but_not(self.enemies),
        }
    }

    /// The empty squares.
    #[inline(always)]
    pub fn empty(&self) -> SquareSet
        ensures { (setup : Setup) → IsBoardOf setup self.now → AreSquares setup is_empty result }
    {
        let lions = self.own_lion.or(self.enemy_lion);
        SquareSet::ALL.but_not(lions.or(self.others()))
    }

    /// Where a step of the mover may end: empty squares, and enemy pieces other than the lion.
    #[inline(always)]
    pub fn ends(&self) -> SquareSet
        ensures { (setup : Setup) → IsBoardOf setup self.now → AreSquares setup is_end result }
    {
        self.empty().or(self.enemies)
    }

    /// The mover's pieces that attack the square.
    pub fn attackers(&self, target: Square) -> SquareSet
        ensures { (setup : Setup) → IsBoardOf setup self.now → IsMask (λ from. attacks setup from target) result }
    {
        self.attackers_of(Kind::Lion, target)
            .or(self.attackers_of(Kind::Giraffe, target))
            .or(self.attackers_of(Kind::Elephant, target))
            .or(self.attackers_of(Kind::Chick, target))
            .or(self.attackers_of(Kind::Hen, target))
    }

    // The mover's pieces of that kind that attack the square.
    #[inline(always)]
    fn attackers_of(&self, kind: Kind, target: Square) -> SquareSet
        ensures { (setup : Setup) → IsBoardOf setup self.now → AreAttackersOf setup target kind result }
    {
        self.own_of(kind).and(kind.sources(target))
    }

    /// The kind of the mover's piece on the square, on which one stands.
    pub fn own_kind(&self, square: Square) -> Kind
        ensures { (setup : Setup) → IsBoardOf setup self.now → is_own (at setup square) ≡ true → at setup square ≡ Some (piece_of Mover result) }
    {
        if self.own_lion.has(square) {
            Kind::Lion
        } else if self.giraffes.has(square) {
            Kind::Giraffe
        } else if self.elephants.has(square) {
            Kind::Elephant
        } else if self.hens.has(square) {
            Kind::Hen
        } else {
            Kind::Chick
        }
    }

    /// The square of the mover's lion.
    pub fn own_lion_square(&self) -> Square
        requires { (setup : Setup) × HasTwoLions setup × IsBoardOf setup self.now }
        ensures { (setup : Setup) → HasTwoLions setup → IsBoardOf setup self.now → at setup result ≡ Some (piece_of Mover Kind.Lion) }
    {
        self.own_lion.lowest()
    }

    /// The square of the enemy's lion.
    pub fn enemy_lion_square(&self) -> Square
        requires { (setup : Setup) × HasTwoLions setup × IsBoardOf setup self.now }
        ensures { (setup : Setup) → HasTwoLions setup → IsBoardOf setup self.now → at setup result ≡ Some (piece_of Enemy Kind.Lion) }
    {
        self.enemy_lion.lowest()
    }
}
