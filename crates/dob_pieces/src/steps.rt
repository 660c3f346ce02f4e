// Where the steps of a kind lead: the one table of steps.
ghost use Rattle.std.specs.Prelude.{◌≡◌, ◌<◌};
ghost use Rattle.dob_pieces.specs.Pieces.{leads, square_after, steps_of};
ghost use Rattle.dob_pieces.specs.Masks.{IsMask, kind_place};

use crate::kind::Kind;
use crate::square::Square;
use crate::square_set::SquareSet;

/// A step's columns and rows for the side to move, each with one added, so that (1, 2) is a step straight ahead.
pub type Step = (u8, u8);

const LION: [Step; 8] = [
    (0, 0),
    (1, 0),
    (2, 0),
    (0, 1),
    (2, 1),
    (0, 2),
    (1, 2),
    (2, 2),
];

const GIRAFFE: [Step; 4] = [(1, 0), (0, 1), (2, 1), (1, 2)];

const ELEPHANT: [Step; 4] = [(0, 0), (2, 0), (0, 2), (2, 2)];

const CHICK: [Step; 1] = [(1, 2)];

const HEN: [Step; 6] = [(1, 0), (0, 1), (2, 1), (0, 2), (1, 2), (2, 2)];

// For each square the squares to which steps lead from there, as bits, square 0 as the lowest.
type Targets = [u16; Square::COUNT];

const LION_TARGETS: Targets = [
    26, 61, 50, 211, 495, 406, 1688, 3960, 3248, 1216, 3008, 1408,
];

const GIRAFFE_TARGETS: Targets = [10, 21, 34, 81, 170, 276, 648, 1360, 2208, 1088, 2688, 1280];

const ELEPHANT_TARGETS: Targets = [16, 40, 16, 130, 325, 130, 1040, 2600, 1040, 128, 320, 128];

const CHICK_TARGETS: Targets = [8, 16, 32, 64, 128, 256, 512, 1024, 2048, 0, 0, 0];

const HEN_TARGETS: Targets = [
    26, 61, 50, 209, 490, 404, 1672, 3920, 3232, 1088, 2688, 1280,
];

// For each square the squares from which steps lead there. The steps of the other kinds lead back again.
const CHICK_SOURCES: Targets = [0, 0, 0, 1, 2, 4, 8, 16, 32, 64, 128, 256];

const HEN_SOURCES: Targets = [10, 21, 34, 83, 175, 278, 664, 1400, 2224, 1216, 3008, 1408];

// The rows of all kinds, in the order of `Kind`: a row found by the kind's number takes no jump.
const TARGETS: [Targets; 5] = [
    LION_TARGETS,
    GIRAFFE_TARGETS,
    ELEPHANT_TARGETS,
    CHICK_TARGETS,
    HEN_TARGETS,
];

const SOURCES: [Targets; 5] = [
    LION_TARGETS,
    GIRAFFE_TARGETS,
    ELEPHANT_TARGETS,
    CHICK_SOURCES,
    HEN_SOURCES,
];

impl Kind {
    // The kind's place in the order of `Kind`.
    fn place(self) -> usize
        ensures value { result ≡ kind_place self }
        ensures bound { result < 5 }
    {
        self as usize
    }

    /// The kind's steps, in the order of the squares to which they lead.
    pub fn steps(self) -> &'static [Step]
        ensures { result.now ≡ steps_of self }
    {
        match self {
            Kind::Lion => &LION,
            Kind::Giraffe => &GIRAFFE,
            Kind::Elephant => &ELEPHANT,
            Kind::Chick => &CHICK,
            Kind::Hen => &HEN,
        }
    }

    /// The squares to which the kind's steps lead from the square.
    #[tactic(auto, using(crate::proofs::Targets::rows))]
    pub fn targets(self, from: Square) -> SquareSet
        ensures { IsMask (leads self from) result }
    {
        SquareSet::of_bits(TARGETS[self.place()][from.index()])
    }

    /// The squares from which the kind's steps lead to the square.
    #[tactic(auto, using(crate::proofs::Targets::rows))]
    pub fn sources(self, to: Square) -> SquareSet
        ensures { IsMask (λ from. leads self from to) result }
    {
        SquareSet::of_bits(SOURCES[self.place()][to.index()])
    }

    /// Whether one of the kind's steps leads from the one square to the other.
    pub fn leads(self, from: Square, to: Square) -> bool
        ensures { result ≡ leads self from to }
    {
        self.targets(from).has(to)
    }
}

impl Square {
    /// The square to which a step leads, or `None` beyond the board's edge.
    pub fn after(self, step: Step) -> Option<Square>
        ensures { result ≡ square_after self step }
    {
        let column = self.column() + step.0 as usize;
        let row = self.row() + step.1 as usize;
        if 0 < column && column < 4 && 0 < row && row < 5 {
            Some(Square::new(3 * (row - 1) + (column - 1)))
        } else {
            None
        }
    }
}
