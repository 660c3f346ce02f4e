// What a move leads to. It is made as a board: no list of cells is turned.
ghost use Rattle.std.specs.Prelude.{◌≡◌, ◌<◌, length};
ghost use Rattle.dob_pieces.specs.Boards.{IsBoardOf};
ghost use Rattle.dob_pieces.specs.Pieces.{kind_in_hand};
ghost use Rattle.dob_pieces.specs.Setups.{IsLegal, at, held, turned};
ghost use Rattle.dob_pieces.specs.declared.profile.Profile.TheVariants.{A};
ghost use Rattle.dob_pieces.specs.declared.setup.Setup.{Setup};
ghost use Rattle.dob_moves.specs.Arrivals.{HasArrived, Met};
ghost use Rattle.dob_moves.specs.Moves.{HasOutcome, CanGo};
ghost use Rattle.dob_moves.specs.Outcomes.{arrives_as, stepped, dropped, with_any, with_caught};
ghost use Rattle.dob_moves.specs.Statuses.{HasStatus};
ghost use Rattle.dob_moves.specs.declared.position_status.Status.{Status};

use crate::game_move::Move;
use crate::position_board::PositionBoard;
use dob_pieces::{Board, Hand, HandKind, Hands, Kind, Position, Square};

/// The position that a move leads to, seen from the side that moves next. The position must be open and the move
/// one of its moves; nothing of it is tested when this runs.
pub fn apply(position: &Position, played: Move) -> Position
    requires open { HasStatus A position.now.setup Status.Open }
    requires can_go { CanGo A position.now.setup played }
    ensures { HasOutcome position.now.setup played result.setup }
{
    let seen = Board::of(&position.setup).turned();
    PositionBoard::new(board_after(&seen, &played)).position()
}

/// The board of what the move leads to, seen by the side that moves next, by the board that this side saw before the move.
pub(crate) fn board_after(seen: &Board, played: &Move) -> Board
    requires { (p : Setup) × IsLegal p × IsBoardOf (turned p) seen.now × CanGo A p played.now }
    ensures { (p q : Setup) → IsLegal p → IsBoardOf (turned p) seen.now → HasOutcome p played.now q → IsBoardOf q result }
{
    match *played {
        Move::Step {
            kind,
            from,
            to,
            catch,
            grows,
        } => after_step(seen, kind, from, to, catch, grows),
        Move::Put { kind, to } => after_drop(seen, kind, to),
    }
}

// The board `seen`, on which the mover's pieces are the enemy's, after a step that may catch a piece and make a hen of a chick.
fn after_step(seen: &Board, kind: Kind, from: Square, to: Square, catch: bool, grows: bool) -> Board
    requires { (p : Setup) × IsLegal p × IsBoardOf (turned p) seen.now × Met p to catch }
    ensures { (p : Setup) → IsLegal p → IsBoardOf (turned p) seen.now → Met p to catch → IsBoardOf (turned (stepped p kind from to grows)) result }
{
    let hands = Hands {
        mover: seen.hands.mover,
        enemy: with_caught(seen, to, catch),
    };
    let left = seen.without(from.turned());
    with_arrived(left, to.turned(), arrives_as(kind, grows), hands)
}

// The kind of the stepping piece afterwards.
fn arrives_as(kind: Kind, grows: bool) -> Kind
    ensures { result ≡ arrives_as kind grows }
{
    if grows { Kind::Hen } else { kind }
}

// The board `seen`, on which the mover's pieces are the enemy's, after a drop.
fn after_drop(seen: &Board, kind: HandKind, to: Square) -> Board
    requires { (p : Setup) × IsLegal p × IsBoardOf (turned p) seen.now × (0 < held p.hands.mover kind) }
    ensures { (p : Setup) → IsLegal p → IsBoardOf (turned p) seen.now → IsBoardOf (turned (dropped p kind to)) result }
{
    let hands = Hands {
        mover: seen.hands.mover,
        enemy: seen.hands.enemy.with_one_less(kind),
    };
    with_arrived(*seen, to.turned(), kind.on_board(), hands)
}

// The board with an enemy piece of that kind on the square, whatever stood there, and those hands.
fn with_arrived(board: Board, to: Square, kind: Kind, hands: Hands) -> Board
    ensures { (before after : Setup) → length before.board ≡ 12 → HasArrived before after to kind → after.hands ≡ hands → IsBoardOf before board
        → IsBoardOf after result }
{
    let cleared = Board {
        hands,
        ..board.without(to)
    };
    cleared.with_enemy(to, kind)
}

// The hand of the side that made a step to that square, after it.
fn with_caught(seen: &Board, to: Square, catch: bool) -> Hand
    requires { (p : Setup) × IsLegal p × IsBoardOf (turned p) seen.now × Met p to catch }
    ensures { (p : Setup) → IsLegal p → IsBoardOf (turned p) seen.now → Met p to catch → result ≡ with_caught p.hands.mover (at p to) }
{
    let hand = seen.hands.enemy;
    if catch {
        with_taken(hand, seen.own_kind(to.turned()))
    } else {
        hand
    }
}

// The hand with a piece of that kind.
fn with_taken(hand: Hand, kind: Kind) -> Hand
    requires { (taken : HandKind) → held hand taken < 255 }
    ensures { result ≡ with_any hand (kind_in_hand kind) }
{
    match kind.in_hand() {
        None => hand,
        Some(taken) => hand.with_one_more(taken),
    }
}
