// The ways in which the last move may have been made, gone through one after the other.
ghost use Rattle.std.specs.Prelude.{◌≡◌, ℕ, List, true};
ghost use Rattle.std.specs.Result.{OnOk};
ghost use Rattle.dob_pieces.specs.declared.setup.Setup.{Setup};
ghost use Rattle.dob_pieces.specs.Masks.{is_kind};
ghost use Rattle.dob_pieces.specs.Pieces.{leads};
ghost use Rattle.dob_pieces.specs.Setups.{at};
ghost use Rattle.dob_unmove.specs.declared.undo.RetroMove.{RetroMove};
ghost use Rattle.dob_unmove.specs.Undoes.{arrives_at, CanUndo};
ghost use Rattle.dob_unmove.specs.Walks.{TakesAll, stands, uncatch, unsteps_from, unsteps, unputs, undoes_at, undoes};

use dob_pieces::{HandKind, Kind, Memory, Piece, Setup, Side, Square};
use dob_unmove::{RetroMove, holds_caught};

/// Takes the ways in which the last move may have been made, one at a time, and notes numbers.
pub(crate) trait Taker {
    /// What it asks of the setup from which it takes ways back.
    ghost suits: { Setup → Self → Type 0 };

    /// By `takes after self old undo new` taking that way back leads from the one list of numbers to the other.
    ghost takes: { Setup → Self → List ℕ → RetroMove → List ℕ → Type 0 };

    // Takes one way to take the last move back from `after`, in which the side that made it is the mover.
    fn take(&self, after: &Setup, undo: RetroMove, found: &mut Vec<u64>) -> Result<(), Memory>
        requires can { CanUndo after.now undo }
        requires suited { suits after.now self.now }
        ensures { OnOk result (takes after.now self.now found.old.items undo found.new.items) };
}

/// Takes all the ways in which the last move may have been made, each once, by square of arrival, kind and square of
/// departure. In `after` the side that made the move is the mover. Memory: none of its own.
#[tactic(auto, using(dob_unmove::proofs::Runs::runs), unfolding(dob_unmove::specs::Walks::undoes))]
pub(crate) fn take_all<T: Taker>(
    taker: &T,
    after: &Setup,
    found: &mut Vec<u64>,
) -> Result<(), Memory>
    requires { T.suits after.now taker.now }
    ensures { OnOk result (TakesAll (T.takes after.now taker.now) found.old.items (undoes after.now) found.new.items) }
{
    for index in 0..Square::COUNT {
        take_at(taker, after, Square::new(index), found)?;
    }
    Ok(())
}

// Takes the ways in which the last move may have ended on the square.
#[tactic(auto, using(dob_unmove::proofs::Runs::runs), unfolding(dob_unmove::specs::Walks::undoes_at))]
fn take_at<T: Taker>(
    taker: &T,
    after: &Setup,
    to: Square,
    found: &mut Vec<u64>,
) -> Result<(), Memory>
    requires { T.suits after.now taker.now }
    ensures { OnOk result (TakesAll (T.takes after.now taker.now) found.old.items (undoes_at after.now to) found.new.items) }
{
    take_unsteps(taker, after, Kind::Lion, to, found)?;
    take_unsteps(taker, after, Kind::Giraffe, to, found)?;
    take_unsteps(taker, after, Kind::Elephant, to, found)?;
    take_unsteps(taker, after, Kind::Chick, to, found)?;
    take_unsteps(taker, after, Kind::Hen, to, found)?;
    take_unput(taker, after, HandKind::Chick, to, found)?;
    take_unput(taker, after, HandKind::Elephant, to, found)?;
    take_unput(taker, after, HandKind::Giraffe, to, found)
}

// Takes the steps of pieces of that kind to the square.
#[tactic(auto, using(dob_unmove::proofs::Runs::runs), unfolding(dob_unmove::specs::Walks::unsteps))]
fn take_unsteps<T: Taker>(
    taker: &T,
    after: &Setup,
    kind: Kind,
    to: Square,
    found: &mut Vec<u64>,
) -> Result<(), Memory>
    requires { T.suits after.now taker.now }
    ensures { OnOk result (TakesAll (T.takes after.now taker.now) found.old.items (unsteps after.now kind to) found.new.items) }
{
    if !stands(after.at(to), arrives_at(kind, to)) {
        return Ok(());
    }
    for index in 0..Square::COUNT {
        take_unsteps_from(taker, after, kind, Square::new(index), to, found)?;
    }
    Ok(())
}

// Takes the steps of a piece of that kind, which stands on the one square now, from the other.
#[tactic(auto, using(dob_unmove::proofs::Listed::steps), unfolding(dob_unmove::specs::Walks::unsteps_from))]
fn take_unsteps_from<T: Taker>(
    taker: &T,
    after: &Setup,
    kind: Kind,
    from: Square,
    to: Square,
    found: &mut Vec<u64>,
) -> Result<(), Memory>
    requires stands { stands (at after.now to) (arrives_at kind to) ≡ true }
    requires suited { T.suits after.now taker.now }
    ensures { OnOk result (TakesAll (T.takes after.now taker.now) found.old.items (unsteps_from after.now kind to from) found.new.items) }
{
    if after.at(from).is_some() || !kind.leads(from, to) {
        return Ok(());
    }
    taker.take(
        after,
        RetroMove::Unstep {
            kind,
            from,
            to,
            caught: None,
        },
        found,
    )?;
    take_uncatch(taker, after, kind, from, to, Kind::Giraffe, found)?;
    take_uncatch(taker, after, kind, from, to, Kind::Elephant, found)?;
    take_uncatch(taker, after, kind, from, to, Kind::Chick, found)?;
    take_uncatch(taker, after, kind, from, to, Kind::Hen, found)
}

// Takes the step that caught a piece of that kind, if the hand has it.
#[tactic(auto, using(dob_unmove::proofs::Runs::runs))]
fn take_uncatch<T: Taker>(
    taker: &T,
    after: &Setup,
    kind: Kind,
    from: Square,
    to: Square,
    caught: Kind,
    found: &mut Vec<u64>,
) -> Result<(), Memory>
    requires step { CanUndo after.now (RetroMove.Unstep kind from to None) }
    requires suited { T.suits after.now taker.now }
    ensures { OnOk result (TakesAll (T.takes after.now taker.now) found.old.items (uncatch after.now kind from to caught) found.new.items) }
{
    if !holds_caught(&after.hands.mover, caught) {
        return Ok(());
    }
    taker.take(
        after,
        RetroMove::Unstep {
            kind,
            from,
            to,
            caught: Some(caught),
        },
        found,
    )
}

// Takes the drop of that kind on the square, if the mover's piece of that kind stands there.
#[tactic(auto, using(dob_unmove::proofs::Runs::runs), unfolding(dob_unmove::specs::Walks::unputs))]
fn take_unput<T: Taker>(
    taker: &T,
    after: &Setup,
    kind: HandKind,
    to: Square,
    found: &mut Vec<u64>,
) -> Result<(), Memory>
    requires { T.suits after.now taker.now }
    ensures { OnOk result (TakesAll (T.takes after.now taker.now) found.old.items (unputs after.now kind to) found.new.items) }
{
    if !stands(after.at(to), kind.on_board()) {
        return Ok(());
    }
    taker.take(after, RetroMove::Unput { kind, to }, found)
}

// Whether the mover's piece of that kind stands there.
fn stands(cell: Option<Piece>, kind: Kind) -> bool
    ensures { result ≡ stands cell kind }
{
    match cell {
        Some(
            Piece {
                side: Side::Mover,
                kind: own,
            },
        ) => is_kind(own, kind),
        _ => false,
    }
}

// Whether the two kinds are the same.
fn is_kind(own: Kind, kind: Kind) -> bool
    ensures { result ≡ is_kind own kind }
{
    match (own, kind) {
        (Kind::Lion, Kind::Lion)
        | (Kind::Giraffe, Kind::Giraffe)
        | (Kind::Elephant, Kind::Elephant)
        | (Kind::Chick, Kind::Chick)
        | (Kind::Hen, Kind::Hen) => true,
        _ => false,
    }
}

// The kind as which a piece of that kind arrives on the square: a chick on its far row as a hen.
fn arrives_at(kind: Kind, to: Square) -> Kind
    ensures { result ≡ arrives_at kind to }
{
    match kind {
        Kind::Chick if to.row() == 3 => Kind::Hen,
        _ => kind,
    }
}
