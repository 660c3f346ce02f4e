// What positions have in common that are alike: how many pieces of each kind stand on the board, and where the lions stand.
ghost use Rattle.std.specs.Prelude.{◌≡◌, count_by};
ghost use Rattle.std.specs.List.{list_any};
ghost use Rattle.dob_pieces.specs.Setups.{holds_kind, total};
ghost use Rattle.dob_probe.specs.Outlines.{IsOutline, same_outline};

use dob_pieces::{Board, HandKind, Position};

/// How many pieces of each kind stand on the board, hens counted with the chicks, and where the lions stand.
#[derive(Clone, Copy)]
pub(crate) struct Outline {
    pub(crate) chicks: usize,
    pub(crate) elephants: usize,
    pub(crate) giraffes: usize,
    pub(crate) lion: usize,
    pub(crate) enemy_lion: usize,
}

pub(crate) fn outline_of(position: &Position) -> Outline
    ensures { IsOutline position.now.setup result }
{
    let board = Board::of(&position.setup);
    Outline {
        chicks: on_board(position, HandKind::Chick),
        elephants: on_board(position, HandKind::Elephant),
        giraffes: on_board(position, HandKind::Giraffe),
        lion: board.own_lion_square().index(),
        enemy_lion: board.enemy_lion_square().index(),
    }
}

// How many pieces of the kind stand on the board.
#[tactic(auto, unfolding(dob_pieces::specs::Setups::total))]
fn on_board(position: &Position, kind: HandKind) -> usize
    ensures { result ≡ count_by (holds_kind kind) position.now.setup.board }
{
    let hands = position.setup.hands;
    position.setup.total(kind)
        - usize::from(hands.mover.count(kind))
        - usize::from(hands.enemy.count(kind))
}

/// Whether the outline is one of these.
pub(crate) fn has_outline(outlines: &[Outline], outline: Outline) -> bool
    ensures { result ≡ list_any (same_outline outline) outlines.now }
{
    outlines.iter().any(|other| is_same(outline, *other))
}

// Whether both are the same.
fn is_same(outline: Outline, other: Outline) -> bool
    ensures { result ≡ same_outline outline other }
{
    outline.chicks == other.chicks
        && outline.elephants == other.elephants
        && outline.giraffes == other.giraffes
        && outline.lion == other.lion
        && outline.enemy_lion == other.enemy_lion
}
