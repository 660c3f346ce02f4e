// Placing pieces as sets of squares: what the board of the same numbers (dob_rank/src/placing.rt) has, as either side sees it, with no list of cells. The sets
// are planes of one word until all pieces stand, so that each piece is one sum.
ghost use Rattle.std.specs.Prelude.{◌≡◌, ◌<◌, ◌≤◌, None, length, slice_index};
ghost use Rattle.dob_pieces.specs.Setups.{at, setup_of};
ghost use Rattle.dob_pieces.specs.declared.setup.Setup.{Setup};
ghost use Rattle.dob_pieces.specs.Boards.{IsBoardOf, entry};
ghost use Rattle.dob_pieces.specs.Changes.{IsWith};
ghost use Rattle.dob_rank.specs.Numbers.{order, base_of, cell_of, board_of, numbers_by, layers_by};
ghost use Rattle.dob_rank.specs.Placing.{put, AreChoices, AreFree, ArePlaces};
ghost use Rattle.dob_classes.specs.Views.{AreSeen, seen_by, seen_cell, seen_square, seen_hands, seen_owner};

use dob_pieces::planes::{CHICKS, ELEPHANTS, ENEMIES, GIRAFFES_AND_HENS, LIONS};
use dob_pieces::{Board, Hands, Side};
use dob_rank::block::{DIGITS, PerKind};
use dob_rank::forms::base_of;
use dob_rank::layers::Layer;
use dob_rank::placing::{Places, among, past, wide};

/// The sets of the setup of those numbers on the board, those digits and places, and those hands, as the side sees it.
#[inline(always)]
pub(crate) fn bits_by(
    side: Side,
    on_board: &PerKind,
    digits: &[u64; DIGITS],
    places: &Places,
    hands: Hands,
) -> Board
    requires choices { AreChoices on_board.now digits.now }
    requires places { ArePlaces on_board.now (slice_index digits.now 5) (slice_index digits.now 6) (slice_index digits.now 7) places.now }
    ensures { IsBoardOf (seen_by side (setup_of (board_of (numbers_by digits.now) (layers_by on_board.now digits.now)) hands)) result }
{
    let own = digits[3];
    let enemy = digits[4];
    let lions = (enemy, own);
    let own_lion = with_piece(side, 0, Layer::OwnLion, own, 0);
    let both_lions = with_piece(side, own_lion, Layer::EnemyLion, past(own, enemy), 0);
    let with_chicks = put(
        side,
        both_lions,
        Layer::Chicks,
        on_board[0],
        among(lions, wide(places.chicks)),
        digits[8],
    );
    let with_elephants = put(
        side,
        with_chicks,
        Layer::Elephants,
        on_board[1],
        among(lions, wide(places.elephants)),
        digits[9],
    );
    let planes = put(
        side,
        with_elephants,
        Layer::Giraffes,
        on_board[2],
        among(lions, wide(places.giraffes)),
        digits[10],
    );
    Board::in_planes(planes, seen_hands(side, hands))
}

// The hands as the side sees them.
fn seen_hands(side: Side, hands: Hands) -> Hands
    ensures { result ≡ seen_hands side hands }
{
    match side {
        Side::Mover => hands,
        Side::Enemy => Hands {
            mover: hands.enemy,
            enemy: hands.mover,
        },
    }
}

// The planes with as many pieces of a layer, at most two, on those squares; the number's digits are their forms.
#[inline(always)]
fn put(side: Side, planes: u64, layer: Layer, pieces: u64, squares: (u64, u64), number: u64) -> u64
    requires few { pieces ≤ 2 }
    requires first { 0 < pieces → squares.0 < 12 }
    requires second { 1 < pieces → squares.1 < 12 }
    ensures { (setup : Setup) → length setup.board ≡ 12 → AreFree pieces squares.0 squares.1 setup.board → AreSeen side setup planes
        → AreSeen side (setup_of (put (order layer) pieces squares.0 squares.1 number setup.board) setup.hands) result }
{
    let base = base_of(layer);
    match pieces {
        0 => planes,
        1 => with_piece(side, planes, layer, squares.0, number % base),
        _ => {
            let with_second = with_piece(side, planes, layer, squares.1, number % base);
            with_piece(side, with_second, layer, squares.0, number / base % base)
        }
    }
}

// The planes with a piece of that layer and form on an empty square, where nothing carries.
#[inline(always)]
fn with_piece(side: Side, planes: u64, layer: Layer, square: u64, form: u64) -> u64
    requires square { square < 12 }
    requires form { form < base_of (order layer) }
    ensures { (before after : Setup) → length before.board ≡ 12 → length after.board ≡ 12 → at before square ≡ None
        → IsWith before after square (cell_of (order layer) form) → AreSeen side before planes → AreSeen side after result }
{
    planes.wrapping_add(entry(side, layer, form) << seen_square(side, square))
}

// What a piece of that layer and form adds to the planes of square 0, as the side sees it.
#[inline(always)]
fn entry(side: Side, layer: Layer, form: u64) -> u64
    requires { form < base_of (order layer) }
    ensures { result ≡ entry (seen_cell side (cell_of (order layer) form)) }
{
    match layer {
        Layer::OwnLion => LIONS + ENEMIES * seen_owner(side, 0),
        Layer::EnemyLion => LIONS + ENEMIES * seen_owner(side, 1),
        Layer::Chicks => {
            CHICKS + GIRAFFES_AND_HENS * (form % 2) + ENEMIES * seen_owner(side, form / 2)
        }
        Layer::Elephants => ELEPHANTS + ENEMIES * seen_owner(side, form),
        Layer::Giraffes => GIRAFFES_AND_HENS + ENEMIES * seen_owner(side, form),
        Layer::Empty => 0,
    }
}

// The owner as the side sees it: 0 its own, 1 the other one.
fn seen_owner(side: Side, owner: u64) -> u64
    requires { owner ≤ 1 }
    ensures value { result ≡ seen_owner side owner }
    ensures bound { result ≤ 1 }
{
    match side {
        Side::Mover => owner,
        Side::Enemy => 1 - owner,
    }
}

// The square as the side sees it.
fn seen_square(side: Side, square: u64) -> u64
    requires { square < 12 }
    ensures value { result ≡ seen_square side square }
    ensures bound { result < 12 }
{
    match side {
        Side::Mover => square,
        Side::Enemy => 11 - square,
    }
}
