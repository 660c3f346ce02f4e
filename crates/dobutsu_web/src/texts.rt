// Texts of moves and of what they lead to, written into a room of their own, since no memory is taken.
ghost use Rattle.std.specs.Prelude.{◌≡◌, ◌≢◌, ◌≤◌, ◌+◌, ◌++◌};
ghost use Rattle.arrayvec.specs.ArrayVec.{array_vec_len};
ghost use Rattle.dob_text.specs.MoveText.{seen, square_text, move_text};
ghost use Rattle.dob_foreign.specs.Texts.{IsText};
ghost use Rattle.dobutsu_web.specs.Asked.{IsRefused};
ghost use Rattle.dobutsu_web.specs.Steps.{HasNone, HasNoMove};
ghost use Rattle.dobutsu_web.specs.Texts.{IsToldMoveText, IsToldOutcome};

use crate::asked::ask;
use crate::numbers::NO_MOVE;
use crate::steps::move_by_place;
use arrayvec::ArrayVec;
use dob_foreign::{DobutsuText, position_text, written};
use dob_moves::{Move, move_at};
use dob_pieces::{Side, Square};
use dob_text::piece_letter;
use dob_value::outcome_of;

/// The text of the move or catch that `dobutsu_move` finds at that place. `second` is not 0 if the side that moves isn't the one that moves first in a
/// line: its letter is then in lower case, and its squares are turned back. It answers 0 and writes the text, or 28 or a fault as `dobutsu_move` does.
#[unsafe(no_mangle)]
pub extern "C" fn dobutsu_move_text(
    text: &[u8],
    profile: u32,
    place: u32,
    second: u32,
    written: &mut DobutsuText,
) -> u32
    ensures told { result ≡ 0 → IsToldMoveText text.now profile place second written.new }
    ensures none { result ≡ 28 → HasNone text.now profile place }
    ensures refused { result ≢ 0 → result ≢ 28 → IsRefused text.now profile result }
    ensures unchanged { result ≢ 0 → written.new ≡ written.old }
{
    match ask(text, profile) {
        Ok(asked) => match move_by_place(&asked, place as usize) {
            Some(played) => {
                *written = move_text(&played, second != 0);
                0
            }
            None => NO_MOVE,
        },
        Err(refusal) => refusal.number(),
    }
}

/// The text of the position that the move of an open position at that place leads to, seen from the side that moves next. It answers 0 and writes the text,
/// 28 if the position has no move at that place, or a fault as `dobutsu_class` does.
#[unsafe(no_mangle)]
pub extern "C" fn dobutsu_after(
    text: &[u8],
    profile: u32,
    place: u32,
    written: &mut DobutsuText,
) -> u32
    ensures told { result ≡ 0 → IsToldOutcome text.now profile place written.new }
    ensures none { result ≡ 28 → HasNoMove text.now profile place }
    ensures refused { result ≢ 0 → result ≢ 28 → IsRefused text.now profile result }
    ensures unchanged { result ≢ 0 → written.new ≡ written.old }
{
    match ask(text, profile) {
        Ok(asked) => match move_at(asked.family.profile, &asked.position, place as usize) {
            Some(played) => {
                *written = position_text(&outcome_of(asked.family, &asked.position, played));
                0
            }
            None => NO_MOVE,
        },
        Err(refusal) => refusal.number(),
    }
}

fn move_text(played: &Move, second: bool) -> DobutsuText
    ensures { IsText result (move_text played.now second) }
{
    let mut letters = ArrayVec::new();
    push_move(&mut letters, played, second);
    written(&letters)
}

// Writes a move.
fn push_move(letters: &mut ArrayVec<u8, 32>, played: &Move, second: bool)
    requires { array_vec_len letters.old ≡ 0 }
    ensures { letters.new.items ≡ move_text played.now second }
{
    let side = if second { Side::Enemy } else { Side::Mover };
    match *played {
        Move::Step {
            kind,
            from,
            to,
            catch,
            grows,
        } => {
            letters.push(piece_letter(side, kind));
            push_square(letters, from, second);
            letters.push(if catch { b'x' } else { b'-' });
            push_square(letters, to, second);
            if grows {
                letters.push(b'+');
            }
        }
        Move::Put { kind, to } => {
            letters.push(piece_letter(side, kind.on_board()));
            letters.push(b'*');
            push_square(letters, to, second);
        }
    }
}

// Writes the name of a square at the end, as the side to move in the first position sees it.
fn push_square(letters: &mut ArrayVec<u8, 32>, square: Square, second: bool)
    requires { array_vec_len letters.old + 2 ≤ 32 }
    ensures items { letters.new.items ≡ letters.old.items ++ square_text (seen second square) }
    ensures size { array_vec_len letters.new ≡ array_vec_len letters.old + 2 }
{
    let there = if second { square.turned() } else { square };
    letters.push(b'a' + there.column() as u8);
    letters.push(b'1' + there.row() as u8);
}
