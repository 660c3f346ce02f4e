// The moves of a line, one a line of text with its number.
ghost use Rattle.std.specs.Prelude.{◌≡◌, ◌++◌, ◌<◌, ◌+◌, ◌^◌, OnOk, IfOk, string_bytes};
ghost use Rattle.dob_text.specs.MoveText.{numbered_move, numbered_text};

use crate::write_moves::write_move;
use dob_moves::Move;
use dob_pieces::Memory;
use std::alloc::Global;

// Writes the move with its number at the end, behind `before` moves.
fn push_numbered(
    alloc: Global,
    text: &mut String,
    before: usize,
    played: Move,
    second: bool,
) -> Result<(), Memory>
    requires { before + 1 < 2 ^ 64 }
    ensures { OnOk result (string_bytes text.new ≡ string_bytes text.old ++ numbered_move before second played) }
{
    let written = write_move(alloc, played, second)?;
    let name = written.as_str();
    let number = before + 1;
    let line = format!(in alloc; "{number}. {name}\n")?;
    text.push_str(line.as_str())?;
    Ok(())
}

/// The moves of a line that one side begins, each on a line of its own with its number from 1 on, as `1. La2-a3`. They are
/// written as by [`write_move`](crate::write_move): those of the side that doesn't begin in lower case, its squares turned back.
///
/// # Errors
///
/// `Memory` if no memory is left for the text.
pub fn write_line(alloc: Global, moves: &[Move]) -> Result<String, Memory>
    ensures { IfOk result (λ text. string_bytes text ≡ numbered_text moves.now) }
{
    let mut text = String::new(alloc);
    let mut before = 0usize;
    let mut second = false;
    let mut left = moves;
    while let Some((first, rest)) = left.split_first() {
        push_numbered(alloc, &mut text, before, *first, second)?;
        before += 1;
        second = !second;
        left = rest;
    }
    Ok(text)
}
