// The lines that tell the value of a position and its line.
ghost use Rattle.std.specs.Prelude.{◌≡◌, ◌++◌, ◌∷◌, [], false, if◌then◌else◌, IfOk, OnOk, string_bytes};
ghost use Rattle.dob_text.specs.MoveText.{move_text, numbered_text};
ghost use Rattle.dob_pieces.specs.Bytes.{line_feed};
ghost use Rattle.dob_lines.specs.Played.{end_text, moves_lines, moves_text, played_drawing, space_before};

use crate::values::line_of;
use dob_moves::Move;
use dob_pieces::{Memory, Position};
use dob_text::{draw_position, write_line, write_move};
use dob_value::Value;
use std::alloc::Global;
use std::fmt::Write;

/// The lines that give the moves of a position of that value.
pub fn moves_lines(
    alloc: Global,
    is_numbered: bool,
    value: Value,
    moves: &[Move],
) -> Result<String, Memory>
    ensures { IfOk result (λ lines. string_bytes lines ≡ moves_lines is_numbered value moves.now) }
{
    if moves.is_empty() {
        Ok(end_line(value).to_string(alloc)?)
    } else {
        played_lines(alloc, is_numbered, moves)
    }
}

fn played_lines(alloc: Global, is_numbered: bool, moves: &[Move]) -> Result<String, Memory>
    ensures { IfOk result (λ lines. string_bytes lines
        ≡ (if is_numbered then numbered_text moves.now else moves_text false moves.now ++ line_feed ∷ [])) }
{
    if is_numbered {
        write_line(alloc, moves)
    } else {
        move_line(alloc, moves)
    }
}

// The line if there are no moves.
fn end_line(value: Value) -> &'static str
    ensures { result.now ≡ end_text value ++ line_feed ∷ [] }
{
    match value {
        Value::Draw => "draw\n",
        Value::Win(_) | Value::Loss(_) => "end\n",
    }
}

fn move_line(alloc: Global, moves: &[Move]) -> Result<String, Memory>
    ensures { IfOk result (λ line. string_bytes line ≡ moves_text false moves.now ++ line_feed ∷ []) }
{
    let mut line = String::new(alloc);
    push_moves(alloc, &mut line, moves)?;
    line.push_str("\n")?;
    Ok(line)
}

// Writes the moves at the end.
fn push_moves(alloc: Global, line: &mut String, moves: &[Move]) -> Result<(), Memory>
    ensures { OnOk result (string_bytes line.new ≡ string_bytes line.old ++ moves_text false moves.now) }
{
    let mut second = false;
    let mut left = moves;
    while let Some((first, rest)) = left.split_first() {
        push_move(alloc, line, *first, second, rest)?;
        second = !second;
        left = rest;
    }
    Ok(())
}

// Writes the move at the end, and a space where more moves follow.
fn push_move(
    alloc: Global,
    line: &mut String,
    played: Move,
    second: bool,
    rest: &[Move],
) -> Result<(), Memory>
    ensures { OnOk result (string_bytes line.new ≡ string_bytes line.old ++ (move_text played second ++ space_before rest.now)) }
{
    let text = write_move(alloc, played, second)?;
    line.push_str(text.as_str())?;
    line.push_str(space_before(rest))?;
    Ok(())
}

// A space where more moves follow.
fn space_before(rest: &[Move]) -> &'static str
    ensures { result.now ≡ space_before rest.now }
{
    match rest {
        [] => "",
        [_, ..] => " ",
    }
}

/// The position's drawing, its value and the moves of its line.
pub fn played_drawing(
    alloc: Global,
    position: &Position,
    value: Value,
    moves: &[Move],
) -> Result<String, Memory>
    ensures { IfOk result (λ lines. string_bytes lines ≡ played_drawing position.now.setup value moves.now) }
{
    let mut lines = draw_position(alloc, position)?;
    let told = line_of(alloc, value)?;
    let played = write_line(alloc, moves)?;
    write!(lines, "\n{told}{played}")?;
    Ok(lines)
}
