// The lines that tell moves with their values: all of them, or the first.
ghost use Rattle.std.specs.Prelude.{◌≡◌, IfOk, flat_map, string_bytes};
ghost use Rattle.dob_lines.specs.ValuedMoves.{best_move_line, valued_move_line, move_lines};

use crate::texts::joined;
use crate::values::line_of;
use dob_pieces::Memory;
use dob_probe::ValuedMove;
use dob_text::write_move;
use std::alloc::Global;
use std::fmt::Write;

/// The lines of the moves, or that there is none.
pub fn move_lines(alloc: Global, legal: &[ValuedMove]) -> Result<String, Memory>
    ensures { IfOk result (λ lines. string_bytes lines ≡ move_lines legal.now) }
{
    if legal.is_empty() {
        Ok("end\n".to_string(alloc)?)
    } else {
        some_lines(alloc, legal)
    }
}

/// The line of the first move, or that there is none.
pub fn best_move_line(alloc: Global, legal: &[ValuedMove]) -> Result<String, Memory>
    ensures { IfOk result (λ line. string_bytes line ≡ best_move_line legal.now) }
{
    match legal {
        [] => Ok("end\n".to_string(alloc)?),
        [first, ..] => valued_move_line(alloc, *first),
    }
}

fn some_lines(alloc: Global, legal: &[ValuedMove]) -> Result<String, Memory>
    ensures { IfOk result (λ lines. string_bytes lines ≡ flat_map valued_move_line legal.now) }
{
    joined(alloc, legal, |valued| valued_move_line(alloc, valued))
}

fn valued_move_line(alloc: Global, valued: ValuedMove) -> Result<String, Memory>
    ensures { IfOk result (λ line. string_bytes line ≡ valued_move_line valued) }
{
    let mut line = write_move(alloc, valued.played, false)?;
    let value = line_of(alloc, valued.value)?;
    write!(line, " {value}")?;
    Ok(line)
}
