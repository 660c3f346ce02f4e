// How a value is printed.
ghost use Rattle.std.specs.Prelude.{◌≡◌, IfOk, string_bytes};
ghost use Rattle.dob_lines.specs.Values.{value_line};

use dob_pieces::Memory;
use dob_value::Value;
use std::alloc::Global;

/// The line that gives a value.
pub fn line_of(alloc: Global, value: Value) -> Result<String, Memory>
    ensures { IfOk result (λ line. string_bytes line ≡ value_line value) }
{
    match value {
        Value::Win(plies) => Ok(format!(in alloc; "win {plies}\n")?),
        Value::Loss(plies) => Ok(format!(in alloc; "loss {plies}\n")?),
        Value::Draw => Ok("draw\n".to_string(alloc)?),
    }
}
