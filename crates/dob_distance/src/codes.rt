// Entries of a table as numbers of 16 bits: 0 is a draw, and a number above 0 is one more than the distance. Wins have
// odd and losses even distances, so the distance says which it is.
ghost use Rattle.std.specs.Prelude.{◌≡◌};
ghost use Rattle.dob_distance.specs.Codes.{IsEntry, value_of_code, code_of_value};

use crate::value::Value;

/// The value that the code stands for.
pub fn value_of_code(code: u16) -> Value
    ensures value { result ≡ value_of_code code }
    ensures entry { IsEntry result }
{
    if code == 0 {
        return Value::Draw;
    }
    let plies = code - 1;
    if plies % 2 == 1 {
        Value::Win(plies)
    } else {
        Value::Loss(plies)
    }
}

/// The code of the value, whose distance is odd for a win, even for a loss, and at most `MAX_DISTANCE`.
pub fn code_of_value(value: Value) -> u16
    requires { IsEntry value }
    ensures code { result ≡ code_of_value value }
    ensures back { value_of_code result ≡ value }
{
    match value {
        Value::Win(plies) | Value::Loss(plies) => plies + 1,
        Value::Draw => 0,
    }
}
