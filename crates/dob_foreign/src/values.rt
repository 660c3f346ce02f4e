// A value as two numbers.
ghost use Rattle.std.specs.Prelude.{◌≡◌};
ghost use Rattle.dob_distance.specs.Distances.{plies_of};
ghost use Rattle.dob_foreign.specs.Values.{outcome_number};

use dob_distance::Value;

/// 0 for a draw, 1 for a win and 2 for a loss of the side to move.
pub fn outcome_number(value: Value) -> u32
    ensures { result ≡ outcome_number value }
{
    match value {
        Value::Draw => 0,
        Value::Win(_) => 1,
        Value::Loss(_) => 2,
    }
}

/// The least number of plies in which that can be forced, 0 for a draw.
pub fn plies_of(value: Value) -> u32
    ensures { result ≡ plies_of value }
{
    u32::from(value.plies())
}
