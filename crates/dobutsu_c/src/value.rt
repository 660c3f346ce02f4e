// Values as other languages see them.
ghost use Rattle.std.specs.Prelude.{◌≡◌};
ghost use Rattle.dobutsu_c.specs.Probes.{shown};

use dob_foreign::{outcome_number, plies_of};
use dob_value::Value;

/// A value: its kind, 0 for a draw, 1 for a win and 2 for a loss of the side to move, and the least number of plies in which
/// that can be forced, 0 for a draw.
#[repr(C)]
#[derive(Clone, Copy)]
pub struct DobutsuValue {
    pub kind: u32,
    pub plies: u32,
}

pub(crate) fn shown(value: Value) -> DobutsuValue
    ensures { result ≡ shown value }
{
    DobutsuValue {
        kind: outcome_number(value),
        plies: plies_of(value),
    }
}
