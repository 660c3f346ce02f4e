// What is answered of a position: a fault's number, or 0 and the value.
ghost use Rattle.std.specs.Prelude.{◌≡◌, ◌≢◌, ℕ, List, MatchResult};
ghost use Rattle.dobutsu_c.specs.Probed.{IsAnswer};
ghost use Rattle.dobutsu_c.specs.ByIndex.{number_by};
ghost use Rattle.dobutsu_c.specs.Probes.{IsTextOf, shown};

use crate::by_index::{ByFault, probe_at, probe_by};
use crate::numbering::Numbering;
use crate::value::{DobutsuValue, shown};
use dob_pieces::Position;
use dob_value::Value;

/// Answers the position whose text that is.
pub(crate) fn answer_text(file: &[u8], by: Numbering, text: &[u8], answer: &mut DobutsuValue) -> u32
    ensures { IsAnswer file.now by.entry text.now answer.old answer.new result }
{
    told(probe_by(file, by, text), answer)
}

pub(crate) fn answer_position(
    file: &[u8],
    by: Numbering,
    position: Position,
    answer: &mut DobutsuValue,
) -> u32
    ensures { (text : List ℕ) → IsTextOf text position.setup → IsAnswer file.now by.entry text answer.old answer.new result }
{
    told(probe_at(file, by, position), answer)
}

// Writes a value, or answers a fault.
fn told(probed: Result<Value, ByFault>, answer: &mut DobutsuValue) -> u32
    ensures { MatchResult probed
        (λ value. (result ≡ 0) × (answer.new ≡ shown value))
        (λ fault. (result ≡ number_by fault) × (result ≢ 0) × (answer.new ≡ answer.old)) }
{
    match probed {
        Ok(value) => {
            *answer = shown(value);
            0
        }
        Err(fault) => fault.number(),
    }
}
