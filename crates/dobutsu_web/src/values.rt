// The value that a record says, for the side to move, and for the side that moved there.
ghost use Rattle.std.specs.Prelude.{◌≡◌, ◌≢◌, length, MatchOption};
ghost use Rattle.dob_distance.specs.declared.value.Value.{Value as AnyValue};
ghost use Rattle.dob_probe.specs.ValuedMoves.{seen_from_before};
ghost use Rattle.dobutsu_web.specs.Values.{IsRecordOf, shown_value};

use crate::numbers::TRUNCATED;
use dob_dbfile::value_in;
use dob_foreign::{outcome_number, plies_of};
use dob_probe::value_seen;
use dob_value::Value;

/// A value: its kind, 0 for a draw, 1 for a win and 2 for a loss, and the least number of plies in which that can be forced, 0 for a draw.
#[repr(C)]
#[derive(Clone, Copy)]
pub struct DobutsuValue {
    pub kind: u32,
    pub plies: u32,
}

/// The value that a class's record, two bytes of a file, gives its positions, for the side to move. It answers 0 and writes the value, or 15 if the bytes
/// aren't two, and writes nothing.
#[unsafe(no_mangle)]
pub extern "C" fn dobutsu_value(bytes: &[u8], value: &mut DobutsuValue) -> u32
    ensures told { result ≡ 0 → (v : AnyValue) × IsRecordOf v bytes.now × (value.new ≡ shown_value v) }
    ensures short { result ≢ 0 → (result ≡ 15) × (length bytes.now ≢ 2) }
    ensures unchanged { result ≢ 0 → value.new ≡ value.old }
{
    match value_of(bytes) {
        Some(found) => {
            *value = shown_value(found);
            0
        }
        None => TRUNCATED,
    }
}

/// The value that a move has for the side that makes it, by the record of what it leads to: a win in one ply more than that is lost in, a loss in one ply
/// more than that is won in, or a draw. It answers as `dobutsu_value`.
#[unsafe(no_mangle)]
pub extern "C" fn dobutsu_value_of_move(bytes: &[u8], value: &mut DobutsuValue) -> u32
    ensures told { result ≡ 0 → (v : AnyValue) × IsRecordOf v bytes.now × (value.new ≡ shown_value (seen_from_before v)) }
    ensures short { result ≢ 0 → (result ≡ 15) × (length bytes.now ≢ 2) }
    ensures unchanged { result ≢ 0 → value.new ≡ value.old }
{
    match value_of(bytes) {
        Some(found) => {
            *value = shown_value(value_seen(found));
            0
        }
        None => TRUNCATED,
    }
}

// The value of a record.
fn value_of(bytes: &[u8]) -> Option<Value>
    ensures { MatchOption result (length bytes.now ≢ 2) (λ v. IsRecordOf v bytes.now) }
{
    if bytes.len() == 2 {
        Some(value_in(bytes))
    } else {
        None
    }
}

fn shown_value(value: Value) -> DobutsuValue
    ensures { result ≡ shown_value value }
{
    DobutsuValue {
        kind: outcome_number(value),
        plies: plies_of(value),
    }
}
