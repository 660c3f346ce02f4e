// The parts of a table's classes that are looked at by themselves, each in one thread.
ghost use Rattle.std.specs.Prelude.{◌≡◌, ◌*◌, ◌≤◌, length};
ghost use Rattle.dob_check.specs.Parts.{IsPlace, part_count, part_end};

use dob_value::Table;

/// How many classes a part has.
pub(crate) const PART: u64 = 65_536;

/// How many parts there are; the last one may have no class.
pub(crate) fn part_count(table: &Table) -> u64
    ensures { result ≡ part_count table.now.values }
{
    table.class_count() / PART + 1
}

/// The first class of the part of that place, and the end of its classes.
pub(crate) fn part_bounds(table: &Table, place: u64) -> (u64, u64)
    requires { IsPlace table.now.values place }
    ensures first { result.0 ≡ place * 65536 }
    ensures end { result.1 ≡ part_end table.now.values place }
    ensures order { result.0 ≤ result.1 }
    ensures within { result.1 ≤ length table.now.values }
{
    let count = table.class_count();
    let first = place * PART;
    let size = PART.min(count - first);
    (first, first + size)
}
