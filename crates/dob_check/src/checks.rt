// Whether a table is consistent, looked at by as many threads as there are processors.
ghost use Rattle.std.specs.Prelude.{◌≡◌, ℕ, ◌⊎◌, ◌<◌, ◌≤◌, ◌+◌, ◌*◌, length, IfOk, IfErr, is_err};
ghost use Rattle.dob_value.specs.Follows.{IsConsistent, IsValueTable};
ghost use Rattle.dob_probe.specs.Faults.{IsFaultOfCheck, IsVerdict};
ghost use Rattle.dob_check.specs.Parts.{IsPlace, part_end};
ghost use Rattle.dob_check.specs.Watching.{told_of, IsToldAt, IsToldIn};

use crate::parts::{part_bounds, part_count};
use dob_probe::{Fault, check_classes};
use dob_value::Table;
use rayon::prelude::*;
use std::thread::Threads;

// How many classes are looked at between two words to a watch: a power of 2, so that a place among them is a mask.
const EACH: u64 = 65_536;

/// Receives how far a check is.
pub trait Watch {
    ghost use Rattle.std.specs.Prelude.{ℕ};

    // By `told watch classes` it may have learned so.
    ghost told: { Self → ℕ → Type 0 };

    /// Called after at most 65,536 further classes, whose number it gets; it may lag, and which classes they are is left open.
    fn passed(&self, classes: u64)
        ensures { told self.now classes };
}

/// A `Watch` that ignores how far a check is.
#[derive(Clone, Copy)]
pub struct Unwatched;

impl Watch for Unwatched {
    ghost told = { λ _ _. Unit {0} };

    fn passed(&self, _classes: u64) {}
}

/// Passes the table exactly if each class's value follows from its status and its successors' values, so only if it
/// is the value table. The classes are looked at in parts of 65,536, each by itself, in as many threads as there are processors.
///
/// # Errors
///
/// `Inconsistent` with the least class whose value doesn't follow.
pub fn check(rt: &(impl Threads + Sync), table: &Table) -> Result<(), Fault>
    ensures consistent { IfOk result (λ _. IsConsistent table.now.family table.now.values) }
    ensures right { IfOk result (λ _. IsValueTable table.now.family table.now.values) }
    ensures fault { IfErr result (IsFaultOfCheck table.now) }
    ensures passed { IsConsistent table.now.family table.now.values → result ≡ Ok tt }
{
    check_watched(rt, table, &Unwatched)
}

/// As [`check`], and reports to the watch at each 65,536th class and at the last one that is left: of a table that passes it
/// reports as many classes as there are.
///
/// # Errors
///
/// Those of [`check`].
pub fn check_watched<R: Threads + Sync, W: Watch + Sync>(
    rt: &R,
    table: &Table,
    watch: &W,
) -> Result<(), Fault>
    ensures consistent { IfOk result (λ _. IsConsistent table.now.family table.now.values) }
    ensures right { IfOk result (λ _. IsValueTable table.now.family table.now.values) }
    ensures fault { IfErr result (IsFaultOfCheck table.now) }
    ensures passed { IsConsistent table.now.family table.now.values → result ≡ Ok tt }
    ensures told { (class : ℕ) → class < length table.now.values → IsToldAt (W.told watch.now) (length table.now.values) class }
{
    // That the table has an entry for each class is known from here on.
    let _family = table.family();
    let first_fault = (0..part_count(table))
        .into_par_iter()
        .with_min_len(1)
        .map(
            |place: u64| -> Result<(), Fault>
                requires { IsPlace table.now.values place }
                ensures verdict { IsVerdict table.entry.now (place * 65536) (part_end table.entry.now.values place) result }
                ensures told { IsToldIn (W.told watch.entry.now) table.entry.now.values place }
            { check_part(table, watch, place) },
        )
        .find_first(
            rt,
            |verdict: &Result<(), Fault>| -> bool
                ensures { result ≡ is_err verdict.now }
            { verdict.is_err() },
        );
    first_fault.unwrap_or(Ok(()))
}

// Passes the part of that place exactly if the value of each of its classes follows, and reports it to the watch.
fn check_part<W: Watch>(table: &Table, watch: &W, place: u64) -> Result<(), Fault>
    requires { IsPlace table.now.values place }
    ensures verdict { IsVerdict table.now (place * 65536) (part_end table.now.values place) result }
    ensures told { IsToldIn (W.told watch.now) table.now.values place }
{
    let (first, end) = part_bounds(table, place);
    let verdict = check_classes(table, first, end);
    report(watch, end - first);
    verdict
}

// Reports so many further classes to the watch, if there are any.
fn report<W: Watch>(watch: &W, classes: u64)
    ensures { (classes ≡ 0) ⊎ W.told watch.now classes }
{
    if classes > 0 {
        watch.passed(classes);
    }
}

/// Calls the watch at the class, one of `count`, if a call is due.
pub(crate) fn tell<W: Watch>(watch: &W, count: u64, class: u64)
    requires { class < count }
    ensures { IsToldAt (W.told watch.now) count class }
{
    report(watch, news_at(count, class));
}

// How many more classes are reported to the watch at that one of `count`.
fn news_at(count: u64, class: u64) -> u64
    requires { class < count }
    ensures adds { told_of count class + result ≡ told_of count (class + 1) }
    ensures few { result ≤ 65536 }
{
    let after = class + 1;
    if after % EACH == 0 {
        EACH
    } else if after == count {
        after % EACH
    } else {
        0
    }
}
