// Whether a table is consistent: each class's value follows from its status and its successors' values.
ghost use Rattle.std.specs.Prelude.{◌≡◌, ◌<◌, ◌≤◌, true, false, length, IfOk, IfErr};
ghost use Rattle.dob_value.specs.Follows.{IsConsistent, IsValueTable};
ghost use Rattle.dob_probe.specs.Checks.{ClassBreaks, ClassFollows};
ghost use Rattle.dob_probe.specs.Faults.{IsFaultOfCheck, IsVerdict};

use crate::fault::Fault;
use crate::successors::value_that_follows;
use dob_moves::Walk;
use dob_value::Table;

/// Passes the table exactly if each class's value follows from its status and its successors' values, so only if it
/// is the value table. The classes are looked at one after the other, in the calling thread.
///
/// # Errors
///
/// `Inconsistent` with the least class whose value doesn't follow.
pub fn check(table: &Table) -> Result<(), Fault>
    ensures consistent { IfOk result (λ _. IsConsistent table.now.family table.now.values) }
    ensures right { IfOk result (λ _. IsValueTable table.now.family table.now.values) }
    ensures fault { IfErr result (IsFaultOfCheck table.now) }
    ensures passed { IsConsistent table.now.family table.now.values → result ≡ Ok tt }
{
    // That the table has an entry for each class is known from here on.
    let _family = table.family();
    check_classes(table, 0, table.class_count())
}

/// Passes the classes from `first` on up to `end` exactly if the value of each follows from its status and its successors'
/// values. One list of moves serves them all.
///
/// # Errors
///
/// `Inconsistent` with the least of them whose value doesn't follow.
pub fn check_classes(table: &Table, first: u64, end: u64) -> Result<(), Fault>
    requires { end ≤ length table.now.values }
    ensures { IsVerdict table.now first end result }
{
    let mut walk = Walk::new();
    for class in first..end {
        if !class_follows(&mut walk, table, class) {
            return Err(Fault::Inconsistent(class));
        }
    }
    Ok(())
}

// Whether the value of the class follows. The walk is room for its moves: what it holds before and after plays no part.
fn class_follows(walk: &mut Walk, table: &Table, class: u64) -> bool
    requires { class < length table.now.values }
    ensures follows { result ≡ true → ClassFollows table.now class }
    ensures breaks { result ≡ false → ClassBreaks table.now class }
{
    // That the table has a class for each entry is known from here on.
    let _classes = table.classes();
    value_that_follows(walk, table, class) == table.value(class)
}
