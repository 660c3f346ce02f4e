// What is kept of the families that were asked about last, so that questions of one family which follow one another
// open its classes once and sweep them once.
ghost use Rattle.std.specs.Prelude.{◌≡◌, IfOk, IsTrue};

use dob_classes::Classes;
use dob_pieces::{Family, Memory, PieceSet, Profile};
use dob_value::{Table, sweep_table};
use std::alloc::Global;

/// The classes of one family and the values of one family, each of the family for which they were last asked.
#[derive(Drop)]
pub(crate) struct Opened {
    classes: Option<Classes>,
    table: Option<Table>,
}

impl Opened {
    /// Nothing is opened yet.
    pub(crate) fn new() -> Opened {
        Opened {
            classes: None,
            table: None,
        }
    }

    /// The classes of the family, opened where those that are kept are another family's.
    ///
    /// # Errors
    ///
    /// As those of `Classes::open`.
    pub(crate) fn classes_of(&mut self, alloc: Global, family: Family) -> Result<&Classes, Memory>
        ensures { IfOk result (λ classes. classes.now.family ≡ family) }
    {
        let classes = classes_for(alloc, self.classes.take(), family)?;
        Ok(self.classes.insert(classes))
    }

    /// The values of the family, swept where those that are kept are another family's.
    ///
    /// # Errors
    ///
    /// As those of `sweep_table`.
    pub(crate) fn table_of(
        &mut self,
        alloc: Global,
        family: Family,
    ) -> Result<&Table, dob_value::Fault>
        ensures { IfOk result (λ table. table.now.family ≡ family) }
    {
        let table = table_for(alloc, self.table.take(), family)?;
        Ok(self.table.insert(table))
    }
}

// The classes of the family: those that are kept, where they are its own.
fn classes_for(alloc: Global, kept: Option<Classes>, family: Family) -> Result<Classes, Memory>
    ensures { IfOk result (λ classes. classes.family ≡ family) }
{
    if let Some(classes) = kept {
        if are_same(classes.family, family) {
            return Ok(classes);
        }
    }
    Classes::open(alloc, family)
}

// Its values: those that are kept, where they are its own.
fn table_for(alloc: Global, kept: Option<Table>, family: Family) -> Result<Table, dob_value::Fault>
    ensures { IfOk result (λ table. table.family ≡ family) }
{
    if let Some(table) = kept {
        if are_same(table.family(), family) {
            return Ok(table);
        }
    }
    sweep_table(alloc, family)
}

// Whether the two are one family.
fn are_same(one: Family, other: Family) -> bool
    ensures { IsTrue result → one ≡ other }
{
    match (one.profile, other.profile) {
        (Profile::A, Profile::A) | (Profile::B, Profile::B) => are_same_sets(one.set, other.set),
        _ => false,
    }
}

fn are_same_sets(one: PieceSet, other: PieceSet) -> bool
    ensures { IsTrue result → one ≡ other }
{
    one.chicks == other.chicks && one.elephants == other.elephants && one.giraffes == other.giraffes
}
