// Rows of things: vectors in a vector.
ghost use Rattle.std.specs.Prelude.{◌≡◌, IfOk, OnOk, vec_len};
ghost use Rattle.dob_inboxes.specs.Rows.{AreRows, AreDealt, AreInOrder};

use dob_pieces::Memory;
use std::alloc::Global;

/// `count` rows without things.
pub fn empty_rows<T: Drop>(alloc: Global, count: usize) -> Result<Vec<Vec<T>>, Memory>
    ensures { IfOk result (λ rows. AreRows count 0 rows.items) }
{
    let mut rows = Vec::with_capacity(alloc, count)?;
    for _ in 0..count {
        rows.push(Vec::new(alloc))?;
    }
    Ok(rows)
}

/// Puts each thing at the end of the row of its place; there are as many rows as things.
///
/// # Errors
///
/// `Memory`, with some of the things put.
pub fn push_each<T: Drop>(things: Vec<T>, rows: &mut Vec<Vec<T>>) -> Result<(), Memory>
    requires { vec_len things ≡ vec_len rows.old }
    ensures { OnOk result (AreDealt (vec_len things) things.items rows.old.items rows.new.items) }
{
    for (place, thing) in things.into_iter().enumerate() {
        rows[place].push(thing)?;
    }
    Ok(())
}

// The things of all rows, row by row; each row has `width`.
//
// # Errors
//
// `Memory`.
pub(crate) fn join<T: Drop>(
    alloc: Global,
    rows: Vec<Vec<T>>,
    width: usize,
) -> Result<Vec<T>, Memory>
    requires { AreRows (vec_len rows) width rows.items }
    ensures { IfOk result (λ things. AreInOrder width (vec_len rows) rows.items things.items) }
{
    let mut things = Vec::new(alloc);
    for mut row in rows {
        things.append(&mut row)?;
    }
    Ok(things)
}
