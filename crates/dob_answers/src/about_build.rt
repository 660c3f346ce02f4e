// Answers about a build by one owner: how many classes of a piece set it finds won, lost and drawn.
use dob_pieces::{Family, Memory};
use dob_reference::{Fault, alone};
use dob_value::{Table, Value};
use std::alloc::{AllocError, Global};

/// `win N loss N draw N`, if one node that owns all classes of the set is done after that many steps, else `none`.
/// An error is that of the build.
pub(crate) fn about_build(alloc: Global, family: Family, limit: u64) -> Result<String, Fault> {
    let made = alone(alloc, family, limit)?;
    Ok(tell_made(alloc, made)?)
}

// The numbers of the table's classes; `none` if there is no table.
fn tell_made(alloc: Global, made: Option<Table>) -> Result<String, Memory> {
    match made {
        None => Ok("none".to_string(alloc)?),
        Some(table) => Ok(tell_outcomes(alloc, &table)?),
    }
}

/// `win N loss N draw N`: the numbers of the table's classes.
pub(crate) fn tell_outcomes(alloc: Global, table: &Table) -> Result<String, AllocError> {
    let (mut wins, mut losses, mut draws) = (0_u64, 0_u64, 0_u64);
    for class in 0..table.class_count() {
        match table.value(class) {
            Value::Win(_) => wins += 1,
            Value::Loss(_) => losses += 1,
            Value::Draw => draws += 1,
        }
    }
    format!(in alloc; "win {wins} loss {losses} draw {draws}")
}
