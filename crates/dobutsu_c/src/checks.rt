// Whether the bytes of a file are those of the value table.
ghost use Rattle.std.specs.Prelude.{◌≡◌, ◌≢◌, ◌⊎◌};
ghost use Rattle.dob_value.specs.Follows.{ClassTable, IsConsistent, IsTable, IsValueTable};
ghost use Rattle.dob_dbfile.specs.declared.fault.Fault.{Fault as AnyFault};
ghost use Rattle.dob_device.specs.Devices.{whole};
ghost use Rattle.dob_dbfile.specs.Faults.{HasReadFault};
ghost use Rattle.dob_dbfile.specs.Format.{IsFile};
ghost use Rattle.dob_probe.specs.Checks.{IsFirstBroken};
ghost use Rattle.dob_foreign.specs.Faults.{file_number};

use crate::numbers::{INCONSISTENT, MEMORY};
use dob_dbfile::{HeldSource, read_table};
use dob_foreign::file_number;
use dob_probe::{Fault, check};
use std::alloc::Global;

/// Whether the bytes are a database's file of a consistent table, which is the value table. It answers 0 if they are; 21
/// where the table isn't consistent, and writes the least class whose value doesn't follow from its successors' values; else
/// the number of the first fault that holds of the file, its digest read too, or 23 if memory runs out, and writes nothing.
/// It takes 2 bytes of memory a class and some millions more, gives all back, and looks at each class's moves in one thread.
#[unsafe(no_mangle)]
pub extern "C" fn dobutsu_check(alloc: Global, file: &[u8], class: &mut u64) -> u32
    ensures right { result ≡ 0 → (table : ClassTable) × IsFile file.now table × IsValueTable table.family table.values }
    ensures passed { (table : ClassTable) → IsFile file.now table → IsConsistent table.family table.values → (result ≡ 0) ⊎ (result ≡ 23) }
    ensures broken { result ≡ 21 → (table : ClassTable) × IsFile file.now table × IsTable table.family table.values × IsFirstBroken table class.new }
    ensures refused { result ≢ 0 → ((result ≡ 21) ⊎ (result ≡ 23))
        ⊎ ((fault : AnyFault) × HasReadFault (whole file.now) fault × (result ≡ file_number fault)) }
    ensures fault { (fault : AnyFault) → HasReadFault (whole file.now) fault → (result ≡ file_number fault) ⊎ (result ≡ 23) }
    ensures unchanged { result ≢ 21 → class.new ≡ class.old }
{
    let table = match read_table(alloc, &mut HeldSource::new(file)) {
        Ok(table) => table,
        Err(fault) => return file_number(fault),
    };
    match check(&table) {
        Ok(()) => 0,
        Err(Fault::Inconsistent(broken)) => {
            *class = broken;
            INCONSISTENT
        }
        // A check takes no memory, and tells no other fault.
        Err(_) => MEMORY,
    }
}
