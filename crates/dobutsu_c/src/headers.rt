// What the header of a database's file says.
ghost use Rattle.std.specs.Prelude.{◌≡◌, ◌≢◌};
ghost use Rattle.dob_pieces.specs.declared.profile.Family.{Family as AnyFamily};
ghost use Rattle.dob_dbfile.specs.declared.fault.Fault.{Fault as AnyFault};
ghost use Rattle.dob_dbfile.specs.declared.fault.Fault.TheVariants.{Digest};
ghost use Rattle.dob_dbfile.specs.declared.header.Format.{Format as AnyFormat};
ghost use Rattle.dob_device.specs.Devices.{whole};
ghost use Rattle.dob_dbfile.specs.Faults.{HasReadFault, IsNoLonger};
ghost use Rattle.dob_foreign.specs.Faults.{file_number};
ghost use Rattle.dob_foreign.specs.Headers.{shown_header};

use dob_dbfile::held_family;
use dob_foreign::{DobutsuHeader, file_number, shown_header};

/// What the header of a database's file says. It answers 0 and writes that, or the number of the first fault that holds and writes nothing: 15 to 19 or 27
/// of the header and the length. No digest is read, and no memory taken.
#[unsafe(no_mangle)]
pub extern "C" fn dobutsu_header(file: &[u8], header: &mut DobutsuHeader) -> u32
    ensures told { result ≡ 0 → (format : AnyFormat) × (family : AnyFamily) × IsNoLonger format family (whole file.now) × (header.new ≡ shown_header format family) }
    ensures refused { result ≢ 0 → (fault : AnyFault) × HasReadFault (whole file.now) fault × (result ≡ file_number fault) }
    ensures fault { (fault : AnyFault) → HasReadFault (whole file.now) fault → fault ≢ Digest → result ≡ file_number fault }
    ensures unchanged { result ≢ 0 → header.new ≡ header.old }
{
    match held_family(file) {
        Ok((format, family)) => {
            *header = shown_header(format, family);
            0
        }
        Err(fault) => file_number(fault),
    }
}
