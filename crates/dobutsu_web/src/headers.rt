// What a database's file says of itself in its first bytes, for a program that reads it by slices.
ghost use Rattle.std.specs.Prelude.{◌≡◌, ◌≢◌};
ghost use Rattle.dobutsu_web.specs.Headers.{IsToldHeader, IsNoFile};

use dob_dbfile::front_family;
use dob_foreign::{DobutsuHeader, file_number, shown_header};

/// What a file of `size` bytes says that begins with those of `front`, the first 21 or all of a shorter file. It answers 0 and writes that, or the number of the file's
/// first fault and writes nothing: 15 to 19 or 27, by its header and its length. No digest is read.
#[unsafe(no_mangle)]
pub extern "C" fn dobutsu_header(front: &[u8], size: u64, header: &mut DobutsuHeader) -> u32
    ensures told { result ≡ 0 → IsToldHeader front.now size header.new }
    ensures refused { result ≢ 0 → IsNoFile front.now size result }
    ensures unchanged { result ≢ 0 → header.new ≡ header.old }
{
    match front_family(front, size) {
        Ok((format, family)) => {
            *header = shown_header(format, family);
            0
        }
        Err(fault) => file_number(fault),
    }
}
