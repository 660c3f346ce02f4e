// Certificates as files.
//
// Choices:
// - What reading gives is a function of the bytes (`file_at`), and each reader's clause says that it gives that, so which fault comes needs no proof of its
//   own. Two laws tie it to `bytes_of`.
// - A certificate has one file: entries ascend, and each number stands in its fewest bytes. An entry's number counts from the class below the least that may
//   come, so 0 is never a number.
// - The bytes are read whole in memory: a certificate is small, and the library for C has no device. A file that no reader takes isn't written (E40).
#![tactic(auto)]

mod check;
mod defect;
mod entries;
mod file;
mod front;
mod numbers;
mod read;
mod write;

pub use check::verify_file;
pub use defect::{Defect, ReadFault, WriteFault};
pub use file::CertificateFile;
pub use front::{FRONT_LEN, Front, front_of, is_title};
pub use read::read_certificate;
pub use write::{certificate_bytes, write_certificate};
