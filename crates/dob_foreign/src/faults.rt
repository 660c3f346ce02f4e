// The numbers of faults, which the program prints behind an `E`.
ghost use Rattle.std.specs.Prelude.{◌≡◌, ◌≢◌};
ghost use Rattle.dob_foreign.specs.Faults.{file_number, position_number, text_number};

use dob_dbfile::Fault as FileFault;
use dob_pieces::PositionFault;
use dob_text::TextFault;

/// The number of a text's fault.
pub fn text_number(fault: TextFault) -> u32
    ensures number { result ≡ text_number fault }
    ensures positive { result ≢ 0 }
{
    match fault {
        TextFault::Shape => 1,
        TextFault::Letter => 2,
        TextFault::Hand => 3,
        TextFault::Lions => 4,
        TextFault::Count => 5,
        TextFault::FarLion => 6,
        TextFault::FarChick => 26,
    }
}

/// The number of the fault of what stands on a board and lies in the hands.
pub fn position_number(fault: PositionFault) -> u32
    ensures number { result ≡ position_number fault }
    ensures positive { result ≢ 0 }
{
    match fault {
        PositionFault::Lions => 4,
        PositionFault::Count => 5,
        PositionFault::FarLion => 6,
    }
}

/// The number of a file's fault.
pub fn file_number(fault: FileFault) -> u32
    ensures number { result ≡ file_number fault }
    ensures positive { result ≢ 0 }
{
    match fault {
        FileFault::Truncated => 15,
        FileFault::Magic => 16,
        FileFault::SetByte => 17,
        FileFault::ClassCount => 18,
        FileFault::Trailing => 19,
        FileFault::Digest => 20,
        FileFault::Memory => 23,
        FileFault::Io(_) => 24,
        FileFault::ProfileByte => 27,
    }
}
