// What the header of a database's file says, in numbers.
ghost use Rattle.std.specs.Prelude.{◌≡◌};
ghost use Rattle.dob_foreign.specs.Headers.{shown_header};

use crate::profiles::profile_number;
use dob_classes::count_classes;
use dob_dbfile::{Format, header_len};
use dob_pieces::Family;

/// What the header of a file says: how many classes its family has, how many bytes stand before the first class's record (each has two), the numbers
/// of chicks, elephants and giraffes, and the profile's number, 0 for A and 1 for B.
#[repr(C)]
#[derive(Clone, Copy)]
pub struct DobutsuHeader {
    pub classes: u64,
    pub first: u64,
    pub chicks: u32,
    pub elephants: u32,
    pub giraffes: u32,
    pub profile: u32,
}

/// What the header of a file of that format and family says.
pub fn shown_header(format: Format, family: Family) -> DobutsuHeader
    ensures { result ≡ shown_header format family }
{
    let set = family.set;
    DobutsuHeader {
        classes: count_classes(family),
        first: header_len(format),
        chicks: u32::from(set.chicks),
        elephants: u32::from(set.elephants),
        giraffes: u32::from(set.giraffes),
        profile: profile_number(family.profile),
    }
}
