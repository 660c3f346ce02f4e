// The number of a position's class by the index of its family.
ghost use Rattle.std.specs.Prelude.{◌≡◌, ◌≢◌};
ghost use Rattle.dob_pieces.specs.declared.profile.Family.{Family as AnyFamily};
ghost use Rattle.dob_pieces.specs.declared.setup.Setup.{Setup as AnySetup};
ghost use Rattle.dob_rank.specs.Families.{IsPositionOf, IsInClass};
ghost use Rattle.dob_index.specs.Index.{IsIndex, IsMarked};
ghost use Rattle.dobutsu_c.specs.ByIndex.{IsClassFault};
ghost use Rattle.dobutsu_c.specs.Counts.{IsFamily};
ghost use Rattle.dobutsu_c.specs.Probes.{IsTextOf};

use crate::counts::family_of;
use crate::fault::check_member;
use crate::numbers::INDEX;
use dob_foreign::text_number;
use dob_index::{class_by, is_index_of};
use dob_pieces::Profile;
use dob_text::read_position_bytes;

/// The number of the class of the position whose text that is, in the family of these pieces by the profile of that number, by the family's index as
/// `dobutsu_index` wrote it. It answers 0 and writes the number, or the first fault that holds and writes nothing: 1 to 6 of the text; 25 and 27 of the
/// family, as `dobutsu_count` does; 29 if the numbers aren't marked as an index of the family or are too few; 26 if the profile doesn't allow the
/// position, 7 if it isn't of the set. By any other numbers it writes some number, and reads nothing outside of them. It takes no memory.
#[unsafe(no_mangle)]
pub extern "C" fn dobutsu_class_by(
    chicks: u32,
    elephants: u32,
    giraffes: u32,
    profile: u32,
    index: &[u64],
    text: &[u8],
    class: &mut u64,
) -> u32
    ensures class { (family : AnyFamily) (setup : AnySetup) → IsFamily chicks elephants giraffes profile family → IsIndex family index.now
        → IsTextOf text.now setup → IsPositionOf family setup → (result ≡ 0) × IsInClass family setup class.new }
    ensures told { result ≡ 0 → (family : AnyFamily) × (setup : AnySetup) × IsFamily chicks elephants giraffes profile family × IsMarked family index.now
        × IsTextOf text.now setup × IsPositionOf family setup }
    ensures refused { result ≢ 0 → IsClassFault chicks elephants giraffes profile index.now text.now result }
    ensures unchanged { result ≢ 0 → class.new ≡ class.old }
{
    let position = match read_position_bytes(Profile::A, text) {
        Ok(position) => position,
        Err(fault) => return text_number(fault),
    };
    let family = match family_of(chicks, elephants, giraffes, profile) {
        Ok(family) => family,
        Err(fault) => return fault,
    };
    if !is_index_of(family, index) {
        return INDEX;
    }
    match check_member(family, &position) {
        Ok(()) => {
            *class = class_by(family, index, &position);
            0
        }
        Err(stranger) => stranger.number(),
    }
}
