// The status of a position, and how many moves it has.
ghost use Rattle.std.specs.Prelude.{◌≡◌, ◌≢◌, length};
ghost use Rattle.dob_pieces.specs.declared.profile.Family.{Family as AnyFamily};
ghost use Rattle.dob_pieces.specs.declared.setup.Setup.{Setup as AnySetup};
ghost use Rattle.dob_moves.specs.declared.position_status.Status.{Status as AnyStatus};
ghost use Rattle.dob_moves.specs.MoveLists.{moves_of};
ghost use Rattle.dob_moves.specs.Statuses.{HasStatus};
ghost use Rattle.dob_foreign.specs.Statuses.{status_number};
ghost use Rattle.dobutsu_web.specs.Asked.{IsTextAsked, IsRefused};

use crate::asked::ask;
use dob_foreign::status_number;
use dob_moves::PositionBoard;

/// The status of the position, 0 if it is open, 1 if the enemy lion can be caught, 2 if it has tried, 3 if there is no move, and
/// how many moves it has, 0 if it isn't open. It answers 0 and writes both, or a fault as `dobutsu_class` does.
#[unsafe(no_mangle)]
pub extern "C" fn dobutsu_status(
    text: &[u8],
    profile: u32,
    status: &mut u32,
    count: &mut u32,
) -> u32
    ensures told { result ≡ 0 → (family : AnyFamily) × (setup : AnySetup) × (of : AnyStatus) × IsTextAsked text.now profile family setup
        × HasStatus family.profile setup of × (status.new ≡ status_number of) × (count.new ≡ length (moves_of family.profile setup)) }
    ensures refused { result ≢ 0 → IsRefused text.now profile result }
    ensures unchanged { result ≢ 0 → (status.new ≡ status.old) × (count.new ≡ count.old) }
{
    match ask(text, profile) {
        Ok(asked) => {
            let (found, number) = PositionBoard::of(&asked.position).status_and_count(
                asked.family.profile,
            );
            *status = status_number(found);
            *count = u32::from(number);
            0
        }
        Err(refusal) => refusal.number(),
    }
}
