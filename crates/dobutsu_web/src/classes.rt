// The class number of a position.
ghost use Rattle.std.specs.Prelude.{◌≡◌, ◌≢◌};
ghost use Rattle.dob_pieces.specs.declared.profile.Family.{Family as AnyFamily};
ghost use Rattle.dob_pieces.specs.declared.setup.Setup.{Setup as AnySetup};
ghost use Rattle.dob_rank.specs.Families.{IsInClass};
ghost use Rattle.dobutsu_web.specs.Asked.{IsTextAsked, IsRefused};

use crate::asked::ask;
use dob_classes::class_number;

/// The number of the class of the position of that text, among the classes of its pieces by the profile of that number, 0 for A
/// and 1 for B. It answers 0 and writes it, or the number of a fault and writes nothing: 27 if there is no such profile, else 1 to
/// 6 or 26 of the text. It takes no memory, and some hundredths of a second for two pieces of each kind.
#[unsafe(no_mangle)]
pub extern "C" fn dobutsu_class(text: &[u8], profile: u32, class: &mut u64) -> u32
    ensures told { result ≡ 0 → (family : AnyFamily) × (setup : AnySetup) × IsTextAsked text.now profile family setup × IsInClass family setup class.new }
    ensures refused { result ≢ 0 → IsRefused text.now profile result }
    ensures unchanged { result ≢ 0 → class.new ≡ class.old }
{
    match ask(text, profile) {
        Ok(asked) => {
            *class = class_number(asked.family, &asked.position);
            0
        }
        Err(refusal) => refusal.number(),
    }
}
