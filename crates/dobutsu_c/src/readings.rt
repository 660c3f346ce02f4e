// A position's numbers by its text, and its text by its numbers.
ghost use Rattle.std.specs.Prelude.{◌≡◌, ◌≢◌};
ghost use Rattle.dob_pieces.specs.declared.profile.Profile.TheVariants.{A};
ghost use Rattle.dob_pieces.specs.declared.setup.Setup.{Setup as AnySetup};
ghost use Rattle.dob_pieces.specs.Setups.{IsLegal};
ghost use Rattle.dob_text.specs.declared.fault.TextFault.{TextFault as AnyTextFault};
ghost use Rattle.dob_text.specs.Faults.{HasTextFault};
ghost use Rattle.dob_text.specs.PositionText.{text_of};
ghost use Rattle.dob_foreign.specs.Faults.{text_number};
ghost use Rattle.dob_foreign.specs.Texts.{IsText};
ghost use Rattle.dobutsu_c.specs.declared.positions.NumbersFault.{NumbersFault as AnyNumbersFault};
ghost use Rattle.dobutsu_c.specs.Positions.{IsShown, HasNumbersFault, numbers_fault};
ghost use Rattle.dobutsu_c.specs.Probes.{IsTextOf};

use crate::positions::{DobutsuPosition, position_of, shown_position};
use dob_foreign::{DobutsuText, position_text, text_number};
use dob_pieces::Profile;
use dob_text::read_position_bytes;

/// The numbers of the position whose text that is. It answers 0 and writes them, or the number of the text's fault, 1 to 6, and writes nothing. It takes no
/// memory.
#[unsafe(no_mangle)]
pub extern "C" fn dobutsu_read(text: &[u8], position: &mut DobutsuPosition) -> u32
    ensures told { result ≡ 0 → (setup : AnySetup) × IsTextOf text.now setup × IsShown position.new setup }
    ensures refused { result ≢ 0 → (fault : AnyTextFault) × HasTextFault A text.now fault × (result ≡ text_number fault) }
    ensures unchanged { result ≢ 0 → position.new ≡ position.old }
{
    match read_position_bytes(Profile::A, text) {
        Ok(read) => {
            *position = shown_position(&read);
            0
        }
        Err(fault) => text_number(fault),
    }
}

/// The text of the position of those numbers. It answers 0 and writes the text, or a fault and writes nothing: 2 if a number of the board stands for
/// nothing, or 4 to 6 if what stands there is no position. It takes no memory.
#[unsafe(no_mangle)]
pub extern "C" fn dobutsu_write(position: &DobutsuPosition, text: &mut DobutsuText) -> u32
    ensures told { result ≡ 0 → (setup : AnySetup) × IsLegal setup × IsShown position.now setup × IsText text.new (text_of setup) }
    ensures refused { result ≢ 0 → (fault : AnyNumbersFault) × HasNumbersFault position.now fault × (result ≡ numbers_fault fault) }
    ensures unchanged { result ≢ 0 → text.new ≡ text.old }
{
    match position_of(position) {
        Ok(read) => {
            *text = position_text(&read);
            0
        }
        Err(fault) => fault.number(),
    }
}
