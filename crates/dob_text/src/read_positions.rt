// Reading a position.
ghost use Rattle.std.specs.Prelude.{◌≡◌, ◌↔◌, IfOk, IsOkAnd, IsErrOf, MatchResult};
ghost use Rattle.dob_pieces.specs.declared.setup.Setup.{Setup};
ghost use Rattle.dob_pieces.specs.Profiles.{IsAllowed};
ghost use Rattle.dob_pieces.specs.Setups.{IsLegal};
ghost use Rattle.dob_text.specs.declared.fault.TextFault.{TextFault};
ghost use Rattle.dob_text.specs.PositionText.{text_of, Spells};
ghost use Rattle.dob_text.specs.Faults.{HasTextFault, HasSetupFault};

use crate::fault::TextFault;
use crate::setups::read_setup;
use dob_pieces::{Position, PositionFault, Profile, Setup};

// The position of a setup, one of that profile.
fn position_of(profile: Profile, setup: Setup) -> Result<Position, TextFault>
    ensures { MatchResult result
        (λ position. IsLegal setup × IsAllowed profile setup × (position.setup ≡ setup))
        (λ fault. HasSetupFault profile setup fault) }
{
    match Position::of(setup.board, setup.hands) {
        Ok(position) => {
            if position.is_allowed(profile) {
                Ok(position)
            } else {
                Err(TextFault::FarChick)
            }
        }
        Err(PositionFault::Lions) => Err(TextFault::Lions),
        Err(PositionFault::Count) => Err(TextFault::Count),
        Err(PositionFault::FarLion) => Err(TextFault::FarLion),
    }
}

/// The position of that profile that the bytes spell, which needn't be UTF-8. It takes no memory.
///
/// # Errors
///
/// Those of [`read_position`].
pub fn read_position_bytes(profile: Profile, text: &[u8]) -> Result<Position, TextFault>
    ensures read { MatchResult result
        (λ position. IsLegal position.setup × IsAllowed profile position.setup × Spells text.now position.setup)
        (λ fault. HasTextFault profile text.now fault) }
    ensures spelt { (setup : Setup) → IsLegal setup → IsAllowed profile setup → Spells text.now setup
        → IsOkAnd result (λ position. position.setup ≡ setup) }
    ensures fault { (fault : TextFault) → IsErrOf result fault ↔ HasTextFault profile text.now fault }
{
    let setup = read_setup(text)?;
    position_of(profile, setup)
}

/// The position of that profile with this text, as `write_position` writes it. It takes no memory.
///
/// # Errors
///
/// The first of these that the text lacks: `Shape`, fifteen bytes with slashes at 3, 7 and 11 and none elsewhere, a
/// space, a word, a space and a word, all of it ASCII; `Letter`, a board letter on each square; `Hand`, `-` or the letters
/// C, E and G in this order, upper case for the mover and lower case for the enemy; `Lions`, one for each side; `Count`, at
/// most two pieces of a kind; `FarLion`, a lion of the side to move that isn't on row 4; and in profile B `FarChick`, no
/// chick on its own far row.
pub fn read_position(profile: Profile, text: &str) -> Result<Position, TextFault>
    ensures read { IfOk result (λ position. text.now ≡ text_of position.setup) }
    ensures allowed { IfOk result (λ position. IsAllowed profile position.setup) }
    ensures whole { (setup : Setup) → IsLegal setup → IsAllowed profile setup → text.now ≡ text_of setup
        → IsOkAnd result (λ position. position.setup ≡ setup) }
    ensures fault { (fault : TextFault) → IsErrOf result fault ↔ HasTextFault profile text.now fault }
{
    read_position_bytes(profile, text.as_bytes())
}
