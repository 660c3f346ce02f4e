// Reading what stands on the board and lies in the hands.
ghost use Rattle.std.specs.Prelude.{◌≡◌, MatchResult};
ghost use Rattle.dob_pieces.specs.declared.profile.Profile.TheVariants.{A};
ghost use Rattle.dob_pieces.specs.declared.setup.Setup.{Setup};
ghost use Rattle.dob_text.specs.PositionText.{Spells};
ghost use Rattle.dob_text.specs.Readings.{capped_setup};
ghost use Rattle.dob_text.specs.Faults.{HasTextFault};

use crate::boards::board_of;
use crate::fault::TextFault;
use crate::hands::hand_of;
use crate::parts::parts_of;
use dob_pieces::{Hands, Setup, Side};

/// The setup that a text spells, a position or not, with 255 in place of a larger count in hand.
pub(crate) fn read_setup(text: &[u8]) -> Result<Setup, TextFault>
    ensures { MatchResult result
        (λ setup. (full : Setup) × Spells text.now full × (setup ≡ capped_setup full))
        (λ fault. HasTextFault A text.now fault) }
{
    let Some(parts) = parts_of(text) else {
        return Err(TextFault::Shape);
    };
    let Some(board) = board_of(parts.grid) else {
        return Err(TextFault::Letter);
    };
    let Some(mover) = hand_of(parts.mover, Side::Mover) else {
        return Err(TextFault::Hand);
    };
    let Some(enemy) = hand_of(parts.enemy, Side::Enemy) else {
        return Err(TextFault::Hand);
    };
    Ok(Setup {
        board,
        hands: Hands { mover, enemy },
    })
}
