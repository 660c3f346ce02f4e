// What is asked by numbers: a position of a profile.
ghost use Rattle.std.specs.Prelude.{◌≡◌, ◌≢◌, MatchResult};
ghost use Rattle.dobutsu_c.specs.Positions.{IsNumbersAsked, HasRefusal};

use crate::numbers::PROFILE_BYTE;
use crate::positions::{DobutsuPosition, NumbersFault, position_of};
use dob_foreign::profile_of;
use dob_pieces::{Family, Position};

/// A position, and the family of its pieces by a profile.
#[derive(Clone, Copy)]
pub(crate) struct Numbered {
    pub(crate) family: Family,
    pub(crate) position: Position,
}

/// Why there is no answer.
#[derive(Clone, Copy)]
pub(crate) enum Refusal {
    /// E27: the number is that of no profile.
    Profile,
    /// The numbers are no position.
    Numbers(NumbersFault),
    /// E26: a chick stands where the profile lets none stand.
    FarChick,
}

impl Refusal {
    ghost use Rattle.dobutsu_c.specs.Positions.{refusal_number};

    /// The number of the fault, which the program prints behind an `E`.
    pub(crate) fn number(self) -> u32
        ensures number { result ≡ refusal_number self }
        ensures positive { result ≢ 0 }
    {
        match self {
            Refusal::Profile => PROFILE_BYTE,
            Refusal::Numbers(fault) => fault.number(),
            Refusal::FarChick => 26,
        }
    }
}

/// The position of those numbers by the profile of that number, or why there is none.
pub(crate) fn ask_numbers(numbers: &DobutsuPosition, profile: u32) -> Result<Numbered, Refusal>
    ensures { MatchResult result
        (λ asked. IsNumbersAsked numbers.now profile asked.family asked.position.setup)
        (HasRefusal numbers.now profile) }
{
    let Some(profile) = profile_of(profile) else {
        return Err(Refusal::Profile);
    };
    let position = match position_of(numbers) {
        Ok(position) => position,
        Err(fault) => return Err(Refusal::Numbers(fault)),
    };
    if !position.is_allowed(profile) {
        return Err(Refusal::FarChick);
    }
    Ok(Numbered {
        family: Family {
            set: position.piece_set(),
            profile,
        },
        position,
    })
}
