// How many positions and classes a family has.
ghost use Rattle.std.specs.Prelude.{◌≡◌, ◌≢◌, ◌≤◌, IfSome, MatchOption, MatchResult};
ghost use Rattle.dob_pieces.specs.declared.profile.Family.{Family as AnyFamily};
ghost use Rattle.dob_rank.specs.Families.{HasSize, HasClasses};
ghost use Rattle.dobutsu_c.specs.Counts.{IsFamily, count_fault};

use crate::numbers::{PROFILE_BYTE, SET_TEXT};
use dob_classes::count_classes;
use dob_foreign::profile_of;
use dob_pieces::{Family, PieceSet};
use dob_rank::size;

/// How many positions a family has, and how many classes: that of these chicks, elephants and giraffes, 0 to 2 of each, by
/// the profile of that number, 0 for A and 1 for B. It answers 0 and writes both numbers, or the number of a fault and writes
/// nothing: 25 if a number of pieces is above 2, else 27 if the profile's is above 1. It takes no memory, and some
/// hundredths of a second for two pieces of each kind.
#[unsafe(no_mangle)]
pub extern "C" fn dobutsu_count(
    chicks: u32,
    elephants: u32,
    giraffes: u32,
    profile: u32,
    positions: &mut u64,
    classes: &mut u64,
) -> u32
    ensures fault { result ≡ count_fault chicks elephants giraffes profile }
    ensures counted { (family : AnyFamily) → IsFamily chicks elephants giraffes profile family
        → HasSize family positions.new × HasClasses family classes.new }
    ensures unchanged { result ≢ 0 → (positions.new ≡ positions.old) × (classes.new ≡ classes.old) }
{
    match family_of(chicks, elephants, giraffes, profile) {
        Ok(family) => {
            *positions = size(family);
            *classes = count_classes(family);
            0
        }
        Err(fault) => fault,
    }
}

/// The family of these pieces by the profile of that number, or the fault's number.
pub(crate) fn family_of(
    chicks: u32,
    elephants: u32,
    giraffes: u32,
    profile: u32,
) -> Result<Family, u32>
    ensures { MatchResult result (λ family. IsFamily chicks elephants giraffes profile family × (count_fault chicks elephants giraffes profile ≡ 0))
        (λ fault. (fault ≡ count_fault chicks elephants giraffes profile) × (fault ≢ 0)) }
{
    let Some(set) = set_of(chicks, elephants, giraffes) else {
        return Err(SET_TEXT);
    };
    let Some(profile) = profile_of(profile) else {
        return Err(PROFILE_BYTE);
    };
    Ok(Family { set, profile })
}

fn set_of(chicks: u32, elephants: u32, giraffes: u32) -> Option<PieceSet>
    ensures some { IfSome result (λ set. (set.chicks ≡ chicks) × (set.elephants ≡ elephants) × (set.giraffes ≡ giraffes)) }
    ensures none { MatchOption result ((chicks ≤ 2 → elephants ≤ 2 → giraffes ≤ 2 → ⊥)) (λ _. (chicks ≤ 2) × (elephants ≤ 2) × (giraffes ≤ 2)) }
{
    match (chicks, elephants, giraffes) {
        (0..=2, 0..=2, 0..=2) => Some(PieceSet {
            chicks: chicks as u8,
            elephants: elephants as u8,
            giraffes: giraffes as u8,
        }),
        _ => None,
    }
}
