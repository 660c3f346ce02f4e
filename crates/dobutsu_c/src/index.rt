// The index of a family in the caller's memory.
ghost use Rattle.std.specs.Prelude.{◌≡◌, ◌≢◌, ◌≤◌, ◌<◌, ℕ, length, get_or};
ghost use Rattle.dob_pieces.specs.declared.profile.Family.{Family as AnyFamily};
ghost use Rattle.dob_index.specs.Layout.{words_of};
ghost use Rattle.dob_index.specs.Index.{IsIndex};
ghost use Rattle.dobutsu_c.specs.Counts.{IsFamily, count_fault};

use crate::counts::family_of;
use crate::numbers::INDEX;
use dob_index::{index_words, write_index};

/// How many numbers the index of a family has: that of these chicks, elephants and giraffes by the profile of that number. 0 if there is none.
#[unsafe(no_mangle)]
pub extern "C" fn dobutsu_index_words(
    chicks: u32,
    elephants: u32,
    giraffes: u32,
    profile: u32,
) -> u64
    ensures words { (family : AnyFamily) → IsFamily chicks elephants giraffes profile family → result ≡ words_of family.set }
    ensures none { count_fault chicks elephants giraffes profile ≢ 0 → result ≡ 0 }
{
    match family_of(chicks, elephants, giraffes, profile) {
        Ok(family) => index_words(family.set),
        Err(_) => 0,
    }
}

/// Writes the index of the family into the first of those numbers, as many as `dobutsu_index_words` says, and nothing behind them. It answers 0, or the number of
/// a fault and writes nothing: those of `dobutsu_count`, and 29 if there are fewer. It takes no memory, and some hundredths of a second for two pieces of
/// each kind.
#[unsafe(no_mangle)]
pub extern "C" fn dobutsu_index(
    chicks: u32,
    elephants: u32,
    giraffes: u32,
    profile: u32,
    words: &mut [u64],
) -> u32
    ensures written { (family : AnyFamily) → IsFamily chicks elephants giraffes profile family → words_of family.set ≤ length words.old
        → (result ≡ 0) × IsIndex family words.new }
    ensures others { (family : AnyFamily) → IsFamily chicks elephants giraffes profile family → (i : ℕ) → words_of family.set ≤ i
        → get_or words.new i 0 ≡ get_or words.old i 0 }
    ensures short { (family : AnyFamily) → IsFamily chicks elephants giraffes profile family → length words.old < words_of family.set → result ≡ 29 }
    ensures fault { count_fault chicks elephants giraffes profile ≢ 0 → result ≡ count_fault chicks elephants giraffes profile }
    ensures unchanged { result ≢ 0 → words.new ≡ words.old }
{
    let family = match family_of(chicks, elephants, giraffes, profile) {
        Ok(family) => family,
        Err(fault) => return fault,
    };
    if (words.len() as u64) < index_words(family.set) {
        return INDEX;
    }
    write_index(family, words);
    0
}
