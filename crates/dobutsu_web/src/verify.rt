// Whether the two lists of a certificate prove what is claimed of a position.
ghost use Rattle.std.specs.Prelude.{◌≡◌, ◌≢◌, ◌<◌, IfSome, length, true, false};
ghost use Rattle.dob_certificate.specs.declared.list_kind.ListKind.TheVariants as ListKind;
ghost use Rattle.dob_certificate.specs.Lists.{IsFirstBroken, SupportsAll};
ghost use Rattle.dob_rank.specs.Families.{IsPositionOf};
ghost use Rattle.dobutsu_web.specs.Asked.{IsRefused};
ghost use Rattle.dobutsu_web.specs.Certified.{AreOne, HasNoRanks, IsAnswer, IsToldAnswer};
ghost use Rattle.dobutsu_web.specs.Ranked.{AreRanksIn, entries_in};

use crate::asked::ask;
use crate::claims::claim_of;
use crate::numbers::{CLAIM, CLAIM_BYTE, NO_ROW, UNSUPPORTED};
use crate::ranked::{Listed, are_ranks};
use dob_certificate::{Claim, ListKind, first_broken, is_shown};
use dob_moves::PositionBoard;
use dob_pieces::Position;

/// Whether the two lists of a certificate prove what is claimed of the position of that text: a draw, a win or a loss in N plies where `kind` is 0, 1 or 2, a
/// win or a loss within so many where it is 3 or 4. A list has for each class the rank of its representative among the positions of the same pieces, ascending,
/// and its plies, 65,535 for ever: the classes of the lost list are lost within so many, those of the held one aren't. It answers 0 if the lists prove it, so
/// that it holds; 30 if an entry isn't supported by its list, and writes the place of the first one, those of the held list behind those of the lost; 31 if all
/// are and the claim isn't shown; 34 of another kind; 29 if a list isn't one of such ranks with as many plies; or a fault as `dobutsu_class` does. It takes no
/// memory, and some seconds for 200,000 entries.
#[unsafe(no_mangle)]
pub extern "C" fn dobutsu_certified(
    text: &[u8],
    profile: u32,
    kind: u32,
    plies: u16,
    lost_ranks: &[u32],
    lost_plies: &[u16],
    held_ranks: &[u32],
    held_plies: &[u16],
    broken: &mut u64,
) -> u32
    ensures shown { result ≡ 0 → IsToldAnswer text.now profile kind plies lost_ranks.now lost_plies.now held_ranks.now held_plies.now 0 broken.new }
    ensures broken { result ≡ 30 → IsToldAnswer text.now profile kind plies lost_ranks.now lost_plies.now held_ranks.now held_plies.now 30 broken.new }
    ensures silent { result ≡ 31 → IsToldAnswer text.now profile kind plies lost_ranks.now lost_plies.now held_ranks.now held_plies.now 31 broken.new }
    ensures ranks { result ≡ 29 → HasNoRanks text.now profile lost_ranks.now lost_plies.now held_ranks.now held_plies.now }
    ensures kind { result ≡ 34 → 4 < kind }
    ensures refused { result ≢ 0 → result ≢ 29 → result ≢ 30 → result ≢ 31 → result ≢ 34 → IsRefused text.now profile result }
    ensures unchanged { result ≢ 30 → broken.new ≡ broken.old }
{
    let asked = match ask(text, profile) {
        Ok(asked) => asked,
        Err(refusal) => return refusal.number(),
    };
    let Some(claim) = claim_of(kind, plies) else {
        return CLAIM_BYTE;
    };
    let lost = Listed {
        family: asked.family,
        ranks: lost_ranks,
        plies: lost_plies,
    };
    let held = Listed {
        family: asked.family,
        ranks: held_ranks,
        plies: held_plies,
    };
    if !are_ranks(&lost) {
        return NO_ROW;
    }
    if !are_ranks(&held) {
        return NO_ROW;
    }
    answer(&lost, &held, &asked.position, claim, broken)
}

// What the lists say of the claim, and the place of the first entry that isn't supported.
fn answer(lost: &Listed, held: &Listed, position: &Position, claim: Claim, broken: &mut u64) -> u32
    requires lost { AreRanksIn lost.now }
    requires held { AreRanksIn held.now }
    requires one { AreOne lost.now held.now }
    requires member { IsPositionOf lost.now.family position.now.setup }
    ensures answer { IsAnswer result lost.now.family lost.now.ranks.now lost.now.plies.now held.now.ranks.now held.now.plies.now position.now.setup claim broken.new }
    ensures unchanged { result ≢ 30 → broken.new ≡ broken.old }
{
    match broken_in(lost, ListKind::Lost) {
        Some(place) => {
            *broken = place as u64;
            UNSUPPORTED
        }
        None => answer_after(lost, held, position, claim, broken),
    }
}

// The same where the lost list supports its entries.
fn answer_after(
    lost: &Listed,
    held: &Listed,
    position: &Position,
    claim: Claim,
    broken: &mut u64,
) -> u32
    requires lost { AreRanksIn lost.now }
    requires held { AreRanksIn held.now }
    requires one { AreOne lost.now held.now }
    requires member { IsPositionOf lost.now.family position.now.setup }
    requires supported { SupportsAll ListKind.Lost lost.now.family (entries_in lost.now) }
    ensures answer { IsAnswer result lost.now.family lost.now.ranks.now lost.now.plies.now held.now.ranks.now held.now.plies.now position.now.setup claim broken.new }
    ensures unchanged { result ≢ 30 → broken.new ≡ broken.old }
{
    match broken_in(held, ListKind::Held) {
        Some(place) => {
            *broken = lost.ranks.len() as u64 + place as u64;
            UNSUPPORTED
        }
        None => {
            let position = PositionBoard::of(position);
            shown_number(is_shown(lost.family, lost, held, &position, claim))
        }
    }
}

// The place of the first entry that a list of that kind doesn't support, or `None` if it supports all.
fn broken_in(listed: &Listed, kind: ListKind) -> Option<usize>
    requires { AreRanksIn listed.now }
    ensures broken { IsFirstBroken kind listed.now.family (entries_in listed.now) result }
    ensures within { IfSome result (λ place. place < length listed.now.ranks.now) }
{
    first_broken(listed.family, listed, kind)
}

// The number of an answer: whether the claim is shown.
fn shown_number(is_shown: bool) -> u32
    ensures shown { is_shown ≡ true → result ≡ 0 }
    ensures silent { is_shown ≡ false → result ≡ 31 }
{
    if is_shown { 0 } else { CLAIM }
}
