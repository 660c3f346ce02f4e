// Whether a certificate proves what is claimed of a position.
ghost use Rattle.std.specs.Prelude.{◌↔◌, IfOk, IfErr, IsTrue};
ghost use Rattle.dob_rank.specs.Families.{IsPositionOf};
ghost use Rattle.dob_distance.specs.Values.{Lost, Won};
ghost use Rattle.dob_certificate.specs.Lost.{IsSaidLost, SupportsAllLost};
ghost use Rattle.dob_certificate.specs.Held.{SupportsAllHeld};
ghost use Rattle.dob_certificate.specs.Claims.{Holds, Prove, ShowsWon};
ghost use Rattle.dob_certificate.specs.Refusals.{IsRefusal};

use crate::asking::is_said_lost;
use crate::certificate::Certificate;
use crate::claim::{Claim, is_shown, shows_won};
use crate::entries::Entries;
use crate::list_kind::ListKind;
use crate::lists::check_list;
use crate::lookup::ByClass;
use crate::refusal::Refusal;
use dob_classes::Classes;
use dob_moves::PositionBoard;
use dob_pieces::Position;

/// Passes the certificate exactly if its lists prove the claim, so only if the claim holds. It reads no table.
///
/// # Errors
///
/// `Unsupported` with the class of the first entry, of the lost list and then of the held one, that its list doesn't support; `Claim`
/// where all are supported, and the lists don't show the claim.
pub fn verify(
    classes: &Classes,
    certificate: &Certificate,
    position: &Position,
    claim: Claim,
) -> Result<(), Refusal>
    requires { IsPositionOf classes.now.family position.now.setup }
    ensures holds { IfOk result (λ _. Holds classes.now.family.profile position.now.setup claim) }
    ensures proof { IfOk result (λ _. Prove classes.now.family certificate.now.lost certificate.now.held position.now.setup claim) }
    ensures refusal { IfErr result (IsRefusal classes.now.family certificate.now.lost certificate.now.held position.now.setup claim) }
{
    check_list(classes, ListKind::Lost, &certificate.lost)?;
    check_list(classes, ListKind::Held, &certificate.held)?;
    check_claim(classes, certificate, position, claim)
}

/// Passes the claim exactly if the lists show it, once each is known to support its entries: what is left of [`verify`] for who has
/// looked at the entries by [`check_entry`](crate::check_entry).
///
/// # Errors
///
/// `Claim` if the lists don't show the claim.
pub fn check_claim(
    classes: &Classes,
    certificate: &Certificate,
    position: &Position,
    claim: Claim,
) -> Result<(), Refusal>
    requires member { IsPositionOf classes.now.family position.now.setup }
    requires lost { SupportsAllLost classes.now.family certificate.now.lost }
    requires held { SupportsAllHeld classes.now.family certificate.now.held }
    ensures holds { IfOk result (λ _. Holds classes.now.family.profile position.now.setup claim) }
    ensures proof { IfOk result (λ _. Prove classes.now.family certificate.now.lost certificate.now.held position.now.setup claim) }
    ensures refusal { IfErr result (IsRefusal classes.now.family certificate.now.lost certificate.now.held position.now.setup claim) }
{
    let lost = ByClass {
        classes,
        entries: &certificate.lost,
    };
    let held = ByClass {
        classes,
        entries: &certificate.held,
    };
    let position = PositionBoard::of(position);
    if is_shown(classes.family, &lost, &held, &position, claim) {
        Ok(())
    } else {
        Err(Refusal::Claim)
    }
}

/// Whether the certificate proves that the side to move can't avoid a loss within `plies`: its lost list supports its
/// entries, and says so. It reads that list alone.
pub fn is_lost_within(
    classes: &Classes,
    certificate: &Certificate,
    position: &Position,
    plies: u16,
) -> bool
    requires { IsPositionOf classes.now.family position.now.setup }
    ensures lost { IsTrue result → Lost classes.now.family.profile plies position.now.setup }
    ensures proof { IsTrue result ↔
        (SupportsAllLost classes.now.family certificate.now.lost × IsSaidLost classes.now.family certificate.now.lost plies position.now.setup) }
{
    let lost = ByClass {
        classes,
        entries: &certificate.lost,
    };
    supports_all_lost(classes, &certificate.lost)
        && is_said_lost(classes.family, &lost, plies, &PositionBoard::of(position))
}

/// Whether the certificate proves that the side to move can force a win within `plies`: its lost list supports its entries, and
/// the side to move catches the lion, or some move leads to what that list says to be lost in time. It reads that list alone.
pub fn is_won_within(
    classes: &Classes,
    certificate: &Certificate,
    position: &Position,
    plies: u16,
) -> bool
    requires { IsPositionOf classes.now.family position.now.setup }
    ensures won { IsTrue result → Won classes.now.family.profile plies position.now.setup }
    ensures proof { IsTrue result ↔
        (SupportsAllLost classes.now.family certificate.now.lost × ShowsWon classes.now.family certificate.now.lost position.now.setup plies) }
{
    let lost = ByClass {
        classes,
        entries: &certificate.lost,
    };
    supports_all_lost(classes, &certificate.lost)
        && shows_won(classes.family, &lost, &PositionBoard::of(position), plies)
}

// Whether the list supports each of its entries.
fn supports_all_lost(classes: &Classes, lost: &Entries) -> bool
    ensures { IsTrue result ↔ SupportsAllLost classes.now.family lost.now }
{
    check_list(classes, ListKind::Lost, lost).is_ok()
}
