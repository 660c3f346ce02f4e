// Whether a certificate proves what is claimed, its entries looked at by as many threads as there are processors.
ghost use Rattle.std.specs.Prelude.{◌≡◌, ◌<◌, ℕ, length, IfOk, IfErr, OnOk, is_err};
ghost use Rattle.dob_rank.specs.Families.{IsPositionOf};
ghost use Rattle.dob_certificate.specs.Ascending.{listed_entry};
ghost use Rattle.dob_certificate.specs.Lists.{Supports};
ghost use Rattle.dob_certificate.specs.Claims.{Holds, Prove};
ghost use Rattle.dob_certificate.specs.Refusals.{IsEntryVerdict, IsListVerdict, IsRefusal};
ghost use Rattle.dob_check.specs.Watching.{IsToldAt};

use crate::checks::{Watch, tell};
use dob_certificate::{Certificate, Claim, Entries, ListKind, Refusal, check_claim, check_entry};
use dob_classes::Classes;
use dob_pieces::Position;
use rayon::prelude::*;
use std::thread::Threads;

/// As [`dob_certificate::verify`], its entries looked at by themselves, in as many threads as there are processors. The answer is that of one thread. It reports to the watch at each 65,536th entry of a list and at the last one that is
/// left: of a certificate that passes it reports as many entries as there are.
///
/// # Errors
///
/// Those of [`dob_certificate::verify`].
pub fn verify_watched<R: Threads + Sync, W: Watch + Sync>(
    rt: &R,
    classes: &Classes,
    certificate: &Certificate,
    position: &Position,
    claim: Claim,
    watch: &W,
) -> Result<(), Refusal>
    requires { IsPositionOf classes.now.family position.now.setup }
    ensures holds { IfOk result (λ _. Holds classes.now.family.profile position.now.setup claim) }
    ensures proof { IfOk result (λ _. Prove classes.now.family certificate.now.lost certificate.now.held position.now.setup claim) }
    ensures refusal { IfErr result (IsRefusal classes.now.family certificate.now.lost certificate.now.held position.now.setup claim) }
    ensures lost_told { (place : ℕ) → place < length certificate.now.lost → IsToldAt (W.told watch.now) (length certificate.now.lost) place }
    ensures held_told { OnOk result ((place : ℕ) → place < length certificate.now.held → IsToldAt (W.told watch.now) (length certificate.now.held) place) }
{
    check_list(rt, classes, ListKind::Lost, &certificate.lost, watch)?;
    check_list(rt, classes, ListKind::Held, &certificate.held, watch)?;
    check_claim(classes, certificate, position, claim)
}

// Passes a list of that kind exactly if it supports each of its entries, and reports them to the watch.
fn check_list<R: Threads + Sync, W: Watch + Sync>(
    rt: &R,
    classes: &Classes,
    kind: ListKind,
    entries: &Entries,
    watch: &W,
) -> Result<(), Refusal>
    ensures verdict { IsListVerdict (Supports kind classes.now.family entries.now) entries.now result }
    ensures told { (place : ℕ) → place < length entries.now → IsToldAt (W.told watch.now) (length entries.now) place }
{
    let first_refusal = (0..entries.as_slice().len() as u64)
        .into_par_iter()
        .map(
            |place: u64| -> Result<(), Refusal>
                requires { place < length entries.now }
                ensures verdict { IsEntryVerdict (Supports kind classes.entry.now.family entries.entry.now) (listed_entry entries.entry.now place) result }
                ensures told { IsToldAt (W.told watch.entry.now) (length entries.entry.now) place }
            {
                tell(watch, entries.as_slice().len() as u64, place);
                check_entry(classes, kind, entries, place as usize)
            },
        )
        .find_first(
            rt,
            |verdict: &Result<(), Refusal>| -> bool
                ensures { result ≡ is_err verdict.now }
            { verdict.is_err() },
        );
    first_refusal.unwrap_or(Ok(()))
}
