// A certificate of what a table says of a position.
ghost use Rattle.std.specs.Prelude.{◌≡◌, ◌≤◌, ◌+◌, ◌↔◌, All, length, IfOk, IfErr, IsTrue, OnOk};
ghost use Rattle.dob_rank.specs.Families.{IsPositionOf};
ghost use Rattle.dob_distance.specs.declared.value.Value.{Value as Valued};
ghost use Rattle.dob_probe.specs.Lines.{GivenBy};
ghost use Rattle.dob_certificate.specs.Ascending.{AreAscending};
ghost use Rattle.dob_certificate.specs.Claims.{Holds, Prove};
ghost use Rattle.dob_certify.specs.Made.{IsMade, claim_of, rounds_of};
ghost use Rattle.dob_certify.specs.Lists.{IsByTable};
ghost use Rattle.dob_certify.specs.Faults.{IsFault};

use crate::fault::MakingFault;
use crate::held::held_entries;
use crate::lost::lost_entries;
use crate::outcomes::{Listed, list_outcomes, number_of, value_in};
use dob_certificate::{Certificate, Claim, EVER, Entries, ListKind};
use dob_check::{Unwatched, Watch, verify_watched};
use dob_moves::PositionBoard;
use dob_pieces::{Memory, Position};
use dob_probe::probe;
use dob_value::{Table, Value};
use std::alloc::Global;
use std::thread::Threads;

/// A certificate with what it proves of a position.
#[derive(Drop)]
pub struct Certified {
    pub claim: Claim,
    pub certificate: Certificate,
}

/// What a certificate is to claim: that the position is lost or won within the value's plies, or exactly that value. A draw is always exact.
pub fn claim_of(value: Value, is_exact: bool) -> Claim
    ensures { result ≡ claim_of value is_exact }
{
    match value {
        Value::Draw => Claim::Exactly(value),
        _ if is_exact => Claim::Exactly(value),
        Value::Loss(plies) => Claim::LostWithin(plies),
        Value::Win(plies) => Claim::WonWithin(plies),
    }
}

/// How many rounds to reckon with in `certify`: one for each two plies, and as many again where the certificate is to be exact. Its watch is called after each
/// round that there is; of a draw's nobody knows how many that are, and how often it is called no clause says.
pub fn rounds_of(value: Value, is_exact: bool) -> u64
    ensures { result ≡ rounds_of value is_exact }
{
    match value {
        Value::Draw => 1,
        Value::Win(plies) | Value::Loss(plies) => {
            let half = plies as u64 / 2;
            if is_exact { 2 * half } else { half }
        }
    }
}

/// Makes a certificate of what the table says of the position. It has been verified, so what it claims holds, whoever made the table.
///
/// A loss or a win is claimed within its plies; if `is_exact`, in exactly these. The list of lost classes has a few
/// hundred thousand entries at most; that of the others, which a draw and an exact value need, may have tens of millions, and takes some 40 bytes
/// for each.
///
/// # Errors
///
/// `Table` if the position isn't one of the table's (E7, E26); else `TooMany` if the lists that were found have more than `most` entries, which the table
/// bears out; else `Unproved` if they don't prove the claim, as where the table isn't right; `Memory`.
pub fn certify<R: Threads + Sync, W: Watch>(
    rt: &R,
    alloc: Global,
    table: &Table,
    position: &Position,
    is_exact: bool,
    most: u64,
    watch: &W,
) -> Result<Certified, MakingFault>
    ensures made { IfOk result (IsMade table.now is_exact most position.now.setup) }
    ensures holds { IfOk result (λ certified. Holds table.now.family.profile position.now.setup certified.claim) }
    ensures member { OnOk result (IsPositionOf table.now.family position.now.setup) }
    ensures fault { IfErr result (IsFault table.now is_exact position.now.setup most) }
{
    let value = probe(table, position)?;
    let claim = claim_of(value, is_exact);
    let certificate = lists(alloc, table, position, claim, most, watch)?;
    if !are_few(&certificate.lost, &certificate.held, most) {
        return Err(MakingFault::TooMany(most));
    }
    verify_watched(
        rt,
        table.classes(),
        &certificate,
        position,
        claim,
        &Unwatched,
    )?;
    Ok(Certified { claim, certificate })
}

// The lists for the claim; where they have more than `most` entries, as far as they were found then.
fn lists<W: Watch>(
    alloc: Global,
    table: &Table,
    position: &Position,
    claim: Claim,
    most: u64,
    watch: &W,
) -> Result<Certificate, Memory>
    requires { IsPositionOf table.now.family position.now.setup }
    ensures lost { IfOk result (λ found. All (IsByTable table.now ListKind.Lost) found.lost) }
    ensures held { IfOk result (λ found. All (IsByTable table.now ListKind.Held) found.held) }
{
    let class = number_of(table.classes(), &PositionBoard::of(position));
    let lost = lost_list(alloc, table, class, claim, most, watch)?;
    let left = most.saturating_sub(lost.as_slice().len() as u64);
    let held = held_list(alloc, table, class, claim, left, watch)?;
    Ok(Certificate { lost, held })
}

// Whether the lists have at most `most` entries.
fn are_few(lost: &Entries, held: &Entries, most: u64) -> bool
    ensures few { IsTrue result ↔ length lost.now + length held.now ≤ most }
    ensures ascending { AreAscending lost.now × AreAscending held.now }
{
    let lost = lost.as_slice().len() as u64;
    let held = held.as_slice().len() as u64;
    lost <= most && held <= most - lost
}

// The list of lost classes: the class, or one to which a move leads that is lost in time.
fn lost_list<W: Watch>(
    alloc: Global,
    table: &Table,
    class: u32,
    claim: Claim,
    most: u64,
    watch: &W,
) -> Result<Entries, Memory>
    ensures { IfOk result (All (IsByTable table.now ListKind.Lost)) }
{
    match claim {
        Claim::LostWithin(plies) | Claim::Exactly(Value::Loss(plies)) => {
            lost_entries(alloc, table, class, plies, most, watch)
        }
        Claim::WonWithin(plies) | Claim::Exactly(Value::Win(plies)) => {
            let plies = plies.saturating_sub(1);
            match lost_outcome(alloc, table, class, plies)? {
                Some(reply) => lost_entries(alloc, table, reply, plies, most, watch),
                None => Ok(Entries::new(alloc)),
            }
        }
        Claim::Exactly(Value::Draw) => Ok(Entries::new(alloc)),
    }
}

// The first class to which a move leads and that is lost in `plies`.
fn lost_outcome(
    alloc: Global,
    table: &Table,
    class: u32,
    plies: u16,
) -> Result<Option<u32>, Memory> {
    let mut classes = Vec::new(alloc);
    list_outcomes(table, class, Listed::All, &mut classes)?;
    for outcome in classes.iter() {
        if value_in(table, *outcome) == Value::Loss(plies) {
            return Ok(Some(*outcome));
        }
    }
    Ok(None)
}

// The list of the other classes, where the claim is exact: those that show that the position isn't lost sooner, or that no move wins sooner.
fn held_list<W: Watch>(
    alloc: Global,
    table: &Table,
    class: u32,
    claim: Claim,
    most: u64,
    watch: &W,
) -> Result<Entries, Memory>
    ensures { IfOk result (All (IsByTable table.now ListKind.Held)) }
{
    let Claim::Exactly(value) = claim else {
        return Ok(Entries::new(alloc));
    };
    let mut roots = Vec::new(alloc);
    if !matches!(value, Value::Loss(_)) {
        list_outcomes(table, class, Listed::Uncaught, &mut roots)?;
    }
    if !matches!(value, Value::Win(_)) {
        roots.push(class)?;
    }
    held_entries(alloc, table, &roots, plies_held(value), most, watch)
}

// For how many plies those have to hold that show that a value is exact.
fn plies_held(value: Value) -> u16 {
    match value {
        Value::Loss(plies) => plies.saturating_sub(1),
        Value::Win(plies) => plies.saturating_sub(2),
        Value::Draw => EVER,
    }
}
