// Writing a certificate's file.
ghost use Rattle.std.specs.Prelude.{◌≡◌, ◌++◌, ◌<◌, ◌≤◌, ◌^◌, ◌⊎◌, ◌↔◌, ◌∷◌, [], false, length, All, IfErr, IfOk, OnErr, OnOk, IsTrue};
ghost use Rattle.byteorder.specs.Endian.{little_bytes};
ghost use Rattle.dob_rank.specs.Families.{classes_of};
ghost use Rattle.dob_certificate.specs.Ascending.{AreAscending};
ghost use Rattle.dob_dbfile.specs.Faults.{fails};
ghost use Rattle.dob_device.specs.Sinks.{Puts, change};
ghost use Rattle.dob_certfile.specs.Format.{FitEntries, FitEntry, Fits, FitsClaim, FitsPlies, bytes_of, claim_bytes, content, contents_of, entry_bytes, entries_bytes, head_bytes, plies_byte};
ghost use Rattle.dob_certfile.specs.Writing.{IsUnwritten, is_io};

use crate::defect::WriteFault;
use crate::file::CertificateFile;
use crate::front::VERSION;
use crate::numbers::push_number;
use byteorder::{ByteOrder, LittleEndian};
use dob_certificate::{Claim, EVER, Entry, ListKind};
use dob_classes::count_classes;
use dob_dbfile::{FailedAfter, Sink, put_all};
use dob_distance::Value;
use dob_pieces::Memory;
use sha2::{Digest, Sha256};
use std::alloc::Global;

/// Writes the file, and flushes the sink once at the end.
///
/// # Errors
///
/// `Unfit` and `Memory`, before anything is written; `Io` if the sink fails in this call, which then has received exactly the first
/// bytes of the file, as many as the fault says, and all of them where it failed to flush.
pub fn write_certificate<W: Sink>(
    alloc: Global,
    file: &CertificateFile,
    sink: &mut W,
) -> Result<(), WriteFault>
    requires { (W.state sink.old).has_failed ≡ false }
    ensures written { OnOk result (Puts (change (W.state sink.old) (W.state sink.new)) (bytes_of (content file.now))) }
    ensures stopped { IfErr result (IsUnwritten (change (W.state sink.old) (W.state sink.new)) (content file.now)) }
    ensures fits { OnOk result (Fits (content file.now)) }
    ensures failed { (W.state sink.new).has_failed ≡ fails is_io result }
{
    let bytes = certificate_bytes(alloc, file)?;
    match put_all(sink, &bytes) {
        Ok(()) => Ok(()),
        Err(FailedAfter { bytes: count }) => Err(WriteFault::Io(count as u64)),
    }
}

/// The bytes of the file.
///
/// # Errors
///
/// `Unfit`, exactly if the root or an entry is no class of the family, or the claim or an entry has more than 254 plies, but for *ever* of
/// the held list, which no file says; `Memory`.
pub fn certificate_bytes(alloc: Global, file: &CertificateFile) -> Result<Vec<u8>, WriteFault>
    ensures bytes { IfOk result (λ bytes. bytes.items ≡ bytes_of (content file.now)) }
    ensures fits { OnOk result (Fits (content file.now)) }
    ensures fault { IfErr result (λ given. (given ≡ WriteFault.Memory) ⊎ ((given ≡ WriteFault.Unfit) × ¬ Fits (content file.now))) }
{
    if !fits(file) {
        return Err(WriteFault::Unfit);
    }
    Ok(bytes_of(alloc, file)?)
}

// Whether a file can say that.
fn fits(file: &CertificateFile) -> bool
    ensures { IsTrue result ↔ Fits (content file.now) }
{
    let classes = count_classes(file.family);
    if file.root as u64 >= classes {
        return false;
    }
    if !fits_claim(file.claim) {
        return false;
    }
    if !fit_entries(ListKind::Lost, file.certificate.lost.as_slice(), classes) {
        return false;
    }
    fit_entries(ListKind::Held, file.certificate.held.as_slice(), classes)
}

// Whether a file can say that claim.
fn fits_claim(claim: Claim) -> bool
    ensures { IsTrue result ↔ FitsClaim claim }
{
    match claim {
        Claim::Exactly(Value::Draw) => true,
        Claim::Exactly(Value::Win(plies)) => plies < 255,
        Claim::Exactly(Value::Loss(plies)) => plies < 255,
        Claim::WonWithin(plies) => plies < 255,
        Claim::LostWithin(plies) => plies < 255,
    }
}

// Whether such a list of a file of `classes` classes can have each of the entries.
fn fit_entries(kind: ListKind, entries: &[Entry], classes: u64) -> bool
    ensures { IsTrue result ↔ All (FitEntry kind classes) entries.now }
{
    entries
        .iter()
        .all(|entry| fits_entry(kind, *entry, classes))
}

// Whether such a list of a file of `classes` classes can have the entry.
fn fits_entry(kind: ListKind, entry: Entry, classes: u64) -> bool
    ensures { IsTrue result ↔ FitEntry kind classes entry }
{
    (entry.class as u64) < classes && fit_plies(kind, entry.plies)
}

// Whether an entry of such a list can have these plies.
fn fit_plies(kind: ListKind, plies: u16) -> bool
    ensures { IsTrue result ↔ FitsPlies kind plies }
{
    match kind {
        ListKind::Lost => plies < 255,
        ListKind::Held => plies < 255 || plies == EVER,
    }
}

// The bytes of a file that can say it.
fn bytes_of(alloc: Global, file: &CertificateFile) -> Result<Vec<u8>, Memory>
    requires { Fits (content file.now) }
    ensures { IfOk result (λ bytes. bytes.items ≡ bytes_of (content file.now)) }
{
    let mut bytes = Vec::new(alloc);
    push_contents(&mut bytes, file)?;
    let digest = Sha256::digest(&bytes);
    bytes.extend_from_slice(&digest)?;
    Ok(bytes)
}

// Appends what stands before the digest.
fn push_contents(bytes: &mut Vec<u8>, file: &CertificateFile) -> Result<(), Memory>
    requires { Fits (content file.now) }
    ensures { OnOk result (bytes.new.items ≡ bytes.old.items ++ contents_of (content file.now)) }
{
    let lost = file.certificate.lost.as_slice();
    let held = file.certificate.held.as_slice();
    push_front(bytes, file)?;
    push_word(bytes, lost.len() as u32)?;
    push_word(bytes, held.len() as u32)?;
    push_entries(bytes, lost)?;
    push_entries(bytes, held)?;
    Ok(())
}

// Appends what stands before the counts.
fn push_front(bytes: &mut Vec<u8>, file: &CertificateFile) -> Result<(), Memory>
    requires { FitsClaim file.now.claim }
    ensures { OnOk result (bytes.new.items ≡ bytes.old.items ++ head_bytes (content file.now)) }
{
    let set = file.family.set;
    let profile = file.family.profile.number();
    let claim = claim_bytes(file.claim);
    bytes.extend_from_slice(b"DOBUCERT")?;
    bytes.extend_from_slice(&[VERSION, set.chicks, set.elephants, set.giraffes, 2, profile])?;
    push_word(bytes, file.root)?;
    bytes.extend_from_slice(&claim)?;
    Ok(())
}

// The kind of the claim, and its plies.
fn claim_bytes(claim: Claim) -> [u8; 2]
    requires { FitsClaim claim }
    ensures { result ≡ claim_bytes claim }
{
    match claim {
        Claim::Exactly(Value::Draw) => [0, 0],
        Claim::Exactly(Value::Win(plies)) => [1, plies as u8],
        Claim::Exactly(Value::Loss(plies)) => [2, plies as u8],
        Claim::WonWithin(plies) => [3, plies as u8],
        Claim::LostWithin(plies) => [4, plies as u8],
    }
}

// Appends a number in four bytes.
fn push_word(bytes: &mut Vec<u8>, number: u32) -> Result<(), Memory>
    ensures { OnOk result (bytes.new.items ≡ bytes.old.items ++ little_bytes 4 number) }
{
    let mut word = [0; 4];
    LittleEndian::write_u32(&mut word, number);
    bytes.extend_from_slice(&word)?;
    Ok(())
}

// Appends entries in ascending order.
fn push_entries(bytes: &mut Vec<u8>, entries: &[Entry]) -> Result<(), Memory>
    requires { AreAscending entries.now }
    ensures { OnOk result (bytes.new.items ≡ bytes.old.items ++ entries_bytes 0 entries.now) }
{
    let mut least = 0;
    for entry in entries {
        push_entry(bytes, least, *entry)?;
        least = entry.class as u64 + 1;
    }
    Ok(())
}

// Appends an entry whose class is the least or above.
fn push_entry(bytes: &mut Vec<u8>, least: u64, entry: Entry) -> Result<(), Memory>
    requires { least ≤ entry.class }
    ensures { OnOk result (bytes.new.items ≡ bytes.old.items ++ entry_bytes least entry) }
{
    push_number(bytes, entry.class as u64 + 1 - least)?;
    let plies = plies_byte(entry.plies);
    bytes.push(plies)?;
    Ok(())
}

// The byte of an entry's plies.
fn plies_byte(plies: u16) -> u8
    ensures { result ≡ plies_byte plies }
{
    if plies < 255 { plies as u8 } else { 255 }
}
