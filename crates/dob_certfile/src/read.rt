// Reading a certificate's file from its bytes.
ghost use Rattle.std.specs.Prelude.{◌≡◌, ◌↔◌, ◌<◌, ◌≤◌, ◌⊎◌, ◌^◌, length, take, IfOk, IfErr, Ok, IsTrue};
ghost use Rattle.sha2.specs.Sha256.{sha256};
ghost use Rattle.dob_rank.specs.Families.{classes_of};
ghost use Rattle.dob_certificate.specs.Ascending.{AreAscending};
ghost use Rattle.dob_certfile.specs.declared.defect.Defect.{Defect as AnyDefect};
ghost use Rattle.dob_certfile.specs.Format.{Content, Fits, bytes_of, content};
ghost use Rattle.dob_certfile.specs.Reading.{Gives, HasCertFault, MayGive, entries_at, file_at, seal_at};

use crate::defect::{Defect, ReadFault};
use crate::entries::entries_of;
use crate::file::CertificateFile;
use crate::front::{FRONT_LEN, front_of};
use dob_certificate::{Certificate, Entries, ListKind};
use dob_dbfile::are_same;
use sha2::{Digest, Sha256};
use std::alloc::Global;

/// How many bytes the digest has.
pub(crate) const DIGEST_LEN: usize = 32;

/// The certificate whose file the bytes are.
///
/// # Errors
///
/// The first of these that holds: `Truncated`, fewer than 28 bytes; `Magic`; `Version`; `SetByte`; `ProfileByte`; `RootClass`;
/// `ClaimByte`; `EntryCount`; of each entry in turn `Truncated`, `EntryNumber`, `EntryOrder`, `EntryClass`, where its plies are
/// missing `Truncated`, and of the lost list `EntryPlies`; `Truncated`, fewer than 32 bytes after the entries; `Trailing`, more; `Digest`. Or `Memory`.
pub fn read_certificate(alloc: Global, bytes: &[u8]) -> Result<CertificateFile, ReadFault>
    // What is read has exactly these bytes.
    ensures found { IfOk result (λ file. Fits (content file) × (bytes.now ≡ bytes_of (content file))) }
    // The bytes of what has a file are read as that, unless memory runs out.
    ensures only { (c : Content) → Fits c → bytes.now ≡ bytes_of c → MayGive content result (Ok c) }
    // A fault is the first one, and if there is one it is given, unless memory runs out.
    ensures fault { IfErr result (λ given. (given ≡ ReadFault.Memory) ⊎ ((defect : AnyDefect) × (given ≡ ReadFault.Defect defect) × HasCertFault bytes.now defect)) }
    ensures exact { MayGive content result (file_at bytes.now) }
{
    file_of(alloc, bytes)
}

// The certificate, by the tests in their order.
#[tactic(auto, unfolding(crate::specs::Reading::file_at))]
fn file_of(alloc: Global, bytes: &[u8]) -> Result<CertificateFile, ReadFault>
    ensures { MayGive content result (file_at bytes.now) }
{
    let (front, classes) = front_of(bytes)?;
    let (_, rest) = bytes.split_at(FRONT_LEN);
    let (lost, rest) = list_of(alloc, ListKind::Lost, rest, front.lost_count, classes)?;
    let (held, rest) = list_of(alloc, ListKind::Held, rest, front.held_count, classes)?;
    check_seal(bytes, rest)?;
    Ok(CertificateFile {
        family: front.family,
        root: front.root,
        claim: front.claim,
        certificate: Certificate { lost, held },
    })
}

// A list of `count` entries, and the bytes after it.
fn list_of(
    alloc: Global,
    kind: ListKind,
    bytes: &[u8],
    count: u32,
    classes: u64,
) -> Result<(Entries, &[u8]), ReadFault>
    requires { classes < 2 ^ 31 }
    ensures { MayGive (λ x. (x.0, x.1.now)) result (entries_at kind classes 0 count bytes.now) }
{
    let (entries, rest) = entries_of(alloc, kind, bytes, count, classes)?;
    let entries = Entries::from_ascending(entries);
    Ok((entries, rest))
}

// Tests that the rest of the bytes is the digest of those before it.
#[tactic(auto, unfolding(crate::specs::Reading::seal_at))]
fn check_seal(bytes: &[u8], rest: &[u8]) -> Result<(), Defect>
    ensures { result ≡ seal_at bytes.now rest.now }
{
    if rest.len() < DIGEST_LEN {
        return Err(Defect::Truncated);
    }
    if rest.len() > DIGEST_LEN {
        return Err(Defect::Trailing);
    }
    let digest = Sha256::digest(&bytes[..bytes.len().saturating_sub(DIGEST_LEN)]);
    if are_same(rest, &digest) {
        Ok(())
    } else {
        Err(Defect::Digest)
    }
}
