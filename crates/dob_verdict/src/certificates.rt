// What a certificate's file proves.
ghost use Rattle.std.specs.Prelude.{◌≡◌, ◌+◌, ◌*◌, ◌++◌, ◌∷◌, [], IfOk, IfErr, false, string_bytes};
ghost use Rattle.dob_pieces.specs.Bytes.{line_feed, space};
ghost use Rattle.dob_rank.specs.Families.{IsPositionOf};
ghost use Rattle.dob_certificate.specs.Claims.{Holds, Prove};
ghost use Rattle.dob_certificate.specs.Refusals.{IsRefusal};
ghost use Rattle.dob_certfile.specs.Format.{Fits, content};
ghost use Rattle.dob_dbfile.specs.Faults.{fails};
ghost use Rattle.dob_device.specs.Devices.{whole};
ghost use Rattle.dob_files.specs.Faults.{is_io};
ghost use Rattle.dob_shelf.specs.Shelves.{Leaving, SameFiles};
ghost use Rattle.dob_files.specs.Endings.{GivesOver};
ghost use Rattle.dob_files.specs.Owed.{GivesOwed};
ghost use Rattle.dob_verdict.specs.Certificates.{AreBytes, IsCertificateFile, IsReadingFault, IsVerdict, IsVerdictFault, claim_line, claim_text, rules_said, verify_owed};

use crate::headers::front_in;
use dob_certfile::{CertificateFile, FRONT_LEN, Front, read_certificate};
use dob_certificate::{Claim, Refusal};
use dob_check::verify_watched;
use dob_classes::Classes;
use dob_dbfile::{Source, read_full};
use dob_files::{Answer, ProgramFault};
use dob_lines::{Console, Progress};
use dob_pieces::{Memory, Position, Profile};
use dob_shelf::{Shelf, read_up_to};
use dob_text::write_position;
use dob_value::Value;
use std::alloc::Global;
use std::thread::Threads;

/// The line that says what the certificate of the file proves. Where it is watched, lines on the console say how far that is.
pub fn answer_verify<S: Shelf>(
    rt: &(impl Threads + Sync + Console),
    alloc: Global,
    shelf: &mut S,
    file: &str,
    is_watched: bool,
) -> Answer
    ensures { GivesOwed (verify_owed file.now) S.state shelf.old shelf.new result }
{
    let certificate = open_certificate(alloc, shelf, file)?;
    verdict(rt, alloc, &certificate, is_watched)
}

// The line that says what the certificate proves of the representative of its root's class.
fn verdict(
    rt: &(impl Threads + Sync + Console),
    alloc: Global,
    certificate: &CertificateFile,
    is_watched: bool,
) -> Answer
    requires { Fits (content certificate.now) }
    ensures ok { IfOk result (λ line. IsVerdict (content certificate.now) (string_bytes line)) }
    ensures err { IfErr result (IsVerdictFault (content certificate.now)) }
{
    let classes = Classes::open(alloc, certificate.family)?;
    let position = classes.class_at(certificate.root as u64);
    check_certificate(rt, &classes, certificate, &position, is_watched)?;
    Ok(claim_line(
        alloc,
        certificate.family.profile,
        &position,
        certificate.claim,
    )?)
}

// Passes the certificate where its lists prove the claim of the position. Where it is watched, the console says how far that is.
fn check_certificate(
    rt: &(impl Threads + Sync + Console),
    classes: &Classes,
    certificate: &CertificateFile,
    position: &Position,
    is_watched: bool,
) -> Result<(), Refusal>
    requires { IsPositionOf classes.now.family position.now.setup }
    ensures holds { IfOk result (λ _. Holds classes.now.family.profile position.now.setup certificate.now.claim) }
    ensures proof { IfOk result (λ _. Prove classes.now.family certificate.now.certificate.lost certificate.now.certificate.held position.now.setup certificate.now.claim) }
    ensures refusal { IfErr result (IsRefusal classes.now.family certificate.now.certificate.lost certificate.now.certificate.held position.now.setup certificate.now.claim) }
{
    let lists = &certificate.certificate;
    let lost = lists.lost.as_slice().len() as u64;
    let held = lists.held.as_slice().len() as u64;
    let progress = Progress::new(rt, is_watched, lost.saturating_add(held));
    let checked = verify_watched(rt, classes, lists, position, certificate.claim, &progress);
    progress.end();
    checked
}

pub(crate) fn open_certificate<S: Shelf>(
    alloc: Global,
    shelf: &mut S,
    file: &str,
) -> Result<CertificateFile, ProgramFault>
    ensures { Leaving SameFiles S.state shelf.old shelf.new (λ c.
        GivesOver c (λ certificate. IsCertificateFile (c.before.has file.now) (content certificate)) (IsReadingFault (c.before.has file.now)) result) }
{
    let bytes = bytes_named(alloc, shelf, file)?;
    Ok(read_certificate(alloc, &bytes)?)
}

// The bytes of the file, if what stands before the entries is right; of one that goes on too long no more than shows that.
fn bytes_named<S: Shelf>(alloc: Global, shelf: &mut S, file: &str) -> Result<Vec<u8>, ProgramFault>
    ensures { Leaving SameFiles S.state shelf.old shelf.new (λ c.
        GivesOver c (λ bytes. AreBytes (c.before.has file.now) bytes.items) (IsReadingFault (c.before.has file.now)) result) }
{
    let mut source = shelf.find(file)?;
    let read = bytes_in(alloc, &mut source);
    shelf.close(source);
    read
}

// The same by a source that is new. What stands before the entries is looked at before more is read: of a file of something else no more is, and it says how
// much that may be.
fn bytes_in<R: Source>(alloc: Global, source: &mut R) -> Result<Vec<u8>, ProgramFault>
    requires { R.has_failed source.old ≡ false }
    ensures bytes { IfOk result (λ read. AreBytes (λ bytes. R.gives source.old (whole bytes)) read.items) }
    ensures fault { IfErr result (IsReadingFault (λ bytes. R.gives source.old (whole bytes))) }
    ensures failed { R.has_failed source.new ≡ fails is_io result }
{
    let mut room = [0; FRONT_LEN];
    let count = match read_full(source, &mut room) {
        Ok(count) => count,
        Err(_failed) => return Err(ProgramFault::Io),
    };
    let front = front_in(&room[..count])?;
    let rest = read_up_to(alloc, source, most_behind(front))?;
    Ok(joined(alloc, &room[..count], &rest)?)
}

// How many bytes stand behind the front at most: six for each entry, and the digest.
fn most_behind(front: Front) -> u64
    ensures { result ≡ 6 * front.held_count + 6 * front.lost_count + 32 }
{
    6 * front.held_count as u64 + 6 * front.lost_count as u64 + 32
}

// The bytes of both, one behind the other.
fn joined(alloc: Global, front: &[u8], rest: &[u8]) -> Result<Vec<u8>, Memory>
    ensures { IfOk result (λ bytes. bytes.items ≡ front.now ++ rest.now) }
{
    let mut bytes = Vec::new(alloc);
    bytes.extend_from_slice(front)?;
    bytes.extend_from_slice(rest)?;
    Ok(bytes)
}

/// The line that says what is claimed of the position, and by which rules.
pub(crate) fn claim_line(
    alloc: Global,
    profile: Profile,
    position: &Position,
    claim: Claim,
) -> Result<String, Memory>
    ensures { IfOk result (λ line. string_bytes line ≡ claim_line profile position.now.setup claim) }
{
    let text = write_position(alloc, position)?;
    let claimed = claim_text(alloc, claim)?;
    joined_line(alloc, text.as_str(), claimed.as_str(), rules_said(profile))
}

// Both texts with a space between them, and the rules that are said.
fn joined_line(alloc: Global, text: &str, claimed: &str, rules: &str) -> Result<String, Memory>
    ensures { IfOk result (λ line. string_bytes line ≡ text.now ++ (space ∷ (claimed.now ++ (rules.now ++ line_feed ∷ [])))) }
{
    Ok(format!(in alloc; "{text} {claimed}{rules}\n")?)
}

fn rules_said(profile: Profile) -> &'static str
    ensures { result.now ≡ rules_said profile }
{
    match profile {
        Profile::A => "",
        Profile::B => " by rules B",
    }
}

pub(crate) fn claim_text(alloc: Global, claim: Claim) -> Result<String, Memory>
    ensures { IfOk result (λ text. string_bytes text ≡ claim_text claim) }
{
    match claim {
        Claim::Exactly(Value::Draw) => Ok("draw".to_string(alloc)?),
        Claim::Exactly(Value::Win(plies)) => Ok(format!(in alloc; "win {plies}")?),
        Claim::Exactly(Value::Loss(plies)) => Ok(format!(in alloc; "loss {plies}")?),
        Claim::WonWithin(plies) => Ok(format!(in alloc; "win within {plies}")?),
        Claim::LostWithin(plies) => Ok(format!(in alloc; "loss within {plies}")?),
    }
}
