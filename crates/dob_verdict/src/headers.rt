// What the header of a file says, a table's or a certificate's.
ghost use Rattle.std.specs.Prelude.{◌≡◌, ◌<◌, ℕ, List, IfErr, IfOk, MatchResult, Ok, false, string_bytes, take, true};
ghost use Rattle.dob_pieces.specs.Sets.{set_text};
ghost use Rattle.dob_rank.specs.Families.{RepresentsClass, classes_of};
ghost use Rattle.dob_certfile.specs.Fronts.{front_content};
ghost use Rattle.dob_certfile.specs.Reading.{front_at};
ghost use Rattle.dob_dbfile.specs.Faults.{fails};
ghost use Rattle.dob_device.specs.Devices.{whole};
ghost use Rattle.dob_files.specs.Owed.{GivesOwed};
ghost use Rattle.dob_files.specs.Faults.{is_io};
ghost use Rattle.dob_verdict.specs.Headers.{AreInfoLines, Begins, GivesAll, IsDefectOf, IsFrontFault, IsInfoFault, certificate_told, format_number, header_told, info_owed, is_certificate, of_certificate, of_table, rules_name};
ghost use Rattle.dob_verdict.specs.Certificates.{claim_text};

use crate::certificates::claim_text;
use dob_certfile::{FRONT_LEN, Front, front_of, is_title};
use dob_classes::{Classes, count_classes};
use dob_dbfile::{Failed, Format, PlacedSource, Source, read_classes, read_full};
use dob_files::{Answer, CertificateFault, ProgramFault};
use dob_pieces::{Family, Memory, PieceSet, Position, Profile};
use dob_shelf::Shelf;
use dob_text::write_position;
use std::alloc::Global;

/// How many bytes say whether a file is to be a certificate.
const TITLE_LEN: usize = 8;

/// The lines that say what the header of the file says, of a certificate where it begins as one and else of a table; as a JSON object if that is asked for. No
/// more than the header is read.
pub fn answer_info<S: Shelf>(alloc: Global, shelf: &mut S, file: &str, is_object: bool) -> Answer
    ensures { GivesOwed (info_owed file.now is_object) S.state shelf.old shelf.new result }
{
    let mut source = shelf.find(file)?;
    let answer = info_lines(alloc, &mut source, is_object);
    shelf.close(source);
    answer
}

// The lines by a source that is new.
fn info_lines<R: PlacedSource>(alloc: Global, source: &mut R, is_object: bool) -> Answer
    requires { R.has_failed source.old ≡ false }
    ensures ok { IfOk result (λ lines. AreInfoLines (GivesAll (R.gives source.old) (R.shows source.old)) is_object (string_bytes lines)) }
    ensures fault { IfErr result (IsInfoFault (GivesAll (R.gives source.old) (R.shows source.old))) }
    ensures failed { R.has_failed source.new ≡ fails is_io result }
{
    let begins = begins_certificate(source)?;
    if begins {
        certificate_lines(alloc, source, is_object)
    } else {
        table_lines(alloc, source, is_object)
    }
}

// Whether the source begins as a certificate. It is at its first byte then.
fn begins_certificate<R: PlacedSource>(source: &mut R) -> Result<bool, ProgramFault>
    requires { R.has_failed source.old ≡ false }
    ensures told { (bytes : List ℕ) → GivesAll (R.gives source.old) (R.shows source.old) bytes
        → MatchResult result (λ is. (is ≡ is_certificate bytes) × GivesAll (R.gives source.new) (R.shows source.new) bytes) (λ _. ⊥) }
    ensures fault { IfErr result (λ fault. fault ≡ ProgramFault.Io) }
    ensures failed { R.has_failed source.new ≡ fails is_io result }
{
    let mut title = [0; TITLE_LEN];
    let count = match read_full(source, &mut title) {
        Ok(count) => count,
        Err(_failed) => return Err(ProgramFault::Io),
    };
    match source.seek(0) {
        Ok(()) => Ok(is_title(&title[..count])),
        Err(Failed) => Err(ProgramFault::Io),
    }
}

// The lines about a certificate, by a source that is at its first byte.
fn certificate_lines<R: Source>(alloc: Global, source: &mut R, is_object: bool) -> Answer
    requires { R.has_failed source.old ≡ false }
    ensures ok { IfOk result (λ lines. AreInfoLines (Begins true (R.gives source.old)) is_object (string_bytes lines)) }
    ensures fault { IfErr result (IsInfoFault (Begins true (R.gives source.old))) }
    ensures failed { R.has_failed source.new ≡ fails is_io result }
{
    let front = read_front(source)?;
    let position = root_of(alloc, front)?;
    Ok(certificate_told(alloc, front, &position, is_object)?)
}

// What stands before the entries.
fn read_front<R: Source>(source: &mut R) -> Result<Front, ProgramFault>
    requires { R.has_failed source.old ≡ false }
    ensures front { (bytes : List ℕ) → R.gives source.old (whole bytes) → IfOk result (λ front. front_at (take 28 bytes) ≡ Ok (front_content front)) }
    ensures root { IfOk result (λ front. front.root < classes_of front.family) }
    ensures fault { IfErr result (IsFrontFault (λ bytes. R.gives source.old (whole bytes))) }
    ensures failed { R.has_failed source.new ≡ fails is_io result }
{
    let mut room = [0; FRONT_LEN];
    match read_full(source, &mut room) {
        Ok(count) => front_in(&room[..count]),
        Err(_failed) => Err(ProgramFault::Io),
    }
}

/// The same of the bytes that were read.
pub(crate) fn front_in(bytes: &[u8]) -> Result<Front, ProgramFault>
    ensures front { IfOk result (λ front. front_at bytes.now ≡ Ok (front_content front)) }
    ensures root { IfOk result (λ front. front.root < classes_of front.family) }
    ensures fault { IfErr result (IsDefectOf bytes.now) }
{
    match front_of(bytes) {
        Ok((front, _)) => Ok(front),
        Err(defect) => Err(ProgramFault::Certificate(CertificateFault::Defect(defect))),
    }
}

// The position of the claim.
fn root_of(alloc: Global, front: Front) -> Result<Position, Memory>
    requires { front.root < classes_of front.family }
    ensures { IfOk result (λ position. RepresentsClass front.family position.setup front.root) }
{
    let classes = Classes::open(alloc, front.family)?;
    Ok(classes.class_at(front.root as u64))
}

// The lines about a table, by a source that is at its first byte.
fn table_lines<R: Source>(alloc: Global, source: &mut R, is_object: bool) -> Answer
    requires { R.has_failed source.old ≡ false }
    ensures ok { IfOk result (λ lines. AreInfoLines (Begins false (R.gives source.old)) is_object (string_bytes lines)) }
    ensures fault { IfErr result (IsInfoFault (Begins false (R.gives source.old))) }
    ensures failed { R.has_failed source.new ≡ fails is_io result }
{
    let (format, classes) = read_classes(alloc, source)?;
    Ok(table_told(alloc, format, classes.family, is_object)?)
}

// The lines that tell of a table's header.
fn table_told(
    alloc: Global,
    format: Format,
    family: Family,
    is_object: bool,
) -> Result<String, Memory>
    ensures { IfOk result (λ lines. string_bytes lines ≡ header_told is_object (of_table format family)) }
{
    let set = set_text(alloc, family.set)?;
    let set = set.as_str();
    let rules = rules_name(family.profile);
    let format = format_number(format);
    let classes = count_classes(family);
    Ok(if is_object {
        format!(in alloc;
            "{{\"set\":\"{set}\",\"rules\":\"{rules}\",\"format\":{format},\"classes\":{classes}}}\n"
        )?
    } else {
        format!(in alloc; "set {set}\nrules {rules}\nformat {format}\nclasses {classes}\n")?
    })
}

// The lines that tell of a certificate's header, which claims something of the position.
fn certificate_told(
    alloc: Global,
    front: Front,
    position: &Position,
    is_object: bool,
) -> Result<String, Memory>
    ensures { IfOk result (λ lines. string_bytes lines ≡ header_told is_object (of_certificate (front_content front) position.now.setup)) }
{
    let text = write_position(alloc, position)?;
    let claim = claim_text(alloc, front.claim)?;
    let rules = rules_name(front.family.profile);
    let entries = front.lost_count as u64 + front.held_count as u64;
    joined_told(
        alloc,
        text.as_str(),
        claim.as_str(),
        rules,
        entries,
        is_object,
    )
}

// The texts and the number of entries together.
fn joined_told(
    alloc: Global,
    position: &str,
    claim: &str,
    rules: &str,
    entries: u64,
    is_object: bool,
) -> Result<String, Memory>
    ensures { IfOk result (λ lines. string_bytes lines ≡ certificate_told is_object position.now claim.now rules.now entries) }
{
    Ok(if is_object {
        format!(in alloc;
            "{{\"position\":\"{position}\",\"claim\":\"{claim}\",\"rules\":\"{rules}\",\"entries\":{entries}}}\n"
        )?
    } else {
        format!(in alloc; "position {position}\nclaim {claim}\nrules {rules}\nentries {entries}\n")?
    })
}

fn set_text(alloc: Global, set: PieceSet) -> Result<String, Memory>
    ensures { IfOk result (λ text. string_bytes text ≡ set_text set) }
{
    let PieceSet {
        chicks,
        elephants,
        giraffes,
        ..
    } = set;
    Ok(format!(in alloc; "{chicks}{elephants}{giraffes}")?)
}

// What the rules are called.
fn rules_name(profile: Profile) -> &'static str
    ensures { result.now ≡ rules_name profile }
{
    match profile {
        Profile::A => "A",
        Profile::B => "B",
    }
}

fn format_number(format: Format) -> u8
    ensures { result ≡ format_number format }
{
    match format {
        Format::First => 1,
        Format::Second => 2,
    }
}
