// Making a certificate's file by the table of a database file.
ghost use Rattle.std.specs.Prelude.{◌≡◌, ◌++◌, IfOk, IfErr, OnOk, codes, false, string_bytes};
ghost use Rattle.dob_rank.specs.Families.{IsInClass, IsPositionOf};
ghost use Rattle.dob_distance.specs.declared.value.Value.{Value as Valued};
ghost use Rattle.dob_probe.specs.Lines.{GivenBy};
ghost use Rattle.dob_certificate.specs.Claims.{Holds};
ghost use Rattle.dob_certfile.specs.Format.{bytes_of, content};
ghost use Rattle.dob_certify.specs.Made.{IsMade, rounds_of};
ghost use Rattle.dob_certify.specs.Faults.{IsFault};
ghost use Rattle.dob_device.specs.Sinks.{change};
ghost use Rattle.dob_verdict.specs.Certificates.{AreMade, IsSaidOf, IsTableMakingFault, IsUnfit, certify_owed, fault_of_making, made_lines, most_entries};
ghost use Rattle.dob_files.specs.Keeping.{FillsSink};
ghost use Rattle.dob_lines.specs.Tallies.{count_line};
ghost use Rattle.dob_files.specs.Owed.{GivesOwed};

use crate::certificates::claim_line;
use dob_certfile::{CertificateFile, WriteFault, certificate_bytes};
use dob_certify::{Certified, certify, rounds_of};
use dob_classes::Classes;
use dob_device::Sink;
use dob_files::{Answer, CertificateFault, ProgramFault, fill, keep_filled, open, position_named};
use dob_lines::{Console, Progress};
use dob_pieces::{Memory, Position};
use dob_probe::probe;
use dob_shelf::Shelf;
use dob_value::Table;
use dob_words::command::CertifyOrder;
use std::alloc::Global;
use std::thread::Threads;

/// Keeps under the other name a certificate of what the table of the file says of the position that the text names, exact if that is asked for and
/// of at most so many entries if a number is given. Gives the lines that say what it proves and how many entries it has. Where it is watched, lines
/// on the console say how far that is. The other file is made when the first one is read, before the certificate is looked for.
pub fn answer_certify<S: Shelf>(
    rt: &(impl Threads + Sync + Console),
    alloc: Global,
    shelf: &mut S,
    order: CertifyOrder<'_>,
) -> Answer
    ensures { GivesOwed (certify_owed order.entry.file.now order.entry.out.now order.entry.is_exact (most_entries order.entry.most) order.entry.position.now)
        S.state shelf.old shelf.new result }
{
    let position = position_named(order.position)?;
    let table = open(alloc, shelf, order.file)?;
    let mut sink = shelf.make(order.out)?;
    let filled = fill_certificate(rt, alloc, &mut sink, &table, &position, order);
    keep_filled(shelf, order.out, sink, filled)
}

// Fills the sink with the file of a certificate of the position by the table. The lines that say what is proved.
fn fill_certificate<D: Sink>(
    rt: &(impl Threads + Sync + Console),
    alloc: Global,
    sink: &mut D,
    table: &Table,
    position: &Position,
    order: CertifyOrder<'_>,
) -> Answer
    requires { (D.state sink.old).has_failed ≡ false }
    ensures { FillsSink (AreMade table.now order.entry.is_exact (most_entries order.entry.most) position.now.setup)
        (IsTableMakingFault table.now order.entry.is_exact (most_entries order.entry.most) position.now.setup) result
        (change (D.state sink.old) (D.state sink.new)) }
{
    let certificate = match made_file(rt, alloc, table, position, order) {
        Ok(certificate) => certificate,
        Err(fault) => return Err(fault_of_making(fault)),
    };
    let bytes = bytes_of(alloc, &certificate)?;
    let lines = made_lines(alloc, position, &certificate)?;
    fill(sink, &bytes, lines)
}

// The fault of making a certificate, as the program's.
fn fault_of_making(given: dob_certify::MakingFault) -> ProgramFault
    ensures { result ≡ fault_of_making given }
{
    match given {
        dob_certify::MakingFault::Table(fault) => ProgramFault::Table(fault),
        dob_certify::MakingFault::Unproved(refusal) => {
            ProgramFault::Certificate(CertificateFault::Unproved(refusal))
        }
        dob_certify::MakingFault::TooMany(most) => ProgramFault::Certificate(
            CertificateFault::TooMany(most),
        ),
        dob_certify::MakingFault::Memory => ProgramFault::Memory,
    }
}

// The greatest number of entries.
fn most_entries(most: Option<u64>) -> u64
    ensures { result ≡ most_entries most }
{
    most.unwrap_or(u64::MAX)
}

// What the file of a certificate of the position by the table says.
fn made_file(
    rt: &(impl Threads + Sync + Console),
    alloc: Global,
    table: &Table,
    position: &Position,
    order: CertifyOrder<'_>,
) -> Result<CertificateFile, dob_certify::MakingFault>
    ensures made { IfOk result (λ file. IsSaidOf table.now order.entry.is_exact (most_entries order.entry.most) position.now.setup (content file)) }
    ensures fault { IfErr result (IsFault table.now order.entry.is_exact position.now.setup (most_entries order.entry.most)) }
{
    let made = made_watched(rt, alloc, table, position, order)?;
    let root = root_of(table.classes(), position);
    Ok(CertificateFile {
        family: table.family(),
        root,
        claim: made.claim,
        certificate: made.certificate,
    })
}

// A certificate of the position by the table. Where it is watched, the console says how far that is.
fn made_watched(
    rt: &(impl Threads + Sync + Console),
    alloc: Global,
    table: &Table,
    position: &Position,
    order: CertifyOrder<'_>,
) -> Result<Certified, dob_certify::MakingFault>
    ensures made { IfOk result (IsMade table.now order.entry.is_exact (most_entries order.entry.most) position.now.setup) }
    ensures holds { IfOk result (λ made. Holds table.now.family.profile position.now.setup made.claim) }
    ensures member { OnOk result (IsPositionOf table.now.family position.now.setup) }
    ensures fault { IfErr result (IsFault table.now order.entry.is_exact position.now.setup (most_entries order.entry.most)) }
{
    let CertifyOrder {
        most,
        is_exact,
        is_watched,
        ..
    } = order;
    let rounds = rounds_at(table, position, is_exact);
    let progress = Progress::new(rt, is_watched, rounds);
    let made = certify(
        rt,
        alloc,
        table,
        position,
        is_exact,
        most_entries(most),
        &progress,
    );
    progress.end();
    made
}

// How many rounds are reported to the console, if the position is one of the table's.
fn rounds_at(table: &Table, position: &Position, is_exact: bool) -> u64
    ensures { IsPositionOf table.now.family position.now.setup → (value : Valued) → GivenBy table.now position.now.setup value → result ≡ rounds_of value is_exact }
{
    match probe(table, position) {
        Ok(value) => rounds_of(value, is_exact),
        Err(_) => 0,
    }
}

fn root_of(classes: &Classes, position: &Position) -> u32
    requires { IsPositionOf classes.now.family position.now.setup }
    ensures { IsInClass classes.now.family position.now.setup result }
{
    let _count = classes.class_count();
    classes.class_of(position) as u32
}

// The lines that say what is proved of the position, and by how many entries.
fn made_lines(alloc: Global, position: &Position, file: &CertificateFile) -> Result<String, Memory>
    ensures { IfOk result (λ lines. string_bytes lines ≡ made_lines position.now.setup (content file.now)) }
{
    let claimed = claim_line(alloc, file.family.profile, position, file.claim)?;
    let lost = file.certificate.lost.as_slice().len();
    let held = file.certificate.held.as_slice().len();
    counted_lines(alloc, claimed.as_str(), lost, held)
}

// The line with the counts of two lists behind it.
fn counted_lines(alloc: Global, line: &str, lost: usize, held: usize) -> Result<String, Memory>
    ensures { IfOk result (λ lines. string_bytes lines ≡ line.now ++ (count_line (codes "lost ") lost ++ count_line (codes "held ") held)) }
{
    Ok(format!(in alloc; "{line}lost {lost}\nheld {held}\n")?)
}

fn bytes_of(alloc: Global, file: &CertificateFile) -> Result<Vec<u8>, ProgramFault>
    ensures bytes { IfOk result (λ bytes. bytes.items ≡ bytes_of (content file.now)) }
    ensures fault { IfErr result (IsUnfit (content file.now)) }
{
    match certificate_bytes(alloc, file) {
        Ok(bytes) => Ok(bytes),
        Err(WriteFault::Unfit) => Err(ProgramFault::Certificate(CertificateFault::Unfit)),
        Err(WriteFault::Memory | WriteFault::Io(_)) => Err(ProgramFault::Memory),
    }
}
