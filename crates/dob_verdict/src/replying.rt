// The move that a certificate gives for a position.
ghost use Rattle.std.specs.Prelude.{◌≡◌, [], ◌∷◌, ◌++◌, IfOk, IfErr, codes, string_bytes};
ghost use Rattle.std.specs.Fmt.{decimal};
ghost use Rattle.dob_pieces.specs.Bytes.{line_feed};
ghost use Rattle.dob_certfile.specs.Format.{content};
ghost use Rattle.dob_verdict.specs.Replying.{IsReplyFault, IsReplyOf, IsToldReply, loss_line, reply_owed, win_line};
ghost use Rattle.dob_files.specs.Owed.{GivesOwed};

use crate::certificates::open_certificate;
use dob_certfile::CertificateFile;
use dob_certificate::{ListKind, check_list};
use dob_certify::{Reply, reply_to};
use dob_classes::Classes;
use dob_files::{Answer, CertificateFault, ProgramFault, position_named};
use dob_moves::Move;
use dob_pieces::{Memory, Position};
use dob_probe::check_member;
use dob_shelf::Shelf;
use dob_text::write_move;
use std::alloc::Global;

/// The line that gives what the certificate of the file says of the position that the text names: a winning move, or that the position is lost. Its
/// lost list is checked first.
pub fn answer_reply<S: Shelf>(alloc: Global, shelf: &mut S, file: &str, text: &str) -> Answer
    ensures { GivesOwed (reply_owed file.now text.now) S.state shelf.old shelf.new result }
{
    let position = position_named(text)?;
    let certificate = open_certificate(alloc, shelf, file)?;
    told_reply(alloc, &certificate, &position)
}

// The line of what the certificate says of the position.
fn told_reply(alloc: Global, certificate: &CertificateFile, position: &Position) -> Answer
    ensures ok { IfOk result (λ line. IsToldReply (content certificate.now) position.now.setup (string_bytes line)) }
    ensures err { IfErr result (IsReplyFault (content certificate.now) position.now.setup) }
{
    match proved_reply(alloc, certificate, position)? {
        Some(Reply::Win { played, plies }) => Ok(win_line(alloc, played, plies as u64 + 1)?),
        Some(Reply::Loss { plies }) => Ok(loss_line(alloc, plies)?),
        None => Err(ProgramFault::Certificate(CertificateFault::Unlisted)),
    }
}

// What the certificate says of the position, once its lost list is checked.
fn proved_reply(
    alloc: Global,
    certificate: &CertificateFile,
    position: &Position,
) -> Result<Option<Reply>, ProgramFault>
    ensures ok { IfOk result (IsReplyOf (content certificate.now) position.now.setup) }
    ensures err { IfErr result (IsReplyFault (content certificate.now) position.now.setup) }
{
    check_member(certificate.family, position)?;
    let classes = Classes::open(alloc, certificate.family)?;
    let lost = &certificate.certificate.lost;
    check_list(&classes, ListKind::Lost, lost)?;
    Ok(reply_to(&classes, lost, position))
}

// The line of a position that is lost within `plies` plies.
fn loss_line(alloc: Global, plies: u16) -> Result<String, Memory>
    ensures { IfOk result (λ line. string_bytes line ≡ loss_line plies) }
{
    Ok(format!(in alloc; "loss within {plies}\n")?)
}

// The line of a move that wins within `plies` plies.
fn win_line(alloc: Global, played: Move, plies: u64) -> Result<String, Memory>
    ensures { IfOk result (λ line. string_bytes line ≡ win_line played plies) }
{
    let text = write_move(alloc, played, false)?;
    within_line(alloc, text.as_str(), plies)
}

// The text, and within how many plies that wins.
fn within_line(alloc: Global, text: &str, plies: u64) -> Result<String, Memory>
    ensures { IfOk result (λ line. string_bytes line ≡ text.now ++ (codes " win within " ++ (decimal plies ++ line_feed ∷ []))) }
{
    Ok(format!(in alloc; "{text} win within {plies}\n")?)
}
