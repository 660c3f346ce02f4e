// The move that the bytes of a certificate's file give for a position.
ghost use Rattle.std.specs.Prelude.{◌≡◌, ◌≢◌, Some, MatchResult};
ghost use Rattle.dob_rank.specs.Families.{IsPositionOf};
ghost use Rattle.dob_certfile.specs.Format.{content};
ghost use Rattle.dob_certify.specs.declared.replies.Reply.{Reply as AnyReply};
ghost use Rattle.dobutsu_c.specs.Moves.{shown_move};
ghost use Rattle.dobutsu_c.specs.Replies.{HasNoReply, HasReplyFault, IsRepliedBy, IsReplyBy, IsReplyRefused, reply_number, shown_reply};

use crate::certificates::defect_number;
use crate::fault::{Stranger, check_member};
use crate::moves::{DobutsuMove, shown_move};
use crate::numbers::{MEMORY, UNSUPPORTED};
use crate::value::DobutsuValue;
use dob_certfile::{CertificateFile, Defect, ReadFault, read_certificate};
use dob_certificate::{ListKind, Refusal, check_list};
use dob_certify::{Reply, reply_to};
use dob_classes::Classes;
use dob_foreign::text_number;
use dob_pieces::{Position, Profile};
use dob_text::{TextFault, read_position_bytes};
use std::alloc::Global;

/// Why a certificate gives no reply.
#[derive(Clone, Copy)]
pub(crate) enum ReplyFault {
    /// The text is no position's.
    Text(TextFault),
    /// The bytes are no certificate's file.
    Bytes(Defect),
    /// The position isn't of the certificate's family.
    Member(Stranger),
    /// E30: an entry of the lost list isn't supported.
    Unsupported,
    /// E41: the certificate says nothing of the position.
    Unlisted,
    /// E23: memory ran out.
    Memory,
}

impl ReplyFault {
    /// The fault's number, which the program prints behind an `E`.
    pub(crate) fn number(self) -> u32
        ensures number { result ≡ reply_number self }
        ensures positive { result ≢ 0 }
    {
        match self {
            ReplyFault::Text(fault) => text_number(fault),
            ReplyFault::Bytes(defect) => defect_number(defect),
            ReplyFault::Member(stranger) => stranger.number(),
            ReplyFault::Unsupported => UNSUPPORTED,
            ReplyFault::Unlisted => 41,
            ReplyFault::Memory => MEMORY,
        }
    }
}

/// The move that the bytes of a certificate's file give the position whose text that is: the catch of the lion, or the first move after which the other side is
/// lost within the fewest plies that the lost list says. Its value is a win within N plies. Of a position that the list says to be lost there is no
/// move: its numbers are 0 and the value is a loss within N plies. It answers 0 and writes that, which is right whoever made the certificate, since each
/// entry of the lost list is looked at before. Or it writes nothing: the first fault of the text, 1 to 6, or of the bytes as `dobutsu_verify` has them, or 26
/// or else 7 of the position in the certificate, or 30 if an entry isn't supported, or 41 if the certificate says nothing of the position, or 23 where
/// memory runs out. It takes memory and time as `dobutsu_verify`.
#[unsafe(no_mangle)]
pub extern "C" fn dobutsu_reply(
    alloc: Global,
    file: &[u8],
    text: &[u8],
    reply: &mut DobutsuMove,
) -> u32
    ensures told { result ≡ 0 → (found : AnyReply) × IsRepliedBy file.now text.now found × (reply.new ≡ shown_reply found) }
    ensures refused { result ≢ 0 → IsReplyRefused file.now text.now result }
    ensures unchanged { result ≢ 0 → reply.new ≡ reply.old }
{
    match replied_by(alloc, file, text) {
        Ok(found) => {
            *reply = shown_reply(found);
            0
        }
        Err(fault) => fault.number(),
    }
}

// What the file says of the position.
fn replied_by(alloc: Global, file: &[u8], text: &[u8]) -> Result<Reply, ReplyFault>
    ensures { MatchResult result (IsRepliedBy file.now text.now) (HasReplyFault file.now text.now) }
{
    let position = match read_position_bytes(Profile::A, text) {
        Ok(position) => position,
        Err(fault) => return Err(ReplyFault::Text(fault)),
    };
    let certificate = match read_certificate(alloc, file) {
        Ok(certificate) => certificate,
        Err(ReadFault::Memory) => return Err(ReplyFault::Memory),
        Err(ReadFault::Defect(defect)) => return Err(ReplyFault::Bytes(defect)),
    };
    match check_member(certificate.family, &position) {
        Ok(()) => reply_of(alloc, &certificate, &position),
        Err(stranger) => Err(ReplyFault::Member(stranger)),
    }
}

// What the certificate says of a position of its family, once its lost list is looked at.
fn reply_of(
    alloc: Global,
    certificate: &CertificateFile,
    position: &Position,
) -> Result<Reply, ReplyFault>
    requires { IsPositionOf certificate.now.family position.now.setup }
    ensures { MatchResult result
        (λ found. IsReplyBy (content certificate.now) position.now.setup (Some found))
        (HasNoReply (content certificate.now) position.now.setup) }
{
    let Ok(classes) = Classes::open(alloc, certificate.family) else {
        return Err(ReplyFault::Memory);
    };
    let lost = &certificate.certificate.lost;
    match check_list(&classes, ListKind::Lost, lost) {
        Ok(()) => match reply_to(&classes, lost, position) {
            Some(found) => Ok(found),
            None => Err(ReplyFault::Unlisted),
        },
        Err(Refusal::Unsupported(class)) => {
            let _ = class;
            Err(ReplyFault::Unsupported)
        }
        Err(Refusal::Claim) => Err(ReplyFault::Unsupported),
    }
}

fn shown_reply(found: Reply) -> DobutsuMove
    ensures { result ≡ shown_reply found }
{
    match found {
        Reply::Win { played, plies } => {
            let plies = plies as u32 + 1;
            shown_move(played, DobutsuValue { kind: 1, plies })
        }
        Reply::Loss { plies } => DobutsuMove {
            kind: 0,
            from: 0,
            to: 0,
            catches: 0,
            grows: 0,
            value: DobutsuValue {
                kind: 2,
                plies: plies as u32,
            },
        },
    }
}
