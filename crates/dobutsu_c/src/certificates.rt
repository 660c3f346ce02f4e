// Whether the bytes of a certificate's file prove what it claims.
ghost use Rattle.std.specs.Prelude.{◌≡◌, ◌≢◌, ◌⊎◌};
ghost use Rattle.dob_certfile.specs.declared.defect.Defect.{Defect as AnyDefect};
ghost use Rattle.dob_certfile.specs.Format.{content};
ghost use Rattle.dob_certfile.specs.Reading.{HasCertFault};
ghost use Rattle.dobutsu_c.specs.Certificates.{IsProvedBy, IsToldOf, IsVerifyFault, defect_number, told_claim};

use crate::numbers::{CLAIM, MEMORY, UNSUPPORTED};
use dob_certfile::{CertificateFile, Defect, ReadFault, read_certificate, verify_file};
use dob_certificate::{Claim, Refusal};
use dob_classes::Classes;
use dob_foreign::profile_number;
use dob_value::Value;
use std::alloc::Global;

/// What a certificate claims of a position: of the first one of class `root` of the family of these chicks, elephants and giraffes by the profile of
/// that number. `kind` is 0 for a draw, 1 for a win and 2 for a loss of the side to move, in `plies` plies, or within them if `within` is 1 and not 0.
#[repr(C)]
#[derive(Clone, Copy)]
pub struct DobutsuClaim {
    pub chicks: u32,
    pub elephants: u32,
    pub giraffes: u32,
    pub profile: u32,
    pub root: u32,
    pub kind: u32,
    pub plies: u32,
    pub within: u32,
}

/// Whether the bytes are a certificate's file whose lists prove what it claims. It answers 0 if they are, and writes what is claimed, which then holds;
/// 30 if an entry isn't supported, and writes the class of the first one; 31 if all are and the lists don't show the claim; else the number of the
/// first fault of the bytes, 15 to 17, 19, 20, 27, 32 to 38 or 42, or 23 if memory runs out, and writes nothing. It takes 8 bytes of memory an entry and some
/// millions for two pieces of each kind, gives all back, and looks at each entry in one thread.
#[unsafe(no_mangle)]
pub extern "C" fn dobutsu_verify(
    alloc: Global,
    file: &[u8],
    claim: &mut DobutsuClaim,
    class: &mut u64,
) -> u32
    ensures right { result ≡ 0 → IsProvedBy file.now claim.new }
    ensures fault { (defect : AnyDefect) → HasCertFault file.now defect → (result ≡ defect_number defect) ⊎ (result ≡ 23) }
    ensures refused { result ≢ 0 → IsVerifyFault file.now result class.new }
    ensures unchanged { result ≢ 0 → claim.new ≡ claim.old }
    ensures class { result ≢ 30 → class.new ≡ class.old }
{
    let certificate = match read_certificate(alloc, file) {
        Ok(certificate) => certificate,
        Err(ReadFault::Memory) => return MEMORY,
        Err(ReadFault::Defect(defect)) => return defect_number(defect),
    };
    let Ok(classes) = Classes::open(alloc, certificate.family) else {
        return MEMORY;
    };
    match verify_file(&classes, &certificate) {
        Ok(()) => {
            *claim = told(&certificate);
            0
        }
        Err(Refusal::Unsupported(broken)) => {
            *class = broken as u64;
            UNSUPPORTED
        }
        Err(Refusal::Claim) => CLAIM,
    }
}

pub(crate) fn defect_number(defect: Defect) -> u32
    ensures number { result ≡ defect_number defect }
    ensures positive { result ≢ 0 }
    ensures other { result ≢ 30 }
{
    match defect {
        Defect::Truncated => 15,
        Defect::Magic => 16,
        Defect::Version => 32,
        Defect::SetByte => 17,
        Defect::ProfileByte => 27,
        Defect::RootClass => 33,
        Defect::ClaimByte => 34,
        Defect::EntryCount => 35,
        Defect::EntryNumber => 36,
        Defect::EntryOrder => 37,
        Defect::EntryClass => 38,
        Defect::EntryPlies => 42,
        Defect::Trailing => 19,
        Defect::Digest => 20,
    }
}

fn told(file: &CertificateFile) -> DobutsuClaim
    ensures { IsToldOf (content file.now) result }
{
    let set = file.family.set;
    let (kind, plies, within) = claim_numbers(file.claim);
    DobutsuClaim {
        chicks: set.chicks as u32,
        elephants: set.elephants as u32,
        giraffes: set.giraffes as u32,
        profile: profile_number(file.family.profile),
        root: file.root,
        kind,
        plies,
        within,
    }
}

// The kind of a claim, its plies, and 1 if it is within them.
fn claim_numbers(claim: Claim) -> (u32, u32, u32)
    ensures kind { result.0 ≡ (told_claim claim).kind }
    ensures plies { result.1 ≡ (told_claim claim).plies }
    ensures within { result.2 ≡ (told_claim claim).within }
{
    match claim {
        Claim::Exactly(Value::Draw) => (0, 0, 0),
        Claim::Exactly(Value::Win(plies)) => (1, plies as u32, 0),
        Claim::Exactly(Value::Loss(plies)) => (2, plies as u32, 0),
        Claim::WonWithin(plies) => (1, plies as u32, 1),
        Claim::LostWithin(plies) => (2, plies as u32, 1),
    }
}
