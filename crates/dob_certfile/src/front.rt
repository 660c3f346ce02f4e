// What stands before the entries of a certificate's file.
ghost use Rattle.std.specs.Prelude.{◌≡◌, ◌<◌, ◌≤◌, ◌^◌, ◌++◌, ◌∷◌, [], length, take, drop, get_or, bytes_eq, IfOk, OnOk};
ghost use Rattle.byteorder.specs.Endian.{little_number};
ghost use Rattle.dob_rank.specs.Families.{classes_of};
ghost use Rattle.dob_certfile.specs.Format.{certificate_title};
ghost use Rattle.dob_certfile.specs.Fronts.{front_content};
ghost use Rattle.dob_certfile.specs.Reading.{Gives, claim_at, family_at, front_at, profile_at, set_at};

use crate::defect::Defect;
use byteorder::{ByteOrder, LittleEndian};
use dob_certificate::Claim;
use dob_classes::count_classes;
use dob_dbfile::{are_same, set_named};
use dob_distance::Value;
use dob_pieces::{Family, PieceSet, Profile};

/// How many bytes stand before the entries.
pub const FRONT_LEN: usize = 28;

/// What the title says after it.
pub(crate) const VERSION: u8 = 1;

/// What stands before the entries: the claim and its class, and how many entries each list has.
#[derive(Clone, Copy)]
pub struct Front {
    pub family: Family,
    /// The class of the position of the claim.
    pub root: u32,
    pub claim: Claim,
    pub lost_count: u32,
    pub held_count: u32,
}

/// Whether those are what each certificate's file begins with.
pub fn is_title(bytes: &[u8]) -> bool
    ensures { result ≡ bytes_eq bytes.now certificate_title }
{
    are_same(bytes, b"DOBUCERT")
}

// The set of those four bytes.
fn set_of(bytes: &[u8]) -> Result<PieceSet, Defect>
    requires { length bytes.now ≡ 4 }
    ensures { result ≡ set_at bytes.now }
{
    match set_named(bytes) {
        Some(set) => Ok(set),
        None => Err(Defect::SetByte),
    }
}

fn profile_at(byte: u8) -> Result<Profile, Defect>
    ensures { result ≡ profile_at byte }
{
    match Profile::of_number(byte) {
        Some(profile) => Ok(profile),
        None => Err(Defect::ProfileByte),
    }
}

// The family that the first bytes name, which are tested in their order.
#[tactic(auto, unfolding(crate::specs::Reading::family_at))]
fn family_of(bytes: &[u8]) -> Result<Family, Defect>
    ensures family { result ≡ family_at bytes.now }
    ensures long { OnOk result (28 ≤ length bytes.now) }
{
    if bytes.len() < FRONT_LEN {
        return Err(Defect::Truncated);
    }
    if !is_title(&bytes[..8]) {
        return Err(Defect::Magic);
    }
    if bytes[8] != VERSION {
        return Err(Defect::Version);
    }
    let set = set_of(&bytes[9..13])?;
    let profile = profile_at(bytes[13])?;
    Ok(Family { set, profile })
}

// The claim of that kind with `plies` plies.
fn claim_of(kind: u8, plies: u8) -> Result<Claim, Defect>
    ensures { result ≡ claim_at kind plies }
{
    if plies == 255 {
        return Err(Defect::ClaimByte);
    }
    let plies = plies as u16;
    match kind {
        0 if plies == 0 => Ok(Claim::Exactly(Value::Draw)),
        1 => Ok(Claim::Exactly(Value::Win(plies))),
        2 => Ok(Claim::Exactly(Value::Loss(plies))),
        3 => Ok(Claim::WonWithin(plies)),
        4 => Ok(Claim::LostWithin(plies)),
        _ => Err(Defect::ClaimByte),
    }
}

// The number in four bytes.
fn word_of(bytes: &[u8]) -> u32
    requires { length bytes.now ≡ 4 }
    ensures { result ≡ little_number 4 bytes.now }
{
    LittleEndian::read_u32(bytes)
}

/// What the first bytes say, and how many classes the family has. What comes behind them isn't looked at.
///
/// # Errors
///
/// The first of these that holds: `Truncated`, fewer than 28 bytes; `Magic`, `Version`, `SetByte`, `ProfileByte`, `RootClass`,
/// `ClaimByte`, `EntryCount`.
#[tactic(auto, unfolding(crate::specs::Reading::front_at))]
pub fn front_of(bytes: &[u8]) -> Result<(Front, u64), Defect>
    ensures front { Gives (λ x. front_content x.0) result (front_at bytes.now) }
    ensures classes { IfOk result (λ x. x.1 ≡ classes_of x.0.family) }
    ensures few { IfOk result (λ x. x.1 < 2 ^ 31) }
    ensures root { IfOk result (λ x. x.0.root < classes_of x.0.family) }
    ensures long { OnOk result (28 ≤ length bytes.now) }
{
    let family = family_of(bytes)?;
    let classes = count_classes(family);
    let root = word_of(&bytes[14..18]);
    if root as u64 >= classes {
        return Err(Defect::RootClass);
    }
    let claim = claim_of(bytes[18], bytes[19])?;
    let lost_count = word_of(&bytes[20..24]);
    let held_count = word_of(&bytes[24..28]);
    if lost_count as u64 > classes {
        return Err(Defect::EntryCount);
    }
    if held_count as u64 > classes {
        return Err(Defect::EntryCount);
    }
    let front = Front {
        family,
        root,
        claim,
        lost_count,
        held_count,
    };
    Ok((front, classes))
}
