// What is claimed of a position, by numbers.
ghost use Rattle.std.specs.Prelude.{◌<◌, MatchOption};
ghost use Rattle.dobutsu_web.specs.Certified.{IsClaimed};

use dob_certificate::Claim;
use dob_value::Value;

/// The claim of that number with N plies: 0 a draw, 1 a win, 2 a loss, 3 a win and 4 a loss within so many; `None` of another number.
pub(crate) fn claim_of(kind: u32, plies: u16) -> Option<Claim>
    ensures { MatchOption result (4 < kind) (λ claim. IsClaimed claim kind plies) }
{
    match kind {
        0 => Some(Claim::Exactly(Value::Draw)),
        1 => Some(Claim::Exactly(Value::Win(plies))),
        2 => Some(Claim::Exactly(Value::Loss(plies))),
        3 => Some(Claim::WonWithin(plies)),
        4 => Some(Claim::LostWithin(plies)),
        _ => None,
    }
}
