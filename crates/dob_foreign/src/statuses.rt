// The numbers of statuses.
ghost use Rattle.std.specs.Prelude.{◌≡◌};
ghost use Rattle.dob_foreign.specs.Statuses.{status_number};

use dob_moves::Status;

/// The number of a status: 0 open, 1 if the enemy lion can be caught, 2 if it has tried, 3 if there is no move.
pub fn status_number(status: Status) -> u32
    ensures { result ≡ status_number status }
{
    match status {
        Status::Open => 0,
        Status::Caught => 1,
        Status::Tried => 2,
        Status::Stuck => 3,
    }
}
