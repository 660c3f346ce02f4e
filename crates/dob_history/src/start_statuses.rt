// The statuses of a node's own classes at the start, from which the settlements of the start follow: these are found by a walk over the
// statuses, which the node's share holds too, and aren't stored.
ghost use Rattle.std.specs.Prelude.{◌≡◌, ℕ, ◌+◌, ◌<◌, ◌≤◌, ◌^◌, Some};
ghost use Rattle.dob_share.specs.Openings.{settled_among};
ghost use Rattle.dob_history.specs.OpeningLists.{opening_value};
ghost use Rattle.dob_history.specs.Stores.{start_status, starts_count};

use dob_distance::Value;
use dob_moves::Status;
use dob_share::Statuses;
use std::marker::Model;

/// The statuses; `settled` of them aren't open. `passed` of these stand before `place`, from where a walk to a later one begins.
#[derive(Drop)]
pub struct StartStatuses {
    statuses: Statuses,
    settled: u64,
    passed: u64,
    place: u64,
}

/// A class that is settled at the start: its place, and its value then.
#[derive(Clone, Copy)]
pub(crate) struct StartValue {
    pub(crate) place: u64,
    pub(crate) now: Value,
}

impl Model for StartStatuses {
    ghost use Rattle.std.specs.Prelude.{◌≡◌, ◌^◌, ◌<◌, ◌≤◌};
    ghost use Rattle.dob_share.specs.Openings.{settled_among};
    ghost use Rattle.dob_share.specs.Statuses.{StatusesView};
    ghost use Rattle.dob_history.specs.Stores.{start_status};

    ghost Value = { StatusesView };

    ghost view = { λ s. s.statuses };

    ghost invariant = { λ s. (s.settled ≡ settled_among (start_status s.statuses) s.statuses.places) × (s.passed ≡ settled_among (start_status s.statuses) s.place)
        × (s.place ≤ s.statuses.places) × (s.statuses.places < 2 ^ 32) };
}

impl StartStatuses {
    /// Those that the classes have at the start.
    pub fn new(statuses: Statuses) -> StartStatuses
        ensures { result ≡ statuses }
    {
        let settled = settled_in(&statuses);
        StartStatuses {
            statuses,
            settled,
            passed: 0,
            place: 0,
        }
    }

    /// How many classes are settled at the start.
    pub(crate) fn settled(&self) -> u64
        ensures count { result ≡ starts_count self.now }
        ensures bound { result ≤ 2 ^ 32 }
    {
        self.settled
    }

    /// The settled class before which that many stand.
    pub(crate) fn find(&self, number: u64) -> StartValue
        requires { number < starts_count self.now }
        ensures place { result.place < self.now.places }
        ensures number { settled_among (start_status self.now) result.place ≡ number }
        ensures value { opening_value (start_status self.now result.place) ≡ Some result.now }
        ensures bound { result.place < 2 ^ 32 }
    {
        if self.passed <= number {
            walk(&self.statuses, self.passed, self.place, number)
        } else {
            walk(&self.statuses, 0, 0, number)
        }
    }

    /// The settled class before which that many stand, from which it and those behind it are found from then on.
    pub(crate) fn reach(&mut self, number: u64) -> StartValue
        requires { number < starts_count self.old }
        ensures same { self.new ≡ self.old }
        ensures place { result.place < self.old.places }
        ensures number { settled_among (start_status self.old) result.place ≡ number }
        ensures value { opening_value (start_status self.old result.place) ≡ Some result.now }
        ensures bound { result.place < 2 ^ 32 }
    {
        let found = self.find(number);
        self.passed = number;
        self.place = found.place;
        found
    }
}

// How many of the classes are settled.
fn settled_in(statuses: &Statuses) -> u64
    ensures { result ≡ starts_count statuses.now }
{
    let mut settled = 0;
    for place in 0..statuses.places() {
        if value_at(statuses, place).is_some() {
            settled += 1;
        }
    }
    settled
}

// The settled class before which `number` stand, at that place or behind it, before which `passed` stand.
fn walk(statuses: &Statuses, passed: u64, place: u64, number: u64) -> StartValue
    requires passed { passed ≡ settled_among (start_status statuses.now) place }
    requires before { passed ≤ number }
    requires some { number < starts_count statuses.now }
    requires place { place ≤ statuses.now.places }
    ensures place { result.place < statuses.now.places }
    ensures number { settled_among (start_status statuses.now) result.place ≡ number }
    ensures value { opening_value (start_status statuses.now result.place) ≡ Some result.now }
{
    // There are fewer than a place can tell apart.
    let _places = statuses.places();
    let mut stood = passed;
    let mut here = place;
    loop {
        if let Some(now) = value_at(statuses, here) {
            if stood == number {
                return StartValue { place: here, now };
            }
            stood += 1;
        }
        here += 1;
    }
}

// The value at which the class at a place is settled when its node opens, by its status.
fn value_at(statuses: &Statuses, place: u64) -> Option<Value>
    requires { place < statuses.now.places }
    ensures { result ≡ opening_value (start_status statuses.now place) }
{
    opening_value(statuses.status(place))
}

// The value at which a class is settled when its node opens, by its status.
fn opening_value(status: Status) -> Option<Value>
    ensures { result ≡ opening_value status }
{
    match status {
        Status::Caught => Some(Value::Win(1)),
        Status::Tried | Status::Stuck => Some(Value::Loss(0)),
        Status::Open => None,
    }
}
