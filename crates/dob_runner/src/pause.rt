// How a runner that has nothing to do pauses: it spins and yields at first, and then sleeps, longer each time.
ghost use Rattle.dob_endpoint.specs.Keeps.{HasEmptySlots};

use crossbeam_utils::Backoff;
use dob_endpoint::Endpoint;
use std::sync::Wait;
use std::sync::atomic::{AtomicU64, Ordering};
use std::time::Duration;

// How many microseconds the first sleep takes.
const SHORTEST: u64 = 50;

// How many the longest takes, so that a batch or the token never waits longer for who sleeps.
const LONGEST: u64 = 1_000;

// The pauses of one runner. They change nothing that contracts speak of.
#[derive(Drop)]
pub(crate) struct Pause {
    backoff: Backoff,
    // How many microseconds the next sleep takes, on which nobody calls to wake the sleeper.
    sleep: AtomicU64,
}

impl Pause {
    pub(crate) fn new() -> Pause {
        Pause {
            backoff: Backoff::new(),
            sleep: AtomicU64::new(SHORTEST),
        }
    }

    // The next pause is as short as the first one.
    pub(crate) fn reset(&self) {
        self.backoff.reset();
        self.sleep.store(SHORTEST, Ordering::SeqCst);
    }

    // Follows a turn of that endpoint's runner that had no work: where that found the token the next pause is as short as the first one,
    // and else this is one, without sleep while a batch lies in a slot.
    pub(crate) fn follow<R: Wait>(&self, rt: &R, found: bool, endpoint: &Endpoint) {
        if found {
            self.reset();
            return;
        }
        if endpoint.has_empty_slots() {
            self.rest(rt, endpoint);
            return;
        }
        self.backoff.snooze();
    }

    // Pauses for a moment, and sleeps where the pauses before it were too short. No batch lies in a slot of the endpoint: else who waits
    // for it would wait for the sleeper.
    fn rest<R: Wait>(&self, rt: &R, _endpoint: &Endpoint)
        requires { HasEmptySlots _endpoint.now }
    {
        if !self.backoff.is_completed() {
            self.backoff.snooze();
            return;
        }
        let micros = self.sleep.load(Ordering::SeqCst).min(LONGEST);
        self.sleep
            .park_timeout(rt, micros as u32, Duration::from_micros(micros));
        self.sleep
            .store((2 * micros).min(LONGEST), Ordering::SeqCst);
    }
}
