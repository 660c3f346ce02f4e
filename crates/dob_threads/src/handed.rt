// What a thread is handed: a runner, over a ring for one, which the thread was started with.
ghost use Rattle.std.specs.Prelude.{◌≡◌, ◌∷◌, ◌++◌, []};
ghost use Rattle.rtrb.specs.Ring.{received, SameConsumer};
ghost use Rattle.dob_runner.specs.TurnLoop.{Suits};

use dob_classes::Classes;
use dob_runner::Runner;
use rtrb::Consumer;
use std::sync::Wait;
use std::thread;

/// A runner with the classes of its family.
#[derive(Drop)]
pub(crate) struct Handed<'s> {
    pub runner: Runner,
    pub classes: &'s Classes,
    ghost suits: { Suits classes.now.family runner },
}

/// Waits for the next one that comes over the ring.
pub(crate) fn next_handed<'s, R: Wait>(rt: &R, taking: &mut Consumer<Handed<'s>>) -> Handed<'s>
    ensures same { SameConsumer taking.old taking.new }
    ensures came { received taking.new ≡ received taking.old ++ result ∷ [] }
{
    for _ in rt.forever() {
        if let Ok(handed) = taking.pop() {
            return handed;
        }
        thread::yield_now();
    }
    unreachable!()
}
