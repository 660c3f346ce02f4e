// What every link does.
ghost use Rattle.std.specs.Prelude.{◌≡◌, ◌<◌, ◌≤◌, ℕ, List, length, OnOk, OnErr, IfErr, IfSome, IfNone};
ghost use Rattle.dob_update.specs.Batches.{BatchView};
ghost use Rattle.dob_world.specs.Links.{Taken, GivenBack, Handed, Nothing, LinkSteps};

use dob_update::Batch;

/// The link held its capacity; here is the batch back.
#[derive(Drop)]
pub struct Full {
    pub batch: Batch,
}

/// A way for batches from one owner to another, which hands them out in the order in which it took them in.
pub trait Link {
    /// The batches that wait to be handed out, the first one first.
    ghost waiting: { Self → List BatchView };

    /// For how many batches it has room.
    ghost capacity: { Self → ℕ };

    /// Takes the batch in behind those that wait. `Full` exactly if the link holds its capacity; then the batch comes
    /// back and nothing is changed.
    fn offer(&mut self, batch: Batch) -> Result<(), Full>
        ensures ok { OnOk result (LinkSteps (waiting self.old) (Taken batch) (waiting self.new)) }
        ensures full { IfErr result (λ full. (full.batch ≡ batch) × LinkSteps (waiting self.old) (GivenBack batch) (waiting self.new)) }
        ensures full_only_at_capacity { OnErr result (capacity self.old ≤ length (waiting self.old)) }
        ensures ok_only_below_it { OnOk result (length (waiting self.old) < capacity self.old) }
        ensures capacity { capacity self.new ≡ capacity self.old };

    /// Hands the first batch out, and `None` only if none waits.
    fn next(&mut self) -> Option<Batch>
        ensures some { IfSome result (λ batch. LinkSteps (waiting self.old) (Handed batch) (waiting self.new)) }
        ensures none { IfNone result (LinkSteps (waiting self.old) Nothing (waiting self.new)) }
        ensures capacity { capacity self.new ≡ capacity self.old };
}
