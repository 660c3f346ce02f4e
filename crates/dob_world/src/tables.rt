// The table of the values that a world holds.
ghost use Rattle.std.specs.Prelude.{◌≡◌, ◌<◌, true, IfOk};
ghost use Rattle.dob_rank.specs.Families.{classes_of};
ghost use Rattle.dob_distance.specs.Codes.{IsEntry};
ghost use Rattle.dob_value.specs.Follows.{IsValueTable};
ghost use Rattle.dob_history.specs.Histories.{AreValuesBelow};
ghost use Rattle.dob_world.specs.Worlds.{value_in, IsAtRest};
ghost use Rattle.dob_world.specs.Shown.{setting_of, state_of};
ghost use Rattle.dob_world.specs.Standing.{IsStanding};

use crate::world::World;
use dob_classes::Classes;
use dob_pieces::Memory;
use dob_share::owner;
use dob_value::{Table, Value};

impl World {
    /// The present values of all classes. Where nothing is left to do, and so where the end is announced, it is the value
    /// table.
    pub fn gather(&self) -> Result<Table, Memory>
        requires standing { IsStanding self.now }
        ensures family { IfOk result (λ table. table.family ≡ self.now.classes.family) }
        ensures values { IfOk result (λ table. AreValuesBelow (value_in self.now.node_count (state_of self.now).world.nodes) (classes_of self.now.classes.family)
            table.values) }
        ensures right { IsAtRest (setting_of self.now) (state_of self.now).world → IfOk result (λ table. IsValueTable self.now.classes.family table.values) }
        ensures announced { (state_of self.now).ring.announced ≡ true → IfOk result (λ table. IsValueTable self.now.classes.family table.values) }
    {
        let classes = Classes::open(self.alloc, self.classes.family)?;
        let value_at = |class: u64| -> Value
            requires standing { IsStanding self.now }
            requires low { class < classes_of self.now.classes.family }
            ensures value { result ≡ value_in self.entry.now.node_count (state_of self.entry.now).world.nodes class }
            ensures entry { IsEntry result }
        { self.value_of(class) };
        Table::from_fn(self.alloc, classes, value_at)
    }

    // The present value of the class.
    fn value_of(&self, class: u64) -> Value
        requires standing { IsStanding self.now }
        requires low { class < classes_of self.now.classes.family }
        ensures value { result ≡ value_in self.now.node_count (state_of self.now).world.nodes class }
        ensures entry { IsEntry result }
    {
        let node = owner(class, self.node_count.get());
        self.nodes[node].value(class)
    }
}
