// Where the values of a family's positions come from: a table, the records of a file, or bytes in memory.
ghost use Rattle.std.specs.Prelude.{◌≡◌, ◌||◌, Bool, false, IfErr, IfOk};
ghost use Rattle.dob_pieces.specs.declared.profile.Family.{Family};
ghost use Rattle.dob_pieces.specs.declared.setup.Setup.{Setup};
ghost use Rattle.dob_moves.specs.Shown.{setup_on};
ghost use Rattle.dob_rank.specs.Families.{IsPositionOf};
ghost use Rattle.dob_distance.specs.declared.value.Value.{Value as Valued};
ghost use Rattle.dob_distance.specs.Codes.{IsEntry};
ghost use Rattle.dob_value.specs.Follows.{IsTable};
ghost use Rattle.dob_probe.specs.Lines.{GivenBy};
ghost use Rattle.dob_probe.specs.Said.{fails};

use crate::fault::Fault;
use dob_moves::PositionBoard;
use dob_value::{Table, Value};

/// A source of the values of a family's positions, which reads what it is given: nothing, a file or bytes.
pub trait ValueSource<S> {
    /// Why it says no value.
    type Fault: Copy;

    // What a source may hold.
    ghost Held: { Type 0 };

    // By `holds source held` the source holds that.
    ghost holds: { S → Self.Held → Type 0 };

    // By `stands by` it can be asked.
    ghost stands: { Self → Type 0 };

    // The family of the positions.
    ghost family_of: { Self → Family };

    // By `says by held position value` it gives the position that value, where the source holds that.
    ghost says: { Self → Self.Held → Setup → Valued → Type 0 };

    // By `lacks by held position fault` it gives the position none, for that reason.
    ghost lacks: { Self → Self.Held → Setup → Self.Fault → Type 0 };

    // Whether a device of the source has failed.
    ghost has_failed: { S → Bool };

    // Whether it is the fault of a device that failed.
    ghost is_failure: { Self.Fault → Bool };

    /// The value of the position.
    ///
    /// # Errors
    ///
    /// Why it says none.
    fn value_at(&self, source: &mut S, position: &PositionBoard) -> Result<Value, Self::Fault>
        requires stands { Self.stands self.now }
        requires member { IsPositionOf (Self.family_of self.now) (setup_on position.now.board) }
        ensures said { (held : Self.Held) → Self.holds source.old held → IfOk result (Self.says self.now held (setup_on position.now.board)) }
        ensures entry { IfOk result IsEntry }
        ensures fault { (held : Self.Held) → Self.holds source.old held → IfErr result (Self.lacks self.now held (setup_on position.now.board)) }
        ensures held { (held : Self.Held) → Self.holds source.old held → Self.holds source.new held }
        ensures failed { Self.has_failed source.new ≡ (Self.has_failed source.old || fails Self.is_failure result) };
}

impl ValueSource<()> for Table {
    type Fault = Fault;

    ghost Held = { Unit {0} };

    ghost holds = { λ _ _. Unit {0} };

    ghost stands = { λ table. IsTable table.family table.values };

    ghost family_of = { λ table. table.family };

    ghost says = { λ table _ position value. GivenBy table position value };

    ghost lacks = { λ _ _ _ _. ⊥ };

    ghost has_failed = { λ _. false };

    ghost is_failure = { λ _. false };

    fn value_at(&self, _source: &mut (), position: &PositionBoard) -> Result<Value, Fault> {
        Ok(self.value_on(position))
    }
}
