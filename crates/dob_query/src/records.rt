// The records of a file, which say values by the classes of its family.
ghost use Rattle.std.specs.Prelude.{◌≡◌, ◌||◌, IfErr, IfOk};
ghost use Rattle.dob_moves.specs.Shown.{setup_on};
ghost use Rattle.dob_rank.specs.Families.{IsPositionOf};
ghost use Rattle.dob_distance.specs.Codes.{IsEntry};
ghost use Rattle.dob_device.specs.Devices.{Stream};
ghost use Rattle.dob_dbfile.specs.Faults.{fails, is_io};
ghost use Rattle.dob_query.specs.Records.{IsRecorded, LacksRecord};

use dob_classes::Classes;
use dob_dbfile::{Fault, Format, PlacedSource, read_value};
use dob_moves::PositionBoard;
use dob_probe::ValueSource;
use dob_value::{Value, class_of};

// The value that the record of the position's class says.
//
// Errors: `Truncated` and `Io`, as of `read_value`.
fn value_at<R: PlacedSource>(
    source: &mut R,
    format: Format,
    classes: &Classes,
    position: &PositionBoard,
) -> Result<Value, Fault>
    requires { IsPositionOf classes.now.family (setup_on position.now.board) }
    ensures said { (stream : Stream) → R.shows source.old stream → IfOk result (IsRecorded stream format classes.now.family (setup_on position.now.board)) }
    ensures entry { IfOk result IsEntry }
    ensures fault { (stream : Stream) → R.shows source.old stream → IfErr result (LacksRecord stream format classes.now.family (setup_on position.now.board)) }
    ensures shown { (stream : Stream) → R.shows source.old stream → R.shows source.new stream }
    ensures failed { R.has_failed source.new ≡ (R.has_failed source.old || fails is_io result) }
{
    read_value(source, format, class_of(classes, position))
}

/// The records of a file in that format, by the classes of its family.
#[derive(Clone, Copy)]
pub struct Records<'a> {
    pub format: Format,
    pub classes: &'a Classes,
}

impl<R: PlacedSource> ValueSource<R> for Records<'_> {
    type Fault = Fault;

    ghost Held = { Stream };

    ghost holds = { λ source stream. R.shows source stream };

    ghost stands = { λ _. Unit {0} };

    ghost family_of = { λ by. by.classes.now.family };

    ghost says = { λ by stream position value. IsRecorded stream by.format by.classes.now.family position value };

    ghost lacks = { λ by stream position fault. LacksRecord stream by.format by.classes.now.family position fault };

    ghost has_failed = { λ source. R.has_failed source };

    ghost is_failure = { is_io };

    fn value_at(&self, source: &mut R, position: &PositionBoard) -> Result<Value, Fault> {
        value_at(source, self.format, self.classes, position)
    }
}
