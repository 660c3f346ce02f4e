// A table of more classes than one segment of the greatest length has, of which what is said at 2^20 and past it rests on no clause where
// memory is refused.
ghost use Rattle.std.specs.Prelude.{◌<◌};
ghost use Rattle.dob_distance.specs.Codes.{IsEntry};

use crate::sets::{are_one_table, family};
use dob_classes::Classes;
use dob_dbfile::{MemSink, MemSource, read_table, write_table};
use dob_pieces::Profile;
use dob_value::{Table, Value};

// The classes of two elephants and two giraffes, as testdata/counts.txt has them: with no chick both profiles are one.
const CLASSES: u64 = 1_707_030;

// A value that a table may have, made up of the class's number.
fn made_up(class: u64) -> Value
    ensures { IsEntry result }
{
    let half = (class % 30_000) as u16;
    match class % 3 {
        0 => Value::Draw,
        1 => Value::Win(2 * half + 1),
        _ => Value::Loss(2 * half),
    }
}

// Such a table is written, and read back as it was.
#[test]
fn a_table_past_a_segment(rt: HostRuntime) {
    let four = family(&rt, "022", Profile::A);
    let classes = Classes::open(rt.alloc(), four).expect(&rt, "classes");
    let value_of = |class: u64| -> Value
        ensures { IsEntry result }
    { made_up(class) };
    let table = Table::from_fn(rt.alloc(), classes, value_of).expect(&rt, "a table");
    assert!(rt; table.class_count() == CLASSES);
    let mut sink = MemSink::new(rt.alloc());
    assert!(rt; write_table(rt.alloc(), &table, &mut sink).is_ok());
    let mut source = MemSource::new(sink.into_bytes());
    let again = read_table(rt.alloc(), &mut source).expect(&rt, "the table");
    are_one_table(&rt, &again, &table);
}
