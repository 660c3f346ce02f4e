// How far the lists of a certificate are searched: until they have more entries than they may, and no further. No clause says so, since a longer search
// gives the same answer.
use crate::sets::family;
use dob_certify::{MakingFault, certify};
use dob_check::Watch;
use dob_pieces::Profile;
use dob_text::read_position;
use dob_value::sweep_table;
use std::cell::Cell;

// How often it was called: once for each two plies that a search goes on.
#[derive(Drop)]
struct Rounds {
    count: Cell<u64>,
}

impl Watch for Rounds {
    ghost told = { λ _ _. Unit {0} };

    fn passed(&self, _parts: u64) {
        self.count.set(self.count.get().saturating_add(1));
    }
}

// Lost in 4: plain Python's lists have two lost classes, the last of them lost in 2, and one other class (`Maker` of tests/certificates_make.py).
const LOST: &str = ".../.l./.../.L. - -";

// How many entries there may be, whether the claim is exact, and how many rounds are searched.
const ROUNDS: [(u64, bool, u64); 3] = [(0, false, 0), (0, true, 0), (2, true, 2)];

// The other list is full at its first entry where the lost classes take all room.
#[test]
fn lists_end_where_they_are_full(rt: HostRuntime) {
    let alloc = rt.alloc();
    let table = sweep_table(alloc, family(&rt, "000", Profile::A)).expect(&rt, "a table");
    let position = read_position(Profile::A, LOST).expect(&rt, "a position");
    for (most, is_exact, wanted) in ROUNDS {
        let rounds = Rounds {
            count: Cell::new(0),
        };
        let made = certify(&rt, alloc, &table, &position, is_exact, most, &rounds);
        assert!(rt; matches!(made, Err(MakingFault::TooMany(_))) && rounds.count.get() == wanted);
    }
}
