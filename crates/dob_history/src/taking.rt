// Items taken in order: what they make of the cells of a node, and of its history.
ghost use Rattle.std.specs.Prelude.{◌≡◌, ◌<◌, ◌%◌, length, Err, IfErr, OnOk};
ghost use Rattle.dob_pieces.specs.declared.profile.Family.{Family as Set};
ghost use Rattle.dob_share.specs.Items.{items_in_all, items_of_parts};
ghost use Rattle.dob_share.specs.declared.cause.Cause.TheVariants as cause;
ghost use Rattle.dob_history.specs.TakenItems.{AreKept, StayKept, AreTaken, StopsAt, AreTakenBefore};
ghost use Rattle.dob_history.specs.SeenItems.{AreSeen};

use crate::history::History;
use dob_share::{Cause, Part, Seen, Share, item_for};

/// How many items' classes are looked at before the first of the items is applied, so that the memory of all is read at once.
const AHEAD: usize = 32;

/// Applies the items of the parts in order, as `History::take_seen` does each, and says how many. The classes that they are for are
/// listed one part after the other.
///
/// # Errors
///
/// After which only those before an item are applied: what `History::take_seen` says of the item; `Memory` only where
/// the history hadn't room for as many settlements.
pub fn take_parts(
    share: &mut Share,
    history: &mut History,
    taken: &mut usize,
    parts: &[Part],
    classes: &[u64],
) -> Result<(), Cause>
    requires kept { (family : Set) × AreKept family share.old.nodes share.old.id share.old history.old }
    requires listed { items_in_all parts.now ≡ length classes.now }
    ensures stopped { IfErr result (λ why. StopsAt (items_of_parts parts.now classes.now) share.old history.old why) }
    ensures before { IfErr result (λ why. AreTakenBefore (items_of_parts parts.now classes.now) taken.new share.old share.new history.old history.new why) }
    ensures taken { OnOk result (AreTaken (items_of_parts parts.now classes.now) share.old share.new history.old history.new) }
    ensures all { OnOk result (taken.new ≡ length classes.now) }
    ensures memory { result ≡ Err cause.Memory → history.old.room < length classes.now }
    ensures kept { StayKept share.old history.old share.new history.new }
{
    *taken = 0;
    let mut looks = [None; AHEAD];
    for part in parts {
        let settlement = part.settlement();
        for _item in 0..part.items() {
            look_ahead(share, classes, *taken, &mut looks);
            let seen = looks[*taken % AHEAD];
            let item = item_for(settlement, classes[*taken]);
            history.take_seen(share, item, seen)?;
            *taken += 1;
        }
    }
    Ok(())
}

// Looks at the class at that place and those behind it in its group, where it is the first of the group: for the numbers of all their
// cells first, and then at the cells, each time at memory that no other look waits for.
fn look_ahead(share: &Share, classes: &[u64], next: usize, looks: &mut [Option<Seen>; AHEAD])
    requires next { next < length classes.now }
    requires seen { 0 < next % 32 → AreSeen next share.now classes.now looks.old }
    ensures { AreSeen next share.now classes.now looks.new }
{
    if next % AHEAD > 0 {
        return;
    }
    let end = (next + AHEAD).min(classes.len());
    let mut numbers = [None; AHEAD];
    for place in next..end {
        numbers[place % AHEAD] = share.cell_number(classes[place]);
    }
    for place in next..end {
        looks[place % AHEAD] = share.see_cell(numbers[place % AHEAD]);
    }
}
