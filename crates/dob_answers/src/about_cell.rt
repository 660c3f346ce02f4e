// Answers about a cell: what the cell of a class about which nothing is known answers to changes of what its moves lead to,
// one after another. A change is written `WAS>NOW`, with values as `w3`, `l0` and `d`. Its answer is `-` if the
// class keeps its value, `WAS>NOW` if it is settled, `E12` or `E13` if the change is refused, and `none` where
// that is no change.
ghost use Rattle.std.specs.Prelude.{◌≤◌};
ghost use Rattle.dob_rank.specs.Families.{classes_of};

use crate::opened::Opened;
use crate::value_names::{Named, read_value};
use dob_classes::Classes;
use dob_history::opening_in;
use dob_lists::{SegmentLength, Segments};
use dob_pieces::{Family, Memory};
use dob_safra::NodeCount;
use dob_share::{Item, Opening, Share, owner};
use dob_value::{Fault, Value};
use std::alloc::{AllocError, Global};

// Each share is that of the class's owner among `OWNERS`.
const OWNERS: usize = 3;

// How many items the segments of the share's lists have: few, so that a list of a small set has many of them.
const SEGMENT: u32 = 4;

// A share numbers its settlements up to there.
const MOST_SETTLED: u64 = 1 << 62;

/// What the class's cell answers to the changes; `none` if the set has no such class. An error is that of opening
/// the set's classes, or no memory was left.
pub(crate) fn about_cell(
    alloc: Global,
    opened: &mut Opened,
    family: Family,
    class: u64,
    changes: &str,
) -> Result<String, Fault> {
    let classes = opened.classes_of(alloc, family)?;
    let count = classes.class_count();
    if class >= count {
        return Ok("none".to_string(alloc)?);
    }
    let openings = openings_of(alloc, classes, class + 1)?;
    let Some(nodes) = NodeCount::new(OWNERS) else {
        unreachable!()
    };
    let mut share = Share::open(alloc, &openings, owner(class, OWNERS), nodes)?;
    Ok(tell_replies(alloc, &mut share, class, changes)?)
}

// The statuses and numbers of moves of that many first classes.
fn openings_of(alloc: Global, classes: &Classes, count: u64) -> Result<Segments<Opening>, Memory>
    requires { count ≤ classes_of classes.now.family }
{
    let length = SegmentLength::of(SEGMENT).unwrap_or(SegmentLength::longest());
    let mut openings = Segments::new(alloc, length);
    for class in 0..count {
        openings.push(opening_in(classes, class))?;
    }
    Ok(openings)
}

// What the class's cell in the share answers to the changes, one after another.
fn tell_replies(
    alloc: Global,
    share: &mut Share,
    class: u64,
    changes: &str,
) -> Result<String, AllocError> {
    let mut text = String::new(alloc);
    for change in changes.split_whitespace() {
        if !text.is_empty() {
            text.push(' ')?;
        }
        let reply = reply_to(alloc, share, class, change)?;
        text.push_str(reply.as_str())?;
    }
    Ok(text)
}

// What the class's cell in the share answers to the change.
fn reply_to(
    alloc: Global,
    share: &mut Share,
    class: u64,
    change: &str,
) -> Result<String, AllocError> {
    let Some((was, now)) = read_change(change) else {
        return "none".to_string(alloc);
    };
    if share.settled() >= MOST_SETTLED {
        return "none".to_string(alloc);
    }
    let item = Item {
        number: 0,
        to: class,
        was,
        now,
    };
    match share.apply(item) {
        Ok(None) => "-".to_string(alloc),
        Ok(Some(settled)) => {
            let was = Named(settled.was);
            let now = Named(settled.now);
            format!(in alloc; "{was}>{now}")
        }
        Err(dob_share::Fault::TooDeep) => "E12".to_string(alloc),
        Err(dob_share::Fault::Contradiction(_)) => "E13".to_string(alloc),
    }
}

// The values of a change that is written `WAS>NOW`.
fn read_change(text: &str) -> Option<(Value, Value)> {
    let (was, now) = text.split_once('>')?;
    Some((read_value(was)?, read_value(now)?))
}
