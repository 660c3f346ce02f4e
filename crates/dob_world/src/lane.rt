// The way from one node to another: a link, and the lists of what went over it.
ghost use Rattle.std.specs.Prelude.{◌≡◌, [], IfOk};

use crate::list_link::ListLink;
use dob_pieces::Memory;
use dob_share::Item;
use dob_update::Capacity;
use std::alloc::Global;

// A link with the items that were sent over it, and those that the receiver has applied. A node's own items go over no
// link, and only those applied are listed.
#[derive(Drop)]
pub(crate) struct Lane {
    pub(crate) link: ListLink,
    pub(crate) sent: Vec<Item>,
    pub(crate) applied: Vec<Item>,
}

impl Lane {
    ghost use Rattle.dob_world.specs.Links.{link_of};

    // An empty lane, with room for `capacity` batches.
    pub(crate) fn open(alloc: Global, capacity: Capacity) -> Result<Lane, Memory>
        ensures link { IfOk result (λ lane. lane.link ≡ link_of [] capacity) }
        ensures sent { IfOk result (λ lane. lane.sent.items ≡ []) }
        ensures applied { IfOk result (λ lane. lane.applied.items ≡ []) }
    {
        let link = ListLink::open(alloc, capacity)?;
        Ok(Lane {
            link,
            sent: Vec::new(alloc),
            applied: Vec::new(alloc),
        })
    }
}
