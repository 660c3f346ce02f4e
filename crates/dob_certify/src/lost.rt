// The classes that show that one of them is lost within N plies, found in a table.
//
// The classes come by falling distance. Each move of a class leads to one that has to be answered: to have a reply to a member that is lost in time. What
// has to be answered waits until the distance of its shortest reply is reached, since until then a class may become a member that answers it too. Then those
// with the fewest replies choose first, and each takes the reply that most of them could take. A member gets as many plies as those whom it answers allow,
// so that it needs fewer classes itself.
ghost use Rattle.std.specs.Prelude.{All, IfOk};
ghost use Rattle.dob_certify.specs.Lists.{IsByTable};

use crate::fault::{Stop, ended};
use crate::members::Members;
use crate::outcomes::{Listed, list_outcomes, value_in};
use dob_certificate::{Entries, ListKind};
use dob_check::Watch;
use dob_pieces::Memory;
use dob_value::{Table, Value};
use std::alloc::Global;
use std::mem;

// A class that has to be answered by a reply to one that is lost within `plies`.
#[derive(Clone, Copy, PartialEq, Eq, PartialOrd, Ord)]
struct Need {
    class: u32,
    plies: u16,
}

// A class to which a reply leads, and in how many plies it is lost by the table.
#[derive(Clone, Copy)]
struct Reply {
    class: u32,
    plies: u16,
}

// A need and the replies that meet it: those from `start` on, before `end`, of a list. The order is that in which needs choose.
#[derive(Clone, Copy, PartialEq, Eq, PartialOrd, Ord)]
struct Choice {
    replies: usize,
    need: Need,
    start: usize,
    end: usize,
}

// The needs that wait for one distance.
#[derive(Drop)]
struct Waiting {
    needs: Vec<Need>,
}

// A search for a list: its members so far, and the classes that are still to be looked at.
#[derive(Drop)]
struct Search<'a> {
    alloc: Global,
    table: &'a Table,
    members: Members,
    // Those whose moves haven't been looked at.
    fresh: Vec<u32>,
    // By half the distance for which they wait.
    waiting: Vec<Waiting>,
    // The classes to which the moves of the class at hand lead, kept so that each look takes the same memory.
    replies: Vec<u32>,
}

/// The entry of the class, which by the table is lost in `plies`, and those that it needs; where they are more than `most`, those that were found until they
/// were. The watch is called after each round.
pub(crate) fn lost_entries<W: Watch>(
    alloc: Global,
    table: &Table,
    class: u32,
    plies: u16,
    most: u64,
    watch: &W,
) -> Result<Entries, Memory>
    ensures { IfOk result (All (IsByTable table.now ListKind.Lost)) }
{
    let mut search = Search {
        alloc,
        table,
        members: Members::new(alloc, most),
        fresh: Vec::new(alloc),
        waiting: waiting_to(alloc, plies / 2)?,
        replies: Vec::new(alloc),
    };
    ended(search.run(class, plies, watch))?;
    search.members.entries(alloc, table, ListKind::Lost)
}

// An empty list for each distance up to twice `half`.
fn waiting_to(alloc: Global, half: u16) -> Result<Vec<Waiting>, Memory> {
    let mut waiting = Vec::new(alloc);
    for _ in 0..=half {
        let needs = Vec::new(alloc);
        waiting.push(Waiting { needs })?;
    }
    Ok(waiting)
}

impl Search<'_> {
    // Finds the class's entry, if it has any plies, and those that it needs.
    fn run<W: Watch>(&mut self, class: u32, plies: u16, watch: &W) -> Result<(), Stop> {
        let half = plies / 2;
        if half > 0 {
            self.add(class, plies)?;
        }
        for distance in (1..=half).rev() {
            self.answer_needs(2 * distance)?;
            self.look_at_fresh()?;
            watch.passed(1);
        }
        Ok(())
    }

    // Makes the class a member.
    fn add(&mut self, class: u32, plies: u16) -> Result<(), Stop> {
        self.members.insert(class, plies)?;
        self.fresh.push(class)?;
        Ok(())
    }

    // Looks at the moves of the fresh members.
    fn look_at_fresh(&mut self) -> Result<(), Stop> {
        let fresh = mem::replace(&mut self.fresh, Vec::new(self.alloc));
        let mut outcomes = Vec::new(self.alloc);
        for class in fresh.iter() {
            if let Some(plies) = self.members.get(*class) {
                list_outcomes(self.table, *class, Listed::All, &mut outcomes)?;
                self.look_at(&outcomes, plies.saturating_sub(2))?;
            }
        }
        Ok(())
    }

    // Each of the classes has to be answered within `plies`. One that is won in 1 ply always is.
    fn look_at(&mut self, outcomes: &[u32], plies: u16) -> Result<(), Stop> {
        for class in outcomes {
            if value_in(self.table, *class) != Value::Win(1) {
                self.ask(Need {
                    class: *class,
                    plies,
                })?;
            }
        }
        Ok(())
    }

    // Has the need wait for the distance of its shortest reply, where no member meets it.
    fn ask(&mut self, need: Need) -> Result<(), Stop> {
        list_outcomes(self.table, need.class, Listed::All, &mut self.replies)?;
        let mut least = u16::MAX;
        for reply in self.replies.iter() {
            if is_within(self.members.get(*reply), need.plies) {
                return Ok(());
            }
            if let Value::Loss(plies) = value_in(self.table, *reply) {
                least = least.min(plies);
            }
        }
        if let Some(waiting) = self.waiting.get_mut(least as usize / 2) {
            waiting.needs.push(need)?;
        }
        Ok(())
    }

    // Finds a member for each need that waits for that distance.
    fn answer_needs(&mut self, distance: u16) -> Result<(), Stop> {
        let needs = self.take_needs(distance);
        let mut replies = Vec::new(self.alloc);
        let mut choices = Vec::new(self.alloc);
        for need in needs.iter() {
            choices.push(self.choice_of(*need, &mut replies)?)?;
        }
        choices.sort_unstable();
        let wanted = wanted_at(self.alloc, &replies, distance)?;
        for choice in choices.iter() {
            if let Some(replies) = replies.get(choice.start..choice.end) {
                self.choose(replies, choice.need.plies, distance, &wanted)?;
            }
        }
        Ok(())
    }

    // The needs that wait for that distance, of each class the one with the fewest plies.
    fn take_needs(&mut self, distance: u16) -> Vec<Need> {
        let mut needs = Vec::new(self.alloc);
        if let Some(waiting) = self.waiting.get_mut(distance as usize / 2) {
            mem::swap(&mut needs, &mut waiting.needs);
        }
        needs.sort_unstable();
        needs.dedup_by_key(|need: &mut Need| need.class);
        needs
    }

    // Appends the replies that meet the need.
    fn choice_of(&mut self, need: Need, replies: &mut Vec<Reply>) -> Result<Choice, Stop> {
        let start = replies.len();
        list_outcomes(self.table, need.class, Listed::All, &mut self.replies)?;
        for class in self.replies.iter() {
            match value_in(self.table, *class) {
                Value::Loss(plies) if plies <= need.plies => replies.push(Reply {
                    class: *class,
                    plies,
                })?,
                _ => {}
            }
        }
        let end = replies.len();
        Ok(Choice {
            replies: end.saturating_sub(start),
            need,
            start,
            end,
        })
    }

    // Chooses one of the replies, where no member is lost in time: a member of that distance, whose plies become fewer, or one that most want.
    fn choose(
        &mut self,
        replies: &[Reply],
        plies: u16,
        distance: u16,
        wanted: &Members,
    ) -> Result<(), Stop> {
        let mut member = None;
        let mut best = None;
        let mut most = 0;
        for reply in replies {
            let found = self.members.get(reply.class);
            if is_within(found, plies) {
                return Ok(());
            }
            if reply.plies == distance {
                if found.is_some() && member.is_none() {
                    member = Some(reply.class);
                }
                let count = wanted.get(reply.class).unwrap_or(0);
                if count > most {
                    most = count;
                    best = Some(reply.class);
                }
            }
        }
        match (member, best) {
            (Some(class), _) => self.members.insert(class, plies),
            (None, Some(class)) => self.add(class, plies),
            (None, None) => Ok(()),
        }
    }
}

// How many of the needs each class of that distance meets.
fn wanted_at(alloc: Global, replies: &[Reply], distance: u16) -> Result<Members, Stop> {
    let mut wanted = Members::new(alloc, u64::MAX);
    for reply in replies {
        if reply.plies == distance {
            let count = wanted.get(reply.class).unwrap_or(0);
            wanted.insert(reply.class, count.saturating_add(1))?;
        }
    }
    Ok(wanted)
}

// Whether there is a number, and it is at most `plies`.
fn is_within(member: Option<u16>, plies: u16) -> bool {
    match member {
        Some(least) => least <= plies,
        None => false,
    }
}
