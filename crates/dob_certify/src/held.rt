// The classes that show that some of them aren't lost within N plies, found in a table.
//
// The classes come by falling plies. Each has to have a move after which the lion can't be caught and each reply leads to a class that isn't lost within
// two plies less: so the move that is chosen asks for the fewest and cheapest classes that aren't members yet.
ghost use Rattle.std.specs.Prelude.{All, IfOk};
ghost use Rattle.dob_certify.specs.Lists.{IsByTable};

use crate::fault::{Stop, ended};
use crate::members::Members;
use crate::outcomes::{Listed, list_outcomes, value_in};
use dob_certificate::{EVER, Entries, ListKind};
use dob_check::Watch;
use dob_pieces::Memory;
use dob_value::{Table, Value};
use std::alloc::Global;
use std::mem;

// What a class costs that its side to move wins in 1 ply.
const UNIT: u64 = 1 << 16;

// What a class costs that its side to move doesn't win in time.
const UNWON: u64 = 20 * UNIT;

// The greatest cost of a class. Those of a position's replies add up to less than a `u64` can have.
const GREATEST: u64 = 1 << 50;

// For how many distances the costs are kept. Of the last one it is above `GREATEST`.
const DISTANCES: usize = 64;

// A search for a list: its members so far, and the classes that are still to be looked at.
#[derive(Drop)]
struct Search<'a> {
    alloc: Global,
    table: &'a Table,
    members: Members,
    // Those whose moves haven't been looked at.
    fresh: Vec<u32>,
    // What a class costs by half the distance in which its side to move wins.
    costs: [u64; DISTANCES],
    // The classes for which the move asks that is looked at, and those for which the cheapest one asks.
    asked: Vec<u32>,
    cheapest: Vec<u32>,
    // The classes to which the moves of the class at hand lead, kept so that each look takes the same memory.
    replies: Vec<u32>,
}

/// The entries of the classes, which by the table aren't lost within `plies`, and those that they need; where they are more than `most`, those that were
/// found until they were. Where the lion can be caught a class needs no entry, and none needs one within 1 ply. The watch is called after each round.
pub(crate) fn held_entries<W: Watch>(
    alloc: Global,
    table: &Table,
    roots: &[u32],
    plies: u16,
    most: u64,
    watch: &W,
) -> Result<Entries, Memory>
    ensures { IfOk result (All (IsByTable table.now ListKind.Held)) }
{
    let mut search = Search {
        alloc,
        table,
        members: Members::new(alloc, most),
        fresh: Vec::new(alloc),
        costs: costs(),
        asked: Vec::new(alloc),
        cheapest: Vec::new(alloc),
        replies: Vec::new(alloc),
    };
    ended(search.run(roots, plies, watch))?;
    search.members.entries(alloc, table, ListKind::Held)
}

// The plies that a class which has to hold for `plies` asks of those two plies later.
fn plies_asked(plies: u16) -> u16 {
    if plies == EVER {
        EVER
    } else {
        plies.saturating_sub(2)
    }
}

// Each cost is half as much again as the one before.
fn costs() -> [u64; DISTANCES] {
    let mut costs = [GREATEST; DISTANCES];
    let mut cost = UNIT;
    for half in 0..DISTANCES {
        costs[half] = cost;
        cost = (cost.saturating_add(cost / 2)).min(GREATEST);
    }
    costs
}

impl Search<'_> {
    // Finds the entries of those classes and those that they need.
    fn run<W: Watch>(&mut self, roots: &[u32], plies: u16, watch: &W) -> Result<(), Stop> {
        let mut plies = plies;
        self.add_all(roots, plies)?;
        // A round adds a class at least, and each class is added once.
        for _ in 0..u32::MAX {
            if self.fresh.is_empty() {
                break;
            }
            let asked = plies_asked(plies);
            self.look_at_fresh(plies, asked)?;
            plies = asked;
            watch.passed(1);
        }
        Ok(())
    }

    // Makes those classes members that aren't, with `plies`.
    fn add_all(&mut self, classes: &[u32], plies: u16) -> Result<(), Stop> {
        if plies < 2 {
            return Ok(());
        }
        for class in classes {
            if self.members.get(*class).is_none() {
                self.members.insert(*class, plies)?;
                self.fresh.push(*class)?;
            }
        }
        Ok(())
    }

    // Chooses a move for each of the fresh members, which have `plies`, and adds what it asks for.
    fn look_at_fresh(&mut self, plies: u16, asked: u16) -> Result<(), Stop> {
        let fresh = mem::replace(&mut self.fresh, Vec::new(self.alloc));
        if asked < 2 {
            return Ok(());
        }
        let mut outcomes = Vec::new(self.alloc);
        for class in fresh.iter().rev() {
            list_outcomes(self.table, *class, Listed::All, &mut outcomes)?;
            self.choose(&outcomes, plies, asked)?;
            let cheapest = mem::replace(&mut self.cheapest, Vec::new(self.alloc));
            self.add_all(&cheapest, asked)?;
            self.cheapest = cheapest;
        }
        Ok(())
    }

    // Leaves as the cheapest those classes for which the cheapest of the moves to these classes asks.
    fn choose(&mut self, outcomes: &[u32], plies: u16, asked: u16) -> Result<(), Stop> {
        self.cheapest.clear();
        let mut least = u64::MAX;
        for class in outcomes {
            if least == 0 {
                break;
            }
            if !is_won_before(value_in(self.table, *class), plies) {
                let cost = self.cost_of(*class, asked, least)?;
                if cost < least {
                    least = cost;
                    mem::swap(&mut self.asked, &mut self.cheapest);
                }
            }
        }
        Ok(())
    }

    // What the classes cost for which the move to that class asks, which are listed as far as their costs are below the limit.
    fn cost_of(&mut self, class: u32, asked: u16, limit: u64) -> Result<u64, Stop> {
        list_outcomes(self.table, class, Listed::Uncaught, &mut self.replies)?;
        self.asked.clear();
        let mut cost = 0u64;
        for reply in self.replies.iter() {
            if cost >= limit {
                break;
            }
            if self.members.get(*reply).is_none() {
                let value = value_in(self.table, *reply);
                cost = cost.saturating_add(cost_at(&self.costs, value, asked));
                self.asked.push(*reply)?;
            }
        }
        Ok(cost)
    }
}

// What a class of that value costs if it has to hold for `asked` plies.
fn cost_at(costs: &[u64], value: Value, asked: u16) -> u64 {
    match value {
        Value::Win(plies) if plies <= asked => {
            costs.get(plies as usize / 2).copied().unwrap_or(GREATEST)
        }
        _ => UNWON,
    }
}

// Whether the side to move wins in fewer plies, or at all where these are for ever.
fn is_won_before(value: Value, plies: u16) -> bool {
    match value {
        Value::Win(distance) => distance < plies || plies == EVER,
        Value::Loss(_) | Value::Draw => false,
    }
}
