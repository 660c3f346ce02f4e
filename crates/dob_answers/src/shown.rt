// What a world shows: `steps N announced B win N loss N draw N longest D improved N sent N settled N .. digest H`. The
// classes are counted by their present values. The longest distance is that of any settlement, and those improve that aren't
// from a draw. Items are counted that were sent over any link, and settlements for each node. The digest is FNV-1a of 64 bits over
// each node's settlements, as `CLASS:WAS>NOW;`, and a `|`; and for each node and each other one over the items sent
// from the one to the other, as `NUMBER:TO:WAS>NOW;`, a `|`, the items applied likewise, and a `|`.
ghost use Rattle.std.specs.Prelude.{◌≡◌, ◌<◌};
ghost use Rattle.dob_world.specs.Standing.{IsStanding};

use crate::about_build::tell_outcomes;
use crate::value_names::Named;
use dob_pieces::Memory;
use dob_share::Item;
use dob_value::Value;
use dob_world::{History, World};
use std::alloc::Global;
use std::fmt::{self, Write};

// The hash of a text, made of one byte after another.
#[derive(Drop)]
struct Digest(u64);

impl Digest {
    // The hash of no byte.
    const EMPTY: u64 = 0xcbf2_9ce4_8422_2325;

    const FACTOR: u64 = 0x0000_0100_0000_01b3;
}

impl Write for Digest {
    fn write_str(&mut self, text: &str) -> fmt::Result {
        for byte in text.bytes() {
            self.0 = (self.0 ^ byte as u64).wrapping_mul(Digest::FACTOR);
        }
        Ok(())
    }
}

// What is shown of the settlements and items of a world.
#[derive(Drop)]
struct Told {
    longest: u16,
    improved: u64,
    sent: u64,
    digest: Digest,
}

impl Told {
    // What is shown of the world, which has `nodes` nodes.
    fn of(world: &World, nodes: usize) -> Result<Told, fmt::Error>
        requires standing { IsStanding world.now }
        requires nodes { nodes ≡ world.now.node_count }
    {
        let mut told = Told {
            longest: 0,
            improved: 0,
            sent: 0,
            digest: Digest(Digest::EMPTY),
        };
        for node in 0..nodes {
            told.add_history(&world.history(node))?;
        }
        for place in 0..nodes * nodes {
            let from = place / nodes;
            let to = place % nodes;
            if from != to {
                let sent = world.sent(from, to);
                told.sent = told.sent.saturating_add(sent.len() as u64);
                told.add_items(sent)?;
                told.add_items(world.applied(from, to))?;
            }
        }
        Ok(told)
    }

    fn add_history(&mut self, history: &History<'_>) -> fmt::Result {
        for number in 0..history.count() {
            let settled = history.get(number);
            self.longest = self.longest.max(distance(settled.now));
            if settled.was != Value::Draw {
                self.improved = self.improved.saturating_add(1);
            }
            let was = Named(settled.was);
            let now = Named(settled.now);
            write!(self.digest, "{}:{was}>{now};", settled.class)?;
        }
        write!(self.digest, "|")
    }

    fn add_items(&mut self, items: &[Item]) -> fmt::Result {
        for item in items {
            let was = Named(item.was);
            let now = Named(item.now);
            write!(self.digest, "{}:{}:{was}>{now};", item.number, item.to)?;
        }
        write!(self.digest, "|")
    }
}

// How many plies it is to the end; 0 for a draw.
fn distance(value: Value) -> u16 {
    match value {
        Value::Win(plies) | Value::Loss(plies) => plies,
        Value::Draw => 0,
    }
}

/// What the world shows, which has `nodes` nodes.
pub(crate) fn show(alloc: Global, world: &World, nodes: usize) -> Result<String, Memory>
    requires standing { IsStanding world.now }
    requires nodes { nodes ≡ world.now.node_count }
{
    let steps = world.steps();
    let table = world.gather()?;
    let outcomes = tell_outcomes(alloc, &table)?;
    let told = match Told::of(world, nodes) {
        Ok(told) => told,
        Err(_) => return Err(Memory),
    };
    let announced = world.announced();
    let mut text = format!(in alloc; "steps {steps} announced {announced} {outcomes}")?;
    let Told {
        longest,
        improved,
        sent,
        digest,
    } = told;
    write!(
        text,
        " longest {longest} improved {improved} sent {sent} settled"
    )?;
    for node in 0..nodes {
        write!(text, " {}", world.history(node).count())?;
    }
    write!(text, " digest {:016x}", digest.0)?;
    Ok(text)
}
