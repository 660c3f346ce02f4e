// Questions and answers about worlds: `drive CEG N BATCH CAPACITY ROUNDS`, what driving a world by ROUNDS rounds answers,
// and `events CEG N BATCH CAPACITY E ..`, a letter for each event: `D` if it is done, `s` if it is skipped, `?` where
// it is none. Events are written `E0`, `O0`, `P0.1` and `T0.1` by the first letters of their names and their nodes, `S0` for a
// pass of the token and `A` for the announcement. Later it stands what the world then shows, as shown.rt says.
ghost use Rattle.std.specs.Prelude.{◌≡◌, ◌*◌, ◌^◌, ◌≤◌, None, true, OnOk};
ghost use Rattle.dob_world.specs.Rounds.{round_length};
ghost use Rattle.dob_world.specs.Standing.{IsStanding, StandsOrStopped};

use crate::shown::show;
use dob_pieces::{Family, Memory};
use dob_world::{Event, Fault, Step, World};
use std::alloc::Global;
use std::fmt::Display;

// A world can make as many events.
const MOST_EVENTS: u64 = 1 << 40;

/// How many nodes a world or a build has, how many items its batches and how many batches its links or inboxes hold.
#[derive(Clone, Copy)]
pub(crate) struct Sizes {
    pub(crate) nodes: usize,
    pub(crate) batch: usize,
    pub(crate) capacity: usize,
}

/// What is done in a world.
#[derive(Clone, Copy)]
pub(crate) enum OfWorld<'a> {
    /// The number of rounds by which it is driven.
    Drive(u64),
    /// Those events happen, in order.
    Events(&'a str),
}

impl<'a> OfWorld<'a> {
    /// The question with that first word, whose other words begin with sizes; none if there is no such question.
    pub(crate) fn read(word: &str, rest: &'a str) -> Option<(Sizes, OfWorld<'a>)> {
        let (nodes, rest) = rest.split_once(' ')?;
        let (batch, rest) = rest.split_once(' ')?;
        let (capacity, rest) = rest.split_once(' ')?;
        let sizes = Sizes {
            nodes: nodes.parse::<usize>().ok()?,
            batch: batch.parse::<usize>().ok()?,
            capacity: capacity.parse::<usize>().ok()?,
        };
        match word {
            "drive" => Some((sizes, OfWorld::Drive(rest.parse::<u64>().ok()?))),
            "events" => Some((sizes, OfWorld::Events(rest))),
            _ => None,
        }
    }
}

/// What comes of it in a world of the set with those sizes. An error is the world's.
pub(crate) fn about_world(
    alloc: Global,
    family: Family,
    sizes: Sizes,
    matter: OfWorld<'_>,
) -> Result<String, Fault> {
    let world = World::open(alloc, family, sizes.nodes, sizes.batch, sizes.capacity)?;
    match matter {
        OfWorld::Drive(rounds) => tell_drive(alloc, world, sizes.nodes, rounds),
        OfWorld::Events(events) => tell_events(alloc, world, sizes.nodes, events),
    }
}

// What driving the world answers, and what it then shows; `none` if the rounds are too many.
fn tell_drive(alloc: Global, mut world: World, nodes: usize, rounds: u64) -> Result<String, Fault>
    requires nodes { world.node_count ≡ nodes }
    requires standing { IsStanding world }
    requires going { world.failed ≡ None }
    requires start { world.steps ≡ 0 }
{
    if !are_few(rounds, nodes) {
        return Ok(none(alloc)?);
    }
    let still = world.drive(rounds)?;
    let shown = show(alloc, &world, nodes)?;
    Ok(join(alloc, still, shown.as_str())?)
}

// Whether a world of `nodes` nodes can make `rounds` rounds.
fn are_few(rounds: u64, nodes: usize) -> bool
    requires { nodes ≤ 16 }
    ensures { result ≡ true → rounds * round_length nodes ≤ 2 ^ 40 }
{
    let nodes = nodes as u64;
    match rounds.checked_mul(3 * nodes + 2 * (nodes * nodes) + 1) {
        Some(events) => events <= MOST_EVENTS,
        None => false,
    }
}

// The letters of the events, and what the world then shows.
fn tell_events(alloc: Global, mut world: World, nodes: usize, events: &str) -> Result<String, Fault>
    requires nodes { world.node_count ≡ nodes }
    requires standing { IsStanding world }
    requires kept { StandsOrStopped world }
{
    let mut letters = String::new(alloc);
    for word in events.split_whitespace() {
        let letter = happen(&mut world, word)?;
        push(&mut letters, letter)?;
    }
    let shown = show(alloc, &world, nodes)?;
    Ok(join(alloc, letters.as_str(), shown.as_str())?)
}

// The letter of the event that is written so.
fn happen(world: &mut World, word: &str) -> Result<char, Fault>
    requires standing { IsStanding world.old }
    requires kept { StandsOrStopped world.old }
    ensures standing { OnOk result (IsStanding world.new × StandsOrStopped world.new × (world.new.node_count ≡ world.old.node_count)) }
{
    let Some(event) = read_event(word) else {
        return Ok('?');
    };
    if world.steps() >= MOST_EVENTS {
        return Ok('?');
    }
    match world.step(event)? {
        Step::Done => Ok('D'),
        Step::Skipped => Ok('s'),
    }
}

// The event that is written so; none if the text is no event.
fn read_event(text: &str) -> Option<Event> {
    let letter = text.chars().next()?;
    let nodes = text.strip_prefix(letter)?;
    match letter {
        'E' => Some(Event::Expand(nodes.parse::<usize>().ok()?)),
        'O' => Some(Event::Own(nodes.parse::<usize>().ok()?)),
        'P' => {
            let (from, to) = read_nodes(nodes)?;
            Some(Event::Post { from, to })
        }
        'T' => {
            let (from, to) = read_nodes(nodes)?;
            Some(Event::Take { from, to })
        }
        'S' => Some(Event::Pass(nodes.parse::<usize>().ok()?)),
        'A' if nodes.is_empty() => Some(Event::Announce),
        _ => None,
    }
}

// Two nodes with a point between them.
fn read_nodes(text: &str) -> Option<(usize, usize)> {
    let (from, to) = text.split_once('.')?;
    let from = from.parse::<usize>().ok()?;
    let to = to.parse::<usize>().ok()?;
    Some((from, to))
}

fn push(letters: &mut String, letter: char) -> Result<(), Memory> {
    Ok(letters.push(letter)?)
}

// The two with a space between them.
fn join<D: Display + Drop>(alloc: Global, answer: D, shown: &str) -> Result<String, Memory> {
    Ok(format!(in alloc; "{answer} {shown}")?)
}

fn none(alloc: Global) -> Result<String, Memory> {
    Ok("none".to_string(alloc)?)
}
