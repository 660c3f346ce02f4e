// How many values of a table are wins, losses and draws, and the lines that say so.
ghost use Rattle.std.specs.Prelude.{◌≡◌, ◌<◌, ◌∷◌, [], IfOk, length, string_bytes};
ghost use Rattle.dob_lines.specs.Tallies.{AreAddedUp, IsTally, IsTallyAt, class_lines};

use dob_pieces::Memory;
use dob_value::{Table, Value};
use rayon::prelude::*;
use std::alloc::Global;
use std::thread::Threads;

/// The numbers of wins, losses and draws.
#[derive(Clone, Copy)]
pub(crate) struct Tally {
    pub(crate) wins: u64,
    pub(crate) losses: u64,
    pub(crate) draws: u64,
}

/// The lines that say how many classes the table has, and how many of them have which value.
pub fn lines_of(rt: &(impl Threads + Sync), alloc: Global, table: &Table) -> Result<String, Memory>
    ensures { IfOk result (λ lines. string_bytes lines ≡ class_lines table.now.values) }
{
    let classes = table.class_count();
    let tally = tally_of(rt, table);
    let wins = tally.wins;
    let losses = tally.losses;
    let draws = tally.draws;
    Ok(format!(in alloc; "classes {classes}\nwin {wins}\nloss {losses}\ndraw {draws}\n")?)
}

/// How many of the table's values are wins, losses and draws. Parts of the table are counted by themselves, in as many threads
/// as there are processors, and added up.
pub(crate) fn tally_of(rt: &(impl Threads + Sync), table: &Table) -> Tally
    ensures { IsTally table.now.values result }
{
    (0..table.class_count())
        .into_par_iter()
        .map(
            |class: u64| -> Tally
                requires { class < length table.now.values }
                ensures { IsTallyAt table.entry.now.values class result }
            { one(table.value(class)) },
        )
        .reduce(
            rt,
            || -> Tally
                ensures { IsTally [] result }
            { none() },
            |left: Tally, right: Tally| -> Tally
                ensures { AreAddedUp left right result }
            { sum(left, right) },
        )
}

// The tally of no values.
fn none() -> Tally
    ensures { IsTally [] result }
{
    Tally {
        wins: 0,
        losses: 0,
        draws: 0,
    }
}

fn one(value: Value) -> Tally
    ensures { IsTally (value ∷ []) result }
{
    match value {
        Value::Win(_) => Tally { wins: 1, ..none() },
        Value::Loss(_) => Tally {
            losses: 1,
            ..none()
        },
        Value::Draw => Tally { draws: 1, ..none() },
    }
}

// Two tallies added up, which fits where one list can have all the values.
fn sum(left: Tally, right: Tally) -> Tally
    ensures { AreAddedUp left right result }
{
    Tally {
        wins: left.wins.wrapping_add(right.wins),
        losses: left.losses.wrapping_add(right.losses),
        draws: left.draws.wrapping_add(right.draws),
    }
}
