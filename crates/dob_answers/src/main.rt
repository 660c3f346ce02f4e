// Answers questions about positions and piece sets, one a line, so that this implementation can be compared with
// another. A line that begins with `B ` asks the rest by the rules of profile B, any other one by those of profile A: `moves TEXT`, `after I TEXT`, `catch TEXT`, `value TEXT`, `rank TEXT`, `class TEXT`, `unrank CEG N`,
// `classat CEG K`, `size CEG`, `back CEG K`, `edges CEG P Q`, `apply CEG CLASS CHANGE ..`, as about_cell.rt says,
// `alone CEG LIMIT`, as about_build.rt says, `built CEG N [BATCH CAPACITY]`, as about_crew.rt says, about worlds of nodes, as
// about_world.rt says, and about tokens of the ring, as about_token.rt says. A text that is no position and a set that is
// none get their faults, and any other line `unknown question`.
//
// Choices:
// - What is no question: a line without a space after its first word, or with a number that isn't one. `after I` with no such move, and `unrank`, `classat`,
//   `back` and `edges` with a number beyond the last, answer `none`, and so does `drive` with more than 2^40 events. An event that is none is `?`. Worlds
//   are printed as the hash of their histories and lists.
// - Classes and table of the set asked about last are stored, each by itself, since a question of classes need not wait for a sweep.
#![tactic(auto)]

mod about_build;
mod about_cell;
mod about_crew;
mod about_position;
mod about_set;
mod about_token;
mod about_world;
mod answer;
mod opened;
mod question;
mod shown;
mod value_names;

use crate::opened::Opened;
use anyhow::Result;
use std::io::{self, BufRead, BufReader, BufWriter, Write};

fn main(rt: HostRuntime) -> Result<()> {
    let mut output = BufWriter::new(rt.alloc(), io::writer(&rt))?;
    let input = BufReader::new(rt.alloc(), rt.reader())?;
    let mut opened = Opened::new();
    for line in input.lines(rt.alloc()) {
        let reply = answer::reply(&rt, rt.alloc(), &mut opened, line?.as_str())?;
        writeln!(output, "{reply}")?;
    }
    output.flush()?;
    Ok(())
}
