// The answer to a line.
use crate::about_build::about_build;
use crate::about_cell::about_cell;
use crate::about_crew::about_crew;
use crate::about_position::about_position;
use crate::about_set::about_set;
use crate::about_token::about_token;
use crate::about_world::about_world;
use crate::opened::Opened;
use crate::question::{OfValues, Question};
use dob_pieces::{Family, Memory, PieceSet};
use dob_text::read_position;
use dob_value::Fault;
use std::alloc::Global;
use std::fmt::Display;
use std::sync::Wait;
use std::thread::Threads;

/// The answer to a line, without a line feed. Only memory can run out. A build by threads may not end.
pub(crate) fn reply<R: Threads + Wait + Sync>(
    rt: &R,
    alloc: Global,
    opened: &mut Opened,
    line: &str,
) -> Result<String, Memory> {
    match Question::read(line) {
        None => Ok("unknown question".to_string(alloc)?),
        Some((profile, Question::Position(matter, text))) => {
            match read_position(profile, text) {
                Err(fault) => fault_line(alloc, fault),
                Ok(position) => {
                    told(
                        alloc,
                        about_position(alloc, opened, matter, profile, &position),
                    )
                }
            }
        }
        Some((profile, Question::Set(matter, text))) => match PieceSet::read(text) {
            Err(fault) => fault_line(alloc, fault),
            Ok(set) => told(
                alloc,
                about_set(alloc, opened, matter, Family { set, profile }),
            ),
        },
        Some((profile, Question::Values(matter, text))) => match PieceSet::read(text) {
            Err(fault) => fault_line(alloc, fault),
            Ok(set) => about_values(rt, alloc, opened, matter, Family { set, profile }),
        },
        Some((_, Question::Token(matter))) => Ok(about_token(alloc, matter)?),
    }
}

// What is asked about how the set's values are found.
fn about_values<R: Threads + Wait + Sync>(
    rt: &R,
    alloc: Global,
    opened: &mut Opened,
    matter: OfValues<'_>,
    family: Family,
) -> Result<String, Memory> {
    match matter {
        OfValues::Cell(class, changes) => {
            told(alloc, about_cell(alloc, opened, family, class, changes))
        }
        OfValues::Build(limit) => told_build(alloc, about_build(alloc, family, limit)),
        OfValues::Crew(sizes) => told_crew(alloc, about_crew(rt, alloc, family, sizes)),
        OfValues::World(sizes, matter) => {
            told_world(alloc, about_world(alloc, family, sizes, matter))
        }
    }
}

// The answer, or the line of the fault of finding it.
fn told(alloc: Global, answer: Result<String, Fault>) -> Result<String, Memory> {
    match answer {
        Ok(text) => Ok(text),
        Err(Fault::Memory) => Err(Memory),
        Err(fault) => fault_line(alloc, fault),
    }
}

// The answer, or the line of the fault of a build.
fn told_build(
    alloc: Global,
    answer: Result<String, dob_reference::Fault>,
) -> Result<String, Memory> {
    match answer {
        Ok(text) => Ok(text),
        Err(dob_reference::Fault::Memory) => Err(Memory),
        Err(fault) => fault_line(alloc, fault),
    }
}

// The answer, or the line of the fault of a build by threads.
fn told_crew(alloc: Global, answer: Result<String, dob_run::Fault>) -> Result<String, Memory> {
    match answer {
        Ok(text) => Ok(text),
        Err(dob_run::Fault::Memory) => Err(Memory),
        Err(fault) => fault_line(alloc, fault),
    }
}

// The answer, or the line of the fault of a world.
fn told_world(alloc: Global, answer: Result<String, dob_world::Fault>) -> Result<String, Memory> {
    match answer {
        Ok(text) => Ok(text),
        Err(dob_world::Fault::Memory) => Err(Memory),
        Err(fault) => fault_line(alloc, fault),
    }
}

fn fault_line<F: Display + Drop>(alloc: Global, fault: F) -> Result<String, Memory> {
    Ok(format!(in alloc; "dobutsu: {fault}")?)
}
