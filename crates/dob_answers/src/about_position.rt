// Answers about a position.
ghost use Rattle.dob_pieces.specs.Profiles.{IsAllowed};
ghost use Rattle.dob_rank.specs.Families.{IsPositionOf};

use crate::opened::Opened;
use crate::question::OfPosition;
use dob_moves::{Status, apply, first_catch, moves, status};
use dob_pieces::{Family, Memory, Position, Profile};
use dob_rank::rank;
use dob_text::{write_move, write_position};
use dob_value::{Fault, Value};
use std::alloc::{AllocError, Global};
use std::fmt::Write;

/// What is asked about the position by the rules of the profile, which allow it. An error is that of opening or sweeping its
/// family, or no memory was left.
pub(crate) fn about_position(
    alloc: Global,
    opened: &mut Opened,
    matter: OfPosition,
    profile: Profile,
    position: &Position,
) -> Result<String, Fault>
    requires { IsAllowed profile position.now.setup }
{
    match matter {
        OfPosition::Moves => Ok(tell_moves(alloc, profile, position)?),
        OfPosition::After(number) => Ok(tell_after(alloc, number, profile, position)?),
        OfPosition::Catch => Ok(tell_catch(alloc, position)?),
        OfPosition::Value => {
            let table = opened.table_of(alloc, family_of(profile, position))?;
            Ok(tell_value(alloc, table.value_of(position))?)
        }
        OfPosition::Rank => Ok(rank(profile, position).to_string(alloc)?),
        OfPosition::Class => {
            let classes = opened.classes_of(alloc, family_of(profile, position))?;
            Ok(classes.class_of(position).to_string(alloc)?)
        }
    }
}

// The positions with the same pieces that the profile allows.
fn family_of(profile: Profile, position: &Position) -> Family
    requires { IsAllowed profile position.now.setup }
    ensures { IsPositionOf result position.now.setup }
{
    Family {
        set: position.piece_set(),
        profile,
    }
}

// `status S moves M1 M2 ..`, in move order.
fn tell_moves(alloc: Global, profile: Profile, position: &Position) -> Result<String, Memory> {
    let name = match status(Profile::A, position) {
        Status::Caught => "caught",
        Status::Tried => "tried",
        Status::Stuck => "stuck",
        Status::Open => "open",
    };
    let mut text = format!(in alloc; "status {name} moves")?;
    let legal = moves(alloc, profile, position)?;
    for played in &legal {
        let word = write_move(alloc, *played, false)?;
        write!(text, " {word}")?;
    }
    Ok(text)
}

// The text of the position after the move of that number; `none` if there is no such move.
fn tell_after(
    alloc: Global,
    number: usize,
    profile: Profile,
    position: &Position,
) -> Result<String, Memory> {
    let legal = moves(alloc, profile, position)?;
    if number >= legal.len() {
        return Ok("none".to_string(alloc)?);
    }
    let after = apply(position, legal[number]);
    write_position(alloc, &after)
}

// The first step that catches the enemy lion, or `none`.
fn tell_catch(alloc: Global, position: &Position) -> Result<String, Memory> {
    match first_catch(position) {
        None => Ok("none".to_string(alloc)?),
        Some(played) => write_move(alloc, played, false),
    }
}

// `win D`, `loss D` or `draw`.
fn tell_value(alloc: Global, value: Value) -> Result<String, AllocError> {
    match value {
        Value::Win(plies) => format!(in alloc; "win {plies}"),
        Value::Loss(plies) => format!(in alloc; "loss {plies}"),
        Value::Draw => "draw".to_string(alloc),
    }
}
