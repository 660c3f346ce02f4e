// Answers as JSON: an object on a line.
ghost use Rattle.std.specs.Prelude.{◌≡◌, false, IfOk, string_bytes};
ghost use Rattle.dob_text.specs.MoveText.{seen, square_text};
ghost use Rattle.dob_lines.specs.Objects.{comma_before, count_object, kind_name, line_object, move_fields, moves_object, played_objects, position_field, put_fields, step_fields, truth, value_fields, value_object, valued_fields, valued_object, valued_objects};

use dob_moves::Move;
use dob_pieces::{HandKind, Kind, Memory, Position, Square};
use dob_probe::ValuedMove;
use dob_text::{write_move, write_position};
use dob_value::Value;
use std::alloc::Global;
use std::fmt::Write;

/// The object of a position and its value.
pub fn value_object(alloc: Global, position: &Position, value: Value) -> Result<String, Memory>
    ensures { IfOk result (λ line. string_bytes line ≡ value_object position.now.setup value) }
{
    let front = valued_fields(alloc, position, value)?;
    Ok(format!(in alloc; "{{{front}}}\n")?)
}

/// The object of a position and its moves with their values.
pub fn moves_object(
    alloc: Global,
    position: &Position,
    moves: &[ValuedMove],
) -> Result<String, Memory>
    ensures { IfOk result (λ line. string_bytes line ≡ moves_object position.now.setup moves.now) }
{
    let front = position_field(alloc, position)?;
    let told = valued_objects(alloc, moves)?;
    Ok(format!(in alloc; "{{{front},\"moves\":[{told}]}}\n")?)
}

/// The object of a position, its value and the moves of its line.
pub fn line_object(
    alloc: Global,
    position: &Position,
    value: Value,
    moves: &[Move],
) -> Result<String, Memory>
    ensures { IfOk result (λ line. string_bytes line ≡ line_object position.now.setup value moves.now) }
{
    let front = valued_fields(alloc, position, value)?;
    let told = played_objects(alloc, moves)?;
    Ok(format!(in alloc; "{{{front},\"moves\":[{told}]}}\n")?)
}

/// The object of a value and how many classes have it.
pub fn count_object(alloc: Global, value: Value, classes: u64) -> Result<String, Memory>
    ensures { IfOk result (λ line. string_bytes line ≡ count_object value classes) }
{
    let worth = value_fields(alloc, value)?;
    Ok(format!(in alloc; "{{{worth},\"classes\":{classes}}}\n")?)
}

// The moves with their values, with a comma between two.
fn valued_objects(alloc: Global, moves: &[ValuedMove]) -> Result<String, Memory>
    ensures { IfOk result (λ text. string_bytes text ≡ valued_objects moves.now) }
{
    let mut text = String::new(alloc);
    let mut left = moves;
    while let Some((first, rest)) = left.split_first() {
        let object = valued_object(alloc, *first)?;
        let comma = comma_before(rest);
        write!(text, "{object}{comma}")?;
        left = rest;
    }
    Ok(text)
}

// The move with its value.
fn valued_object(alloc: Global, valued: ValuedMove) -> Result<String, Memory>
    ensures { IfOk result (λ text. string_bytes text ≡ valued_object valued) }
{
    let fields = move_fields(alloc, valued.played, false)?;
    let worth = value_fields(alloc, valued.value)?;
    Ok(format!(in alloc; "{{{fields},{worth}}}")?)
}

// The moves of a line, with a comma between two.
fn played_objects(alloc: Global, moves: &[Move]) -> Result<String, Memory>
    ensures { IfOk result (λ text. string_bytes text ≡ played_objects false moves.now) }
{
    let mut text = String::new(alloc);
    let mut second = false;
    let mut left = moves;
    while let Some((first, rest)) = left.split_first() {
        let fields = move_fields(alloc, *first, second)?;
        let comma = comma_before(rest);
        write!(text, "{{{fields}}}{comma}")?;
        second = !second;
        left = rest;
    }
    Ok(text)
}

// A comma where more follows.
fn comma_before<T>(rest: &[T]) -> &'static str
    ensures { result.now ≡ comma_before rest.now }
{
    match rest {
        [] => "",
        [_, ..] => ",",
    }
}

fn valued_fields(alloc: Global, position: &Position, value: Value) -> Result<String, Memory>
    ensures { IfOk result (λ text. string_bytes text ≡ valued_fields position.now.setup value) }
{
    let place = position_field(alloc, position)?;
    let worth = value_fields(alloc, value)?;
    Ok(format!(in alloc; "{place},{worth}")?)
}

fn position_field(alloc: Global, position: &Position) -> Result<String, Memory>
    ensures { IfOk result (λ text. string_bytes text ≡ position_field position.now.setup) }
{
    let text = write_position(alloc, position)?;
    Ok(format!(in alloc; "\"position\":\"{text}\"")?)
}

fn value_fields(alloc: Global, value: Value) -> Result<String, Memory>
    ensures { IfOk result (λ text. string_bytes text ≡ value_fields value) }
{
    match value {
        Value::Win(plies) => Ok(format!(in alloc; "\"value\":\"win\",\"plies\":{plies}")?),
        Value::Loss(plies) => Ok(format!(in alloc; "\"value\":\"loss\",\"plies\":{plies}")?),
        Value::Draw => Ok("\"value\":\"draw\",\"plies\":null".to_string(alloc)?),
    }
}

// The fields of a move; it is one of the side that is second in its line, or of the first.
fn move_fields(alloc: Global, played: Move, second: bool) -> Result<String, Memory>
    ensures { IfOk result (λ text. string_bytes text ≡ move_fields played second) }
{
    let text = write_move(alloc, played, second)?;
    match &played {
        Move::Step {
            kind,
            from,
            to,
            catch,
            ..
        } => {
            let left = square_text(alloc, seen_square(second, *from))?;
            let from = format!(in alloc; "\"{left}\"")?;
            let to = square_text(alloc, seen_square(second, *to))?;
            step_fields(
                alloc,
                text.as_str(),
                *kind,
                from.as_str(),
                to.as_str(),
                *catch,
            )
        }
        Move::Put { kind, to } => {
            put_fields(alloc, text.as_str(), *kind, seen_square(second, *to))
        }
    }
}

// The fields of a drop with that text.
fn put_fields(alloc: Global, text: &str, kind: HandKind, to: Square) -> Result<String, Memory>
    ensures { IfOk result (λ fields. string_bytes fields ≡ put_fields text.now kind to) }
{
    let to = square_text(alloc, to)?;
    step_fields(alloc, text, kind.on_board(), "null", to.as_str(), false)
}

// The fields of a move with that text, by theirs.
fn step_fields(
    alloc: Global,
    text: &str,
    kind: Kind,
    from: &str,
    to: &str,
    catch: bool,
) -> Result<String, Memory>
    ensures { IfOk result (λ fields. string_bytes fields ≡ step_fields text.now kind from.now to.now catch) }
{
    let kind = kind_name(kind);
    let catch = truth(catch);
    Ok(format!(in alloc;
        "\"move\":\"{text}\",\"kind\":\"{kind}\",\"from\":{from},\"to\":\"{to}\",\"catch\":{catch}"
    )?)
}

// The square as the side to move in the first position of a line sees it.
fn seen_square(second: bool, square: Square) -> Square
    ensures { result ≡ seen second square }
{
    if second { square.turned() } else { square }
}

// The square's name.
fn square_text(alloc: Global, square: Square) -> Result<String, Memory>
    ensures { IfOk result (λ text. string_bytes text ≡ square_text square) }
{
    let mut text = String::new(alloc);
    text.push((b'a' + square.column() as u8) as char)?;
    text.push((b'1' + square.row() as u8) as char)?;
    Ok(text)
}

fn kind_name(kind: Kind) -> &'static str
    ensures { result.now ≡ kind_name kind }
{
    match kind {
        Kind::Lion => "lion",
        Kind::Giraffe => "giraffe",
        Kind::Elephant => "elephant",
        Kind::Chick => "chick",
        Kind::Hen => "hen",
    }
}

// A truth as a word.
fn truth(holds: bool) -> &'static str
    ensures { result.now ≡ truth holds }
{
    if holds { "true" } else { "false" }
}
