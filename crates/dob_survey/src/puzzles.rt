// Puzzles of a database file: positions that one move alone wins soonest.
ghost use Rattle.std.specs.Prelude.{◌≡◌, ◌++◌, ◌∷◌, ◌<◌, ◌↔◌, [], Contains, IfOk, IsTrue, OnOk, codes, flat_map, length, string_bytes};
ghost use Rattle.std.specs.Fmt.{decimal};
ghost use Rattle.dob_pieces.specs.Bytes.{line_feed};
ghost use Rattle.dob_survey.specs.Puzzles.{IsPuzzleLength, line_of_puzzle, puzzle_line, puzzle_lines, puzzle_text, puzzles_owed};
ghost use Rattle.dob_files.specs.Owed.{GivesOwed};

use dob_files::{Answer, ProgramFault, open};
use dob_moves::Move;
use dob_pieces::{Memory, Position};
use dob_probe::{ClassOrder, Puzzle, first_puzzles};
use dob_shelf::Shelf;
use dob_text::{write_move, write_position};
use dob_value::Table;
use dob_words::command::PuzzleSearch;
use std::alloc::Global;

/// The lines that give the first puzzles of the file's table that are looked for.
pub fn answer_puzzles<S: Shelf>(
    alloc: Global,
    shelf: &mut S,
    file: &str,
    search: PuzzleSearch,
) -> Answer
    ensures { GivesOwed (puzzles_owed file.now search) S.state shelf.old shelf.new result }
{
    if !is_puzzle_length(search.plies) {
        return Err(ProgramFault::PuzzlePlies);
    }
    let table = open(alloc, shelf, file)?;
    let walk = ClassOrder {
        seed: search.seed,
        after: search.from,
    };
    let puzzles = first_puzzles(alloc, &table, walk, search.plies, search.count)?;
    Ok(puzzle_lines(alloc, &table, search.is_numbered, &puzzles)?)
}

// Whether a puzzle may be won in `plies` plies.
fn is_puzzle_length(plies: u64) -> bool
    ensures { IsTrue result ↔ IsPuzzleLength plies }
{
    plies % 2 == 1 && plies >= 3
}

// The lines of the puzzles, or that there is none.
fn puzzle_lines(
    alloc: Global,
    table: &Table,
    is_numbered: bool,
    puzzles: &[Puzzle],
) -> Result<String, Memory>
    requires { (puzzle : Puzzle) → Contains puzzles.now puzzle → puzzle.class < length table.now.values }
    ensures { IfOk result (λ lines. string_bytes lines ≡ puzzle_lines table.now.family is_numbered puzzles.now) }
{
    if puzzles.is_empty() {
        Ok("none\n".to_string(alloc)?)
    } else {
        some_lines(alloc, table, is_numbered, puzzles)
    }
}

fn some_lines(
    alloc: Global,
    table: &Table,
    is_numbered: bool,
    puzzles: &[Puzzle],
) -> Result<String, Memory>
    requires { (puzzle : Puzzle) → Contains puzzles.now puzzle → puzzle.class < length table.now.values }
    ensures { IfOk result (λ lines. string_bytes lines ≡ flat_map (line_of_puzzle table.now.family is_numbered) puzzles.now) }
{
    let mut lines = String::new(alloc);
    for puzzle in puzzles {
        push_puzzle(alloc, &mut lines, table, is_numbered, *puzzle)?;
    }
    Ok(lines)
}

// Writes the line of the puzzle at the end.
fn push_puzzle(
    alloc: Global,
    lines: &mut String,
    table: &Table,
    is_numbered: bool,
    puzzle: Puzzle,
) -> Result<(), Memory>
    requires { puzzle.class < length table.now.values }
    ensures { OnOk result (string_bytes lines.new ≡ string_bytes lines.old ++ line_of_puzzle table.now.family is_numbered puzzle) }
{
    let position = table.classes().class_at(puzzle.class);
    let line = puzzle_text(alloc, &position, is_numbered, puzzle)?;
    lines.push_str(line.as_str())?;
    Ok(())
}

// The line of the puzzle with that position, behind the number of its class if it is numbered.
fn puzzle_text(
    alloc: Global,
    position: &Position,
    is_numbered: bool,
    puzzle: Puzzle,
) -> Result<String, Memory>
    ensures { IfOk result (λ line. string_bytes line ≡ puzzle_text is_numbered position.now.setup puzzle) }
{
    let line = puzzle_line(alloc, position, puzzle.played)?;
    if is_numbered {
        Ok(numbered_line(alloc, puzzle.class, line.as_str())?)
    } else {
        Ok(line)
    }
}

// The line behind a number and two spaces.
fn numbered_line(alloc: Global, number: u64, line: &str) -> Result<String, Memory>
    ensures { IfOk result (λ numbered. string_bytes numbered ≡ decimal number ++ (codes "  " ++ line.now)) }
{
    Ok(format!(in alloc; "{number}  {line}")?)
}

fn puzzle_line(alloc: Global, position: &Position, played: Move) -> Result<String, Memory>
    ensures { IfOk result (λ line. string_bytes line ≡ puzzle_line position.now.setup played) }
{
    let text = write_position(alloc, position)?;
    let told = write_move(alloc, played, false)?;
    joined_line(alloc, text.as_str(), told.as_str())
}

// Both texts on a line, with two spaces between them.
fn joined_line(alloc: Global, text: &str, played: &str) -> Result<String, Memory>
    ensures { IfOk result (λ line. string_bytes line ≡ text.now ++ (codes "  " ++ (played.now ++ line_feed ∷ []))) }
{
    Ok(format!(in alloc; "{text}  {played}\n")?)
}
