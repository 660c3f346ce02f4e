// A position drawn for a reader who is new to the game, by a database file with its value and its line, and as a picture.
ghost use Rattle.std.specs.Prelude.{◌≡◌, string_bytes};
ghost use Rattle.dob_files.specs.Endings.{GivesOver};
ghost use Rattle.dob_files.specs.Owed.{GivesOwed};
ghost use Rattle.dob_words.specs.Readings.{text_given};
ghost use Rattle.dob_shelf.specs.Shelves.{Leaving, SameFiles, SameOthers};
ghost use Rattle.dob_query.specs.Shows.{AreDrawn, IsDrawingFault, KeepsPicture, show_owed};

use crate::questions::answer_of;
use dob_files::{Answer, fill, keep_filled, position_named};
use dob_pieces::Position;
use dob_shelf::Shelf;
use dob_text::{draw_position, picture_position};
use dob_words::command::{LineForm, Question};
use std::alloc::Global;

/// The lines that draw the position that the text names. Where a database file is named they give its value and its line too,
/// and where a file is named for the picture, it has it afterwards: it is made when the lines are there, and kept when it is whole.
pub fn answer_show<S: Shelf>(
    alloc: Global,
    shelf: &mut S,
    file: Option<&str>,
    picture: Option<&str>,
    text: &str,
) -> Answer
    ensures { GivesOwed (show_owed (text_given file.entry) (text_given picture.entry) text.now) S.state shelf.old shelf.new result }
{
    let position = position_named(text)?;
    let lines = drawn_lines(alloc, shelf, file, &position)?;
    match picture {
        None => Ok(lines),
        Some(name) => keep_picture(alloc, shelf, name, &position, lines),
    }
}

// The lines that draw the position, by the database file if one is named.
fn drawn_lines<S: Shelf>(
    alloc: Global,
    shelf: &mut S,
    file: Option<&str>,
    position: &Position,
) -> Answer
    ensures answered { Leaving SameFiles S.state shelf.old shelf.new (λ c.
        GivesOver c (λ lines. AreDrawn c.before.has (text_given file.entry) position.now.setup (string_bytes lines))
        (IsDrawingFault c.before.has (text_given file.entry) position.now.setup) result) }
    ensures told { (S.state shelf.new).tells ≡ (S.state shelf.old).tells }
{
    match file {
        None => Ok(draw_position(alloc, position)?),
        Some(file) => answer_of(
            alloc,
            shelf,
            file,
            Question::Line(LineForm::Drawn),
            position,
        ),
    }
}

// Keeps the position's picture under the name, and gives back the lines that go with it.
fn keep_picture<S: Shelf>(
    alloc: Global,
    shelf: &mut S,
    name: &str,
    position: &Position,
    lines: String,
) -> Answer
    ensures { Leaving (SameOthers name.now) S.state shelf.old shelf.new (KeepsPicture name.now position.now.setup (string_bytes lines) result) }
{
    let picture = picture_position(alloc, position)?;
    let mut sink = shelf.make(name)?;
    let filled = fill(&mut sink, picture.as_bytes(), lines);
    keep_filled(shelf, name, sink, filled)
}
