// The answer to a question of a position by a database file, by its table or by its header and the records that are needed, and how that is told.
ghost use Rattle.std.specs.Prelude.{◌≡◌, ◌||◌, false, IfErr, IfOk, string_bytes};
ghost use Rattle.dob_rank.specs.Families.{IsPositionOf};
ghost use Rattle.dob_device.specs.Devices.{Stream};
ghost use Rattle.dob_dbfile.specs.Faults.{fails};
ghost use Rattle.dob_distance.specs.Codes.{IsEntry};
ghost use Rattle.dob_probe.specs.Said.{AreSingle, fails as says_failed, is_failing};
ghost use Rattle.dob_shelf.specs.Shelves.{Leaving, SameFiles};
ghost use Rattle.dob_files.specs.Endings.{GivesLines};
ghost use Rattle.dob_files.specs.Owed.{GivesOwed};
ghost use Rattle.dob_files.specs.Faults.{is_io};
ghost use Rattle.dob_words.specs.declared.command.orders.By.TheVariants as way;
ghost use Rattle.dob_query.specs.Questions.{GivesSaid, GivesTold, IsAnswerBy, IsAnswerOf, IsAnswerTo, IsAskingFault, IsFaultOfAsking, IsFaultTo};
ghost use Rattle.dob_query.specs.Questions.{IsGapOfValue, IsRecordsFault, IsTableAnswer, IsTableFault, line_told, moves_told, question_owed, value_told};

use crate::records::Records;
use dob_classes::Classes;
use dob_dbfile::{Format, PlacedSource, read_classes};
use dob_files::{Answer, open, position_named};
use dob_lines::{
    best_move_line, line_object, line_of, move_lines, moves_lines, moves_object, played_drawing,
    value_object,
};
use dob_moves::{Move, PositionBoard};
use dob_pieces::{Memory, Position};
use dob_probe::{LookupFault, ValueSource, ValuedMove, check_member, line_by, moves_by};
use dob_shelf::Shelf;
use dob_value::{Table, Value};
use dob_words::command::{Asked, By, LineForm, MovesForm, Question, ValueForm};
use std::alloc::Global;

/// The lines that answer what the position is asked that the text names. The file is opened only if the text is a position's; by a wrong one a line may break
/// off.
pub fn answer_question<S: Shelf>(
    alloc: Global,
    shelf: &mut S,
    file: &str,
    asked: Asked,
    text: &str,
) -> Answer
    ensures { GivesOwed (question_owed asked file.now text.now) S.state shelf.old shelf.new result }
{
    let position = position_named(text)?;
    match asked.by {
        By::Table => answer_by_table(alloc, shelf, file, asked.question, &position),
        By::Records => answer_of(alloc, shelf, file, asked.question, &position),
    }
}

// The lines that answer the question of the position, by the table of the file.
fn answer_by_table<S: Shelf>(
    alloc: Global,
    shelf: &mut S,
    file: &str,
    question: Question,
    position: &Position,
) -> Answer
    ensures { Leaving SameFiles S.state shelf.old shelf.new (λ c.
        GivesLines c (IsAnswerTo way.Table question (c.before.has file.now) position.now.setup)
        (IsFaultTo way.Table question (c.before.has file.now) position.now.setup) result) }
{
    let table = open(alloc, shelf, file)?;
    answer_in_table(alloc, &table, question, position)
}

/// The same by a table.
pub(crate) fn answer_in_table(
    alloc: Global,
    table: &Table,
    question: Question,
    position: &Position,
) -> Answer
    ensures ok { IfOk result (λ lines. IsTableAnswer question table.now position.now.setup (string_bytes lines)) }
    ensures fault { IfErr result (IsTableFault question table.now position.now.setup) }
{
    check_member(table.family(), position)?;
    let mut nothing = ();
    Ok(told_by(
        alloc,
        table,
        &mut nothing,
        table.classes(),
        question,
        position,
    )?)
}

/// The same by the header of the file and the records that are needed.
pub(crate) fn answer_of<S: Shelf>(
    alloc: Global,
    shelf: &mut S,
    file: &str,
    question: Question,
    position: &Position,
) -> Answer
    ensures answered { Leaving SameFiles S.state shelf.old shelf.new (λ c.
        GivesLines c (IsAnswerBy question (c.before.has file.now) position.now.setup)
        (IsAskingFault question (c.before.has file.now) position.now.setup) result) }
    ensures told { (S.state shelf.new).tells ≡ (S.state shelf.old).tells }
{
    let mut source = shelf.find(file)?;
    let answer = ask(alloc, &mut source, question, position);
    shelf.close(source);
    answer
}

// The lines by a source that is new.
fn ask<R: PlacedSource>(
    alloc: Global,
    source: &mut R,
    question: Question,
    position: &Position,
) -> Answer
    requires { R.has_failed source.old ≡ false }
    ensures ok { (stream : Stream) → R.gives source.old stream → R.shows source.old stream
        → IfOk result (λ lines. IsAnswerOf question stream position.now.setup (string_bytes lines)) }
    ensures fault { IfErr result (IsFaultOfAsking question (λ stream. R.gives source.old stream × R.shows source.old stream) position.now.setup) }
    ensures failed { R.has_failed source.new ≡ fails is_io result }
{
    let (format, classes) = read_classes(alloc, source)?;
    check_member(classes.family, position)?;
    answer_by_records(alloc, source, format, &classes, question, position)
}

/// The lines by the records of a source in that format, of which the classes' family has the position.
pub(crate) fn answer_by_records<R: PlacedSource>(
    alloc: Global,
    source: &mut R,
    format: Format,
    classes: &Classes,
    question: Question,
    position: &Position,
) -> Answer
    requires { IsPositionOf classes.now.family position.now.setup }
    ensures told { GivesTold question (R.shows source.old) (R.shows source.new) (R.has_failed source.old) (R.has_failed source.new)
        format classes.now.family position.now.setup result }
    ensures fault { IfErr result (IsRecordsFault question (R.shows source.old) format classes.now.family position.now.setup) }
{
    let records = Records { format, classes };
    Ok(told_by(alloc, &records, source, classes, question, position)?)
}

// The lines that answer the question of a position of the family, by what says values.
fn told_by<S, V: ValueSource<S>>(
    alloc: Global,
    by: &V,
    source: &mut S,
    classes: &Classes,
    question: Question,
    position: &Position,
) -> Result<String, LookupFault<V::Fault>>
    requires stands { V.stands by.now }
    requires single { (held : V.Held) → AreSingle classes.now.family (V.says by.now held) }
    requires family { V.family_of by.now ≡ classes.now.family }
    requires member { IsPositionOf classes.now.family position.now.setup }
    ensures { GivesSaid question classes.now.family position.now.setup (V.holds source.old) (V.holds source.new) (V.says by.now) (V.lacks by.now)
        (V.has_failed source.old) (V.has_failed source.new) V.is_failure result }
{
    match question {
        Question::Value(form) => {
            let value = said_value(by, source, position)?;
            Ok(value_told(alloc, form, position, value)?)
        }
        Question::Moves(form) => {
            let legal = moves_by(alloc, by, source, classes.family, position)?;
            Ok(moves_told(alloc, form, position, &legal)?)
        }
        Question::Line(form) => {
            let value = said_value(by, source, position)?;
            let moves = line_by(alloc, by, source, classes, *position, value)?;
            Ok(line_told(alloc, form, position, value, &moves)?)
        }
    }
}

fn said_value<S, V: ValueSource<S>>(
    by: &V,
    source: &mut S,
    position: &Position,
) -> Result<Value, LookupFault<V::Fault>>
    requires stands { V.stands by.now }
    requires member { IsPositionOf (V.family_of by.now) position.now.setup }
    ensures said { (held : V.Held) → V.holds source.old held → IfOk result (V.says by.now held position.now.setup) }
    ensures entry { IfOk result IsEntry }
    ensures fault { (held : V.Held) → V.holds source.old held → IfErr result (IsGapOfValue (V.lacks by.now held) position.now.setup) }
    ensures held { (held : V.Held) → V.holds source.old held → V.holds source.new held }
    ensures failed { V.has_failed source.new ≡ (V.has_failed source.old || says_failed (is_failing V.is_failure) result) }
{
    match by.value_at(source, &PositionBoard::of(position)) {
        Ok(value) => Ok(value),
        Err(fault) => Err(LookupFault::NoValue(fault)),
    }
}

// The lines that tell that value of the position.
fn value_told(
    alloc: Global,
    form: ValueForm,
    position: &Position,
    value: Value,
) -> Result<String, Memory>
    ensures { IfOk result (λ lines. string_bytes lines ≡ value_told form position.now.setup value) }
{
    match form {
        ValueForm::Plain => line_of(alloc, value),
        ValueForm::Object => value_object(alloc, position, value),
    }
}

// The lines that tell these moves of the position.
fn moves_told(
    alloc: Global,
    form: MovesForm,
    position: &Position,
    legal: &[ValuedMove],
) -> Result<String, Memory>
    ensures { IfOk result (λ lines. string_bytes lines ≡ moves_told form position.now.setup legal.now) }
{
    match form {
        MovesForm::Plain => move_lines(alloc, legal),
        MovesForm::Best => best_move_line(alloc, legal),
        MovesForm::Object => moves_object(alloc, position, legal),
    }
}

// The lines that tell these moves, the line of a position of that value.
fn line_told(
    alloc: Global,
    form: LineForm,
    position: &Position,
    value: Value,
    moves: &[Move],
) -> Result<String, Memory>
    ensures { IfOk result (λ lines. string_bytes lines ≡ line_told form position.now.setup value moves.now) }
{
    match form {
        LineForm::Plain => moves_lines(alloc, false, value, moves),
        LineForm::Numbered => moves_lines(alloc, true, value, moves),
        LineForm::Object => line_object(alloc, position, value, moves),
        LineForm::Drawn => played_drawing(alloc, position, value, moves),
    }
}
