// The answers to the lines of standard input by a database file, whose table or header is read before the first line.
ghost use Rattle.std.specs.Prelude.{◌≡◌, ◌⊎◌, ◌||◌, Err, false, true, IfErr, IfOk, string_bytes};
ghost use Rattle.dob_device.specs.Devices.{Stream};
ghost use Rattle.dob_dbfile.specs.Faults.{fails};
ghost use Rattle.dob_device.specs.Sinks.{change};
ghost use Rattle.dob_files.specs.Faults.{is_io};
ghost use Rattle.dob_files.specs.declared.fault.ProgramFault.TheVariants.{Memory as OutOfMemory};
ghost use Rattle.dob_query.specs.QuestionsEach.{AnswersLine, AreEachLines, EndsRecords, GivesLine, IsEachFault, IsKept, IsRecordAnswer, IsRecordEnd, IsTableLine, IsToldOf, TellsRecords};
ghost use Rattle.dob_query.specs.QuestionsEach.{bytes_of, end_of, ended_lines, ends_all, fault_object};
ghost use Rattle.dob_query.specs.Questions.{IsTableAnswer};
ghost use Rattle.dob_files.specs.Telling.{TellsEach, TellsOver, told_of};
ghost use Rattle.dob_shelf.specs.Shelves.{Leaving, SameFiles};
ghost use Rattle.dob_words.specs.declared.command.orders.By.TheVariants as way;

use crate::questions::{answer_by_records, answer_in_table};
use dob_classes::Classes;
use dob_dbfile::{Format, PlacedSource, Sink, read_classes};
use dob_files::{Answer, Answerer, LineAnswers, ProgramFault, open, position_in_line, tell_each};
use dob_pieces::Memory;
use dob_probe::check_member;
use dob_shelf::Shelf;
use dob_value::Table;
use dob_words::command::{Asked, By, LineForm, MovesForm, Question, ValueForm};
use std::alloc::Global;

/// Tells the answer to what the position of each line of standard input is asked, and whether one of them was refused. The file's table is read before the first
/// line; or its header, and of each line the records that it needs. An empty line stands behind each answer where one may have more lines than one.
pub fn answer_question_each<S: Shelf, O: Sink>(
    alloc: Global,
    shelf: &mut S,
    out: &mut O,
    file: &str,
    asked: Asked,
) -> Result<bool, ProgramFault>
    ensures { Leaving SameFiles S.state shelf.old shelf.new (λ c. TellsOver c
        (AreEachLines asked.by asked.question (c.before.has file.now)) (IsEachFault asked.by c file.now) (change (O.state out.old) (O.state out.new)) result) }
{
    match asked.by {
        By::Table => tell_by_table(alloc, shelf, out, file, asked.question),
        By::Records => tell_by_records(alloc, shelf, out, file, asked.question),
    }
}

// The same by the table of the file.
fn tell_by_table<S: Shelf, O: Sink>(
    alloc: Global,
    shelf: &mut S,
    out: &mut O,
    file: &str,
    question: Question,
) -> Result<bool, ProgramFault>
    ensures { Leaving SameFiles S.state shelf.old shelf.new (λ c. TellsOver c
        (AreEachLines way.Table question (c.before.has file.now)) (IsEachFault way.Table c file.now) (change (O.state out.old) (O.state out.new)) result) }
{
    let table = open(alloc, shelf, file)?;
    tell_each(alloc, &mut ByTable { table, question }, shelf, out)
}

// What answers lines by a table.
#[derive(Drop)]
struct ByTable {
    table: Table,
    question: Question,
}

impl Answerer for ByTable {
    ghost answers = { λ by. IsToldOf by.question (IsTableLine (AnswersLine (IsTableAnswer by.question by.table)) by.question by.table) };

    ghost ends = { λ _ fault. fault ≡ OutOfMemory };

    ghost has_failed = { λ _. false };

    fn answer(&mut self, alloc: Global, line: &[u8]) -> Result<LineAnswers, ProgramFault> {
        let answer = line_in_table(alloc, &self.table, self.question, line);
        told_line(alloc, answer, self.question)
    }
}

// The table's answer to the question of the line's position, or why there is none.
fn line_in_table(alloc: Global, table: &Table, question: Question, line: &[u8]) -> Answer
    ensures { GivesLine (IsTableLine (AnswersLine (IsTableAnswer question table.now)) question table.now line.now) result }
{
    let position = position_in_line(line)?;
    answer_in_table(alloc, table, question, &position)
}

// The same by the records of the file that each line needs, whatever the file's size. The classes of its family are opened once.
fn tell_by_records<S: Shelf, O: Sink>(
    alloc: Global,
    shelf: &mut S,
    out: &mut O,
    file: &str,
    question: Question,
) -> Result<bool, ProgramFault>
    ensures { Leaving SameFiles S.state shelf.old shelf.new (λ c. TellsOver c
        (AreEachLines way.Records question (c.before.has file.now)) (IsEachFault way.Records c file.now) (change (O.state out.old) (O.state out.new)) result) }
{
    let source = shelf.find(file)?;
    let (source, told) = told_by(alloc, shelf, out, source, question);
    shelf.close(source);
    told
}

// Answers each line by the records of a source that was just opened, and gives the source back.
fn told_by<S: Shelf, O: Sink>(
    alloc: Global,
    shelf: &mut S,
    out: &mut O,
    mut source: S::Src,
    question: Question,
) -> (S::Src, Result<bool, ProgramFault>)
    requires { S.Src.has_failed source ≡ false }
    ensures told { TellsEach (S.state shelf.old).input (S.state shelf.new).input (TellsRecords question (S.Src.gives source) (S.Src.shows source))
        (λ fault. EndsRecords (S.Src.gives source) (S.Src.shows source) (S.state shelf.old).input fault
        × (((S.state shelf.new).has_failed || S.Src.has_failed result.0) ≡ ((S.state shelf.old).has_failed || is_io fault)))
        (((S.state shelf.new).has_failed || S.Src.has_failed result.0) ≡ ((S.state shelf.old).has_failed || false))
        (change (O.state out.old) (O.state out.new)) result.1 }
    ensures files { SameFiles (S.state shelf.old).has (S.state shelf.new).has }
{
    match read_classes(alloc, &mut source) {
        Ok((format, classes)) => {
            let mut by = ByRecords {
                source,
                format,
                classes,
                question,
            };
            let told = tell_each(alloc, &mut by, shelf, out);
            let ByRecords {
                source,
                format: _format,
                classes: _classes,
                question: _question,
            } = by;
            (source, told)
        }
        Err(fault) => (source, Err(ProgramFault::File(fault))),
    }
}

// What answers lines by the records of a source whose header was read.
struct ByRecords<R> {
    source: R,
    format: Format,
    classes: Classes,
    question: Question,
}

impl<R: PlacedSource> Answerer for ByRecords<R> {
    ghost answers = { λ by. IsToldOf by.question (IsRecordAnswer by.question (R.shows by.source) by.format by.classes.family) };

    ghost ends = { λ by. IsRecordEnd (R.shows by.source) };

    ghost has_failed = { λ by. R.has_failed by.source };

    fn answer(&mut self, alloc: Global, line: &[u8]) -> Result<LineAnswers, ProgramFault> {
        let answer = line_by_records(
            alloc,
            &mut self.source,
            self.format,
            &self.classes,
            self.question,
            line,
        );
        told_line(alloc, answer, self.question)
    }
}

// The records' answer to the question of the line's position, or why there is none.
fn line_by_records<R: PlacedSource>(
    alloc: Global,
    source: &mut R,
    format: Format,
    classes: &Classes,
    question: Question,
    line: &[u8],
) -> Answer
    ensures answer { GivesLine (IsRecordAnswer question (R.shows source.old) format classes.now.family line.now) result }
    ensures shown { (stream : Stream) → R.shows source.old stream → R.shows source.new stream }
    ensures failed { R.has_failed source.new ≡ (R.has_failed source.old || fails is_io result) }
{
    let position = position_in_line(line)?;
    check_member(classes.family, &position)?;
    answer_by_records(alloc, source, format, classes, question, &position)
}

// What is told of a line for that answer, but where it is a fault that ends all.
fn told_line(alloc: Global, answer: Answer, question: Question) -> Result<LineAnswers, ProgramFault>
    ensures told { IfOk result (λ told. IsKept question answer (told_of told)) }
    ensures ended { IfErr result (λ fault. (fault ≡ OutOfMemory) ⊎ ((answer ≡ Err fault) × (ends_all fault ≡ true))) }
    ensures failed { fails is_io result ≡ fails is_io answer }
{
    match answer {
        Err(fault) if ends_all(fault) => Err(fault),
        answer => {
            let is_refused = answer.is_err();
            let lines = ended_lines(alloc, answer, question)?;
            Ok(LineAnswers { lines, is_refused })
        }
    }
}

fn ends_all(fault: ProgramFault) -> bool
    ensures { result ≡ ends_all fault }
{
    match fault {
        ProgramFault::Memory => true,
        fault => fault.is_io(),
    }
}

// What stands behind each answer.
fn end_of(question: Question) -> &'static str
    ensures { result.now ≡ (end_of question).0 }
{
    match question {
        Question::Moves(MovesForm::Plain) | Question::Line(LineForm::Numbered) => "\n",
        _ => "",
    }
}

// The lines of the answer, and that end.
fn ended_lines(alloc: Global, answer: Answer, question: Question) -> Result<String, Memory>
    ensures { IfOk result (λ lines. string_bytes lines ≡ ended_lines (end_of question) (bytes_of answer)) }
{
    match answer {
        Ok(mut lines) => {
            lines.push_str(end_of(question))?;
            Ok(lines)
        }
        Err(fault) => fault_lines(alloc, fault, question),
    }
}

fn fault_lines(alloc: Global, fault: ProgramFault, question: Question) -> Result<String, Memory>
    ensures { IfOk result (λ lines. string_bytes lines ≡ (end_of question).1 fault) }
{
    match question {
        Question::Value(ValueForm::Object)
        | Question::Moves(MovesForm::Object)
        | Question::Line(LineForm::Object) => fault_object(alloc, fault),
        Question::Moves(MovesForm::Plain) | Question::Line(LineForm::Numbered) => {
            Ok(format!(in alloc; "{fault}\n\n")?)
        }
        _ => Ok(format!(in alloc; "{fault}\n")?),
    }
}

fn fault_object(alloc: Global, fault: ProgramFault) -> Result<String, Memory>
    ensures { IfOk result (λ line. string_bytes line ≡ fault_object fault) }
{
    Ok(format!(in alloc; "{{\"fault\":\"{fault}\"}}\n")?)
}
