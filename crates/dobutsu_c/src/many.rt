// The values of many positions by one call.
ghost use Rattle.std.specs.Prelude.{◌≡◌, ◌-◌, min, length, take, drop};
ghost use Rattle.dobutsu_c.specs.Many.{IsAnswerOf, AreAnswers, IsAnswerAt, AreAnswersAt};
ghost use Rattle.dobutsu_c.specs.declared.numbering.Numbering.TheVariants.{Index};

use crate::answers::{answer_position, answer_text};
use crate::numbering::Numbering;
use crate::positions::{DobutsuPosition, position_of};
use crate::value::DobutsuValue;

/// The answer of one position: a fault's number or 0, and where it is 0 the value.
#[repr(C)]
#[derive(Clone, Copy)]
pub struct DobutsuAnswer {
    pub fault: u32,
    pub value: DobutsuValue,
}

/// What `dobutsu_probe_by` answers of each of many texts, which stand in one row of bytes: `ends` says where each ends, and the next begins there. A text that
/// would begin or end behind the bytes is as long as they are, and one that would end before it begins is empty. For each text it writes the number that
/// `dobutsu_probe_by` answers, and where that is 0 the value; where it isn't the value is left as it was. It answers how many places of `answers` it has
/// written, the less of how many there are and how many texts; the others are left as they were. It takes no memory.
#[unsafe(no_mangle)]
pub extern "C" fn dobutsu_probe_many(
    file: &[u8],
    index: &[u64],
    texts: &[u8],
    ends: &[u64],
    answers: &mut [DobutsuAnswer],
) -> u64
    ensures answers { AreAnswers file.now (Index index.entry) texts.now ends.now answers.old answers.new }
    ensures count { result ≡ min (length ends.now) (length answers.old) }
{
    let by = Numbering::Index(index);
    let count = ends.len().min(answers.len());
    let mut start = 0;
    for place in 0..count {
        let end = ends[place];
        answers[place] = answer_by(file, by, text_between(texts, start, end), answers[place]);
        start = end;
    }
    count as u64
}

/// The same of positions by their numbers: for each it writes what `dobutsu_probe_by` answers of its text, or 2 or 4 to 6 as `dobutsu_write` does where the
/// numbers are no position.
#[unsafe(no_mangle)]
pub extern "C" fn dobutsu_probe_positions(
    file: &[u8],
    index: &[u64],
    positions: &[DobutsuPosition],
    answers: &mut [DobutsuAnswer],
) -> u64
    ensures answers { AreAnswersAt file.now (Index index.entry) positions.now answers.old answers.new }
    ensures count { result ≡ min (length positions.now) (length answers.old) }
{
    let by = Numbering::Index(index);
    let count = positions.len().min(answers.len());
    for place in 0..count {
        answers[place] = answer_at(file, by, &positions[place], answers[place]);
    }
    count as u64
}

// The bytes between two places, as far as there are any.
fn text_between(texts: &[u8], start: u64, end: u64) -> &[u8]
    ensures { result.now ≡ take (end - start) (drop start texts.now) }
{
    let size = texts.len();
    let end = size.min(end as usize);
    let start = end.min(start as usize);
    &texts[start..end]
}

// The answer of a text; a fault keeps the value.
fn answer_by(file: &[u8], by: Numbering, text: &[u8], old: DobutsuAnswer) -> DobutsuAnswer
    ensures { IsAnswerOf file.now by.entry text.now old result }
{
    let mut value = old.value;
    let fault = answer_text(file, by, text, &mut value);
    DobutsuAnswer { fault, value }
}

// The answer of a position's numbers; a fault keeps the value.
fn answer_at(
    file: &[u8],
    by: Numbering,
    numbers: &DobutsuPosition,
    old: DobutsuAnswer,
) -> DobutsuAnswer
    ensures { IsAnswerAt file.now by.entry numbers.now old result }
{
    match position_of(numbers) {
        Ok(position) => {
            let mut value = old.value;
            let fault = answer_position(file, by, position, &mut value);
            DobutsuAnswer { fault, value }
        }
        Err(fault) => DobutsuAnswer {
            fault: fault.number(),
            value: old.value,
        },
    }
}
