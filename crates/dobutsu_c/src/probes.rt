// The value of a position by the bytes of a database's file.
ghost use Rattle.dobutsu_c.specs.Probed.{IsExact};

use crate::answers::answer_text;
use crate::numbering::Numbering;
use crate::value::DobutsuValue;

/// The value that the bytes of a database's file give the position whose text that is. It answers 0 and writes the value, or
/// the number of the first fault that holds and writes nothing: 1 to 6 of the text; 15 to 19 and 27 of the file, by its header
/// and its length; 26 if the file's profile doesn't allow the position, 7 if the position isn't of the file's set. One
/// record is looked at, and no digest is read: damage elsewhere isn't seen. It takes no memory. By a file of the value table the
/// value is the position's own.
#[unsafe(no_mangle)]
#[tactic(auto, using(crate::proofs::Indexed::all_counted))]
pub extern "C" fn dobutsu_probe(file: &[u8], text: &[u8], answer: &mut DobutsuValue) -> u32
    ensures { IsExact file.now text.now answer.old answer.new result }
{
    answer_text(file, Numbering::Counted, text, answer)
}
