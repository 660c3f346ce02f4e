// The value of a position by the bytes of a database's file and the index of its family.
ghost use Rattle.dobutsu_c.specs.declared.numbering.Numbering.TheVariants.{Index};
ghost use Rattle.dobutsu_c.specs.Probed.{IsAnswer};

use crate::answers::answer_text;
use crate::numbering::Numbering;
use crate::value::DobutsuValue;

/// What `dobutsu_probe` answers of the position, by the index of the file's family as `dobutsu_index` wrote it: the same value, or the same fault. By any other
/// numbers it answers 0 and writes the value of some record of the file, or a fault and writes nothing: one that `dobutsu_probe` may answer, or 29 if they
/// aren't marked as an index of the file's family, are fewer than it has, or lead outside of the file. Nothing is read outside of them. It takes no memory.
#[unsafe(no_mangle)]
pub extern "C" fn dobutsu_probe_by(
    file: &[u8],
    index: &[u64],
    text: &[u8],
    answer: &mut DobutsuValue,
) -> u32
    ensures { IsAnswer file.now (Index index.entry) text.now answer.old answer.new result }
{
    answer_text(file, Numbering::Index(index), text, answer)
}
