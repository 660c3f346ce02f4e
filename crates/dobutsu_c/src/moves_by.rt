// The moves of a position with their values by the bytes of a database's file and the index of its family, best first.
ghost use Rattle.std.specs.Prelude.{◌≡◌, ◌≢◌, false, IfErr, MatchResult};
ghost use Rattle.dobutsu_c.specs.declared.numbering.Numbering.TheVariants.{Index};
ghost use Rattle.dobutsu_c.specs.declared.by_index.ByFault.TheVariants as by_fault;
ghost use Rattle.dobutsu_c.specs.ByIndex.{IsRight, IsHeldBy, IsGivenBy};
ghost use Rattle.dobutsu_c.specs.Moves.{AreAnsweredMoves, AreToldMovesBy, IsMovesFault, gap_number};

use crate::by_index::{ByFault, HeldBy, ask_by, value_by};
use crate::moves::{DobutsuMove, write_moves};
use crate::numbering::Numbering;
use crate::numbers::{INCONSISTENT, MEMORY};
use dob_moves::PositionBoard;
use dob_probe::{LookupFault, ValueSource, ValuedMove, moves_by};
use dob_value::Value;
use std::alloc::Global;

/// What `dobutsu_moves` gives of the position, by the index of the file's family as `dobutsu_index` wrote it: the same moves with the same values, by a file of
/// the value table their own, or the same fault. By any other numbers it answers 0 and writes all moves of the position by the values of some records of the
/// file, or a fault and writes nothing: as `dobutsu_probe_by` does, or 23 if memory runs out: it takes some thousand bytes and gives all back. Nothing
/// is read outside of the numbers.
#[unsafe(no_mangle)]
pub extern "C" fn dobutsu_moves_by(
    alloc: Global,
    file: &[u8],
    index: &[u64],
    text: &[u8],
    moves: &mut [DobutsuMove],
    count: &mut u64,
) -> u32
    ensures answer { AreAnsweredMoves file.now (Index index.entry) text.now moves.old moves.new count.new result }
    ensures unchanged { result ≢ 0 → (moves.new ≡ moves.old) × (count.new ≡ count.old) }
{
    answer_moves(alloc, file, Numbering::Index(index), text, moves, count)
}

/// Answers the moves of the position whose text that is.
pub(crate) fn answer_moves(
    alloc: Global,
    file: &[u8],
    by: Numbering,
    text: &[u8],
    moves: &mut [DobutsuMove],
    count: &mut u64,
) -> u32
    ensures answer { AreAnsweredMoves file.now by.entry text.now moves.old moves.new count.new result }
    ensures unchanged { result ≢ 0 → (moves.new ≡ moves.old) × (count.new ≡ count.old) }
{
    match told_moves(alloc, file, by, text) {
        Ok(list) => {
            write_moves(moves, &list);
            *count = list.len() as u64;
            0
        }
        Err(fault) => fault,
    }
}

// The moves of the position whose text that is, with their values, or the number of the first fault.
fn told_moves(
    alloc: Global,
    file: &[u8],
    by: Numbering,
    text: &[u8],
) -> Result<Vec<ValuedMove>, u32>
    ensures told { MatchResult result (λ list. AreToldMovesBy file.now text.now by.entry list.items) (IsMovesFault file.now text.now by.entry) }
    ensures positive { IfErr result (λ number. number ≢ 0) }
{
    let asked = match ask_by(file, by, text) {
        Ok(asked) => asked,
        Err(fault) => return Err(fault.number()),
    };
    let bytes = Bytes {
        file,
        by,
        held: asked.held,
    };
    let mut nothing = ();
    match moves_by(
        alloc,
        &bytes,
        &mut nothing,
        asked.held.family,
        &asked.position,
    ) {
        Ok(list) => Ok(list),
        Err(gap) => Err(number_of(gap)),
    }
}

fn number_of(gap: LookupFault<ByFault>) -> u32
    ensures number { result ≡ gap_number gap }
    ensures positive { result ≢ 0 }
{
    match gap {
        LookupFault::NoValue(fault) => fault.number(),
        LookupFault::Inconsistent(_class) => INCONSISTENT,
        LookupFault::Memory => MEMORY,
    }
}

// The bytes of a file, and by what the numbers of its family's classes are found.
#[derive(Clone, Copy)]
struct Bytes<'a> {
    file: &'a [u8],
    by: Numbering<'a>,
    held: HeldBy,
}

impl ValueSource<()> for Bytes<'_> {
    type Fault = ByFault;

    ghost Held = { Unit {0} };

    ghost holds = { λ _ _. Unit {0} };

    ghost stands = { λ bytes. IsHeldBy bytes.file.now bytes.by bytes.held.format bytes.held.family bytes.held.classes };

    ghost family_of = { λ bytes. bytes.held.family };

    ghost says = { λ bytes _ position value.
        IsGivenBy bytes.file.now bytes.by bytes.held.format bytes.held.family bytes.held.classes position value };

    ghost lacks = { λ bytes _ _ fault. (fault ≡ by_fault.Index) × ¬ IsRight bytes.by bytes.held.family };

    ghost has_failed = { λ _. false };

    ghost is_failure = { λ _. false };

    fn value_at(&self, _source: &mut (), position: &PositionBoard) -> Result<Value, ByFault> {
        match value_by(self.file, self.by, self.held, &position.position()) {
            Some(value) => Ok(value),
            None => Err(ByFault::Index),
        }
    }
}
