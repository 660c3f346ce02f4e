// The lines of standard input and what they come to: each is answered and told before the next one is waited for.
ghost use Rattle.std.specs.Prelude.{◌≡◌, ◌⊎◌, ◌<◌, ◌||◌, ◌++◌, ℕ, List, [], Bool, false, IfErr, IfOk, OnErr, OnOk, length, string_bytes};
ghost use Rattle.dob_dbfile.specs.Faults.{fails};
ghost use Rattle.dob_device.specs.Sinks.{Stops, change};
ghost use Rattle.dob_files.specs.declared.fault.ProgramFault.{ProgramFault as TheFault};
ghost use Rattle.dob_files.specs.declared.fault.ProgramFault.TheVariants.{Io};
ghost use Rattle.dob_files.specs.Faults.{is_io};
ghost use Rattle.dob_files.specs.Telling.{EndsLines, HearsLine, PutsText, TakesOne, TellsEach, TellsOf, Told, most_held, told_of};
ghost use Rattle.dob_shelf.specs.Shelves.{SameFiles};

use crate::fault::ProgramFault;
use dob_dbfile::{FailedAfter, Sink, put_all};
use dob_pieces::Memory;
use dob_shelf::Shelf;
use std::alloc::Global;

/// Fewer bytes of answers than this are held while a line is heard.
const MOST_HELD: usize = 65536;

/// What answers lines, each by itself.
pub trait Answerer {
    // By `answers self line told` this is told of the line.
    ghost answers: { Self → List ℕ → Told → Type 0 };

    // By `ends self fault` a line can come to this fault, which ends all.
    ghost ends: { Self → TheFault → Type 0 };

    // Whether a device that it reads has failed.
    ghost has_failed: { Self → Bool };

    /// The lines that answer a line of standard input.
    ///
    /// # Errors
    ///
    /// A fault that ends all.
    fn answer(&mut self, alloc: Global, line: &[u8]) -> Result<LineAnswers, ProgramFault>
        ensures told { IfOk result (λ told. answers self.old line.now (told_of told)) }
        ensures ended { IfErr result (ends self.old) }
        ensures before { (line : List ℕ) (told : Told) → answers self.new line told → answers self.old line told }
        ensures ending { (fault : TheFault) → ends self.new fault → ends self.old fault }
        ensures failed { has_failed self.new ≡ (has_failed self.old || fails is_io result) };
}

/// What is told of some lines, and whether one of them, or of those before, was refused.
#[derive(Drop)]
pub struct LineAnswers {
    pub lines: String,
    pub is_refused: bool,
}

impl LineAnswers {
    // No lines, of a line that isn't refused.
    fn none(alloc: Global) -> LineAnswers
        ensures lines { string_bytes result.lines ≡ [] }
        ensures refused { result.is_refused ≡ false }
    {
        LineAnswers {
            lines: String::new(alloc),
            is_refused: false,
        }
    }

    // Adds what is told of a line behind that. Without memory it stays as it is.
    fn add(&mut self, more: &LineAnswers) -> Result<(), Memory>
        ensures lines { OnOk result (string_bytes self.new.lines ≡ string_bytes self.old.lines ++ string_bytes more.now.lines) }
        ensures refused { OnOk result (self.new.is_refused ≡ (self.old.is_refused || more.now.is_refused)) }
        ensures unchanged { OnErr result (told_of self.new ≡ told_of self.old) }
    {
        self.lines.push_str(more.lines.as_str())?;
        self.is_refused |= more.is_refused;
        Ok(())
    }

    // Tells it, and holds nothing from then on.
    fn tell<O: Sink>(&mut self, out: &mut O) -> Result<(), ProgramFault>
        ensures done { OnOk result (PutsText (change (O.state out.old) (O.state out.new)) (string_bytes self.old.lines)) }
        ensures part { IfErr result (λ fault. (fault ≡ Io) × Stops (change (O.state out.old) (O.state out.new)) (string_bytes self.old.lines)) }
        ensures none { string_bytes self.new.lines ≡ [] }
        ensures refused { self.new.is_refused ≡ self.old.is_refused }
    {
        if self.lines.is_empty() {
            return Ok(());
        }
        let told = put_all(out, self.lines.as_bytes());
        self.lines.clear();
        match told {
            Ok(()) => Ok(()),
            Err(FailedAfter { .. }) => Err(ProgramFault::Io),
        }
    }

    // Tells it where the next line isn't at hand, or where it is much.
    fn tell_ahead<O: Sink>(&mut self, is_at_hand: bool, out: &mut O) -> Result<(), ProgramFault>
        ensures done { OnOk result ((told : List ℕ) × PutsText (change (O.state out.old) (O.state out.new)) told
            × (string_bytes self.old.lines ≡ told ++ string_bytes self.new.lines)) }
        ensures part { IfErr result (λ fault. (fault ≡ Io) × Stops (change (O.state out.old) (O.state out.new)) (string_bytes self.old.lines)) }
        ensures refused { self.new.is_refused ≡ self.old.is_refused }
        ensures few { OnOk result (length (string_bytes self.new.lines) < most_held) }
        ensures waits { OnOk result (is_at_hand ≡ false → string_bytes self.new.lines ≡ []) }
    {
        if is_at_hand && self.lines.len() < MOST_HELD {
            return Ok(());
        }
        self.tell(out)
    }
}

/// Tells what each line of standard input comes to. The answer is whether one of them was refused. Each line is answered before the next one is
/// waited for.
pub fn tell_each<T: Answerer, S: Shelf, O: Sink>(
    alloc: Global,
    by: &mut T,
    shelf: &mut S,
    out: &mut O,
) -> Result<bool, ProgramFault>
    requires { T.has_failed by.old ≡ false }
    ensures told { TellsEach (S.state shelf.old).input (S.state shelf.new).input (TellsOf (T.answers by.old))
        (λ fault. EndsLines (T.ends by.old) (S.state shelf.old).input fault
        × (((S.state shelf.new).has_failed || T.has_failed by.new) ≡ ((S.state shelf.old).has_failed || is_io fault)))
        (((S.state shelf.new).has_failed || T.has_failed by.new) ≡ ((S.state shelf.old).has_failed || false))
        (change (O.state out.old) (O.state out.new)) result }
    ensures files { SameFiles (S.state shelf.old).has (S.state shelf.new).has }
{
    let mut line = Vec::new(alloc);
    let mut held = LineAnswers::none(alloc);
    // No input has so many lines.
    for _ in 0..u64::MAX {
        held.tell_ahead(shelf.has_line(), out)?;
        match hear_next(alloc, by, shelf, &mut line, &mut held) {
            Ok(true) => {}
            Ok(false) => {
                held.tell(out)?;
                return Ok(held.is_refused);
            }
            Err(fault) => {
                let _told = held.tell(out);
                return Err(fault);
            }
        }
    }
    let _told = held.tell(out);
    Err(ProgramFault::Memory)
}

// Answers the next line, behind what is held, which is little, and nothing where that line has to be waited for. `false` if there is none.
fn hear_next<T: Answerer, S: Shelf>(
    alloc: Global,
    by: &mut T,
    shelf: &mut S,
    line: &mut Vec<u8>,
    held: &mut LineAnswers,
) -> Result<bool, ProgramFault>
    requires few { length (string_bytes held.old.lines) < most_held }
    requires waits { (S.state shelf.old).has_line ≡ false → string_bytes held.old.lines ≡ [] }
    ensures heard { IfOk result (HearsLine (T.answers by.old) (S.state shelf.old).input (S.state shelf.new).input (told_of held.old) (told_of held.new)) }
    ensures ended { IfErr result (EndsLines (T.ends by.old) (S.state shelf.old).input) }
    ensures taken { IfErr result (λ fault. (fault ≡ ProgramFault.Memory) ⊎ TakesOne (S.state shelf.old).input (S.state shelf.new).input) }
    ensures held { OnErr result (told_of held.new ≡ told_of held.old) }
    ensures before { (line : List ℕ) (told : Told) → T.answers by.new line told → T.answers by.old line told }
    ensures ending { (fault : TheFault) → T.ends by.new fault → T.ends by.old fault }
    ensures files { SameFiles (S.state shelf.old).has (S.state shelf.new).has }
    ensures failed { ((S.state shelf.new).has_failed || T.has_failed by.new)
        ≡ (((S.state shelf.old).has_failed || T.has_failed by.old) || fails is_io result) }
{
    if !shelf.next_line(line)? {
        return Ok(false);
    }
    let answer = by.answer(alloc, line)?;
    held.add(&answer)?;
    Ok(true)
}
