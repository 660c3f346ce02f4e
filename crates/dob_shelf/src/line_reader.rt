// The lines of a source, one after the other.
ghost use Rattle.std.specs.Prelude.{◌≡◌, ◌==◌, ◌≤◌, ◌<◌, ◌||◌, ◌++◌, List, ℕ, [], Some, false, true, IfOk, MatchResult, drop, length};
ghost use Rattle.std.specs.List.{list_any};
ghost use Rattle.dob_device.specs.Devices.{whole};
ghost use Rattle.dob_shelf.specs.Shelves.{TakesLine, TakesRead, is_failed};
ghost use Rattle.std.specs.Str.Lines.{strip_carriage_return};

use crate::input_lines::{line_feed_of, without_return};
use crate::shelf::ShelfFault;
use dob_device::{Failed, Source};
use std::alloc::{AllocError, Global};

/// How many bytes are asked for at once.
const ROOM: usize = 4096;

/// The lines of a source, which is read no further than they need: of what was read it keeps what no line had yet.
#[derive(Drop)]
pub struct LineReader<R> {
    source: R,
    read: Vec<u8>,
    // how many of these bytes lines had
    given: usize,
    ghost within: { given ≤ length read.items },
}

impl<R> LineReader<R> {
    /// The lines of that source, of which nothing was read.
    pub fn new(alloc: Global, source: R) -> LineReader<R>
        ensures source { result.source ≡ source }
        ensures none { drop result.given result.read.items ≡ [] }
    {
        LineReader {
            source,
            read: Vec::new(alloc),
            given: 0,
        }
    }

    /// Whether the next line was read whole, and doesn't have to be waited for.
    pub fn has_line(&self) -> bool
        ensures { result ≡ list_any (λ b. b == 10) (drop self.now.given self.now.read.items) }
    {
        self.left().contains(&b'\n')
    }

    // What was read and no line had.
    fn left(&self) -> &[u8]
        ensures { result.now ≡ drop self.now.given self.now.read.items }
    {
        &self.read[self.given..]
    }

    // Adds to the line what was read, up to the line feed that ends it. If there is one the line is whole, without its end.
    fn take_piece(&mut self, line: &mut Vec<u8>) -> Result<bool, AllocError>
        ensures taken { IfOk result (λ is_whole. TakesRead (drop self.old.given self.old.read.items) is_whole line.old.items line.new.items
            (drop self.new.given self.new.read.items)) }
        ensures source { self.new.source ≡ self.old.source }
    {
        let piece = self.left();
        match line_feed_of(piece) {
            Some(end) => {
                line.extend_from_slice(&piece[..end])?;
                strip_return(line);
                self.given += end + 1;
                Ok(true)
            }
            None => {
                line.extend_from_slice(piece)?;
                self.given = self.read.len();
                Ok(false)
            }
        }
    }
}

impl<R: Source> LineReader<R> {
    /// Puts the next line in place of what `line` held, without its end. `false` if there is none.
    ///
    /// # Errors
    ///
    /// The source failed; or memory for the line was refused.
    pub fn next_line(&mut self, line: &mut Vec<u8>) -> Result<bool, ShelfFault>
        ensures given { (rest : List ℕ) → R.gives self.old.source (whole rest) → MatchResult result
            (λ found. (left : List ℕ) × R.gives self.new.source (whole left)
            × TakesLine (drop self.old.given self.old.read.items ++ rest) found line.new.items (Some (drop self.new.given self.new.read.items ++ left)))
            (λ fault. fault ≡ ShelfFault.Memory) }
        ensures failed { R.has_failed self.new.source ≡ (R.has_failed self.old.source || is_failed result) }
    {
        line.clear();
        loop {
            if self.take_piece(line)? {
                return Ok(true);
            }
            if !self.read_on()? {
                return Ok(!line.is_empty());
            }
        }
    }

    // Reads on, in place of what was read before. Whether there is more.
    fn read_on(&mut self) -> Result<bool, ShelfFault>
        ensures given { (rest : List ℕ) → R.gives self.old.source (whole rest) → MatchResult result
            (λ is_more. (left : List ℕ) × R.gives self.new.source (whole left)
            × (rest ≡ drop self.new.given self.new.read.items ++ left) × (is_more ≡ false → rest ≡ []))
            (λ fault. fault ≡ ShelfFault.Memory) }
        ensures some { IfOk result (λ is_more. is_more ≡ true → 0 < length (drop self.new.given self.new.read.items)) }
        ensures failed { R.has_failed self.new.source ≡ (R.has_failed self.old.source || is_failed result) }
    {
        let mut room = [0; ROOM];
        let count = match self.source.read(&mut room) {
            Ok(count) => count,
            Err(Failed) => return Err(ShelfFault::Failed),
        };
        self.given = 0;
        self.read.clear();
        self.read.extend_from_slice(&room[..count])?;
        Ok(count > 0)
    }
}

// Takes the carriage return at the end of the line away, if it has one.
fn strip_return(line: &mut Vec<u8>)
    ensures { line.new.items ≡ strip_carriage_return line.old.items }
{
    let length = without_return(line).len();
    line.truncate(length);
}
