// Where the program finds and keeps database files.
ghost use Rattle.std.specs.Prelude.{◌≡◌, ◌==◌, ◌||◌, ℕ, List, [], None, Some, false, true, IfErr, IfOk, MatchResult, OnErr, OnOk, IsTrue, length, not, string_bytes};
ghost use Rattle.dob_device.specs.Devices.{whole};
ghost use Rattle.dob_shelf.specs.Shelves.{HasJust, SameFiles, SameOthers, ShelfState, TakesLine, bytes_in, is_failed};

use crate::input_lines::first_line;
use dob_device::{MemSink, MemSource, PlacedSource, Sink, Source};
use std::alloc::{AllocError, Global};
use std::collections::BTreeMap;
use std::io;

/// Why a shelf opens or makes no file. The files keep their bytes then.
#[derive(Clone, Copy, PartialEq, Eq)]
pub enum ShelfFault {
    /// A growth was refused, since no memory was left for it.
    Memory,
    /// The file isn't there or can't be opened, or it can't be made.
    Failed,
}

impl From<AllocError> for ShelfFault {
    ghost use Rattle.dob_shelf.specs.declared.shelf.ShelfFault.TheVariants as shelf_fault;

    ghost from_gives = { λ _ result. result ≡ shelf_fault.Memory };

    fn from(_lower: AllocError) -> ShelfFault {
        ShelfFault::Memory
    }
}

impl From<io::Error> for ShelfFault {
    ghost use Rattle.std.specs.Prelude.{◌≢◌};
    ghost use Rattle.std.specs.IoError.{error_kind};
    ghost use Rattle.std.specs.declared.io.ErrorKind.TheVariants.{OutOfMemory};
    ghost use Rattle.dob_shelf.specs.declared.shelf.ShelfFault.TheVariants as shelf_fault;

    ghost from_gives = { λ error result. (error_kind error ≡ OutOfMemory → result ≡ shelf_fault.Memory)
        × (error_kind error ≢ OutOfMemory → result ≡ shelf_fault.Failed) };

    fn from(error: io::Error) -> ShelfFault {
        match error.kind() {
            io::ErrorKind::OutOfMemory => ShelfFault::Memory,
            _ => ShelfFault::Failed,
        }
    }
}

/// Whether it failed, for another cause than lack of memory.
pub(crate) fn is_failed<X>(answer: &Result<X, ShelfFault>) -> bool
    ensures { result ≡ is_failed answer.now }
{
    matches!(answer, Err(ShelfFault::Failed))
}

/// Files by name, and standard input.
pub trait Shelf {
    /// What the bytes of a file are read from. It can't be let go, only given back (`close`), so that the shelf notes each failure.
    type Src: PlacedSource;

    /// What the bytes of a new file are written to. It is given back too, by `keep` or `discard`.
    type Dst: Sink;

    // What is known of it: the bytes of its files, those that standard input still has, whether a line of these is at hand, the name of the file that
    // was made last, and whether some call of it has failed, or of a source or a sink that it got back.
    ghost state: { Self → ShelfState };

    /// A source of the bytes of the file of that name, from the first on. The files keep their bytes.
    ///
    /// # Errors
    ///
    /// There is no such file, or it can't be opened; or memory for it was refused.
    fn find(&mut self, name: &str) -> Result<Self::Src, ShelfFault>
        ensures working { IfOk result (λ source. Self.Src.has_failed source ≡ false) }
        ensures found { (bytes : List ℕ) → (state self.old).has name.now bytes
            → MatchResult result (λ source. Self.Src.gives source (whole bytes)) (λ fault. fault ≡ ShelfFault.Memory) }
        ensures shown { (bytes : List ℕ) → (state self.old).has name.now bytes → IfOk result (λ source. Self.Src.shows source (whole bytes)) }
        ensures there { OnOk result (IsTrue (state self.old).tells → (bytes : List ℕ) × (state self.old).has name.now bytes) }
        ensures kept { SameFiles (state self.old).has (state self.new).has }
        ensures told { (state self.new).tells ≡ (state self.old).tells }
        ensures input { (state self.new).input ≡ (state self.old).input }
        ensures made { (state self.new).made ≡ (state self.old).made }
        ensures failed { (state self.new).has_failed ≡ ((state self.old).has_failed || is_failed result) };

    /// Takes back a source that `find` gave, and notes whether it has failed. The files keep their bytes.
    fn close(&mut self, source: Self::Src)
        ensures kept { SameFiles (state self.old).has (state self.new).has }
        ensures told { (state self.new).tells ≡ (state self.old).tells }
        ensures input { (state self.new).input ≡ (state self.old).input }
        ensures made { (state self.new).made ≡ (state self.old).made }
        ensures failed { (state self.new).has_failed ≡ ((state self.old).has_failed || Self.Src.has_failed source) };

    /// An empty sink for the bytes that a file of that name is to have. The files keep their bytes, that one too until the sink is kept.
    ///
    /// # Errors
    ///
    /// The file can't be made, or is being made elsewhere; or memory for it was refused.
    fn make(&mut self, name: &str) -> Result<Self::Dst, ShelfFault>
        ensures working { IfOk result (λ sink. (Self.Dst.state sink).has_failed ≡ false) }
        ensures empty { IfOk result (λ sink. IsTrue (state self.old).tells → (Self.Dst.state sink).received ≡ Some []) }
        ensures made { OnOk result ((state self.new).made ≡ name.now) }
        ensures kept { SameFiles (state self.old).has (state self.new).has }
        ensures told { (state self.new).tells ≡ (state self.old).tells }
        ensures input { (state self.new).input ≡ (state self.old).input }
        ensures failed { (state self.new).has_failed ≡ ((state self.old).has_failed || is_failed result) };

    /// Saves exactly the sink's bytes under that name, for which `make` gave the sink, as it gave no later one. Other files keep their bytes.
    ///
    /// # Errors
    ///
    /// The device failed, or memory was refused. That file keeps its bytes then too, and the sink is gone, as after `discard`.
    fn keep(&mut self, name: &str, sink: Self::Dst) -> Result<(), ShelfFault>
        requires { (state self.old).made ≡ name.now }
        ensures kept { (bytes : List ℕ) → IsTrue (state self.old).tells → (Self.Dst.state sink).received ≡ Some bytes
            → OnOk result (HasJust name.now bytes (state self.new).has) }
        ensures unchanged { OnErr result (SameFiles (state self.old).has (state self.new).has) }
        ensures others { SameOthers name.now (state self.old).has (state self.new).has }
        ensures told { (state self.new).tells ≡ (state self.old).tells }
        ensures input { (state self.new).input ≡ (state self.old).input }
        ensures failed { (state self.new).has_failed ≡ (((state self.old).has_failed || (Self.Dst.state sink).has_failed) || is_failed result) };

    /// Gives up the sink that `make` gave for that name, and what it has received, and notes whether it has failed. The files keep
    /// their bytes.
    fn discard(&mut self, name: &str, sink: Self::Dst)
        requires { (state self.old).made ≡ name.now }
        ensures kept { SameFiles (state self.old).has (state self.new).has }
        ensures told { (state self.new).tells ≡ (state self.old).tells }
        ensures input { (state self.new).input ≡ (state self.old).input }
        ensures failed { (state self.new).has_failed ≡ ((state self.old).has_failed || (Self.Dst.state sink).has_failed) };

    /// Puts the next line of standard input in place of what `line` held, without its end; `false` if there is none. The files keep their bytes.
    ///
    /// # Errors
    ///
    /// It failed before the line's end; or memory for the line was refused.
    fn next_line(&mut self, line: &mut Vec<u8>) -> Result<bool, ShelfFault>
        ensures read { (bytes : List ℕ) → (state self.old).input ≡ Some bytes
            → MatchResult result (λ found. TakesLine bytes found line.new.items (state self.new).input) (λ fault. fault ≡ ShelfFault.Memory) }
        ensures kept { SameFiles (state self.old).has (state self.new).has }
        ensures told { (state self.new).tells ≡ (state self.old).tells }
        ensures made { (state self.new).made ≡ (state self.old).made }
        ensures failed { (state self.new).has_failed ≡ ((state self.old).has_failed || is_failed result) };

    /// Whether the next line of standard input is at hand, so that `next_line` doesn't wait for it.
    fn has_line(&self) -> bool
        ensures { result ≡ (state self.now).has_line };

    /// Whether both names lead to one file, however they are spelled.
    fn is_same_file(&self, name: &str, other: &str) -> bool
        ensures same { name.now ≡ other.now → result ≡ true }
        ensures known { IsTrue (state self.now).tells → result ≡ true → name.now ≡ other.now };

    /// Whether the name leads to where one of the program's own streams does, however it is spelled.
    fn is_stream(&self, name: &str) -> bool
        ensures known { IsTrue (state self.now).tells → result ≡ false };

    /// What the device said that failed last, as text: which one it is, and why it failed. `None` if that isn't known. Nothing is promised of
    /// what a device says.
    ///
    /// # Errors
    ///
    /// No memory was left for the text.
    fn said(&self, alloc: Global) -> Result<Option<String>, AllocError>;
}

/// A shelf of files and of a standard input in memory, for tests.
#[derive(Drop)]
pub struct MemShelf {
    files: BTreeMap<String, Vec<u8>>,
    input: Vec<u8>,
    alloc: Global,
    has_failed: bool,
    made: String,
}

impl MemShelf {
    /// A shelf with no files, whose standard input is empty.
    pub fn new(alloc: Global) -> MemShelf
        ensures empty { (name : List ℕ) → bytes_in result.files name ≡ None }
        ensures input { result.input.items ≡ [] }
        ensures failed { result.has_failed ≡ false }
    {
        MemShelf {
            files: BTreeMap::new(alloc),
            input: Vec::new(alloc),
            alloc,
            has_failed: false,
            made: String::new(alloc),
        }
    }

    /// Has standard input give these bytes from here on, and then its end.
    pub fn set_input(&mut self, bytes: Vec<u8>)
        ensures files { self.new.files ≡ self.old.files }
        ensures input { self.new.input ≡ bytes }
        ensures failed { self.new.has_failed ≡ self.old.has_failed }
    {
        self.input = bytes;
    }

    // The bytes of the file of that name.
    fn copy_of(&self, name: &str) -> Result<Vec<u8>, ShelfFault>
        ensures ok { IfOk result (λ copy. bytes_in self.now.files name.now ≡ Some copy.items) }
        ensures none { IfErr result (λ fault. fault ≡ ShelfFault.Failed → bytes_in self.now.files name.now ≡ None) }
    {
        match self.files.get(name) {
            Some(bytes) => Ok(bytes.clone()?),
            None => Err(ShelfFault::Failed),
        }
    }

    // Puts a file of these bytes under the name.
    fn put(&mut self, name: &str, bytes: Vec<u8>) -> Result<(), AllocError>
        ensures put { OnOk result (HasJust name.now bytes.items (λ other found. bytes_in self.new.files other ≡ Some found)) }
        ensures others { SameOthers name.now (λ other bytes. bytes_in self.old.files other ≡ Some bytes)
            (λ other bytes. bytes_in self.new.files other ≡ Some bytes) }
        ensures unchanged { OnErr result (SameFiles (λ other bytes. bytes_in self.old.files other ≡ Some bytes)
            (λ other bytes. bytes_in self.new.files other ≡ Some bytes)) }
        ensures input { self.new.input ≡ self.old.input }
        ensures failed { self.new.has_failed ≡ self.old.has_failed }
    {
        let name = name.to_string(self.alloc)?;
        self.files.insert(name, bytes)?;
        Ok(())
    }
}

impl Shelf for MemShelf {
    type Src = MemSource;

    type Dst = MemSink;

    ghost state = { λ shelf. record {
      has = λ name bytes. bytes_in shelf.files name ≡ Some bytes;
      tells = true;
      has_failed = shelf.has_failed;
      made = string_bytes shelf.made;
      input = Some shelf.input.items;
      has_line = not (length shelf.input.items == 0);
    } };

    fn find(&mut self, name: &str) -> Result<MemSource, ShelfFault> {
        let found = self.copy_of(name);
        self.has_failed |= is_failed(&found);
        Ok(MemSource::new(found?))
    }

    fn close(&mut self, source: MemSource) {
        self.has_failed |= source.failed();
    }

    fn make(&mut self, name: &str) -> Result<MemSink, ShelfFault> {
        self.made = name.to_string(self.alloc)?;
        Ok(MemSink::new(self.alloc))
    }

    fn keep(&mut self, name: &str, sink: MemSink) -> Result<(), ShelfFault> {
        self.has_failed |= sink.failed();
        match self.put(name, sink.into_bytes()) {
            Ok(()) => Ok(()),
            Err(AllocError) => Err(ShelfFault::Memory),
        }
    }

    fn discard(&mut self, _name: &str, sink: MemSink) {
        self.has_failed |= sink.failed();
    }

    fn next_line(&mut self, line: &mut Vec<u8>) -> Result<bool, ShelfFault> {
        line.clear();
        let Some((first, rest)) = first_line(&self.input) else {
            return Ok(false);
        };
        line.extend_from_slice(first)?;
        self.input = rest.to_vec(self.alloc)?;
        Ok(true)
    }

    fn has_line(&self) -> bool {
        !self.input.is_empty()
    }

    fn is_same_file(&self, name: &str, other: &str) -> bool {
        name == other
    }

    fn is_stream(&self, _name: &str) -> bool {
        false
    }

    fn said(&self, _alloc: Global) -> Result<Option<String>, AllocError> {
        Ok(None)
    }
}
