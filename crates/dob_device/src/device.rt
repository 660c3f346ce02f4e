// What bytes are read from and written to, and how these fail.
ghost use Rattle.std.specs.Prelude.{◌≡◌, ℕ, ◌<◌, ◌≤◌, ◌||◌, [], Bool, length, is_err, IfOk, MatchResult, OnOk, OnErr};
ghost use Rattle.std.specs.Io.KnownBytes.{Keeps, WriteAppends};
ghost use Rattle.dob_device.specs.Devices.{Stream, after, broken, GivesFirst};
ghost use Rattle.dob_device.specs.Sinks.{SinkState, AddsFlush};

/// A device didn't do what it was asked, and no byte was moved by that call.
#[derive(Clone, Copy, PartialEq, Eq)]
pub struct Failed;

/// A device failed after that many bytes of what was to be moved.
#[derive(Clone, Copy)]
pub struct FailedAfter {
    pub bytes: usize,
}

/// Bytes that come one after the other, up to an end.
pub trait Source {
    // By `gives source stream` the source gives that stream from here on. A source about which nothing is known gives none.
    ghost gives: { Self → Stream → Type 0 };

    // By `shows source stream` it has that stream from its first byte on, whatever was read of it. One that isn't read by
    // place shows none.
    ghost shows: { Self → Stream → Type 0 } = { λ _ _. ⊥ };

    // Whether some call of it has failed.
    ghost has_failed: { Self → Bool };

    /// Puts the next bytes into the front of the room and answers how many: none only at the end of the bytes, or
    /// if there is no room.
    fn read(&mut self, room: &mut [u8]) -> Result<usize, Failed>
        ensures within { IfOk result (λ count. count ≤ length room.new) }
        ensures given { (stream : Stream) → gives self.old stream
            → IfOk result (λ count. GivesFirst stream count room.new × gives self.new (after count stream)) }
        ensures broken { (stream : Stream) → gives self.old stream
            → OnErr result ((stream ≡ broken []) × gives self.new stream) }
        ensures shown { (stream : Stream) → shows self.old stream → shows self.new stream }
        ensures failed { has_failed self.new ≡ (has_failed self.old || is_err result) };

    /// Whether some call of it has failed.
    fn failed(&self) -> bool
        ensures { result ≡ has_failed self.now };
}

/// Bytes that are read by their place too.
pub trait PlacedSource: Source {
    /// Goes to the place: the next byte that it gives is the one at that place, or its end where there are
    /// no more.
    fn seek(&mut self, place: u64) -> Result<(), Failed>
        ensures given { (stream : Stream) → Self.shows self.old stream
            → MatchResult result (λ _. Self.gives self.new (after place stream)) (λ _. ⊥) }
        ensures shown { (stream : Stream) → Self.shows self.old stream → Self.shows self.new stream }
        ensures failed { Self.has_failed self.new ≡ (Self.has_failed self.old || is_err result) };
}

/// A place for bytes, which are taken one after the other.
pub trait Sink {
    // What is known of it: its bytes, where it was flushed, whether some call of it has failed, and the writer that it was lent.
    ghost state: { Self → SinkState };

    /// Takes the first bytes of the piece and answers how many: at least one, if there is one.
    fn write(&mut self, piece: &[u8]) -> Result<usize, Failed>
        ensures within { IfOk result (λ count. count ≤ length piece.now) }
        ensures some { IfOk result (λ count. 0 < length piece.now → 0 < count) }
        ensures bytes { WriteAppends (state self.old).received (state self.new).received result piece.now }
        ensures flushes { Keeps (state self.old).flushes (state self.new).flushes }
        ensures same { (state self.new).writer ≡ (state self.old).writer }
        ensures failed { (state self.new).has_failed ≡ ((state self.old).has_failed || is_err result) };

    /// Brings the bytes that were taken to where they belong.
    fn flush(&mut self) -> Result<(), Failed>
        ensures bytes { Keeps (state self.old).received (state self.new).received }
        ensures flushed { OnOk result (AddsFlush (state self.old).received (state self.old).flushes (state self.new).flushes) }
        ensures unflushed { OnErr result (Keeps (state self.old).flushes (state self.new).flushes) }
        ensures same { (state self.new).writer ≡ (state self.old).writer }
        ensures failed { (state self.new).has_failed ≡ ((state self.old).has_failed || is_err result) };

    /// Whether some call of it has failed.
    fn failed(&self) -> bool
        ensures { result ≡ (state self.now).has_failed };
}
