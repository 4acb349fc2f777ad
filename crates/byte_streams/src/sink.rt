//! Sinks of bytes.
ghost use Rattle.std.specs.Prelude.{◌≡◌, ◌<◌, ◌≤◌, ◌+◌, ◌-◌, ◌^◌, ◌↔◌, ◌++◌, min, Contains, IsErr, [], List, ℕ, Option, Some, None, length, take, drop, IfOk, OnOk, OnErr, option_map};
ghost use Rattle.std.specs.Io.{WritesAtMost};
ghost use Rattle.std.specs.Io.KnownBytes.{WriteAppends};
ghost use Rattle.bt_base.specs.Causes.{Rose, HasCause};
ghost use Rattle.byte_streams.specs.Content.{Gains, Takes, GainsFront};
ghost use Rattle.byte_streams.specs.Streams.{taken_by, taken_in, failing_writes, writes_of, write_faults, writer_of, writer_faults};

use crate::source::Failed;
use std::alloc::Global;
use std::io::Write;

/// A sink of bytes.
pub trait Sink {
    /// The bytes that it has taken; None if contracts cannot see them. They may become None, and then stay so.
    ghost taken: { Self → Option (List ℕ) };

    /// How often it has failed. The count never falls.
    ghost faults: { Self → ℕ };

    /// Takes the first bytes of the piece, at least one if the piece is not empty, and returns how many. Returns `Failed`
    /// only if the count of faults rose in this call; then no byte was taken.
    fn write(&mut self, piece: &[u8]) -> Result<usize, Failed>
        ensures bound { WritesAtMost result piece.now }
        ensures some { IfOk result (λ count. 0 < length piece.now → 0 < count) }
        ensures bytes { Takes (taken self.old) (taken self.new) result piece.now }
        ensures cause { HasCause (faults self.old) (faults self.new) result };
}

/// A sink in memory that never fails. Once it is out of memory it drops what it took, and later bytes too.
pub struct SureSink {
    bytes: Option<Vec<u8>>,
}

impl Drop for SureSink {
    fn drop(self) {
        let SureSink { bytes: _bytes } = self;
    }
}

impl SureSink {
    /// A sink that has taken nothing. It does not allocate.
    pub fn new(alloc: Global) -> SureSink
        ensures { taken_by result ≡ Some [] }
    {
        SureSink {
            bytes: Some(Vec::new(alloc)),
        }
    }

    /// The bytes that it has taken; None if it was out of memory for them. It does not allocate.
    pub fn into_bytes(self) -> Option<Vec<u8>>
        ensures { option_map (λ bytes. bytes.items) result ≡ taken_by self }
    {
        let SureSink { bytes } = self;
        bytes
    }
}

impl Sink for SureSink {
    ghost taken = { taken_by };

    ghost faults = { λ _. 0 };

    fn write(&mut self, piece: &[u8]) -> Result<usize, Failed> {
        let mut kept = self.bytes.take();
        if let Some(bytes) = &mut kept {
            if bytes.extend_from_slice(piece).is_err() {
                return Ok(piece.len());
            }
        }
        self.bytes = kept;
        Ok(piece.len())
    }
}

/// A sink in memory of which the calls of given numbers fail, and no others. Once it is out of memory it drops what it
/// took, and later bytes too.
#[derive(Drop)]
pub struct MemorySink {
    inner: SureSink,
    fails: Vec<u64>,
    calls: u64,
    faults: u64,
}

impl MemorySink {
    /// A sink that has taken nothing. The calls of these numbers fail, counted from 1. It does not allocate.
    pub fn new(alloc: Global, fails: Vec<u64>) -> MemorySink
        ensures taken { taken_in result ≡ Some [] }
        ensures fails { failing_writes result ≡ fails.items }
        ensures calls { writes_of result ≡ 0 }
        ensures faults { write_faults result ≡ 0 }
    {
        MemorySink {
            inner: SureSink::new(alloc),
            fails,
            calls: 0,
            faults: 0,
        }
    }

    /// The bytes that it has taken; None if it was out of memory for them. It does not allocate.
    pub fn into_bytes(self) -> Option<Vec<u8>>
        ensures { option_map (λ bytes. bytes.items) result ≡ taken_in self }
    {
        let MemorySink { inner, fails, .. } = self;
        drop(fails);
        inner.into_bytes()
    }
}

impl Sink for MemorySink {
    ghost taken = { taken_in };

    ghost faults = { write_faults };

    fn write(&mut self, piece: &[u8]) -> Result<usize, Failed>
        ensures bound { WritesAtMost result piece.now }
        ensures some { IfOk result (λ count. 0 < length piece.now → 0 < count) }
        ensures bytes { Takes (taken_in self.old) (taken_in self.new) result piece.now }
        ensures cause { HasCause (write_faults self.old) (write_faults self.new) result }
        ensures counted { writes_of self.new ≡ min (writes_of self.old + 1) (2 ^ 64 - 1) }
        ensures listed { IsErr result ↔ Contains (failing_writes self.old) (writes_of self.new) }
        ensures kept { failing_writes self.new ≡ failing_writes self.old }
    {
        self.calls = self.calls.saturating_add(1);
        if self.fails.contains(&self.calls) {
            self.faults = self.faults.saturating_add(1);
            return Err(Failed);
        }
        self.inner.write(piece)
    }
}

/// A sink over a writer of std, such as standard output. It does not say what it has taken. It counts each error of the
/// writer as a fault, and each write that took nothing of a piece that is not empty.
#[derive(Drop)]
pub struct StdSink<W: Write + Drop> {
    inner: W,
    faults: u64,
}

impl<W: Write + Drop> StdSink<W> {
    /// A sink that writes to this writer. It does not allocate.
    pub fn new(inner: W) -> StdSink<W>
        ensures faults { writer_faults result ≡ 0 }
        ensures writer { writer_of result ≡ inner }
    {
        StdSink { inner, faults: 0 }
    }
}

impl<W: Write + Drop> Sink for StdSink<W> {
    ghost taken = { λ _. None };

    ghost faults = { writer_faults };

    /// Writes to the writer. Returns `Failed` if the writer fails, or takes nothing of a piece that is not empty.
    fn write(&mut self, piece: &[u8]) -> Result<usize, Failed>
        ensures bound { WritesAtMost result piece.now }
        ensures some { IfOk result (λ count. 0 < length piece.now → 0 < count) }
        ensures bytes { Takes {E = Failed} None None result piece.now }
        ensures cause { HasCause (writer_faults self.old) (writer_faults self.new) result }
        ensures passed_on { WriteAppends (W.contents (writer_of self.old)) (W.contents (writer_of self.new)) result piece.now }
    {
        if piece.is_empty() {
            return Ok(0);
        }
        match self.inner.write(piece) {
            Ok(0) | Err(_) => {
                self.faults = self.faults.saturating_add(1);
                Err(Failed)
            }
            Ok(count) => Ok(count),
        }
    }
}

/// Writes all bytes of a piece. Returns `Failed` only if the sink failed in this call; then a prefix of the piece was taken.
pub fn write_all<W: Sink>(sink: &mut W, piece: &[u8]) -> Result<(), Failed>
    ensures ok { OnOk result (Gains (W.taken sink.old) (W.taken sink.new) piece.now) }
    ensures err { OnErr result (GainsFront (W.taken sink.old) (W.taken sink.new) piece.now) }
    ensures cause { HasCause (W.faults sink.old) (W.faults sink.new) result }
{
    let mut rest = piece;
    while !rest.is_empty() {
        let count = sink.write(rest)?;
        rest = &rest[count..];
    }
    Ok(())
}
