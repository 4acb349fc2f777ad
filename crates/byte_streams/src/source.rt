//! Sources of bytes.
ghost use Rattle.std.specs.Prelude.{◌≡◌, ◌<◌, ◌≤◌, ◌+◌, ◌-◌, ◌^◌, ◌↔◌, min, Contains, IsErr, List, ℕ, Option, Some, None, length, take, drop, IfOk, IfSome, IsErrOf, vec_len};
ghost use Rattle.std.specs.Io.{ReadsAtMost};
ghost use Rattle.std.specs.Io.KnownBytes.{ReadConsumes, IsAtEnd};
ghost use Rattle.bt_base.specs.Causes.{Rose, HasCause};
ghost use Rattle.byte_streams.specs.Content.{HoldsOfInput};
ghost use Rattle.byte_streams.specs.declared.source.ReadFault.TheVariants.{Memory, Failed as FailedToRead};

use std::alloc::{AllocError, Global};
use std::io::Read;

/// The source, sink or other object failed, and counted a fault.
#[derive(Clone, Copy, Debug, PartialEq, Eq)]
pub struct Failed;

/// A source of bytes.
pub trait Source {
    /// The bytes that are left; None if contracts cannot see them.
    ghost left: { Self → Option (List ℕ) };

    /// How often it has failed. The count never falls.
    ghost faults: { Self → ℕ };

    /// Reads some bytes into the first places of `room`, and returns how many: 0 into a room that is not empty only at the
    /// end of the bytes. Returns `Failed` only if the count of faults rose in this call; then no byte was taken.
    fn read(&mut self, room: &mut [u8]) -> Result<usize, Failed>
        ensures bound { ReadsAtMost result room.new }
        ensures bytes { ReadConsumes (left self.old) (left self.new) result room.new }
        ensures cause { HasCause (faults self.old) (faults self.new) result };
}

/// A source in memory that never fails.
#[derive(Drop)]
pub struct SureSource {
    bytes: Vec<u8>,
    at: usize,
    ghost within: { at ≤ vec_len bytes },
}

/// Copies the first bytes into the room, as many as fit, and returns how many.
fn copy_front(bytes: &[u8], room: &mut [u8]) -> usize
    ensures within { result ≤ length bytes.now }
    ensures fits { result ≤ length room.new }
    ensures some { result ≡ 0 → 0 < length room.new → length bytes.now ≡ 0 }
    ensures copied { take result room.new ≡ take result bytes.now }
{
    let count = bytes.len().min(room.len());
    room[..count].copy_from_slice(&bytes[..count]);
    count
}

impl SureSource {
    ghost use Rattle.byte_streams.specs.Streams.{left_of};

    /// A source of these bytes, from the first one on. It does not allocate.
    pub fn new(bytes: Vec<u8>) -> SureSource
        ensures { left_of result ≡ bytes.items }
    {
        SureSource { bytes, at: 0 }
    }
}

impl Source for SureSource {
    ghost use Rattle.byte_streams.specs.Streams.{left_of};
    ghost use Rattle.std.specs.Prelude.{Some};

    ghost left = { λ s. Some (left_of s) };

    ghost faults = { λ _. 0 };

    fn read(&mut self, room: &mut [u8]) -> Result<usize, Failed> {
        let count = copy_front(&self.bytes[self.at..], room);
        self.at += count;
        Ok(count)
    }
}

/// A source in memory of which the calls of given numbers fail, and no others.
pub struct MemorySource {
    inner: SureSource,
    fails: Vec<u64>,
    calls: u64,
    faults: u64,
}

impl Drop for MemorySource {
    fn drop(self) {
        let MemorySource {
            inner: _inner,
            fails: _fails,
            calls: _calls,
            faults: _faults,
        } = self;
    }
}

impl MemorySource {
    ghost use Rattle.byte_streams.specs.Streams.{left_in, failing_reads, reads_of, read_faults};

    /// A source of these bytes. The calls of these numbers fail, counted from 1. It does not allocate.
    pub fn new(bytes: Vec<u8>, fails: Vec<u64>) -> MemorySource
        ensures left { left_in result ≡ bytes.items }
        ensures fails { failing_reads result ≡ fails.items }
        ensures calls { reads_of result ≡ 0 }
        ensures faults { read_faults result ≡ 0 }
    {
        MemorySource {
            inner: SureSource::new(bytes),
            fails,
            calls: 0,
            faults: 0,
        }
    }
}

impl Source for MemorySource {
    ghost use Rattle.byte_streams.specs.Streams.{left_in, failing_reads, reads_of, read_faults};
    ghost use Rattle.std.specs.Prelude.{Some};

    ghost left = { λ s. Some (left_in s) };

    ghost faults = { read_faults };

    fn read(&mut self, room: &mut [u8]) -> Result<usize, Failed>
        ensures bound { ReadsAtMost result room.new }
        ensures bytes { ReadConsumes (Some (left_in self.old)) (Some (left_in self.new)) result room.new }
        ensures cause { HasCause (read_faults self.old) (read_faults self.new) result }
        ensures counted { reads_of self.new ≡ min (reads_of self.old + 1) (2 ^ 64 - 1) }
        ensures listed { IsErr result ↔ Contains (failing_reads self.old) (reads_of self.new) }
        ensures kept { failing_reads self.new ≡ failing_reads self.old }
    {
        self.calls = self.calls.saturating_add(1);
        if self.fails.contains(&self.calls) {
            self.faults = self.faults.saturating_add(1);
            return Err(Failed);
        }
        self.inner.read(room)
    }
}

/// A source over a reader of std, such as standard input. It does not say what is left, and counts each error of the
/// reader as a fault.
#[derive(Drop)]
pub struct StdSource<R: Read + Drop> {
    inner: R,
    faults: u64,
}

impl<R: Read + Drop> StdSource<R> {
    ghost use Rattle.byte_streams.specs.Streams.{reader_of, reader_faults};

    /// A source that reads from this reader. It does not allocate.
    pub fn new(inner: R) -> StdSource<R>
        ensures faults { reader_faults result ≡ 0 }
        ensures reader { reader_of result ≡ inner }
    {
        StdSource { inner, faults: 0 }
    }
}

impl<R: Read + Drop> Source for StdSource<R> {
    ghost use Rattle.byte_streams.specs.Streams.{reader_of, reader_faults};

    ghost left = { λ _. None };

    ghost faults = { reader_faults };

    /// Reads from the reader. Returns `Failed` if the reader fails.
    fn read(&mut self, room: &mut [u8]) -> Result<usize, Failed>
        ensures bound { ReadsAtMost result room.new }
        ensures bytes { ReadConsumes {E = Failed} None None result room.new }
        ensures cause { HasCause (reader_faults self.old) (reader_faults self.new) result }
        ensures passed_on { ReadConsumes (R.remaining (reader_of self.old)) (R.remaining (reader_of self.new)) result room.new }
    {
        match self.inner.read(room) {
            Ok(count) => Ok(count),
            Err(_) => {
                self.faults = self.faults.saturating_add(1);
                Err(Failed)
            }
        }
    }
}

/// Why a source was not read to its end.
#[derive(Clone, Copy, Debug, PartialEq, Eq)]
pub enum ReadFault {
    /// Memory ran out.
    Memory,
    /// The source failed.
    Failed,
    /// The source has more bytes than the limit.
    TooLong,
}

impl From<AllocError> for ReadFault {
    ghost from_gives = { λ _ e. e ≡ Memory };

    fn from(_: AllocError) -> Self {
        ReadFault::Memory
    }
}

impl From<Failed> for ReadFault {
    ghost from_gives = { λ _ e. e ≡ FailedToRead };

    fn from(_: Failed) -> Self {
        ReadFault::Failed
    }
}

/// Reads all bytes that a source has left, at most `limit` of them. Returns `TooLong` only if there are more, and `Failed`
/// only if the source failed in this call.
pub fn read_all<R: Source>(
    alloc: Global,
    source: &mut R,
    limit: usize,
) -> Result<Vec<u8>, ReadFault>
    requires { limit < 2 ^ 62 }
    ensures whole { IfOk result (λ bytes. IfSome (R.left source.old) (λ left. bytes.items ≡ left)) }
    ensures end { IfOk result (λ _. IsAtEnd (R.left source.new)) }
    ensures within { IfOk result (λ bytes. vec_len bytes ≤ limit) }
    ensures long { IsErrOf result ReadFault.TooLong → HoldsOfInput (R.left source.old) (λ input. limit < length input) }
    ensures failed { IsErrOf result ReadFault.Failed → Rose (R.faults source.old) (R.faults source.new) }
    ensures later { R.faults source.old ≤ R.faults source.new }
{
    let mut bytes = Vec::new(alloc);
    let mut room = [0; 4096];
    loop {
        let count = source.read(&mut room)?;
        if count == 0 {
            return Ok(bytes);
        }
        bytes.extend_from_slice(&room[..count])?;
        if bytes.len() > limit {
            return Err(ReadFault::TooLong);
        }
    }
}
