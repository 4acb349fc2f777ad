//! Links in memory.
ghost use Rattle.std.specs.Prelude.{◌≡◌, ◌<◌, ◌≤◌, ◌+◌, ◌-◌, ◌^◌, ◌↔◌, min, Contains, IsErr, [], Some, None, length, take, IfOk, option_map};
ghost use Rattle.std.specs.Io.{ReadsAtMost, WritesAtMost};
ghost use Rattle.std.specs.Io.KnownBytes.{ReadConsumes};
ghost use Rattle.bt_base.specs.Causes.{HasCause};
ghost use Rattle.byte_streams.specs.Content.{Takes};
ghost use Rattle.http_link.specs.Pieces.{joined};
ghost use Rattle.http_link.specs.Links.{left_of, taken_by, left_in, taken_in, failing_calls, calls_of, call_faults};

use crate::link::Link;
use crate::pieces::Pieces;
use byte_streams::Failed;
use std::alloc::Global;

/// A link in memory that never fails. Once it is out of memory it drops what it took, and later bytes too.
pub struct SureLink {
    pieces: Pieces,
    taken: Option<Vec<u8>>,
}

impl Drop for SureLink {
    fn drop(self) {
        let SureLink {
            pieces: _pieces,
            taken: _taken,
        } = self;
    }
}

impl SureLink {
    /// A link that gives these pieces, one read at most one of them, and has taken nothing. It does not allocate.
    pub fn new(alloc: Global, pieces: Vec<Vec<u8>>) -> SureLink
        ensures left { left_of result ≡ joined pieces.items }
        ensures taken { taken_by result ≡ Some [] }
    {
        SureLink {
            pieces: Pieces::new(pieces),
            taken: Some(Vec::new(alloc)),
        }
    }

    /// The bytes that it has taken; None if it was out of memory for them. It does not allocate.
    pub fn into_bytes(self) -> Option<Vec<u8>>
        ensures { option_map (λ bytes. bytes.items) result ≡ taken_by self }
    {
        let SureLink { pieces, taken } = self;
        drop(pieces);
        taken
    }
}

impl Link for SureLink {
    ghost use Rattle.std.specs.Prelude.{Some};

    ghost left = { λ s. Some (left_of s) };

    ghost taken = { taken_by };

    ghost faults = { λ _. 0 };

    fn read(&mut self, room: &mut [u8]) -> Result<usize, Failed> {
        Ok(self.pieces.read(room))
    }

    fn write(&mut self, piece: &[u8]) -> Result<usize, Failed> {
        let mut kept = self.taken.take();
        if let Some(bytes) = &mut kept {
            if bytes.extend_from_slice(piece).is_err() {
                return Ok(piece.len());
            }
        }
        self.taken = kept;
        Ok(piece.len())
    }
}

/// A link in memory of which the calls of given numbers fail, and no others. Once it is out of memory it drops what it took,
/// and later bytes too.
#[derive(Drop)]
pub struct MemoryLink {
    inner: SureLink,
    fails: Vec<u64>,
    calls: u64,
    faults: u64,
}

impl MemoryLink {
    /// A link that gives these pieces, one read at most one of them, and has taken nothing. The calls of these numbers fail,
    /// reads and writes counted together from 1. It does not allocate.
    pub fn new(alloc: Global, pieces: Vec<Vec<u8>>, fails: Vec<u64>) -> MemoryLink
        ensures left { left_in result ≡ joined pieces.items }
        ensures taken { taken_in result ≡ Some [] }
        ensures fails { failing_calls result ≡ fails.items }
        ensures calls { calls_of result ≡ 0 }
        ensures faults { call_faults result ≡ 0 }
    {
        MemoryLink {
            inner: SureLink::new(alloc, pieces),
            fails,
            calls: 0,
            faults: 0,
        }
    }

    /// Counts a call, and a fault if it is one that fails.
    fn count_call(&mut self) -> Result<(), Failed>
        ensures same_inner { self.new.inner ≡ self.old.inner }
        ensures kept { self.new.fails ≡ self.old.fails }
        ensures counted { self.new.calls ≡ min (self.old.calls + 1) (2 ^ 64 - 1) }
        ensures listed { IsErr result ↔ Contains self.old.fails.items self.new.calls }
        ensures cause { HasCause self.old.faults self.new.faults result }
    {
        self.calls = self.calls.saturating_add(1);
        if self.fails.contains(&self.calls) {
            self.faults = self.faults.saturating_add(1);
            return Err(Failed);
        }
        Ok(())
    }

    /// The bytes that it has taken; None if it was out of memory for them. It does not allocate.
    pub fn into_bytes(self) -> Option<Vec<u8>>
        ensures { option_map (λ bytes. bytes.items) result ≡ taken_in self }
    {
        let MemoryLink { inner, fails, .. } = self;
        drop(fails);
        inner.into_bytes()
    }
}

impl Link for MemoryLink {
    ghost use Rattle.std.specs.Prelude.{Some};

    ghost left = { λ s. Some (left_in s) };

    ghost taken = { taken_in };

    ghost faults = { call_faults };

    fn read(&mut self, room: &mut [u8]) -> Result<usize, Failed>
        ensures bound { ReadsAtMost result room.new }
        ensures bytes { ReadConsumes (Some (left_in self.old)) (Some (left_in self.new)) result room.new }
        ensures same_taken { taken_in self.new ≡ taken_in self.old }
        ensures cause { HasCause (call_faults self.old) (call_faults self.new) result }
        ensures counted { calls_of self.new ≡ min (calls_of self.old + 1) (2 ^ 64 - 1) }
        ensures listed { IsErr result ↔ Contains (failing_calls self.old) (calls_of self.new) }
        ensures kept { failing_calls self.new ≡ failing_calls self.old }
    {
        self.count_call()?;
        self.inner.read(room)
    }

    fn write(&mut self, piece: &[u8]) -> Result<usize, Failed>
        ensures bound { WritesAtMost result piece.now }
        ensures some { IfOk result (λ count. 0 < length piece.now → 0 < count) }
        ensures bytes { Takes (taken_in self.old) (taken_in self.new) result piece.now }
        ensures same_left { Some (left_in self.new) ≡ Some (left_in self.old) }
        ensures cause { HasCause (call_faults self.old) (call_faults self.new) result }
        ensures counted { calls_of self.new ≡ min (calls_of self.old + 1) (2 ^ 64 - 1) }
        ensures listed { IsErr result ↔ Contains (failing_calls self.old) (calls_of self.new) }
        ensures kept { failing_calls self.new ≡ failing_calls self.old }
    {
        self.count_call()?;
        self.inner.write(piece)
    }
}
