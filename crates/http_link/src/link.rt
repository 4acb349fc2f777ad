//! The trait of links, and writing of whole texts.
ghost use Rattle.std.specs.Prelude.{◌≡◌, ◌<◌, ◌≤◌, ◌+◌, ◌-◌, ◌^◌, List, ℕ, Option, length, take, drop, IfOk, OnOk, OnErr};
ghost use Rattle.std.specs.Io.{ReadsAtMost, WritesAtMost};
ghost use Rattle.std.specs.Io.KnownBytes.{ReadConsumes};
ghost use Rattle.bt_base.specs.Causes.{HasCause};
ghost use Rattle.byte_streams.specs.Content.{Gains, Takes};
ghost use Rattle.http_link.specs.Writing.{GainsPart};

use byte_streams::Failed;

/// A link to a peer: a source of the bytes that the peer sends, and a sink of those that it is sent.
pub trait Link {
    /// The bytes that are left to read; None if contracts cannot see them.
    ghost left: { Self → Option (List ℕ) };

    /// The bytes that it has taken; None if contracts cannot see them. They may become None, and then stay so.
    ghost taken: { Self → Option (List ℕ) };

    /// How often it has failed, reads and writes together. The count never falls.
    ghost faults: { Self → ℕ };

    /// Reads some bytes into the first places of `room`, and returns how many: 0 into a room that is not empty only at the
    /// end of the bytes. Returns `Failed` only if the count of faults rose in this call; then no byte was read.
    fn read(&mut self, room: &mut [u8]) -> Result<usize, Failed>
        ensures bound { ReadsAtMost result room.new }
        ensures bytes { ReadConsumes (left self.old) (left self.new) result room.new }
        ensures same_taken { taken self.new ≡ taken self.old }
        ensures cause { HasCause (faults self.old) (faults self.new) result };

    /// Takes the first bytes of the piece, at least one if the piece is not empty, and returns how many. Returns `Failed`
    /// only if the count of faults rose in this call; then no byte was taken.
    fn write(&mut self, piece: &[u8]) -> Result<usize, Failed>
        ensures bound { WritesAtMost result piece.now }
        ensures some { IfOk result (λ count. 0 < length piece.now → 0 < count) }
        ensures bytes { Takes (taken self.old) (taken self.new) result piece.now }
        ensures same_left { left self.new ≡ left self.old }
        ensures cause { HasCause (faults self.old) (faults self.new) result };
}

/// Writes all bytes of a piece. Returns `Failed` only if the link failed in this call; then a prefix of the piece was taken, and
/// not all of it.
pub fn write_all<L: Link>(link: &mut L, piece: &[u8]) -> Result<(), Failed>
    ensures ok { OnOk result (Gains (L.taken link.old) (L.taken link.new) piece.now) }
    ensures err { OnErr result (GainsPart (L.taken link.old) (L.taken link.new) piece.now) }
    ensures same_left { L.left link.new ≡ L.left link.old }
    ensures cause { HasCause (L.faults link.old) (L.faults link.new) result }
{
    let mut rest = piece;
    while !rest.is_empty() {
        let count = link.write(rest)?;
        rest = &rest[count..];
    }
    Ok(())
}
