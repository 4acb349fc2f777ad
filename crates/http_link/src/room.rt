//! A buffer of the bytes that a link has given.
ghost use Rattle.std.specs.Prelude.{◌≡◌, MatchResult, OnErr, IsErrOf, ◌≤◌};
ghost use Rattle.bt_base.specs.Causes.{Rose};
ghost use Rattle.http_link.specs.Filling.{Fills, LeftAfter};
ghost use Rattle.http_link.specs.declared.room.FillFault.TheVariants.{Memory, Failed as FailedToFill};

use crate::link::Link;
use byte_streams::Failed;
use std::alloc::AllocError;

/// The most bytes that `fill` adds at once.
pub const FILL_BYTES: usize = 4096;

/// Why a buffer was not filled.
#[derive(Clone, Copy, Debug, PartialEq, Eq)]
pub enum FillFault {
    /// Memory ran out.
    Memory,
    /// The link failed.
    Failed,
}

impl From<AllocError> for FillFault {
    ghost from_gives = { λ _ e. e ≡ Memory };

    fn from(_: AllocError) -> Self {
        FillFault::Memory
    }
}

impl From<Failed> for FillFault {
    ghost from_gives = { λ _ e. e ≡ FailedToFill };

    fn from(_: Failed) -> Self {
        FillFault::Failed
    }
}

/// Adds some bytes of the link to the end of the buffer, up to `FILL_BYTES`, and returns whether there were any: none come
/// only at their end. At an error the buffer is as it was. Returns `Failed` only if the link failed in this call; then no byte
/// was read. Returns `Memory` if the buffer cannot grow; the bytes that were read are lost then.
pub fn fill<L: Link>(link: &mut L, buffer: &mut Vec<u8>) -> Result<bool, FillFault>
    ensures bytes { MatchResult result
        (λ more. Fills (L.left link.old) (L.left link.new) buffer.old.items buffer.new.items more)
        (λ fault. LeftAfter fault (L.left link.old) (L.left link.new)) }
    ensures same_buffer { OnErr result (buffer.new.items ≡ buffer.old.items) }
    ensures same_taken { L.taken link.new ≡ L.taken link.old }
    ensures later { L.faults link.old ≤ L.faults link.new }
    ensures failed { IsErrOf result FillFault.Failed → Rose (L.faults link.old) (L.faults link.new) }
{
    let mut room = [0; FILL_BYTES];
    let count = link.read(&mut room)?;
    buffer.extend_from_slice(&room[..count])?;
    Ok(count > 0)
}
