//! A connection.
ghost use Rattle.std.specs.Prelude.{◌≡◌, ◌≤◌};
ghost use Rattle.bt_base.specs.Causes.{Rose};
ghost use Rattle.http_serving.specs.Connection.{Served};

use crate::end::End;
use crate::exchange::serve_one;
use crate::service::Service;
use http_link::Link;
use std::alloc::Global;

/// The most requests of a connection that are answered.
pub const MESSAGE_LIMIT: u64 = 10_000;

/// Answers the requests of a connection in order, and returns how it ended. However the link cuts the bytes, the exchanges, what
/// is written and the end are those that all its bytes allow; a request is read whole, answered, and its response written before
/// the next one is looked at. Returns `LinkFault` only if the link failed in this call, and `Memory` if memory ran out. Either cuts
/// one text short at most, the last one: that of a response, or the answer before an end; all responses before it were written
/// whole. With every other end all was written. No fault comes any more once the last response before `Asked` or `Spent` is
/// written, and nothing is read once its request is whole: of what follows it fewer bytes were read than http_link `FILL_BYTES`.
/// Each read takes a byte of the link at least, or meets the end of its bytes.
pub fn serve_link<L: Link, S: Service>(alloc: Global, link: &mut L, service: &mut S) -> End
    ensures served { Served S.answers service.old service.new (L.left link.old) (L.left link.new) (L.taken link.old) (L.taken link.new) result }
    ensures later { L.faults link.old ≤ L.faults link.new }
    ensures fault { result ≡ End.LinkFault → Rose (L.faults link.old) (L.faults link.new) }
{
    let mut buffer = Vec::new(alloc);
    let mut answered: u64 = 0;
    while answered < MESSAGE_LIMIT {
        match serve_one(alloc, link, &mut buffer, service) {
            Ok(false) => answered += 1,
            Ok(true) => return End::Asked,
            Err(end) => return end,
        }
    }
    End::Spent
}
