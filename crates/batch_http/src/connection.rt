//! A connection.
ghost use Rattle.std.specs.Prelude.{◌≡◌, ◌≤◌};
ghost use Rattle.bt_base.specs.Causes.{Rose};
ghost use Rattle.batch_http.specs.Connections.{IsServed};

use crate::service::HttpService;
use batch_desk::Ask;
use bt_clock::Clock;
use http_link::Link;
use http_serving::{End, serve_link};
use std::alloc::Global;

/// Answers the requests of a connection in order, and returns how it ended: see `http_serving::serve_link`. Each request that is a
/// call or a read makes one exchange of the asker, whose answer is its response, and the others make none; the clock is asked once
/// for each call. So over a desk its journal has the calls of the connection, in order (`batch_desk::exchanges_are_in_the_journal`).
/// A head with a field `Origin` makes no exchange, and ends the connection (`End::OriginRefused`).
pub fn serve<L: Link, A: Ask, C: Clock>(
    alloc: Global,
    link: &mut L,
    service: &mut HttpService<A, C>,
) -> End
    ensures served { IsServed A.exchanged C.gives service.old service.new (L.left link.old) (L.left link.new) (L.taken link.old) (L.taken link.new) result }
    ensures later { L.faults link.old ≤ L.faults link.new }
    ensures fault { result ≡ End.LinkFault → Rose (L.faults link.old) (L.faults link.new) }
{
    serve_link(alloc, link, service)
}
