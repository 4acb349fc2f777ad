//! Doors: a door serves the links of a listener, one after the other, and hands each back. `serve_links` returns once the listener has
//! ended or failed, and stands in a relation to the links that the listener gave and took back, to how each was served and how its
//! connection ended, and to the exchanges of all of them (`specs/Doors.antt`). It may wait for peers, and that it returns is not proved.
//! In which thread a door runs, and over which desk, is for its caller to say.
ghost use Rattle.std.specs.Prelude.{◌≡◌, ◌≤◌, true, false, Err, MatchResult};
ghost use Rattle.bt_base.specs.Causes.{Rose};
ghost use Rattle.batch_http.specs.declared.doors.NoLink.TheVariants.{Ended as NoLinkEnded, Failed as NoLinkFailed};
ghost use Rattle.batch_http.specs.Doors.{DoorState, is_memory, ServesOne, FindsNone, ServesAll};

use crate::connection::serve;
use crate::service::HttpService;
use batch_desk::Ask;
use bt_clock::Clock;
use http_serving::End;
use link_doors::{Accepted, Listener};
use std::alloc::Global;
use std::sync::Wait;

/// How a door ended.
#[derive(Clone, Copy, Debug, PartialEq, Eq)]
pub struct DoorEnd {
    /// Whether its listener failed; else it has ended.
    pub failed: bool,
    /// Whether one of its connections ended because memory ran out (`End::Memory`).
    pub met_memory: bool,
}

/// Whether a connection ended because memory ran out.
fn is_memory(end: End) -> bool
    ensures { result ≡ is_memory end }
{
    end == End::Memory
}

/// Why there is no link.
#[derive(Clone, Copy, Debug, PartialEq, Eq)]
enum NoLink {
    /// The listener has ended.
    Ended,
    /// The listener failed.
    Failed,
}

/// Serves the next link and hands it back, and returns how its connection ended. The error says why there was no link.
fn serve_next<A: Ask, C: Clock, N: Listener>(
    alloc: Global,
    service: &mut HttpService<A, C>,
    listener: &mut N,
) -> Result<End, NoLink>
    requires none_out { N.is_out listener.old ≡ false }
    ensures none_out { N.is_out listener.new ≡ false }
    ensures ended { result ≡ Err NoLinkEnded → N.has_ended listener.new ≡ true }
    ensures failed { result ≡ Err NoLinkFailed → Rose (N.faults listener.old) (N.faults listener.new) }
    ensures later { N.faults listener.old ≤ N.faults listener.new }
    ensures served { MatchResult result
        (λ end. ServesOne A.exchanged C.gives N.accepted N.taken_back N.Link.left N.Link.taken N.Link.faults
        (record { service = service.old; listener = listener.old }) end (record { service = service.new; listener = listener.new }))
        (λ _. FindsNone N.accepted
        (record { service = service.old; listener = listener.old }) (record { service = service.new; listener = listener.new })) }
{
    match listener.accept() {
        Accepted::Link(mut link) => {
            let end = serve(alloc, &mut link, service);
            listener.done(link);
            Ok(end)
        }
        Accepted::Ended => Err(NoLink::Ended),
        Accepted::Failed => Err(NoLink::Failed),
    }
}

/// Serves the links that the listener gives, one after the other, and hands each back: see `serve`. It goes on with the
/// next link whatever the end of a connection was, and returns once the listener has ended, or failed in this call. The exchanges of
/// all these links, joined in order, lead the service's asker from its state before the call to that after it. It allocates only what
/// `serve` does, and may wait for a peer forever.
pub fn serve_links<A: Ask, C: Clock, N: Listener, R: Wait>(
    rt: &R,
    alloc: Global,
    service: &mut HttpService<A, C>,
    listener: &mut N,
) -> DoorEnd
    requires none_out { N.is_out listener.old ≡ false }
    ensures none_out { N.is_out listener.new ≡ false }
    ensures ended { result.failed ≡ false → N.has_ended listener.new ≡ true }
    ensures failed { result.failed ≡ true → Rose (N.faults listener.old) (N.faults listener.new) }
    ensures later { N.faults listener.old ≤ N.faults listener.new }
    ensures served { ServesAll A.exchanged C.gives N.accepted N.taken_back N.Link.left N.Link.taken N.Link.faults
        (record { service = service.old; listener = listener.old }) (record { service = service.new; listener = listener.new })
        result.met_memory }
{
    let mut met_memory = false;
    for _ in rt.forever() {
        match serve_next(alloc, service, listener) {
            Ok(end) => met_memory |= is_memory(end),
            Err(NoLink::Ended) => return DoorEnd {
                failed: false,
                met_memory,
            },
            Err(NoLink::Failed) => return DoorEnd {
                failed: true,
                met_memory,
            },
        }
    }
    unreachable!()
}
