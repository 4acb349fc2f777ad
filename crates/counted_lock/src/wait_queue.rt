//! The queue of those who wait for a turn. It says who tries when, and no more: whoever tries and has the turn, has it by the table alone.
use std::alloc::Global;
use std::sync::Wait;
use std::sync::atomic::{AtomicBool, AtomicU64, Ordering};

/// How many places to sleep at a queue has. Those who share one are woken together.
const PLACES: usize = 64;

/// A place to sleep at.
#[derive(Drop)]
struct Place {
    /// Whether somebody sleeps here, or is about to.
    is_used: AtomicBool,
    /// How often those who sleep here were woken.
    woken: AtomicU64,
}

/// Those who wait for a turn and sleep, by their tickets. The one whose ticket is the first tries for the turn; it is woken when a turn ends,
/// and if it then fails, the next turn is reserved for it.
#[derive(Drop)]
pub struct WaitQueue {
    /// The number of tickets that were taken.
    taken: AtomicU64,
    /// The first ticket that has not had its turn.
    first: AtomicU64,
    /// Whether the next turn is reserved for the first ticket.
    is_reserved: AtomicBool,
    places: Vec<Place>,
}

impl WaitQueue {
    /// A queue of nobody. None if memory runs out.
    pub fn new(alloc: Global) -> Option<WaitQueue> {
        let mut places = Vec::new(alloc);
        for _ in 0..PLACES {
            let place = Place {
                is_used: AtomicBool::new(false),
                woken: AtomicU64::new(0),
            };
            places.push(place).ok()?;
        }
        Some(WaitQueue {
            taken: AtomicU64::new(0),
            first: AtomicU64::new(0),
            is_reserved: AtomicBool::new(false),
            places,
        })
    }

    /// Whether one that is not in the queue may try for the turn.
    pub fn is_open(&self) -> bool {
        !self.is_reserved.load(Ordering::SeqCst)
    }

    /// Takes a ticket: the end of the queue. Tickets are counted from 0.
    pub fn join(&self) -> u64 {
        self.taken.fetch_add(1, Ordering::SeqCst)
    }

    /// Whether the ticket is the first.
    pub fn is_first(&self, ticket: u64) -> bool {
        self.first.load(Ordering::SeqCst) == ticket
    }

    /// Reserves the next turn for the first ticket.
    pub fn reserve(&self) {
        self.is_reserved.store(true, Ordering::SeqCst);
    }

    /// The first ticket, which is this one, has the turn.
    pub fn advance(&self, ticket: u64) {
        self.is_reserved.store(false, Ordering::SeqCst);
        self.first.store(ticket.wrapping_add(1), Ordering::SeqCst);
    }

    fn place(&self, ticket: u64) -> Option<&Place> {
        let place = usize::try_from(ticket % PLACES as u64).ok()?;
        self.places.get(place)
    }

    /// Says that the owner of the ticket is about to sleep. Returns what `sleep` needs: it returns at once if the ticket was woken since.
    pub fn prepare_to_sleep(&self, ticket: u64) -> u64 {
        match self.place(ticket) {
            Some(place) => {
                // in this order: whoever wakes after the store changes what is returned
                let woken = place.woken.load(Ordering::SeqCst);
                place.is_used.store(true, Ordering::SeqCst);
                woken
            }
            None => 0,
        }
    }

    /// Sleeps until the ticket is woken. It may also return for no reason.
    pub fn sleep<R: Wait>(&self, rt: &R, ticket: u64, woken: u64) {
        if let Some(place) = self.place(ticket) {
            place.woken.park(rt, (woken % 4_294_967_296) as u32);
        }
    }

    /// Wakes the owner of the first ticket, if it sleeps: after the end of a turn.
    pub fn wake_first(&self) {
        let first = self.first.load(Ordering::SeqCst);
        if self.taken.load(Ordering::SeqCst) == first {
            return;
        }
        if let Some(place) = self.place(first) {
            if place.is_used.swap(false, Ordering::SeqCst) {
                place.woken.fetch_add(1, Ordering::SeqCst);
                place.woken.wake_all();
            }
        }
    }
}
