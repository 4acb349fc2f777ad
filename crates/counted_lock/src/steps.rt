//! The steps of one turn on the table of a lock.
ghost use Rattle.std.specs.Prelude.{◌≡◌, ◌<◌, ◌^◌, true, [], ◌∷◌, ◌++◌, map, length, Some, None};
ghost use Rattle.counted_lock.specs.declared.views.Stage.TheVariants.{Free, Turn, Fresh, Holding};
ghost use Rattle.counted_lock.specs.Views.{staged, entry_of};
ghost use Rattle.counted_lock.specs.Turns.{IsBoard, SeesWhole, OutWith, EntersOne, HasEntered, SeesMore, IsBack, IsNumbered};

use crate::plays::{Enter, GiveBack, Look, Release, TakeSlot, TakeTurn};
use crate::rule::Counting;
use crate::views::{Journaled, View};
use crate::wait_queue::WaitQueue;
use atomic_table::{Seat, Shared};
use std::snapshot::Snapshot;
use std::sync::Wait;
use std::thread;

/// The table of a lock, as all threads share it.
pub(crate) type Board<D, E, O> = Shared<Option<D>, View<E, O>, Snapshot<D>, Counting<D, E, O>>;

/// The seat of a pass at that table.
pub(crate) type Place<D, E, O> = Seat<Option<D>, View<E, O>>;

/// The word that counts the entries of the history.
pub(crate) const COUNT: usize = 0;

/// The word that is 1 while a pass has the turn, and otherwise 0.
pub(crate) const GATE: usize = 1;

/// The word that counts the passes made, 1 at least.
pub(crate) const MADE: usize = 2;

/// How many tries a pass makes for the turn, and lets other threads go first after each, before it sleeps in the queue.
const QUICK_TRIES: u32 = 16;

/// A wait for the turn, of which contracts see nothing.
#[derive(Drop)]
struct Waiting {
    /// Its ticket in the queue; None as long as it is not in it.
    ticket: Option<u64>,
    /// How often its place was woken, when it last prepared to sleep; None while it is awake.
    woken: Option<u64>,
    /// How many tries it has made since it came, or since it was woken.
    tries: u32,
}

impl Waiting {
    fn new() -> Waiting {
        Waiting {
            ticket: None,
            woken: None,
            tries: 0,
        }
    }

    /// Whether it may try for the turn.
    fn may_try(&self, queue: &WaitQueue) -> bool {
        match self.ticket {
            Some(ticket) => queue.is_first(ticket),
            None => queue.is_open(),
        }
    }

    /// It has the turn.
    fn end(&self, queue: &WaitQueue) {
        if let Some(ticket) = self.ticket {
            queue.advance(ticket);
        }
    }

    /// It does not have the turn, and waits: for a moment; or once its tries were many, it enters the queue, and sleeps after another try.
    fn wait<R: Wait>(&mut self, rt: &R, queue: &WaitQueue) {
        if let (Some(ticket), Some(woken)) = (self.ticket, self.woken) {
            queue.sleep(rt, ticket, woken);
            self.woken = None;
            self.tries = 0;
            return;
        }
        if self.tries < QUICK_TRIES && self.may_try_soon(queue) {
            self.tries += 1;
            thread::yield_now();
            return;
        }
        let ticket = match self.ticket {
            Some(ticket) => ticket,
            None => queue.join(),
        };
        self.ticket = Some(ticket);
        self.woken = Some(queue.prepare_to_sleep(ticket));
    }

    /// Whether it stays awake after a failed try: outside of the queue, and as the first in it, for which the next turn is then reserved.
    fn may_try_soon(&self, queue: &WaitQueue) -> bool {
        match self.ticket {
            None => true,
            Some(ticket) if queue.is_first(ticket) => {
                queue.reserve();
                true
            }
            Some(_) => false,
        }
    }
}

/// Waits for the turn: swaps 1 into the gate until it was 0. The queue says when it tries.
pub(crate) fn take_turn<E, O, D: Journaled<E, O>, R: Wait>(
    rt: &R,
    board: &Board<D, E, O>,
    queue: &WaitQueue,
    seat: &mut Place<D, E, O>,
)
    requires board { IsBoard board.now seat.old.table_id }
    requires free { seat.old.me.0.stage ≡ Free }
    requires part { 0 < length seat.old.me.0.parts }
    ensures same { (seat.new.table_id ≡ seat.old.table_id) × (seat.new.id ≡ seat.old.id) }
    ensures turn { seat.new.me ≡ (staged Turn seat.old.me.0, seat.old.me.1) }
{
    let mut waiting = Waiting::new();
    for _ in rt.forever() {
        if waiting.may_try(queue) && board.swap::<TakeTurn>(seat, GATE, 1) == 0 {
            waiting.end(queue);
            return;
        }
        waiting.wait(rt, queue);
    }
    unreachable!()
}

/// Takes the turn by one swap, for a seat that stands for all passes: no other seat has the turn then.
pub(crate) fn take_turn_alone<E, O, D: Journaled<E, O>>(
    board: &Board<D, E, O>,
    seat: &mut Place<D, E, O>,
)
    requires board { IsBoard board.now seat.old.table_id }
    requires sole { seat.old.me.0.sole ≡ true }
    requires free { seat.old.me.0.stage ≡ Free }
    requires part { 0 < length seat.old.me.0.parts }
    ensures same { (seat.new.table_id ≡ seat.old.table_id) × (seat.new.id ≡ seat.old.id) }
    ensures turn { seat.new.me ≡ (staged Turn seat.old.me.0, seat.old.me.1) }
{
    board.swap::<TakeTurn>(seat, GATE, 1);
}

/// Loads the count in the turn: the seat has then seen the whole history.
pub(crate) fn look<E, O, D: Journaled<E, O>>(board: &Board<D, E, O>, seat: &mut Place<D, E, O>)
    requires board { IsBoard board.now seat.old.table_id }
    requires turn { seat.old.me.0.stage ≡ Turn }
    ensures same { (seat.new.table_id ≡ seat.old.table_id) × (seat.new.id ≡ seat.old.id) }
    ensures seen { SeesWhole seat.old.me seat.new.me }
{
    board.load::<Look>(seat, COUNT);
}

/// Takes the slot, and the object out of it.
pub(crate) fn take_object<E, O, D: Journaled<E, O>>(
    board: &Board<D, E, O>,
    seat: &mut Place<D, E, O>,
) -> D
    requires board { IsBoard board.now seat.old.table_id }
    requires fresh { seat.old.me.0.stage ≡ Fresh }
    requires free { seat.old.me.1 ≡ [] }
    ensures same { (seat.new.table_id ≡ seat.old.table_id) × (seat.new.id ≡ seat.old.id) }
    ensures out { OutWith D.entries D.origin seat.old.me seat.new.me result }
{
    board.load::<TakeSlot>(seat, COUNT);
    let found = board.exchange(seat, 0, None);
    found.unwrap()
}

/// Puts the object into the slot that the seat holds.
pub(crate) fn put_object<E, O, D: Journaled<E, O>>(
    board: &Board<D, E, O>,
    seat: &mut Place<D, E, O>,
    object: D,
)
    requires board { IsBoard board.now seat.old.table_id }
    requires out { seat.old.me.1 ≡ (0, None) ∷ [] }
    ensures same { (seat.new.table_id ≡ seat.old.table_id) × (seat.new.id ≡ seat.old.id) }
    ensures back { seat.new.me ≡ (seat.old.me.0, (0, Some object) ∷ []) }
{
    match board.exchange(seat, 0, Some(object)) {
        None => {}
        Some(_) => unreachable!(),
    }
}

/// Adds one to the count: the entry that the object's journal has more than the history is then the last of the history.
fn add_entry<E, O, D: Journaled<E, O>>(board: &Board<D, E, O>, seat: &mut Place<D, E, O>)
    requires board { IsBoard board.now seat.old.table_id }
    requires holding { seat.old.me.0.stage ≡ Holding }
    requires numbered { IsNumbered seat.old.me.0 }
    requires entry { EntersOne D.entries seat.old.me }
    ensures same { (seat.new.table_id ≡ seat.old.table_id) × (seat.new.id ≡ seat.old.id) }
    ensures entered { HasEntered D.entries seat.old.me seat.new.me }
{
    board.fetch_add::<Enter>(seat, COUNT, 1);
}

/// Puts the object back, whose journal has one entry more, and adds that entry to the history.
pub(crate) fn enter_object<E, O, D: Journaled<E, O>>(
    board: &Board<D, E, O>,
    seat: &mut Place<D, E, O>,
    object: D,
)
    requires board { IsBoard board.now seat.old.table_id }
    requires out { seat.old.me.1 ≡ (0, None) ∷ [] }
    requires holding { seat.old.me.0.stage ≡ Holding }
    requires numbered { IsNumbered seat.old.me.0 }
    requires entry { (e : E) × (D.entries object ≡ map entry_of seat.old.me.0.seen ++ e ∷ []) }
    requires short { length (D.entries object) < 2 ^ 64 }
    ensures same { (seat.new.table_id ≡ seat.old.table_id) × (seat.new.id ≡ seat.old.id) }
    ensures entered { SeesMore D.entries seat.old.me.0 seat.new.me object }
{
    put_object(board, seat, object);
    add_entry(board, seat);
}

/// Returns the slot, and then ends the turn: stores 0 into the gate.
pub(crate) fn leave<E, O, D: Journaled<E, O>>(board: &Board<D, E, O>, seat: &mut Place<D, E, O>)
    requires board { IsBoard board.now seat.old.table_id }
    requires holding { seat.old.me.0.stage ≡ Holding }
    requires back { IsBack D.entries D.origin seat.old.me }
    ensures same { (seat.new.table_id ≡ seat.old.table_id) × (seat.new.id ≡ seat.old.id) }
    ensures free { seat.new.me ≡ (staged Free seat.old.me.0, []) }
{
    board.load::<GiveBack>(seat, COUNT);
    board.store::<Release>(seat, GATE, 0);
}
