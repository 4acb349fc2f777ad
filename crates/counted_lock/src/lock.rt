//! The lock, and its turns.
ghost use Rattle.std.specs.Prelude.{◌≡◌, ◌<◌, ◌^◌, [], ◌∷◌, ◌++◌, map, length, Some, None};
ghost use mathlib.Core.List.{IsPrefix};
ghost use Rattle.counted_lock.specs.Views.{places_of, unnumbered, entry_of, stamped};
ghost use Rattle.counted_lock.specs.Passes.{IsPassOf};

use crate::pass::{Held, Pass};
use crate::rule::Counting;
use crate::steps;
use crate::views::{Journaled, View};
use crate::wait_queue::WaitQueue;
use atomic_table::Table;
use std::alloc::Global;
use std::marker::Model;
use std::snapshot::Snapshot;
use std::sync::Wait;

/// An object that threads call in turns, one after the other, and the count of the entries of its journal.
#[derive(Drop)]
pub struct CountedLock<D: Journaled<E, O>, E, O> {
    pub(crate) table: Table<Option<D>, View<E, O>, Snapshot<D>, Counting<D, E, O>, Global>,
    pub(crate) queue: WaitQueue,
}

impl<D: Journaled<E, O>, E, O> Model for CountedLock<D, E, O> {
    ghost use Rattle.std.specs.Prelude.{◌≡◌};
    ghost use Rattle.counted_lock.specs.Passes.{LockIdentity};

    ghost Value = { LockIdentity O };

    ghost view = { λ l. record { table = l.table.shared.table_id; origin = D.origin l.table.shared.key.value } };

    ghost invariant = { λ l. (l.table.shared.table_id.words ≡ 3) × (l.table.shared.table_id.slots ≡ 1) };
}

impl<D: Journaled<E, O>, E, O> CountedLock<D, E, O> {
    /// Waits for the turn, and takes the object out of the lock. The journal of the object is the whole history, and the pass has
    /// seen it. It has no entries under the number of the pass, and none without a number, that the pass had not seen. `enter` or `leave` ends the turn; a turn that is not ended keeps all other passes waiting.
    pub fn begin<R: Wait>(&self, rt: &R, pass: Pass<E, O>) -> (Held<D, E, O>, D)
        requires pass { IsPassOf self.now pass }
        ensures pass { IsPassOf self.now result.0 }
        ensures number { result.0.number ≡ pass.number }
        ensures seen { IsPrefix pass.seen result.0.seen }
        ensures placed { places_of pass.number result.0.seen ≡ places_of pass.number pass.seen }
        ensures opened { unnumbered result.0.seen ≡ unnumbered pass.seen }
        ensures journal { D.entries result.1 ≡ map entry_of result.0.seen }
        ensures origin { D.origin result.1 ≡ self.now.origin }
    {
        let board = &self.table.shared;
        let (number, mut seat) = pass.into_seat();
        steps::take_turn(rt, board, &self.queue, &mut seat);
        steps::look(board, &mut seat);
        let object = steps::take_object(board, &mut seat);
        (Held::of(number, seat), object)
    }

    /// Puts the object back, whose journal has one entry more, adds that entry to the history under the number of the pass, and ends
    /// the turn.
    pub fn enter(&self, held: Held<D, E, O>, object: D) -> Pass<E, O>
        requires held { IsPassOf self.now held }
        requires origin { D.origin object ≡ self.now.origin }
        requires entry { (e : E) × (D.entries object ≡ map entry_of held.seen ++ e ∷ []) }
        requires short { length (D.entries object) < 2 ^ 64 }
        ensures pass { IsPassOf self.now result }
        ensures number { result.number ≡ held.number }
        ensures seen { (e : E) → D.entries object ≡ map entry_of held.seen ++ e ∷ [] → result.seen ≡ held.seen ++ stamped (Some held.number) e ∷ [] }
    {
        let board = &self.table.shared;
        let (number, mut seat) = held.into_seat();
        steps::enter_object(board, &mut seat, object);
        steps::leave(board, &mut seat);
        self.queue.wake_first();
        Pass::of(number, seat)
    }

    /// Puts the object back, whose journal is as it was, and ends the turn.
    pub fn leave(&self, held: Held<D, E, O>, object: D) -> Pass<E, O>
        requires held { IsPassOf self.now held }
        requires origin { D.origin object ≡ self.now.origin }
        requires journal { D.entries object ≡ map entry_of held.seen }
        ensures pass { IsPassOf self.now result }
        ensures number { result.number ≡ held.number }
        ensures seen { result.seen ≡ held.seen }
    {
        let board = &self.table.shared;
        let (number, mut seat) = held.into_seat();
        steps::put_object(board, &mut seat, object);
        steps::leave(board, &mut seat);
        self.queue.wake_first();
        Pass::of(number, seat)
    }
}
