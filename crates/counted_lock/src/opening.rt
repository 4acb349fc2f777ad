//! Opening a lock, with its first pass.
ghost use Rattle.std.specs.Prelude.{◌≡◌, [], ◌∷◌, map, Some, None, IfOk, IfErr};
ghost use Rattle.counted_lock.specs.Views.{stamped};
ghost use Rattle.counted_lock.specs.Passes.{IsPassOf};

use crate::lock::CountedLock;
use crate::pass::Pass;
use crate::views::Journaled;
use crate::wait_queue::WaitQueue;
use atomic_table::{Refused, Table};
use std::alloc::{AllocFailed, Global};
use std::snapshot::Snapshot;

/// The one object in the list.
fn only<D>(mut slots: Vec<Option<D>>) -> D
    requires { (d : D) × (slots.items ≡ Some d ∷ []) }
    ensures { slots.items ≡ Some result ∷ [] }
{
    let last = slots.pop();
    slots.destroy_empty();
    last.unwrap().unwrap()
}

/// A list of one object. The error returns the object if memory runs out.
fn alone<D>(alloc: Global, object: D) -> Result<Vec<Option<D>>, D>
    ensures ok { IfOk result (λ v. v.items ≡ Some object ∷ []) }
    ensures err { IfErr result (λ d. d ≡ object) }
{
    let mut slots = Vec::new(alloc);
    match slots.push(Some(object)) {
        Ok(()) => Ok(slots),
        Err(failed) => {
            let AllocFailed { value } = failed;
            slots.destroy_empty();
            Err(value.unwrap())
        }
    }
}

impl<D: Journaled<E, O>, E, O> CountedLock<D, E, O> {
    /// Opens a lock over an object, with the first pass, whose number is 0. The pass has seen the object's journal, whose entries
    /// have no number. The error returns the object if memory runs out.
    pub fn open(alloc: Global, object: D) -> Result<(CountedLock<D, E, O>, Pass<E, O>), D>
        ensures pass { IfOk result (λ r. IsPassOf r.0 r.1) }
        ensures origin { IfOk result (λ r. r.0.origin ≡ D.origin object) }
        ensures first { IfOk result (λ r. (r.1.number ≡ 0) × (r.1.seen ≡ map (stamped None) (D.entries object))) }
        ensures err { IfErr result (λ d. d ≡ object) }
    {
        match WaitQueue::new(alloc) {
            Some(queue) => CountedLock::open_with(alloc, object, queue),
            None => Err(object),
        }
    }

    /// The same, with this queue, which is empty.
    fn open_with(
        alloc: Global,
        object: D,
        queue: WaitQueue,
    ) -> Result<(CountedLock<D, E, O>, Pass<E, O>), D>
        ensures pass { IfOk result (λ r. IsPassOf r.0 r.1) }
        ensures origin { IfOk result (λ r. r.0.origin ≡ D.origin object) }
        ensures first { IfOk result (λ r. (r.1.number ≡ 0) × (r.1.seen ≡ map (stamped None) (D.entries object))) }
        ensures err { IfErr result (λ d. d ≡ object) }
    {
        let about = Snapshot::of(&object);
        let count = object.entry_count();
        let slots = alone(alloc, object)?;
        match Table::new(alloc, &[count, 0, 1], slots, &about) {
            Ok((table, seat)) => Ok((CountedLock { table, queue }, Pass::of(0, seat))),
            Err(Refused { slots }) => Err(only(slots)),
        }
    }
}
