//! The rule of the lock, which holds between any two steps on its table.
ghost use Rattle.counted_lock.specs.Rule.{IsKept, first_view};

use crate::views::{Journaled, View};
use atomic_table::TableRule;
use std::marker::PhantomData;
use std::snapshot::Snapshot;

/// The rule over the three words, the slot and the views of all passes. No value of it is made.
pub struct Counting<D, E, O> {
    marker: PhantomData<(D, E, O)>,
}

impl<E, O, D: Journaled<E, O>> TableRule<Option<D>, View<E, O>, Snapshot<D>> for Counting<D, E, O> {
    ghost holds = { λ about. IsKept D.entries D.origin about.value };

    ghost first = { λ about. first_view (D.origin about.value) (D.entries about.value) };
}
