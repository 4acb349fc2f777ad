//! Passes, and passes that have the turn.
ghost use Rattle.std.specs.Prelude.{◌≡◌, [], ◌∷◌, Some, None};
ghost use Rattle.counted_lock.specs.Passes.{pass_of, IsIdleView, IsHolding};

use crate::views::View;
use atomic_table::{Badge, Seat};
use std::marker::Model;

/// The right to wait for a turn, and a number under which the history has its entries. It may go to another thread. Between two
/// calls it never has the turn.
#[derive(Drop)]
pub struct Pass<E, O> {
    number: u64,
    badge: Badge<View<E, O>>,
}

impl<E, O> Model for Pass<E, O> {
    ghost use Rattle.counted_lock.specs.Passes.{PassState, pass_of, IsIdle};

    ghost Value = { PassState E O };

    ghost view = { λ p. pass_of p.badge.table_id p.badge.views };

    ghost invariant = { λ p. IsIdle p.number p.badge.views };
}

/// A pass that has the turn, while its caller has the object. It cannot be dropped: `CountedLock::enter` or `CountedLock::leave` takes
/// it.
pub struct Held<D, E, O> {
    number: u64,
    seat: Seat<Option<D>, View<E, O>>,
}

impl<D, E, O> Model for Held<D, E, O> {
    ghost use Rattle.std.specs.Prelude.{◌≡◌, [], ◌∷◌, Some};
    ghost use Rattle.counted_lock.specs.Passes.{PassState, pass_of, IsHolding};

    ghost Value = { PassState E O };

    ghost view = { λ h. pass_of h.seat.table_id (h.seat.me.0 ∷ []) };

    ghost invariant = { λ h. IsHolding h.seat.me × (h.seat.me.0.number ≡ Some h.number) };
}

impl<E, O> Pass<E, O> {
    /// No pass: a value that takes the place of a pass while that is in a call.
    pub fn blank() -> Pass<E, O>
        ensures { result.origin ≡ None }
    {
        Pass {
            number: 0,
            badge: Badge::blank(),
        }
    }

    /// The number of the pass. No other pass of the lock has it.
    pub fn number(&self) -> u64
        ensures { result ≡ self.now.number }
    {
        self.number
    }

    /// The pass with this seat, which has no turn.
    pub(crate) fn of<D>(number: u64, seat: Seat<Option<D>, View<E, O>>) -> Pass<E, O>
        requires number { seat.me.0.number ≡ Some number }
        requires carries { seat.me.1 ≡ [] }
        requires idle { IsIdleView seat.me.0 }
        ensures { result ≡ pass_of seat.table_id (seat.me.0 ∷ []) }
    {
        Pass {
            number,
            badge: seat.into_badge(),
        }
    }

    /// The number and the seat of the pass.
    pub(crate) fn into_seat<D>(self) -> (u64, Seat<Option<D>, View<E, O>>)
        requires { (o : O) × (self.origin ≡ Some o) }
        ensures pass { self ≡ pass_of result.1.table_id (result.1.me.0 ∷ []) }
        ensures number { result.1.me.0.number ≡ Some result.0 }
        ensures carries { result.1.me.1 ≡ [] }
        ensures idle { IsIdleView result.1.me.0 }
    {
        let Pass { number, badge } = self;
        (number, badge.into_seat())
    }
}

impl<D, E, O> Held<D, E, O> {
    /// The pass with this seat, which holds the empty slot.
    pub(crate) fn of(number: u64, seat: Seat<Option<D>, View<E, O>>) -> Held<D, E, O>
        requires holding { IsHolding seat.me }
        requires number { seat.me.0.number ≡ Some number }
        ensures { result ≡ pass_of seat.table_id (seat.me.0 ∷ []) }
    {
        Held { number, seat }
    }

    /// The number and the seat of the pass.
    pub(crate) fn into_seat(self) -> (u64, Seat<Option<D>, View<E, O>>)
        ensures pass { self ≡ pass_of result.1.table_id (result.1.me.0 ∷ []) }
        ensures number { result.1.me.0.number ≡ Some result.0 }
        ensures holding { IsHolding result.1.me }
    {
        let Held { number, seat } = self;
        (number, seat)
    }
}
