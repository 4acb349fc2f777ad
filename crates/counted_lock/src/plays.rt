//! What each kind of step on the table tells the seat that makes it. No value of these types is made.
ghost use Rattle.std.specs.Prelude.{◌≡◌, [], ◌++◌};
ghost use Rattle.counted_lock.specs.Views.{first_of, rest_of, without_spare, new_pass, with_parts, note, joined, spent};
ghost use Rattle.counted_lock.specs.Plays.{TurnTaken, Looked, SlotTaken, GivenBack, Released, Entered, Numbered, Counted, CaughtUp};

use crate::views::{Journaled, View};
use atomic_table::{Join, Play, Split};

/// A swap of 1 into the gate.
pub(crate) struct TakeTurn;

impl<S, E, O> Play<S, View<E, O>> for TakeTurn {
    ghost then = { λ _ me found after. TurnTaken me found after };
}

/// A load of the count by the seat that has the turn.
pub(crate) struct Look;

impl<S, E, O> Play<S, View<E, O>> for Look {
    ghost then = { λ _ me found after. Looked me found after };
}

/// A load by which the seat takes the slot, before the object is exchanged for nothing.
pub(crate) struct TakeSlot;

impl<E, O, D: Journaled<E, O>> Play<Option<D>, View<E, O>> for TakeSlot {
    ghost then = { λ _ me found after. SlotTaken D.entries D.origin me found after };
}

/// A load by which the seat returns the slot, after the object was exchanged back.
pub(crate) struct GiveBack;

impl<S, E, O> Play<S, View<E, O>> for GiveBack {
    ghost then = { λ _ me found after. GivenBack me found after };
}

/// A store of 0 into the gate.
pub(crate) struct Release;

impl<S, E, O> Play<S, View<E, O>> for Release {
    ghost then = { λ _ me found after. Released me found after };
}

/// An add to the count by the seat that holds the slot.
pub(crate) struct Enter;

impl<E, O, D: Journaled<E, O>> Play<Option<D>, View<E, O>> for Enter {
    ghost then = { λ _ me found after. Entered D.entries D.origin me found after };
}

/// A compare-exchange on the passes made, from a number to the next.
pub(crate) struct Number;

impl<S, E, O> Play<S, View<E, O>> for Number {
    ghost then = { λ step me found after. Numbered me found after step.first };
}

/// A load of the passes made, by a seat that gathers passes.
pub(crate) struct Count;

impl<S, E, O> Play<S, View<E, O>> for Count {
    ghost then = { λ _ me found after. Counted me found after };
}

/// A load of the count outside of a turn, at which the seat sees what a note has brought.
pub(crate) struct CatchUp;

impl<S, E, O> Play<S, View<E, O>> for CatchUp {
    ghost then = { λ _ me found after. CaughtUp me found after };
}

/// A load by which a new seat comes to the table, which knows nothing yet.
pub(crate) struct NewSeat;

impl<S, E, O> Play<S, View<E, O>> for NewSeat {
    ghost then = { λ _ _ _ after. after.0 ≡ spent };
}

/// A split by which a new pass takes the number that the seat has for it.
pub(crate) struct GiveNumber;

impl<E, O> Split<View<E, O>> for GiveNumber {
    ghost left = { without_spare };

    ghost right = { new_pass };
}

/// A split for a note, which has a copy of what the seat has seen, and stands for no pass.
pub(crate) struct CopySeen;

impl<E, O> Split<View<E, O>> for CopySeen {
    ghost left = { λ v. v };

    ghost right = { note [] };
}

/// A split for a note, which has a copy of what the seat has seen, and stands for the first of the seat's passes in its place.
pub(crate) struct LendPart;

impl<E, O> Split<View<E, O>> for LendPart {
    ghost left = { λ v. with_parts (rest_of v.parts) v };

    ghost right = { λ v. note (first_of v.parts) v };
}

/// A join by which a seat takes in a note: it is told what that has seen, and stands for its own passes and then for those of the note.
pub(crate) struct JoinNote;

impl<E, O> Join<View<E, O>> for JoinNote {
    ghost both = { joined };

    ghost spent = { spent };
}

/// A join by which a seat takes in a note: it stands for its own passes and then for those of the note.
pub(crate) struct TakePart;

impl<E, O> Join<View<E, O>> for TakePart {
    ghost both = { λ v w. with_parts (v.parts ++ w.parts) v };

    ghost spent = { spent };
}
