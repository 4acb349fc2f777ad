//! New passes, and passes that tell each other what they have seen.
ghost use Rattle.std.specs.Prelude.{◌≡◌, ◌<◌, ℕ, true, false, [], length, Some, None, IfSome};
ghost use mathlib.Core.List.{IsPrefix};
ghost use Rattle.counted_lock.specs.declared.views.Stage.TheVariants.{Free};
ghost use Rattle.counted_lock.specs.Views.{places_of, unnumbered, with_spare, joined, caught_up};
ghost use Rattle.counted_lock.specs.Turns.{IsBoard, TakesNumber, CatchesUp};
ghost use Rattle.counted_lock.specs.Passes.{IsPassOf, IsIdleView, IsNew};

use crate::closing::hold_apart;
use crate::lock::CountedLock;
use crate::pass::Pass;
use crate::plays::{CatchUp, CopySeen, GiveNumber, JoinNote, Number};
use crate::steps::{Board, COUNT, MADE, Place};
use crate::views::Journaled;
use std::sync::Wait;
use std::thread;

/// Takes a number for a new pass: the passes made, which rise by one. None if they are 2^64 - 1, the end of their word.
fn take_number<E, O, D: Journaled<E, O>, R: Wait>(
    rt: &R,
    board: &Board<D, E, O>,
    seat: &mut Place<D, E, O>,
) -> Option<u64>
    requires board { IsBoard board.now seat.old.table_id }
    requires idle { IsIdleView seat.old.me.0 }
    requires part { 0 < length seat.old.me.0.parts }
    ensures same { (seat.new.table_id ≡ seat.old.table_id) × (seat.new.id ≡ seat.old.id) }
    ensures taken { TakesNumber seat.old.me seat.new.me result }
{
    for _ in rt.forever() {
        let made = board.peek(MADE);
        if made == u64::MAX {
            return None;
        }
        if board.compare_exchange::<Number>(seat, MADE, made, made + 1) == made {
            return Some(made);
        }
        thread::yield_now();
    }
    unreachable!()
}

/// Tells `hearer` what `teller` has seen: by a note, and a load of the count, which ties both to one history.
pub(crate) fn tell<E, O, D: Journaled<E, O>>(
    board: &Board<D, E, O>,
    teller: &mut Place<D, E, O>,
    hearer: &mut Place<D, E, O>,
)
    requires boards { IsBoard board.now teller.old.table_id × IsBoard board.now hearer.old.table_id }
    requires free { hearer.old.me.0.stage ≡ Free }
    ensures same { (teller.new.table_id ≡ teller.old.table_id) × (hearer.new.table_id ≡ hearer.old.table_id) }
    ensures teller { teller.new.me ≡ teller.old.me }
    ensures hearer { CatchesUp teller.old.me.0.seen hearer.old.me hearer.new.me }
{
    let note = board.split_seat::<CopySeen>(teller);
    board.join_seat::<JoinNote>(hearer, note);
    board.load::<CatchUp>(hearer, COUNT);
}

impl<D: Journaled<E, O>, E, O> CountedLock<D, E, O> {
    /// Makes a new pass, with a number of its own and no entries, which has seen what the given one has seen. None if 2^64 - 1 passes
    /// were made. It tries again if another pass is split at the same moment, and does not allocate.
    pub fn split<R: Wait>(&self, rt: &R, pass: Pass<E, O>) -> (Pass<E, O>, Option<Pass<E, O>>)
        requires pass { IsPassOf self.now pass }
        ensures same { result.0 ≡ pass }
        ensures new { IfSome result.1 (λ q. IsPassOf self.now q × IsNew pass q) }
    {
        let board = &self.table.shared;
        let (number, mut seat) = pass.into_seat();
        let Some(next) = take_number(rt, board, &mut seat) else {
            return (Pass::of(number, seat), None);
        };
        let other = board.split_seat::<GiveNumber>(&mut seat);
        (Pass::of(number, seat), Some(Pass::of(next, other)))
    }

    /// Tells each pass what the other has seen: both have then seen one history that begins with what each had seen. The two have
    /// different numbers. It does not allocate.
    pub fn meet(&self, one: Pass<E, O>, other: Pass<E, O>) -> (Pass<E, O>, Pass<E, O>)
        requires one { IsPassOf self.now one }
        requires other { IsPassOf self.now other }
        ensures passes { IsPassOf self.now result.0 × IsPassOf self.now result.1 }
        ensures numbers { (result.0.number ≡ one.number) × (result.1.number ≡ other.number) }
        ensures places { (places_of one.number result.0.seen ≡ places_of one.number one.seen)
            × (places_of other.number result.1.seen ≡ places_of other.number other.seen) }
        ensures opened { (unnumbered result.0.seen ≡ unnumbered one.seen) × (unnumbered result.1.seen ≡ unnumbered other.seen) }
        ensures seen { IsPrefix one.seen result.0.seen × IsPrefix other.seen result.0.seen × (result.1.seen ≡ result.0.seen) }
        ensures apart { one.number ≡ other.number → ⊥ }
    {
        let board = &self.table.shared;
        let (one, other) = hold_apart(board, one, other);
        let (one_number, mut first) = one.into_seat();
        let (other_number, mut second) = other.into_seat();
        tell(board, &mut second, &mut first);
        tell(board, &mut first, &mut second);
        (Pass::of(one_number, first), Pass::of(other_number, second))
    }
}
