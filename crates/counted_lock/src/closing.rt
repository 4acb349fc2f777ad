//! Closing a lock.
//!
//! A new seat gathers the parts of the passes that are handed in, which are their numbers. If these are the parts of all passes, no
//! other view has the turn: the seat takes it, has then seen the whole history, and tells each pass what it has seen. The object is in
//! the slot. Otherwise the parts are returned, to each pass its own.
ghost use Rattle.std.specs.Prelude.{◌≡◌, true, ◌<◌, ◌≤◌, ℕ, List, [], ◌∷◌, ◌++◌, map, length, All, Some, None, IfOk, IfErr};
ghost use mathlib.Core.List.{IsPrefix};
ghost use Rattle.counted_lock.specs.declared.views.Stage.TheVariants.{Free, Fresh};
ghost use Rattle.counted_lock.specs.Views.{places_of, unnumbered, entry_of};
ghost use Rattle.counted_lock.specs.Turns.{IsBoard, SeesWhole, LeavesObject};
ghost use Rattle.counted_lock.specs.Passes.{IsPassOf, numbers_of, lent};
ghost use Rattle.counted_lock.specs.Closing.{IsGatherer, Lends, TakesPart, IsAt, IsLentAt, AreLent, AreBack, IsShared};

use crate::lock::CountedLock;
use crate::notes::tell;
use crate::pass::Pass;
use crate::plays::{CatchUp, Count, JoinNote, LendPart, NewSeat, TakePart};
use crate::steps::{self, Board, COUNT, MADE, Place};
use crate::views::Journaled;
use std::mem;

/// A lock that was not closed, since not all passes were handed in.
#[derive(Drop)]
pub struct PassesOut<D: Journaled<E, O>, E, O> {
    /// The lock, as it was.
    pub lock: CountedLock<D, E, O>,
    /// The passes that were handed in, as they were.
    pub passes: Vec<Pass<E, O>>,
    /// The number of passes that were handed in.
    pub given: usize,
    /// The number of passes that were made, which is greater.
    pub made: u64,
}

/// A pass lends its part to the seat that gathers, which is told what the pass has seen.
fn lend<E, O, D: Journaled<E, O>>(
    board: &Board<D, E, O>,
    all: &mut Place<D, E, O>,
    pass: Pass<E, O>,
) -> Pass<E, O>
    requires board { IsBoard board.now all.old.table_id }
    requires gatherer { IsGatherer all.old.me }
    requires pass { IsAt all.old.table_id pass }
    ensures same { all.new.table_id ≡ all.old.table_id }
    ensures gathered { Lends pass all.old.me all.new.me }
    ensures lent { result ≡ lent pass }
{
    let (number, mut seat) = pass.into_seat();
    let note = board.split_seat::<LendPart>(&mut seat);
    board.join_seat::<JoinNote>(all, note);
    board.load::<CatchUp>(all, COUNT);
    Pass::of(number, seat)
}

/// Returns its part to a pass, which is the first that the seat has.
fn give_back<E, O, D: Journaled<E, O>>(
    board: &Board<D, E, O>,
    all: &mut Place<D, E, O>,
    pass: Pass<E, O>,
) -> Pass<E, O>
    requires board { IsBoard board.now all.old.table_id }
    requires gatherer { IsGatherer all.old.me }
    requires first { (ns : List ℕ) × (all.old.me.0.parts ≡ pass.number ∷ ns) }
    requires pass { IsLentAt all.old.table_id pass }
    ensures same { all.new.table_id ≡ all.old.table_id }
    ensures gathered { IsGatherer all.new.me × (all.old.me.0.parts ≡ pass.number ∷ all.new.me.0.parts) }
    ensures back { TakesPart pass result }
{
    let (number, mut seat) = pass.into_seat();
    let note = board.split_seat::<LendPart>(all);
    board.join_seat::<TakePart>(&mut seat, note);
    Pass::of(number, seat)
}

/// Two passes have different numbers: both lend their parts to a new seat, which has no number twice, and get them back.
pub(crate) fn hold_apart<E, O, D: Journaled<E, O>>(
    board: &Board<D, E, O>,
    one: Pass<E, O>,
    other: Pass<E, O>,
) -> (Pass<E, O>, Pass<E, O>)
    requires board { IsBoard board.now one.table }
    requires one { IsAt one.table one }
    requires other { IsAt one.table other }
    ensures same { (result.0 ≡ one) × (result.1 ≡ other) }
    ensures apart { one.number ≡ other.number → ⊥ }
{
    let mut all = board.load_new_seat::<NewSeat>(COUNT).1;
    let first = lend(board, &mut all, one);
    let second = lend(board, &mut all, other);
    let first = give_back(board, &mut all, first);
    let second = give_back(board, &mut all, second);
    (first, second)
}

/// All passes lend their parts, in order.
fn lend_all<E, O, D: Journaled<E, O>>(
    board: &Board<D, E, O>,
    all: &mut Place<D, E, O>,
    passes: &mut Vec<Pass<E, O>>,
)
    requires board { IsBoard board.now all.old.table_id }
    requires gatherer { IsGatherer all.old.me }
    requires passes { All (IsAt all.old.table_id) passes.old.items }
    ensures same { all.new.table_id ≡ all.old.table_id }
    ensures gatherer { IsGatherer all.new.me }
    ensures parts { all.new.me.0.parts ≡ all.old.me.0.parts ++ numbers_of passes.old.items }
    ensures heard { All (λ p. IsPrefix p.seen all.new.me.0.seen) passes.old.items }
    ensures lent { AreLent passes.old.items passes.new.items }
{
    for pass in passes.iter_mut() {
        let mine = mem::replace(pass, Pass::blank());
        *pass = lend(board, all, mine);
    }
}

/// Returns their parts to all passes, in order.
fn give_back_all<E, O, D: Journaled<E, O>>(
    board: &Board<D, E, O>,
    all: &mut Place<D, E, O>,
    passes: &mut Vec<Pass<E, O>>,
)
    requires board { IsBoard board.now all.old.table_id }
    requires gatherer { IsGatherer all.old.me }
    requires parts { all.old.me.0.parts ≡ numbers_of passes.old.items }
    requires passes { All (IsLentAt all.old.table_id) passes.old.items }
    ensures back { AreBack passes.old.items passes.new.items }
{
    for pass in passes.iter_mut() {
        let mine = mem::replace(pass, Pass::blank());
        *pass = give_back(board, all, mine);
    }
}

/// The seat that stands for all passes takes the turn, and has then seen the whole history.
fn see_whole<E, O, D: Journaled<E, O>>(board: &Board<D, E, O>, all: &mut Place<D, E, O>)
    requires board { IsBoard board.now all.old.table_id }
    requires sole { all.old.me.0.sole ≡ true }
    requires free { all.old.me.0.stage ≡ Free }
    requires part { 0 < length all.old.me.0.parts }
    ensures same { all.new.table_id ≡ all.old.table_id }
    ensures seen { SeesWhole all.old.me all.new.me }
{
    steps::take_turn_alone(board, all);
    steps::look(board, all);
}

/// Tells a pass what the seat has seen, which begins with what the pass has seen: the pass has no entries in it that it had not seen, and it
/// has no others without a number.
fn tell_pass<E, O, D: Journaled<E, O>>(
    board: &Board<D, E, O>,
    all: &mut Place<D, E, O>,
    pass: Pass<E, O>,
) -> Pass<E, O>
    requires board { IsBoard board.now all.old.table_id }
    requires pass { IsLentAt all.old.table_id pass }
    requires begins { IsPrefix pass.seen all.old.me.0.seen }
    ensures same { (all.new.table_id ≡ all.old.table_id) × (all.new.me ≡ all.old.me) }
    ensures placed { places_of pass.number all.old.me.0.seen ≡ places_of pass.number pass.seen }
    ensures opened { unnumbered all.old.me.0.seen ≡ unnumbered pass.seen }
{
    let (number, mut seat) = pass.into_seat();
    tell(board, all, &mut seat);
    Pass::of(number, seat)
}

/// Tells all passes what the seat has seen.
fn tell_all<E, O, D: Journaled<E, O>>(
    board: &Board<D, E, O>,
    all: &mut Place<D, E, O>,
    passes: &mut Vec<Pass<E, O>>,
)
    requires board { IsBoard board.now all.old.table_id }
    requires passes { All (IsLentAt all.old.table_id) passes.old.items }
    requires begins { All (λ p. IsPrefix p.seen all.old.me.0.seen) passes.old.items }
    ensures same { (all.new.table_id ≡ all.old.table_id) × (all.new.me ≡ all.old.me) }
    ensures placed { All (λ p. places_of p.number all.old.me.0.seen ≡ places_of p.number p.seen) passes.old.items }
    ensures opened { All (λ p. unnumbered all.old.me.0.seen ≡ unnumbered p.seen) passes.old.items }
{
    for pass in passes.iter_mut() {
        let mine = mem::replace(pass, Pass::blank());
        *pass = tell_pass(board, all, mine);
    }
}

/// Takes the object out of a lock, by a seat that stands for all passes and has seen the whole history.
fn take_out<D: Journaled<E, O>, E, O>(lock: CountedLock<D, E, O>, all: Place<D, E, O>) -> D
    requires table { all.table_id ≡ lock.table }
    requires sole { all.me.0.sole ≡ true }
    requires fresh { all.me.0.stage ≡ Fresh }
    ensures { LeavesObject D.entries D.origin lock.origin all.me.0 result }
{
    let CountedLock {
        table,
        queue: _queue,
    } = lock;
    let mut closed = table.close_with(all);
    let slot = closed.take(0);
    closed.free();
    slot.unwrap()
}

impl<D: Journaled<E, O>, E, O> CountedLock<D, E, O> {
    /// Closes the lock if all passes that were made are handed in, of which there is one at least, and returns the object. Its journal is
    /// the history without numbers. The history begins with what each pass has seen, and has no entry under the number of a pass that this pass has not
    /// seen, and no others without a number. No two of the passes have the same number, and there are no entries under any other
    /// number. Otherwise the error returns
    /// lock and passes as they were, and says how many passes were handed in and how many were made. It does not allocate, and does
    /// not wait.
    pub fn close(self, mut passes: Vec<Pass<E, O>>) -> Result<D, PassesOut<D, E, O>>
        requires passes { All (IsPassOf self) passes.items }
        ensures shared { IfOk result (λ d. IsShared D.entries d passes.items) }
        ensures some { IfOk result (λ _. 0 < length passes.items) }
        ensures origin { IfOk result (λ d. D.origin d ≡ self.origin) }
        ensures untouched { IfErr result (λ o. (o.lock ≡ self) × (o.passes.items ≡ passes.items)) }
        ensures counts { IfErr result (λ o. (o.given ≡ length passes.items) × (o.given < o.made)) }
    {
        let board = &self.table.shared;
        let mut all = board.load_new_seat::<NewSeat>(COUNT).1;
        lend_all(board, &mut all, &mut passes);
        let made = board.load::<Count>(&mut all, MADE);
        let given = passes.len();
        if (given as u64) < made {
            give_back_all(board, &mut all, &mut passes);
            return Err(PassesOut {
                lock: self,
                passes,
                given,
                made,
            });
        }
        see_whole(board, &mut all);
        tell_all(board, &mut all, &mut passes);
        Ok(take_out(self, all))
    }
}
