//! What a pass knows, and what the object of a lock has.
ghost use Rattle.std.specs.Prelude.{◌≡◌, List, length};

use std::collections::LinkedList;

/// An object with a journal of its calls. Its `entries` are the journal; its `origin` is what no call changes, as what it was opened
/// with.
pub trait Journaled<E, O> {
    ghost entries: { Self → List E };

    ghost origin: { Self → O };

    /// The number of entries of its journal.
    fn entry_count(&self) -> u64
        ensures { result ≡ length (entries self.now) };
}

/// How far a pass is in its turn.
pub enum Stage {
    /// It does not have the turn.
    Free,
    /// It has the turn.
    Turn,
    /// It has the turn, and has loaded the count in this turn.
    Fresh,
    /// It has the turn, has loaded the count in this turn, and holds the slot.
    Holding,
}

/// An entry of the shared history, with the number of the pass that made it.
pub struct Stamped<E> {
    /// The entry, as the object's journal has it.
    pub entry: E,
    /// The number of the pass that made it; None if the journal had it when the lock was opened.
    pub maker: Option<u64>,
}

/// What a pass, or a note from one pass to another, knows. No value of it is made: it is for contracts and proofs alone.
pub struct View<E, O> {
    /// The number of the pass; None for a note.
    pub number: Option<u64>,
    /// A number that no pass has yet, for the pass that is split from this one. It is then the first of the parts.
    pub spare: Option<u64>,
    /// The numbers of the passes that it stands for. Each number given to a pass is in the parts of exactly one view, once.
    pub parts: LinkedList<u64>,
    /// Whether it is known to stand for all passes made.
    pub sole: bool,
    /// The origin of the object; None for a view that is used up.
    pub origin: Option<O>,
    /// The prefix of the history that it has seen.
    pub seen: LinkedList<Stamped<E>>,
    /// What a note has brought, until the next load of the count.
    pub told: LinkedList<Stamped<E>>,
    /// How far it is in its turn.
    pub stage: Stage,
}
