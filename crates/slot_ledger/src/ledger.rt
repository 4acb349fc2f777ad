//! The ledger.
ghost use Rattle.std.specs.Prelude.{◌≡◌, ◌+◌, ◌-◌, ◌≤◌, [], ◌∷◌, ◌++◌, ℕ, List, true, false, ◌||◌, OnOk, OnErr, filter, is_some};
ghost use Rattle.bt_rows.specs.declared.pool.Fill.{Fill as FillType};
ghost use Rattle.std.specs.List.{All, list_any, position};
ghost use Rattle.std.specs.Option.{option_copied};
ghost use Rattle.slot_ledger.specs.Ledgers.{Entry as EntryRow, is_of, has_node, has_free_slots, has_held_slots, is_unheld, with_node, with_holder, without_node, holding, giving, fits, precedes, best, chosen, is_within};
ghost use Rattle.bt_rows.specs.Choice.{is_lower};
ghost use Rattle.slot_ledger.specs.Calls.{Call, AreLegal, HoldsItsSum, after_calls};

use bt_base::{Duplicate, Id, NoMemory};
use bt_rows::pool::Fill;
use std::alloc::Global;
use std::marker::Model;

/// What a ledger keeps of a node: its number, its pool, how many slots it has, and how many of these are held.
pub struct Entry {
    pub node: u64,
    pub pool: Id,
    pub slots: u8,
    pub held: u8,
}

impl Drop for Entry {
    fn drop(self) {
        let Entry {
            node: _node,
            pool: _pool,
            slots: _slots,
            held: _held,
        } = self;
    }
}

/// The held slots of nodes. It is a list of nodes, and each call scans it.
pub struct Ledger {
    entries: Vec<Entry>,
}

impl Drop for Ledger {
    fn drop(self) {
        let Ledger { entries: _entries } = self;
    }
}

impl Model for Ledger {
    ghost use Rattle.std.specs.Prelude.{List};
    ghost use Rattle.bt_rows.specs.Lists.{AreDistinct};
    ghost use Rattle.slot_ledger.specs.Ledgers.{Entry as EntryRow, same_node};

    ghost Value = { List EntryRow };

    ghost view = { λ ledger. ledger.entries.items };

    ghost invariant = { λ ledger. AreDistinct same_node ledger.entries.items };
}

impl Ledger {
    /// A ledger without nodes. It does not allocate.
    pub fn new(alloc: Global) -> Ledger
        ensures { result ≡ [] }
    {
        Ledger {
            entries: Vec::new(alloc),
        }
    }

    /// Adds a node of the pool, with the given number of slots, none of which is held. The only error is out of memory, which
    /// changes nothing.
    pub fn add_node(&mut self, node: u64, pool: &Id, slots: u8) -> Result<(), NoMemory>
        requires { has_node self.old node ≡ false }
        ensures ok { OnOk result (self.new ≡ with_node self.old node pool.now slots) }
        ensures err { OnErr result (self.new ≡ self.old) }
    {
        let pool = pool.copy()?;
        self.entries.push(Entry {
            node,
            pool,
            slots,
            held: 0,
        })?;
        Ok(())
    }

    /// Adds a node of the pool, with the given number of slots, of which `held` are held. The only error is out of memory, which changes
    /// nothing.
    pub fn add_holding(&mut self, node: u64, pool: &Id, slots: u8, held: u8) -> Result<(), NoMemory>
        requires new { has_node self.old node ≡ false }
        requires few { held ≤ slots }
        ensures ok { OnOk result (self.new ≡ with_holder self.old node pool.now slots held) }
        ensures err { OnErr result (self.new ≡ self.old) }
    {
        let pool = pool.copy()?;
        self.entries.push(Entry {
            node,
            pool,
            slots,
            held,
        })?;
        Ok(())
    }

    /// Removes a node of which no slot is held. It does not allocate.
    pub fn remove_node(&mut self, node: u64)
        requires { is_unheld self.old node ≡ true }
        ensures { self.new ≡ without_node self.old node }
    {
        if let Some(place) = place_of(&self.entries, node) {
            self.entries.remove(place);
        }
    }

    /// Holds `n` free slots of the node. It does not allocate.
    pub fn hold(&mut self, node: u64, n: u8)
        requires { has_free_slots self.old node n ≡ true }
        ensures { self.new ≡ holding self.old node n }
    {
        if let Some(place) = place_of(&self.entries, node) {
            hold_in(&mut self.entries[place], n);
        }
    }

    /// Frees `n` held slots of the node. It does not allocate.
    pub fn give(&mut self, node: u64, n: u8)
        requires { has_held_slots self.old node n ≡ true }
        ensures { self.new ≡ giving self.old node n }
    {
        if let Some(place) = place_of(&self.entries, node) {
            give_in(&mut self.entries[place], n);
        }
    }

    /// The node of the pool on which `need` slots are to be held: `spread` takes the one with the fewest held slots, `pack` the
    /// one with the most (Azure Batch REST reference, `nodeFillType`), and the lowest number decides a tie (this project's
    /// profile). None exactly if no node of the pool has `need` slots free. It does not allocate.
    pub fn choose(&self, pool: &Id, fill: Fill, need: u8) -> Option<u64>
        ensures { result ≡ chosen self.now pool.now fill need }
    {
        match best(&self.entries, pool, fill, need) {
            None => None,
            Some(entry) => Some(entry.node),
        }
    }

    /// The most slots that are free on a node of the pool: a node is chosen for no more than these. None if the pool has no node in
    /// the ledger. It does not allocate.
    #[tactic(auto, using(crate::proofs::MostFree::chosen_any))]
    pub fn most_free(&self, pool: &Id) -> Option<u8>
        ensures { (fill : FillType) (need : ℕ) → is_some (chosen self.now pool.now fill need) ≡ is_within need result }
    {
        most_free(&self.entries, pool)
    }
}

/// The free slots of the entry's node, if it is of the pool.
#[tactic(auto, using(crate::proofs::MostFree::fits_free, crate::proofs::MostFree::fits_none))]
fn free_in(pool: &Id, entry: &Entry) -> Option<u8>
    ensures { (need : ℕ) → is_within need result ≡ fits pool.now need entry.now }
{
    if entry.pool.same(pool) && entry.held <= entry.slots {
        Some(entry.slots - entry.held)
    } else {
        None
    }
}

/// The greater of two numbers of slots.
#[tactic(auto, using(crate::proofs::MostFree::within_max, crate::proofs::MostFree::within_first))]
fn greater(first: Option<u8>, second: Option<u8>) -> Option<u8>
    ensures { (need : ℕ) → is_within need result ≡ (is_within need first || is_within need second) }
{
    match first {
        None => second,
        Some(one) => match second {
            None => first,
            Some(other) => Some(one.max(other)),
        },
    }
}

/// The most slots that are free on one of the entries' nodes of the pool.
fn most_free(entries: &[Entry], pool: &Id) -> Option<u8>
    ensures { (need : ℕ) → is_within need result ≡ list_any (fits pool.now need) entries.now }
{
    let mut most = None;
    for entry in entries {
        most = greater(most, free_in(pool, entry));
    }
    most
}

/// A law of legal lists of calls: each node holds what `hold` took on it and `give` did not free since it was added, which is no
/// more than its slots, and no more is freed than was held.
#[tactic(auto, using(crate::proofs::Sums::each_holds_its_sum))]
pub fn held_is_sum()
    ensures { (calls : List Call) → AreLegal calls → All (HoldsItsSum calls) (after_calls calls) }
{}

/// The place of the node's entry.
fn place_of(entries: &[Entry], node: u64) -> Option<usize>
    ensures { result ≡ position (is_of node) entries.now }
{
    entries.iter().position(|entry| entry.node == node)
}

/// Holds `n` free slots of the entry's node.
fn hold_in(entry: &mut Entry, n: u8)
    requires { entry.old.held + n ≤ entry.old.slots }
    ensures { entry.new ≡ record entry.old { held = entry.old.held + n } }
{
    let _slots = entry.slots;
    entry.held += n;
}

/// Frees `n` held slots of the entry's node.
fn give_in(entry: &mut Entry, n: u8)
    requires { n ≤ entry.old.held }
    ensures { entry.new ≡ record entry.old { held = entry.old.held - n } }
{
    entry.held -= n;
}

/// Whether the node is of the pool and has `need` slots free.
fn fits(pool: &Id, need: u8, entry: &Entry) -> bool
    ensures { result ≡ fits pool.now need entry.now }
{
    entry.pool.same(pool) && u16::from(entry.held) + u16::from(need) <= u16::from(entry.slots)
}

/// Whether as many slots are held on both nodes, and the first has the lower number.
fn is_lower(entry: &Entry, other: &Entry) -> bool
    ensures { result ≡ is_lower entry.now.held entry.now.node other.now.held other.now.node }
{
    entry.held == other.held && entry.node < other.node
}

/// Whether the fill type prefers the first node.
fn precedes(fill: Fill, entry: &Entry, other: &Entry) -> bool
    ensures { result ≡ precedes fill entry.now other.now }
{
    match fill {
        Fill::Spread => entry.held < other.held || is_lower(entry, other),
        Fill::Pack => entry.held > other.held || is_lower(entry, other),
    }
}

/// The entry, unless it does not fit or the best of those after it precedes it.
fn better<'a>(
    after: Option<&'a Entry>,
    entry: &'a Entry,
    pool: &Id,
    fill: Fill,
    need: u8,
) -> Option<&'a Entry>
    ensures { (rest : List EntryRow) → option_copied after.entry ≡ best (precedes fill) (filter (fits pool.now need) rest) → option_copied result ≡ best (precedes fill) (filter (fits pool.now need) (entry.now ∷ rest)) }
{
    if !fits(pool, need, entry) {
        return after;
    }
    match after {
        None => Some(entry),
        Some(other) => {
            if precedes(fill, other, entry) {
                Some(other)
            } else {
                Some(entry)
            }
        }
    }
}

/// Of the entries that fit, the one that precedes the others.
fn best<'a>(entries: &'a [Entry], pool: &Id, fill: Fill, need: u8) -> Option<&'a Entry>
    ensures { option_copied result ≡ best (precedes fill) (filter (fits pool.now need) entries.now) }
{
    let mut best = None;
    for entry in entries.iter().rev() {
        best = better(best, entry, pool, fill, need);
    }
    best
}
