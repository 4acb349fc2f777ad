//! Pages of lists.
ghost use Rattle.std.specs.Prelude.{◌≡◌, ℕ, Bool, List, ◌&&◌, IfOk, OnOk, Some, map, filter};
ghost use Rattle.std.specs.List.{after_first};
ghost use Rattle.bt_base.specs.Ids.{same};
ghost use Rattle.bt_rows.specs.State.{State};
ghost use Rattle.bt_rows.specs.declared.reply.Item.{Item};
ghost use Rattle.table_reads.specs.Pages.{item_id, last_id, first_page, page_of};

use crate::request::Listing;
use bt_base::{Duplicate, Id, List as Items, NoMemory};
use bt_rows::reply::{Item, Reply};
use bt_rows::tables::Tables;
use kept_table::Rows;
use std::alloc::Global;
use wire_words::node_id;

/// A row that lists show. A list has the rows of an owner, as the nodes of a pool.
pub trait Shown {
    /// What a list of such rows belongs to, as a pool; `()` if it has all rows.
    type Owner;

    /// Whether a row is the owner's.
    ghost is_in: { Self.Owner → Self → Bool };

    /// The id of a row in lists.
    ghost id_of: { Self → List ℕ };

    /// The item that shows a row.
    ghost item_of: { State → Self → Item };

    /// Whether the row is the owner's. It does not allocate.
    fn is_in(&self, owner: &Self::Owner) -> bool
        ensures { result ≡ is_in owner.now self.now };

    /// Whether the row has this id, compared without regard to case. It fails only when out of memory.
    fn has_id(&self, alloc: Global, id: &Id) -> Result<bool, NoMemory>
        ensures { IfOk result (λ is. is ≡ same (id_of self.now) id.now) };

    /// The item that shows the row. It fails only when out of memory.
    fn item(&self, tables: &Tables) -> Result<Item, NoMemory>
        ensures { IfOk result (λ item. item ≡ item_of tables.now.state self.now) };

    /// An item has its row's id.
    ghost shows_id: { (s : State) (row : Self) → item_id (item_of s row) ≡ Some (id_of row) };
}

/// Whether the row is the owner's and has this id.
fn is_named<R: Shown>(alloc: Global, row: &R, owner: &R::Owner, id: &Id) -> Result<bool, NoMemory>
    ensures { IfOk result (λ is. is ≡ (R.is_in owner.now row.now && same (R.id_of row.now) id.now)) }
{
    if row.is_in(owner) {
        row.has_id(alloc, id)
    } else {
        Ok(false)
    }
}

/// The rows after the owner's first with this id, none if there is no such row.
#[tactic(auto, using(crate::proofs::Lists::after_hit, crate::proofs::Lists::after_miss))]
fn rows_after<'a, R: Shown>(
    alloc: Global,
    mut rows: Rows<'a, R>,
    owner: &R::Owner,
    id: &Id,
) -> Result<Rows<'a, R>, NoMemory>
    ensures { IfOk result (λ rest. rest ≡ after_first (λ row. R.is_in owner.now row && same (R.id_of row) id.now) rows.entry) }
{
    while let Some(row) = rows.next() {
        if is_named(alloc, row, owner, id)? {
            return Ok(rows);
        }
    }
    Ok(rows)
}

/// The id of an item of a list; None of counts.
fn item_id(alloc: Global, item: &Item) -> Result<Option<Id>, NoMemory>
    ensures { IfOk result (λ id. id ≡ item_id item.now) }
{
    match item {
        Item::Pool(pool) => Ok(Some(pool.id.copy()?)),
        Item::Node(node) => Ok(Some(node_id(alloc, node.number)?)),
        Item::Job(job) => Ok(Some(job.id.copy()?)),
        Item::Task(task) => Ok(Some(task.id.copy()?)),
        Item::Counts(_) => Ok(None),
    }
}

/// The id of the last item, if there is one.
fn last_id(alloc: Global, shown: &[Item]) -> Result<Option<Id>, NoMemory>
    ensures { IfOk result (λ id. id ≡ last_id shown.now) }
{
    match shown.last() {
        None => Ok(None),
        Some(item) => item_id(alloc, item),
    }
}

/// The first page of the owner's rows.
fn first_page<R: Shown>(
    alloc: Global,
    tables: &Tables,
    rows: Rows<'_, R>,
    owner: &R::Owner,
    count: u32,
) -> Result<Reply, NoMemory>
    ensures { IfOk result (λ reply. reply ≡ first_page count (map (R.item_of tables.now.state) (filter (R.is_in owner.now) rows.entry))) }
{
    let limit = count as usize;
    let mut items = Vec::new(alloc);
    for row in rows {
        if row.is_in(owner) {
            if items.len() >= limit {
                let last = last_id(alloc, items.as_slice())?;
                return Ok(Reply::Page(Items::of_vec(items), last));
            }
            items.push(row.item(tables)?)?;
        }
    }
    Ok(Reply::Page(Items::of_vec(items), None))
}

/// The page of the owner's rows that the listing asks for. It fails only when out of memory.
pub fn page_of<R: Shown>(
    alloc: Global,
    tables: &Tables,
    rows: Rows<'_, R>,
    owner: &R::Owner,
    listing: &Listing,
) -> Result<Reply, NoMemory>
    ensures { IfOk result (λ reply. reply ≡ page_of listing.now (map (R.item_of tables.now.state) (filter (R.is_in owner.now) rows.entry))) }
{
    match &listing.after {
        None => first_page(alloc, tables, rows, owner, listing.count),
        Some(id) => {
            let rest = rows_after(alloc, rows, owner, id)?;
            first_page(alloc, tables, rest, owner, listing.count)
        }
    }
}
