//! U15, the due step that adds a node.
ghost use Rattle.std.specs.Prelude.{◌≡◌, ◌≤◌, IsTrue, IfOk, find, nat_eq, None, Some};
ghost use Rattle.std.specs.List.{list_any};
ghost use Rattle.std.specs.Option.{option_copied};
ghost use Rattle.bt_rows.specs.declared.due.Due.TheVariants.{NodeAdded};
ghost use Rattle.batch_model.specs.Finding.{has_number_left};
ghost use Rattle.batch_model.specs.Pools.{free_seat};
ghost use Rattle.batch_model.specs.Dues.{lacks_node, new_node, node_added, add_on, add_node};
ghost use Rattle.batch_model.specs.Runs.{start_run};
ghost use Rattle.batch_model.specs.Sound.{NumbersAreNew};
ghost use Rattle.machine_plans.specs.Plans.{IsPlanOf, IsRule, answer_of_step};

use crate::starting::{first_stage, start_run};
use bt_base::{Duplicate, NoMemory, Shared};
use bt_rows::due::Due;
use bt_rows::node::NodeRow;
use bt_rows::plan::Plan;
use bt_rows::pool::{PoolRow, StartTask};
use bt_rows::run::RunRow;
use bt_rows::tables::{Change, Tables};
use machine_plans::{step_three, step_two};
use std::alloc::Global;
use table_scans::{has_number_left, is_resizing, staying_count};

/// Whether a node sits on the seat.
fn is_taken(tables: &Tables, seat: u8) -> bool
    ensures { result ≡ list_any (λ node. nat_eq node.seat seat) tables.now.state.nodes }
{
    tables.nodes().any(|node| node.seat == seat)
}

/// The lowest seat on which no node sits.
fn free_seat(tables: &Tables, seats: u8) -> Option<u8>
    requires { seats ≤ 32 }
    ensures { result ≡ free_seat seats tables.now.state }
{
    (1..seats + 1).find(|seat| !is_taken(tables, *seat))
}

/// Whether the pool is to get a node.
fn lacks_node(tables: &Tables, pool: &PoolRow) -> bool
    ensures { result ≡ lacks_node tables.now.state pool.now }
{
    !pool.deleting
        && is_resizing(pool.alloc)
        && staying_count(tables, &pool.id) < pool.dedicated as usize
}

/// The first pool that is to get a node.
fn first_lacking<'a>(tables: &'a Tables) -> Option<&'a PoolRow>
    ensures { option_copied result ≡ find (lacks_node tables.now.state) tables.now.state.pools }
{
    tables.pools().find(|pool| lacks_node(tables, pool))
}

/// A node of the pool on the seat, with the next number.
fn new_node(tables: &Tables, pool: &PoolRow, seat: u8) -> Result<NodeRow, NoMemory>
    ensures { IfOk result (λ node. node ≡ new_node tables.now.state pool.now seat) }
{
    Ok(NodeRow {
        number: tables.next_node(),
        pool: pool.id.copy()?,
        seat,
        stage: first_stage(pool),
        tries: 0,
    })
}

/// The line of a node that is added to the pool on the seat.
fn node_line(tables: &Tables, pool: &PoolRow, seat: u8) -> Result<Due, NoMemory>
    ensures { IfOk result (λ due. due ≡ NodeAdded pool.now.id tables.now.state.next_node seat) }
{
    Ok(Due::NodeAdded(pool.id.copy()?, tables.next_node(), seat))
}

/// The new node of the pool on the seat, in a block of its own.
fn seated_node(
    alloc: Global,
    tables: &Tables,
    pool: &PoolRow,
    seat: u8,
) -> Result<Shared<NodeRow>, NoMemory>
    ensures { IfOk result (λ node. node ≡ new_node tables.now.state pool.now seat) }
{
    Shared::new(alloc, new_node(tables, pool, seat)?)
}

/// The first run of the node's start task, in a block of its own.
fn first_run(
    alloc: Global,
    tables: &Tables,
    node: &NodeRow,
    start: &StartTask,
) -> Result<Shared<RunRow>, NoMemory>
    ensures { IfOk result (λ run. run ≡ start_run tables.now.state node.now start.now) }
{
    let run = Shared::new(alloc, start_run(tables, tables.moment(), node, start)?)?;
    Ok(run)
}

/// The plan that adds a node of the pool on the seat, if the pool has no start task.
fn added_alone(alloc: Global, tables: &Tables, pool: &PoolRow, seat: u8) -> Result<Plan, NoMemory>
    requires numbers { NumbersAreNew tables.now.state }
    requires nodes { IsTrue (has_number_left tables.now.state.next_node) }
    requires start { pool.now.start ≡ None }
    ensures { IfOk result (IsPlanOf (answer_of_step (node_added tables.now.state seat pool.now)) tables.now.state) }
{
    let due = node_line(tables, pool, seat)?;
    let node = seated_node(alloc, tables, pool, seat)?;
    let counters = Change::Counters(tables.next_node() + 1, tables.next_run());
    step_two(alloc, due, Change::PutNode(node), counters)
}

/// The plan that adds a node of the pool on the seat, which begins the start task.
fn added_starting(
    alloc: Global,
    tables: &Tables,
    pool: &PoolRow,
    seat: u8,
    start: &StartTask,
) -> Result<Plan, NoMemory>
    requires numbers { NumbersAreNew tables.now.state }
    requires nodes { IsTrue (has_number_left tables.now.state.next_node) }
    requires runs { IsTrue (has_number_left tables.now.state.next_run) }
    requires start { pool.now.start ≡ Some start.now }
    ensures { IfOk result (IsPlanOf (answer_of_step (node_added tables.now.state seat pool.now)) tables.now.state) }
{
    let due = node_line(tables, pool, seat)?;
    let node = seated_node(alloc, tables, pool, seat)?;
    let run = first_run(alloc, tables, node.get(), start)?;
    let counters = Change::Counters(tables.next_node() + 1, tables.next_run() + 1);
    step_three(
        alloc,
        due,
        Change::PutNode(node),
        Change::PutRun(run),
        counters,
    )
}

/// The plan that adds a node of the pool on the seat.
fn node_added(alloc: Global, tables: &Tables, pool: &PoolRow, seat: u8) -> Result<Plan, NoMemory>
    requires numbers { NumbersAreNew tables.now.state }
    requires nodes { IsTrue (has_number_left tables.now.state.next_node) }
    requires runs { IsTrue (has_number_left tables.now.state.next_run) }
    ensures { IfOk result (IsPlanOf (answer_of_step (node_added tables.now.state seat pool.now)) tables.now.state) }
{
    match &pool.start {
        Some(start) => added_starting(alloc, tables, pool, seat, start),
        None => added_alone(alloc, tables, pool, seat),
    }
}

/// The plan that adds a node on the seat, to the first pool that is to get one.
fn add_on(alloc: Global, tables: &Tables, seat: u8) -> Result<Option<Plan>, NoMemory>
    requires numbers { NumbersAreNew tables.now.state }
    requires nodes { IsTrue (has_number_left tables.now.state.next_node) }
    requires runs { IsTrue (has_number_left tables.now.state.next_run) }
    ensures { IfOk result (IsRule (add_on tables.now.state seat) tables.now.state) }
{
    match first_lacking(tables) {
        None => Ok(None),
        Some(pool) => Ok(Some(node_added(alloc, tables, pool, seat)?)),
    }
}

/// The plan that adds a node on the lowest free seat, to the first pool that is to get one. No node is added once run or node
/// numbers are used up.
pub fn add_node(alloc: Global, tables: &Tables, seats: u8) -> Result<Option<Plan>, NoMemory>
    requires numbers { NumbersAreNew tables.now.state }
    requires few { seats ≤ 32 }
    ensures { IfOk result (IsRule (add_node seats tables.now.state) tables.now.state) }
{
    if !has_number_left(tables.next_run()) || !has_number_left(tables.next_node()) {
        return Ok(None);
    }
    match free_seat(tables, seats) {
        None => Ok(None),
        Some(seat) => add_on(alloc, tables, seat),
    }
}
