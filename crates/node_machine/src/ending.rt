//! Endings of start runs.
ghost use Rattle.std.specs.Prelude.{◌≡◌, true, IfOk, IsTrue, Some};
ghost use Rattle.std.specs.Option.{option_copied};
ghost use Rattle.bt_rows.specs.declared.refusal.Refusal.TheVariants.{RunNotFound};
ghost use Rattle.batch_model.specs.Events.{accept, end_run, for_row, run_ended};
ghost use Rattle.batch_model.specs.Finding.{has_number_left};
ghost use Rattle.batch_model.specs.Rows.{run_of};
ghost use Rattle.batch_model.specs.Runs.{is_start};
ghost use Rattle.batch_model.specs.Sound.{IsSound};
ghost use Rattle.batch_model.specs.Starts.{change_node, failed_node, start_again, start_ended_at, start_ended_in, start_failed, start_of, started_node};
ghost use Rattle.machine_plans.specs.Plans.{IsAnswer, IsPlanOf, with_moment};
ghost use Rattle.node_machine.specs.Endings.{IsOnNode, IsThere, with_end};
ghost use Rattle.table_scans.specs.Runs.{is_start_number};

use crate::starting::{counted_node, failed_node, start_run, started_node};
use bt_base::{Fail, NoMemory, Shared};
use bt_rows::node::{NodeRow, NodeStage};
use bt_rows::plan::{Plan, View};
use bt_rows::pool::StartTask;
use bt_rows::refusal::Refusal;
use bt_rows::reply::Reply;
use bt_rows::run::{Ending, RunRow, RunState};
use bt_rows::tables::{Change, Tables};
use machine_plans::{accept_one, accept_two, ended_run, reply_listed};
use std::alloc::Global;
use table_scans::{is_success, is_tried_again};

/// The start task of the node's pool.
fn start_of<'a>(tables: &'a Tables, node: &NodeRow) -> Option<&'a StartTask>
    ensures { option_copied result ≡ start_of tables.now.state node.now }
{
    match tables.find_pool(&node.pool) {
        Some(pool) => pool.start.as_ref(),
        None => None,
    }
}

/// The plan that ends a start run and leaves its node as it is.
fn put_end(
    alloc: Global,
    tables: &Tables,
    now: u64,
    ending: Ending,
    run: &RunRow,
) -> Result<Plan, NoMemory>
    requires { IsThere tables.now.state run.now }
    ensures { IfOk result (IsPlanOf (accept 200 (with_end now ending run.now tables.now.state)) tables.now.state) }
{
    let ended = Shared::new(alloc, ended_run(now, ending, run)?)?;
    accept_one(alloc, tables, now, 200, Change::PutRun(ended))
}

/// The plan that ends a start run after which the node is usable, if it is starting.
fn put_started(
    alloc: Global,
    tables: &Tables,
    now: u64,
    ending: Ending,
    run: &RunRow,
    node: &NodeRow,
) -> Result<Plan, NoMemory>
    requires { IsOnNode tables.now.state run.now node.now }
    ensures { IfOk result (IsPlanOf (accept 200 (change_node node.now started_node (with_end now ending run.now tables.now.state))) tables.now.state) }
{
    let ended = Shared::new(alloc, ended_run(now, ending, run)?)?;
    let started = Shared::new(alloc, started_node(node)?)?;
    accept_two(
        alloc,
        tables,
        now,
        200,
        Change::PutRun(ended),
        Change::PutNode(started),
    )
}

/// The plan that ends a start run after whose failure the start task is not run again.
fn put_failed(
    alloc: Global,
    tables: &Tables,
    now: u64,
    ending: Ending,
    run: &RunRow,
    node: &NodeRow,
) -> Result<Plan, NoMemory>
    requires { IsOnNode tables.now.state run.now node.now }
    ensures { IfOk result (IsPlanOf (accept 200 (change_node node.now failed_node (with_end now ending run.now tables.now.state))) tables.now.state) }
{
    let ended = Shared::new(alloc, ended_run(now, ending, run)?)?;
    let failed = Shared::new(alloc, failed_node(node)?)?;
    accept_two(
        alloc,
        tables,
        now,
        200,
        Change::PutRun(ended),
        Change::PutNode(failed),
    )
}

/// The plan that ends a start run after whose failure the start task is run again.
fn put_again(
    alloc: Global,
    tables: &Tables,
    now: u64,
    ending: Ending,
    run: &RunRow,
    node: &NodeRow,
    start: &StartTask,
) -> Result<Plan, NoMemory>
    requires there { IsOnNode tables.now.state run.now node.now }
    requires left { IsTrue (has_number_left tables.now.state.next_run) }
    ensures { IfOk result (IsPlanOf (accept 200 (start_again node.now start.now (with_end now ending run.now tables.now.state))) tables.now.state) }
{
    let ended = Shared::new(alloc, ended_run(now, ending, run)?)?;
    let counted = Shared::new(alloc, counted_node(node)?)?;
    let again = Shared::new(alloc, start_run(tables, now, node, start)?)?;
    let counters = Change::Counters(tables.next_node(), tables.next_run() + 1);
    let changes = vec![in alloc;
        Change::PutRun(ended),
        Change::PutNode(counted),
        Change::PutRun(again),
        counters,
    ]?;
    reply_listed(alloc, tables, now, Reply::Status(200), changes)
}

/// The plan that ends a start run with a failure of this start task.
fn put_failure(
    alloc: Global,
    tables: &Tables,
    now: u64,
    ending: Ending,
    run: &RunRow,
    node: &NodeRow,
    start: &StartTask,
) -> Result<Plan, NoMemory>
    requires { IsOnNode tables.now.state run.now node.now }
    ensures { IfOk result (IsPlanOf (accept 200 (start_failed node.now start.now (with_end now ending run.now tables.now.state))) tables.now.state) }
{
    if is_tried_again(tables, node.tries + 1, start) {
        put_again(alloc, tables, now, ending, run, node, start)
    } else {
        put_failed(alloc, tables, now, ending, run, node)
    }
}

/// The plan that ends a start run on a node that does not leave.
fn put_end_at(
    alloc: Global,
    tables: &Tables,
    now: u64,
    ending: Ending,
    run: &RunRow,
    node: &NodeRow,
) -> Result<Plan, NoMemory>
    requires { IsOnNode tables.now.state run.now node.now }
    ensures { IfOk result (IsPlanOf (accept 200 (start_ended_at node.now ending (with_end now ending run.now tables.now.state))) tables.now.state) }
{
    if is_success(ending) {
        return put_started(alloc, tables, now, ending, run, node);
    }
    match start_of(tables, node) {
        Some(start) => put_failure(alloc, tables, now, ending, run, node, start),
        None => put_end(alloc, tables, now, ending, run),
    }
}

/// The plan that ends a start run on this node, which stays as it is if it is leaving.
fn put_end_on(
    alloc: Global,
    tables: &Tables,
    now: u64,
    ending: Ending,
    run: &RunRow,
    node: &NodeRow,
) -> Result<Plan, NoMemory>
    requires { IsOnNode tables.now.state run.now node.now }
    ensures { IfOk result (IsPlanOf (accept 200 (start_ended_in node.now.stage node.now ending (with_end now ending run.now tables.now.state))) tables.now.state) }
{
    match node.stage {
        NodeStage::Leaving(_) => put_end(alloc, tables, now, ending, run),
        NodeStage::Starting | NodeStage::Usable | NodeStage::StartFailed => {
            put_end_at(alloc, tables, now, ending, run, node)
        }
    }
}

/// The plan that ends a start run.
fn put_ended(alloc: Global, view: &View, ending: Ending, run: &RunRow) -> Result<Plan, NoMemory>
    requires sound { IsSound view.now.seats view.now.tables.now.state }
    requires start { is_start run.now.kind ≡ true }
    requires there { run_of view.now.tables.now.state run.now.number ≡ Some run.now }
    ensures { IfOk result (IsPlanOf (accept 200 (run_ended (with_moment view.entry.now.now view.entry.now.tables.now.state) ending run.now)) view.entry.now.tables.now.state) }
{
    match view.tables.find_node(run.node) {
        Some(node) => put_end_on(alloc, view.tables, view.now, ending, run, node),
        None => put_end(alloc, view.tables, view.now, ending, run),
    }
}

/// The answer to `end` of the start run that was found. Only a taken run ends.
fn end_found(
    alloc: Global,
    view: &View,
    ending: Ending,
    run: &RunRow,
) -> Result<Plan, Fail<Refusal>>
    requires sound { IsSound view.now.seats view.now.tables.now.state }
    requires start { is_start run.now.kind ≡ true }
    requires there { run_of view.now.tables.now.state run.now.number ≡ Some run.now }
    ensures { IsAnswer view.entry.now.now (end_run (with_moment view.entry.now.now view.entry.now.tables.now.state) ending run.now) view.entry.now.tables.now.state result }
{
    match run.state {
        RunState::Taken => Ok(put_ended(alloc, view, ending, run)?),
        RunState::Ended(_) => Err(Fail::Why(Refusal::RunAlreadyEnded)),
        RunState::Withdrawn => Err(Fail::Why(Refusal::RunWithdrawn)),
        RunState::Waiting | RunState::Queued => Err(Fail::Why(Refusal::RunNotTaken)),
    }
}

/// The answer to `end` of the start run with this number.
pub fn end_start(
    alloc: Global,
    view: &View,
    number: u64,
    ending: Ending,
) -> Result<Plan, Fail<Refusal>>
    requires own { is_start_number view.now.tables.now.state number ≡ true }
    requires sound { IsSound view.now.seats view.now.tables.now.state }
    ensures { IsAnswer view.entry.now.now (for_row (with_moment view.entry.now.now view.entry.now.tables.now.state) RunNotFound (end_run (with_moment view.entry.now.now view.entry.now.tables.now.state) ending) (run_of (with_moment view.entry.now.now view.entry.now.tables.now.state) number)) view.entry.now.tables.now.state result }
{
    match view.tables.find_run(number) {
        Some(run) => end_found(alloc, view, ending, run),
        None => Err(Fail::Why(Refusal::RunNotFound)),
    }
}
