//! The tables text.
ghost use Rattle.std.specs.Prelude.{◌≡◌, ◌++◌, OnOk, IfOk, string_bytes, flat_map};
ghost use Rattle.wire_texts.specs.Rows.{pool_line, job_line, run_line, prep_line, scale_line};
ghost use Rattle.wire_texts.specs.Tables.{node_line, task_line, tables_text};

use crate::rows::{push_job, push_pool, push_prep, push_run, push_scale};
use bt_base::{NoMemory, Text};
use bt_rows::job::JobRow;
use bt_rows::node::NodeRow;
use bt_rows::pool::PoolRow;
use bt_rows::prep::PrepRow;
use bt_rows::run::RunRow;
use bt_rows::scale::ScaleRow;
use bt_rows::tables::Tables;
use bt_rows::task::TaskRow;
use std::alloc::{AllocError, Global};
use table_scans::{node_state, task_state};
use wire_words::{node_state_word, push_exit, result_word, task_state_word};

/// Adds the line of a node.
#[tactic(auto, unfolding(crate::specs::Tables::node_line))]
fn push_node(out: &mut String, tables: &Tables, node: &NodeRow) -> Result<(), AllocError>
    ensures { OnOk result (string_bytes out.new ≡ string_bytes out.old ++ node_line tables.now.state node.now) }
{
    let number = node.number;
    let pool = node.pool.as_str();
    let seat = node.seat;
    let state = node_state_word(node_state(tables, node));
    writeln!(out, "node {number} {pool} {seat} {state}")
}

/// Adds the line of a task.
#[tactic(auto, unfolding(crate::specs::Tables::task_line))]
fn push_task(out: &mut String, tables: &Tables, task: &TaskRow) -> Result<(), AllocError>
    ensures { OnOk result (string_bytes out.new ≡ string_bytes out.old ++ task_line tables.now.state task.now) }
{
    let job = task.job.as_str();
    let id = task.id.as_str();
    let state = task_state_word(task_state(tables, task));
    let success = result_word(task.closed);
    let failures = task.failures;
    write!(out, "task {job} {id} {state} {success} ")?;
    push_exit(out, task.closed)?;
    writeln!(out, " {failures}")
}

fn push_pools(out: &mut String, tables: &Tables) -> Result<(), AllocError>
    ensures { OnOk result (string_bytes out.new ≡ string_bytes out.old ++ flat_map pool_line tables.now.state.pools) }
{
    for pool in tables.pools() {
        push_pool(out, pool)?;
    }
    Ok(())
}

fn push_nodes(out: &mut String, tables: &Tables) -> Result<(), AllocError>
    ensures { OnOk result (string_bytes out.new ≡ string_bytes out.old ++ flat_map (node_line tables.now.state) tables.now.state.nodes) }
{
    for node in tables.nodes() {
        push_node(out, tables, node)?;
    }
    Ok(())
}

fn push_jobs(out: &mut String, tables: &Tables) -> Result<(), AllocError>
    ensures { OnOk result (string_bytes out.new ≡ string_bytes out.old ++ flat_map job_line tables.now.state.jobs) }
{
    for job in tables.jobs() {
        push_job(out, job)?;
    }
    Ok(())
}

fn push_tasks(out: &mut String, tables: &Tables) -> Result<(), AllocError>
    ensures { OnOk result (string_bytes out.new ≡ string_bytes out.old ++ flat_map (task_line tables.now.state) tables.now.state.tasks) }
{
    for task in tables.tasks() {
        push_task(out, tables, task)?;
    }
    Ok(())
}

fn push_runs(out: &mut String, tables: &Tables) -> Result<(), AllocError>
    ensures { OnOk result (string_bytes out.new ≡ string_bytes out.old ++ flat_map run_line tables.now.state.runs) }
{
    for run in tables.runs() {
        push_run(out, run)?;
    }
    Ok(())
}

fn push_preps(out: &mut String, tables: &Tables) -> Result<(), AllocError>
    ensures { OnOk result (string_bytes out.new ≡ string_bytes out.old ++ flat_map prep_line tables.now.state.preps) }
{
    for prep in tables.preps() {
        push_prep(out, prep)?;
    }
    Ok(())
}

fn push_scales(out: &mut String, tables: &Tables) -> Result<(), AllocError>
    ensures { OnOk result (string_bytes out.new ≡ string_bytes out.old ++ flat_map scale_line tables.now.state.scales) }
{
    for scale in tables.scales() {
        push_scale(out, scale)?;
    }
    Ok(())
}

/// The tables as a text: the moment, then a line for each row, pools, nodes, jobs, tasks, runs, preparations and scalings, each
/// kind in order of adding. Samples are left out. It fails only when out of memory.
#[tactic(auto, unfolding(crate::specs::Tables::tables_text))]
pub fn write_tables(alloc: Global, tables: &Tables) -> Result<Text, NoMemory>
    ensures { IfOk result (λ text. text ≡ tables_text tables.now.state) }
{
    let moment = tables.moment();
    let mut out = format!(in alloc; "tables {moment}\n")?;
    push_pools(&mut out, tables)?;
    push_nodes(&mut out, tables)?;
    push_jobs(&mut out, tables)?;
    push_tasks(&mut out, tables)?;
    push_runs(&mut out, tables)?;
    push_preps(&mut out, tables)?;
    push_scales(&mut out, tables)?;
    let text = Text::of_string(out)?;
    Ok(text)
}
