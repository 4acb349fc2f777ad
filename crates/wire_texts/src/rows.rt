//! The lines of rows that depend on no other row.
ghost use Rattle.std.specs.Prelude.{◌≡◌, ◌++◌, OnOk, string_bytes};
ghost use Rattle.wire_texts.specs.Rows.{pool_line, job_line, run_line, prep_line, scale_line};

use bt_rows::job::JobRow;
use bt_rows::pool::PoolRow;
use bt_rows::prep::PrepRow;
use bt_rows::run::RunRow;
use bt_rows::scale::ScaleRow;
use std::alloc::AllocError;
use wire_words::{
    alloc_word, fill_word, id_or_dash, job_state_word, pool_state_word, prep_state_word,
    push_run_ending, release_state_word, run_kind_word, run_state_word, text_or_dash,
};

/// Adds the line of a pool.
#[tactic(auto, unfolding(crate::specs::Rows::pool_line))]
pub fn push_pool(out: &mut String, pool: &PoolRow) -> Result<(), AllocError>
    ensures { OnOk result (string_bytes out.new ≡ string_bytes out.old ++ pool_line pool.now) }
{
    let id = pool.id.as_str();
    let state = pool_state_word(pool.deleting);
    let alloc = alloc_word(pool.alloc);
    let dedicated = pool.dedicated;
    let low = pool.low;
    let slots = pool.slots;
    let fill = fill_word(pool.fill);
    writeln!(
        out,
        "pool {id} {state} {alloc} {dedicated} {low} {slots} {fill}"
    )
}

/// Adds the line of a job.
#[tactic(auto, unfolding(crate::specs::Rows::job_line))]
pub fn push_job(out: &mut String, job: &JobRow) -> Result<(), AllocError>
    ensures { OnOk result (string_bytes out.new ≡ string_bytes out.old ++ job_line job.now) }
{
    let id = job.id.as_str();
    let pool = job.pool.as_str();
    let state = job_state_word(job.state);
    let priority = job.priority;
    let reason = text_or_dash(&job.reason);
    writeln!(out, "job {id} {pool} {state} {priority} {reason}")
}

/// Adds the line of a run.
#[tactic(auto, unfolding(crate::specs::Rows::run_line))]
pub fn push_run(out: &mut String, run: &RunRow) -> Result<(), AllocError>
    ensures { OnOk result (string_bytes out.new ≡ string_bytes out.old ++ run_line run.now) }
{
    let number = run.number;
    let kind = run_kind_word(run.kind);
    let node = run.node;
    let job = id_or_dash(&run.job);
    let task = id_or_dash(&run.task);
    let state = run_state_word(run.state);
    write!(out, "run {number} {kind} {node} {job} {task} {state} ")?;
    push_run_ending(out, run.state)?;
    out.push_str("\n")
}

/// Adds the line of a preparation.
#[tactic(auto, unfolding(crate::specs::Rows::prep_line))]
pub fn push_prep(out: &mut String, prep: &PrepRow) -> Result<(), AllocError>
    ensures { OnOk result (string_bytes out.new ≡ string_bytes out.old ++ prep_line prep.now) }
{
    let job = prep.job.as_str();
    let node = prep.node;
    let state = prep_state_word(prep.state);
    let release = release_state_word(prep.release);
    writeln!(out, "prep {job} {node} {state} {release}")
}

/// Adds the line of a pool's scaling.
#[tactic(auto, unfolding(crate::specs::Rows::scale_line))]
pub fn push_scale(out: &mut String, scale: &ScaleRow) -> Result<(), AllocError>
    ensures { OnOk result (string_bytes out.new ≡ string_bytes out.old ++ scale_line scale.now) }
{
    let pool = scale.pool.as_str();
    let interval = scale.interval;
    let next = scale.next;
    writeln!(out, "scale {pool} {interval} {next}")
}
