//! The lines of due steps.
ghost use Rattle.std.specs.Prelude.{◌≡◌, ◌++◌, ◌∷◌, [], OnOk, IfOk, string_bytes};
ghost use Rattle.std.specs.Fmt.{decimal};
ghost use Rattle.bt_rows.specs.declared.due.Due.TheVariants.{TaskSettled};
ghost use Rattle.wire_texts.specs.Lines.{words};
ghost use Rattle.wire_texts.specs.Dues.{outcome_text, job_end_word, resize_end_word, due_text};

use bt_base::{Id, NoMemory, Text};
use bt_rows::due::{Due, JobEnd, Outcome, ResizeEnd};
use std::alloc::{AllocError, Global};

/// Adds how a task was settled.
#[tactic(auto, unfolding(crate::specs::Dues::outcome_text))]
fn push_outcome(out: &mut String, outcome: Outcome) -> Result<(), AllocError>
    ensures { OnOk result (string_bytes out.new ≡ string_bytes out.old ++ outcome_text outcome) }
{
    match outcome {
        Outcome::Deleted => out.push_str("deleted"),
        Outcome::Success => out.push_str("success"),
        Outcome::Failure => out.push_str("failure"),
        Outcome::Again(failures) => write!(out, "active {failures}"),
    }
}

/// How a job ended.
#[tactic(auto, unfolding(crate::specs::Dues::job_end_word))]
fn job_end_word(end: JobEnd) -> &'static str
    ensures { result.now ≡ job_end_word end }
{
    match end {
        JobEnd::Kept => "completed",
        JobEnd::Removed => "removed",
    }
}

/// How a resize ended.
#[tactic(auto, unfolding(crate::specs::Dues::resize_end_word))]
fn resize_end_word(end: ResizeEnd) -> &'static str
    ensures { result.now ≡ resize_end_word end }
{
    match end {
        ResizeEnd::Removed => "removed",
        ResizeEnd::Reached => "steady",
        ResizeEnd::TimedOut => "timeout",
        ResizeEnd::Stopped => "stopped",
    }
}

/// Adds a rule and an id.
fn push_with_id(out: &mut String, rule: &str, id: &Id) -> Result<(), AllocError>
    ensures { OnOk result (string_bytes out.new ≡ string_bytes out.old ++ words (rule.now ∷ id.now ∷ [])) }
{
    let id = id.as_str();
    write!(out, "{rule} {id}")
}

/// Adds a rule, an id and a word.
fn push_with_word(out: &mut String, rule: &str, id: &Id, word: &str) -> Result<(), AllocError>
    ensures { OnOk result (string_bytes out.new ≡ string_bytes out.old ++ words (rule.now ∷ id.now ∷ word.now ∷ [])) }
{
    let id = id.as_str();
    write!(out, "{rule} {id} {word}")
}

/// Adds a rule, an id and two numbers.
fn push_with_numbers(
    out: &mut String,
    rule: &str,
    id: &Id,
    first: u64,
    second: u64,
) -> Result<(), AllocError>
    ensures { OnOk result (string_bytes out.new ≡ string_bytes out.old ++ words (rule.now ∷ id.now ∷ decimal first ∷ decimal second ∷ [])) }
{
    let id = id.as_str();
    write!(out, "{rule} {id} {first} {second}")
}

/// Adds the line of a settled task.
#[tactic(auto, unfolding(crate::specs::Dues::due_text))]
fn push_settled(out: &mut String, job: &Id, task: &Id, outcome: Outcome) -> Result<(), AllocError>
    ensures { OnOk result (string_bytes out.new ≡ string_bytes out.old ++ due_text (TaskSettled job.now task.now outcome)) }
{
    let job = job.as_str();
    let task = task.as_str();
    write!(out, "U5 {job} {task} ")?;
    push_outcome(out, outcome)
}

/// Adds the line of a due step.
#[tactic(auto, unfolding(crate::specs::Dues::due_text))]
fn push_due(out: &mut String, due: &Due) -> Result<(), AllocError>
    ensures { OnOk result (string_bytes out.new ≡ string_bytes out.old ++ due_text due.now) }
{
    match due {
        Due::Sampled(pool, label) => {
            let pool = pool.as_str();
            write!(out, "U1 {pool} {label}")
        }
        Due::TaskTimedOut(job, task) => push_with_word(out, "U2", job, task.as_str()),
        Due::ReleaseTimedOut(run) => write!(out, "U3 {run}"),
        Due::JobTimedOut(job) => push_with_id(out, "U4", job),
        Due::TaskSettled(job, task, outcome) => push_settled(out, job, task, *outcome),
        Due::JobEnabled(job) => push_with_id(out, "U6", job),
        Due::TasksDone(job) => push_with_id(out, "U7", job),
        Due::JobDisabled(job) => push_with_id(out, "U8", job),
        Due::ReleaseMade(job, node, run) => push_with_numbers(out, "U9", job, *node, *run),
        Due::JobEnded(job, end) => push_with_word(out, "U10", job, job_end_word(*end)),
        Due::PoolResized(pool, end) => push_with_word(out, "U11", pool, resize_end_word(*end)),
        Due::PoolScaled(pool, results) => push_with_word(out, "U12", pool, results.as_str()),
        Due::NodeLeaves(node) => write!(out, "U13 {node}"),
        Due::NodeDropped(node) => write!(out, "U14 {node}"),
        Due::NodeAdded(pool, node, seat) => {
            push_with_numbers(out, "U15", pool, *node, u64::from(*seat))
        }
        Due::TaskPlaced(job, task, node, run) => {
            let job = job.as_str();
            let task = task.as_str();
            write!(out, "U16 {job} {task} {node} {run}")
        }
    }
}

/// The line of a due step, without the number before it and the line feed. It fails only when out of memory.
pub fn write_due(alloc: Global, due: &Due) -> Result<Text, NoMemory>
    ensures { IfOk result (λ text. text ≡ due_text due.now) }
{
    let mut out = String::new(alloc);
    push_due(&mut out, due)?;
    Text::of_string(out)
}
