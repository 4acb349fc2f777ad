//! Dependencies among live tasks: which ids and numbers are satisfied, and how many are not (Azure: dependsOn).
ghost use Rattle.std.specs.Prelude.{◌≡◌, ◌+◌, ◌*◌, ◌^◌, ◌≤◌, not, nat_le, length, true, count_by, sum_by};
ghost use Rattle.std.specs.List.{list_all};
ghost use Rattle.bt_rows.specs.declared.limits.TheConstants.{DEPENDENCY_RANGE_LIMIT};
ghost use Rattle.batch_model.specs.Rows.{is_task};
ghost use Rattle.batch_model.specs.Tasks.{is_in_job};
ghost use Rattle.batch_model.specs.Readiness.{satisfies_others, has_number, is_id_satisfied, is_number_satisfied, is_span_satisfied, numbers_of, waiting_count};
ghost use Rattle.dependency_counts.specs.Counts.{counted, state_of, is_unblocked_in, has_few_ranges};

use crate::live::Live;
use bt_base::Id;
use bt_rows::task::TaskRow;

/// Whether the task satisfies those that depend on it.
#[tactic(auto, using(crate::proofs::Lives::satisfies_counted))]
fn satisfies_others(live: &Live) -> bool
    ensures { result ≡ satisfies_others (counted live.now) }
{
    live.satisfies
}

/// Whether the task is the job's and has the id.
fn is_task(live: &Live, job: &Id, id: &Id) -> bool
    ensures { result ≡ is_task job.now id.now (counted live.now) }
{
    live.task.job.same(job) && live.task.id.same(id)
}

/// Whether the task's id is this number.
fn has_number(live: &Live, number: u64) -> bool
    ensures { result ≡ has_number number (counted live.now) }
{
    match live.task.id.number() {
        None => false,
        Some(own) => number == u64::from(own),
    }
}

/// Whether a task of the job with this id satisfies those that name it.
#[tactic(auto, using(crate::proofs::Lives::any_counted))]
fn is_id_satisfied(lives: &[Live], job: &Id, id: &Id) -> bool
    ensures { result ≡ is_id_satisfied (state_of lives.now) job.now id.now }
{
    lives
        .iter()
        .any(|live| is_task(live, job, id) && satisfies_others(live))
}

/// Whether a task of the job whose id is this number satisfies those that name it.
#[tactic(auto, using(crate::proofs::Lives::any_counted))]
fn is_number_satisfied(lives: &[Live], job: &Id, number: u64) -> bool
    ensures { result ≡ is_number_satisfied (state_of lives.now) job.now number }
{
    lives.iter().any(|live| live.task.job.same(job)
        && has_number(live, number)
        && satisfies_others(live))
}

/// Whether each number of the range is satisfied.
fn is_span_satisfied(lives: &[Live], job: &Id, span: &(u32, u32)) -> bool
    ensures { result ≡ is_span_satisfied (state_of lives.now) job.now span.now }
{
    let (first, last) = *span;
    (u64::from(first)..u64::from(last) + 1).all(|number| is_number_satisfied(lives, job, number))
}

/// Whether each id is satisfied.
fn are_ids_satisfied(lives: &[Live], job: &Id, needs: &[Id]) -> bool
    ensures { result ≡ list_all (is_id_satisfied (state_of lives.now) job.now) needs.now }
{
    needs.iter().all(|id| is_id_satisfied(lives, job, id))
}

/// Whether each number of each range is satisfied.
fn are_spans_satisfied(lives: &[Live], job: &Id, spans: &[(u32, u32)]) -> bool
    ensures { result ≡ list_all (is_span_satisfied (state_of lives.now) job.now) spans.now }
{
    spans.iter().all(|span| is_span_satisfied(lives, job, span))
}

/// Whether all that the task names is satisfied.
pub(crate) fn is_unblocked(lives: &[Live], live: &Live) -> bool
    ensures { result ≡ is_unblocked_in lives.now live.now }
{
    let task = &live.task;
    are_ids_satisfied(lives, &task.job, task.settings.needs())
        && are_spans_satisfied(lives, &task.job, task.settings.spans())
}

/// How many of the ids are not satisfied.
fn waiting_ids(lives: &[Live], job: &Id, needs: &[Id]) -> usize
    ensures count { result ≡ count_by (λ id. not (is_id_satisfied (state_of lives.now) job.now id)) needs.now }
    ensures bound { result ≤ length needs.now }
{
    needs
        .iter()
        .filter(|id| !is_id_satisfied(lives, job, id))
        .count()
}

/// How many numbers of the range are not satisfied.
fn waiting_numbers(lives: &[Live], job: &Id, span: &(u32, u32)) -> u64
    ensures count { result ≡ count_by (λ number. not (is_number_satisfied (state_of lives.now) job.now number)) (numbers_of span.now) }
    ensures bound { result ≤ 2 ^ 32 }
{
    let (first, last) = *span;
    (u64::from(first)..u64::from(last) + 1)
        .filter(|number| !is_number_satisfied(lives, job, *number))
        .count() as u64
}

/// How many numbers of the ranges are not satisfied.
fn waiting_spans(lives: &[Live], job: &Id, spans: &[(u32, u32)]) -> u64
    requires { nat_le (length spans.now) DEPENDENCY_RANGE_LIMIT ≡ true }
    ensures count { result ≡ sum_by (λ span. count_by (λ number. not (is_number_satisfied (state_of lives.now) job.now number)) (numbers_of span)) spans.now }
    ensures bound { result ≤ 64 * 2 ^ 32 }
{
    let mut waiting = 0;
    for span in spans {
        waiting += waiting_numbers(lives, job, span);
    }
    waiting
}

/// How many of the ids, and of the numbers of the ranges, that the task names are not satisfied.
pub(crate) fn waiting_count(lives: &[Live], task: &TaskRow) -> u64
    requires { has_few_ranges task.now ≡ true }
    ensures { result ≡ waiting_count (state_of lives.now) task.now }
{
    let ids = waiting_ids(lives, &task.job, task.settings.needs());
    let numbers = waiting_spans(lives, &task.job, task.settings.spans());
    ids as u64 + numbers
}
