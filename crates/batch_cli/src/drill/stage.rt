//! How far a drill has come, and the call that comes next.
ghost use Rattle.std.specs.Prelude.{◌≡◌, IfOk};
ghost use Rattle.batch_cli.specs.Drill.{asks, after_task, add_call, take_call, end_call};

use crate::drill::draw::{draw_of, next_state};
use crate::drill::limits::DRILL_MOMENT_MS;
use crate::drill::request::{add_job, add_pool, add_task, end, take};
use batch_desk::Desk;
use batch_keeper::Keeper;
use bt_base::{Moment, NoMemory};
use bt_rows::event::Event;
use std::alloc::Global;

/// How far a drill has come: which of its calls is next, and the number of its sequence from which the next draw is made.
#[derive(Clone, Copy, Debug, PartialEq, Eq)]
pub enum Stage {
    /// The pool is to be added.
    AddingPool {
        /// The number of tasks of the drill.
        count: u32,
    },
    /// The job is to be added.
    AddingJob {
        /// The number of tasks of the drill.
        count: u32,
    },
    /// A task is to be added.
    AddingTask {
        /// The number of this task, from 1 on.
        number: u32,
        /// The number of tasks of the drill.
        count: u32,
        /// The number of the sequence.
        state: u32,
    },
    /// The lowest queued run is to be taken, if there is one and a turn is left.
    Turning {
        /// The number of turns that are left.
        left: u64,
        /// The number of the sequence.
        state: u32,
    },
    /// The run that was taken is to be ended.
    Ending {
        /// The number of the run.
        run: u64,
        /// The number of turns that are left after it.
        left: u64,
        /// The number of the sequence.
        state: u32,
    },
}

/// A call: its moment and its event.
pub type Call = (Moment, Event);

/// The moment of all calls of a drill.
fn drill_moment() -> Moment
    ensures { result ≡ DRILL_MOMENT_MS }
{
    match Moment::of_ms(DRILL_MOMENT_MS) {
        Some(moment) => moment,
        None => unreachable!(),
    }
}

/// The call that adds the task with this number, and the stage after it. It fails only when out of memory.
fn add_call(alloc: Global, number: u32, count: u32, state: u32) -> Result<(Call, Stage), NoMemory>
    ensures { IfOk result (λ asked. asked ≡ add_call number count state) }
{
    let first = next_state(state);
    let second = next_state(first);
    let event = add_task(alloc, number, draw_of(first), draw_of(second))?;
    Ok((
        (drill_moment(), event),
        Stage::after_task(number, count, second),
    ))
}

/// The call that takes the lowest queued run, and the stage after it; None if there is none, or no turn is left.
fn take_call(lowest: Option<u64>, left: u64, state: u32) -> Option<(Call, Stage)>
    ensures { result ≡ take_call lowest left state }
{
    if left == 0 {
        return None;
    }
    let run = lowest?;
    let left = left - 1;
    Some((
        (drill_moment(), take(run)),
        Stage::Ending { run, left, state },
    ))
}

/// The call that ends the run that was taken, and the stage after it.
fn end_call(run: u64, left: u64, state: u32) -> (Call, Stage)
    ensures { result ≡ end_call run left state }
{
    let state = next_state(state);
    let event = end(run, draw_of(state));
    ((drill_moment(), event), Stage::Turning { left, state })
}

impl Stage {
    /// The first stage of a drill of this number of tasks.
    pub fn first(count: u32) -> Stage
        ensures { result ≡ Stage.AddingPool count }
    {
        Stage::AddingPool { count }
    }

    /// The stage after the task with this number.
    fn after_task(number: u32, count: u32, state: u32) -> Stage
        ensures { result ≡ after_task number count state }
    {
        if number < count {
            Stage::AddingTask {
                number: number + 1,
                count,
                state,
            }
        } else {
            Stage::Turning {
                left: 4 * u64::from(count) + 16,
                state,
            }
        }
    }

    /// The next call of the drill over the desk's tables, and the stage after it; None at the end. It fails only when out of memory.
    pub fn next<K: Keeper + Drop>(
        self,
        alloc: Global,
        desk: &Desk<K>,
    ) -> Result<Option<(Call, Stage)>, NoMemory>
        ensures { IfOk result (λ asked. asked ≡ asks self desk.now.state) }
    {
        let moment = drill_moment();
        match self {
            Stage::AddingPool { count } => {
                let event = add_pool(alloc)?;
                Ok(Some(((moment, event), Stage::AddingJob { count })))
            }
            Stage::AddingJob { count } => {
                let event = add_job(alloc)?;
                let next = Stage::AddingTask {
                    number: 1,
                    count,
                    state: count,
                };
                Ok(Some(((moment, event), next)))
            }
            Stage::AddingTask {
                number,
                count,
                state,
            } => {
                let asked = add_call(alloc, number, count, state)?;
                Ok(Some(asked))
            }
            Stage::Turning { left, state } => Ok(take_call(desk.lowest_queued(), left, state)),
            Stage::Ending { run, left, state } => Ok(Some(end_call(run, left, state))),
        }
    }
}
