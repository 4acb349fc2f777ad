//! What is kept beside the tables, made from them.
ghost use Rattle.std.specs.Prelude.{IfOk};
ghost use Rattle.task_index.specs.Active.{AreItemsOf};
ghost use Rattle.run_index.specs.Asked.{AreAsked};
ghost use Rattle.run_index.specs.Attempts.{HasRuns};
ghost use Rattle.run_index.specs.Held.{HasHeld};
ghost use Rattle.task_index.specs.Numbered.{HasNumbered};
ghost use Rattle.task_index.specs.Over.{AreOver};
ghost use Rattle.run_index.specs.Nodes.{HasNodeRuns};
ghost use Rattle.run_index.specs.Queued.{AreQueued};
ghost use Rattle.task_index.specs.Timed.{AreTimed};

use bt_base::NoMemory;
use bt_rows::tables::Tables;
use run_index::{AskedRuns, HeldSlots, QueuedRuns, RunsOfAttempts, RunsOfNodes};
use std::alloc::Global;
use task_index::{ActiveTasks, NumberedTasks, PlacedTasks, TimedTasks};

/// What is kept of the runs.
#[derive(Drop)]
pub struct RunParts {
    /// The places of the runs of each attempt.
    pub runs: RunsOfAttempts,
    /// The slots that the runs of placed tasks hold on each node.
    pub held: HeldSlots,
    /// The queued runs by their numbers.
    pub queued: QueuedRuns,
    /// The taken runs that are asked to stop.
    pub asked: AskedRuns,
    /// The places of the runs on each node.
    pub nodes: RunsOfNodes,
}

/// What is kept of the tasks.
#[derive(Drop)]
pub struct TaskParts {
    /// The active tasks of each job by the slots that they ask for.
    pub active: ActiveTasks,
    /// The placed tasks of whose present attempt no run is unended.
    pub over: PlacedTasks,
    /// The placed tasks by the moments at which their wall times are over.
    pub timed: TimedTasks,
    /// The tasks whose ids are numbers, by their jobs and numbers.
    pub numbered: NumberedTasks,
}

impl RunParts {
    /// Those of the tables' runs. The only error is out of memory.
    pub fn of_tables(alloc: Global, tables: &Tables) -> Result<RunParts, NoMemory>
        ensures runs { IfOk result (λ parts. HasRuns parts.runs tables.now.run_slots) }
        ensures held { IfOk result (λ parts. HasHeld parts.held tables.now.state.tasks tables.now.run_slots) }
        ensures queued { IfOk result (λ parts. AreQueued tables.now.run_slots parts.queued.items) }
        ensures asked { IfOk result (λ parts. AreAsked tables.now.run_slots parts.asked.items) }
        ensures nodes { IfOk result (λ parts. HasNodeRuns parts.nodes tables.now.run_slots) }
    {
        let runs = RunsOfAttempts::of_tables(alloc, tables)?;
        let held = HeldSlots::of_tables(alloc, tables)?;
        let queued = QueuedRuns::of_tables(alloc, tables)?;
        let asked = AskedRuns::of_tables(alloc, tables)?;
        let nodes = RunsOfNodes::of_tables(alloc, tables)?;
        Ok(RunParts {
            runs,
            held,
            queued,
            asked,
            nodes,
        })
    }
}

impl TaskParts {
    /// Those of the tables' tasks. The only error is out of memory.
    pub fn of_tables(
        alloc: Global,
        tables: &Tables,
        runs: &RunsOfAttempts,
    ) -> Result<TaskParts, NoMemory>
        requires { HasRuns runs.now tables.now.run_slots }
        ensures active { IfOk result (λ parts. AreItemsOf tables.now.task_slots parts.active.items) }
        ensures over { IfOk result (λ parts. AreOver tables.now.state.runs tables.now.task_slots parts.over.items) }
        ensures timed { IfOk result (λ parts. AreTimed tables.now.task_slots parts.timed.items) }
        ensures numbered { IfOk result (λ parts. HasNumbered parts.numbered tables.now.task_slots) }
    {
        let active = ActiveTasks::of_tables(alloc, tables)?;
        let over = PlacedTasks::of_tables(alloc, tables, runs)?;
        let timed = TimedTasks::of_tables(alloc, tables)?;
        let numbered = NumberedTasks::of_tables(alloc, tables)?;
        Ok(TaskParts {
            active,
            over,
            timed,
            numbered,
        })
    }
}
