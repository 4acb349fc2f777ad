//! Tests of what no clause says: that each call which allocates succeeds while memory is ample. The expected words follow by hand from
//! the rule for each name.
use bt_base::{CommandLine, Id, NoMemory, Text, Word, words};
use bt_rows::node::{NodeRow, NodeStage};
use bt_rows::run::{RunKind, RunRow, RunState};
use bt_rows::settings::{Settings, TaskSettings};
use bt_rows::tables::{Change, Tables};
use bt_rows::task::{Multi, TaskRow, TaskStage};
use child_words::{Names, StartableRun, fill, with_words};
use std::alloc::{AllocError, Global};
use std::test::Fail;

fn text(alloc: Global, text: &str) -> Result<Option<Text>, NoMemory> {
    Ok(Some(Text::of_string(String::from_str(alloc, text)?)?))
}

/// The words, each with a comma after it.
fn joined(alloc: Global, words: &[Word]) -> Result<Vec<u8>, AllocError> {
    let mut out = Vec::new(alloc);
    for word in words {
        out.extend_from_slice(word.as_bytes())?;
        out.push(b',')?;
    }
    Ok(out)
}

/// Texts for a node and a task alone.
fn names(alloc: Global) -> Result<Names, NoMemory> {
    let node = text(alloc, "node-1")?;
    let task = text(alloc, "$AZ_BATCH_NODE_ID")?;
    Ok(Names {
        pool: None,
        node,
        job: None,
        task,
        node_list: None,
        is_master: None,
    })
}

/// The words of the line with these texts.
fn filled(alloc: Global, line: &str) -> Result<Vec<u8>, Fail> {
    let words = words(alloc, line)?;
    let names = names(alloc)?;
    let filled = fill(alloc, words.as_slice(), &names);
    drop(names);
    Ok(joined(alloc, filled?.as_slice())?)
}

#[test]
fn texts_stand_for_names(rt: HostRuntime) -> Result<(), Fail> {
    for (line, words) in [
        ("$AZ_BATCH_NODE_ID", "node-1,"),
        (
            "sh out/$AZ_BATCH_NODE_ID-$AZ_BATCH_TASK_ID.txt $AZ_BATCH_JOB_ID",
            "sh,out/node-1-$AZ_BATCH_NODE_ID.txt,$AZ_BATCH_JOB_ID,",
        ),
    ] {
        assert!(rt;
            filled(rt.alloc(), line)?.as_slice() == words.as_bytes(),
            "{line}"
        );
    }
    Ok(())
}

fn id(alloc: Global, text: &str) -> Result<Id, Fail> {
    Ok(Id::read(alloc, text)?)
}

fn command_line(alloc: Global, text: &str) -> Result<CommandLine, Fail> {
    Ok(CommandLine::read(alloc, text)?.ok_or("no command line")?)
}

/// Makes one change.
fn put(alloc: Global, tables: &mut Tables, change: Change) -> Result<(), Fail> {
    let now = Vec::from_array(alloc, [Change::Now(0)])?;
    let room = tables.reserve(now.as_slice());
    drop(now);
    match room {
        Ok(()) => {
            tables.apply_one(change);
            Ok(())
        }
        Err(_error) => {
            drop(change);
            Err("memory is ample".into())
        }
    }
}

/// The node with this number, on the seat of the same number.
fn node(alloc: Global, number: u8) -> Result<NodeRow, Fail> {
    Ok(NodeRow {
        number: u64::from(number),
        pool: id(alloc, "p")?,
        seat: number,
        stage: NodeStage::Usable,
        tries: 0,
    })
}

/// A coordination run of the first attempt of the task with these ids: of pool, job and task.
fn run(ids: (Id, Id, Id), line: CommandLine, number: u64, node: u64, state: RunState) -> RunRow {
    let (pool, job, task) = ids;
    RunRow {
        number,
        kind: RunKind::Coordination,
        node,
        pool,
        job: Some(job),
        task: Some(task),
        attempt: 1,
        line,
        slots: 1,
        state,
        asked: true,
        made: 0,
        taken: None,
        ended: None,
    }
}

/// A task with these ids, of job and task, which runs on two nodes.
fn task(
    alloc: Global,
    ids: (Id, Id),
    line: CommandLine,
    first: CommandLine,
) -> Result<TaskRow, NoMemory> {
    let (job, id) = ids;
    let mut settings = TaskSettings::plain();
    settings.multi = Some(Multi {
        count: 2,
        line: first,
    });
    Ok(TaskRow {
        job,
        id,
        line,
        slots: 1,
        stage: TaskStage::Placed,
        wanted: None,
        fail: None,
        settings: Settings::of(alloc, settings)?,
        attempt: 1,
        failures: 0,
        started: None,
        closed: None,
    })
}

/// Adds the task t of the job j.
fn put_task(alloc: Global, tables: &mut Tables) -> Result<(), Fail> {
    let ids = (id(alloc, "j")?, id(alloc, "t")?);
    let line = command_line(alloc, "w")?;
    let first = command_line(alloc, "c")?;
    put(
        alloc,
        tables,
        Change::put_task(alloc, task(alloc, ids, line, first)?)?,
    )
}

/// The line of the runs.
const LINE: &str =
    "$AZ_BATCH_POOL_ID/$AZ_BATCH_NODE_ID $AZ_BATCH_NODE_LIST $AZ_BATCH_IS_CURRENT_NODE_MASTER";

/// Adds a run of the task with this number, on the node with that number.
fn put_run(
    alloc: Global,
    tables: &mut Tables,
    number: u64,
    node: u8,
    state: RunState,
) -> Result<(), Fail> {
    let ids = (id(alloc, "p")?, id(alloc, "j")?, id(alloc, "t")?);
    let line = command_line(alloc, LINE)?;
    let row = run(ids, line, number, u64::from(node), state);
    put(alloc, tables, Change::put_run(alloc, row)?)
}

/// Adds the node with this number.
fn put_node(alloc: Global, tables: &mut Tables, number: u8) -> Result<(), Fail> {
    let row = node(alloc, number)?;
    put(alloc, tables, Change::put_node(alloc, row)?)
}

/// Adds two nodes with an attempt of a task on both: run 9 on node 1 is queued, and run 8 on node 2 is taken.
fn put_all(alloc: Global, tables: &mut Tables) -> Result<(), Fail> {
    put_task(alloc, tables)?;
    put_node(alloc, tables, 1)?;
    put_run(alloc, tables, 9, 1, RunState::Queued)?;
    put_node(alloc, tables, 2)?;
    put_run(alloc, tables, 8, 2, RunState::Taken)
}

/// Whether it belongs to the node 1 of the pool, and to the task of the job.
fn is_of_task(run: &StartableRun) -> bool {
    let identity = run.identity();
    let job = identity.job.as_ref().map(|id| id.as_str());
    let task = identity.task.as_ref().map(|id| id.as_str());
    identity.pool.as_str() == "p" && identity.node == 1 && job == Some("j") && task == Some("t")
}

/// Whether it is the run 9, with its words.
fn is_run_9(alloc: Global, run: &StartableRun) -> Result<bool, Fail> {
    let words = joined(alloc, run.words())?;
    let has_words = words.as_slice() == b"p/node-1,node-2;node-1,false,".as_slice();
    Ok(run.number() == 9 && has_words && is_of_task(run))
}

/// Whether the tables show the run 9 with its words.
fn shows_run_9(alloc: Global, tables: &Tables) -> Result<bool, Fail> {
    match tables.find_run(9) {
        Some(run) => {
            let queued = with_words(alloc, tables, run)?;
            let is_9 = is_run_9(alloc, &queued);
            drop(queued);
            is_9
        }
        None => Ok(false),
    }
}

/// What the tables show once all is added.
fn shown_with_all(alloc: Global, tables: &mut Tables) -> Result<bool, Fail> {
    put_all(alloc, tables)?;
    shows_run_9(alloc, tables)
}

#[test]
fn words_of_a_run_of_several_nodes(rt: HostRuntime) -> Result<(), Fail> {
    let alloc = rt.alloc();
    let mut tables = Tables::empty(alloc);
    let shown = shown_with_all(alloc, &mut tables);
    drop(tables);
    assert!(rt; shown?);
    Ok(())
}
