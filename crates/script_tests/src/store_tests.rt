//! Scripts over a store of which each call fails in turn: the status, what is shown, and the tables that the store then contains.
//! Expected texts are written by hand.
use crate::run_tests::{ENDED, TAKEN, kept_text, run_with, streams_of, sure};
use batch_cli::Status;
use keeper_store::{MemoryStore, Store, Stored};
use std::alloc::{AllocError, Global};
use std::test::Fail;
use store_keeper::StoreKeeper;

/// What a script shows and leaves: its first lines, the others, and the tables.
type Shown = (&'static str, &'static str, &'static str);

const POOL_LINES: &str = "1 201\n1 U15 p 1 1\n1 U11 p steady\n";

const JOB_LINES: &str = "1 201\n1 U15 p 1 1\n1 U11 p steady\n2 201\n";

const TASK_LINES: &str = "1 201\n1 U15 p 1 1\n1 U11 p steady\n2 201\n3 201\n3 U16 j t 1 1\n";

const QUEUED_TABLES: &str = "tables 9\npool p active steady 1 0 1 spread\nnode 1 p 1 running\n\
    job j p active 0 -\ntask j t running - - 0\nrun 1 task 1 j t queued -\n";

const TAKEN_TABLES: &str = "tables 5\npool p active steady 1 0 1 spread\nnode 1 p 1 running\n\
    job j p active 0 -\ntask j t running - - 0\nrun 1 task 1 j t taken -\n";

const ENDED_TABLES: &str = "tables 9\npool p active steady 1 0 1 spread\nnode 1 p 1 idle\n\
    job j p active 0 -\ntask j t completed success 0 0\nrun 1 task 1 j t ended 0\n";

/// An ended task, if the first call fails, the second, and so on up to the tenth, and if none fails.
const ENDED_SHOWN: [Shown; 11] = [
    ("", "", "tables 0\n"),
    (
        "1 fault\n2 404 PoolNotFound\n3 404 JobNotFound\n",
        "4 404 RunNotFound\n5 404 RunNotFound\n",
        "tables 9\n",
    ),
    (
        "1 201\n1 stop fault\n2 201\n2 U15 p 1 1\n2 U11 p steady\n",
        "3 201\n3 U16 j t 1 1\n4 200\n5 200\n5 U5 j t success\n",
        ENDED_TABLES,
    ),
    (
        "1 201\n1 U15 p 1 1\n1 stop fault\n2 201\n2 U11 p steady\n",
        "3 201\n3 U16 j t 1 1\n4 200\n5 200\n5 U5 j t success\n",
        ENDED_TABLES,
    ),
    (
        POOL_LINES,
        "2 fault\n3 404 JobNotFound\n4 404 RunNotFound\n5 404 RunNotFound\n",
        "tables 9\npool p active steady 1 0 1 spread\nnode 1 p 1 idle\n",
    ),
    (
        JOB_LINES,
        "3 fault\n4 404 RunNotFound\n5 404 RunNotFound\n",
        "tables 9\npool p active steady 1 0 1 spread\nnode 1 p 1 idle\njob j p active 0 -\n",
    ),
    (
        JOB_LINES,
        "3 201\n3 stop fault\n4 404 RunNotFound\n4 U16 j t 1 1\n5 409 RunNotTaken\n",
        QUEUED_TABLES,
    ),
    (TASK_LINES, "4 fault\n5 409 RunNotTaken\n", QUEUED_TABLES),
    (TASK_LINES, "4 200\n5 fault\n", TAKEN_TABLES),
    (
        TASK_LINES,
        "4 200\n5 200\n5 stop fault\n",
        "tables 9\npool p active steady 1 0 1 spread\nnode 1 p 1 running\n\
            job j p active 0 -\ntask j t running - - 0\nrun 1 task 1 j t ended 0\n",
    ),
    (TASK_LINES, "4 200\n5 200\n5 U5 j t success\n", ENDED_TABLES),
];

/// A later run, whose opening withdraws the run.
const LATER: &str = "20 tick\n21 end 1 0\n";

const PLACED_LINES: &str = "1 200\n1 U5 j t active 0\n1 U15 p 2 1\n1 U11 p steady\n1 U16 j t 2 2\n";

const LATER_TABLES: &str = "tables 21\npool p active steady 1 0 1 spread\nnode 2 p 1 running\n\
    job j p active 0 -\ntask j t running - - 0\nrun 1 task 1 j t withdrawn -\n\
    run 2 task 2 j t queued -\n";

/// The later run, if the first call fails, the second, and so on up to the eighth, and if none fails.
const LATER_SHOWN: [Shown; 9] = [
    ("", "", TAKEN_TABLES),
    ("", "", TAKEN_TABLES),
    (
        "1 fault\n",
        "2 409 RunWithdrawn\n2 U5 j t active 0\n2 U15 p 2 1\n2 U11 p steady\n2 U16 j t 2 2\n",
        LATER_TABLES,
    ),
    (
        "1 200\n1 stop fault\n",
        "2 409 RunWithdrawn\n2 U5 j t active 0\n2 U15 p 2 1\n2 U11 p steady\n2 U16 j t 2 2\n",
        LATER_TABLES,
    ),
    (
        "1 200\n1 U5 j t active 0\n1 stop fault\n",
        "2 409 RunWithdrawn\n2 U15 p 2 1\n2 U11 p steady\n2 U16 j t 2 2\n",
        LATER_TABLES,
    ),
    (
        "1 200\n1 U5 j t active 0\n1 U15 p 2 1\n1 stop fault\n",
        "2 409 RunWithdrawn\n2 U11 p steady\n2 U16 j t 2 2\n",
        LATER_TABLES,
    ),
    (
        "1 200\n1 U5 j t active 0\n1 U15 p 2 1\n1 U11 p steady\n1 stop fault\n",
        "2 409 RunWithdrawn\n2 U16 j t 2 2\n",
        LATER_TABLES,
    ),
    (
        PLACED_LINES,
        "2 fault\n",
        "tables 20\npool p active steady 1 0 1 spread\nnode 2 p 1 running\n\
            job j p active 0 -\ntask j t running - - 0\nrun 1 task 1 j t withdrawn -\n\
            run 2 task 2 j t queued -\n",
    ),
    (PLACED_LINES, "2 409 RunWithdrawn\n", LATER_TABLES),
];

/// A pool that is sampled, and whose formula has a fault until there is a sample of its processors.
const SCALING: &str = "0 add-pool {\"id\":\"p\",\"enableAutoScale\":true,\
    \"autoScaleFormula\":\"$TargetDedicatedNodes = $CPUPercent;\"}\n0 sample p 3.5\n";

const SCALED_LINES: &str = "2 200\n2 U12 p $TargetDedicatedNodes=3;$TargetLowPriorityNodes=0;\
    $NodeDeallocationOption=requeue\n2 U15 p 1 1\n2 U15 p 2 2\n2 U15 p 3 3\n2 U11 p steady\n";

const SAMPLED_LINES: &str =
    "2 200\n2 U1 p 0\n2 U12 p $TargetDedicatedNodes=3;$TargetLowPriorityNodes=0;\
    $NodeDeallocationOption=requeue\n2 U15 p 1 1\n2 U15 p 2 2\n2 U15 p 3 3\n2 U11 p steady\n";

const SCALED_TABLES: &str = "tables 0\npool p active steady 3 0 1 spread\nnode 1 p 1 idle\n\
    node 2 p 2 idle\nnode 3 p 3 idle\nscale p 900000 900000\n";

const UNSCALED_TABLES: &str =
    "tables 0\npool p active steady 0 0 1 spread\nscale p 900000 900000\n";

/// The pool, if the first call fails, the second, and so on up to the fifth, and if none fails.
const SCALING_SHOWN: [Shown; 6] = [
    ("", "", "tables 0\n"),
    ("1 fault\n", "2 404 PoolNotFound\n", "tables 0\n"),
    ("1 201\n1 stop fault\n", SAMPLED_LINES, SCALED_TABLES),
    (
        "1 201\n1 U1 p 0\n1 stop fault\n",
        SCALED_LINES,
        SCALED_TABLES,
    ),
    (
        "1 201\n1 U1 p 0\n1 U12 p error EmptyVector 24\n",
        "2 fault\n",
        UNSCALED_TABLES,
    ),
    (
        "1 201\n1 U1 p 0\n1 U12 p error EmptyVector 24\n",
        "2 200\n",
        UNSCALED_TABLES,
    ),
];

/// A store of this content, of which this call fails.
pub fn store_of(alloc: Global, stored: Stored, call: u64) -> Result<MemoryStore, AllocError> {
    match vec![in alloc; call] {
        Ok(fails) => Ok(MemoryStore::new(stored, fails)),
        Err(_) => {
            drop(stored);
            Err(AllocError)
        }
    }
}

/// The status and output of a script over this store, and the store that comes back.
pub fn run_over(
    alloc: Global,
    script: &str,
    store: MemoryStore,
) -> Result<(Status, Vec<u8>, MemoryStore), AllocError> {
    match streams_of(alloc, sure(&["replay"], script.as_bytes())) {
        Ok(streams) => {
            let (status, output, keeper) = run_with(alloc, streams, StoreKeeper::new(store))?;
            Ok((status, output, keeper.into_store()))
        }
        Err(error) => {
            drop(store);
            Err(error)
        }
    }
}

/// What a store contains after this script, of which no call fails.
pub fn content_after(alloc: Global, script: &str) -> Result<Stored, AllocError> {
    let store = store_of(alloc, Stored::empty(alloc), 0)?;
    let (_status, _output, mut store) = run_over(alloc, script, store)?;
    let content = store.read(alloc);
    drop(store);
    content.map_err(|_| AllocError)
}

/// Whether the store contains the tables of this text.
fn has_tables(alloc: Global, store: MemoryStore, text: &str) -> bool {
    match kept_text(alloc, StoreKeeper::new(store)) {
        Some(found) => found.as_str() == text,
        None => false,
    }
}

/// All that the script writes: its lines and the tables, or nothing if there are no lines.
fn output_of(alloc: Global, (first, rest, tables): Shown) -> Result<String, AllocError> {
    if first.is_empty() {
        Ok(String::new(alloc))
    } else {
        format!(in alloc; "{first}{rest}{tables}")
    }
}

/// Whether the script has this status and output over this store, and leaves it these tables.
fn gives(
    alloc: Global,
    script: &str,
    store: MemoryStore,
    status: Status,
    wanted: &str,
    tables: &str,
) -> Result<bool, AllocError> {
    let (ended, output, store) = run_over(alloc, script, store)?;
    let is_shown = output.as_slice() == wanted.as_bytes();
    let has_tables = has_tables(alloc, store, tables);
    Ok((ended == status) & is_shown & has_tables)
}

/// The first call whose fault gives something else, of a script after an earlier one. No call fails after the last.
fn first_other(
    alloc: Global,
    earlier: &str,
    script: &str,
    shown: &[Shown],
) -> Result<Option<usize>, AllocError> {
    for (at, each) in shown.iter().enumerate() {
        let call = at.saturating_add(1);
        let status = if call == shown.len() {
            Status::Done
        } else {
            Status::KeeperFault
        };
        let wanted = output_of(alloc, *each)?;
        let store = store_of(alloc, content_after(alloc, earlier)?, call as u64)?;
        if !gives(alloc, script, store, status, wanted.as_str(), each.2)? {
            return Ok(Some(call));
        }
    }
    Ok(None)
}

#[test]
fn each_call_of_a_store_fails_in_turn(rt: HostRuntime) -> Result<(), Fail> {
    let alloc = rt.alloc();
    assert_eq!(rt; first_other(alloc, "", ENDED, &ENDED_SHOWN)?, None);
    assert_eq!(rt; first_other(alloc, TAKEN, LATER, &LATER_SHOWN)?, None);
    assert_eq!(rt; first_other(alloc, "", SCALING, &SCALING_SHOWN)?, None);
    Ok(())
}
