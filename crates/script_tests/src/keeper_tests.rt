//! What runs write and leave over tables that earlier runs left, and when source, sink or keeper fail. Expected texts are written by
//! hand.
use crate::formula_tests::{SCALED, SCALED_OUTPUT};
use crate::run_tests::{ENDED, Run, TAKEN, gives, outcome_after, outcome_anew, sure};
use crate::scaling_tests::FOLLOWING;
use batch_cli::Status;
use std::alloc::{AllocError, Global};
use std::test::Fail;

const POOL_OUTPUT: &str = "1 201\n1 U15 p 1 1\n1 U11 p steady\n";

/// What the ended task gives if the save of the first node fails.
const STOPPED: &str =
    "1 201\n1 stop fault\n2 201\n2 U15 p 1 1\n2 U11 p steady\n3 201\n3 U16 j t 1 1\n4 200\n\
    5 200\n5 U5 j t success\ntables 9\npool p active steady 1 0 1 spread\nnode 1 p 1 idle\n\
    job j p active 0 -\ntask j t completed success 0 0\nrun 1 task 1 j t ended 0\n";

/// What it gives if the save of its pool fails.
const WITHOUT_POOL: &str = "1 fault\n2 404 PoolNotFound\n3 404 JobNotFound\n4 404 RunNotFound\n\
    5 404 RunNotFound\ntables 9\n";

/// Without its pool, a drill adds neither its job nor its task.
const NOTHING: &str = "drill 1 tasks 0 success 0 failure 0 active 0 runs 0\n";

const ONE: &str = "drill 1 tasks 1 success 1 failure 0 active 0 runs 1\n";

const SCRIPT: &[&str] = &["replay"];

const EXPORT: &[&str] = &["export"];

const DRILL: &[&str] = &["drill", "1"];

const FORMULA: &[&str] = &["formula"];

/// A formula at the last moment, with a target of 4.
const AT_END: &[&str] = &["formula", "--now=253402300799999", "--dedicated", "04"];

#[test]
fn faults_have_statuses_and_outputs(rt: HostRuntime) -> Result<(), Fail> {
    let rows: [(&[&str], &str, &[u64], &[u64], &[u64], Status, &str); 15] = [
        (SCRIPT, ENDED, &[1], &[], &[], Status::SourceFault, ""),
        (SCRIPT, ENDED, &[], &[1], &[], Status::SinkFault, ""),
        (
            SCRIPT,
            ENDED,
            &[],
            &[2],
            &[],
            Status::SinkFault,
            POOL_OUTPUT,
        ),
        (SCRIPT, ENDED, &[], &[], &[1], Status::KeeperFault, ""),
        (
            SCRIPT,
            ENDED,
            &[],
            &[],
            &[2],
            Status::KeeperFault,
            WITHOUT_POOL,
        ),
        (SCRIPT, ENDED, &[], &[], &[3], Status::KeeperFault, STOPPED),
        (EXPORT, "", &[], &[], &[1], Status::KeeperFault, ""),
        (EXPORT, "", &[], &[1], &[], Status::SinkFault, ""),
        (DRILL, "", &[], &[], &[1], Status::KeeperFault, ""),
        (DRILL, "", &[], &[1], &[], Status::SinkFault, ""),
        (DRILL, "", &[], &[], &[2], Status::KeeperFault, NOTHING),
        (DRILL, "", &[], &[], &[1_000], Status::Done, ONE),
        (FORMULA, "x = 1", &[1], &[], &[], Status::SourceFault, ""),
        (FORMULA, "x = 1", &[], &[1], &[], Status::SinkFault, ""),
        (AT_END, SCALED, &[], &[], &[1], Status::Done, SCALED_OUTPUT),
    ];
    for (words, input, source_fails, sink_fails, keeper_fails, status, output) in rows {
        let run = Run {
            words,
            input: input.as_bytes(),
            source_fails,
            sink_fails,
            keeper_fails,
        };
        assert!(rt;
            gives(rt.alloc(), run, status, output)?,
            "{words:?}{output}"
        );
    }
    Ok(())
}

/// The tables after the call that adds the pool.
const POOL_TABLES: &str = "tables 0\npool p active steady 1 0 1 spread\nnode 1 p 1 idle\n";

/// The tables after the call that adds the job.
const JOB_TABLES: &str =
    "tables 0\npool p active steady 1 0 1 spread\nnode 1 p 1 idle\njob j p active 0 -\n";

/// What two lines write after the opening of the tables of a taken run.
const OPENED_OUTPUT: &str = "1 200\n1 U5 j t active 0\n1 U15 p 2 1\n1 U11 p steady\n1 U16 j t 2 2\n\
    2 409 RunWithdrawn\ntables 21\npool p active steady 1 0 1 spread\nnode 2 p 1 running\n\
    job j p active 0 -\ntask j t running - - 0\nrun 1 task 1 j t withdrawn -\n\
    run 2 task 2 j t queued -\n";

const OPENED_TABLES: &str = "tables 21\npool p active steady 1 0 1 spread\nnode 2 p 1 running\n\
    job j p active 0 -\ntask j t running - - 0\nrun 1 task 1 j t withdrawn -\n\
    run 2 task 2 j t queued -\n";

/// The tables of a task that is placed and taken, which are not opened: the run is still taken.
const TAKEN_TABLES: &str =
    "tables 5\npool p active steady 1 0 1 spread\nnode 1 p 1 running\njob j p active 0 -\n\
    task j t running - - 0\nrun 1 task 1 j t taken -\n";

/// The tables of a task that has ended.
const ENDED_TABLES: &str =
    "tables 9\npool p active steady 1 0 1 spread\nnode 1 p 1 idle\njob j p active 0 -\n\
    task j t completed success 0 0\nrun 1 task 1 j t ended 0\n";

/// The tables after a drill of one task, over no rows. Its draws are 16838, 5758 and 10113: one slot, nothing to depend on, and the
/// code 0.
const ONE_TABLES: &str = "tables 0\npool drill active steady 8 0 4 spread\nnode 1 drill 1 idle\n\
    node 2 drill 2 idle\nnode 3 drill 3 idle\nnode 4 drill 4 idle\nnode 5 drill 5 idle\n\
    node 6 drill 6 idle\nnode 7 drill 7 idle\nnode 8 drill 8 idle\njob drill drill active 0 -\n\
    task drill 1 completed success 0 0\nrun 1 task 1 drill 1 ended 0\n";

/// A run over the tables that a script left, what it writes, and the tables that it leaves.
#[derive(Clone, Copy)]
struct Case {
    before: &'static str,
    words: &'static [&'static str],
    input: &'static str,
    /// The numbers of the calls of source, sink and keeper that fail.
    fails: [&'static [u64]; 3],
    status: Status,
    output: &'static str,
    kept: &'static str,
}

/// Whether a run gives and leaves what is expected.
fn leaves(alloc: Global, case: Case) -> Result<bool, AllocError> {
    let run = Run {
        words: case.words,
        input: case.input.as_bytes(),
        source_fails: case.fails[0],
        sink_fails: case.fails[1],
        keeper_fails: case.fails[2],
    };
    let outcome = outcome_after(alloc, case.before, run)?;
    Ok(
        outcome.status == case.status
            && outcome.output.as_slice() == case.output.as_bytes()
            && outcome.kept.as_str() == case.kept,
    )
}

/// Scripts that end at a fault of the sink.
const CUT_OFF: &[Case] = &[
    Case {
        before: "",
        words: SCRIPT,
        input: ENDED,
        fails: [&[], &[1], &[]],
        status: Status::SinkFault,
        output: "",
        kept: POOL_TABLES,
    },
    Case {
        before: "",
        words: SCRIPT,
        input: ENDED,
        fails: [&[], &[2], &[]],
        status: Status::SinkFault,
        output: POOL_OUTPUT,
        kept: JOB_TABLES,
    },
];

/// Commands that have no source, so one that fails is not read.
const WITHOUT_SOURCE: &[Case] = &[
    Case {
        before: "",
        words: DRILL,
        input: "nonsense",
        fails: [&[1], &[], &[]],
        status: Status::Done,
        output: ONE,
        kept: ONE_TABLES,
    },
    Case {
        before: "",
        words: EXPORT,
        input: "nonsense",
        fails: [&[1], &[], &[]],
        status: Status::Done,
        output: "tables 0\n",
        kept: "tables 0\n",
    },
    Case {
        before: TAKEN,
        words: EXPORT,
        input: "nonsense",
        fails: [&[1], &[], &[]],
        status: Status::Done,
        output: TAKEN_TABLES,
        kept: TAKEN_TABLES,
    },
    Case {
        before: ENDED,
        words: EXPORT,
        input: "nonsense",
        fails: [&[1], &[], &[]],
        status: Status::Done,
        output: ENDED_TABLES,
        kept: ENDED_TABLES,
    },
];

/// Commands whose keeper does not load.
const NOT_LOADED: &[Case] = &[
    Case {
        before: TAKEN,
        words: EXPORT,
        input: "",
        fails: [&[], &[], &[1]],
        status: Status::KeeperFault,
        output: "",
        kept: TAKEN_TABLES,
    },
    Case {
        before: TAKEN,
        words: DRILL,
        input: "",
        fails: [&[], &[], &[1]],
        status: Status::KeeperFault,
        output: "",
        kept: TAKEN_TABLES,
    },
];

/// Lines after the opening of the tables of a taken run.
const LATER: &str = "20 tick\n21 end 1 0\n";

/// Lines after the opening of the tables of a pool that scales: its nodes are made anew, and its samples and its formula are there.
const SCALED_LATER: &str = "930000 tick\n930000 sample p 1.9\n1800000 tick\n";

const SCALED_LATER_OUTPUT: &str =
    "1 200\n1 U1 p 930000\n1 U15 p 4 1\n1 U15 p 5 2\n1 U15 p 6 3\n1 U11 p steady\n2 200\n3 200\n\
    3 U1 p 1800000\n3 U12 p $TargetDedicatedNodes=1;$TargetLowPriorityNodes=0;\
    $NodeDeallocationOption=requeue\n3 U13 6\n3 U13 5\n3 U14 5\n3 U14 6\n3 U11 p steady\n\
    tables 1800000\npool p active steady 1 0 1 spread\nnode 4 p 1 idle\nscale p 900000 2700000\n";

const SCALED_LATER_TABLES: &str =
    "tables 1800000\npool p active steady 1 0 1 spread\nnode 4 p 1 idle\nscale p 900000 2700000\n";

/// Scripts over the tables of a taken run, and over those of a pool that scales.
const OPENED: &[Case] = &[
    Case {
        before: TAKEN,
        words: SCRIPT,
        input: LATER,
        fails: [&[], &[], &[]],
        status: Status::Done,
        output: OPENED_OUTPUT,
        kept: OPENED_TABLES,
    },
    Case {
        before: FOLLOWING,
        words: SCRIPT,
        input: SCALED_LATER,
        fails: [&[], &[], &[]],
        status: Status::Done,
        output: SCALED_LATER_OUTPUT,
        kept: SCALED_LATER_TABLES,
    },
];

#[test]
fn runs_leave_tables(rt: HostRuntime) -> Result<(), Fail> {
    for cases in [CUT_OFF, WITHOUT_SOURCE, NOT_LOADED, OPENED] {
        for case in cases {
            assert!(rt;
                leaves(rt.alloc(), *case)?,
                "{:?}{}{}",
                case.words,
                case.output,
                case.kept
            );
        }
    }
    Ok(())
}

/// The lines of an ended task, and how many loads and saves the script up to each makes.
const LINES: [(&str, u64); 5] = [
    ("0 add-pool {\"id\":\"p\",\"targetDedicatedNodes\":1}\n", 4),
    (
        "0 add-job {\"id\":\"j\",\"poolInfo\":{\"poolId\":\"p\"}}\n",
        5,
    ),
    (
        "0 add-task j {\"id\":\"t\",\"commandLine\":\"echo hi\"}\n",
        7,
    ),
    ("5 take 1\n", 8),
    ("9 end 1 0\n", 10),
];

/// The status of a script of which this call of the keeper fails.
fn status_at(call: u64, calls: u64) -> Status {
    if call <= calls {
        Status::KeeperFault
    } else {
        Status::Done
    }
}

/// Whether a script of which this call of the keeper fails has this status, and its keeper the tables that are shown.
fn keeps_what_it_shows(
    alloc: Global,
    script: &str,
    call: u64,
    status: Status,
) -> Result<bool, AllocError> {
    let run = Run {
        keeper_fails: &[call],
        ..sure(SCRIPT, script.as_bytes())
    };
    let outcome = outcome_anew(alloc, run)?;
    Ok(outcome.status == status && outcome.shows_kept())
}

#[test]
fn the_keeper_has_the_tables_that_are_shown_after_each_line(rt: HostRuntime) -> Result<(), Fail> {
    let alloc = rt.alloc();
    let mut script = String::new(alloc);
    for (line, calls) in LINES {
        script.push_str(line)?;
        for call in 2..=11 {
            assert!(rt;
                keeps_what_it_shows(alloc, script.as_str(), call, status_at(call, calls))?,
                "{script}{call}"
            );
        }
    }
    Ok(())
}

/// Whether the keeper has the tables that are shown by a script over the tables of a taken run, if this call of the keeper fails.
fn keeps_after_opening(alloc: Global, script: &str, call: u64) -> Result<bool, AllocError> {
    let run = Run {
        keeper_fails: &[call],
        ..sure(SCRIPT, script.as_bytes())
    };
    Ok(outcome_after(alloc, TAKEN, run)?.shows_kept())
}

#[test]
fn the_keeper_has_the_tables_that_are_shown_after_an_opening(rt: HostRuntime) -> Result<(), Fail> {
    for script in ["20 tick\n", "20 tick\n21 end 1 0\n"] {
        for call in 3..=9 {
            assert!(rt;
                keeps_after_opening(rt.alloc(), script, call)?,
                "{script}{call}"
            );
        }
    }
    Ok(())
}

/// Whether two drills of a hundred tasks have the same output and leave the same tables.
fn is_same_each_time(alloc: Global) -> Result<bool, AllocError> {
    let run = sure(&["drill", "100"], b"");
    let once = outcome_anew(alloc, run)?;
    let again = outcome_anew(alloc, run)?;
    Ok(
        once.status == Status::Done
            && again.status == Status::Done
            && once
                .output
                .as_slice()
                .starts_with(b"drill 100 tasks 100 success ")
            && once.output.as_slice() == again.output.as_slice()
            && once.kept.as_str() == again.kept.as_str(),
    )
}

#[test]
fn a_drill_of_a_hundred_tasks_is_the_same_each_time(rt: HostRuntime) -> Result<(), Fail> {
    assert!(rt; is_same_each_time(rt.alloc())?);
    Ok(())
}
