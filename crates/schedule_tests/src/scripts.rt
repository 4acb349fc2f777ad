//! Scripts, and what they show. Expected texts are written by hand.

use crate::runs::gives;
use batch_cli::Status;
use std::alloc::{AllocError, Global};
use std::test::Fail;

const POOL: &str = "0 add-pool {\"id\":\"p\",\"targetDedicatedNodes\":1}\n";

const MINUTES: &str =
    "0 add-schedule {\"id\":\"n\",\"schedule\":{\"recurrenceInterval\":\"PT1M\"},\"jobSpecification\":{\"poolInfo\":{\"poolId\":\"p\"},\
    \"onAllTasksComplete\":\"terminatejob\"},\"tasks\":[{\"id\":\"t\",\"commandLine\":\"w\"}]}\n\
    1000 take 1\n60000 tick\n61000 end 1 0\n";

const MINUTES_OUTPUT: &str = "1 201\n1 U15 p 1 1\n1 U11 p steady\n\
    2 201\n2 fire n-job-1 add-job 201\n2 fire n-job-1 add-tasks 200 201\n2 U16 n-job-1 t 1 1\n2 fire n-job-1 patch-job 200\n\
    3 200\n4 200\n5 200\n5 U5 n-job-1 t success\n5 U7 n-job-1\n5 U10 n-job-1 completed\n\
    5 fire n-job-2 add-job 201\n5 fire n-job-2 add-tasks 200 201\n5 U16 n-job-2 t 1 2\n5 fire n-job-2 patch-job 200\n";

const WINDOWS: &str =
    "0 add-schedule {\"id\":\"n\",\"schedule\":{\"recurrenceInterval\":\"PT2M\",\"startWindow\":\"PT1M\"},\
    \"jobSpecification\":{\"poolInfo\":{\"poolId\":\"p\"},\"onAllTasksComplete\":\"terminatejob\"},\
    \"tasks\":[{\"id\":\"t\",\"commandLine\":\"w\"}]}\n\
    1000 take 1\n60000 tick\n190000 end 1 0\n240000 tick\n\
    240000 add-schedule {\"id\":\"N\",\"jobSpecification\":{\"poolInfo\":{\"poolId\":\"p\"}}}\n\
    240000 enable-schedule n\n240000 delete-schedule x\n";

const WINDOWS_OUTPUT: &str = "1 201\n1 U15 p 1 1\n1 U11 p steady\n\
    2 201\n2 fire n-job-1 add-job 201\n2 fire n-job-1 add-tasks 200 201\n2 U16 n-job-1 t 1 1\n2 fire n-job-1 patch-job 200\n\
    3 200\n4 200\n5 200\n5 U5 n-job-1 t success\n5 U7 n-job-1\n5 U10 n-job-1 completed\n\
    6 200\n6 fire n-job-2 add-job 201\n6 fire n-job-2 add-tasks 200 201\n6 U16 n-job-2 t 1 2\n6 fire n-job-2 patch-job 200\n\
    7 409 ScheduleExists\n8 409 ScheduleStateRefuses active\n9 404 ScheduleNotFound\n";

/// Bodies that are refused, and words without arguments.
const REFUSED: &str =
    "0 list-jobs\n0 add-schedule\n0 add-schedule {\n0 add-schedule {}\n0 add-schedule {\"id\":\"n\"}\n\
    0 add-schedule {\"id\":\"n\",\"schedule\":{\"recurrenceInterval\":\"PT59S\"},\"jobSpecification\":{}}\n\
    0 add-schedule {\"id\":\"n\",\"schedule\":{\"doNotRunUntil\":\"x\"},\"jobSpecification\":{}}\n\
    0 add-schedule {\"id\":\"n\",\"jobSpecification\":{}}\n\
    0 add-schedule {\"id\":\"n\",\"jobSpecification\":{\"poolInfo\":{\"poolId\":\"p\"}},\"tasks\":[{\"id\":\"t\"}]}\n\
    0 add-schedule {\"id\":\"123456789012345678901234567890123456789012345678901\"}\n\
    x delete-schedule n\n0 disable-schedule n\n0 add-schedules {}\n";

const REFUSED_OUTPUT: &str =
    "1 200 {\"value\":[]}\n2 400 UnreadableBody\n3 400 UnreadableBody\n4 400 InvalidPropertyValue id\n\
    5 400 InvalidPropertyValue jobSpecification\n6 400 InvalidPropertyValue recurrenceInterval\n\
    7 400 InvalidPropertyValue doNotRunUntil\n8 400 InvalidPropertyValue poolId\n9 400 InvalidPropertyValue commandLine\n\
    10 400 InvalidPropertyValue id\n11 400 UnreadableBody\n12 404 ScheduleNotFound\n13 400 UnreadableBody\n";

/// A schedule that begins later, fires once and is completed, so that it is neither disabled nor enabled; its job has no tasks and stays. The
/// events of the schedule itself are no calls of the desk, so the last moment of the tables is that of the last tick.
const ONCE: &str =
    "0 add-schedule {\"id\":\"o\",\"schedule\":{\"doNotRunUntil\":\"1970-01-01T00:01:00.0009Z\"},\
    \"jobSpecification\":{\"poolInfo\":{\"poolId\":\"p\"}}}\n\
    59999 tick\n59999 disable-schedule O\n60000 tick\n60001 enable-schedule o\n60001 tick\n60002 disable-schedule o\n60002 delete-schedule o\n\
    60002 get-job o-job-1\n";

const ONCE_OUTPUT: &str = "1 201\n1 U15 p 1 1\n1 U11 p steady\n2 201\n3 200\n4 204\n5 200\n\
    6 204\n6 fire o-job-1 add-job 201\n7 200\n8 409 ScheduleStateRefuses completed\n9 202\n\
    10 200 {\"id\":\"o-job-1\",\"maxParallelTasks\":-1,\"poolId\":\"p\",\"priority\":0,\"state\":\"active\"}\n";

/// The journal is full after the job is added, so that its tasks are requested again in each turn.
const FULL_OUTPUT: &str =
    "1 201\n1 U15 p 1 1\n1 U11 p steady\n2 201\n2 fire n-job-1 add-job 201\n2 fire n-job-1 add-tasks full\n\
    3 full\n3 fire n-job-1 add-tasks full\n4 full\n4 fire n-job-1 add-tasks full\n5 full\n5 fire n-job-1 add-tasks full\n";

#[test]
fn a_schedule_of_a_minute(rt: HostRuntime) -> Result<(), Fail> {
    let script = format!(in rt.alloc(); "{POOL}{MINUTES}")?;
    let output = format!(in rt.alloc(); "{MINUTES_OUTPUT}tables 61000\n")?;
    assert!(rt;
        gives(
            rt.alloc(),
            &["calendar"],
            script.as_str(),
            &[],
            Status::Done,
            output.as_str()
        )?
    );
    Ok(())
}

#[test]
fn a_schedule_with_a_window(rt: HostRuntime) -> Result<(), Fail> {
    let script = format!(in rt.alloc(); "{POOL}{WINDOWS}")?;
    let output = format!(in rt.alloc(); "{WINDOWS_OUTPUT}tables 240000\n")?;
    assert!(rt;
        gives(
            rt.alloc(),
            &["calendar"],
            script.as_str(),
            &[],
            Status::Done,
            output.as_str()
        )?
    );
    Ok(())
}

#[test]
fn lines_that_are_refused(rt: HostRuntime) -> Result<(), Fail> {
    let output = format!(in rt.alloc(); "{REFUSED_OUTPUT}tables 0\n")?;
    assert!(rt;
        gives(
            rt.alloc(),
            &["calendar"],
            REFUSED,
            &[],
            Status::UnreadableLines,
            output.as_str()
        )?
    );
    Ok(())
}

#[test]
fn a_schedule_of_one_occurrence(rt: HostRuntime) -> Result<(), Fail> {
    let script = format!(in rt.alloc(); "{POOL}{ONCE}")?;
    let output = format!(in rt.alloc(); "{ONCE_OUTPUT}tables 60001\n")?;
    assert!(rt;
        gives(
            rt.alloc(),
            &["calendar"],
            script.as_str(),
            &[],
            Status::Done,
            output.as_str()
        )?
    );
    Ok(())
}

#[test]
fn remaining_requests_are_repeated(rt: HostRuntime) -> Result<(), Fail> {
    let script = format!(in rt.alloc(); "{POOL}{MINUTES}")?;
    let words = ["calendar", "--journal", "2"];
    assert!(rt;
        gives(
            rt.alloc(),
            &words,
            script.as_str(),
            &[],
            Status::JournalFull,
            FULL_OUTPUT
        )?
    );
    Ok(())
}

/// So many schedules that begin a day later, another one with the id of the first, and its deletion.
fn schedules(alloc: Global, count: u64) -> Result<String, AllocError> {
    let mut script = String::new(alloc);
    for n in 1..=count {
        writeln!(
            script,
            "0 add-schedule {{\"id\":\"s{n}\",\"schedule\":{{\"doNotRunUntil\":\"1970-01-02T00:00:00Z\"}},\
            \"jobSpecification\":{{\"poolInfo\":{{\"poolId\":\"p\"}}}}}}"
        )?;
    }
    script.push_str(
        "0 add-schedule {\"id\":\"S1\",\"jobSpecification\":{\"poolInfo\":{\"poolId\":\"p\"}}}\n0 delete-schedule s1\n",
    )?;
    Ok(script)
}

/// What 257 of them show: one is too many, and a schedule that is there is refused for that first.
fn schedules_output(alloc: Global) -> Result<String, AllocError> {
    let mut output = String::new(alloc);
    for n in 1..=256_u64 {
        writeln!(output, "{n} 201")?;
    }
    output.push_str(
        "257 409 TableFull schedules 256\n258 409 ScheduleExists\n259 202\ntables 0\n",
    )?;
    Ok(output)
}

#[test]
fn the_257th_schedule_is_refused(rt: HostRuntime) -> Result<(), Fail> {
    let script = schedules(rt.alloc(), 257)?;
    let output = schedules_output(rt.alloc())?;
    assert!(rt;
        gives(
            rt.alloc(),
            &["calendar"],
            script.as_str(),
            &[],
            Status::Done,
            output.as_str()
        )?
    );
    Ok(())
}
