//! The command `calendar`: its status and its output, with the tables at the end. Expected texts are written by hand.

use batch_cli::{Status, run_words};
use batch_keeper::MemoryKeeper;
use bt_base::Word;
use bt_rows::tables::Tables;
use byte_streams::{MemorySink, MemorySource};
use std::alloc::{AllocError, Global};
use std::test::Fail;

/// Whether the words over this script, empty tables, and a keeper of which the calls of these numbers fail, have this status and an output
/// that begins with this text.
pub fn gives(
    alloc: Global,
    words: &[&str],
    script: &str,
    fails: &[u64],
    status: Status,
    output: &str,
) -> Result<bool, AllocError> {
    let mut all = Vec::new(alloc);
    for word in words {
        let bytes = Vec::from_slice(alloc, word.as_bytes())?;
        all.push(Word::new(bytes))?;
    }
    let bytes = Vec::from_slice(alloc, script.as_bytes())?;
    let mut source = MemorySource::new(bytes, Vec::new(alloc));
    let mut sink = MemorySink::new(alloc, Vec::new(alloc));
    let fails = Vec::from_slice(alloc, fails)?;
    let keeper = MemoryKeeper::new(Tables::empty(alloc), fails);
    let (ended, keeper) = run_words(alloc, all.as_slice(), &mut source, &mut sink, keeper);
    drop(keeper);
    let Some(written) = sink.into_bytes() else {
        return Err(AllocError);
    };
    Ok(ended == status && written.as_slice().starts_with(output.as_bytes()))
}

const LATE: &str = "0 add-pool {\"id\":\"p\",\"targetDedicatedNodes\":1}\n\
    0 add-schedule {\"id\":\"n\",\"schedule\":{\"doNotRunUntil\":\"1970-01-01T00:01:00Z\"},\
    \"jobSpecification\":{\"poolInfo\":{\"poolId\":\"p\"}}}\n60000 tick\n";

const LATE_OUTPUT: &str =
    "1 201\n1 U15 p 1 1\n1 U11 p steady\n2 201\n3 200\n3 fire n-job-1 add-job 201\n";

#[test]
fn calls_of_schedules_are_written_after_the_line(rt: HostRuntime) -> Result<(), Fail> {
    assert!(rt;
        gives(
            rt.alloc(),
            &["calendar"],
            LATE,
            &[],
            Status::Done,
            LATE_OUTPUT
        )?
    );
    Ok(())
}

#[test]
fn a_line_that_is_no_request_is_status_unreadable(rt: HostRuntime) -> Result<(), Fail> {
    let script = "0 add-schedule {}\n";
    let output = "1 400 InvalidPropertyValue id\n";
    assert!(rt;
        gives(
            rt.alloc(),
            &["calendar"],
            script,
            &[],
            Status::UnreadableLines,
            output
        )?
    );
    Ok(())
}

#[test]
fn a_refused_schedule_event_is_no_unreadable_line(rt: HostRuntime) -> Result<(), Fail> {
    let script = "0 delete-schedule n\n";
    let output = "1 404 ScheduleNotFound\n";
    assert!(rt; gives(rt.alloc(), &["calendar"], script, &[], Status::Done, output)?);
    Ok(())
}

#[test]
fn calls_of_schedules_count_for_the_journal(rt: HostRuntime) -> Result<(), Fail> {
    let words = ["calendar", "--journal", "2"];
    let output = "1 201\n1 U15 p 1 1\n1 U11 p steady\n2 201\n3 200\n3 fire n-job-1 add-job full\n";
    assert!(rt; gives(rt.alloc(), &words, LATE, &[], Status::JournalFull, output)?);
    Ok(())
}

#[test]
fn replay_knows_no_schedules(rt: HostRuntime) -> Result<(), Fail> {
    let script = "0 delete-schedule n\n";
    let output = "1 400 UnreadableBody\n";
    assert!(rt;
        gives(
            rt.alloc(),
            &["replay"],
            script,
            &[],
            Status::UnreadableLines,
            output
        )?
    );
    Ok(())
}
