//! What scripts write, and with which status. Expected texts are written by hand.
ghost use Rattle.std.specs.Prelude.{◌<◌, length};

use crate::run_tests::{ENDED, gives, run_anew, sure};
use batch_cli::Status;
use std::alloc::{AllocError, Global};
use std::test::Fail;

/// A task that ends, and calls that are refused.
const REFUSED: &str = "0 add-pool {\"id\":\"p\",\"targetDedicatedNodes\":1}\n\
    0 add-job {\"id\":\"j\",\"poolInfo\":{\"poolId\":\"p\"}}\n\
    0 add-task j {\"id\":\"t\",\"commandLine\":\"echo hi\"}\n\
    1 end 7 0\n1 end 1 0\n5 take 1\n5 take 1\n9 end 1 0\n9 end 1 0\nnonsense\n";

const REFUSED_OUTPUT: &str = "1 201\n1 U15 p 1 1\n1 U11 p steady\n2 201\n3 201\n3 U16 j t 1 1\n\
    4 404 RunNotFound\n5 409 RunNotTaken\n6 200\n7 409 RunAlreadyTaken\n\
    8 200\n8 U5 j t success\n9 409 RunAlreadyEnded\n10 400 UnreadableBody\n\
    tables 9\npool p active steady 1 0 1 spread\nnode 1 p 1 idle\njob j p active 0 -\n\
    task j t completed success 0 0\nrun 1 task 1 j t ended 0\n";

/// Two pools of one id.
const SAME_IDS: &str =
    "0 add-pool {\"id\":\"Render\"}\r\n\n# a comment\n0 add-pool {\"id\":\"render\"}";

const SAME_IDS_OUTPUT: &str =
    "1 201\n4 409 PoolExists\ntables 0\npool Render active steady 0 0 1 spread\n";

/// What the ended task gives with a journal of two calls.
const FULL: &str = "1 201\n1 U15 p 1 1\n1 U11 p steady\n2 201\n3 full\n4 full\n5 full\n\
    tables 0\npool p active steady 1 0 1 spread\nnode 1 p 1 idle\njob j p active 0 -\n";

const TWO_NODES: &str = "0 add-pool {\"id\":\"p\",\"targetDedicatedNodes\":2}\n0 tick\n";

const ONE_SEAT: &str = "1 201\n1 U15 p 1 1\n2 full\ntables 0\n\
    pool p active resizing 2 0 1 spread\nnode 1 p 1 idle\n";

const TWO_SEATS: &str = "1 201\n1 U15 p 1 1\n1 U15 p 2 2\n1 U11 p steady\n2 full\ntables 0\n\
    pool p active steady 2 0 1 spread\nnode 1 p 1 idle\nnode 2 p 2 idle\n";

/// A pool that wants more nodes than there are seats, with a timeout of its own.
const TIMED_OUT: &str =
    "0 add-pool {\"id\":\"p\",\"targetDedicatedNodes\":2,\"resizeTimeout\":\"PT5M\"}\n\
    299999 tick\n300000 tick\n";

const TIMED_OUT_OUTPUT: &str = "1 201\n1 U15 p 1 1\n2 200\n3 200\n3 U11 p timeout\ntables 300000\n\
    pool p active steady 2 0 1 spread\nnode 1 p 1 idle\n";

/// A line of each word, and lines that are refused for their word, their ending, an id before a body, and a missing member.
const ALL_WORDS: &str = "#7 take 1\n7 add-pool {\"id\":\"P\",\"targetDedicatedNodes\":1000}\n\
    7 add-job {\"poolInfo\":{\"poolId\":\"P\"},\"id\":\"j\"}\n\
    7 add-task j {\"id\":\"t\",\"commandLine\":\"a \\\"b c\\\"\"}\n\
    7 add-tasks j {\"value\":[]}\n007 take 1\n7 end 1 2147483648\n7 end 1 -7\n007 tick\n\
    7 scale P\n7 add-task j! {\n7 add-job {\"id\":\"k\"}\n";

const ALL_WORDS_OUTPUT: &str =
    "2 201\n2 U15 P 1 1\n3 201\n4 201\n4 U16 j t 1 1\n5 200\n6 200\n7 400 UnreadableBody\n\
    8 200\n8 U5 j t failure\n9 200\n10 400 UnreadableBody\n11 400 InvalidPropertyValue id\n\
    12 400 InvalidPropertyValue poolId\ntables 7\npool P active resizing 1000 0 1 spread\n\
    node 1 P 1 idle\njob j P active 0 -\ntask j t completed failure -7 0\nrun 1 task 1 j t ended -7\n";

/// Five calls, and reads between and after them, of which the last ones are refused.
const READS: &str = "0 list-jobs\n0 add-pool {\"id\":\"P\",\"targetDedicatedNodes\":1}\n\
    0 add-job {\"id\":\"J\",\"priority\":-5,\"poolInfo\":{\"poolId\":\"p\"}}\n\
    0 add-task j {\"id\":\"t\",\"commandLine\":\"say \\\"hi\\\"\"}\n5 take 1\n99 get-task j T\n\
    6 end 1 3\n0 get-task J t\n0 task-counts j\n0 list-tasks j\n0 get-pool p\n0 list-pools\n\
    0 list-nodes p\n0 get-job j\n0 list-nodes q\n0 get-task j u\n0 get-task k u\nx list-jobs\n\
    0 list-jobs j\n0 get-job j!\n0 get-task j\n0 get-pool\n";

const READS_OUTPUT: &str = "1 200 {\"value\":[]}\n2 201\n2 U15 P 1 1\n2 U11 P steady\n3 201\n\
    4 201\n4 U16 J t 1 1\n5 200\n\
    6 200 {\"commandLine\":\"say \\\"hi\\\"\",\"id\":\"t\",\"retryCount\":0,\"state\":\"running\"}\n\
    7 200\n7 U5 J t failure\n\
    8 200 {\"commandLine\":\"say \\\"hi\\\"\",\"exit\":\"3\",\"id\":\"t\",\"result\":\"failure\",\
    \"retryCount\":0,\"state\":\"completed\"}\n\
    9 200 {\"taskCounts\":{\"active\":0,\"completed\":1,\"failed\":1,\"running\":0,\"succeeded\":0}}\n\
    10 200 {\"value\":[{\"commandLine\":\"say \\\"hi\\\"\",\"exit\":\"3\",\"id\":\"t\",\
    \"result\":\"failure\",\"retryCount\":0,\"state\":\"completed\"}]}\n\
    11 200 {\"allocationState\":\"steady\",\"currentDedicatedNodes\":1,\"currentLowPriorityNodes\":0,\
    \"enableAutoScale\":false,\"id\":\"P\",\"resizeErrors\":[],\"state\":\"active\",\
    \"targetDedicatedNodes\":1,\"targetLowPriorityNodes\":0,\"taskSlotsPerNode\":1}\n\
    12 200 {\"value\":[{\"allocationState\":\"steady\",\"currentDedicatedNodes\":1,\
    \"currentLowPriorityNodes\":0,\"enableAutoScale\":false,\"id\":\"P\",\"resizeErrors\":[],\
    \"state\":\"active\",\"targetDedicatedNodes\":1,\"targetLowPriorityNodes\":0,\"taskSlotsPerNode\":1}]}\n\
    13 200 {\"value\":[{\"id\":\"node-1\",\"seat\":1,\"state\":\"idle\"}]}\n\
    14 200 {\"id\":\"J\",\"maxParallelTasks\":-1,\"poolId\":\"P\",\"priority\":-5,\"state\":\"active\"}\n\
    15 404 PoolNotFound\n16 404 TaskNotFound\n17 404 JobNotFound\n18 400 UnreadableBody\n\
    19 400 UnreadableBody\n20 400 InvalidPropertyValue id\n21 400 UnreadableBody\n22 400 UnreadableBody\n\
    tables 6\npool P active steady 1 0 1 spread\nnode 1 P 1 idle\njob J P active -5 -\n\
    task J t completed failure 3 0\nrun 1 task 1 J t ended 3\n";

#[test]
fn scripts_and_options_are_followed(rt: HostRuntime) -> Result<(), Fail> {
    let read = "1 200 {\"value\":[]}\ntables 0\n";
    let rows: [(&[&str], &str, Status, &str); 11] = [
        (&["replay"], "", Status::Done, "tables 0\n"),
        (
            &["replay"],
            "7 tick\n5 tick",
            Status::Done,
            "1 200\n2 200\ntables 7\n",
        ),
        (&["replay"], "0 list-jobs", Status::Done, read),
        (&["replay"], SAME_IDS, Status::Done, SAME_IDS_OUTPUT),
        (
            &["replay"],
            REFUSED,
            Status::UnreadableLines,
            REFUSED_OUTPUT,
        ),
        (
            &["replay", "--journal", "2"],
            ENDED,
            Status::JournalFull,
            FULL,
        ),
        (
            &["replay", "--journal=1", "--seats", "1"],
            TWO_NODES,
            Status::JournalFull,
            ONE_SEAT,
        ),
        (
            &["replay", "--journal=00000000000000000001", "--seats", "032"],
            TWO_NODES,
            Status::JournalFull,
            TWO_SEATS,
        ),
        (
            &["replay", "--seats=1"],
            TIMED_OUT,
            Status::Done,
            TIMED_OUT_OUTPUT,
        ),
        (
            &["replay", "--seats=1"],
            ALL_WORDS,
            Status::UnreadableLines,
            ALL_WORDS_OUTPUT,
        ),
        (
            &["replay", "--journal=5"],
            READS,
            Status::UnreadableLines,
            READS_OUTPUT,
        ),
    ];
    for (words, script, status, output) in rows {
        assert!(rt;
            gives(rt.alloc(), sure(words, script.as_bytes()), status, output)?,
            "{words:?}{script}"
        );
    }
    Ok(())
}

/// Pools of these numbers, each with no nodes.
fn pools(alloc: Global, count: u64) -> Result<String, AllocError> {
    let mut script = String::new(alloc);
    for n in 0..count {
        writeln!(script, "0 add-pool {{\"id\":\"p{n}\"}}")?;
    }
    Ok(script)
}

/// Whether the output of 65 pools has this part.
fn has_part(alloc: Global, wanted: &[u8]) -> Result<bool, AllocError>
    requires { 0 < length wanted.now }
{
    let script = pools(alloc, 65)?;
    let (status, output, _keeper) = run_anew(alloc, sure(&["replay"], script.as_bytes()))?;
    Ok(status == Status::Done && output.windows(wanted.len()).any(|part| part == wanted))
}

#[test]
fn the_65th_pool_is_refused(rt: HostRuntime) -> Result<(), Fail> {
    let wanted = b"\n64 201\n65 409 TableFull pools 64\ntables 0\n".as_slice();
    assert!(rt; has_part(rt.alloc(), wanted)?);
    Ok(())
}

/// A pool of two nodes of two slots, with a policy or none, a job, and four tasks, of which the third needs two slots.
const FOUR_TASKS: &str = "0 add-job {\"id\":\"j\",\"poolInfo\":{\"poolId\":\"p\"}}\n\
    0 add-tasks j {\"value\":[{\"id\":\"a\",\"commandLine\":\"w\"},{\"id\":\"b\",\"commandLine\":\"w\"},\
    {\"id\":\"c\",\"commandLine\":\"w\",\"requiredSlots\":2},{\"id\":\"d\",\"commandLine\":\"w\"}]}\n";

/// A job, a task, and a start task that fails once.
const STARTED: &str = "0 add-job {\"id\":\"j\",\"poolInfo\":{\"poolId\":\"p\"}}\n\
    0 add-task j {\"id\":\"t\",\"commandLine\":\"w\"}\n1 take 1\n2 end 1 1\n";

const SPREAD: &str =
    "0 add-pool {\"id\":\"p\",\"targetDedicatedNodes\":2,\"taskSlotsPerNode\":2}\n";

const SPREAD_OUTPUT: &str =
    "1 201\n1 U15 p 1 1\n1 U15 p 2 2\n1 U11 p steady\n2 201\n3 200 201 201 201 201\n\
    3 U16 j a 1 1\n3 U16 j b 2 2\n3 U16 j d 1 3\ntables 0\npool p active steady 2 0 2 spread\n\
    node 1 p 1 running\nnode 2 p 2 running\njob j p active 0 -\ntask j a running - - 0\n\
    task j b running - - 0\ntask j c active - - 0\ntask j d running - - 0\n\
    run 1 task 1 j a queued -\nrun 2 task 2 j b queued -\nrun 3 task 1 j d queued -\n";

const PACK: &str = "0 add-pool {\"id\":\"p\",\"targetDedicatedNodes\":2,\"taskSlotsPerNode\":2,\
    \"taskSchedulingPolicy\":{\"nodeFillType\":\"Pack\"}}\n";

const PACK_OUTPUT: &str =
    "1 201\n1 U15 p 1 1\n1 U15 p 2 2\n1 U11 p steady\n2 201\n3 200 201 201 201 201\n\
    3 U16 j a 1 1\n3 U16 j b 1 2\n3 U16 j c 2 3\ntables 0\npool p active steady 2 0 2 pack\n\
    node 1 p 1 running\nnode 2 p 2 running\njob j p active 0 -\ntask j a running - - 0\n\
    task j b running - - 0\ntask j c running - - 0\ntask j d active - - 0\n\
    run 1 task 1 j a queued -\nrun 2 task 1 j b queued -\nrun 3 task 2 j c queued -\n";

/// A start task that is waited for and has failed once, and is taken again.
const START_TASK: &str = "0 add-pool {\"id\":\"p\",\"targetDedicatedNodes\":1,\
    \"startTask\":{\"commandLine\":\"init\",\"maxTaskRetryCount\":1}}\n\
    0 add-job {\"id\":\"j\",\"poolInfo\":{\"poolId\":\"p\"}}\n\
    0 add-task j {\"id\":\"t\",\"commandLine\":\"w\"}\n1 take 1\n2 end 1 1\n3 take 2\n";

const STARTED_OUTPUT: &str =
    "1 201\n1 U15 p 1 1\n1 U11 p steady\n2 201\n3 201\n4 200\n5 200\n6 200\n7 200\n\
    7 U16 j t 1 3\ntables 4\npool p active steady 1 0 1 spread\nnode 1 p 1 running\njob j p active 0 -\n\
    task j t running - - 0\nrun 1 start 1 - - ended 1\nrun 2 start 1 - - ended 0\nrun 3 task 1 j t queued -\n";

const FAILED_OUTPUT: &str =
    "1 201\n1 U15 p 1 1\n1 U11 p steady\n2 201\n3 201\n4 200\n5 200\n6 200\n7 200\n\
    tables 4\npool p active steady 1 0 1 spread\nnode 1 p 1 starttaskfailed\njob j p active 0 -\n\
    task j t active - - 0\nrun 1 start 1 - - ended 1\nrun 2 start 1 - - ended 1\n";

const UNAWAITED: &str = "0 add-pool {\"id\":\"p\",\"targetDedicatedNodes\":1,\"startTask\":\
    {\"commandLine\":\"init\",\"maxTaskRetryCount\":1,\"waitForSuccess\":false}}\n";

const UNAWAITED_OUTPUT: &str =
    "1 201\n1 U15 p 1 1\n1 U11 p steady\n2 201\n3 201\n3 U16 j t 1 2\n4 200\n5 200\n\
    tables 2\npool p active steady 1 0 1 spread\nnode 1 p 1 running\njob j p active 0 -\n\
    task j t running - - 0\nrun 1 start 1 - - ended 1\nrun 2 task 1 j t queued -\nrun 3 start 1 - - queued -\n";

/// A job that is disabled once its task has ended, and then enabled.
const WAITING: &str = "0 add-pool {\"id\":\"p\",\"targetDedicatedNodes\":1}\n\
    0 add-job {\"id\":\"j\",\"poolInfo\":{\"poolId\":\"p\"}}\n\
    0 add-task j {\"id\":\"t\",\"commandLine\":\"echo hi\"}\n5 take 1\n\
    6 disable-job j {\"disableTasks\":\"wait\"}\n9 end 1 0\n10 enable-job j\n";

const WAITING_OUTPUT: &str = "1 201\n1 U15 p 1 1\n1 U11 p steady\n2 201\n3 201\n3 U16 j t 1 1\n\
    4 200\n5 202\n6 200\n6 U5 j t success\n6 U8 j\n7 202\n7 U6 j\ntables 10\n\
    pool p active steady 1 0 1 spread\nnode 1 p 1 idle\njob j p active 0 -\n\
    task j t completed success 0 0\nrun 1 task 1 j t ended 0\n";

/// A disabled job places no task, and one of a higher priority does.
const DISABLED: &str = "0 add-pool {\"id\":\"p\",\"targetDedicatedNodes\":1}\n\
    0 add-job {\"id\":\"j\",\"poolInfo\":{\"poolId\":\"p\"}}\n\
    0 add-job {\"id\":\"a\",\"priority\":1,\"maxParallelTasks\":1,\"poolInfo\":{\"poolId\":\"p\"}}\n\
    0 disable-job j {\"disableTasks\":\"requeue\"}\n0 add-task j {\"id\":\"t\",\"commandLine\":\"w\"}\n\
    0 add-task a {\"id\":\"t\",\"commandLine\":\"w\"}\n0 enable-job j\n0 enable-job j\n";

const DISABLED_OUTPUT: &str = "1 201\n1 U15 p 1 1\n1 U11 p steady\n2 201\n3 201\n4 202\n4 U8 j\n\
    5 201\n6 201\n6 U16 a t 1 1\n7 202\n7 U6 j\n8 409 JobStateRefuses active\ntables 0\n\
    pool p active steady 1 0 1 spread\nnode 1 p 1 running\njob j p active 0 -\njob a p active 1 -\n\
    task j t active - - 0\ntask a t running - - 0\nrun 1 task 1 a t queued -\n";

/// A job that ends with its task, which is not taken back.
const PATCHED: &str = "0 add-pool {\"id\":\"p\",\"targetDedicatedNodes\":1}\n\
    0 add-job {\"id\":\"j\",\"poolInfo\":{\"poolId\":\"p\"}}\n\
    0 add-task j {\"id\":\"t\",\"commandLine\":\"w\"}\n\
    0 patch-job j {\"onAllTasksComplete\":\"terminatejob\"}\n\
    0 patch-job j {\"onAllTasksComplete\":\"noaction\"}\n0 patch-job k {}\n1 take 1\n2 end 1 0\n\
    3 patch-job j {}\n";

const PATCHED_OUTPUT: &str = "1 201\n1 U15 p 1 1\n1 U11 p steady\n2 201\n3 201\n3 U16 j t 1 1\n\
    4 200\n5 400 TerminationEngaged\n6 404 JobNotFound\n7 200\n8 200\n8 U5 j t success\n8 U7 j\n\
    8 U10 j completed\n9 409 JobStateRefuses completed\ntables 3\n\
    pool p active steady 1 0 1 spread\nnode 1 p 1 idle\njob j p completed 0 AllTasksComplete\n\
    task j t completed success 0 0\nrun 1 task 1 j t ended 0\n";

/// A job that is terminated while a task runs and another waits for a node, and is then deleted beside another job.
const CLOSED: &str = "0 add-pool {\"id\":\"p\",\"targetDedicatedNodes\":1}\n\
    0 add-job {\"id\":\"j\",\"poolInfo\":{\"poolId\":\"p\"}}\n\
    0 add-tasks j {\"value\":[{\"id\":\"t\",\"commandLine\":\"w\"},{\"id\":\"u\",\"commandLine\":\"w\"}]}\n\
    0 add-job {\"id\":\"k\",\"poolInfo\":{\"poolId\":\"p\"}}\n0 add-task k {\"id\":\"t\",\"commandLine\":\"w\"}\n\
    1 take 1\n2 terminate-job j {\"terminateReason\":\"late\"}\n2 add-task j {\"id\":\"v\",\"commandLine\":\"w\"}\n\
    3 end 1 0\n";

const CLOSED_OUTPUT: &str = "1 201\n1 U15 p 1 1\n1 U11 p steady\n2 201\n3 200 201 201\n\
    3 U16 j t 1 1\n4 201\n5 201\n6 200\n7 202\n8 409 JobStateRefuses terminating\n9 200\n\
    9 U5 j t failure\n9 U10 j completed\n9 U16 k t 1 2\n";

const TERMINATED_TABLES: &str = "tables 3\npool p active steady 1 0 1 spread\nnode 1 p 1 running\n\
    job j p completed 0 late\njob k p active 0 -\ntask j t completed failure terminated 0\n\
    task j u active - - 0\ntask k t running - - 0\nrun 1 task 1 j t ended 0\n\
    run 2 task 1 k t queued -\n";

const DELETED_TABLES: &str =
    "10 202\n10 U10 j removed\ntables 4\npool p active steady 1 0 1 spread\n\
    node 1 p 1 running\njob k p active 0 -\ntask k t running - - 0\nrun 2 task 1 k t queued -\n";

/// A job whose placed tasks are stopped as the option of `disable-job` says: one was taken, the other not.
const STOPPED: &str = "0 add-pool {\"id\":\"p\",\"targetDedicatedNodes\":2}\n\
    0 add-job {\"id\":\"j\",\"poolInfo\":{\"poolId\":\"p\"}}\n\
    0 add-tasks j {\"value\":[{\"id\":\"a\",\"commandLine\":\"w\"},{\"id\":\"b\",\"commandLine\":\"w\"}]}\n1 take 1\n";

const STOPPED_OUTPUT: &str = "1 201\n1 U15 p 1 1\n1 U15 p 2 2\n1 U11 p steady\n2 201\n\
    3 200 201 201\n3 U16 j a 1 1\n3 U16 j b 2 2\n4 200\n";

const REQUEUED_OUTPUT: &str = "5 202\n5 U5 j b active 0\n6 409 RunWithdrawn\n7 200\n\
    7 U5 j a active 0\n7 U8 j\ntables 4\npool p active steady 2 0 1 spread\nnode 1 p 1 idle\n\
    node 2 p 2 idle\njob j p disabled 0 -\ntask j a active - - 0\ntask j b active - - 0\n\
    run 1 task 1 j a ended none\nrun 2 task 2 j b withdrawn -\n";

const TERMINATED_OUTPUT: &str = "5 202\n5 U5 j b failure\n6 409 RunWithdrawn\n7 200\n\
    7 U5 j a failure\n7 U8 j\ntables 4\npool p active steady 2 0 1 spread\nnode 1 p 1 idle\n\
    node 2 p 2 idle\njob j p disabled 0 -\ntask j a completed failure terminated 0\n\
    task j b completed failure terminated 0\nrun 1 task 1 j a ended none\n\
    run 2 task 2 j b withdrawn -\n";

/// A task and a job whose wall times come to their ends, and a job that ends with its tasks, of which it has none.
const TIMED: &str = "0 add-pool {\"id\":\"p\",\"targetDedicatedNodes\":1}\n\
    0 add-job {\"id\":\"j\",\"poolInfo\":{\"poolId\":\"p\"}}\n\
    0 add-task j {\"id\":\"t\",\"commandLine\":\"w\",\"constraints\":{\"maxWallClockTime\":\"PT1M\"}}\n\
    1000 take 1\n60999 tick\n61000 tick\n62000 end 1 0\n\
    62000 add-job {\"id\":\"k\",\"constraints\":{\"maxWallClockTime\":\"PT1S\"},\"poolInfo\":{\"poolId\":\"p\"}}\n\
    62500 add-task k {\"id\":\"u\",\"commandLine\":\"w\"}\n62999 tick\n63000 tick\n\
    63000 add-job {\"id\":\"m\",\"onAllTasksComplete\":\"TerminateJob\",\"poolInfo\":{\"poolId\":\"p\"}}\n";

const TIMED_OUTPUT: &str = "1 201\n1 U15 p 1 1\n1 U11 p steady\n2 201\n3 201\n3 U16 j t 1 1\n\
    4 200\n5 200\n6 200\n6 U2 j t\n7 200\n7 U5 j t failure\n8 201\n9 201\n9 U16 k u 1 2\n\
    10 200\n11 200\n11 U4 k\n11 U5 k u failure\n11 U10 k completed\n12 201\n12 U7 m\n\
    12 U10 m completed\n";

const TIMED_TABLES: &str = "tables 63000\npool p active steady 1 0 1 spread\nnode 1 p 1 idle\n\
    job j p active 0 -\njob k p completed 0 MaxWallClockTimeExpiry\n\
    job m p completed 0 AllTasksComplete\ntask j t completed failure wall 0\n\
    task k u completed failure terminated 0\nrun 1 task 1 j t ended 0\nrun 2 task 1 k u withdrawn -\n";

/// A preparation that fails on one node and succeeds on the other, which is released when the job is terminated.
const RELEASED: &str = "0 add-pool {\"id\":\"p\",\"targetDedicatedNodes\":2}\n\
    0 add-job {\"id\":\"j\",\"jobPreparationTask\":{\"commandLine\":\"prep\"},\
    \"jobReleaseTask\":{\"commandLine\":\"clean\"},\"poolInfo\":{\"poolId\":\"p\"}}\n\
    0 add-task j {\"id\":\"t\",\"commandLine\":\"w\"}\n0 take 2\n0 take 1\n1 end 1 1\n2 take 3\n2 end 3 0\n\
    2 take 4\n3 end 4 0\n4 terminate-job j\n4 take 5\n5 end 5 1\n";

const RELEASED_OUTPUT: &str = "1 201\n1 U15 p 1 1\n1 U15 p 2 2\n1 U11 p steady\n2 201\n3 201\n\
    3 U16 j t 1 2\n4 409 RunWaiting\n5 200\n6 200\n6 U5 j t active 0\n6 U16 j t 2 4\n7 200\n8 200\n\
    9 200\n10 200\n10 U5 j t success\n11 202\n11 U9 j 2 5\n12 200\n13 200\n13 U10 j completed\n\
    tables 5\npool p active steady 2 0 1 spread\nnode 1 p 1 idle\nnode 2 p 2 idle\n\
    job j p completed 0 UserTerminate\ntask j t completed success 0 0\nrun 1 prep 1 j - ended 1\n\
    run 2 task 1 j t withdrawn -\nrun 3 prep 2 j - ended 0\nrun 4 task 2 j t ended 0\n\
    run 5 release 2 j - ended 1\nprep j 1 failed no\nprep j 2 completed done\n";

/// A preparation that is not waited for, and is withdrawn when the job is terminated.
const WITHDRAWN: &str = "0 add-pool {\"id\":\"p\",\"targetDedicatedNodes\":1}\n\
    0 add-job {\"id\":\"j\",\"jobPreparationTask\":{\"commandLine\":\"prep\",\"waitForSuccess\":false},\
    \"poolInfo\":{\"poolId\":\"p\"}}\n0 add-task j {\"id\":\"t\",\"commandLine\":\"w\"}\n1 take 2\n\
    2 terminate-job j\n3 take 1\n4 end 2 0\n";

const WITHDRAWN_OUTPUT: &str = "1 201\n1 U15 p 1 1\n1 U11 p steady\n2 201\n3 201\n3 U16 j t 1 2\n\
    4 200\n5 202\n6 409 RunWithdrawn\n7 200\n7 U5 j t failure\n7 U10 j completed\n\
    tables 4\npool p active steady 1 0 1 spread\n\
    node 1 p 1 idle\njob j p completed 0 UserTerminate\ntask j t completed failure terminated 0\n\
    run 1 prep 1 j - withdrawn -\nrun 2 task 1 j t ended 0\nprep j 1 failed no\n";

/// A preparation that runs when the job is terminated: it has failed, whatever its code, and its node is not released.
const HALTED: &str = "0 add-pool {\"id\":\"p\",\"targetDedicatedNodes\":1}\n\
    0 add-job {\"id\":\"j\",\"jobPreparationTask\":{\"commandLine\":\"prep\"},\
    \"jobReleaseTask\":{\"commandLine\":\"clean\"},\"poolInfo\":{\"poolId\":\"p\"}}\n\
    0 add-task j {\"id\":\"t\",\"commandLine\":\"w\"}\n1 take 1\n2 terminate-job j\n3 end 1 0\n";

const HALTED_OUTPUT: &str = "1 201\n1 U15 p 1 1\n1 U11 p steady\n2 201\n3 201\n3 U16 j t 1 2\n\
    4 200\n5 202\n5 U5 j t failure\n6 200\n6 U10 j completed\ntables 3\n\
    pool p active steady 1 0 1 spread\nnode 1 p 1 idle\njob j p completed 0 UserTerminate\n\
    task j t completed failure terminated 0\nrun 1 prep 1 j - ended 0\nrun 2 task 1 j t withdrawn -\n\
    prep j 1 failed no\n";

/// The two texts, one after the other.
fn joined(alloc: Global, first: &str, rest: &str) -> Result<String, AllocError> {
    let mut text = String::from_str(alloc, first)?;
    text.push_str(rest)?;
    Ok(text)
}

/// Whether the script of these two parts is done with this output of two parts.
pub fn is_done(
    alloc: Global,
    script: (&str, &str),
    output: (&str, &str),
) -> Result<bool, AllocError> {
    let script = joined(alloc, script.0, script.1)?;
    let wanted = joined(alloc, output.0, output.1)?;
    gives(
        alloc,
        sure(&["replay"], script.as_bytes()),
        Status::Done,
        wanted.as_str(),
    )
}

#[test]
fn nodes_and_jobs_have_states(rt: HostRuntime) -> Result<(), Fail> {
    let requeue = "2 disable-job j {\"disableTasks\":\"Requeue\"}\n3 take 2\n4 end 1 none\n";
    let terminate = "2 disable-job j {\"disableTasks\":\"TERMINATE\"}\n3 take 2\n4 end 1 none\n";
    let rows = [
        (SPREAD, FOUR_TASKS, SPREAD_OUTPUT, ""),
        (PACK, FOUR_TASKS, PACK_OUTPUT, ""),
        (START_TASK, "4 end 2 0\n", STARTED_OUTPUT, ""),
        (START_TASK, "4 end 2 1\n", FAILED_OUTPUT, ""),
        (UNAWAITED, STARTED, UNAWAITED_OUTPUT, ""),
        (WAITING, "", WAITING_OUTPUT, ""),
        (DISABLED, "", DISABLED_OUTPUT, ""),
        (PATCHED, "", PATCHED_OUTPUT, ""),
        (CLOSED, "", CLOSED_OUTPUT, TERMINATED_TABLES),
        (CLOSED, "4 delete-job J\n", CLOSED_OUTPUT, DELETED_TABLES),
        (STOPPED, requeue, STOPPED_OUTPUT, REQUEUED_OUTPUT),
        (STOPPED, terminate, STOPPED_OUTPUT, TERMINATED_OUTPUT),
        (TIMED, "", TIMED_OUTPUT, TIMED_TABLES),
        (RELEASED, "", RELEASED_OUTPUT, ""),
        (WITHDRAWN, "", WITHDRAWN_OUTPUT, ""),
        (HALTED, "", HALTED_OUTPUT, ""),
    ];
    for (first, rest, output, tables) in rows {
        assert!(rt;
            is_done(rt.alloc(), (first, rest), (output, tables))?,
            "{first}{rest}"
        );
    }
    Ok(())
}
