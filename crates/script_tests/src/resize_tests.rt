//! What scripts write that resize, stop and delete pools, and whose nodes leave. Expected texts are written by hand.

use crate::script_tests::is_done;
use std::test::Fail;

/// Two nodes, of which the first runs a task, and a resize to none, by an option.
const SHRUNK: &str = "0 add-pool {\"id\":\"p\",\"targetDedicatedNodes\":2}\n\
    0 add-job {\"id\":\"j\",\"poolInfo\":{\"poolId\":\"p\"}}\n\
    0 add-task j {\"id\":\"t\",\"commandLine\":\"w\",\"constraints\":{\"retentionTime\":\"PT10S\"}}\n\
    1 take 1\n10 resize p {\"targetDedicatedNodes\":0,\"nodeDeallocationOption\":";

const SHRUNK_OUTPUT: &str = "1 201\n1 U15 p 1 1\n1 U15 p 2 2\n1 U11 p steady\n2 201\n3 201\n\
    3 U16 j t 1 1\n4 200\n5 202\n5 U13 2\n5 U13 1\n5 U14 2\n6 200\n";

const REQUEUED_OUTPUT: &str = "6 U5 j t active 0\n6 U14 1\n6 U11 p steady\ntables 20\n\
    pool p active steady 0 0 1 spread\njob j p active 0 -\ntask j t active - - 0\n\
    run 1 task 1 j t ended 0\n";

const TERMINATED_OUTPUT: &str = "6 U5 j t failure\n6 U14 1\n6 U11 p steady\ntables 20\n\
    pool p active steady 0 0 1 spread\njob j p active 0 -\ntask j t completed failure terminated 0\n\
    run 1 task 1 j t ended 0\n";

const COMPLETED_OUTPUT: &str = "6 U5 j t success\n6 U14 1\n6 U11 p steady\ntables 20\n\
    pool p active steady 0 0 1 spread\njob j p active 0 -\ntask j t completed success 0 0\n\
    run 1 task 1 j t ended 0\n";

const RETAINED_OUTPUT: &str =
    "6 U5 j t success\n7 200\n8 200\n8 U14 1\n8 U11 p steady\ntables 10020\n\
    pool p active steady 0 0 1 spread\njob j p active 0 -\ntask j t completed success 0 0\n\
    run 1 task 1 j t ended 0\n";

const NOT_RETAINED_OUTPUT: &str = "6 U5 j t success\n7 200\n7 U14 1\n7 U11 p steady\ntables 30\n\
    pool p active steady 0 0 1 spread\njob j p active 0 -\n";

/// Three nodes that hold two slots, one and one, of which one is to stay.
const CHOSEN: &str = "0 add-pool {\"id\":\"p\",\"targetDedicatedNodes\":3,\"taskSlotsPerNode\":2}\n\
    0 add-job {\"id\":\"j\",\"poolInfo\":{\"poolId\":\"p\"}}\n\
    0 add-tasks j {\"value\":[{\"id\":\"a\",\"commandLine\":\"w\",\"requiredSlots\":2},\
    {\"id\":\"b\",\"commandLine\":\"w\"},{\"id\":\"c\",\"commandLine\":\"w\"}]}\n\
    0 take 1\n0 take 2\n0 take 3\n\
    1 resize p {\"targetDedicatedNodes\":1,\"nodeDeallocationOption\":\"taskcompletion\"}\n\
    2 end 2 0\n2 end 3 0\n";

const CHOSEN_OUTPUT: &str = "1 201\n1 U15 p 1 1\n1 U15 p 2 2\n1 U15 p 3 3\n1 U11 p steady\n2 201\n\
    3 200 201 201 201\n3 U16 j a 1 1\n3 U16 j b 2 2\n3 U16 j c 3 3\n4 200\n5 200\n6 200\n\
    7 202\n7 U13 3\n7 U13 2\n8 200\n8 U5 j b success\n8 U14 2\n\
    9 200\n9 U5 j c success\n9 U14 3\n9 U11 p steady\ntables 2\n\
    pool p active steady 1 0 2 spread\nnode 1 p 1 running\njob j p active 0 -\n\
    task j a running - - 0\ntask j b completed success 0 0\ntask j c completed success 0 0\n\
    run 1 task 1 j a taken -\nrun 2 task 2 j b ended 0\nrun 3 task 3 j c ended 0\n";

/// Two nodes whose start tasks are waited for, of which the first one runs.
const STARTING: &str = "0 add-pool {\"id\":\"p\",\"targetDedicatedNodes\":2,\
    \"startTask\":{\"commandLine\":\"init\",\"maxTaskRetryCount\":1}}\n\
    0 add-job {\"id\":\"j\",\"poolInfo\":{\"poolId\":\"p\"}}\n\
    0 add-task j {\"id\":\"t\",\"commandLine\":\"w\"}\n1 take 1\n";

const STARTING_OUTPUT: &str = "1 201\n1 U15 p 1 1\n1 U15 p 2 2\n1 U11 p steady\n2 201\n3 201\n\
    4 200\n5 202\n5 U13 2\n5 U13 1\n5 U14 2\n";

const LEFT_STARTED_OUTPUT: &str =
    "6 200 {\"value\":[{\"id\":\"node-1\",\"seat\":1,\"state\":\"leavingpool\"}]}\n\
    7 409 RunWithdrawn\n8 200\n8 U14 1\n8 U11 p steady\ntables 3\n\
    pool p active steady 0 0 1 spread\njob j p active 0 -\ntask j t active - - 0\n\
    run 1 start 1 - - ended 0\nrun 2 start 2 - - withdrawn -\n";

const LEFT_FAILED_OUTPUT: &str = "6 200\n6 U14 1\n6 U11 p steady\ntables 3\n\
    pool p active steady 0 0 1 spread\njob j p active 0 -\ntask j t active - - 0\n\
    run 1 start 1 - - ended 1\nrun 2 start 2 - - withdrawn -\n";

const REMOVED_OUTPUT: &str = "6 200\n6 U14 1\n6 U11 p removed\ntables 3\njob j p active 0 -\n\
    task j t active - - 0\n";

/// A node on which a task waits for the preparation of its job.
const PREPARING: &str = "0 add-pool {\"id\":\"p\",\"targetDedicatedNodes\":1}\n\
    0 add-job {\"id\":\"j\",\"jobPreparationTask\":{\"commandLine\":\"prep\"},\"poolInfo\":{\"poolId\":\"p\"}}\n\
    0 add-task j {\"id\":\"t\",\"commandLine\":\"w\"}\n";

const PREPARING_OUTPUT: &str = "1 201\n1 U15 p 1 1\n1 U11 p steady\n2 201\n3 201\n3 U16 j t 1 2\n";

const HALTED_OUTPUT: &str =
    "4 200\n5 202\n5 U13 1\n5 U5 j t active 0\n6 200\n6 U14 1\n6 U11 p steady\n\
    tables 3\npool p active steady 0 0 1 spread\njob j p active 0 -\ntask j t active - - 0\n\
    run 1 prep 1 j - ended 0\nrun 2 task 1 j t withdrawn -\n";

const CUT_OFF_OUTPUT: &str =
    "4 202\n4 U13 1\n4 U5 j t failure\n4 U14 1\n4 U11 p steady\n5 409 RunWithdrawn\n\
    tables 3\npool p active steady 0 0 1 spread\njob j p active 0 -\n\
    task j t completed failure terminated 0\nrun 1 prep 1 j - withdrawn -\n\
    run 2 task 1 j t withdrawn -\n";

const PREPARED_OUTPUT: &str =
    "4 200\n5 202\n5 U13 1\n6 200\n7 200\n8 200\n8 U5 j t success\n8 U14 1\n\
    8 U11 p steady\ntables 4\npool p active steady 0 0 1 spread\njob j p active 0 -\n\
    task j t completed success 0 0\nrun 1 prep 1 j - ended 0\nrun 2 task 1 j t ended 0\n";

#[test]
fn nodes_leave_by_each_option(rt: HostRuntime) -> Result<(), Fail> {
    let requeue = "\"requeue\"}\n20 end 1 0\n";
    let terminate = "\"Terminate\"}\n20 end 1 0\n";
    let complete = "\"taskcompletion\"}\n20 end 1 0\n";
    let retain = "\"retaineddata\"}\n20 end 1 0\n10019 tick\n10020 tick\n";
    let drop_task = "\"retaineddata\"}\n20 end 1 0\n30 delete-task j t\n";
    let start = "2 resize p {\"targetDedicatedNodes\":0}\n2 list-nodes p\n3 take 2\n3 end 1 0\n";
    let fail = "2 resize p {\"targetDedicatedNodes\":0,\
        \"nodeDeallocationOption\":\"taskcompletion\"}\n3 end 1 1\n";
    let remove = "2 delete-pool p\n3 end 1 0\n";
    let halt = "1 take 1\n2 resize p {\"targetDedicatedNodes\":0}\n3 end 1 0\n";
    let cut_off = "2 resize p {\"targetDedicatedNodes\":0,\
        \"nodeDeallocationOption\":\"terminate\"}\n3 take 1\n";
    let prepare = "1 take 1\n2 resize p {\"targetDedicatedNodes\":0,\
        \"nodeDeallocationOption\":\"taskcompletion\"}\n3 end 1 0\n3 take 2\n4 end 2 0\n";
    let rows = [
        (SHRUNK, requeue, SHRUNK_OUTPUT, REQUEUED_OUTPUT),
        (SHRUNK, terminate, SHRUNK_OUTPUT, TERMINATED_OUTPUT),
        (SHRUNK, complete, SHRUNK_OUTPUT, COMPLETED_OUTPUT),
        (SHRUNK, retain, SHRUNK_OUTPUT, RETAINED_OUTPUT),
        (SHRUNK, drop_task, SHRUNK_OUTPUT, NOT_RETAINED_OUTPUT),
        (CHOSEN, "", CHOSEN_OUTPUT, ""),
        (STARTING, start, STARTING_OUTPUT, LEFT_STARTED_OUTPUT),
        (STARTING, fail, STARTING_OUTPUT, LEFT_FAILED_OUTPUT),
        (STARTING, remove, STARTING_OUTPUT, REMOVED_OUTPUT),
        (PREPARING, halt, PREPARING_OUTPUT, HALTED_OUTPUT),
        (PREPARING, cut_off, PREPARING_OUTPUT, CUT_OFF_OUTPUT),
        (PREPARING, prepare, PREPARING_OUTPUT, PREPARED_OUTPUT),
    ];
    for (first, rest, output, tables) in rows {
        assert!(rt;
            is_done(rt.alloc(), (first, rest), (output, tables))?,
            "{first}{rest}"
        );
    }
    Ok(())
}

/// A pool that is deleted while a task runs, and added again.
const DELETED: &str = "0 add-pool {\"id\":\"p\",\"targetDedicatedNodes\":2}\n\
    0 add-job {\"id\":\"j\",\"poolInfo\":{\"poolId\":\"p\"}}\n\
    0 add-task j {\"id\":\"t\",\"commandLine\":\"w\"}\n1 take 1\n2 delete-pool p\n3 delete-pool p\n\
    4 end 1 0\n5 add-job {\"id\":\"k\",\"poolInfo\":{\"poolId\":\"p\"}}\n\
    6 add-pool {\"id\":\"P\",\"targetDedicatedNodes\":1}\n";

const DELETED_OUTPUT: &str = "1 201\n1 U15 p 1 1\n1 U15 p 2 2\n1 U11 p steady\n2 201\n3 201\n\
    3 U16 j t 1 1\n4 200\n5 202\n5 U13 2\n5 U13 1\n5 U14 2\n6 409 PoolBeingDeleted\n\
    7 200\n7 U5 j t active 0\n7 U14 1\n7 U11 p removed\n8 404 PoolNotFound\n\
    9 201\n9 U15 P 3 1\n9 U11 P steady\n9 U16 j t 3 2\ntables 6\n\
    pool P active steady 1 0 1 spread\nnode 3 P 1 running\njob j p active 0 -\n\
    task j t running - - 0\nrun 1 task 1 j t ended 0\nrun 2 task 3 j t queued -\n";

/// What is refused of a pool that is not there, or is steady, resizing or being deleted. Its node, which leaves by task completion,
/// leaves by requeue once the pool is being deleted.
const REFUSED: &str = "0 add-pool {\"id\":\"p\",\"targetDedicatedNodes\":1}\n\
    0 resize q {\"targetDedicatedNodes\":1}\n0 stop-resize q\n0 delete-pool q\n0 stop-resize p\n\
    0 add-job {\"id\":\"j\",\"poolInfo\":{\"poolId\":\"p\"}}\n\
    0 add-task j {\"id\":\"t\",\"commandLine\":\"w\"}\n1 take 1\n\
    2 resize p {\"targetDedicatedNodes\":0,\"nodeDeallocationOption\":\"taskcompletion\"}\n\
    2 resize p {\"targetDedicatedNodes\":1}\n3 delete-pool p\n\
    3 resize p {\"targetDedicatedNodes\":1}\n3 stop-resize p\n3 delete-pool P\n\
    3 add-job {\"id\":\"k\",\"poolInfo\":{\"poolId\":\"p\"}}\n4 end 1 0\n";

const REFUSED_OUTPUT: &str =
    "1 201\n1 U15 p 1 1\n1 U11 p steady\n2 404 PoolNotFound\n3 404 PoolNotFound\n\
    4 404 PoolNotFound\n5 409 PoolNotResizing\n6 201\n7 201\n7 U16 j t 1 1\n8 200\n\
    9 202\n9 U13 1\n10 409 PoolBeingResized\n11 202\n12 409 PoolBeingDeleted\n\
    13 409 PoolBeingDeleted\n14 409 PoolBeingDeleted\n15 409 PoolBeingDeleted\n\
    16 200\n16 U5 j t active 0\n16 U14 1\n16 U11 p removed\ntables 4\njob j p active 0 -\n\
    task j t active - - 0\nrun 1 task 1 j t ended 0\n";

/// A resize to more nodes, one that gives no target of dedicated nodes, and one that changes nothing.
const GROWN: &str = "0 add-pool {\"id\":\"p\",\"targetDedicatedNodes\":1}\n\
    5 resize p {\"targetDedicatedNodes\":3}\n6 resize p {\"targetLowPriorityNodes\":0}\n\
    7 resize p {\"targetDedicatedNodes\":3}\n";

const GROWN_OUTPUT: &str = "1 201\n1 U15 p 1 1\n1 U11 p steady\n2 202\n2 U15 p 2 2\n2 U15 p 3 3\n\
    2 U11 p steady\n3 202\n3 U11 p steady\n4 202\n4 U11 p steady\ntables 7\n\
    pool p active steady 3 0 1 spread\nnode 1 p 1 idle\nnode 2 p 2 idle\nnode 3 p 3 idle\n";

/// A pool that wants more nodes than there are seats.
const STUCK: &str = "0 add-pool {\"id\":\"p\",\"targetDedicatedNodes\":40}\n";

const STUCK_OUTPUT: &str =
    "1 201\n1 U15 p 1 1\n1 U15 p 2 2\n1 U15 p 3 3\n1 U15 p 4 4\n1 U15 p 5 5\n\
    1 U15 p 6 6\n1 U15 p 7 7\n1 U15 p 8 8\n";

const STOPPED_OUTPUT: &str =
    "2 409 PoolBeingResized\n3 202\n3 U11 p stopped\n4 409 PoolNotResizing\n\
    5 200 {\"allocationState\":\"steady\",\"currentDedicatedNodes\":8,\"currentLowPriorityNodes\":0,\
    \"enableAutoScale\":false,\"id\":\"p\",\"resizeErrors\":[\"ResizeStopped\"],\"state\":\"active\",\
    \"targetDedicatedNodes\":40,\"targetLowPriorityNodes\":0,\"taskSlotsPerNode\":1}\n\
    tables 0\npool p active steady 40 0 1 spread\nnode 1 p 1 idle\nnode 2 p 2 idle\n\
    node 3 p 3 idle\nnode 4 p 4 idle\nnode 5 p 5 idle\nnode 6 p 6 idle\nnode 7 p 7 idle\n\
    node 8 p 8 idle\n";

const OUT_OUTPUT: &str = "2 200\n3 200\n3 U11 p timeout\ntables 900000\n\
    pool p active steady 40 0 1 spread\nnode 1 p 1 idle\nnode 2 p 2 idle\nnode 3 p 3 idle\n\
    node 4 p 4 idle\nnode 5 p 5 idle\nnode 6 p 6 idle\nnode 7 p 7 idle\nnode 8 p 8 idle\n";

/// A resize whose timeout is over while its node is still leaving, and one to more nodes after it.
const LATE: &str = "0 add-pool {\"id\":\"p\",\"targetDedicatedNodes\":1}\n\
    0 add-job {\"id\":\"j\",\"poolInfo\":{\"poolId\":\"p\"}}\n\
    0 add-task j {\"id\":\"t\",\"commandLine\":\"w\"}\n1 take 1\n\
    10 resize p {\"targetDedicatedNodes\":0,\"nodeDeallocationOption\":\"taskcompletion\",\
    \"resizeTimeout\":\"PT5M\"}\n300009 tick\n300010 tick\n300010 get-pool p\n\
    300011 resize p {\"targetDedicatedNodes\":1}\n300011 get-pool p\n300012 end 1 0\n";

const LATE_OUTPUT: &str = "1 201\n1 U15 p 1 1\n1 U11 p steady\n2 201\n3 201\n3 U16 j t 1 1\n\
    4 200\n5 202\n5 U13 1\n6 200\n7 200\n7 U11 p timeout\n\
    8 200 {\"allocationState\":\"steady\",\"currentDedicatedNodes\":1,\"currentLowPriorityNodes\":0,\
    \"enableAutoScale\":false,\"id\":\"p\",\"resizeErrors\":[\"AllocationTimedOut\"],\"state\":\"active\",\
    \"targetDedicatedNodes\":0,\"targetLowPriorityNodes\":0,\"taskSlotsPerNode\":1}\n\
    9 202\n9 U15 p 2 2\n\
    10 200 {\"allocationState\":\"resizing\",\"currentDedicatedNodes\":2,\"currentLowPriorityNodes\":0,\
    \"enableAutoScale\":false,\"id\":\"p\",\"resizeErrors\":[],\"state\":\"active\",\
    \"targetDedicatedNodes\":1,\"targetLowPriorityNodes\":0,\"taskSlotsPerNode\":1}\n\
    11 200\n11 U5 j t success\n11 U14 1\n11 U11 p steady\ntables 300012\n\
    pool p active steady 1 0 1 spread\nnode 2 p 2 idle\njob j p active 0 -\n\
    task j t completed success 0 0\nrun 1 task 1 j t ended 0\n";

#[test]
fn pools_are_resized_and_deleted(rt: HostRuntime) -> Result<(), Fail> {
    let stop =
        "0 resize p {\"targetDedicatedNodes\":1}\n0 stop-resize p\n0 stop-resize p\n0 get-pool p\n";
    let rows = [
        (DELETED, "", DELETED_OUTPUT, ""),
        (REFUSED, "", REFUSED_OUTPUT, ""),
        (GROWN, "", GROWN_OUTPUT, ""),
        (STUCK, stop, STUCK_OUTPUT, STOPPED_OUTPUT),
        (
            STUCK,
            "899999 tick\n900000 tick\n",
            STUCK_OUTPUT,
            OUT_OUTPUT,
        ),
        (LATE, "", LATE_OUTPUT, ""),
    ];
    for (first, rest, output, tables) in rows {
        assert!(rt;
            is_done(rt.alloc(), (first, rest), (output, tables))?,
            "{first}{rest}"
        );
    }
    Ok(())
}
