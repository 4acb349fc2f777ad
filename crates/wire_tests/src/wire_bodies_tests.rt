//! Bodies of requests: what they are read as, and the member that is refused. Written by hand from the profile.
use bt_base::Id;
use bt_rows::event::{Event, EventKind};
use bt_rows::member::Member;
use bt_rows::pool::Dealloc;
use bt_rows::refusal::Refusal;
use std::alloc::Global;
use std::test::Fail;
use wire_operations::{
    Asked, JobOperation, Operation, PoolOperation, ServiceOperation, read_operation,
};

const ADD_POOL: Operation = Operation::Service(ServiceOperation::AddPool);

const RESIZE: Operation = Operation::Pool(PoolOperation::Resize);

const ADD_TASK: Operation = Operation::Job(JobOperation::AddTask);

/// The operation, of a pool or a job with some id; None if it is one of tasks.
fn asked(alloc: Global, operation: Operation) -> Option<Asked> {
    let id = Id::read(alloc, "x").ok()?;
    match operation {
        Operation::Service(operation) => Some(Asked::Service(operation)),
        Operation::Pool(operation) => Some(Asked::Pool(operation, id)),
        Operation::Job(operation) => Some(Asked::Job(operation, id)),
        Operation::Task(_) => None,
    }
}

/// The event of the operation with this body, if it is one.
fn event(alloc: Global, operation: Operation, body: &[u8]) -> Option<Event> {
    read_operation(alloc, asked(alloc, operation)?, Some(body)).ok()
}

/// The member for which the body is refused, if it is refused for one.
fn refused(alloc: Global, operation: Operation, body: &[u8]) -> Option<Member> {
    match read_operation(alloc, asked(alloc, operation)?, Some(body)) {
        Err(bt_base::Fail::Why(Refusal::InvalidPropertyValue(member))) => Some(member),
        _ => None,
    }
}

/// Targets, timeout and option of a resize.
type Resize = (Option<u32>, Option<u32>, u64, Dealloc);

/// Bodies of resizes, and what they are.
const RESIZES: &[(&[u8], Resize)] = &[
    (
        b"{\"targetDedicatedNodes\":0,\"nodeDeallocationOption\":\"taskcompletion\"}",
        (Some(0), None, 900_000, Dealloc::TaskCompletion),
    ),
    (
        b"{\"targetLowPriorityNodes\":0,\"resizeTimeout\":null}",
        (None, Some(0), 900_000, Dealloc::Requeue),
    ),
    (
        b"{\"nodeDeallocationOption\":\"RetainedData\",\"resizeTimeout\":\"PT5M\",\
        \"targetDedicatedNodes\":1000,\"targetLowPriorityNodes\":0}",
        (Some(1_000), Some(0), 300_000, Dealloc::RetainedData),
    ),
    (
        b"{\"targetDedicatedNodes\":2,\"targetLowPriorityNodes\":null,\"resizeTimeout\":\"P10D\",\
        \"nodeDeallocationOption\":\"TERMINATE\"}",
        (Some(2), None, 864_000_000, Dealloc::Terminate),
    ),
    (
        b"{\"targetDedicatedNodes\":1,\"resizeTimeout\":\"P10DT0.0009S\",\
        \"nodeDeallocationOption\":\"requeue\"}",
        (Some(1), None, 864_000_000, Dealloc::Requeue),
    ),
];

/// The targets, the timeout and the option of an event, if it is a resize.
fn resize_in(event: &Event) -> Option<Resize> {
    match event.kind() {
        EventKind::Resize(_, spec) => {
            let spec = spec.get();
            Some((spec.dedicated, spec.low, spec.timeout, spec.option))
        }
        _ => None,
    }
}

#[test]
fn resizes_are_read(rt: HostRuntime) -> Result<(), Fail> {
    for (body, wanted) in RESIZES {
        let event = event(rt.alloc(), RESIZE, body);
        let found = event.as_ref().and_then(|event| resize_in(event));
        assert!(rt; found == Some(*wanted), "{body:?}");
    }
    Ok(())
}

/// Bodies of pools, and the timeouts of their resizes.
const TIMEOUTS: &[(&[u8], u64)] = &[
    (b"{\"id\":\"p\"}", 900_000),
    (
        b"{\"id\":\"p\",\"targetLowPriorityNodes\":0,\"resizeTimeout\":\"PT15M\"}",
        900_000,
    ),
    (b"{\"id\":\"p\",\"resizeTimeout\":\"PT300S\"}", 300_000),
    (b"{\"id\":\"p\",\"resizeTimeout\":\"P1W3D\"}", 864_000_000),
];

/// The timeout in an event and the number of low-priority nodes, if it adds a pool.
fn timeout_in(event: &Event) -> Option<(u64, u32)> {
    match event.kind() {
        EventKind::AddPool(spec) => Some((spec.get().timeout, spec.get().low)),
        _ => None,
    }
}

#[test]
fn pools_state_the_timeout_of_their_resizes(rt: HostRuntime) -> Result<(), Fail> {
    for (body, timeout) in TIMEOUTS {
        let event = event(rt.alloc(), ADD_POOL, body);
        let found = event.as_ref().and_then(|event| timeout_in(event));
        assert!(rt; found == Some((*timeout, 0)), "{body:?}");
    }
    Ok(())
}

/// Constraints of tasks, and how long the files of the task are kept.
const RETENTIONS: &[(&[u8], Option<u64>)] = &[
    (b"{\"id\":\"t\",\"commandLine\":\"w\"}", Some(604_800_000)),
    (
        b"{\"id\":\"t\",\"commandLine\":\"w\",\"constraints\":{\"maxTaskRetryCount\":1}}",
        Some(604_800_000),
    ),
    (
        b"{\"id\":\"t\",\"commandLine\":\"w\",\"constraints\":{\"retentionTime\":\"PT10S\"}}",
        Some(10_000),
    ),
    (
        b"{\"id\":\"t\",\"commandLine\":\"w\",\"constraints\":{\"retentionTime\":\"PT0S\"}}",
        Some(0),
    ),
    (
        b"{\"id\":\"t\",\"commandLine\":\"w\",\"constraints\":{\"retentionTime\":\"P36500D\"}}",
        Some(3_153_600_000_000),
    ),
    (
        b"{\"id\":\"t\",\"commandLine\":\"w\",\
        \"constraints\":{\"retentionTime\":\"P10675199DT2H48M5.4775807S\"}}",
        None,
    ),
];

/// How long the files of the task are kept, if the event adds one.
fn retention_in(event: &Event) -> Option<Option<u64>> {
    match event.kind() {
        EventKind::AddTask(_, spec) => Some(spec.get().settings.retention()),
        _ => None,
    }
}

#[test]
fn tasks_state_how_long_their_files_are_kept(rt: HostRuntime) -> Result<(), Fail> {
    for (body, retention) in RETENTIONS {
        let event = event(rt.alloc(), ADD_TASK, body);
        let found = event.as_ref().and_then(|event| retention_in(event));
        assert!(rt; found == Some(*retention), "{body:?}");
    }
    Ok(())
}

/// Bodies, and the member for which they are refused.
const REFUSED: &[(Operation, &[u8], Member)] = &[
    (RESIZE, b"{}", Member::TargetDedicatedNodes),
    (
        RESIZE,
        b"{\"targetLowPriorityNodes\":null,\"resizeTimeout\":\"PT1M\"}",
        Member::TargetDedicatedNodes,
    ),
    (
        RESIZE,
        b"{\"targetDedicatedNodes\":1001,\"targetLowPriorityNodes\":1}",
        Member::TargetDedicatedNodes,
    ),
    (
        RESIZE,
        b"{\"targetDedicatedNodes\":1.0,\"targetLowPriorityNodes\":0}",
        Member::TargetDedicatedNodes,
    ),
    (
        RESIZE,
        b"{\"targetLowPriorityNodes\":1,\"resizeTimeout\":\"PT1M\"}",
        Member::TargetLowPriorityNodes,
    ),
    (
        RESIZE,
        b"{\"targetDedicatedNodes\":1,\"resizeTimeout\":\"PT4M59.9999S\",\"nodeDeallocationOption\":0}",
        Member::ResizeTimeout,
    ),
    (
        RESIZE,
        b"{\"targetDedicatedNodes\":1,\"resizeTimeout\":\"P10DT0.001S\"}",
        Member::ResizeTimeout,
    ),
    (
        RESIZE,
        b"{\"targetDedicatedNodes\":1,\"resizeTimeout\":\"P10675199DT2H48M5.4775807S\"}",
        Member::ResizeTimeout,
    ),
    (
        RESIZE,
        b"{\"targetDedicatedNodes\":1,\"resizeTimeout\":900000}",
        Member::ResizeTimeout,
    ),
    (
        RESIZE,
        b"{\"targetDedicatedNodes\":1,\"nodeDeallocationOption\":\"wait\"}",
        Member::NodeDeallocationOption,
    ),
    (
        ADD_POOL,
        b"{\"id\":\"p\",\"targetLowPriorityNodes\":1,\"taskSlotsPerNode\":0}",
        Member::TargetLowPriorityNodes,
    ),
    (
        ADD_POOL,
        b"{\"id\":\"p\",\"resizeTimeout\":\"PT4M59.999S\",\"startTask\":{}}",
        Member::ResizeTimeout,
    ),
    (
        ADD_POOL,
        b"{\"id\":\"p\",\"resizeTimeout\":\"P11D\",\"taskSlotsPerNode\":9}",
        Member::TaskSlotsPerNode,
    ),
    (
        ADD_TASK,
        b"{\"id\":\"t\",\"commandLine\":\"w\",\"constraints\":{\"retentionTime\":\"P36500DT0.001S\"}}",
        Member::RetentionTime,
    ),
    (
        ADD_TASK,
        b"{\"id\":\"t\",\"commandLine\":\"w\",\"constraints\":{\"retentionTime\":7},\"dependsOn\":0}",
        Member::RetentionTime,
    ),
    (
        ADD_TASK,
        b"{\"id\":\"t\",\"commandLine\":\"w\",\
        \"constraints\":{\"retentionTime\":7,\"maxWallClockTime\":\"\"}}",
        Member::MaxWallClockTime,
    ),
];

#[test]
fn bodies_are_refused_for_their_first_fault(rt: HostRuntime) -> Result<(), Fail> {
    for (operation, body, member) in REFUSED {
        let found = refused(rt.alloc(), *operation, body);
        assert!(rt; found == Some(*member), "{body:?}");
    }
    Ok(())
}
