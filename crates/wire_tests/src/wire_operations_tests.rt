//! Operations and their names, written by hand from the profile.
use std::test::Fail;
use wire_operations::{JobOperation, Operation, PoolOperation, ServiceOperation, TaskOperation};

/// The operations of the profile, with their names.
const NAMES: &[(Operation, &str)] = &[
    (Operation::Service(ServiceOperation::AddPool), "add-pool"),
    (Operation::Service(ServiceOperation::AddJob), "add-job"),
    (Operation::Pool(PoolOperation::Delete), "delete-pool"),
    (Operation::Pool(PoolOperation::Resize), "resize"),
    (Operation::Pool(PoolOperation::StopResize), "stop-resize"),
    (Operation::Job(JobOperation::Patch), "patch-job"),
    (Operation::Job(JobOperation::Disable), "disable-job"),
    (Operation::Job(JobOperation::Enable), "enable-job"),
    (Operation::Job(JobOperation::Terminate), "terminate-job"),
    (Operation::Job(JobOperation::Delete), "delete-job"),
    (Operation::Job(JobOperation::AddTask), "add-task"),
    (Operation::Job(JobOperation::AddTasks), "add-tasks"),
    (Operation::Task(TaskOperation::Delete), "delete-task"),
    (Operation::Task(TaskOperation::Terminate), "terminate-task"),
    (
        Operation::Task(TaskOperation::Reactivate),
        "reactivate-task",
    ),
    (
        Operation::Pool(PoolOperation::EnableAutoscale),
        "enable-autoscale",
    ),
    (
        Operation::Pool(PoolOperation::DisableAutoscale),
        "disable-autoscale",
    ),
    (
        Operation::Pool(PoolOperation::EvaluateAutoscale),
        "evaluate-autoscale",
    ),
];

#[test]
fn operations_have_the_names_of_the_profile(rt: HostRuntime) -> Result<(), Fail> {
    for (operation, name) in NAMES {
        assert_eq!(rt; operation.name(), *name);
    }
    Ok(())
}

#[test]
fn operations_are_found_by_their_names(rt: HostRuntime) -> Result<(), Fail> {
    let add_tasks = Operation::Job(JobOperation::AddTasks);
    assert!(rt; Operation::read(b"add-tasks") == Some(add_tasks));
    let stop_resize = Operation::Pool(PoolOperation::StopResize);
    assert!(rt; Operation::read(b"stop-resize") == Some(stop_resize));
    assert!(rt; Operation::read(b"add-tasks ").is_none());
    let evaluate = Operation::Pool(PoolOperation::EvaluateAutoscale);
    assert!(rt; Operation::read(b"evaluate-autoscale") == Some(evaluate));
    assert!(rt; Operation::read(b"take").is_none());
    assert!(rt; Operation::read(b"sample").is_none());
    Ok(())
}
