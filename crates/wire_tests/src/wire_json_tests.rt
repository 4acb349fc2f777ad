//! Texts that were written by hand from the rules.
use bt_base::{CommandLine, Id, List, Text};
use bt_rows::job::JobState;
use bt_rows::node::NodeStage;
use bt_rows::pool::{Alloc, ResizeError};
use bt_rows::refusal::{Refusal, Table};
use bt_rows::reply::{
    Element, Item, JobItem, NodeItem, PoolItem, Reply, TaskCounts, TaskItem, TaskState,
};
use bt_rows::run::Ending;
use bt_rows::task::How;
use std::alloc::Global;
use std::test::Fail;
use wire_json::reply_json;

fn pool(alloc: Global, error: Option<ResizeError>) -> Result<Reply, Fail> {
    let id = Id::read(alloc, "p3")?;
    Ok(Reply::One(Item::Pool(PoolItem {
        id,
        deleting: error.is_some(),
        alloc: Alloc::Steady,
        current_dedicated: 3,
        current_low: 0,
        dedicated: 6,
        low: 0,
        slots: 4,
        scales: false,
        error,
    })))
}

fn nodes(alloc: Global) -> Result<Reply, Fail> {
    let mut items = Vec::new(alloc);
    items.push(Item::Node(NodeItem {
        number: 7,
        seat: 32,
        stage: NodeStage::Starting,
        busy: true,
    }))?;
    items.push(Item::Node(NodeItem {
        number: 9,
        seat: 1,
        stage: NodeStage::Usable,
        busy: false,
    }))?;
    let last = Id::read(alloc, "node-9")?;
    Ok(Reply::Page(List::of_vec(items), Some(last)))
}

fn job(alloc: Global, reason: Option<Text>) -> Result<Reply, Fail> {
    let id = Id::read(alloc, "J")?;
    let pool = Id::read(alloc, "p")?;
    Ok(Reply::One(Item::Job(JobItem {
        id,
        pool,
        state: JobState::Terminating,
        priority: -1000,
        parallel: -1,
        reason,
    })))
}

fn task(
    alloc: Global,
    state: TaskState,
    how: Option<How>,
    success: Option<bool>,
) -> Result<Reply, Fail> {
    let id = Id::read(alloc, "t")?;
    let line = CommandLine::read(alloc, "sh \"a\tb\"")?.ok_or("no command line")?;
    Ok(Reply::One(Item::Task(TaskItem {
        id,
        line,
        state,
        how,
        success,
        failures: 2,
    })))
}

fn elements(alloc: Global) -> Result<Reply, Fail> {
    let mut elements = Vec::new(alloc);
    elements.push(Element::Added(Id::read(alloc, "a")?))?;
    let refusal = Refusal::TableFull(Table::Tasks, 1_000_000);
    elements.push(Element::NotAdded(Id::read(alloc, "b")?, refusal))?;
    Ok(Reply::Elements(List::of_vec(elements)))
}

#[test]
fn replies_are_written(rt: HostRuntime) -> Result<(), Fail> {
    let alloc = rt.alloc();
    assert_eq!(rt;
        reply_json(alloc, &pool(alloc, None)?)?.as_str(),
        "{\"allocationState\":\"steady\",\"currentDedicatedNodes\":3,\"currentLowPriorityNodes\":0,\"enableAutoScale\":false,\"id\":\"p3\",\"resizeErrors\":[],\"state\":\"active\",\"targetDedicatedNodes\":6,\"targetLowPriorityNodes\":0,\"taskSlotsPerNode\":4}"
    );
    assert_eq!(rt;
        reply_json(alloc, &pool(alloc, Some(ResizeError::AllocationTimedOut))?)?.as_str(),
        "{\"allocationState\":\"steady\",\"currentDedicatedNodes\":3,\"currentLowPriorityNodes\":0,\"enableAutoScale\":false,\"id\":\"p3\",\"resizeErrors\":[\"AllocationTimedOut\"],\"state\":\"deleting\",\"targetDedicatedNodes\":6,\"targetLowPriorityNodes\":0,\"taskSlotsPerNode\":4}"
    );
    assert_eq!(rt;
        reply_json(alloc, &nodes(alloc)?)?.as_str(),
        "{\"nextAfter\":\"node-9\",\"value\":[{\"id\":\"node-7\",\"seat\":32,\"state\":\"waitingforstarttask\"},{\"id\":\"node-9\",\"seat\":1,\"state\":\"idle\"}]}"
    );
    assert_eq!(rt;
        reply_json(alloc, &job(alloc, None)?)?.as_str(),
        "{\"id\":\"J\",\"maxParallelTasks\":-1,\"poolId\":\"p\",\"priority\":-1000,\"state\":\"terminating\"}"
    );
    let reason = Text::of_string(String::from_str(alloc, "enough é")?)?;
    assert_eq!(rt;
        reply_json(alloc, &job(alloc, Some(reason))?)?.as_str(),
        "{\"id\":\"J\",\"maxParallelTasks\":-1,\"poolId\":\"p\",\"priority\":-1000,\"state\":\"terminating\",\"terminateReason\":\"enough é\"}"
    );
    assert_eq!(rt;
        reply_json(alloc, &task(alloc, TaskState::Preparing, None, None)?)?.as_str(),
        "{\"commandLine\":\"sh \\\"a\\tb\\\"\",\"id\":\"t\",\"retryCount\":2,\"state\":\"preparing\"}"
    );
    let how = Some(How::Ended(Ending::Code(-3)));
    assert_eq!(rt;
        reply_json(alloc, &task(alloc, TaskState::Completed, how, Some(false))?)?.as_str(),
        "{\"commandLine\":\"sh \\\"a\\tb\\\"\",\"exit\":\"-3\",\"id\":\"t\",\"result\":\"failure\",\"retryCount\":2,\"state\":\"completed\"}"
    );
    Ok(())
}

#[test]
fn counts_and_answers_are_written(rt: HostRuntime) -> Result<(), Fail> {
    let alloc = rt.alloc();
    let counts = TaskCounts {
        active: 1,
        running: 2,
        completed: 7,
        succeeded: 4,
        failed: 3,
    };
    assert_eq!(rt;
        reply_json(alloc, &Reply::One(Item::Counts(counts)))?.as_str(),
        "{\"taskCounts\":{\"active\":1,\"completed\":7,\"failed\":3,\"running\":2,\"succeeded\":4}}"
    );
    assert_eq!(rt;
        reply_json(alloc, &Reply::Refused(Refusal::JobNotFound))?.as_str(),
        "{\"code\":\"JobNotFound\",\"number\":13,\"values\":[]}"
    );
    assert_eq!(rt;
        reply_json(alloc, &elements(alloc)?)?.as_str(),
        "{\"value\":[{\"status\":\"success\",\"taskId\":\"a\"},{\"error\":{\"code\":\"TableFull\",\"number\":30,\"values\":[\"tasks\",\"1000000\"]},\"status\":\"clienterror\",\"taskId\":\"b\"}]}"
    );
    let results = Text::of_string(String::from_str(alloc, "error EmptyVector 4")?)?;
    assert_eq!(rt;
        reply_json(alloc, &Reply::Results(results))?.as_str(),
        "{\"results\":\"error EmptyVector 4\"}"
    );
    assert_eq!(rt;
        reply_json(alloc, &Reply::Page(List::empty(alloc), None))?.as_str(),
        "{\"value\":[]}"
    );
    assert_eq!(rt; reply_json(alloc, &Reply::Status(204))?.as_str(), "");
    Ok(())
}
