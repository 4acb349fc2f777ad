//! A test of what no clause says: that spawners and stoppers in memory have memory while it is ample.
use bt_base::{Id, Word};
use bt_rows::run::{Ending, RunKind};
use byte_streams::Failed;
use child_runs::{ChildEnding, MemorySpawner, MemoryStopper, RunIdentity, Spawner, Stopper};
use std::test::Fail;

#[test]
fn children_run_and_stop(rt: HostRuntime) -> Result<(), Fail> {
    let mut endings = Vec::new(rt.alloc());
    endings.push((2, ChildEnding::Code(4)))?;
    let fails = [1].to_vec(rt.alloc())?;
    let mut spawner = MemorySpawner::new(rt.alloc(), endings, fails);
    let mut words = Vec::new(rt.alloc());
    words.push(Word::new(b"true".to_vec(rt.alloc())?))?;
    let run = RunIdentity {
        kind: RunKind::Start,
        pool: Id::read(rt.alloc(), "render")?,
        node: 1,
        job: None,
        task: None,
    };
    let first = spawner.run(rt.alloc(), &run, 1, words.as_slice());
    let second = spawner.run(rt.alloc(), &run, 2, words.as_slice());
    let third = spawner.run(rt.alloc(), &run, 3, words.as_slice());
    assert_eq!(rt; first.ending(), Some(Ending::NotStarted));
    assert_eq!(rt; second.ending(), Some(Ending::Code(4)));
    assert_eq!(rt; third.ending(), Some(Ending::Code(0)));
    assert_eq!(rt; spawner.runs().len(), 2);
    let mut stopper = MemoryStopper::new(rt.alloc(), [1].to_vec(rt.alloc())?);
    assert_eq!(rt; stopper.stop(2), Err(Failed));
    assert_eq!(rt; stopper.stop(2), Ok(()));
    let numbers = stopper.into_numbers().ok_or("memory was ample")?;
    assert_eq!(rt; numbers.as_slice(), [2].as_slice());
    Ok(())
}
