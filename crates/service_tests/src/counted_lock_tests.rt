//! A test of the lock in one thread, and of its line: who waits has the turn in order.
ghost use Rattle.std.specs.Prelude.{◌≡◌};
ghost use Rattle.counted_lock.specs.Passes.{IsPassOf};

use counted_lock::{CountedLock, Journaled, Pass, PassesOut, WaitQueue};
use std::sync::Wait;
use std::test::Fail;

/// The journal of calls that each add a number.
#[derive(Drop)]
struct Numbers {
    added: Vec<u64>,
}

impl Journaled<u64, u64> for Numbers {
    ghost entries = { λ n. n.added.items };

    ghost origin = { λ _. 0 };

    fn entry_count(&self) -> u64 {
        self.added.len() as u64
    }
}

/// Adds a number in a turn.
fn add<R: Wait>(
    rt: &R,
    lock: &CountedLock<Numbers, u64, u64>,
    pass: Pass<u64, u64>,
    number: u64,
) -> Pass<u64, u64>
    requires { IsPassOf lock.now pass }
    ensures { IsPassOf lock.now result }
{
    let (held, mut numbers) = lock.begin(rt, pass);
    match numbers.added.push(number) {
        Ok(()) => lock.enter(held, numbers),
        Err(_) => lock.leave(held, numbers),
    }
}

/// The last number that was added, read in a turn.
fn last<R: Wait>(
    rt: &R,
    lock: &CountedLock<Numbers, u64, u64>,
    pass: Pass<u64, u64>,
) -> (Pass<u64, u64>, Option<u64>)
    requires { IsPassOf lock.now pass }
    ensures { IsPassOf lock.now result.0 }
{
    let (held, numbers) = lock.begin(rt, pass);
    let last = numbers.added.last().copied();
    (lock.leave(held, numbers), last)
}

#[test]
fn passes_take_turns_and_close(rt: HostRuntime) -> Result<(), Fail> {
    let numbers = Numbers {
        added: Vec::new(rt.alloc()),
    };
    let Ok((lock, first)) = CountedLock::open(rt.alloc(), numbers) else {
        panic!(rt; "out of memory")
    };
    let (first, Some(second)) = lock.split(&rt, first) else {
        panic!(rt; "no second pass")
    };
    let (second, Some(third)) = lock.split(&rt, second) else {
        panic!(rt; "no third pass")
    };
    let first = add(&rt, &lock, first, 7);
    let (second, seen) = last(&rt, &lock, second);
    assert_eq!(rt; seen, Some(7));
    let second = add(&rt, &lock, second, 8);
    let (first, second) = lock.meet(first, second);
    let mut passes = Vec::new(rt.alloc());
    passes.push(first)?;
    passes.push(second)?;
    let Err(out) = lock.close(passes) else {
        panic!(rt; "closed with two of three passes")
    };
    assert!(rt; out.given == 2 && out.made == 3);
    let PassesOut {
        lock,
        mut passes,
        ..
    } = out;
    assert!(rt; passes[0].number() == 0 && passes[1].number() == 1);
    let third = add(&rt, &lock, third, 9);
    passes.push(third)?;
    let Ok(numbers) = lock.close(passes) else {
        panic!(rt; "not closed with all passes")
    };
    assert!(rt; numbers.added.as_slice() == [7, 8, 9].as_slice());
    Ok(())
}

#[test]
fn those_who_wait_are_in_order(rt: HostRuntime) -> Result<(), Fail> {
    let Some(queue) = WaitQueue::new(rt.alloc()) else {
        panic!(rt; "out of memory")
    };
    let tickets = [queue.join(), queue.join(), queue.join()];
    let at_first = [queue.is_first(0), queue.is_first(1), queue.is_first(2)];
    // a call that comes before the sleep ends it
    let woken = queue.prepare_to_sleep(0);
    queue.wake_first();
    queue.sleep(&rt, 0, woken);
    queue.reserve();
    let is_reserved = !queue.is_open();
    queue.advance(0);
    let at_second = [queue.is_first(0), queue.is_first(1), queue.is_first(2)];
    // the second one is woken, and not the third
    let woken = queue.prepare_to_sleep(1);
    let others = queue.prepare_to_sleep(2);
    queue.wake_first();
    queue.sleep(&rt, 1, woken);
    let is_left = queue.prepare_to_sleep(2) == others;
    queue.advance(1);
    queue.advance(2);
    assert!(rt; tickets == [0, 1, 2]);
    assert!(rt; at_first == [true, false, false] && at_second == [false, true, false]);
    assert!(rt; is_reserved && is_left && queue.is_open());
    Ok(())
}
