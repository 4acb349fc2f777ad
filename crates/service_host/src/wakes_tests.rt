//! Tests of what wakes lanes: permits that come before a wait, waits in threads of which none misses its permit, and for which seats a call wakes a lane.
use crate::queues::QueueNotes;
use crate::semaphore::Semaphore;
use batch_desk::{Answer, Stop};
use bt_base::List;
use bt_rows::event::{Event, EventKind};
use bt_rows::reply::Reply;
use bt_rows::run::Ending;
use shared_desk::SeatQueues;
use std::alloc::Global;
use std::sync::Wait;
use std::test::Fail;
use std::thread;
use std::time::Clock as Time;

/// A wait that is longer than a test may take, in milliseconds.
const LONG_MS: u64 = 3_600_000;

/// How often a thread waits, or adds a permit.
const TIMES: u32 = 2_000;

#[test]
fn a_permit_before_the_wait_ends_it(rt: HostRuntime) -> Result<(), Fail> {
    let semaphore = Semaphore::new(2);
    let waited = [
        semaphore.add(&rt, 1),
        semaphore.add(&rt, 1),
        semaphore.add(&rt, 1),
    ];
    semaphore.wait(&rt, LONG_MS);
    semaphore.wait(&rt, LONG_MS);
    // the third permit was one too many, so this wait ends by itself
    semaphore.wait(&rt, 1);
    assert!(rt; waited == [false, false, false]);
    Ok(())
}

/// Waits `TIMES` times for a permit.
fn wait_often<R: Wait + Time>(rt: &R, semaphore: &Semaphore) {
    for _ in 0..TIMES {
        semaphore.wait(rt, LONG_MS);
    }
}

/// Adds `TIMES` permits, and wakes those who wait.
fn add_often<R: Wait>(rt: &R, semaphore: &Semaphore) {
    for _ in 0..TIMES {
        if semaphore.add(rt, 1) {
            semaphore.wake(rt);
        }
    }
}

#[test]
fn no_permit_is_missed(rt: HostRuntime) -> Result<(), Fail> {
    let semaphore = Semaphore::new(4 * TIMES);
    let ((), ()) = thread::join(
        &rt,
        || {
            let ((), ()) = thread::join(
                &rt,
                || wait_often(&rt, &semaphore),
                || wait_often(&rt, &semaphore),
            );
        },
        || {
            let ((), ()) = thread::join(
                &rt,
                || add_often(&rt, &semaphore),
                || add_often(&rt, &semaphore),
            );
        },
    );
    // threads that returned early for no reason have left permits
    assert!(rt; !semaphore.add(&rt, 1));
    Ok(())
}

/// The lowest queued runs at the seats 1 and 2.
#[derive(Clone, Copy)]
struct Queues(Option<u64>, Option<u64>);

impl SeatQueues for Queues {
    fn lowest_number_at(&self, seat: u8) -> Option<u64> {
        match seat {
            1 => self.0,
            2 => self.1,
            _ => None,
        }
    }
}

/// That a call was made, with a due step if it `places` a task.
fn done(alloc: Global, places: bool) -> Result<Answer, Fail> {
    let mut dues = Vec::new(alloc);
    if places {
        dues.push(bt_rows::due::Due::NodeLeaves(1))?;
    }
    Ok(Answer::Done {
        reply: Reply::Status(204),
        dues: List::of_vec(dues),
        stop: Stop::Rest,
    })
}

/// Which of the seats 1 and 2 are woken for by a call, after which these runs are the lowest queued ones.
fn woken(notes: &mut QueueNotes, event: &Event, answer: &Answer, queues: Queues) -> (bool, bool) {
    notes.begin(event);
    notes.answer(answer);
    let woken = (notes.is_woken(&queues, 1), notes.is_woken(&queues, 2));
    notes.finish();
    woken
}

#[test]
fn one_lane_is_woken_for_a_run(rt: HostRuntime) -> Result<(), Fail> {
    let alloc = rt.alloc();
    let mut notes = QueueNotes::new(alloc, 2)?;
    let placed = done(alloc, true)?;
    let made = done(alloc, false)?;
    let tick = Event::new(EventKind::Tick);
    let take = Event::new(EventKind::Take(5));
    let end = Event::new(EventKind::End(5, Ending::NotStarted));
    // runs 5 and 6 are queued at seat 1, and 7 at seat 2
    let first = woken(&mut notes, &tick, &placed, Queues(Some(5), Some(7)));
    // nothing new is queued
    let again = woken(&mut notes, &tick, &placed, Queues(Some(5), Some(7)));
    // a lane takes run 5, and the next one is woken for run 6
    let taken = woken(&mut notes, &take, &made, Queues(Some(6), Some(7)));
    let failed = woken(
        &mut notes,
        &end,
        &Answer::KeeperFault,
        Queues(Some(6), Some(7)),
    );
    // run 6 is withdrawn
    let withdrawn = woken(&mut notes, &tick, &made, Queues(None, Some(7)));
    // the lane that tells the end of run 5 looks next for run 8, and another one of seat 2 for run 3
    let ended = woken(&mut notes, &end, &placed, Queues(Some(8), Some(3)));
    // nobody knows the run 5 any more
    let unknown = woken(&mut notes, &end, &placed, Queues(Some(9), Some(3)));
    assert!(rt; first == (true, true) && again == (false, false));
    assert!(rt; taken == (true, false) && failed == (false, false));
    assert!(rt; withdrawn == (false, false));
    assert!(rt; ended == (false, true) && unknown == (true, false));
    Ok(())
}
