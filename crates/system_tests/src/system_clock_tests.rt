//! Tests of the clock of the system: two clocks do not go back, pauses tell the end, and a system's time that is set back changes no
//! moment.
use bt_clock::Clock;
use std::io;
use std::io::ErrorKind;
use std::sync::Arc;
use std::sync::atomic::{AtomicBool, AtomicU64, Ordering};
use std::test::Fail;
use std::time::{Clock as Time, Duration};
use system_clock::SystemClock;

#[test]
fn moments_go_on_and_pauses_end(rt: HostRuntime) -> Result<(), Fail> {
    let ending = Arc::new(rt.alloc(), AtomicBool::new(false))?;
    let Ok(mut clock) = SystemClock::new(rt.alloc(), rt, 20, &ending) else {
        panic!(rt; "out of memory")
    };
    let Ok(mut other) = clock.another() else {
        panic!(rt; "out of memory")
    };
    let first = clock.now().ms();
    let goes_on = clock.pause() && !clock.is_ending();
    let second = other.now().ms();
    ending.store(true, Ordering::SeqCst);
    let ends = clock.is_ending() && !clock.pause() && !other.pause();
    // 2024-01-01T00:00:00Z
    assert!(rt; first > 1_704_067_200_000);
    assert!(rt; clock.start_ms() <= first && other.start_ms() == clock.start_ms());
    assert!(rt; second >= first + 15 && second < first + 60_000);
    assert!(rt; goes_on && ends);
    Ok(())
}

/// A monotonic time that cannot be read.
const UNREADABLE: u64 = u64::MAX;

/// A time that a test sets, in milliseconds. Sleeping adds to the monotonic time alone.
#[derive(Clone, Copy)]
struct SetTime<'a> {
    since_1970: &'a AtomicU64,
    monotonic: &'a AtomicU64,
}

impl Time for SetTime<'_> {
    fn monotonic(&self) -> io::Result<Duration> {
        match self.monotonic.load(Ordering::SeqCst) {
            UNREADABLE => Err(io::Error::from(ErrorKind::Other)),
            ms => Ok(Duration::from_millis(ms)),
        }
    }

    fn since_1970(&self) -> io::Result<Duration> {
        Ok(Duration::from_millis(self.since_1970.load(Ordering::SeqCst)))
    }

    fn sleep(&self, duration: Duration) {
        let ms = u64::try_from(duration.as_millis()).unwrap_or(0);
        self.monotonic.fetch_add(ms, Ordering::SeqCst);
    }
}

#[test]
fn a_time_that_is_set_back_changes_no_moment(rt: HostRuntime) -> Result<(), Fail> {
    let since_1970 = AtomicU64::new(1_800_000_000_000);
    let monotonic = AtomicU64::new(7_000);
    let ending = Arc::new(rt.alloc(), AtomicBool::new(false))?;
    let time = SetTime {
        since_1970: &since_1970,
        monotonic: &monotonic,
    };
    let Ok(mut clock) = SystemClock::new(rt.alloc(), time, 50, &ending) else {
        panic!(rt; "out of memory")
    };
    let Ok(mut other) = clock.another() else {
        panic!(rt; "out of memory")
    };
    let at_start = clock.now().ms();
    since_1970.store(1_700_000_000_000, Ordering::SeqCst);
    monotonic.store(12_000, Ordering::SeqCst);
    let set_back = clock.now().ms();
    since_1970.store(1_900_000_000_000, Ordering::SeqCst);
    let paused = clock.pause();
    clock.sleep_ms(150);
    let set_forward = other.now().ms();
    monotonic.store(9_000, Ordering::SeqCst);
    let monotonic_back = clock.now().ms();
    monotonic.store(UNREADABLE, Ordering::SeqCst);
    let unreadable = other.now().ms();
    assert_eq!(rt; clock.start_ms(), 1_800_000_000_000);
    assert_eq!(rt; at_start, 1_800_000_000_000);
    assert_eq!(rt; set_back, 1_800_000_005_000);
    assert!(rt; paused);
    assert_eq!(rt; set_forward, 1_800_000_005_200);
    assert_eq!(rt; monotonic_back, 1_800_000_005_200);
    assert_eq!(rt; unreadable, 1_800_000_005_200);
    Ok(())
}
