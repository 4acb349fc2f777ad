//! The clock of the system.
ghost use Rattle.std.specs.Prelude.{◌≡◌, ⊤, false, IfOk};

use bt_base::{LAST_MOMENT_MS, Moment, NoMemory};
use bt_clock::Clock;
use std::alloc::Global;
use std::marker::Model;
use std::sync::Arc;
use std::sync::atomic::{AtomicBool, AtomicU64, Ordering};
use std::thread;
use std::time::{Clock as Time, Duration, Instant};

/// The clock of the system, in UTC: the system's time when the clock was made, and the monotonic time since then. So its moments do
/// not change with the system's time if that is set back or forward later; they stand still while the machine is suspended. They never
/// go back: the clock gives the latest moment again that it or a clock made of it by `another` gave, if that is later or if the
/// monotonic time cannot be read. After the year 9999 it gives the last moment of that year. Contracts see it as whether one of its
/// pauses has returned false.
#[derive(Drop)]
pub struct SystemClock<R: Time + Drop> {
    rt: R,
    pause: Duration,
    start: Start,
    latest: Arc<AtomicU64>,
    ending: Arc<AtomicBool>,
    has_ended: bool,
}

/// When a clock was made.
#[derive(Clone, Copy)]
struct Start {
    /// The system's time, in milliseconds since 1970.
    ms: u64,
    /// The monotonic time; None if it could not be read.
    instant: Option<Instant>,
}

impl<R: Time + Drop> Model for SystemClock<R> {
    ghost use Rattle.std.specs.Prelude.{Bool};

    ghost Value = { Bool };

    ghost view = { λ c. c.has_ended };
}

/// A time in milliseconds, or that of the last moment if it is longer.
fn ms_of(time: Duration) -> u64 {
    u64::try_from(time.as_millis())
        .unwrap_or(LAST_MOMENT_MS)
        .min(LAST_MOMENT_MS)
}

/// The moment that the system tells, in milliseconds since 1970; 0 if it tells none.
fn system_ms<R: Time>(rt: &R) -> u64 {
    match rt.since_1970() {
        Ok(time) => ms_of(time),
        Err(_) => 0,
    }
}

impl Start {
    fn now<R: Time>(rt: &R) -> Start {
        Start {
            ms: system_ms(rt),
            instant: Instant::now(rt).ok(),
        }
    }

    /// The moment now, in milliseconds since 1970; None if the monotonic time cannot be read.
    fn moment_ms<R: Time>(&self, rt: &R) -> Option<u64> {
        let since = self.instant?.elapsed(rt).ok()?;
        Some(self.ms.saturating_add(ms_of(since)))
    }
}

impl<R: Time + Drop> SystemClock<R> {
    /// A clock that starts now, whose pauses last `pause_ms` milliseconds, and return false once `ending` is raised. The only error is
    /// out of memory.
    pub fn new(
        alloc: Global,
        rt: R,
        pause_ms: u64,
        ending: &Arc<AtomicBool>,
    ) -> Result<SystemClock<R>, NoMemory>
        ensures { IfOk result (λ c. c ≡ false) }
    {
        let start = Start::now(&rt);
        let latest = Arc::new(alloc, AtomicU64::new(start.ms))?;
        let ending = Arc::try_clone(ending)?;
        Ok(SystemClock {
            rt,
            pause: Duration::from_millis(pause_ms),
            start,
            latest,
            ending,
            has_ended: false,
        })
    }

    /// The system's time when this clock, or the one that it was made of by `another`, was made, in milliseconds since 1970; 0 if the
    /// system told none. No moment of the clock is before it.
    pub fn start_ms(&self) -> u64 {
        self.start.ms
    }

    /// Whether the service is to end: whether `ending` is raised.
    pub fn is_ending(&self) -> bool {
        self.ending.load(Ordering::SeqCst)
    }

    /// Sleeps for so many milliseconds. It is no pause.
    pub fn sleep_ms(&self, ms: u64) {
        thread::sleep(&self.rt, Duration::from_millis(ms));
    }
}

impl<R: Time + Copy + Drop> SystemClock<R> {
    /// Another clock, whose moments and pauses are as this one's. The only error is out of memory.
    pub fn another(&self) -> Result<SystemClock<R>, NoMemory>
        ensures { IfOk result (λ c. c ≡ false) }
    {
        let latest = Arc::try_clone(&self.latest)?;
        let ending = Arc::try_clone(&self.ending)?;
        Ok(SystemClock {
            rt: self.rt,
            pause: self.pause,
            start: self.start,
            latest,
            ending,
            has_ended: false,
        })
    }
}

/// The moment at this many milliseconds since 1970, or the last one.
fn moment_at(ms: u64) -> Moment {
    match Moment::of_ms(ms.min(LAST_MOMENT_MS)) {
        Some(moment) => moment,
        None => unreachable!(),
    }
}

impl<R: Time + Drop> Clock for SystemClock<R> {
    ghost gives = { λ _ _ _. ⊤ };

    ghost pauses = { λ _ _ _. ⊤ };

    ghost has_ended = { λ c. c };

    fn now(&mut self) -> Moment {
        let ms = self.start.moment_ms(&self.rt).unwrap_or(0);
        let latest = self.latest.fetch_max(ms, Ordering::SeqCst);
        moment_at(ms.max(latest))
    }

    /// Sleeps for the time of a pause, and then returns false if the service is to end.
    fn pause(&mut self) -> bool {
        thread::sleep(&self.rt, self.pause);
        if self.is_ending() {
            self.has_ended = true;
            return false;
        }
        true
    }
}
