//! The clocks of workers.
ghost use Rattle.std.specs.Prelude.{◌≡◌, ⊤, false, IfOk};

use crate::ticks::TickTimes;
use crate::wakes::Wakes;
use crate::writer::LogWriter;
use bt_base::{Moment, NoMemory};
use bt_clock::Clock;
use child_programs::ProgramTable;
use sql_store::StoreHealth;
use std::fs::File;
use std::io::Eprint;
use std::marker::Model;
use std::rt::Files;
use std::sync::{Arc, Wait};
use std::time::Clock as Time;
use system_clock::SystemClock;

/// How long the timer pauses at least, in milliseconds, and a lane at first while the last write to the store failed.
pub const PAUSE_MS: u64 = 50;

/// How long a lane or the timer pauses at most while writes to the store succeed and nothing wakes it, in milliseconds.
const REST_MS: u64 = 1_000;

/// How many pauses the timer makes at least after the input of a child program was open, so that one that a lane is about to start keeps it.
const QUIET_PAUSES: u32 = 40;

/// How long a lane pauses at most while the last write to the store failed, in milliseconds.
const LAST_PAUSE_MS: u64 = 5_000;

/// What a pause of a lane waits for.
#[derive(Drop)]
pub struct LaneWait {
    /// What wakes it.
    pub wakes: Arc<Wakes>,
    /// Its seat.
    pub seat: u8,
    /// Whether the last write to the store failed; None without a store.
    pub health: Option<StoreHealth>,
}

/// What a pause of the timer waits for, and the child programs for which it goes on.
#[derive(Drop)]
pub struct TimerWait {
    /// What wakes it.
    pub wakes: Arc<Wakes>,
    /// The child programs.
    pub table: Arc<ProgramTable>,
}

/// What the pauses of a worker depend on.
#[derive(Drop)]
enum Role<R: Wait + Files<File = File> + Eprint + Drop> {
    /// A lane: it pauses until it is woken, and longer while the last write to the store failed.
    Lane {
        /// What it waits for.
        wait: LaneWait,
        /// How long its last pause took beyond `PAUSE_MS`, in milliseconds; 0 while writes succeed.
        extra_ms: u64,
    },
    /// The timer: it writes the log, and goes on while the input of a child program is open.
    Timer {
        /// What it waits for.
        wait: TimerWait,
        /// What writes the log.
        log: LogWriter<R>,
        /// When it ticks.
        ticks: TickTimes,
        /// How many pauses it has made since the input of a child program was open.
        quiet: u32,
    },
    /// A door: it never pauses.
    Door,
}

/// The clock of a worker, over the clock of the system. A lane pauses until it is woken, and for `REST_MS` at most; and while the last write to
/// the store failed, for more than `PAUSE_MS`, which nothing ends early: twice as long each time, up to `LAST_PAUSE_MS`. A pause of the timer
/// writes the log of calls, lasts `PAUSE_MS`, and then until it is woken or a tick is due, for `REST_MS` in all at most. Once all listeners have
/// ended, a lane does not pause, and the timer for `PAUSE_MS`.
///
/// The service is to end once all its listeners have ended; the timer only when no input of a child program was open for a while either, so that
/// child programs are asked to stop to the end. Contracts see it as whether one of its pauses has returned false.
#[derive(Drop)]
pub struct WorkerClock<R: Time + Wait + Files<File = File> + Eprint + Drop> {
    rt: R,
    inner: SystemClock<R>,
    role: Role<R>,
    has_ended: bool,
}

impl<R: Time + Wait + Files<File = File> + Eprint + Drop> Model for WorkerClock<R> {
    ghost use Rattle.std.specs.Prelude.{Bool};

    ghost Value = { Bool };

    ghost view = { λ c. c.has_ended };
}

impl<R: Time + Wait + Files<File = File> + Eprint + Copy + Drop> WorkerClock<R> {
    fn of(rt: R, inner: &SystemClock<R>, role: Role<R>) -> Result<WorkerClock<R>, NoMemory>
        ensures { IfOk result (λ c. c ≡ false) }
    {
        let inner = inner.another()?;
        Ok(WorkerClock {
            rt,
            inner,
            role,
            has_ended: false,
        })
    }

    /// The clock of a lane. The only error is out of memory.
    pub fn lane(rt: R, inner: &SystemClock<R>, wait: LaneWait) -> Result<WorkerClock<R>, NoMemory>
        ensures { IfOk result (λ c. c ≡ false) }
    {
        WorkerClock::of(rt, inner, Role::Lane { wait, extra_ms: 0 })
    }

    /// The clock of the timer, whose pauses write the log. The only error is out of memory.
    pub fn timer(
        rt: R,
        inner: &SystemClock<R>,
        wait: TimerWait,
        log: LogWriter<R>,
    ) -> Result<WorkerClock<R>, NoMemory>
        ensures { IfOk result (λ c. c ≡ false) }
    {
        WorkerClock::of(
            rt,
            inner,
            Role::Timer {
                wait,
                log,
                ticks: TickTimes::new(),
                quiet: 0,
            },
        )
    }

    /// The clock of a door. The only error is out of memory.
    pub fn door(rt: R, inner: &SystemClock<R>) -> Result<WorkerClock<R>, NoMemory>
        ensures { IfOk result (λ c. c ≡ false) }
    {
        WorkerClock::of(rt, inner, Role::Door)
    }
}

/// Whether there is a store, and its last write failed.
fn is_failing(health: &Option<StoreHealth>) -> bool {
    match health {
        Some(health) => health.is_failing(),
        None => false,
    }
}

/// How long the next pause of a lane takes beyond `PAUSE_MS`, in milliseconds, after one that took `last_ms` more.
fn next_extra_ms(last_ms: u64, is_failing: bool) -> u64 {
    if is_failing {
        last_ms
            .saturating_mul(2)
            .clamp(PAUSE_MS, LAST_PAUSE_MS - PAUSE_MS)
    } else {
        0
    }
}

/// Waits as a lane does whose pause takes so much longer than `PAUSE_MS` since writes fail, or 0.
fn wait_as_lane<R: Time + Wait + Drop>(
    rt: &R,
    inner: &SystemClock<R>,
    wait: &LaneWait,
    extra_ms: u64,
) {
    if extra_ms > 0 {
        inner.sleep_ms(extra_ms.saturating_add(PAUSE_MS));
    } else if !inner.is_ending() {
        wait.wakes.wait_at(rt, wait.seat, REST_MS);
    }
}

impl<R: Time + Wait + Files<File = File> + Eprint + Drop> Role<R> {
    /// Does what the worker does in a pause, and waits.
    fn wait(&mut self, rt: &R, inner: &SystemClock<R>) {
        match self {
            Role::Lane { wait, extra_ms } => {
                *extra_ms = next_extra_ms(*extra_ms, is_failing(&wait.health));
                wait_as_lane(rt, inner, wait, *extra_ms);
            }
            Role::Timer {
                wait,
                log,
                ticks,
                ..
            } => {
                log.write();
                inner.sleep_ms(PAUSE_MS);
                let rest_ms = ticks.ms_to_tick().clamp(PAUSE_MS, REST_MS) - PAUSE_MS;
                if rest_ms > 0 && !inner.is_ending() {
                    wait.wakes.wait_for_call(rt, rest_ms);
                }
            }
            Role::Door => inner.sleep_ms(PAUSE_MS),
        }
    }

    /// Notes a moment that the worker is given.
    fn note(&mut self, moment: Moment) {
        match self {
            Role::Timer { ticks, .. } => ticks.note(moment),
            Role::Lane { .. } | Role::Door => {}
        }
    }

    /// Whether the worker goes on, though all listeners have ended.
    fn goes_on(&mut self, rt: &R) -> bool {
        match self {
            Role::Timer { wait, quiet, .. } => {
                *quiet = if wait.table.has_open(rt) {
                    0
                } else {
                    quiet.saturating_add(1)
                };
                *quiet < QUIET_PAUSES
            }
            Role::Lane { .. } | Role::Door => false,
        }
    }
}

impl<R: Time + Wait + Files<File = File> + Eprint + Drop> Clock for WorkerClock<R> {
    ghost gives = { λ _ _ _. ⊤ };

    ghost pauses = { λ _ _ _. ⊤ };

    ghost has_ended = { λ c. c };

    fn now(&mut self) -> Moment {
        let moment = self.inner.now();
        self.role.note(moment);
        moment
    }

    /// Waits, and then returns false if the worker is to end.
    fn pause(&mut self) -> bool {
        self.role.wait(&self.rt, &self.inner);
        if self.inner.is_ending() && !self.role.goes_on(&self.rt) {
            self.has_ended = true;
            return false;
        }
        true
    }
}
