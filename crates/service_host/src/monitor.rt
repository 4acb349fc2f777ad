//! What a service tells of itself while it runs.
use crate::log::CallLog;
use crate::wakes::Wakes;
use batch_crew::LaneEnd;
use batch_desk::Answer;
use batch_http::DoorEnd;
use batch_serve::ServiceMonitor;
use bt_base::Moment;
use bt_rows::event::Event;
use shared_desk::{CallMonitor, SeatQueues};
use std::io::Eprint;
use std::sync::atomic::{AtomicBool, Ordering};
use std::sync::{Arc, Wait};

/// Why a lane or the timer ended otherwise than asked; None if it was asked to.
fn reason_of(end: LaneEnd) -> Option<&'static str> {
    match end {
        LaneEnd::Ended => None,
        LaneEnd::JournalFull => Some(
            "the journal is full; start the service again, or give a greater --journal",
        ),
        LaneEnd::Memory => Some(
            "it is out of memory; give the program more memory and start it again",
        ),
    }
}

/// The monitor of a service: it logs each call, and says on standard error what else a user should know of: that nine tenths of the journal
/// are used, and why a lane, the timer or a door ended otherwise than asked. If the timer ended so, the flag `stopping` is raised. Faults of
/// standard error change nothing. It notes in the turn of a call which lanes are to be woken, and wakes them and the timer after it, and all of them when a
/// door ends.
#[derive(Drop)]
pub struct HostMonitor<R: Wait + Eprint + Drop> {
    rt: R,
    log: Arc<CallLog>,
    wakes: Arc<Wakes>,
    journal_limit: u64,
    is_journal_low: AtomicBool,
    stopping: Arc<AtomicBool>,
}

impl<R: Wait + Eprint + Drop> HostMonitor<R> {
    /// A monitor that logs into this log, and wakes these lanes and this timer. The journal has `journal_limit` entries at most. It does not allocate.
    pub fn new(
        rt: R,
        log: Arc<CallLog>,
        wakes: Arc<Wakes>,
        journal_limit: u32,
        stopping: Arc<AtomicBool>,
    ) -> HostMonitor<R> {
        HostMonitor {
            rt,
            log,
            wakes,
            journal_limit: u64::from(journal_limit),
            is_journal_low: AtomicBool::new(false),
            stopping,
        }
    }

    /// Says once that nine tenths of the journal are used.
    fn watch_journal(&self, entries: u64) {
        let nine_tenths = self.journal_limit - self.journal_limit / 10;
        if entries >= nine_tenths && !self.is_journal_low.swap(true, Ordering::SeqCst) {
            let limit = self.journal_limit;
            let _ = self.rt.eprintln(format_args!(
                "batch: the journal has {entries} of at most {limit} entries; the service ends when it is full: start it again before that, or give a greater --journal"
            ));
        }
    }
}

impl<R: Wait + Eprint + Drop> CallMonitor for HostMonitor<R> {
    fn call_begins(&self, moment: Moment, event: &Event) {
        self.log.begin(&self.rt, moment, event);
        self.wakes.begin(&self.rt, event);
    }

    fn call_answered(&self, entries: u64, answer: &Answer) {
        self.log.end(&self.rt, entries, answer);
        self.wakes.answer(&self.rt, answer);
        self.watch_journal(entries);
    }

    fn runs_queued<Q: SeatQueues>(&self, queues: &Q) {
        self.wakes.look(&self.rt, queues);
    }

    fn turn_left(&self) {
        self.wakes.wake(&self.rt);
    }
}

impl<R: Wait + Eprint + Drop> ServiceMonitor for HostMonitor<R> {
    fn lane_ended(&self, seat: u8, end: LaneEnd) {
        if let Some(reason) = reason_of(end) {
            let _ = self.rt.eprintln(format_args!("batch: a lane of seat {seat} ended: {reason}"));
        }
    }

    fn timer_ended(&self, end: LaneEnd) {
        if let Some(reason) = reason_of(end) {
            let _ = self.rt.eprintln(format_args!(
                "batch: the timer ended, and the service ends: {reason}"
            ));
            self.stopping.store(true, Ordering::SeqCst);
        }
    }

    fn door_ended(&self, end: DoorEnd) {
        self.wakes.wake_all(&self.rt);
        if end.failed {
            let _ = self.rt.eprintln(
                "batch: a door ended: a connection could not be accepted; start the service again",
            );
        }
        if end.met_memory {
            let _ = self.rt.eprintln(
                "batch: a door ended, and a connection of it was out of memory; give the program more memory and start it again",
            );
        }
    }
}
