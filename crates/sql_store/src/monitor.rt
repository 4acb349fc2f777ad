//! What is told of faults of writes.
use crate::health::StoreHealth;
use sql_file::WriteFault;
use std::mem;

/// What a store tells of its writes.
pub trait StoreMonitor {
    /// A write failed. It is told for the first fault of each kind since the last write that succeeded.
    fn write_failed(&mut self, fault: WriteFault);

    /// A write succeeded, and the one before it failed.
    fn write_succeeded(&mut self);
}

/// A monitor that does nothing.
#[derive(Clone, Copy, Debug, Drop)]
pub struct Unmonitored;

impl StoreMonitor for Unmonitored {
    fn write_failed(&mut self, _: WriteFault) {}

    fn write_succeeded(&mut self) {}
}

/// The kinds of faults that were told since the last write that succeeded.
#[derive(Drop)]
struct Told {
    disk_full: bool,
    cannot_write: bool,
    busy: bool,
    shut: bool,
    too_large: bool,
    damaged: bool,
    refused: bool,
}

impl Told {
    fn nothing() -> Told {
        Told {
            disk_full: false,
            cannot_write: false,
            busy: false,
            shut: false,
            too_large: false,
            damaged: false,
            refused: false,
        }
    }

    /// Notes the kind of the fault; whether it is the first one of this kind.
    fn note(&mut self, fault: WriteFault) -> bool {
        let was_told = match fault {
            WriteFault::DiskFull => mem::replace(&mut self.disk_full, true),
            WriteFault::CannotWrite => mem::replace(&mut self.cannot_write, true),
            WriteFault::Busy => mem::replace(&mut self.busy, true),
            WriteFault::Shut => mem::replace(&mut self.shut, true),
            WriteFault::TooLarge => mem::replace(&mut self.too_large, true),
            WriteFault::Damaged => mem::replace(&mut self.damaged, true),
            WriteFault::Refused => mem::replace(&mut self.refused, true),
        };
        !was_told
    }
}

/// A monitor, what it was told, and the health that is shown to others.
pub struct Watch<M: StoreMonitor + Drop> {
    monitor: M,
    told: Told,
    health: StoreHealth,
}

impl<M: StoreMonitor + Drop> Drop for Watch<M> {
    fn drop(self) {
        let Watch {
            monitor: _monitor,
            told: _told,
            health: _health,
        } = self;
    }
}

impl<M: StoreMonitor + Drop> Watch<M> {
    /// A watch over a store of which no write has failed.
    pub fn new(monitor: M, health: StoreHealth) -> Watch<M> {
        Watch {
            monitor,
            told: Told::nothing(),
            health,
        }
    }

    /// The health of the store.
    pub fn health(&self) -> &StoreHealth {
        &self.health
    }

    /// Notes that a write failed.
    pub fn note_fault(&mut self, fault: WriteFault) {
        self.health.set_failing(true);
        if fault == WriteFault::Shut {
            self.health.set_shut();
        }
        if self.told.note(fault) {
            self.monitor.write_failed(fault);
        }
    }

    /// Notes that a write succeeded.
    pub fn note_success(&mut self) {
        if self.health.is_failing() {
            self.health.set_failing(false);
            self.told = Told::nothing();
            self.monitor.write_succeeded();
        }
    }
}
