//! When the next tick of a timer is due.
use batch_crew::TICK_GAP_MS;
use bt_base::Moment;

/// The moments of a timer, in milliseconds since 1970, as its clock gives them.
#[derive(Clone, Copy)]
pub struct TickTimes {
    /// That of its last tick; None before the first one.
    tick_ms: Option<u64>,
    /// The last one.
    last_ms: u64,
}

impl TickTimes {
    /// No moment was given yet.
    pub fn new() -> TickTimes {
        TickTimes {
            tick_ms: None,
            last_ms: 0,
        }
    }

    /// The moment that the next tick is due; 0 before the first one.
    fn due_ms(&self) -> u64 {
        match self.tick_ms {
            Some(tick_ms) => tick_ms.saturating_add(TICK_GAP_MS),
            None => 0,
        }
    }

    /// Notes a moment that the timer is given, which ticks if a tick is due then.
    pub fn note(&mut self, moment: Moment) {
        self.last_ms = moment.ms();
        if self.due_ms() <= self.last_ms {
            self.tick_ms = Some(self.last_ms);
        }
    }

    /// How long it is from the last moment to the next tick, in milliseconds.
    pub fn ms_to_tick(&self) -> u64 {
        self.due_ms().saturating_sub(self.last_ms)
    }
}
