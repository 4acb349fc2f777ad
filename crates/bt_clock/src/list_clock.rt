//! A clock in memory.
ghost use Rattle.std.specs.Prelude.{◌≡◌, false};
ghost use Rattle.bt_clock.specs.Lists.{GivesNext, Pauses};

use crate::clock::Clock;
use bt_base::Moment;
use std::marker::Model;

/// A clock that gives the moments of a list in order, and then the last one again; 0 if the list is empty. Its pauses take no
/// time, and so many of them do not say that the service is to end.
#[derive(Debug)]
pub struct ListClock {
    moments: Vec<Moment>,
    place: usize,
    pauses: u64,
    ended: bool,
}

impl Drop for ListClock {
    fn drop(self) {
        let ListClock {
            moments: _moments,
            place: _place,
            pauses: _pauses,
            ended: _ended,
        } = self;
    }
}

impl Model for ListClock {
    ghost use Rattle.std.specs.Prelude.{drop, ◌≤◌, vec_len};
    ghost use Rattle.bt_clock.specs.Lists.{ListClock as Told};

    ghost Value = { Told };

    ghost view = { λ clock. record {
      moments = drop clock.place clock.moments.items;
      pauses = clock.pauses;
      ended = clock.ended;
    } };

    ghost invariant = { λ clock. clock.place ≤ vec_len clock.moments };
}

impl ListClock {
    /// A clock that gives these moments, in milliseconds since 1970, and whose first pauses, so many, return true. It does not
    /// allocate.
    pub fn new(moments: Vec<Moment>, pauses: u64) -> ListClock
        ensures { result ≡ record { moments = moments.items; pauses = pauses; ended = false } }
    {
        ListClock {
            moments,
            place: 0,
            pauses,
            ended: false,
        }
    }
}

/// The beginning of 1970.
fn zero_moment() -> Moment
    ensures { result ≡ 0 }
{
    match Moment::of_ms(0) {
        Some(moment) => moment,
        None => unreachable!(),
    }
}

impl Clock for ListClock {
    ghost gives = { GivesNext };

    ghost pauses = { Pauses };

    ghost has_ended = { λ clock. clock.ended };

    fn now(&mut self) -> Moment {
        let Some(moment) = self.moments.get(self.place) else {
            return zero_moment();
        };
        let moment = *moment;
        if self.place + 1 < self.moments.len() {
            self.place += 1;
        }
        moment
    }

    fn pause(&mut self) -> bool {
        if self.pauses == 0 {
            self.ended = true;
            return false;
        }
        self.pauses -= 1;
        true
    }
}
