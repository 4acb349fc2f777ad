//! What is noted of the queued runs of a service.
use batch_desk::Answer;
use bt_base::NoMemory;
use bt_rows::event::{Event, EventKind};
use shared_desk::SeatQueues;
use std::alloc::Global;
use std::mem;

/// A call, as far as it tells which lane makes it.
#[derive(Clone, Copy)]
enum LaneCall {
    /// A lane takes the run with this number.
    Take(u64),
    /// A lane tells how the run with this number ended, and then looks at its seat.
    End(u64),
    /// Anything else.
    Other,
}

/// A run that a lane took.
#[derive(Clone, Copy)]
struct TakenRun {
    number: u64,
    seat: u8,
}

/// The lowest queued run of each seat after the last call, and the seats of the runs that lanes have taken.
#[derive(Drop)]
pub struct QueueNotes {
    lowest: Vec<Option<u64>>,
    taken: Vec<TakenRun>,
    /// The call; `Other` once it was answered that it was not made, since it has then changed nothing.
    call: LaneCall,
    /// Whether the call may have queued a run.
    may_queue: bool,
}

impl QueueNotes {
    /// No run is queued or taken at any of the seats, of which there are so many. The only error is out of memory.
    pub fn new(alloc: Global, seats: u8) -> Result<QueueNotes, NoMemory> {
        let mut lowest = Vec::new(alloc);
        for _ in 0..=seats {
            lowest.push(None)?;
        }
        Ok(QueueNotes {
            lowest,
            taken: Vec::new(alloc),
            call: LaneCall::Other,
            may_queue: false,
        })
    }

    /// Notes the call that begins.
    pub fn begin(&mut self, event: &Event) {
        self.call = match event.kind() {
            EventKind::Take(number) => LaneCall::Take(*number),
            EventKind::End(number, _) => LaneCall::End(*number),
            _ => LaneCall::Other,
        };
    }

    /// Notes what the call was answered. Runs are queued by due steps, and by the end of a run that others wait for or that is run again.
    pub fn answer(&mut self, answer: &Answer) {
        match answer {
            Answer::Done { dues, .. } => {
                self.may_queue = !dues.as_slice().is_empty()
                    || matches!(self.call, LaneCall::End(_));
            }
            Answer::KeeperFault | Answer::JournalFull | Answer::Memory => {
                self.call = LaneCall::Other;
                self.may_queue = false;
            }
        }
    }

    /// Whether the lane that makes the call is one of this seat, and looks for a run when the call is made.
    fn looks_next(&self, seat: u8) -> bool {
        match self.call {
            LaneCall::End(number) => self
                .taken
                .iter()
                .any(|run| run.number == number && run.seat == seat),
            LaneCall::Take(_) | LaneCall::Other => false,
        }
    }

    /// Notes that the run was taken at this seat. Without memory for that, a lane is woken at its end that finds nothing.
    fn note_taken(&mut self, before: Option<u64>, seat: u8) {
        if let (Some(number), LaneCall::Take(taken)) = (before, self.call) {
            if number == taken {
                let _ = self.taken.push(TakenRun { number, seat });
            }
        }
    }

    /// Notes the lowest queued run at the seat after the call. Returns whether it is another one than before, which a lane is to be woken for:
    /// not if a lane of the seat makes the call and looks next.
    pub fn is_woken<Q: SeatQueues>(&mut self, queues: &Q, seat: u8) -> bool {
        let Some(noted) = self.lowest.get_mut(usize::from(seat)) else {
            return false;
        };
        if noted.is_none() && !self.may_queue {
            return false;
        }
        let lowest = queues.lowest_number_at(seat);
        let before = mem::replace(noted, lowest);
        if lowest == before {
            return false;
        }
        self.note_taken(before, seat);
        lowest.is_some() && !self.looks_next(seat)
    }

    /// Forgets the call, and the run whose end it told.
    pub fn finish(&mut self) {
        if let LaneCall::End(number) = self.call {
            self.taken.retain(|run| run.number != number);
        }
        self.call = LaneCall::Other;
    }
}
