//! The log of the calls of a service.
use crate::requests::push_request;
use batch_cli::show_answer;
use batch_desk::Answer;
use bt_base::{Moment, NoMemory};
use bt_rows::event::Event;
use std::alloc::{AllocError, Global};
use std::mem;
use std::sync::{Mutex, Wait};

/// What the log has that is not written yet.
#[derive(Drop)]
struct Pending {
    /// The moment, the word and the names of the call that began.
    request: String,
    /// The lines that are not written yet.
    lines: String,
    /// How many calls have no lines, since there was no memory for them.
    lost: u64,
}

impl Pending {
    fn empty(alloc: Global) -> Pending {
        Pending {
            request: String::new(alloc),
            lines: String::new(alloc),
            lost: 0,
        }
    }

    /// Notes the request of the call that begins.
    fn begin(&mut self, moment: Moment, event: &Event) -> Result<(), AllocError> {
        self.request.clear();
        let ms = moment.ms();
        write!(self.request, "{ms} ")?;
        push_request(&mut self.request, event)
    }

    /// Adds the line of the request, and those of its answer.
    fn end(&mut self, alloc: Global, place: u64, answer: &Answer) -> Result<(), NoMemory> {
        let shown = show_answer(alloc, place, answer)?;
        let request = self.request.as_str();
        write!(self.lines, "{place} {request}\n")?;
        self.lines.push_str(shown.as_str())?;
        Ok(())
    }
}

/// Lines of the log, to be written.
#[derive(Drop)]
pub struct LogLines {
    /// The lines, each with its line feed.
    pub lines: String,
    /// How many calls have no lines, since there was no memory for them.
    pub lost: u64,
}

/// The log of the calls of a service, in their order. A call has a line with its place in the journal, from 1, its moment in milliseconds
/// since 1970, the word of its request as a script has it, and the ids or the number of the run that it names; then the lines that a script
/// would show of its answer, with the place as their number. A call that is not in the journal has the place 0. The lines are kept in memory
/// until they are taken.
#[derive(Drop)]
pub struct CallLog {
    alloc: Global,
    pending: Mutex<Pending>,
}

impl CallLog {
    /// An empty log. It does not allocate.
    pub fn new(alloc: Global) -> CallLog {
        CallLog {
            alloc,
            pending: Mutex::new(Pending::empty(alloc)),
        }
    }

    /// Notes the call that begins.
    pub fn begin<R: Wait>(&self, rt: &R, moment: Moment, event: &Event) {
        let mut pending = self.pending.lock(rt);
        if pending.begin(moment, event).is_err() {
            pending.request.clear();
        }
    }

    /// Adds the call that began, with its answer.
    pub fn end<R: Wait>(&self, rt: &R, entries: u64, answer: &Answer) {
        let place = match answer {
            Answer::Done { .. } | Answer::KeeperFault => entries,
            Answer::JournalFull | Answer::Memory => 0,
        };
        let mut pending = self.pending.lock(rt);
        if pending.end(self.alloc, place, answer).is_err() {
            pending.lost = pending.lost.saturating_add(1);
        }
    }

    /// Takes the lines that were added since they were last taken.
    pub fn take<R: Wait>(&self, rt: &R) -> LogLines {
        let mut pending = self.pending.lock(rt);
        let lines = mem::replace(&mut pending.lines, String::new(self.alloc));
        let lost = pending.lost;
        pending.lost = 0;
        LogLines { lines, lost }
    }
}
