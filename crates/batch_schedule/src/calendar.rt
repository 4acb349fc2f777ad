//! The calendar: schedules over an asker.
ghost use Rattle.std.specs.Prelude.{◌≡◌, max, [], not};
ghost use Rattle.batch_desk.specs.Exchanges.{Looked};
ghost use Rattle.schedule_rows.specs.declared.event.CalEvent.TheVariants.{Inner};
ghost use Rattle.batch_schedule.specs.Answers.{AnswersEvent, AnswersCal, IsOwn, TurnsFollow};
ghost use Rattle.batch_schedule.specs.Own.{DoesOwn, is_memory};
ghost use Rattle.schedule_rows.specs.Fires.{has_memory};

use crate::own::{add, delete, disable, enable};
use crate::turn::run_turns;
use batch_desk::{Answer, Ask};
use bt_base::{List, Moment, NoMemory};
use bt_rows::event::Event;
use bt_rows::reply::Reply;
use schedule_rows::{CalAnswer, CalEvent, CalReply, Fire, ScheduleRow};
use std::alloc::Global;
use std::marker::Model;
use table_reads::Read;

/// Schedules over an asker. After each event their turns are run, in order of adding, unless memory ran out at the event. Schedules are not
/// saved: they last as long as the calendar.
#[derive(Drop)]
pub struct Calendar<A: Ask + Drop> {
    asker: A,
    rows: Vec<ScheduleRow>,
    now: Moment,
}

impl<A: Ask + Drop> Model for Calendar<A> {
    ghost use Rattle.batch_schedule.specs.Kept.{Calendar as Seen};

    ghost Value = { Seen A };

    ghost view = { λ c. record { asker = c.asker; rows = c.rows.items; now = c.now } };
}

/// The later of two moments.
fn later(a: Moment, b: Moment) -> Moment
    ensures { result ≡ max a b }
{
    if a.ms() < b.ms() { b } else { a }
}

/// Makes an event on the schedules.
fn do_own(rows: &mut Vec<ScheduleRow>, now: Moment, event: CalEvent) -> CalReply
    requires { IsOwn event }
    ensures { DoesOwn now rows.old.items rows.new.items event result }
{
    match event {
        CalEvent::Add(row) => add(rows, now, row),
        CalEvent::Delete(id) => delete(rows, now, id),
        CalEvent::Disable(id) => disable(rows, now, id),
        CalEvent::Enable(id) => enable(rows, now, id),
        CalEvent::Inner(_) => unreachable!(),
    }
}

/// Whether memory ran out at an event on the schedules.
fn is_memory(reply: &CalReply) -> bool
    ensures { result ≡ is_memory reply.now }
{
    match reply {
        CalReply::Memory => true,
        _ => false,
    }
}

/// Whether the answer says that memory ran out.
fn is_stopped(answer: &Answer) -> bool
    ensures { result ≡ not (has_memory answer.now) }
{
    match answer {
        Answer::Memory => true,
        _ => false,
    }
}

impl<A: Ask + Drop> Calendar<A> {
    /// A calendar without schedules over the asker. It does not allocate.
    pub fn new(alloc: Global, asker: A) -> Calendar<A>
        ensures { result ≡ record { asker = asker; rows = []; now = 0 } }
    {
        let Some(now) = Moment::of_ms(0) else {
            unreachable!()
        };
        Calendar {
            asker,
            rows: Vec::new(alloc),
            now,
        }
    }

    /// What the read shows: it is passed to the asker, and no turn is run. The only error is out of memory.
    pub fn look(&mut self, alloc: Global, read: &Read) -> Result<Reply, NoMemory>
        ensures asked { A.exchanged self.old.asker (Looked read.now result) self.new.asker }
        ensures rows { self.new.rows ≡ self.old.rows }
        ensures now { self.new.now ≡ self.old.now }
    {
        self.asker.look(alloc, read)
    }

    /// The asker and the schedules, in order of adding. It does not allocate.
    pub fn close(self) -> (A, List<ScheduleRow>)
        ensures asker { result.0 ≡ self.asker }
        ensures rows { result.1 ≡ self.rows }
    {
        let Calendar { asker, rows, .. } = self;
        (asker, List::of_vec(rows))
    }

    /// Runs the turns of the schedules at this moment. Returns the calls that they made, and whether all turns were run.
    fn run_turns(&mut self, alloc: Global, now: Moment) -> (List<Fire>, bool)
        ensures { TurnsFollow A.exchanged now self.old.rows self.old.asker self.new result.0 result.1 }
    {
        self.now = now;
        let mut fires = Vec::new(alloc);
        let whole = run_turns(
            &mut self.asker,
            alloc,
            now,
            self.rows.as_mut_slice(),
            &mut fires,
        );
        (List::of_vec(fires), whole)
    }

    /// Makes an event on the schedules, and then runs the turns.
    fn call_own(&mut self, alloc: Global, now: Moment, event: CalEvent) -> CalAnswer
        requires { IsOwn event }
        ensures { AnswersEvent A.exchanged self.old self.new now event result.first result.fires result.whole }
    {
        let first = do_own(&mut self.rows, now, event);
        if is_memory(&first) {
            return CalAnswer {
                first,
                fires: List::empty(alloc),
                whole: false,
            };
        }
        let (fires, whole) = self.run_turns(alloc, now);
        CalAnswer {
            first,
            fires,
            whole,
        }
    }

    /// Makes the asker's event, and then runs the turns.
    fn call_asker(&mut self, alloc: Global, now: Moment, event: Event) -> CalAnswer
        ensures { AnswersEvent A.exchanged self.old self.new now (Inner event) result.first result.fires result.whole }
    {
        let answer = self.asker.ask(alloc, now, event);
        if is_stopped(&answer) {
            self.now = now;
            return CalAnswer {
                first: CalReply::Asked(answer),
                fires: List::empty(alloc),
                whole: false,
            };
        }
        let (fires, whole) = self.run_turns(alloc, now);
        CalAnswer {
            first: CalReply::Asked(answer),
            fires,
            whole,
        }
    }

    /// Makes a call: the event, and then the turns of the schedules, in order of adding. The moment of all of them is the greatest one that
    /// was given so far; `moment` is in milliseconds since 1970.
    ///
    /// In its turn a schedule first repeats the requests that remain for its last job. Then, if it is active and none remains, it fires if an
    /// occurrence is due that is after the last one it fired for, if the moment is within the window and before its end, and if its previous
    /// job is completed or not there: it adds the next job, then its tasks, and then the change that lets the job end. It is completed once it
    /// will never fire again.
    ///
    /// The errors are in the answer: `CalReply::Refused` if an event on the schedules is refused, and `whole` is false if memory ran out. The
    /// call stops there, and the schedules are as the exchanges so far left them.
    pub fn call(&mut self, alloc: Global, moment: Moment, event: CalEvent) -> CalAnswer
        ensures { AnswersCal A.exchanged self.old self.new moment event result }
    {
        let now = later(self.now, moment);
        match event {
            CalEvent::Inner(event) => self.call_asker(alloc, now, event),
            event => self.call_own(alloc, now, event),
        }
    }
}
