//! A call, made and entered.
ghost use Rattle.std.specs.Prelude.{◌≡◌, ◌≤◌, ◌<◌};
ghost use Rattle.batch_desk.specs.Kept.{Tells};
ghost use Rattle.batch_desk.specs.History.{IsAskable, refusal_of};
ghost use Rattle.batch_desk.specs.Calls.{Finishes, IsFailed, IsCalled, IsCalledWithin};

use crate::answer::Answer;
use crate::entries::Entries;
use crate::entry::{Entry, Mark, Stop};
use crate::saved_machine::SavedMachine;
use batch_keeper::{KeepError, Keeper};
use bt_base::{List, Moment};
use bt_rows::due::Due;
use bt_rows::event::Event;
use bt_rows::refusal::Refusal;
use bt_rows::reply::Reply;
use std::alloc::Global;

/// The moment and the event's values are in their ranges, as their types say. It only tells the check this.
pub fn know_ranges(moment: Moment, event: &Event)
    ensures { IsAskable moment event.now }
{
    let _ = moment.ms();
    let _ = event.kind();
}

/// The refusal that the reply is, if it is one.
fn refusal_of(reply: &Reply) -> Option<Refusal>
    ensures { result ≡ refusal_of reply.now }
{
    match reply {
        Reply::Refused(refusal) => Some(*refusal),
        _ => None,
    }
}

/// Makes the due steps that follow an event with this reply, and enters the call.
fn finish<K: Keeper + Drop>(
    alloc: Global,
    saved: &mut SavedMachine<K>,
    entries: &mut Entries,
    moment: Moment,
    event: Event,
    reply: &Reply,
) -> (List<Due>, Stop)
    requires { 0 < entries.old.room }
    ensures finished { Finishes K.faults saved.old saved.new entries.old.items entries.new.items moment event reply.now result.0 result.1 }
    ensures seats { saved.new.seats ≡ saved.old.seats }
    ensures kept { Tells (K.told saved.new.keeper) saved.new.state }
    ensures later { K.faults saved.old.keeper ≤ K.faults saved.new.keeper }
{
    let (dues, stop) = saved.due_steps(alloc);
    entries.push(Entry {
        moment,
        event,
        mark: Mark::Done(refusal_of(reply)),
        dues: dues.as_slice().len() as u64,
        stop,
    });
    (dues, stop)
}

/// Enters a call that was left undone because of a keeper fault, and answers it. A call for which memory ran out has no entry.
fn enter_failed(entries: &mut Entries, moment: Moment, event: Event, error: KeepError) -> Answer
    requires { 0 < entries.old.room }
    ensures { IsFailed error result moment event entries.old.items entries.new.items }
{
    match error {
        KeepError::Memory => Answer::Memory,
        KeepError::Failed => {
            entries.push(Entry {
                moment,
                event,
                mark: Mark::KeeperFault,
                dues: 0,
                stop: Stop::KeeperFault,
            });
            Answer::KeeperFault
        }
    }
}

/// Makes a call for whose entry there is room: the event, and then due steps until no rule applies or until one can't be
/// made. Each is saved before it is made.
fn make_call<K: Keeper + Drop>(
    alloc: Global,
    saved: &mut SavedMachine<K>,
    entries: &mut Entries,
    moment: Moment,
    event: Event,
) -> Answer
    requires { 0 < entries.old.room }
    ensures called { IsCalled K.faults saved.old saved.new entries.old.items entries.new.items moment event result }
    ensures seats { saved.new.seats ≡ saved.old.seats }
    ensures kept { Tells (K.told saved.new.keeper) saved.new.state }
    ensures later { K.faults saved.old.keeper ≤ K.faults saved.new.keeper }
{
    match saved.event(alloc, moment, &event) {
        Ok(reply) => {
            let (dues, stop) = finish(alloc, saved, entries, moment, event, &reply);
            Answer::Done { reply, dues, stop }
        }
        Err(error) => enter_failed(entries, moment, event, error),
    }
}

/// Makes a call, if the journal has fewer entries than its limit and there is memory for one more.
#[tactic(auto, using(crate::proofs::Entering::called_within))]
pub fn call_within<K: Keeper + Drop>(
    alloc: Global,
    limit: u32,
    saved: &mut SavedMachine<K>,
    entries: &mut Entries,
    moment: Moment,
    event: Event,
) -> Answer
    requires { Tells (K.told saved.old.keeper) saved.old.state }
    ensures called { IsCalledWithin K.faults limit saved.old saved.new entries.old.items entries.new.items moment event result }
    ensures seats { saved.new.seats ≡ saved.old.seats }
    ensures kept { Tells (K.told saved.new.keeper) saved.new.state }
    ensures later { K.faults saved.old.keeper ≤ K.faults saved.new.keeper }
{
    if entries.len() >= limit as usize {
        drop(event);
        return Answer::JournalFull;
    }
    if entries.reserve().is_err() {
        drop(event);
        return Answer::Memory;
    }
    make_call(alloc, saved, entries, moment, event)
}
