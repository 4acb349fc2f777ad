//! The command `drill`.
ghost use Rattle.std.specs.Prelude.{◌≡◌, ◌≤◌, ◌<◌, ◌+◌, None, length, IfOk, IfSome, IfNone, OnOk, OnErr, if◌then◌else◌};
ghost use Rattle.bt_base.specs.Causes.{Rose};
ghost use Rattle.batch_desk.specs.Answers.{IsInOrder, HasSameOpening, Begins};
ghost use Rattle.batch_cli.specs.Drill.{asks};
ghost use Rattle.batch_cli.specs.Drilling.{calls_left, SettledCall, StopsAt, Steps, StopsStep, DrillWhole, DrillPart, DeskDrilled};
ghost use Rattle.batch_cli.specs.Headline.{RanDrill, WritesNothing};

mod draw;
pub mod limits;
mod request;
pub mod stage;
mod summary;

use crate::call::ran_out;
use crate::drill::limits::{DRILL_JOURNAL_LIMIT, DRILL_SEATS};
use crate::drill::stage::{Call, Stage};
use crate::drill::summary::write_summary;
use crate::status::Status;
use crate::stopped::Stopped;
use batch_desk::Desk;
use batch_keeper::{KeepError, Keeper};
use bt_base::NoMemory;
use byte_streams::Sink;
use cli_words::DRILL_LIMIT;
use std::alloc::Global;

/// Makes a call. `NoMemory` comes if memory runs out in the call or in its due steps.
fn make_call<K: Keeper + Drop>(
    alloc: Global,
    desk: &mut Desk<K>,
    call: Call,
) -> Result<(), NoMemory>
    requires { length desk.old.entries < desk.old.limit }
    ensures ok { OnOk result (SettledCall K.faults desk.old desk.new call) }
    ensures err { OnErr result (StopsAt K.faults desk.old desk.new call) }
    ensures same { HasSameOpening desk.old desk.new }
    ensures in_order { IsInOrder K.told K.faults desk.new }
    ensures later { K.faults desk.old.keeper ≤ K.faults desk.new.keeper }
{
    let (moment, event) = call;
    let answer = desk.call(alloc, moment, event);
    let ends = ran_out(&answer);
    drop(answer);
    if ends { Err(NoMemory) } else { Ok(()) }
}

/// Makes the next call of a drill. Returns the stage after it; None if the drill is at its end.
fn make_next<K: Keeper + Drop>(
    alloc: Global,
    desk: &mut Desk<K>,
    stage: Stage,
) -> Result<Option<Stage>, NoMemory>
    requires in_order { IsInOrder K.told K.faults desk.old }
    requires room { length desk.old.entries + calls_left stage ≤ desk.old.limit }
    ensures next { IfOk result (λ after. IfSome after (Steps K.faults desk.old desk.new stage)) }
    ensures end { IfOk result (λ after. IfNone after ((asks stage desk.old.state ≡ None) × (desk.new ≡ desk.old))) }
    ensures err { OnErr result (StopsStep K.faults desk.old desk.new stage) }
    ensures same { HasSameOpening desk.old desk.new }
    ensures in_order { IsInOrder K.told K.faults desk.new }
    ensures later { K.faults desk.old.keeper ≤ K.faults desk.new.keeper }
{
    match stage.next(alloc, desk)? {
        None => Ok(None),
        Some((call, next)) => {
            make_call(alloc, desk, call)?;
            Ok(Some(next))
        }
    }
}

/// Makes all calls of a drill of this number of tasks.
fn make_calls<K: Keeper + Drop>(
    alloc: Global,
    desk: &mut Desk<K>,
    count: u32,
) -> Result<(), NoMemory>
    requires in_order { IsInOrder K.told K.faults desk.old }
    requires begins { Begins desk.old desk.old.seats desk.old.limit }
    requires room { calls_left (Stage.AddingPool count) ≤ desk.old.limit }
    ensures ok { OnOk result (DrillWhole K.faults desk.old desk.new count) }
    ensures err { OnErr result (DrillPart K.faults desk.old desk.new count) }
    ensures in_order { IsInOrder K.told K.faults desk.new }
    ensures later { K.faults desk.old.keeper ≤ K.faults desk.new.keeper }
{
    let mut stage = Stage::first(count);
    while let Some(next) = make_next(alloc, desk, stage)? {
        stage = next;
    }
    Ok(())
}

/// The status of a drill whose calls were all made.
fn drill_ending(has_faults: bool) -> Status
    ensures { result ≡ (if has_faults then Status.KeeperFault else Status.Done) }
{
    if has_faults {
        Status::KeeperFault
    } else {
        Status::Done
    }
}

/// Makes all calls of a drill of this number of tasks, and writes the summary.
fn run_desk<K: Keeper + Drop, W: Sink>(
    alloc: Global,
    desk: &mut Desk<K>,
    count: u32,
    sink: &mut W,
) -> Status
    requires in_order { IsInOrder K.told K.faults desk.old }
    requires begins { Begins desk.old desk.old.seats desk.old.limit }
    requires room { calls_left (Stage.AddingPool count) ≤ desk.old.limit }
    ensures ran { DeskDrilled K.faults desk.old desk.new count (W.taken sink.old) (W.taken sink.new) result }
    ensures unwritten { WritesNothing result → ⊥ }
    ensures in_order { IsInOrder K.told K.faults desk.new }
    ensures later { K.faults desk.old.keeper ≤ K.faults desk.new.keeper }
    ensures sink_fault { result ≡ Status.SinkFault → Rose (W.faults sink.old) (W.faults sink.new) }
    ensures keeper_fault { result ≡ Status.KeeperFault → Rose (K.faults desk.old.keeper) (K.faults desk.new.keeper) }
{
    match make_calls(alloc, desk, count) {
        Err(NoMemory) => Status::Memory,
        Ok(()) => match write_summary(alloc, count, desk.tables(), sink) {
            Err(Stopped::Memory) => Status::Memory,
            Err(Stopped::SinkFault) => Status::SinkFault,
            Ok(()) => drill_ending(desk.has_faults()),
        },
    }
}

/// Opens the tables that the keeper loads, makes the calls of a drill of `count` tasks, 1 to 100,000, writes its summary, and
/// returns the keeper.
pub fn drill<W: Sink, K: Keeper + Drop>(
    alloc: Global,
    count: u32,
    sink: &mut W,
    keeper: K,
) -> (Status, K)
    requires { count ≤ DRILL_LIMIT }
    ensures ran { RanDrill count
        (record {
          taken_before = W.taken sink.old;
          taken_now = W.taken sink.new;
          loaded = K.told keeper;
          kept = K.told result.1;
          faults_before = K.faults keeper;
          faults_now = K.faults result.1;
        }) result.0 }
    ensures unwritten { WritesNothing result.0 → ⊥ }
    ensures later { K.faults keeper ≤ K.faults result.1 }
    ensures sink_fault { result.0 ≡ Status.SinkFault → Rose (W.faults sink.old) (W.faults sink.new) }
    ensures keeper_fault { result.0 ≡ Status.KeeperFault → Rose (K.faults keeper) (K.faults result.1) }
{
    match Desk::open(alloc, keeper, DRILL_SEATS, DRILL_JOURNAL_LIMIT) {
        Err((keeper, KeepError::Memory)) => (Status::Memory, keeper),
        Err((keeper, KeepError::Failed)) => (Status::KeeperFault, keeper),
        Ok(mut desk) => {
            let status = run_desk(alloc, &mut desk, count, sink);
            let (keeper, journal) = desk.close();
            drop(journal);
            (status, keeper)
        }
    }
}
