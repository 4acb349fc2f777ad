//! The top call.
ghost use Rattle.std.specs.Prelude.{◌≡◌, ◌≤◌, ◌⊎◌, nat_lt, if◌then◌else◌};
ghost use Rattle.bt_base.specs.Causes.{Rose};
ghost use Rattle.byte_streams.specs.Content.{HoldsOfInput};
ghost use Rattle.batch_desk.specs.Answers.{IsInOrder, Begins};
ghost use Rattle.cli_words.specs.Commands.{command_of};
ghost use Rattle.cli_words.specs.Ranges.{IsInRange};
ghost use Rattle.batch_cli.specs.Going.{DeskRan};
ghost use Rattle.batch_cli.specs.CalendarAdvance.{KeepsDesk};
ghost use Rattle.batch_cli.specs.CalendarGoing.{CalDeskRan};
ghost use Rattle.batch_cli.specs.CalendarRuns.{CalendarRan};
ghost use Rattle.batch_cli.specs.Headline.{AsksNoRun, CallsNoKeeper, IsService, NeedsNoTables, Ran, RanCommand, RanWith, WritesNothing};

use crate::calendar::do_calendar;
use crate::drill::drill;
use crate::export::export;
use crate::formula::formula;
use crate::replay::do_script;
use crate::status::Status;
use crate::stopped::Stopped;
use crate::tally::Tally;
use batch_desk::Desk;
use batch_keeper::{KeepError, Keeper};
use bt_base::{NoMemory, Word};
use byte_streams::{ReadFault, Sink, Source, read_all};
use cli_words::{Command, ReplayOptions, read_command};
use std::alloc::Global;

/// The bytes that a script may have.
const LIMIT: usize = 67_108_864;

/// The status of a script that was done to its end.
fn ending(has_faults: bool, limit: u32, tally: Tally) -> Status
    ensures { result ≡ (if has_faults then Status.KeeperFault
        else (if nat_lt limit tally.calls then Status.JournalFull
        else (if tally.refused then Status.UnreadableLines else Status.Done))) }
{
    if has_faults {
        Status::KeeperFault
    } else if tally.calls > u64::from(limit) {
        Status::JournalFull
    } else if tally.refused {
        Status::UnreadableLines
    } else {
        Status::Done
    }
}

/// Does the script that the source gives on a desk that has just been opened.
fn run_desk<R: Source, W: Sink, K: Keeper + Drop>(
    alloc: Global,
    desk: &mut Desk<K>,
    source: &mut R,
    sink: &mut W,
) -> Status
    requires in_order { IsInOrder K.told K.faults desk.old }
    requires begins { Begins desk.old desk.old.seats desk.old.limit }
    ensures ran { HoldsOfInput (R.left source.old) (λ script. DeskRan K.faults desk.old desk.new script (W.taken sink.old) (W.taken sink.new) result) }
    ensures unwritten { WritesNothing result → sink.new ≡ sink.old }
    ensures in_order { IsInOrder K.told K.faults desk.new }
    ensures later { K.faults desk.old.keeper ≤ K.faults desk.new.keeper }
    ensures no_usage { result ≡ Status.Usage → ⊥ }
    ensures source_fault { result ≡ Status.SourceFault → Rose (R.faults source.old) (R.faults source.new) }
    ensures sink_fault { result ≡ Status.SinkFault → Rose (W.faults sink.old) (W.faults sink.new) }
    ensures keeper_fault { result ≡ Status.KeeperFault → Rose (K.faults desk.old.keeper) (K.faults desk.new.keeper) }
{
    match read_all(alloc, source, LIMIT) {
        Err(ReadFault::Memory) => Status::Memory,
        Err(ReadFault::Failed) => Status::SourceFault,
        Err(ReadFault::TooLong) => Status::ScriptTooLong,
        Ok(script) => match do_script(alloc, desk, script, sink) {
            Err(Stopped::Memory) => Status::Memory,
            Err(Stopped::SinkFault) => Status::SinkFault,
            Ok(tally) => ending(desk.has_faults(), desk.limit(), tally),
        },
    }
}

/// Opens the tables that the keeper loads, does the script that the source gives, and returns the keeper.
fn replay<R: Source, W: Sink, K: Keeper + Drop>(
    alloc: Global,
    options: ReplayOptions,
    source: &mut R,
    sink: &mut W,
    keeper: K,
) -> (Status, K)
    requires some { 1 ≤ options.seats }
    requires few { options.seats ≤ 32 }
    ensures ran { HoldsOfInput (R.left source.old) (λ script. RanWith options script
        (record {
          taken_before = W.taken sink.old;
          taken_now = W.taken sink.new;
          loaded = K.told keeper;
          kept = K.told result.1;
          faults_before = K.faults keeper;
          faults_now = K.faults result.1;
        }) result.0) }
    ensures unwritten { WritesNothing result.0 → sink.new ≡ sink.old }
    ensures later { K.faults keeper ≤ K.faults result.1 }
    ensures no_usage { result.0 ≡ Status.Usage → ⊥ }
    ensures source_fault { result.0 ≡ Status.SourceFault → Rose (R.faults source.old) (R.faults source.new) }
    ensures sink_fault { result.0 ≡ Status.SinkFault → Rose (W.faults sink.old) (W.faults sink.new) }
    ensures keeper_fault { result.0 ≡ Status.KeeperFault → Rose (K.faults keeper) (K.faults result.1) }
{
    match Desk::open(alloc, keeper, options.seats, options.limit) {
        Err((keeper, KeepError::Memory)) => (Status::Memory, keeper),
        Err((keeper, KeepError::Failed)) => (Status::KeeperFault, keeper),
        Ok(mut desk) => {
            let status = run_desk(alloc, &mut desk, source, sink);
            let (keeper, journal) = desk.close();
            drop(journal);
            (status, keeper)
        }
    }
}

/// Does the script that the source gives over a calendar of a desk that has just been opened. Returns the desk.
fn run_calendar<R: Source, W: Sink, K: Keeper + Drop>(
    alloc: Global,
    desk: Desk<K>,
    source: &mut R,
    sink: &mut W,
) -> (Status, Desk<K>)
    requires in_order { IsInOrder K.told K.faults desk }
    requires begins { Begins desk desk.seats desk.limit }
    ensures ran { HoldsOfInput (R.left source.old) (λ script. CalDeskRan K.faults desk result.1 script (W.taken sink.old) (W.taken sink.new) result.0) }
    ensures unwritten { WritesNothing result.0 → sink.new ≡ sink.old }
    ensures keeps { KeepsDesk K.told K.faults desk result.1 }
    ensures no_usage { result.0 ≡ Status.Usage → ⊥ }
    ensures source_fault { result.0 ≡ Status.SourceFault → Rose (R.faults source.old) (R.faults source.new) }
    ensures sink_fault { result.0 ≡ Status.SinkFault → Rose (W.faults sink.old) (W.faults sink.new) }
    ensures keeper_fault { result.0 ≡ Status.KeeperFault → Rose (K.faults desk.keeper) (K.faults result.1.keeper) }
{
    match read_all(alloc, source, LIMIT) {
        Err(ReadFault::Memory) => (Status::Memory, desk),
        Err(ReadFault::Failed) => (Status::SourceFault, desk),
        Err(ReadFault::TooLong) => (Status::ScriptTooLong, desk),
        Ok(script) => match do_calendar(alloc, desk, script, sink) {
            (Err(Stopped::Memory), desk) => (Status::Memory, desk),
            (Err(Stopped::SinkFault), desk) => (Status::SinkFault, desk),
            (Ok(tally), desk) => (ending(desk.has_faults(), desk.limit(), tally), desk),
        },
    }
}

/// Opens the tables that the keeper loads, does the script that the source gives over a calendar of the desk, and returns the keeper.
fn calendar<R: Source, W: Sink, K: Keeper + Drop>(
    alloc: Global,
    options: ReplayOptions,
    source: &mut R,
    sink: &mut W,
    keeper: K,
) -> (Status, K)
    requires some { 1 ≤ options.seats }
    requires few { options.seats ≤ 32 }
    ensures ran { HoldsOfInput (R.left source.old) (λ script. CalendarRan options script
        (record {
          taken_before = W.taken sink.old;
          taken_now = W.taken sink.new;
          loaded = K.told keeper;
          kept = K.told result.1;
          faults_before = K.faults keeper;
          faults_now = K.faults result.1;
        }) result.0) }
    ensures unwritten { WritesNothing result.0 → sink.new ≡ sink.old }
    ensures later { K.faults keeper ≤ K.faults result.1 }
    ensures no_usage { result.0 ≡ Status.Usage → ⊥ }
    ensures source_fault { result.0 ≡ Status.SourceFault → Rose (R.faults source.old) (R.faults source.new) }
    ensures sink_fault { result.0 ≡ Status.SinkFault → Rose (W.faults sink.old) (W.faults sink.new) }
    ensures keeper_fault { result.0 ≡ Status.KeeperFault → Rose (K.faults keeper) (K.faults result.1) }
{
    match Desk::open(alloc, keeper, options.seats, options.limit) {
        Err((keeper, KeepError::Memory)) => (Status::Memory, keeper),
        Err((keeper, KeepError::Failed)) => (Status::KeeperFault, keeper),
        Ok(desk) => {
            let (status, desk) = run_calendar(alloc, desk, source, sink);
            let (keeper, journal) = desk.close();
            drop(journal);
            (status, keeper)
        }
    }
}

/// Does a command whose options are in their ranges, and returns the keeper. `serve` is not done here.
fn do_command<R: Source, W: Sink, K: Keeper + Drop>(
    alloc: Global,
    command: Command,
    source: &mut R,
    sink: &mut W,
    keeper: K,
) -> (Status, K)
    requires { IsInRange command }
    ensures ran { RanCommand command (R.left source.old)
        (record {
          taken_before = W.taken sink.old;
          taken_now = W.taken sink.new;
          loaded = K.told keeper;
          kept = K.told result.1;
          faults_before = K.faults keeper;
          faults_now = K.faults result.1;
        }) result.0 }
    ensures unwritten { WritesNothing result.0 → sink.new ≡ sink.old }
    ensures unused { NeedsNoTables command → result.1 ≡ keeper }
    ensures usage { result.0 ≡ Status.Usage → IsService command }
    ensures service { IsService command → result.0 ≡ Status.Usage }
    ensures later { K.faults keeper ≤ K.faults result.1 }
    ensures source_fault { result.0 ≡ Status.SourceFault → Rose (R.faults source.old) (R.faults source.new) }
    ensures sink_fault { result.0 ≡ Status.SinkFault → Rose (W.faults sink.old) (W.faults sink.new) }
    ensures keeper_fault { result.0 ≡ Status.KeeperFault → Rose (K.faults keeper) (K.faults result.1) }
{
    match command {
        Command::Replay(options) => replay(alloc, options, source, sink, keeper),
        Command::Calendar(options) => calendar(alloc, options, source, sink, keeper),
        Command::Formula(options) => (formula(alloc, options, source, sink), keeper),
        Command::Export => export(alloc, sink, keeper),
        Command::Drill(count) => drill(alloc, count, sink, keeper),
        Command::Serve(_) => (Status::Usage, keeper),
    }
}

/// Does what the words say, and returns the keeper. `replay` with its options opens the tables that the keeper loads, reads a
/// script from the source to its end, makes the calls of its lines one by one, up to the journal's limit, and writes the output
/// of each line before it makes the next call; then the tables. `formula` with its options reads a formula from the source to
/// its end, evaluates it over no samples and no current values, and writes its results or its fault; it calls no keeper.
/// `calendar` does the same over a calendar: lines also add, delete, disable and enable job schedules, and after each line come the calls of
/// the schedules that are due, with their answers.
/// `export` writes the tables that the keeper loads, without opening them, and `drill` opens them and makes its calls, at most
/// 900,034, one by one; then it writes its summary. Both read no source. `serve` is not done here: its words give status 2, as do
/// words that are not a command, and nothing is written.
///
/// At each moment of the history of a script or of a drill the laws hold that stand at `Desk::call` of batch_desk: of slots, of
/// ready tasks, of runs that are taken for the present attempt, of numbers that are given once and endings that count once, of
/// retries within their limits, of jobs that end at rest, and of release runs that are made once (`laws` in `ran`).
///
/// If no count of faults can rise, as over objects that never fail, the last three clauses exclude the statuses of source, sink
/// and keeper, and by `counted` of the history no call of it was left undone and no due steps were stopped by a fault.
pub fn run_words<R: Source, W: Sink, K: Keeper + Drop>(
    alloc: Global,
    words: &[Word],
    source: &mut R,
    sink: &mut W,
    keeper: K,
) -> (Status, K)
    // There is a script or formula, which is what the source told if it told its bytes, and the written bytes, the status and the kept
    // tables are those of one legal history of its calls, or the bytes and the status those of its evaluation. `export` and `drill` read
    // none: what they leave follows from the loaded tables and the number of tasks.
    ensures ran { Ran (command_of words.now) (R.left source.old)
        (record {
          taken_before = W.taken sink.old;
          taken_now = W.taken sink.new;
          loaded = K.told keeper;
          kept = K.told result.1;
          faults_before = K.faults keeper;
          faults_now = K.faults result.1;
        }) result.0 }
    // Whatever source, sink and keeper tell: nothing is written with these statuses.
    ensures unwritten { WritesNothing result.0 → sink.new ≡ sink.old }
    // The keeper is not called if the words are not a command, or one that needs no tables.
    ensures unused { CallsNoKeeper (command_of words.now) → result.1 ≡ keeper }
    // Each status that names a fault has its cause. Reading the words may run out of memory.
    ensures usage { result.0 ≡ Status.Usage → AsksNoRun (command_of words.now) }
    ensures no_command { AsksNoRun (command_of words.now) → (result.0 ≡ Status.Usage) ⊎ (result.0 ≡ Status.Memory) }
    ensures later { K.faults keeper ≤ K.faults result.1 }
    ensures source_fault { result.0 ≡ Status.SourceFault → Rose (R.faults source.old) (R.faults source.new) }
    ensures sink_fault { result.0 ≡ Status.SinkFault → Rose (W.faults sink.old) (W.faults sink.new) }
    ensures keeper_fault { result.0 ≡ Status.KeeperFault → Rose (K.faults keeper) (K.faults result.1) }
{
    match read_command(alloc, words) {
        Err(NoMemory) => (Status::Memory, keeper),
        Ok(None) => (Status::Usage, keeper),
        Ok(Some(invocation)) => do_command(alloc, invocation.command, source, sink, keeper),
    }
}
