//! A script over a calendar of a desk: as `replay`, with job schedules that make calls of their own.
ghost use Rattle.std.specs.Prelude.{◌≡◌, ◌≤◌, true, IfOk, OnOk, OnErr, IsErrOf, Ok, Err, length, string_bytes};
ghost use Rattle.std.specs.Str.Lines.{lines};
ghost use Rattle.bt_base.specs.Causes.{Rose};
ghost use Rattle.byte_streams.specs.Content.{Gains, GainsFront};
ghost use Rattle.batch_desk.specs.Answers.{IsInOrder, Begins};
ghost use Rattle.wire_texts.specs.Lines.{numbered};
ghost use Rattle.wire_texts.specs.Refusals.{refusal_text};
ghost use Rattle.batch_cli.specs.EndStatus.{script_limit};
ghost use Rattle.batch_cli.specs.Shown.{look_text, memory_stops};
ghost use Rattle.batch_cli.specs.CalendarAdvance.{CalDid, CalHalts, CalShows, HaltsCalCall, KeepsDesk};
ghost use Rattle.batch_cli.specs.CalendarGoing.{CalPart, CalWhole, CountsCalls, IsNew, LinesDone};
ghost use Rattle.schedule_lines.specs.Lines.{cal_line_of};
ghost use Rattle.schedule_lines.specs.declared.line.CalLine.TheVariants.{Call, Look};

use crate::cal_answer::{Output, show_output};
use crate::call::{push_reply, show_refusal};
use crate::replay::finish;
use crate::stopped::Stopped;
use crate::tally::Tally;
use batch_desk::Desk;
use batch_keeper::Keeper;
use batch_schedule::Calendar;
use bt_base::{Fail, Moment, NoMemory};
use bt_rows::refusal::Refusal;
use byte_streams::{Sink, write_all};
use schedule_lines::{CalLine, read_cal_line};
use schedule_rows::CalEvent;
use std::alloc::Global;
use table_reads::Read;
use wire_lines::split_line;

/// Makes a call, and returns its output. `NoMemory` comes if memory runs out in the call or for these lines.
fn make_call<K: Keeper + Drop>(
    alloc: Global,
    calendar: &mut Calendar<Desk<K>>,
    n: u64,
    moment: Moment,
    event: CalEvent,
) -> Result<Output, NoMemory>
    requires { IsInOrder K.told K.faults calendar.old.asker }
    ensures ok { IfOk result (λ output. CalShows K.faults calendar.old calendar.new n moment event (string_bytes output.text) output.calls) }
    ensures err { OnErr result (HaltsCalCall K.faults calendar.old calendar.new n moment event) }
    ensures keeps { KeepsDesk K.told K.faults calendar.old.asker calendar.new.asker }
{
    let answer = calendar.call(alloc, moment, event);
    let shown = show_output(alloc, n, &answer);
    drop(answer);
    shown
}

/// Makes a call, and writes its output. Returns the number of calls of the desk.
fn do_call<K: Keeper + Drop, W: Sink>(
    alloc: Global,
    calendar: &mut Calendar<Desk<K>>,
    n: u64,
    moment: Moment,
    event: CalEvent,
    sink: &mut W,
) -> Result<Tally, Stopped>
    requires { IsInOrder K.told K.faults calendar.old.asker }
    ensures ok { IfOk result (CalDid K.faults calendar.old calendar.new n (Ok (Call moment event)) (W.taken sink.old) (W.taken sink.new)) }
    ensures err { OnErr result (CalHalts K.faults calendar.old calendar.new n (Ok (Call moment event)) (W.taken sink.old) (W.taken sink.new)) }
    ensures settled { IsErrOf result Stopped.SinkFault → memory_stops calendar.new.asker.entries ≡ memory_stops calendar.old.asker.entries }
    ensures keeps { KeepsDesk K.told K.faults calendar.old.asker calendar.new.asker }
    ensures later { W.faults sink.old ≤ W.faults sink.new }
    ensures fault { IsErrOf result Stopped.SinkFault → Rose (W.faults sink.old) (W.faults sink.new) }
{
    let output = make_call(alloc, calendar, n, moment, event)?;
    write_all(sink, output.text.as_bytes())?;
    Ok(Tally {
        calls: output.calls,
        refused: false,
    })
}

/// The line that shows what a read shows. It fails only when out of memory.
fn show_read<K: Keeper + Drop>(
    alloc: Global,
    calendar: &mut Calendar<Desk<K>>,
    n: u64,
    read: &Read,
) -> Result<String, NoMemory>
    ensures text { IfOk result (λ text. string_bytes text ≡ look_text n calendar.old.asker.state read.now) }
    ensures asker { calendar.new.asker ≡ calendar.old.asker }
    ensures rows { calendar.new.rows ≡ calendar.old.rows }
    ensures now { calendar.new.now ≡ calendar.old.now }
{
    let mut out = String::new(alloc);
    let reply = calendar.look(alloc, read)?;
    let pushed = push_reply(alloc, &mut out, n, &reply);
    drop(reply);
    pushed?;
    Ok(out)
}

/// Writes what a read shows.
fn do_look<K: Keeper + Drop, W: Sink>(
    alloc: Global,
    calendar: &mut Calendar<Desk<K>>,
    n: u64,
    read: &Read,
    sink: &mut W,
) -> Result<Tally, Stopped>
    requires { IsInOrder K.told K.faults calendar.old.asker }
    ensures ok { IfOk result (CalDid K.faults calendar.old calendar.new n (Ok (Look read.now)) (W.taken sink.old) (W.taken sink.new)) }
    ensures err { OnErr result (CalHalts K.faults calendar.old calendar.new n (Ok (Look read.now)) (W.taken sink.old) (W.taken sink.new)) }
    ensures settled { IsErrOf result Stopped.SinkFault → memory_stops calendar.new.asker.entries ≡ memory_stops calendar.old.asker.entries }
    ensures keeps { KeepsDesk K.told K.faults calendar.old.asker calendar.new.asker }
    ensures later { W.faults sink.old ≤ W.faults sink.new }
    ensures fault { IsErrOf result Stopped.SinkFault → Rose (W.faults sink.old) (W.faults sink.new) }
{
    let text = show_read(alloc, calendar, n, read)?;
    write_all(sink, text.as_bytes())?;
    Ok(Tally {
        calls: 0,
        refused: false,
    })
}

/// Writes the answer to a line that is not a valid request.
fn do_refusal<W: Sink>(
    alloc: Global,
    n: u64,
    refusal: Refusal,
    sink: &mut W,
) -> Result<Tally, Stopped>
    ensures ok { OnOk result (Gains (W.taken sink.old) (W.taken sink.new) (numbered n (refusal_text refusal))) }
    ensures err { OnErr result (GainsFront (W.taken sink.old) (W.taken sink.new) (numbered n (refusal_text refusal))) }
    ensures tally { IfOk result (λ tally. tally ≡ record { calls = 0; refused = true }) }
    ensures later { W.faults sink.old ≤ W.faults sink.new }
    ensures fault { IsErrOf result Stopped.SinkFault → Rose (W.faults sink.old) (W.faults sink.new) }
{
    let text = show_refusal(alloc, n, refusal)?;
    write_all(sink, text.as_bytes())?;
    Ok(Tally {
        calls: 0,
        refused: true,
    })
}

/// Does what a line asks, and writes its output. Returns what the line asks.
fn do_request<K: Keeper + Drop, W: Sink>(
    alloc: Global,
    calendar: &mut Calendar<Desk<K>>,
    n: u64,
    request: CalLine,
    sink: &mut W,
) -> Result<Tally, Stopped>
    requires { IsInOrder K.told K.faults calendar.old.asker }
    ensures ok { IfOk result (CalDid K.faults calendar.old calendar.new n (Ok request) (W.taken sink.old) (W.taken sink.new)) }
    ensures err { OnErr result (CalHalts K.faults calendar.old calendar.new n (Ok request) (W.taken sink.old) (W.taken sink.new)) }
    ensures settled { IsErrOf result Stopped.SinkFault → memory_stops calendar.new.asker.entries ≡ memory_stops calendar.old.asker.entries }
    ensures keeps { KeepsDesk K.told K.faults calendar.old.asker calendar.new.asker }
    ensures later { W.faults sink.old ≤ W.faults sink.new }
    ensures fault { IsErrOf result Stopped.SinkFault → Rose (W.faults sink.old) (W.faults sink.new) }
{
    match request {
        CalLine::Skip => Ok(Tally {
            calls: 0,
            refused: false,
        }),
        CalLine::Call(moment, event) => do_call(alloc, calendar, n, moment, event, sink),
        CalLine::Look(read) => do_look(alloc, calendar, n, &read, sink),
    }
}

/// Does a line and writes its output. Returns what the line asks, with the calls of schedules.
fn do_line<K: Keeper + Drop, W: Sink>(
    alloc: Global,
    calendar: &mut Calendar<Desk<K>>,
    n: u64,
    line: &[u8],
    sink: &mut W,
) -> Result<Tally, Stopped>
    requires { IsInOrder K.told K.faults calendar.old.asker }
    ensures ok { IfOk result (CalDid K.faults calendar.old calendar.new n (cal_line_of line.now) (W.taken sink.old) (W.taken sink.new)) }
    ensures err { OnErr result (CalHalts K.faults calendar.old calendar.new n (cal_line_of line.now) (W.taken sink.old) (W.taken sink.new)) }
    ensures settled { IsErrOf result Stopped.SinkFault → memory_stops calendar.new.asker.entries ≡ memory_stops calendar.old.asker.entries }
    ensures keeps { KeepsDesk K.told K.faults calendar.old.asker calendar.new.asker }
    ensures later { W.faults sink.old ≤ W.faults sink.new }
    ensures fault { IsErrOf result Stopped.SinkFault → Rose (W.faults sink.old) (W.faults sink.new) }
{
    match read_cal_line(alloc, line) {
        Ok(request) => do_request(alloc, calendar, n, request, sink),
        Err(Fail::Why(refusal)) => do_refusal(alloc, n, refusal, sink),
        Err(Fail::Memory) => Err(Stopped::Memory),
    }
}

/// Does the lines of a script. Returns what they ask, with the calls of schedules.
fn do_lines<K: Keeper + Drop, W: Sink>(
    alloc: Global,
    calendar: &mut Calendar<Desk<K>>,
    script: &[u8],
    sink: &mut W,
) -> Result<Tally, Stopped>
    requires few { length script.now ≤ script_limit }
    requires in_order { IsInOrder K.told K.faults calendar.old.asker }
    requires new { IsNew calendar.old }
    ensures ok { IfOk result (LinesDone K.faults calendar.old.asker calendar.new.asker (lines script.now) (W.taken sink.old) (W.taken sink.new)) }
    ensures err { OnErr result (CalPart K.faults calendar.old.asker calendar.new.asker (lines script.now) (W.taken sink.old) (W.taken sink.new)) }
    ensures settled { IsErrOf result Stopped.SinkFault → memory_stops calendar.new.asker.entries ≡ 0 }
    ensures keeps { KeepsDesk K.told K.faults calendar.old.asker calendar.new.asker }
    ensures later { W.faults sink.old ≤ W.faults sink.new }
    ensures fault { IsErrOf result Stopped.SinkFault → Rose (W.faults sink.old) (W.faults sink.new) }
{
    let mut tally = Tally {
        calls: 0,
        refused: false,
    };
    let mut n = 1;
    let mut rest = script;
    while let Some((line, more)) = split_line(rest) {
        let asked = do_line(alloc, calendar, n, line, sink)?;
        tally.calls = tally.calls.saturating_add(asked.calls);
        tally.refused |= asked.refused;
        rest = more;
        n += 1;
    }
    Ok(tally)
}

/// Does the lines of a script over a calendar of the desk. Returns what they ask, and the desk.
fn run_lines<K: Keeper + Drop, W: Sink>(
    alloc: Global,
    desk: Desk<K>,
    script: &[u8],
    sink: &mut W,
) -> (Result<Tally, Stopped>, Desk<K>)
    requires few { length script.now ≤ script_limit }
    requires in_order { IsInOrder K.told K.faults desk }
    requires begins { Begins desk desk.seats desk.limit }
    ensures ok { IfOk result.0 (LinesDone K.faults desk result.1 (lines script.now) (W.taken sink.old) (W.taken sink.new)) }
    ensures err { OnErr result.0 (CalPart K.faults desk result.1 (lines script.now) (W.taken sink.old) (W.taken sink.new)) }
    ensures settled { IsErrOf result.0 Stopped.SinkFault → memory_stops result.1.entries ≡ 0 }
    ensures keeps { KeepsDesk K.told K.faults desk result.1 }
    ensures later { W.faults sink.old ≤ W.faults sink.new }
    ensures fault { IsErrOf result.0 Stopped.SinkFault → Rose (W.faults sink.old) (W.faults sink.new) }
{
    let mut calendar = Calendar::new(alloc, desk);
    let done = do_lines(alloc, &mut calendar, script, sink);
    let (desk, schedules) = calendar.close();
    drop(schedules);
    (done, desk)
}

/// Does a script over a calendar of the desk to its end: the outputs of its lines, then the tables. Returns what its lines ask, and the desk.
pub fn do_calendar<K: Keeper + Drop, W: Sink>(
    alloc: Global,
    desk: Desk<K>,
    script: Vec<u8>,
    sink: &mut W,
) -> (Result<Tally, Stopped>, Desk<K>)
    requires few { length script.items ≤ script_limit }
    requires in_order { IsInOrder K.told K.faults desk }
    requires begins { Begins desk desk.seats desk.limit }
    ensures ok { OnOk result.0 (CalWhole K.faults desk result.1 (lines script.items) (W.taken sink.old) (W.taken sink.new)) }
    ensures err { OnErr result.0 (CalPart K.faults desk result.1 (lines script.items) (W.taken sink.old) (W.taken sink.new)) }
    ensures counts { IfOk result.0 (CountsCalls desk result.1 (lines script.items)) }
    ensures settled { IsErrOf result.0 Stopped.SinkFault → memory_stops result.1.entries ≡ 0 }
    ensures keeps { KeepsDesk K.told K.faults desk result.1 }
    ensures fault { IsErrOf result.0 Stopped.SinkFault → Rose (W.faults sink.old) (W.faults sink.new) }
{
    let (done, desk) = run_lines(alloc, desk, &script, sink);
    // The text of the tables takes memory, so that of the script is freed first.
    drop(script);
    match done {
        Err(stopped) => (Err(stopped), desk),
        Ok(tally) => match finish(alloc, desk.tables(), sink) {
            Err(stopped) => (Err(stopped), desk),
            Ok(()) => (Ok(tally), desk),
        },
    }
}
