//! Lines of a script, each done and answered before the next.
ghost use Rattle.std.specs.Prelude.{◌≡◌, ◌≤◌, Ok, Err, IfOk, OnOk, OnErr, IsErrOf, length};
ghost use Rattle.bt_base.specs.Causes.{Rose};
ghost use Rattle.byte_streams.specs.Content.{Gains, GainsFront};
ghost use Rattle.batch_desk.specs.Answers.{IsInOrder, HasSameOpening};
ghost use Rattle.wire_lines.specs.declared.line.LineRequest.TheVariants.{Call};
ghost use Rattle.wire_lines.specs.Lines.{line_of};
ghost use Rattle.wire_texts.specs.Lines.{numbered};
ghost use Rattle.wire_texts.specs.Refusals.{refusal_text};
ghost use Rattle.batch_cli.specs.Shown.{call_in, look_text, memory_stops};
ghost use Rattle.batch_cli.specs.Advance.{Did, Halts, Counts};

use crate::call::{show_call, show_look, show_refusal};
use crate::stopped::Stopped;
use crate::tally::Tally;
use batch_desk::Desk;
use batch_keeper::Keeper;
use bt_base::{Fail, Moment};
use bt_rows::event::Event;
use bt_rows::refusal::Refusal;
use byte_streams::{Sink, write_all};
use std::alloc::Global;
use table_reads::Read;
use wire_lines::{LineRequest, read_line};

/// Makes a call, and writes what it was answered.
fn do_call<K: Keeper + Drop, W: Sink>(
    alloc: Global,
    desk: &mut Desk<K>,
    n: u64,
    moment: Moment,
    event: Event,
    sink: &mut W,
) -> Result<(), Stopped>
    ensures ok { OnOk result (Did K.faults desk.old desk.new n (Ok (Call moment event)) (W.taken sink.old) (W.taken sink.new)) }
    ensures err { OnErr result (Halts K.faults desk.old desk.new n (Ok (Call moment event)) (W.taken sink.old) (W.taken sink.new)) }
    ensures settled { IsErrOf result Stopped.SinkFault → memory_stops desk.new.entries ≡ memory_stops desk.old.entries }
    ensures same { HasSameOpening desk.old desk.new }
    ensures in_order { IsInOrder K.told K.faults desk.new }
    ensures keeper_later { K.faults desk.old.keeper ≤ K.faults desk.new.keeper }
    ensures later { W.faults sink.old ≤ W.faults sink.new }
    ensures fault { IsErrOf result Stopped.SinkFault → Rose (W.faults sink.old) (W.faults sink.new) }
{
    let text = show_call(alloc, desk, n, moment, event)?;
    write_all(sink, text.as_bytes())?;
    Ok(())
}

/// Writes what a read shows of the desk's tables.
fn do_look<K: Keeper + Drop, W: Sink>(
    alloc: Global,
    desk: &Desk<K>,
    n: u64,
    read: &Read,
    sink: &mut W,
) -> Result<(), Stopped>
    ensures ok { OnOk result (Gains (W.taken sink.old) (W.taken sink.new) (look_text n desk.now.state read.now)) }
    ensures err { OnErr result (GainsFront (W.taken sink.old) (W.taken sink.new) (look_text n desk.now.state read.now)) }
    ensures later { W.faults sink.old ≤ W.faults sink.new }
    ensures fault { IsErrOf result Stopped.SinkFault → Rose (W.faults sink.old) (W.faults sink.new) }
{
    let text = show_look(alloc, desk, n, read)?;
    write_all(sink, text.as_bytes())?;
    Ok(())
}

/// Writes the answer to a line that is not a valid request.
fn do_refusal<W: Sink>(alloc: Global, n: u64, refusal: Refusal, sink: &mut W) -> Result<(), Stopped>
    ensures ok { OnOk result (Gains (W.taken sink.old) (W.taken sink.new) (numbered n (refusal_text refusal))) }
    ensures err { OnErr result (GainsFront (W.taken sink.old) (W.taken sink.new) (numbered n (refusal_text refusal))) }
    ensures later { W.faults sink.old ≤ W.faults sink.new }
    ensures fault { IsErrOf result Stopped.SinkFault → Rose (W.faults sink.old) (W.faults sink.new) }
{
    let text = show_refusal(alloc, n, refusal)?;
    write_all(sink, text.as_bytes())?;
    Ok(())
}

/// Does what a line asks, and writes its output. Returns how many calls the line asks.
fn do_request<K: Keeper + Drop, W: Sink>(
    alloc: Global,
    desk: &mut Desk<K>,
    n: u64,
    request: LineRequest,
    sink: &mut W,
) -> Result<u64, Stopped>
    requires { IsInOrder K.told K.faults desk.old }
    ensures ok { OnOk result (Did K.faults desk.old desk.new n (Ok request) (W.taken sink.old) (W.taken sink.new)) }
    ensures err { OnErr result (Halts K.faults desk.old desk.new n (Ok request) (W.taken sink.old) (W.taken sink.new)) }
    ensures calls { IfOk result (λ calls. calls ≡ length (call_in (Ok request))) }
    ensures settled { IsErrOf result Stopped.SinkFault → memory_stops desk.new.entries ≡ memory_stops desk.old.entries }
    ensures same { HasSameOpening desk.old desk.new }
    ensures in_order { IsInOrder K.told K.faults desk.new }
    ensures keeper_later { K.faults desk.old.keeper ≤ K.faults desk.new.keeper }
    ensures later { W.faults sink.old ≤ W.faults sink.new }
    ensures fault { IsErrOf result Stopped.SinkFault → Rose (W.faults sink.old) (W.faults sink.new) }
{
    match request {
        LineRequest::Skip => Ok(0),
        LineRequest::Call(moment, event) => {
            do_call(alloc, desk, n, moment, event, sink)?;
            Ok(1)
        }
        LineRequest::Look(read) => {
            do_look(alloc, desk, n, &read, sink)?;
            Ok(0)
        }
    }
}

/// Does a line and writes its output. Returns what the line asks.
pub fn do_line<K: Keeper + Drop, W: Sink>(
    alloc: Global,
    desk: &mut Desk<K>,
    n: u64,
    line: &[u8],
    sink: &mut W,
) -> Result<Tally, Stopped>
    requires { IsInOrder K.told K.faults desk.old }
    ensures ok { OnOk result (Did K.faults desk.old desk.new n (line_of line.now) (W.taken sink.old) (W.taken sink.new)) }
    ensures err { OnErr result (Halts K.faults desk.old desk.new n (line_of line.now) (W.taken sink.old) (W.taken sink.new)) }
    ensures counts { IfOk result (Counts (line_of line.now)) }
    ensures settled { IsErrOf result Stopped.SinkFault → memory_stops desk.new.entries ≡ memory_stops desk.old.entries }
    ensures same { HasSameOpening desk.old desk.new }
    ensures in_order { IsInOrder K.told K.faults desk.new }
    ensures keeper_later { K.faults desk.old.keeper ≤ K.faults desk.new.keeper }
    ensures later { W.faults sink.old ≤ W.faults sink.new }
    ensures fault { IsErrOf result Stopped.SinkFault → Rose (W.faults sink.old) (W.faults sink.new) }
{
    match read_line(alloc, line) {
        Ok(request) => {
            let calls = do_request(alloc, desk, n, request, sink)?;
            Ok(Tally {
                calls,
                refused: false,
            })
        }
        Err(Fail::Why(refusal)) => {
            do_refusal(alloc, n, refusal, sink)?;
            Ok(Tally {
                calls: 0,
                refused: true,
            })
        }
        Err(Fail::Memory) => Err(Stopped::Memory),
    }
}
