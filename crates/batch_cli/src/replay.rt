//! A whole script.
ghost use Rattle.std.specs.Prelude.{◌≡◌, ◌≤◌, [], IfOk, OnOk, OnErr, IsErrOf, length};
ghost use Rattle.std.specs.Str.Lines.{lines};
ghost use Rattle.bt_base.specs.Causes.{Rose};
ghost use Rattle.byte_streams.specs.Content.{Gains, GainsFront};
ghost use Rattle.batch_desk.specs.Answers.{IsInOrder, Begins};
ghost use Rattle.wire_texts.specs.Tables.{tables_text};
ghost use Rattle.batch_cli.specs.EndStatus.{script_limit};
ghost use Rattle.batch_cli.specs.Going.{Going, Whole, Part, CountsAll};
ghost use Rattle.batch_cli.specs.Shown.{memory_stops};

use crate::line::do_line;
use crate::stopped::Stopped;
use crate::tally::Tally;
use batch_desk::Desk;
use batch_keeper::Keeper;
use bt_rows::tables::Tables;
use byte_streams::{Sink, write_all};
use std::alloc::Global;
use wire_lines::split_line;
use wire_texts::write_tables;

/// Writes the tables text.
pub fn finish<W: Sink>(alloc: Global, tables: &Tables, sink: &mut W) -> Result<(), Stopped>
    ensures ok { OnOk result (Gains (W.taken sink.old) (W.taken sink.new) (tables_text tables.now.state)) }
    ensures err { OnErr result (GainsFront (W.taken sink.old) (W.taken sink.new) (tables_text tables.now.state)) }
    ensures later { W.faults sink.old ≤ W.faults sink.new }
    ensures fault { IsErrOf result Stopped.SinkFault → Rose (W.faults sink.old) (W.faults sink.new) }
{
    let text = write_tables(alloc, tables)?;
    write_all(sink, text.as_str().as_bytes())?;
    Ok(())
}

/// Does the lines of a script. Returns what they ask.
fn do_lines<K: Keeper + Drop, W: Sink>(
    alloc: Global,
    desk: &mut Desk<K>,
    script: &[u8],
    sink: &mut W,
) -> Result<Tally, Stopped>
    requires few { length script.now ≤ script_limit }
    requires in_order { IsInOrder K.told K.faults desk.old }
    requires begins { Begins desk.old desk.old.seats desk.old.limit }
    ensures ok { OnOk result (Going K.faults desk.old desk.new (lines script.now) [] 1 (W.taken sink.old) (W.taken sink.new)) }
    ensures err { OnErr result (Part K.faults desk.old desk.new (lines script.now) (W.taken sink.old) (W.taken sink.new)) }
    ensures settled { IsErrOf result Stopped.SinkFault → memory_stops desk.new.entries ≡ 0 }
    ensures counts { IfOk result (CountsAll (lines script.now)) }
    ensures in_order { IsInOrder K.told K.faults desk.new }
    ensures keeper_later { K.faults desk.old.keeper ≤ K.faults desk.new.keeper }
    ensures later { W.faults sink.old ≤ W.faults sink.new }
    ensures fault { IsErrOf result Stopped.SinkFault → Rose (W.faults sink.old) (W.faults sink.new) }
{
    let mut tally = Tally {
        calls: 0,
        refused: false,
    };
    let mut n = 1;
    let mut rest = script;
    while let Some((line, more)) = split_line(rest) {
        let asked = do_line(alloc, desk, n, line, sink)?;
        tally.calls += asked.calls;
        tally.refused |= asked.refused;
        rest = more;
        n += 1;
    }
    Ok(tally)
}

/// Does a script to its end. Returns what its lines ask.
pub fn do_script<K: Keeper + Drop, W: Sink>(
    alloc: Global,
    desk: &mut Desk<K>,
    script: Vec<u8>,
    sink: &mut W,
) -> Result<Tally, Stopped>
    requires few { length script.items ≤ script_limit }
    requires in_order { IsInOrder K.told K.faults desk.old }
    requires begins { Begins desk.old desk.old.seats desk.old.limit }
    ensures ok { OnOk result (Whole K.faults desk.old desk.new (lines script.items) (W.taken sink.old) (W.taken sink.new)) }
    ensures err { OnErr result (Part K.faults desk.old desk.new (lines script.items) (W.taken sink.old) (W.taken sink.new)) }
    ensures settled { IsErrOf result Stopped.SinkFault → memory_stops desk.new.entries ≡ 0 }
    ensures counts { IfOk result (CountsAll (lines script.items)) }
    ensures in_order { IsInOrder K.told K.faults desk.new }
    ensures keeper_later { K.faults desk.old.keeper ≤ K.faults desk.new.keeper }
    ensures fault { IsErrOf result Stopped.SinkFault → Rose (W.faults sink.old) (W.faults sink.new) }
{
    let tally = do_lines(alloc, desk, &script, sink)?;
    // The text of the tables takes memory, so that of the script is freed first.
    drop(script);
    finish(alloc, desk.tables(), sink)?;
    Ok(tally)
}
