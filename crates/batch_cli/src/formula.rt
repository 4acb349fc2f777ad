//! The command `formula`, as one of the program's.
ghost use Rattle.std.specs.Prelude.{◌≡◌, Some};
ghost use Rattle.bt_base.specs.Causes.{Rose};
ghost use Rattle.byte_streams.specs.Content.{HoldsOfInput};
ghost use Rattle.batch_cli.specs.Headline.{RanFormula, WritesNothing, end_of};

use crate::status::Status;
use byte_streams::{Sink, Source};
use cli_formula::{End, run_formula};
use cli_words::FormulaOptions;
use std::alloc::Global;

/// The status of a formula that ended so.
fn status_at(end: End) -> Status
    ensures { end_of result ≡ Some end }
{
    match end {
        End::Done => Status::Done,
        End::Fault(position) => Status::FormulaError(position),
        End::TooLong => Status::ScriptTooLong,
        End::SourceFault => Status::SourceFault,
        End::SinkFault => Status::SinkFault,
        End::Memory => Status::Memory,
    }
}

/// Evaluates the formula that the source gives, and writes its results or its fault.
pub fn formula<R: Source, W: Sink>(
    alloc: Global,
    options: FormulaOptions,
    source: &mut R,
    sink: &mut W,
) -> Status
    ensures ran { HoldsOfInput (R.left source.old) (λ formula. RanFormula options formula (W.taken sink.old) (W.taken sink.new) (end_of result)) }
    ensures unwritten { WritesNothing result → sink.new ≡ sink.old }
    ensures no_usage { result ≡ Status.Usage → ⊥ }
    ensures no_keeper_fault { result ≡ Status.KeeperFault → ⊥ }
    ensures source_fault { result ≡ Status.SourceFault → Rose (R.faults source.old) (R.faults source.new) }
    ensures sink_fault { result ≡ Status.SinkFault → Rose (W.faults sink.old) (W.faults sink.new) }
{
    status_at(run_formula(alloc, options, source, sink))
}
