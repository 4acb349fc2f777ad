//! The command `formula`.
ghost use Rattle.std.specs.Prelude.{◌≡◌};
ghost use Rattle.bt_base.specs.Causes.{Rose};
ghost use Rattle.byte_streams.specs.Content.{HoldsOfInput};
ghost use Rattle.cli_formula.specs.Showing.{FormulaRan, IsUnwritten};
ghost use Rattle.cli_formula.specs.Shown.{shown_of, Writes};

use crate::end::End;
use crate::position::position_of;
use crate::show::show;
use crate::shown::Shown;
use bt_base::NoMemory;
use byte_streams::{ReadFault, Sink, Source, read_all, write_all};
use cli_words::FormulaOptions;
use std::alloc::Global;

/// The greatest number of bytes of a formula (Azure Batch documentation of automatic scaling: a formula cannot exceed 8 KB).
pub const LIMIT: usize = 8_192;

/// Writes the results or the fault of these bytes.
fn write_shown<W: Sink>(bytes: &[u8], shown: &Shown, sink: &mut W) -> End
    ensures wrote { Writes bytes.now (W.taken sink.old) (W.taken sink.new) (shown_of shown.now) result }
    ensures sink_fault { result ≡ End.SinkFault → Rose (W.faults sink.old) (W.faults sink.new) }
{
    let (text, end) = match shown {
        Shown::Results(text) => (text, End::Done),
        Shown::Fault(text, place) => (text, End::Fault(position_of(bytes, *place))),
    };
    match write_all(sink, text.as_str().as_bytes()) {
        Ok(()) => end,
        Err(_) => End::SinkFault,
    }
}

/// Reads a formula of at most `LIMIT` bytes from the source to its end, evaluates it over metrics without samples and without current
/// values, and writes the results text, or `error`, the name of the first fault and its place; then LF. A place counts the text's
/// bytes from 0, and the end has its line and column. Bytes that are not UTF-8 are `BadCharacter` at the end of their longest prefix that is UTF-8.
pub fn run_formula<R: Source, W: Sink>(
    alloc: Global,
    options: FormulaOptions,
    source: &mut R,
    sink: &mut W,
) -> End
    ensures ran { HoldsOfInput (R.left source.old) (λ bytes. FormulaRan options.now options.dedicated bytes (W.taken sink.old) (W.taken sink.new) result) }
    ensures unwritten { IsUnwritten result → sink.new ≡ sink.old }
    ensures source_fault { result ≡ End.SourceFault → Rose (R.faults source.old) (R.faults source.new) }
    ensures sink_fault { result ≡ End.SinkFault → Rose (W.faults sink.old) (W.faults sink.new) }
{
    match read_all(alloc, source, LIMIT) {
        Err(ReadFault::Memory) => End::Memory,
        Err(ReadFault::Failed) => End::SourceFault,
        Err(ReadFault::TooLong) => End::TooLong,
        Ok(bytes) => match show(alloc, options, &bytes) {
            Err(NoMemory) => End::Memory,
            Ok(shown) => write_shown(&bytes, &shown, sink),
        },
    }
}
