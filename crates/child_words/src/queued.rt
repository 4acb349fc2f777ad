//! The words that the child program of a run is started with.
ghost use Rattle.std.specs.Prelude.{◌≡◌, ◌<◌, length, IfOk};
ghost use Rattle.child_words.specs.Queued.{line_words, filled_words, with_words};

use crate::filling::fill;
use crate::run_names::names_of;
use crate::startable::StartableRun;
use bt_base::{CommandLine, Fail, List, NoMemory, Word, words};
use bt_rows::reply::QueuedRun;
use bt_rows::run::RunRow;
use bt_rows::tables::Tables;
use child_runs::RunIdentity;
use std::alloc::Global;

/// The words of the command line: at least one.
fn line_words(alloc: Global, line: &CommandLine) -> Result<Vec<Word>, NoMemory>
    ensures words { IfOk result (λ words. words.items ≡ line_words line.now) }
    ensures some { IfOk result (λ words. 0 < length words.items) }
{
    line.known();
    match words(alloc, line.as_str()) {
        Ok(words) => Ok(words),
        Err(Fail::Memory) => Err(NoMemory),
        Err(Fail::Why(_)) => unreachable!(),
    }
}

/// The words that the run's child program is started with: at least one.
#[tactic(auto, unfolding(crate::specs::Queued::filled_words))]
fn filled_words(alloc: Global, tables: &Tables, run: &RunRow) -> Result<List<Word>, NoMemory>
    ensures words { IfOk result (λ words. words ≡ filled_words tables.now.state run.now) }
    ensures some { IfOk result (λ words. 0 < length words) }
{
    let words = line_words(alloc, &run.line)?;
    let names = names_of(alloc, tables, run)?;
    let filled = fill(alloc, words.as_slice(), &names);
    drop(names);
    Ok(List::of_vec(filled?))
}

/// The run's number with the words that its child program is started with: the words of its command line, in which the texts of the
/// run stand for names. The first of them names the program. What the run is and belongs to comes with them, as its row spells it. It
/// fails only when out of memory.
pub fn with_words(alloc: Global, tables: &Tables, run: &RunRow) -> Result<StartableRun, NoMemory>
    ensures run { IfOk result (λ queued. queued ≡ with_words tables.now.state run.now) }
    ensures program { IfOk result (λ queued. 0 < length queued.words) }
{
    let identity = RunIdentity::of_run(run)?;
    let queued = QueuedRun {
        number: run.number,
        words: filled_words(alloc, tables, run)?,
    };
    Ok(StartableRun::new(queued, identity))
}
