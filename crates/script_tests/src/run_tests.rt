//! What runs give: the helpers of all tests, and the words of the command line. Expected texts are written by hand.
ghost use Rattle.std.specs.Prelude.{IfSome};
ghost use Rattle.batch_model.specs.WellFormed.{IsWellFormed};

use batch_cli::{Status, run_words};
use batch_keeper::{Keeper, MemoryKeeper};
use bt_base::{Text, Word};
use bt_rows::tables::Tables;
use byte_streams::{MemorySink, MemorySource};
use std::alloc::{AllocError, Global};
use std::test::Fail;
use wire_texts::write_tables;

/// A keeper of empty tables, of which the calls of these numbers fail.
fn keeper(alloc: Global, fails: &[u64]) -> Result<MemoryKeeper, AllocError> {
    let fails = Vec::from_slice(alloc, fails)?;
    Ok(MemoryKeeper::new(Tables::empty(alloc), fails))
}

fn words_of(alloc: Global, words: &[&str]) -> Result<Vec<Word>, AllocError> {
    let mut all = Vec::new(alloc);
    for word in words {
        let bytes = Vec::from_slice(alloc, word.as_bytes())?;
        all.push(Word::new(bytes))?;
    }
    Ok(all)
}

/// A run, and which calls of its objects fail.
#[derive(Clone, Copy)]
pub struct Run<'a> {
    /// The words of the command line.
    pub words: &'a [&'a str],
    /// The bytes of the source.
    pub input: &'a [u8],
    /// The numbers of the calls of the source that fail.
    pub source_fails: &'a [u64],
    /// The numbers of the calls of the sink that fail.
    pub sink_fails: &'a [u64],
    /// The numbers of the calls of the keeper that fail.
    pub keeper_fails: &'a [u64],
}

/// A run over objects that never fail.
pub fn sure<'a>(words: &'a [&'a str], input: &'a [u8]) -> Run<'a> {
    Run {
        words,
        input,
        source_fails: &[],
        sink_fails: &[],
        keeper_fails: &[],
    }
}

/// The words of a run, and its streams.
#[derive(Drop)]
pub struct Streams {
    words: Vec<Word>,
    source: MemorySource,
    sink: MemorySink,
}

/// Those of this run, before it.
pub fn streams_of(alloc: Global, run: Run) -> Result<Streams, AllocError> {
    let words = words_of(alloc, run.words)?;
    let bytes = Vec::from_slice(alloc, run.input)?;
    let source_fails = Vec::from_slice(alloc, run.source_fails)?;
    let sink_fails = Vec::from_slice(alloc, run.sink_fails)?;
    Ok(Streams {
        words,
        source: MemorySource::new(bytes, source_fails),
        sink: MemorySink::new(alloc, sink_fails),
    })
}

/// The status, the output and the keeper that comes back, of a run over these streams and this keeper. A keeper, which has tables, is let
/// go of by a call, not at an exit: the proof is a hundred times shorter.
pub fn run_with<K: Keeper + Drop>(
    alloc: Global,
    streams: Streams,
    keeper: K,
) -> Result<(Status, Vec<u8>, K), AllocError> {
    let Streams {
        words,
        mut source,
        mut sink,
    } = streams;
    let (status, keeper) = run_words(alloc, words.as_slice(), &mut source, &mut sink, keeper);
    match sink.into_bytes() {
        Some(output) => Ok((status, output, keeper)),
        None => {
            drop(keeper);
            Err(AllocError)
        }
    }
}

/// The same of a run over this keeper.
fn run_over(
    alloc: Global,
    run: Run,
    keeper: MemoryKeeper,
) -> Result<(Status, Vec<u8>, MemoryKeeper), AllocError> {
    match streams_of(alloc, run) {
        Ok(streams) => run_with(alloc, streams, keeper),
        Err(error) => {
            drop(keeper);
            Err(error)
        }
    }
}

/// The same, over a keeper of empty tables.
pub fn run_anew(alloc: Global, run: Run) -> Result<(Status, Vec<u8>, MemoryKeeper), AllocError> {
    run_over(alloc, run, keeper(alloc, run.keeper_fails)?)
}

/// Whether a run over a keeper of empty tables has this status and output.
pub fn gives(alloc: Global, run: Run, status: Status, output: &str) -> Result<bool, AllocError> {
    let (ended, written, keeper) = run_anew(alloc, run)?;
    drop(keeper);
    Ok(ended == status && written.as_slice() == output.as_bytes())
}

/// The tables that the keeper keeps. A load that is to fail is made once more.
fn kept<K: Keeper>(alloc: Global, keeper: &mut K) -> Option<Tables>
    ensures { IfSome result (λ tables. IsWellFormed tables.state) }
{
    match keeper.load(alloc) {
        Ok(tables) => Some(tables),
        Err(_) => keeper.load(alloc).ok(),
    }
}

/// A keeper of the same tables, of which the calls of these numbers fail.
fn with_faults(alloc: Global, mut keeper: MemoryKeeper, fails: Vec<u64>) -> Option<MemoryKeeper> {
    let tables = kept(alloc, &mut keeper);
    drop(keeper);
    Some(MemoryKeeper::new(tables?, fails))
}

/// What a run gave, and what its keeper keeps after it.
pub struct Outcome {
    /// The status.
    pub status: Status,
    /// What the sink took.
    pub output: Vec<u8>,
    /// The text of the tables that the keeper keeps.
    pub kept: Text,
}

impl Drop for Outcome {
    fn drop(self) {
        let Outcome {
            status: _status,
            output: _output,
            kept: _kept,
        } = self;
    }
}

impl Outcome {
    /// Whether the output ends with the tables that the keeper keeps.
    pub fn shows_kept(&self) -> bool {
        self.output.ends_with(self.kept.as_str().as_bytes())
    }
}

/// The text of the tables that the keeper keeps.
pub fn kept_text<K: Keeper + Drop>(alloc: Global, mut keeper: K) -> Option<Text> {
    let tables = kept(alloc, &mut keeper);
    drop(keeper);
    let tables = tables?;
    let text = write_tables(alloc, &tables).ok();
    drop(tables);
    text
}

/// What a run over a keeper of empty tables gave.
pub fn outcome_anew(alloc: Global, run: Run) -> Result<Outcome, AllocError> {
    let (status, output, keeper) = run_anew(alloc, run)?;
    let kept = kept_text(alloc, keeper).ok_or(AllocError)?;
    Ok(Outcome {
        status,
        output,
        kept,
    })
}

/// What a run gave over the tables that this script left.
pub fn outcome_after(alloc: Global, script: &str, run: Run) -> Result<Outcome, AllocError> {
    let fails = Vec::from_slice(alloc, run.keeper_fails)?;
    let (_status, _output, left) = run_anew(alloc, sure(&["replay"], script.as_bytes()))?;
    let keeper = with_faults(alloc, left, fails).ok_or(AllocError)?;
    let (status, output, keeper) = run_over(alloc, run, keeper)?;
    let kept = kept_text(alloc, keeper).ok_or(AllocError)?;
    Ok(Outcome {
        status,
        output,
        kept,
    })
}

/// A task that is placed and taken.
pub const TAKEN: &str = "0 add-pool {\"id\":\"p\",\"targetDedicatedNodes\":1}\n\
    0 add-job {\"id\":\"j\",\"poolInfo\":{\"poolId\":\"p\"}}\n\
    0 add-task j {\"id\":\"t\",\"commandLine\":\"echo hi\"}\n5 take 1\n";

/// The same, and its ending.
pub const ENDED: &str = "0 add-pool {\"id\":\"p\",\"targetDedicatedNodes\":1}\n\
    0 add-job {\"id\":\"j\",\"poolInfo\":{\"poolId\":\"p\"}}\n\
    0 add-task j {\"id\":\"t\",\"commandLine\":\"echo hi\"}\n5 take 1\n9 end 1 0\n";

#[test]
fn words_that_are_not_a_command(rt: HostRuntime) -> Result<(), Fail> {
    let rows: [&[&str]; 13] = [
        &[],
        &["Replay"],
        &["replay", "--seats"],
        &["replay", "--seats", "33"],
        &["replay", "--seats=2", "--seats", "2"],
        &["replay", "--journal", "000000000000000000001"],
        &["replay", "--now", "1"],
        &["formula", "--seats", "2"],
        &["formula", "--dedicated=1001"],
        &["drill"],
        &["drill", "0"],
        &["drill", "100001"],
        &["export", "--seats", "1"],
    ];
    for words in rows {
        let run = sure(words, TAKEN.as_bytes());
        assert!(rt; gives(rt.alloc(), run, Status::Usage, "")?, "{words:?}");
    }
    Ok(())
}

#[test]
fn services_are_not_run(rt: HostRuntime) -> Result<(), Fail> {
    let run = sure(&["serve", "--port", "0"], TAKEN.as_bytes());
    assert!(rt; gives(rt.alloc(), run, Status::Usage, "")?);
    Ok(())
}
