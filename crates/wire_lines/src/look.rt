//! Reads in lines.
ghost use Rattle.std.specs.Prelude.{◌≡◌, option_map};
ghost use Rattle.bt_base.specs.Fails.{Gives};
ghost use Rattle.wire_lines.specs.Reads.{read_word_text, read_word_in, whole_list, bare_read, read_with_arguments, read_with};

use crate::arguments::{UNREADABLE, job_and_task, lone_id};
use bt_base::Fail;
use bt_rows::refusal::Refusal;
use std::alloc::Global;
use table_reads::{Listing, MAX_RESULTS, Read};

/// The word of a line that asks for a read.
#[derive(Clone, Copy, Debug, PartialEq, Eq)]
pub enum ReadWord {
    /// A pool is shown.
    GetPool,
    /// The pools are shown.
    ListPools,
    /// The nodes of a pool are shown.
    ListNodes,
    /// A job is shown.
    GetJob,
    /// The jobs are shown.
    ListJobs,
    /// A task is shown.
    GetTask,
    /// The tasks of a job are shown.
    ListTasks,
    /// The tasks of a job are counted.
    TaskCounts,
}

impl ReadWord {
    /// The word's text. It does not allocate.
    #[tactic(auto, unfolding(crate::specs::Reads::read_word_text))]
    pub fn text(self) -> &'static str
        ensures { result.now ≡ read_word_text self }
    {
        match self {
            ReadWord::GetPool => "get-pool",
            ReadWord::ListPools => "list-pools",
            ReadWord::ListNodes => "list-nodes",
            ReadWord::GetJob => "get-job",
            ReadWord::ListJobs => "list-jobs",
            ReadWord::GetTask => "get-task",
            ReadWord::ListTasks => "list-tasks",
            ReadWord::TaskCounts => "task-counts",
        }
    }

    /// The word with this text, if there is one. It does not allocate.
    #[tactic(auto, unfolding(crate::specs::Reads::read_word_in))]
    pub fn read(text: &[u8]) -> Option<ReadWord>
        ensures { result ≡ read_word_in text.now }
    {
        let all = [
            ReadWord::GetPool,
            ReadWord::ListPools,
            ReadWord::ListNodes,
            ReadWord::GetJob,
            ReadWord::ListJobs,
            ReadWord::GetTask,
            ReadWord::ListTasks,
            ReadWord::TaskCounts,
        ];
        all.iter()
            .copied()
            .find(|word| text == word.text().as_bytes())
    }
}

/// A list from its beginning, as lines show it.
fn whole_list() -> Listing
    ensures { result ≡ whole_list }
{
    Listing {
        count: MAX_RESULTS,
        after: None,
    }
}

/// The read of a word without arguments.
fn bare_read(word: ReadWord) -> Result<Read, Fail<Refusal>>
    ensures { Gives result (bare_read word) }
{
    match word {
        ReadWord::ListPools => Ok(Read::ListPools(whole_list())),
        ReadWord::ListJobs => Ok(Read::ListJobs(whole_list())),
        ReadWord::GetPool
        | ReadWord::ListNodes
        | ReadWord::GetJob
        | ReadWord::GetTask
        | ReadWord::ListTasks
        | ReadWord::TaskCounts => Err(UNREADABLE),
    }
}

/// The read of a word with these arguments.
#[tactic(auto, unfolding(crate::specs::Reads::read_with_arguments))]
fn read_with_arguments(alloc: Global, word: ReadWord, text: &[u8]) -> Result<Read, Fail<Refusal>>
    ensures { Gives result (read_with_arguments word text.now) }
{
    match word {
        ReadWord::GetPool => Ok(Read::GetPool(lone_id(alloc, text)?)),
        ReadWord::ListNodes => Ok(Read::ListNodes(lone_id(alloc, text)?, whole_list())),
        ReadWord::GetJob => Ok(Read::GetJob(lone_id(alloc, text)?)),
        ReadWord::GetTask => {
            let (job, task) = job_and_task(alloc, text)?;
            Ok(Read::GetTask(job, task))
        }
        ReadWord::ListTasks => Ok(Read::ListTasks(lone_id(alloc, text)?, whole_list())),
        ReadWord::TaskCounts => Ok(Read::TaskCounts(lone_id(alloc, text)?)),
        ReadWord::ListPools | ReadWord::ListJobs => Err(UNREADABLE),
    }
}

/// The read of a word and of the arguments after it, if a space follows it.
pub fn read_with(
    alloc: Global,
    word: ReadWord,
    arguments: Option<&[u8]>,
) -> Result<Read, Fail<Refusal>>
    ensures { Gives result (read_with word (option_map (λ text. text.now) arguments.entry)) }
{
    match arguments {
        None => bare_read(word),
        Some(text) => read_with_arguments(alloc, word, text),
    }
}
