//! Lines, and the requests that they are.
ghost use Rattle.std.specs.Prelude.{◌≡◌};
ghost use Rattle.bt_base.specs.Fails.{Gives};
ghost use Rattle.wire_lines.specs.Lines.{operation_with, event_with, event_with_arguments, event_in, request_at, request_in, line_of, is_skipped, word_in};

use crate::arguments::{UNREADABLE, id_and_body, job_and_task};
use crate::ending::{read_ending, read_moment};
use crate::look::{ReadWord, read_with};
use crate::parts::{split_just_two, split_two, split_word};
use crate::sample::pool_and_percentage;
use bt_base::{Fail, Moment, read_number};
use bt_rows::event::{Event, EventKind};
use bt_rows::refusal::Refusal;
use std::alloc::Global;
use table_reads::Read;
use wire_operations::{Asked, Operation, read_operation};

/// The word of a line, which names the kind of its event.
#[derive(Clone, Copy, Debug, PartialEq, Eq)]
pub enum LineWord {
    /// An operation of the profile.
    Operation(Operation),
    /// A run's child program is being started.
    Take,
    /// A run's child program has ended.
    End,
    /// A sample of the processor time of a pool is taken.
    Sample,
}

impl LineWord {
    /// The word with this text, if there is one: `take`, `end`, `sample` or the name of an operation. It does not allocate.
    #[tactic(auto, unfolding(crate::specs::Lines::word_in))]
    pub fn read(text: &[u8]) -> Option<LineWord>
        ensures { result ≡ word_in text.now }
    {
        if text == b"take".as_slice() {
            Some(LineWord::Take)
        } else if text == b"end".as_slice() {
            Some(LineWord::End)
        } else if text == b"sample".as_slice() {
            Some(LineWord::Sample)
        } else {
            Some(LineWord::Operation(Operation::read(text)?))
        }
    }
}

/// What a line is.
#[derive(Drop)]
pub enum LineRequest {
    /// No request: the line is empty or a comment.
    Skip,
    /// An event at a moment.
    Call(Moment, Event),
    /// A read, which changes nothing and uses no moment.
    Look(Read),
}

/// The greatest length of a line in bytes, without its line feed.
pub const LINE_LIMIT: usize = 1_048_576;

/// The event of an operation and its arguments.
#[tactic(auto, unfolding(crate::specs::Lines::operation_with))]
fn operation_with(alloc: Global, operation: Operation, text: &[u8]) -> Result<Event, Fail<Refusal>>
    ensures { Gives result (operation_with operation text.now) }
{
    match operation {
        Operation::Service(operation) => {
            read_operation(alloc, Asked::Service(operation), Some(text))
        }
        Operation::Pool(operation) => {
            let (pool, body) = id_and_body(alloc, operation.body(), text)?;
            read_operation(alloc, Asked::Pool(operation, pool), body)
        }
        Operation::Job(operation) => {
            let (job, body) = id_and_body(alloc, operation.body(), text)?;
            read_operation(alloc, Asked::Job(operation, job), body)
        }
        Operation::Task(operation) => {
            let (job, task) = job_and_task(alloc, text)?;
            read_operation(alloc, Asked::Task(operation, job, task), None)
        }
    }
}

/// The event of a word and its arguments.
#[tactic(auto, unfolding(crate::specs::Lines::event_with))]
fn event_with(alloc: Global, word: LineWord, text: &[u8]) -> Result<Event, Fail<Refusal>>
    ensures { Gives result (event_with word text.now) }
{
    match word {
        LineWord::Operation(operation) => operation_with(alloc, operation, text),
        LineWord::Take => {
            let run = read_number(text).ok_or(UNREADABLE)?;
            Ok(Event::new(EventKind::Take(run)))
        }
        LineWord::End => {
            let (run, ending) = split_just_two(text).ok_or(UNREADABLE)?;
            let run = read_number(run).ok_or(UNREADABLE)?;
            let ending = read_ending(ending).ok_or(UNREADABLE)?;
            Ok(Event::new(EventKind::End(run, ending)))
        }
        LineWord::Sample => {
            let (pool, percentage) = pool_and_percentage(alloc, text)?;
            Ok(Event::new(EventKind::Sample(pool, percentage)))
        }
    }
}

/// The event of a word, a space and its arguments.
#[tactic(auto, unfolding(crate::specs::Lines::event_with_arguments))]
fn event_with_arguments(alloc: Global, text: &[u8]) -> Result<Event, Fail<Refusal>>
    ensures { Gives result (event_with_arguments text.now) }
{
    let (word, rest) = split_two(text).ok_or(UNREADABLE)?;
    let word = LineWord::read(word).ok_or(UNREADABLE)?;
    event_with(alloc, word, rest)
}

/// The event of a word and its arguments, of which `tick` has none.
#[tactic(auto, unfolding(crate::specs::Lines::event_in))]
fn event(alloc: Global, text: &[u8]) -> Result<Event, Fail<Refusal>>
    ensures { Gives result (event_in text.now) }
{
    if text == b"tick".as_slice() {
        Ok(Event::new(EventKind::Tick))
    } else {
        event_with_arguments(alloc, text)
    }
}

/// The request of a line after its moment: a read, or an event at this moment.
#[tactic(auto, unfolding(crate::specs::Lines::request_at))]
pub fn read_request_at(
    alloc: Global,
    moment: Moment,
    text: &[u8],
) -> Result<LineRequest, Fail<Refusal>>
    ensures { Gives result (request_at moment text.now) }
{
    let (word, arguments) = split_word(text);
    match ReadWord::read(word) {
        Some(word) => Ok(LineRequest::Look(read_with(alloc, word, arguments)?)),
        None => Ok(LineRequest::Call(moment, event(alloc, text)?)),
    }
}

/// The request of a moment, a space, and a read or an event.
#[tactic(auto, unfolding(crate::specs::Lines::request_in))]
fn request(alloc: Global, text: &[u8]) -> Result<LineRequest, Fail<Refusal>>
    ensures { Gives result (request_in text.now) }
{
    let (moment, rest) = split_two(text).ok_or(UNREADABLE)?;
    let moment = read_moment(moment).ok_or(UNREADABLE)?;
    read_request_at(alloc, moment, rest)
}

/// Whether the line is empty or a comment.
pub fn is_skipped(line: &[u8]) -> bool
    ensures { result ≡ is_skipped line.now }
{
    match line {
        [] => true,
        [b, ..] => *b == b'#',
    }
}

/// What the line is, without the line feed that ends it (this project's profile).
///
/// An empty line and one that begins with `#` are skipped. Another line is a moment (the digits of milliseconds since 1970, up to
/// the end of the year 9999), a space and one of
///
/// - `add-pool BODY`, `resize POOL BODY`, `enable-autoscale POOL BODY`, `evaluate-autoscale POOL BODY`, `add-job BODY`,
///   `patch-job JOB BODY`, `disable-job JOB BODY`, `terminate-job JOB BODY`, `add-task JOB BODY` and `add-tasks JOB BODY`, with a JSON
///   object up to the end of the line as the body;
/// - `delete-pool POOL`, `stop-resize POOL` and `disable-autoscale POOL`;
/// - `terminate-job JOB`, `enable-job JOB` and `delete-job JOB`;
/// - `delete-task JOB TASK`, `terminate-task JOB TASK` and `reactivate-task JOB TASK`;
/// - `take RUN` and `end RUN ENDING`, with an exit code of 32 bits, `none` or `notstarted` as the ending;
/// - `sample POOL VALUE`, with a number from 0 to 100, of which decimals after the sixth are cut off, as the value;
/// - `tick`;
/// - a read: `get-pool POOL`, `list-pools`, `list-nodes POOL`, `get-job JOB`, `list-jobs`, `get-task JOB TASK`, `list-tasks JOB` or
///   `task-counts JOB`; its moment has to be one, and is not used.
///
/// Any other line, and one of more than 1,048,576 bytes, is `UnreadableBody`; an invalid id of a pool, a job or a task is
/// `InvalidPropertyValue(Id)`, before the faults of the body or of the value after it; another value is `InvalidPropertyValue(Value)`. It
/// fails with `Memory` when out of memory.
#[tactic(auto, unfolding(crate::specs::Lines::line_of))]
pub fn read_line(alloc: Global, line: &[u8]) -> Result<LineRequest, Fail<Refusal>>
    ensures { Gives result (line_of line.now) }
{
    if is_skipped(line) {
        Ok(LineRequest::Skip)
    } else if line.len() > LINE_LIMIT {
        Err(UNREADABLE)
    } else {
        request(alloc, line)
    }
}
