//! The lines of the list of runs.
use crate::instants::instant_text;
use bt_base::{Id, Moment, Word};
use bt_rows::run::RunKind;
use child_runs::{ChildEnding, Ran, RunIdentity};
use csv::{ErrorKind, Writer};
use std::alloc::{AllocError, Global};
use std::io;

/// The names of the fields of a line.
const HEADER: [&str; 11] = [
    "run", "kind", "pool", "node", "job", "task", "began", "ended", "ending", "code", "command",
];

/// A run that has ended.
#[derive(Drop)]
pub(crate) struct EndedRun<'a> {
    /// The number of the run.
    pub number: u64,
    /// What the run is and belongs to.
    pub run: &'a RunIdentity,
    /// The words of its command line.
    pub words: &'a [Word],
    /// When its child program was started, or its start was given up.
    pub began: Moment,
    /// When it ended.
    pub ended: Moment,
    /// What became of its child program.
    pub how: Ran,
}

/// What a run executes, as the list names it.
fn kind_text(kind: RunKind) -> &'static str {
    match kind {
        RunKind::Start => "start",
        RunKind::Prep => "preparation",
        RunKind::Task => "task",
        RunKind::Coordination => "coordination",
        RunKind::Release => "release",
    }
}

/// How a run ended, as the list names it.
fn ending_text(how: Ran) -> &'static str {
    match how {
        Ran::Ended(ChildEnding::Code(_)) => "code",
        Ran::Ended(ChildEnding::NoCode) => "signal",
        Ran::NotStarted => "notstarted",
        Ran::Memory => "memory",
    }
}

/// The exit code as a text; empty if there is none.
fn code_text(alloc: Global, how: Ran) -> Result<String, AllocError> {
    match how {
        Ran::Ended(ChildEnding::Code(code)) => format!(in alloc; "{code}"),
        _ => Ok(String::new(alloc)),
    }
}

/// The id as a text; empty if there is none.
fn id_text(id: &Option<Id>) -> &str {
    match id {
        Some(id) => id.as_str(),
        None => "",
    }
}

/// The words with a space between two.
fn joined(alloc: Global, words: &[Word]) -> Result<Vec<u8>, AllocError> {
    let mut line = Vec::new(alloc);
    for word in words {
        if !line.is_empty() {
            line.push(b' ').map_err(AllocError::from)?;
        }
        line.extend_from_slice(word.as_bytes())?;
    }
    Ok(line)
}

/// An error of the writer of records as an error of the system's.
fn io_error(error: csv::Error) -> io::Error {
    match error.into_kind() {
        ErrorKind::Io(error) => error,
        ErrorKind::OutOfMemory => io::Error::from(AllocError),
        _ => io::Error::from(io::ErrorKind::InvalidData),
    }
}

/// The line with these fields. The only error is out of memory.
fn record(alloc: Global, fields: &[Vec<u8>]) -> io::Result<Vec<u8>> {
    let mut writer = Writer::from_writer(Vec::new(alloc));
    for field in fields {
        if let Err(error) = writer.write_field(field.as_slice()) {
            return Err(io_error(error));
        }
    }
    if let Err(error) = writer.end_record() {
        return Err(io_error(error));
    }
    match writer.into_inner() {
        Ok(line) => Ok(line),
        Err(error) => Err(*error.error()),
    }
}

/// The first line, which names the fields. The only error is out of memory.
pub(crate) fn header(alloc: Global) -> io::Result<Vec<u8>> {
    let mut names = Vec::new(alloc);
    for name in HEADER {
        push(&mut names, alloc, name.as_bytes())?;
    }
    record(alloc, names.as_slice())
}

/// Adds a field.
fn push(fields: &mut Vec<Vec<u8>>, alloc: Global, field: &[u8]) -> Result<(), AllocError> {
    let field = field.to_vec(alloc)?;
    fields.push(field).map_err(AllocError::from)
}

impl EndedRun<'_> {
    /// Adds the fields of what the run is and belongs to.
    fn push_identity(&self, alloc: Global, fields: &mut Vec<Vec<u8>>) -> Result<(), AllocError> {
        let (number, node) = (self.number, self.run.node);
        let number = format!(in alloc; "{number}")?;
        push(fields, alloc, number.as_str().as_bytes())?;
        push(fields, alloc, kind_text(self.run.kind).as_bytes())?;
        push(fields, alloc, self.run.pool.as_str().as_bytes())?;
        let node = format!(in alloc; "node-{node}")?;
        push(fields, alloc, node.as_str().as_bytes())?;
        push(fields, alloc, id_text(&self.run.job).as_bytes())?;
        push(fields, alloc, id_text(&self.run.task).as_bytes())
    }

    /// Adds the fields of when and how it ended, and of its command line.
    fn push_end(&self, alloc: Global, fields: &mut Vec<Vec<u8>>) -> Result<(), AllocError> {
        let began = instant_text(alloc, self.began.ms())?;
        push(fields, alloc, began.as_str().as_bytes())?;
        let ended = instant_text(alloc, self.ended.ms())?;
        push(fields, alloc, ended.as_str().as_bytes())?;
        push(fields, alloc, ending_text(self.how).as_bytes())?;
        let code = code_text(alloc, self.how)?;
        push(fields, alloc, code.as_str().as_bytes())?;
        let command = joined(alloc, self.words)?;
        push(fields, alloc, command.as_slice())
    }

    /// The line of the run. The only error is out of memory.
    pub fn line(&self, alloc: Global) -> io::Result<Vec<u8>> {
        let mut fields = Vec::new(alloc);
        self.push_identity(alloc, &mut fields)?;
        self.push_end(alloc, &mut fields)?;
        record(alloc, fields.as_slice())
    }
}
