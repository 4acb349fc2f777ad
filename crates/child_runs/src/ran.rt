//! How child programs ran.
ghost use Rattle.std.specs.Prelude.{◌≡◌};
ghost use Rattle.child_runs.specs.Runs.{told_ending};

use bt_base::{List, Word};
use bt_rows::run::Ending;

/// How a child program ended.
#[derive(Clone, Copy, Debug, PartialEq, Eq)]
pub enum ChildEnding {
    /// With this exit code (Azure: executionInfo.exitCode).
    Code(i32),
    /// Without an exit code, as by a signal (this project's own).
    NoCode,
}

/// What became of a child program that was to run (this project's own).
#[derive(Clone, Copy, Debug, PartialEq, Eq)]
pub enum Ran {
    /// It ran, and ended like this.
    Ended(ChildEnding),
    /// It could not be started.
    NotStarted,
    /// There was no memory to start it.
    Memory,
}

/// One child program of a run: the number of the run, the words of its command line, of which the first names the program, and
/// what became of it (this project's own).
pub struct ChildRun {
    /// The number of the run.
    pub number: u64,
    /// The words of the command line.
    pub words: List<Word>,
    /// What became of it.
    pub how: Ran,
}

impl Drop for ChildRun {
    fn drop(self) {
        let ChildRun {
            number: _number,
            words: _words,
            how: _how,
        } = self;
    }
}

impl Ran {
    /// The ending of the run; None if there was no memory to start the child program. It does not allocate.
    pub fn ending(self) -> Option<Ending>
        ensures { result ≡ told_ending self }
    {
        match self {
            Ran::Ended(ChildEnding::Code(code)) => Some(Ending::Code(code)),
            Ran::Ended(ChildEnding::NoCode) => Some(Ending::NoCode),
            Ran::NotStarted => Some(Ending::NotStarted),
            Ran::Memory => None,
        }
    }
}
