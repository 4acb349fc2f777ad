//! How the program ends.

use cli_formula::Position;

/// How the program ends; its exit status is the number beside it (this project's profile).
#[derive(Clone, Copy, Debug, PartialEq, Eq)]
pub enum Status {
    /// 0: none of the others.
    Done,
    /// 1: out of memory; the run ended at once.
    Memory,
    /// 2: the words are not a command, or `serve`, which `run_words` does not do; nothing was written.
    Usage,
    /// 3: the source failed; nothing was called or written.
    SourceFault,
    /// 4: the sink failed; the run ended there.
    SinkFault,
    /// 5: the keeper failed at the opening, and nothing was written; or the script was done to its end, and a call or its
    /// due steps met a keeper fault.
    KeeperFault,
    /// 6: the script was done to its end, and a line of it is not a valid request.
    UnreadableLines,
    /// 7: the source gave more than 67,108,864 bytes, or for `formula` more than 8,192; nothing was called.
    ScriptTooLong,
    /// 8: `formula` wrote a fault, which stands at this position of the source.
    FormulaError(Position),
    /// 9: the script was done to its end, and a call found the journal full.
    JournalFull,
}

impl Status {
    ghost use Rattle.std.specs.Prelude.{◌≡◌};
    ghost use Rattle.batch_cli.specs.Codes.{exit_code};

    /// The exit status.
    pub fn code(self) -> u8
        ensures { result ≡ exit_code self }
    {
        match self {
            Status::Done => 0,
            Status::Memory => 1,
            Status::Usage => 2,
            Status::SourceFault => 3,
            Status::SinkFault => 4,
            Status::KeeperFault => 5,
            Status::UnreadableLines => 6,
            Status::ScriptTooLong => 7,
            Status::FormulaError(_) => 8,
            Status::JournalFull => 9,
        }
    }
}
