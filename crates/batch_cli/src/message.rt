//! What the program says of a status on standard error.

use crate::status::Status;
use std::fmt;

/// How the program is used.
const USAGE: &str = "usage: batch replay [--seats N] [--journal N] [--store PATH]
       batch calendar [--seats N] [--journal N] [--store PATH]
       batch formula [--now MS] [--dedicated N]
       batch export [--store PATH]
       batch drill N
       batch serve [--seats N] [--journal N] [--store PATH] [--port N] [--doors N] [--connections N]
       batch child CODE

replay reads a script from standard input, does its calls, and writes what each line was answered and then the tables.
  --seats N      the most nodes at a time, 1 to 32 (default 8)
  --journal N    the most calls that the run takes, 1 to 4,000,000 (default 4,000,000)
  --store PATH   the file that keeps the tables, made if it is not there (default: tables in memory, empty at first)
calendar does the same with job schedules, which lines of the script add, and which make jobs at their occurrences; it has these options too.
formula reads an autoscale formula from standard input, evaluates it, and writes what it sets, or its fault.
  --now MS       the present moment in milliseconds since 1970-01-01T00:00:00Z, 0 to 253,402,300,799,999 (default 0)
  --dedicated N  $TargetDedicatedNodes before the formula, 0 to 1,000 (default 0)
export writes the tables as they are kept.
  --store PATH   the file that keeps the tables (default: empty tables in memory)
drill makes calls that follow from the number N of its tasks, 1 to 100,000, and writes how they ended.
serve answers HTTP requests on 127.0.0.1 and runs the command lines of tasks as child programs.
  --seats N        the most nodes at a time, 1 to 32 (default 8)
  --journal N      the most calls until it ends, 1 to 4,000,000 (default 4,000,000)
  --store PATH     the file that keeps the tables, made if it is not there (default: tables in memory, empty at first)
  --port N         the port, 0 to 65,535, where 0 is any free one (default 8,080)
  --doors N        the most connections that are served at a time, 1 to 16 (default 4)
  --connections N  the number of connections, of all doors together, after which it ends, 1 to 1,000,000 (default: no end)
child writes its words on a line and ends with the exit code CODE modulo 256; it is for trying the service out.
An option is given at most once, as --name value or --name=value. A value that begins with - needs the second form.";

/// What happened and what to do, in one line, but for the usage.
fn advice(status: Status) -> &'static str {
    match status {
        Status::Done => "done",
        Status::Memory =>
            "out of memory; the run ended early: give the program more memory or a smaller input",
        Status::Usage => USAGE,
        Status::SourceFault =>
            "standard input could not be read; nothing was done: check the input and run again",
        Status::SinkFault =>
            "standard output could not be written; the output ends early: check its target and run again",
        Status::KeeperFault =>
            "the tables could not be loaded or saved: do again what is answered `fault`, and what the output does not have",
        Status::UnreadableLines =>
            "some lines are not valid requests; the others were done: see the answers with status 400",
        Status::ScriptTooLong =>
            "the input is too long; nothing was done: a script has at most 67,108,864 bytes, a formula 8,192",
        Status::FormulaError(_) =>
            "the formula has the fault that standard output names: change it there and run again",
        Status::JournalFull =>
            "the journal is full; calls answered `full` were not done: give a greater --journal or a shorter script",
    }
}

impl fmt::Display for Status {
    /// What happened and what to do; of a formula's fault also where it stands.
    fn fmt<W: fmt::Write>(&self, out: &mut fmt::Formatter<W>) -> fmt::Result {
        let text = advice(*self);
        match self {
            Status::Usage => write!(out, "{text}"),
            Status::FormulaError(position) => write!(
                out,
                "batch: line {}, column {}: {text}",
                position.line, position.column
            ),
            _ => write!(out, "batch: {text}"),
        }
    }
}
