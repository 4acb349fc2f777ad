//! The stopper of child programs.
ghost use Rattle.std.specs.Prelude.{◌≡◌, ⊤, IfOk};

use crate::table::ProgramTable;
use bt_base::NoMemory;
use byte_streams::Failed;
use child_runs::Stopper;
use std::marker::Model;
use std::sync::Wait;

/// What asks the child programs of a table to stop: it closes their standard inputs. A child program that does not end then goes
/// on. It counts a stop as a fault if there was no memory to keep it; it cannot fail otherwise.
/// Contracts see it as its count of faults.
#[derive(Drop)]
pub struct ProgramStopper<R: Wait + Drop> {
    rt: R,
    table: ProgramTable,
    faults: u64,
}

impl<R: Wait + Drop> Model for ProgramStopper<R> {
    ghost use Rattle.std.specs.Prelude.{ℕ};

    ghost Value = { ℕ };

    ghost view = { λ s. s.faults };
}

impl<R: Wait + Drop> ProgramStopper<R> {
    /// A stopper of the child programs of this table. The only error is out of memory.
    pub fn new(rt: R, table: &ProgramTable) -> Result<ProgramStopper<R>, NoMemory>
        ensures { IfOk result (λ s. s ≡ 0) }
    {
        Ok(ProgramStopper {
            rt,
            table: table.share()?,
            faults: 0,
        })
    }
}

impl<R: Wait + Drop> Stopper for ProgramStopper<R> {
    ghost faults = { λ s. s };

    ghost stopped = { λ _ _ _. ⊤ };

    /// Closes the standard input of the child program of this run, or has it closed as soon as the child program is started.
    fn stop(&mut self, number: u64) -> Result<(), Failed> {
        match self.table.close(&self.rt, number) {
            Ok(()) => Ok(()),
            Err(NoMemory) => {
                self.faults = self.faults.saturating_add(1);
                Err(Failed)
            }
        }
    }
}
