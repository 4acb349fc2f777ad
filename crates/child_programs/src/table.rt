//! The table that spawners and stoppers share.
use crate::inputs::Inputs;
use bt_base::NoMemory;
use std::alloc::Global;
use std::process::ChildStdin;
use std::sync::{Arc, Mutex, Wait};

/// The open standard inputs of child programs, which spawners and stoppers share, and the numbers of the runs that were asked to
/// stop before their start. It keeps a number for each run that is asked to stop after its end.
#[derive(Drop)]
pub struct ProgramTable {
    inputs: Arc<Mutex<Inputs>>,
}

impl ProgramTable {
    /// A table without child programs. The only error is out of memory.
    pub fn new(alloc: Global) -> Result<ProgramTable, NoMemory> {
        Ok(ProgramTable {
            inputs: Arc::new(alloc, Mutex::new(Inputs::new(alloc)))?,
        })
    }

    /// The same table, for a spawner or a stopper. The only error is out of memory.
    pub(crate) fn share(&self) -> Result<ProgramTable, NoMemory> {
        Ok(ProgramTable {
            inputs: Arc::try_clone(&self.inputs)?,
        })
    }

    /// Whether the standard input of some child program is open, or will be as soon as the child program is started. It is not for one
    /// that was asked to stop, also while it goes on.
    pub fn has_open(&self, rt: &impl Wait) -> bool {
        self.inputs.lock(rt).has_open()
    }

    /// Makes room for the input of a run. It fails only when out of memory.
    pub(crate) fn make_room(&self, rt: &impl Wait, number: u64) -> Result<(), NoMemory> {
        self.inputs.lock(rt).make_room(number)
    }

    /// Keeps the input of a run, or closes it if the child program was asked to stop before.
    pub(crate) fn keep(&self, rt: &impl Wait, number: u64, input: ChildStdin) {
        self.inputs.lock(rt).keep(number, input);
    }

    /// Closes the input of a run, or the next one that it has. It fails only when out of memory.
    pub(crate) fn close(&self, rt: &impl Wait, number: u64) -> Result<(), NoMemory> {
        self.inputs.lock(rt).close(number)
    }

    /// Forgets a run.
    pub(crate) fn forget(&self, rt: &impl Wait, number: u64) {
        self.inputs.lock(rt).forget(number);
    }
}
