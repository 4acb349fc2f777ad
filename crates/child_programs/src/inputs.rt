//! The standard inputs of child programs.
ghost use Rattle.std.specs.Prelude.{◌≡◌, Some, None, IsSome, OnOk};
ghost use Rattle.std.specs.Ordering.{nat_cmp};
ghost use Rattle.std.specs.BTreeMap.{get};
ghost use Rattle.child_programs.specs.declared.inputs.Input.TheVariants.{Unstarted, Open, Asked};

use bt_base::NoMemory;
use std::alloc::Global;
use std::collections::BTreeMap;
use std::process::ChildStdin;

/// The standard input of the child program of one run.
#[derive(Drop)]
pub(crate) enum Input {
    /// The child program is not started yet.
    Unstarted,
    /// It is open.
    Open(ChildStdin),
    /// The child program was asked to stop: the input is closed, or will be closed as soon as it is open.
    Asked,
}

/// The standard inputs of child programs, by the numbers of their runs.
#[derive(Drop)]
pub(crate) struct Inputs {
    by_run: BTreeMap<u64, Input>,
}

impl Inputs {
    /// No standard input. It does not allocate.
    pub fn new(alloc: Global) -> Inputs {
        Inputs {
            by_run: BTreeMap::new(alloc),
        }
    }

    /// Makes room for the input of a run whose child program will be started. It fails only when out of memory.
    pub fn make_room(&mut self, number: u64) -> Result<(), NoMemory>
        ensures room { OnOk result (IsSome (get nat_cmp self.new.by_run number)) }
        ensures asked { get nat_cmp self.old.by_run number ≡ Some Asked → get nat_cmp self.new.by_run number ≡ Some Asked }
    {
        if !self.by_run.contains_key(&number) {
            self.by_run.insert(number, Input::Unstarted)?;
        }
        Ok(())
    }

    /// Keeps the input of a run for which there is room, or closes it if the child program was asked to stop before. It does not
    /// allocate.
    pub fn keep(&mut self, number: u64, input: ChildStdin)
        ensures open { get nat_cmp self.old.by_run number ≡ Some Unstarted → get nat_cmp self.new.by_run number ≡ Some (Open input) }
        ensures asked { get nat_cmp self.old.by_run number ≡ Some Asked → get nat_cmp self.new.by_run number ≡ Some Asked }
    {
        if let Some(place) = self.by_run.get_mut(&number) {
            if let Input::Unstarted = place {
                *place = Input::Open(input);
            }
        }
    }

    /// Closes the input of a run, or the next one that it has. It fails only when out of memory.
    pub fn close(&mut self, number: u64) -> Result<(), NoMemory>
        ensures { OnOk result (get nat_cmp self.new.by_run number ≡ Some Asked) }
    {
        self.by_run.insert(number, Input::Asked)?;
        Ok(())
    }

    /// Whether an input is open, or will be as soon as its child program is started. It does not allocate.
    pub fn has_open(&self) -> bool {
        self.by_run
            .values()
            .any(|input| !matches!(input, Input::Asked))
    }

    /// Forgets a run whose child program has ended, and closes its input. It does not allocate.
    pub fn forget(&mut self, number: u64)
        ensures { get nat_cmp self.new.by_run number ≡ None }
    {
        self.by_run.remove(&number);
    }
}
