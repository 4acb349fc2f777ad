//! A spawner that never fails.
ghost use Rattle.std.specs.Prelude.{◌≡◌, ◌∷◌, ◌++◌, [], OnOk, OnErr};
ghost use Rattle.child_runs.specs.Memory.{RunsAsListed};
ghost use Rattle.child_runs.specs.declared.ran.Ran.TheVariants.{Ended};

use crate::endings::ending_of;
use crate::ran::{ChildEnding, ChildRun, Ran};
use crate::run_identity::RunIdentity;
use crate::spawner::Spawner;
use bt_base::{List, NoMemory, Word, duplicates};
use std::alloc::Global;
use std::marker::Model;

/// A spawner in memory that never fails: it starts no program, and its children end as a list says. Contracts see this list,
/// and the children that ran.
pub struct SureSpawner {
    endings: Vec<(u64, ChildEnding)>,
    runs: Vec<ChildRun>,
}

impl Drop for SureSpawner {
    fn drop(self) {
        let SureSpawner {
            endings: _endings,
            runs: _runs,
        } = self;
    }
}

impl Model for SureSpawner {
    ghost use Rattle.child_runs.specs.Memory.{ListedRuns};

    ghost Value = { ListedRuns };

    ghost view = { λ s. record { endings = s.endings.items; runs = s.runs.items } };
}

impl SureSpawner {
    /// A spawner that has run no child. The child of a run ends as this list says for the number of the run, and with `Code(0)`
    /// if the list does not have the number. It does not allocate.
    pub fn new(alloc: Global, endings: Vec<(u64, ChildEnding)>) -> SureSpawner
        ensures { result ≡ record { endings = endings.items; runs = [] } }
    {
        SureSpawner {
            endings,
            runs: Vec::new(alloc),
        }
    }

    /// The children that ran, in order. It does not allocate.
    pub fn runs(&self) -> &[ChildRun]
        ensures { result.now ≡ self.now.runs }
    {
        self.runs.as_slice()
    }

    /// Keeps a child that ran. It fails only when out of memory.
    fn keep(
        &mut self,
        alloc: Global,
        number: u64,
        words: &[Word],
        ending: ChildEnding,
    ) -> Result<(), NoMemory>
        ensures same_endings { self.new.endings ≡ self.old.endings }
        ensures ok { OnOk result (self.new.runs ≡ self.old.runs ++ record { number = number; words = words.now; how = Ended ending } ∷ []) }
        ensures err { OnErr result (self.new.runs ≡ self.old.runs) }
    {
        let words = List::of_vec(duplicates(alloc, words)?);
        self.runs.push(ChildRun {
            number,
            words,
            how: Ran::Ended(ending),
        })?;
        Ok(())
    }
}

impl Spawner for SureSpawner {
    ghost faults = { λ _. 0 };

    ghost ran = { RunsAsListed };

    /// The ending that is listed, or `Memory` if it is out of memory; then the child is not kept.
    fn run(&mut self, alloc: Global, _run: &RunIdentity, number: u64, words: &[Word]) -> Ran {
        let ending = ending_of(self.endings.as_slice(), number);
        match self.keep(alloc, number, words, ending) {
            Ok(()) => Ran::Ended(ending),
            Err(NoMemory) => Ran::Memory,
        }
    }
}
