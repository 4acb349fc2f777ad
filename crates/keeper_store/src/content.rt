//! What a store contains.
ghost use Rattle.std.specs.Prelude.{◌≡◌, OnOk, IfOk};
ghost use Rattle.keeper_store.specs.Contents.{empty_content, put_in, drop_in, set_meta, apply_edit, apply_edits};

use crate::edit::{Edit, MetaName};
use crate::entries::{Entries, Entry};
use bt_base::{Duplicate, NoMemory};
use row_texts::RowKind;
use std::alloc::Global;

/// The numbers that a store has beside the rows, each None if it was never set.
#[derive(Clone, Copy, Debug, PartialEq, Eq)]
pub struct Metas {
    /// The number of the next node.
    pub next_node: Option<u64>,
    /// The number of the next run.
    pub next_run: Option<u64>,
    /// The last moment, in milliseconds since 1970.
    pub moment: Option<u64>,
    /// The version of the form of the rows.
    pub version: Option<u64>,
}

impl Metas {
    /// These numbers, with another one of this name.
    pub fn with(self, name: MetaName, value: u64) -> Metas
        ensures { result ≡ set_meta name value self }
    {
        let mut metas = self;
        match name {
            MetaName::NextNode => metas.next_node = Some(value),
            MetaName::NextRun => metas.next_run = Some(value),
            MetaName::Moment => metas.moment = Some(value),
            MetaName::Version => metas.version = Some(value),
        }
        metas
    }
}

/// What a store contains: the rows as texts by their kinds, each kind in order of adding, and the numbers beside them.
#[derive(Debug)]
pub struct Stored {
    /// The pools.
    pub pools: Entries,
    /// The nodes.
    pub nodes: Entries,
    /// The jobs.
    pub jobs: Entries,
    /// The tasks of all jobs.
    pub tasks: Entries,
    /// The runs.
    pub runs: Entries,
    /// The preparations of jobs on nodes.
    pub preps: Entries,
    /// The samples of metrics.
    pub samples: Entries,
    /// The scalings of pools.
    pub scales: Entries,
    /// The numbers beside the rows.
    pub metas: Metas,
}

impl Drop for Stored {
    fn drop(self) {
        let Stored {
            pools: _pools,
            nodes: _nodes,
            jobs: _jobs,
            tasks: _tasks,
            runs: _runs,
            preps: _preps,
            samples: _samples,
            scales: _scales,
            metas: _metas,
        } = self;
    }
}

impl Stored {
    /// No rows and no numbers. It does not allocate.
    pub fn empty(alloc: Global) -> Stored
        ensures { result ≡ empty_content }
    {
        Stored {
            pools: Entries::empty(alloc),
            nodes: Entries::empty(alloc),
            jobs: Entries::empty(alloc),
            tasks: Entries::empty(alloc),
            runs: Entries::empty(alloc),
            preps: Entries::empty(alloc),
            samples: Entries::empty(alloc),
            scales: Entries::empty(alloc),
            metas: Metas {
                next_node: None,
                next_run: None,
                moment: None,
                version: None,
            },
        }
    }

    /// Puts an entry of this kind. It fails only when out of memory.
    fn put(&mut self, kind: RowKind, entry: Entry) -> Result<(), NoMemory>
        ensures { OnOk result (self.new ≡ put_in kind entry self.old) }
    {
        match kind {
            RowKind::Pool => self.pools.put(entry),
            RowKind::Node => self.nodes.put(entry),
            RowKind::Job => self.jobs.put(entry),
            RowKind::Task => self.tasks.put(entry),
            RowKind::Run => self.runs.put(entry),
            RowKind::Prep => self.preps.put(entry),
            RowKind::Sample => self.samples.put(entry),
            RowKind::Scale => self.scales.put(entry),
        }
    }

    /// Drops the entry of this kind with the key, if there is one.
    fn drop_key(&mut self, kind: RowKind, key: &str)
        ensures { self.new ≡ drop_in kind key.now self.old }
    {
        match kind {
            RowKind::Pool => self.pools.drop_key(key),
            RowKind::Node => self.nodes.drop_key(key),
            RowKind::Job => self.jobs.drop_key(key),
            RowKind::Task => self.tasks.drop_key(key),
            RowKind::Run => self.runs.drop_key(key),
            RowKind::Prep => self.preps.drop_key(key),
            RowKind::Sample => self.samples.drop_key(key),
            RowKind::Scale => self.scales.drop_key(key),
        }
    }

    /// Makes a copy of the edit. It fails only when out of memory.
    pub fn edit(&mut self, edit: &Edit) -> Result<(), NoMemory>
        ensures { OnOk result (self.new ≡ apply_edit edit.now self.old) }
    {
        match edit {
            Edit::Put(kind, entry) => self.put(*kind, entry.copy()?)?,
            Edit::Drop(kind, key) => self.drop_key(*kind, key.as_str()),
            Edit::Meta(name, value) => self.metas = self.metas.with(*name, *value),
        }
        Ok(())
    }

    /// Makes copies of the edits, from the first to the last. It fails only when out of memory, and may then have made some of them.
    pub fn edit_all(&mut self, edits: &[Edit]) -> Result<(), NoMemory>
        ensures { OnOk result (self.new ≡ apply_edits edits.now self.old) }
    {
        for edit in edits {
            self.edit(edit)?;
        }
        Ok(())
    }
}

impl Duplicate for Stored {
    fn copy(&self) -> Result<Stored, NoMemory> {
        Ok(Stored {
            pools: self.pools.copy()?,
            nodes: self.nodes.copy()?,
            jobs: self.jobs.copy()?,
            tasks: self.tasks.copy()?,
            runs: self.runs.copy()?,
            preps: self.preps.copy()?,
            samples: self.samples.copy()?,
            scales: self.scales.copy()?,
            metas: self.metas,
        })
    }
}
