//! Tables that are saved in a store in memory and loaded again, and calls of the store that fail.
use batch_keeper::{KeepError, Keeper};
use bt_base::{Fail as Failure, Id, IdFault, NoMemory, Text};
use bt_rows::tables::Change;
use bt_rows::task::TaskKey;
use keeper_store::{Edit, Entries, Entry, MemoryStore, MetaName, Store, Stored};
use row_fields::RowFault;
use row_texts::{Row, RowKind, row_of};
use std::alloc::Global;
use std::test::Fail;
use store_keeper::StoreKeeper;

/// A store in memory whose content is not visible to contracts.
struct HiddenStore {
    inner: MemoryStore,
}

impl Drop for HiddenStore {
    fn drop(self) {
        let HiddenStore { inner: _inner } = self;
    }
}

impl Store for HiddenStore {
    ghost use Rattle.std.specs.Prelude.{None};

    ghost content = { λ _. None };

    ghost faults = { λ s. s.inner.faults };

    fn read(&mut self, alloc: Global) -> Result<Stored, KeepError> {
        self.inner.read(alloc)
    }

    fn write(&mut self, alloc: Global, edits: &[Edit]) -> Result<(), KeepError> {
        self.inner.write(alloc, edits)
    }
}

/// A row of each kind: the number of the kind, the text and the key.
pub fn rows() -> [(u8, &'static str, &'static str); 8] {
    [
        (
            1,
            r#"["P",false,"Steady",1,"Spread",true,null,1,0,"Requeue",900000,900000,0,null,null]"#,
            "p",
        ),
        (2, r#"[1,"p",1,"Usable",0]"#, "1"),
        (
            3,
            r#"["J","p","Active",0,-1,0,null,false,false,false,null,null,0,null]"#,
            "j",
        ),
        (
            4,
            r#"["j","T","echo hi",1,null,null,null,[],[],null,null,[],[],null,"Completed",1,0,null,null,null,[["Ended",["Code",0]],true,true,9]]"#,
            "j/t",
        ),
        (
            5,
            r#"[1,"Task",1,"p","j","t",1,"echo hi",1,["Ended",["Code",0]],false,0,5,9]"#,
            "1",
        ),
        (6, r#"["J",1,"Running",0,true,"Done"]"#, "j/1"),
        (
            7,
            r#"["P","CpuPercent",30000,42500000]"#,
            "p/CpuPercent/30000",
        ),
        (8, r#"["P","x = 1;",900000,0,null]"#, "p"),
    ]
}

/// The put of this row.
fn put(alloc: Global, row: Row) -> Result<Change, NoMemory> {
    match row {
        Row::Pool(row) => Change::put_pool(alloc, row),
        Row::Node(row) => Change::put_node(alloc, row),
        Row::Job(row) => Change::put_job(alloc, row),
        Row::Task(row) => Change::put_task(alloc, row),
        Row::Run(row) => Change::put_run(alloc, row),
        Row::Prep(row) => Change::put_prep(alloc, row),
        Row::Sample(row) => Change::put_sample(alloc, row),
        Row::Scale(row) => Change::put_scale(alloc, row),
    }
}

/// Puts of the rows of these kinds, and the next node's number, the next run's and the moment.
pub fn puts(
    alloc: Global,
    kinds: &[u8],
    numbers: (u64, u64, u64),
) -> Result<Vec<Change>, Failure<RowFault>> {
    let mut changes = Vec::new(alloc);
    for (kind, text, _) in rows() {
        if kinds.contains(&kind) {
            changes.push(put(alloc, row_of(alloc, kind, text)?)?)?;
        }
    }
    changes.push(Change::Counters(numbers.0, numbers.1))?;
    changes.push(Change::Now(numbers.2))?;
    Ok(changes)
}

/// Drops of the run and the task.
fn drops(alloc: Global) -> Result<Vec<Change>, Failure<IdFault>> {
    let key = TaskKey {
        job: Id::read(alloc, "J")?,
        id: Id::read(alloc, "t")?,
    };
    Ok(vec![in alloc; Change::DropRun(1), Change::DropTask(key), Change::Now(10)]?)
}

/// A keeper over an empty store of which these calls fail.
fn keeper(alloc: Global, fails: Vec<u64>) -> StoreKeeper<HiddenStore> {
    StoreKeeper::new(HiddenStore {
        inner: MemoryStore::new(Stored::empty(alloc), fails),
    })
}

/// What is seen of loaded tables: whether they have a pool, a task and a run, the next run's number and the moment.
pub type Seen = (bool, bool, bool, u64, u64);

/// What is seen of the tables at first and after each of three saves.
fn expected() -> [Seen; 4] {
    [
        (false, false, false, 1, 0),
        (true, false, false, 1, 1),
        (true, true, true, 2, 9),
        (true, false, false, 2, 10),
    ]
}

/// What is seen of the tables that a load returns.
pub fn loaded<S: Store + Drop>(
    alloc: Global,
    keeper: &mut StoreKeeper<S>,
) -> Result<Seen, KeepError> {
    let tables = keeper.load(alloc)?;
    let has_pool = tables.pools().next().is_some();
    let has_task = tables.tasks().next().is_some();
    let has_run = tables.runs().next().is_some();
    let (next_run, moment) = (tables.next_run(), tables.moment());
    drop(tables);
    Ok((has_pool, has_task, has_run, next_run, moment))
}

/// Saves, and once more after a load if that fails; what is then seen of the tables before the save.
fn save_again(
    alloc: Global,
    keeper: &mut StoreKeeper<HiddenStore>,
    changes: &[Change],
    before: Seen,
) -> Result<Seen, KeepError> {
    match keeper.save(alloc, changes) {
        Ok(()) => Ok(before),
        Err(KeepError::Failed) => {
            let seen = loaded(alloc, keeper)?;
            keeper.save(alloc, changes)?;
            Ok(seen)
        }
        Err(KeepError::Memory) => Err(KeepError::Memory),
    }
}

/// Whether the tables are seen as expected if the call of this number fails: a load, three saves and a load.
fn leaves_tables(
    alloc: Global,
    keeper: &mut StoreKeeper<HiddenStore>,
    number: u64,
    saves: [&[Change]; 3],
) -> Result<bool, KeepError> {
    let expected = expected();
    let first = loaded(alloc, keeper);
    let mut is_expected = matches!(first, Err(KeepError::Failed)) == (number == 1);
    for i in 0..3usize {
        let seen = save_again(alloc, keeper, saves[i], expected[i])?;
        is_expected = is_expected & (seen == expected[i]);
    }
    let last = loaded(alloc, keeper);
    is_expected = is_expected & (matches!(last, Err(KeepError::Failed)) == (number == 5));
    let seen = loaded(alloc, keeper)?;
    Ok(is_expected & (seen == expected[3]))
}

/// The first call whose fault leaves other tables than are expected.
fn first_other(alloc: Global, saves: [&[Change]; 3]) -> Result<Option<u64>, Fail> {
    for number in 1..6u64 {
        let mut keeper = keeper(alloc, vec![in alloc; number]?);
        let leaves = leaves_tables(alloc, &mut keeper, number, saves);
        drop(keeper);
        if !leaves.map_err(|_| "kept")? {
            return Ok(Some(number));
        }
    }
    Ok(None)
}

/// What a store contains after these changes were saved in it.
fn stored_after(alloc: Global, changes: &[Change]) -> Result<Stored, KeepError> {
    let mut keeper = keeper(alloc, Vec::new(alloc));
    let saved = keeper.save(alloc, changes);
    let mut store = keeper.into_store();
    let stored = match saved {
        Ok(()) => store.read(alloc),
        Err(error) => Err(error),
    };
    drop(store);
    stored
}

/// Whether the first of these entries has this text and this key.
pub fn has_first(entries: &Entries, text: &str, key: &str) -> bool {
    match entries.as_slice().first() {
        Some(entry) => entry.text.as_str() == text && entry.key.as_str() == key,
        None => false,
    }
}

#[test]
fn rows_are_stored_under_their_keys(rt: HostRuntime) -> Result<(), Fail> {
    let alloc = rt.alloc();
    let changes = puts(alloc, &[1, 2, 3, 4, 5, 6, 7, 8], (2, 2, 9))?;
    let stored = stored_after(alloc, changes.as_slice());
    drop(changes);
    let stored = stored.map_err(|_| "stored")?;
    let entries = [
        &stored.pools,
        &stored.nodes,
        &stored.jobs,
        &stored.tasks,
        &stored.runs,
        &stored.preps,
        &stored.samples,
        &stored.scales,
    ];
    let rows = rows();
    for i in 0..8usize {
        assert!(rt; has_first(entries[i], rows[i].1, rows[i].2), "{i}");
    }
    let metas = stored.metas;
    drop(stored);
    assert_eq!(rt; metas.next_node, Some(2));
    assert_eq!(rt; metas.next_run, Some(2));
    assert_eq!(rt; metas.moment, Some(9));
    assert_eq!(rt; metas.version, None);
    Ok(())
}

#[test]
fn a_failed_call_leaves_the_tables(rt: HostRuntime) -> Result<(), Fail> {
    let alloc = rt.alloc();
    let first = puts(alloc, &[1, 2], (2, 1, 1))?;
    let second = puts(alloc, &[3, 4, 5], (2, 2, 9))?;
    let third = drops(alloc)?;
    let saves = [first.as_slice(), second.as_slice(), third.as_slice()];
    let other = first_other(alloc, saves);
    drop(first);
    drop(second);
    drop(third);
    assert_eq!(rt; other?, None);
    Ok(())
}

/// Drops the task from the store.
fn drop_task(alloc: Global, store: &mut HiddenStore) -> Result<(), KeepError> {
    let text = String::from_str(alloc, "j/t").map_err(|_| KeepError::Memory)?;
    let key = Text::of_string(text)?;
    let mut edits = Vec::new(alloc);
    let is_pushed = edits.push(Edit::Drop(RowKind::Task, key)).is_ok();
    let written = store.write(alloc, edits.as_slice());
    drop(edits);
    if is_pushed {
        written
    } else {
        Err(KeepError::Memory)
    }
}

#[test]
fn a_run_without_its_task_is_not_loaded(rt: HostRuntime) -> Result<(), Fail> {
    let alloc = rt.alloc();
    let changes = puts(alloc, &[1, 2, 3, 4, 5], (2, 2, 9))?;
    let mut first = keeper(alloc, Vec::new(alloc));
    let saved = first.save(alloc, changes.as_slice());
    drop(changes);
    let mut store = first.into_store();
    let written = drop_task(alloc, &mut store);
    let mut second = StoreKeeper::new(store);
    let seen = loaded(alloc, &mut second);
    let saved_again = second.save(alloc, &[]);
    let line = line_of(alloc, &second);
    drop(second);
    assert!(rt; saved.is_ok() & written.is_ok());
    assert!(rt; matches!(seen, Err(KeepError::Failed)));
    assert!(rt; matches!(saved_again, Err(KeepError::Failed)));
    let expected = "the task that a run names has no row, or has not had its attempt: run 1";
    assert_eq!(rt; line?.as_str(), expected);
    Ok(())
}

/// The line of the fault of the content that the keeper read last; empty if there is none.
pub fn line_of<S: Store + Drop>(
    alloc: Global,
    keeper: &StoreKeeper<S>,
) -> Result<String, NoMemory> {
    match keeper.load_fault() {
        None => Ok(String::new(alloc)),
        Some(fault) => Ok(format!(in alloc; "{fault}")?),
    }
}

/// The line of the fault of a store that contains the rows of the pool and the job after this edit.
fn line_after(alloc: Global, edit: Edit) -> Result<String, Fail> {
    let changes = puts(alloc, &[1, 3], (1, 1, 9))?;
    let mut first = keeper(alloc, Vec::new(alloc));
    let saved = first.save(alloc, changes.as_slice());
    drop(changes);
    let mut store = first.into_store();
    let edits = vec![in alloc; edit]?;
    let written = store.write(alloc, edits.as_slice());
    drop(edits);
    let mut second = StoreKeeper::new(store);
    let seen = loaded(alloc, &mut second);
    let line = line_of(alloc, &second);
    drop(second);
    if saved.is_ok() & written.is_ok() & matches!(seen, Err(KeepError::Failed)) {
        Ok(line?)
    } else {
        Err("loaded".into())
    }
}

/// The edit that puts this text under this key.
fn edit(alloc: Global, kind: RowKind, key: &str, text: &str) -> Result<Edit, NoMemory> {
    let entry = Entry {
        key: Text::of_string(String::from_str(alloc, key)?)?,
        text: Text::of_string(String::from_str(alloc, text)?)?,
    };
    Ok(Edit::Put(kind, entry))
}

#[test]
fn faults_of_the_content_are_named(rt: HostRuntime) -> Result<(), Fail> {
    let alloc = rt.alloc();
    let line = line_after(alloc, edit(alloc, RowKind::Job, "j", "[1]")?)?;
    assert_eq!(rt;
        line.as_str(),
        "a text is not a row, or has another key: job j"
    );
    let line = line_after(alloc, Edit::Meta(MetaName::Version, 2))?;
    assert_eq!(rt;
        line.as_str(),
        "the rows have the version 2, which this program does not know"
    );
    let scale = edit(
        alloc,
        RowKind::Scale,
        "q",
        r#"["Q","x = 1;",900000,0,null]"#,
    )?;
    let line = line_after(alloc, scale)?;
    assert_eq!(rt;
        line.as_str(),
        "the pool that a row names has no row: scaling q"
    );
    let sample = edit(
        alloc,
        RowKind::Sample,
        "p/CpuPercent/31000",
        r#"["P","CpuPercent",31000,42500000]"#,
    )?;
    let line = line_after(alloc, sample)?;
    assert_eq!(rt;
        line.as_str(),
        "a value is out of its range, or a moment is after the last one: sample p/CpuPercent/31000"
    );
    Ok(())
}

/// The line of the fault of a store with this node beside the pool and the job.
fn line_with_node(alloc: Global, text: &str) -> Result<String, Fail> {
    line_after(alloc, edit(alloc, RowKind::Node, "1", text)?)
}

/// The line of the fault of a store with this run beside the pool and the job.
fn line_with_run(alloc: Global, text: &str) -> Result<String, Fail> {
    line_after(alloc, edit(alloc, RowKind::Run, "1", text)?)
}

#[test]
fn seats_are_1_to_32(rt: HostRuntime) -> Result<(), Fail> {
    let alloc = rt.alloc();
    let out = "a value is out of its range, or a moment is after the last one: node 1";
    let line = line_with_node(alloc, r#"[1,"p",0,"Usable",0]"#)?;
    assert_eq!(rt; line.as_str(), out);
    let line = line_with_node(alloc, r#"[1,"p",33,"Usable",0]"#)?;
    assert_eq!(rt; line.as_str(), out);
    // these seats are in range, but the counter is 1
    let counted = "the number of a node or run is not below that of the next one: node 1";
    let line = line_with_node(alloc, r#"[1,"p",1,"Usable",0]"#)?;
    assert_eq!(rt; line.as_str(), counted);
    let line = line_with_node(alloc, r#"[1,"p",32,"Usable",0]"#)?;
    assert_eq!(rt; line.as_str(), counted);
    Ok(())
}

#[test]
fn nodes_of_runs_are_from_1_on(rt: HostRuntime) -> Result<(), Fail> {
    let alloc = rt.alloc();
    let line = line_with_run(
        alloc,
        r#"[1,"Start",0,"p",null,null,0,"echo hi",0,["Ended",["Code",0]],false,0,5,9]"#,
    )?;
    assert_eq!(rt;
        line.as_str(),
        "a value is out of its range, or a moment is after the last one: run 1"
    );
    let line = line_with_run(
        alloc,
        r#"[1,"Start",1,"p",null,null,0,"echo hi",0,["Ended",["Code",0]],false,0,5,9]"#,
    )?;
    assert_eq!(rt;
        line.as_str(),
        "the number of a node or run is not below that of the next one: run 1"
    );
    Ok(())
}
