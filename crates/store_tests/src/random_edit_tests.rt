//! Random edits of a store in a file beside a store in memory.
use crate::sql_files::{Counting, are_same, open, put, remove, text};
use batch_keeper::KeepError;
use bt_base::NoMemory;
use keeper_store::{Edit, MetaName, Store, Stored, SureStore};
use row_texts::RowKind;
use sql_store::SqlStore;
use std::alloc::Global;
use std::sync::Wait;
use std::test::Fail;
use std::time::Clock;

/// How many edits are made.
const EDITS: u64 = 500;

/// After how many edits both stores are read.
const READ_EVERY: u64 = 50;

/// The size of a large body in bytes.
const LARGE: usize = 100_000;

/// Numbers that follow one another by a rule (Knuth's MMIX generator).
#[derive(Clone, Copy)]
struct Numbers {
    state: u64,
}

impl Numbers {
    /// The next number below the limit.
    fn below(&mut self, limit: u64) -> u64 {
        self.state = self
            .state
            .wrapping_mul(6_364_136_223_846_793_005)
            .wrapping_add(1_442_695_040_888_963_407);
        (self.state >> 33).checked_rem(limit).unwrap_or(0)
    }
}

/// Pieces of keys and bodies, of which one has four bytes a character, and one is of SQL.
const PIECES: [&str; 6] = ["a", "Ü", "漢字", "🙂", "'; DROP TABLE batch_row; --", "\n\"\\"];

fn piece(numbers: &mut Numbers) -> &'static str {
    PIECES
        .get(numbers.below(6) as usize)
        .copied()
        .unwrap_or("a")
}

/// A body: one in ten has 100 kB or some bytes more.
fn body(alloc: Global, numbers: &mut Numbers) -> Result<String, NoMemory> {
    let size = if numbers.below(10) == 0 {
        LARGE
    } else {
        numbers.below(40) as usize
    };
    let mut body = String::new(alloc);
    for _piece in 0..size {
        if body.len() >= size {
            break;
        }
        body.push_str(piece(numbers))?;
    }
    Ok(body)
}

fn kind(numbers: &mut Numbers) -> RowKind {
    match u8::try_from(numbers.below(8)) {
        Ok(number) => RowKind::of_number(number).unwrap_or(RowKind::Scale),
        Err(_) => RowKind::Scale,
    }
}

fn key(alloc: Global, numbers: &mut Numbers) -> Result<String, NoMemory> {
    let number = numbers.below(8);
    let piece = piece(numbers);
    Ok(format!(in alloc; "{piece}/{number}")?)
}

fn name(numbers: &mut Numbers) -> MetaName {
    match numbers.below(4) {
        0 => MetaName::NextNode,
        1 => MetaName::NextRun,
        2 => MetaName::Moment,
        _ => MetaName::Version,
    }
}

/// An edit: seven in ten put a row, two drop one, and one sets a number.
fn edit(alloc: Global, numbers: &mut Numbers) -> Result<Edit, NoMemory> {
    let choice = numbers.below(10);
    if choice == 9 {
        return Ok(Edit::Meta(name(numbers), numbers.below(1_000_000)));
    }
    let kind = kind(numbers);
    let key = key(alloc, numbers)?;
    if choice < 7 {
        let body = body(alloc, numbers)?;
        put(alloc, kind, key.as_str(), body.as_str())
    } else {
        Ok(Edit::Drop(kind, text(alloc, key.as_str())?))
    }
}

/// Makes the next edit in both stores.
fn edit_both<R: Wait + Clock + Drop>(
    alloc: Global,
    numbers: &mut Numbers,
    file: &mut SqlStore<R, Counting>,
    memory: &mut SureStore,
) -> Result<(), KeepError> {
    let mut edits = Vec::new(alloc);
    let pushed = edit(alloc, numbers)?;
    edits.push(pushed).map_err(|_| KeepError::Memory)?;
    let first = file.write(alloc, edits.as_slice());
    let second = memory.write(alloc, edits.as_slice());
    drop(edits);
    first?;
    second
}

/// Whether both stores contain the same.
fn agree<R: Wait + Clock + Drop>(
    alloc: Global,
    file: &mut SqlStore<R, Counting>,
    memory: &mut SureStore,
) -> Result<bool, KeepError> {
    let first = file.read(alloc)?;
    let second = match memory.read(alloc) {
        Ok(stored) => stored,
        Err(error) => {
            drop(first);
            return Err(error);
        }
    };
    let is_same = are_same(&first, &second);
    drop(first);
    drop(second);
    Ok(is_same)
}

/// Whether both stores contain the same after each 50th of the edits.
fn agree_through<R: Wait + Clock + Drop>(
    alloc: Global,
    file: &mut SqlStore<R, Counting>,
    memory: &mut SureStore,
) -> Result<bool, KeepError> {
    let mut numbers = Numbers { state: 20_240_229 };
    let mut is_same = true;
    for number in 0..EDITS {
        edit_both(alloc, &mut numbers, file, memory)?;
        if number % READ_EVERY == READ_EVERY - 1 {
            is_same = is_same & agree(alloc, file, memory)?;
        }
    }
    Ok(is_same)
}

/// Whether both stores contain the same through the edits, and after the file was dropped and opened again.
fn agree_after_all<R: Wait + Clock + Copy + Drop>(
    host: &HostRuntime,
    rt: &R,
    memory: &mut SureStore,
) -> Result<(bool, bool), Fail> {
    let alloc = host.alloc();
    let mut file = open(host, rt, "random.db").map_err(|_| "made")?;
    let through = agree_through(alloc, &mut file, memory);
    let is_written = file.sync().wait(rt, None).is_ok();
    drop(file);
    let mut again = open(host, rt, "random.db").map_err(|_| "opened")?;
    let after = agree(alloc, &mut again, memory);
    let is_closed = again.close().is_ok();
    let mut closed = open(host, rt, "random.db").map_err(|_| "opened again")?;
    let at_last = agree(alloc, &mut closed, memory);
    drop(closed);
    let through = through.map_err(|_| "edited")?;
    let after = after.map_err(|_| "read")?;
    let at_last = at_last.map_err(|_| "read again")?;
    Ok((through & is_written, is_closed & after & at_last))
}

#[test]
fn a_file_agrees_with_memory(rt: HostRuntime) -> Result<(), Fail> {
    remove(&rt, "random.db", "random.db-wal");
    let mut memory = SureStore::new(Stored::empty(rt.alloc()));
    let seen = agree_after_all(&rt, &rt, &mut memory);
    drop(memory);
    remove(&rt, "random.db", "random.db-wal");
    let (through, after) = seen?;
    assert!(rt; through);
    assert!(rt; after);
    Ok(())
}
