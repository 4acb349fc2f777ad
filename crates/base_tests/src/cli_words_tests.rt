//! Which words are commands.
use bt_base::{Moment, NoMemory, Word};
use cli_words::{Command, FormulaOptions, Invocation, ReplayOptions, ServeOptions, read_command};
use std::alloc::Global;
use std::test::Fail;

fn read(alloc: Global, words: &[&[u8]]) -> Result<Option<Invocation>, NoMemory> {
    let mut all = Vec::new(alloc);
    for word in words {
        all.push(Word::new(Vec::from_slice(alloc, word)?))?;
    }
    read_command(alloc, all.as_slice())
}

/// Whether the store has this path.
fn is_at(store: &Option<Word>, path: Option<&str>) -> bool {
    match (store, path) {
        (None, None) => true,
        (Some(word), Some(path)) => word.is(path),
        _ => false,
    }
}

/// Whether the words are this command, with a store at this path.
fn are(
    alloc: Global,
    words: &[&[u8]],
    command: Option<Command>,
    path: Option<&str>,
) -> Result<bool, NoMemory> {
    match read(alloc, words)? {
        Some(invocation) => {
            Ok(Some(invocation.command) == command && is_at(&invocation.store, path))
        }
        None => Ok(false),
    }
}

fn replay(seats: u8, limit: u32) -> Option<Command> {
    Some(Command::Replay(ReplayOptions { seats, limit }))
}

fn calendar(seats: u8, limit: u32) -> Option<Command> {
    Some(Command::Calendar(ReplayOptions { seats, limit }))
}

fn formula(ms: u64, dedicated: u32) -> Option<Command> {
    let now = Moment::of_ms(ms)?;
    Some(Command::Formula(FormulaOptions { now, dedicated }))
}

#[test]
fn commands_are_read(rt: HostRuntime) -> Result<(), Fail> {
    let rows: [(&[&[u8]], Option<Command>, Option<&str>); 12] = [
        (&[b"replay"], replay(8, 4_000_000), None),
        (&[b"calendar"], calendar(8, 4_000_000), None),
        (
            &[b"calendar", b"--store=a", b"--journal", b"9", b"--seats=1"],
            calendar(1, 9),
            Some("a"),
        ),
        (
            &[
                b"replay",
                b"--journal=7",
                b"--store",
                b"a=b",
                b"--seats",
                b"32",
            ],
            replay(32, 7),
            Some("a=b"),
        ),
        (
            &[b"replay", b"--seats=00000000000000000001"],
            replay(1, 4_000_000),
            None,
        ),
        (&[b"replay", b"--store=-"], replay(8, 4_000_000), Some("-")),
        (&[b"formula"], formula(0, 0), None),
        (
            &[
                b"formula",
                b"--dedicated",
                b"1000",
                b"--now=253402300799999",
            ],
            formula(253_402_300_799_999, 1000),
            None,
        ),
        (&[b"export"], Some(Command::Export), None),
        (
            &[b"export", b"--store=night.db"],
            Some(Command::Export),
            Some("night.db"),
        ),
        (&[b"drill", b"1"], Some(Command::Drill(1)), None),
        (&[b"drill", b"100000"], Some(Command::Drill(100_000)), None),
    ];
    for (words, command, path) in rows {
        assert!(rt;
            are(rt.alloc(), words, command, path) == Ok(true),
            "{words:?}"
        );
    }
    Ok(())
}

#[test]
fn other_words_are_no_command(rt: HostRuntime) -> Result<(), Fail> {
    let rows: [&[&[u8]]; 26] = [
        &[],
        &[b"replays"],
        &[b"replay", b"--seats", b"2", b"--seats", b"2"],
        &[b"replay", b"--seats", b"33"],
        &[b"replay", b"--seats", b"0"],
        &[b"replay", b"--seats", b"000000000000000000001"],
        &[b"replay", b"--seats"],
        &[b"replay", b"--seats", b"--journal", b"4"],
        &[b"replay", b"--now", b"4"],
        &[b"replay", b"--journal=4000001"],
        &[b"replay", b"--store="],
        &[b"replay", b"--store", b""],
        &[b"replay", b"--store", b"-x"],
        &[b"replay", b"--store", b"-"],
        &[b"replay", b"--store=\xff"],
        &[b"replay", b"--"],
        &[b"replay", b"-h"],
        &[b"calendar", b"--now", b"4"],
        &[b"calendars"],
        &[b"formula", b"--store=a"],
        &[b"formula", b"--now=253402300800000"],
        &[b"export", b"a"],
        &[b"drill"],
        &[b"drill", b"0"],
        &[b"drill", b"100001"],
        &[b"drill", b"1", b"2"],
    ];
    for words in rows {
        match read(rt.alloc(), words) {
            Ok(invocation) => assert!(rt; invocation.is_none(), "{words:?}"),
            Err(NoMemory) => panic!(rt; "out of memory"),
        }
    }
    Ok(())
}

fn default_service() -> ServeOptions {
    ServeOptions {
        seats: 8,
        journal: 4_000_000,
        port: 8_080,
        doors: 4,
        connections: None,
    }
}

#[test]
fn services_are_read(rt: HostRuntime) -> Result<(), Fail> {
    let wide = ServeOptions {
        port: 65_535,
        doors: 16,
        connections: Some(1_000_000),
        ..default_service()
    };
    let rows: [(&[&[u8]], ServeOptions, Option<&str>); 2] = [
        (&[b"serve"], default_service(), None),
        (
            &[
                b"serve",
                b"--port=65535",
                b"--doors",
                b"16",
                b"--store=a",
                b"--connections",
                b"1000000",
            ],
            wide,
            Some("a"),
        ),
    ];
    for (words, options, path) in rows {
        assert!(rt;
            are(rt.alloc(), words, Some(Command::Serve(options)), path) == Ok(true),
            "{words:?}"
        );
    }
    Ok(())
}

#[test]
fn services_out_of_range_are_no_command(rt: HostRuntime) -> Result<(), Fail> {
    let rows: [&[&[u8]]; 5] = [
        &[b"serve", b"--port=65536"],
        &[b"serve", b"--doors=0"],
        &[b"serve", b"--doors", b"17"],
        &[b"serve", b"--connections=0"],
        &[b"serve", b"--connections", b"1000001"],
    ];
    for words in rows {
        assert!(rt;
            are(rt.alloc(), words, None, None) == Ok(false),
            "{words:?}"
        );
    }
    Ok(())
}
