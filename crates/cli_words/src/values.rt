//! The values of a command's options.
ghost use Rattle.std.specs.Prelude.{◌≡◌, List, IfOk, IfSome, option_map};
ghost use Rattle.clap.specs.Words.{found_of, rows_of};
ghost use Rattle.option_words.specs.Options.{Setting};
ghost use Rattle.option_words.specs.Clap.{rows_for};
ghost use Rattle.cli_words.specs.Commands.{calendar_with, command_with, connections_in, formula_with, invocation_with, number_or, path_in, replay_with, serve_with};
ghost use Rattle.cli_words.specs.Ranges.{IsInRange, IsWithin};

use crate::command::{
    CONNECTION_LIMIT, Command, DEFAULT_DOORS, DEFAULT_PORT, DEFAULT_SEATS, DOOR_LIMIT,
    FormulaOptions, Invocation, JOURNAL_LIMIT, PORT_LIMIT, ReplayOptions, ServeOptions,
};
use crate::command_name::CommandName;
use crate::number::{number_from_to, number_or};
use bt_base::{LAST_MOMENT_MS, Moment, NoMemory, Word};
use bt_rows::limits::{SEAT_LIMIT, TARGET_LIMIT};
use clap::ArgMatches;
use option_words::value_of;
use std::alloc::Global;

/// The number of seats that the value of `--seats` is, or the default if there is no value.
fn seats_of(seats: Option<&str>) -> Option<u8>
    ensures value { result ≡ number_or DEFAULT_SEATS 1 SEAT_LIMIT (option_map (λ t. t.now) seats.entry) }
    ensures range { IfSome result (IsWithin 1 SEAT_LIMIT) }
{
    let seats = number_or(u64::from(DEFAULT_SEATS), 1, u64::from(SEAT_LIMIT), seats)?;
    Some(seats as u8)
}

/// The number of calls that the value of `--journal` is, or the default if there is no value.
fn journal_of(journal: Option<&str>) -> Option<u32>
    ensures value { result ≡ number_or JOURNAL_LIMIT 1 JOURNAL_LIMIT (option_map (λ t. t.now) journal.entry) }
    ensures range { IfSome result (IsWithin 1 JOURNAL_LIMIT) }
{
    let most = u64::from(JOURNAL_LIMIT);
    let journal = number_or(most, 1, most, journal)?;
    Some(journal as u32)
}

/// The command `replay` with the values of `--seats` and `--journal`.
fn replay(seats: Option<&str>, journal: Option<&str>) -> Option<Command>
    ensures command { result ≡ replay_with (option_map (λ t. t.now) seats.entry) (option_map (λ t. t.now) journal.entry) }
    ensures ranges { IfSome result IsInRange }
{
    let seats = seats_of(seats)?;
    let limit = journal_of(journal)?;
    Some(Command::Replay(ReplayOptions { seats, limit }))
}

/// The command `calendar` with the values of `--seats` and `--journal`.
fn calendar(seats: Option<&str>, journal: Option<&str>) -> Option<Command>
    ensures command { result ≡ calendar_with (option_map (λ t. t.now) seats.entry) (option_map (λ t. t.now) journal.entry) }
    ensures ranges { IfSome result IsInRange }
{
    let seats = seats_of(seats)?;
    let limit = journal_of(journal)?;
    Some(Command::Calendar(ReplayOptions { seats, limit }))
}

/// The command `formula` with the values of `--now` and `--dedicated`.
fn formula(now: Option<&str>, dedicated: Option<&str>) -> Option<Command>
    ensures command { result ≡ formula_with (option_map (λ t. t.now) now.entry) (option_map (λ t. t.now) dedicated.entry) }
    ensures ranges { IfSome result IsInRange }
{
    let now = Moment::of_ms(number_or(0, 0, LAST_MOMENT_MS, now)?)?;
    let dedicated = number_or(0, 0, u64::from(TARGET_LIMIT), dedicated)?;
    Some(Command::Formula(FormulaOptions {
        now,
        dedicated: dedicated as u32,
    }))
}

/// The number of connections that the value of `--connections` is; Some(None), no limit, if there is no value.
fn connections_of(text: Option<&str>) -> Option<Option<u32>>
    ensures value { result ≡ connections_in (option_map (λ t. t.now) text.entry) }
    ensures range { IfSome result (λ connections. IfSome connections (IsWithin 1 CONNECTION_LIMIT)) }
{
    match text {
        None => Some(None),
        Some(text) => {
            let count = number_from_to(1, u64::from(CONNECTION_LIMIT), text.as_bytes())?;
            Some(Some(count as u32))
        }
    }
}

/// The command `serve` with the values of `--seats`, `--journal`, `--port`, `--doors` and `--connections`.
fn serve(
    seats: Option<&str>,
    journal: Option<&str>,
    port: Option<&str>,
    doors: Option<&str>,
    connections: Option<&str>,
) -> Option<Command>
    ensures command { result ≡ serve_with (option_map (λ t. t.now) seats.entry) (option_map (λ t. t.now) journal.entry)
        (option_map (λ t. t.now) port.entry) (option_map (λ t. t.now) doors.entry) (option_map (λ t. t.now) connections.entry) }
    ensures ranges { IfSome result IsInRange }
{
    let seats = seats_of(seats)?;
    let journal = journal_of(journal)?;
    let port = number_or(u64::from(DEFAULT_PORT), 0, u64::from(PORT_LIMIT), port)?;
    let doors = number_or(u64::from(DEFAULT_DOORS), 1, u64::from(DOOR_LIMIT), doors)?;
    let connections = connections_of(connections)?;
    Some(Command::Serve(ServeOptions {
        seats,
        journal,
        port: port as u16,
        doors: doors as u8,
        connections,
    }))
}

/// The command with the values of its options.
fn command_from(name: CommandName, matches: &ArgMatches<'_>) -> Option<Command>
    ensures command { (settings : List Setting) → rows_of (found_of matches.now) ≡ rows_for settings → result ≡ command_with name settings }
    ensures ranges { IfSome result IsInRange }
{
    match name {
        CommandName::Replay => replay(value_of(matches, "seats"), value_of(matches, "journal")),
        CommandName::Calendar => calendar(value_of(matches, "seats"), value_of(matches, "journal")),
        CommandName::Formula => formula(value_of(matches, "now"), value_of(matches, "dedicated")),
        CommandName::Export => Some(Command::Export),
        CommandName::Serve => serve(
            value_of(matches, "seats"),
            value_of(matches, "journal"),
            value_of(matches, "port"),
            value_of(matches, "doors"),
            value_of(matches, "connections"),
        ),
    }
}

/// The path that the value of `--store` is, which is not empty; Some(None) if there is no value.
fn path_of<'a>(text: Option<&'a str>) -> Option<Option<&'a str>>
    ensures { option_map (option_map (λ t. t.now)) result ≡ path_in (option_map (λ t. t.now) text.entry) }
{
    match text {
        None => Some(None),
        Some(text) => {
            if text.is_empty() {
                None
            } else {
                Some(Some(text))
            }
        }
    }
}

/// The path as a word of its own.
fn word_of(alloc: Global, path: Option<&str>) -> Result<Option<Word>, NoMemory>
    ensures { IfOk result (λ word. word ≡ option_map (λ t. t.now) path.entry) }
{
    match path {
        None => Ok(None),
        Some(path) => Ok(Some(Word::new(Vec::from_slice(alloc, path.as_bytes())?))),
    }
}

/// The command with the values of its options and the path of its store; None if a value is not in its range.
pub fn invocation_from(
    alloc: Global,
    name: CommandName,
    matches: &ArgMatches<'_>,
) -> Result<Option<Invocation>, NoMemory>
    ensures invocation { (settings : List Setting) → rows_of (found_of matches.now) ≡ rows_for settings
        → IfOk result (λ r. r ≡ invocation_with name settings) }
    ensures ranges { IfOk result (λ r. IfSome r (λ i. IsInRange i.command)) }
{
    let Some(command) = command_from(name, matches) else {
        return Ok(None);
    };
    let Some(path) = path_of(value_of(matches, "store")) else {
        return Ok(None);
    };
    let store = word_of(alloc, path)?;
    Ok(Some(Invocation { command, store }))
}
