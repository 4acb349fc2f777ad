//! The words of the command line.
ghost use Rattle.std.specs.Prelude.{◌≡◌, true, false, IfOk, IfSome, MatchOption, map, option_and_then};
ghost use Rattle.std.specs.List.{list_all};
ghost use Rattle.std.specs.Str.{is_utf8};
ghost use Rattle.cli_words.specs.Commands.{command_of, drill_of, invocation_with, is_drill, settings_of};
ghost use Rattle.cli_words.specs.Ranges.{IsInRange};

use crate::command::{Command, DRILL_LIMIT, Invocation};
use crate::command_name::CommandName;
use crate::number::number_from_to;
use crate::values::invocation_from;
use bt_base::{NoMemory, Word};
use option_words::read_options;
use std::alloc::Global;

/// The words as texts; None if one of them is not UTF-8.
fn texts_of<'a>(alloc: Global, words: &'a [Word]) -> Result<Option<Vec<&'a str>>, NoMemory>
    ensures { IfOk result (λ r. MatchOption r (list_all is_utf8 words.entry.now ≡ false)
        (λ v. (list_all is_utf8 words.entry.now ≡ true) × (map (λ t. t.now) v.items ≡ words.entry.now))) }
{
    let mut texts = Vec::new(alloc);
    for word in words {
        match std::str::from_utf8(word.as_bytes()) {
            Ok(text) => texts.push(text)?,
            Err(_) => return Ok(None),
        }
    }
    Ok(Some(texts))
}

/// The command with this name, whose options are the words.
fn with_options(
    alloc: Global,
    name: CommandName,
    words: &[Word],
) -> Result<Option<Invocation>, NoMemory>
    ensures invocation { IfOk result (λ r. r ≡ option_and_then (invocation_with name) (settings_of name words.now)) }
    ensures ranges { IfOk result (λ r. IfSome r (λ i. IsInRange i.command)) }
{
    let Some(texts) = texts_of(alloc, words)? else {
        return Ok(None);
    };
    let Some(matches) = read_options(alloc, name.text(), name.options(), texts.as_slice())? else {
        return Ok(None);
    };
    invocation_from(alloc, name, &matches)
}

/// Whether the word is the name of `drill`.
#[tactic(auto, unfolding(crate::specs::Commands::is_drill))]
fn is_drill(word: &[u8]) -> bool
    ensures { result ≡ is_drill word.now }
{
    word == "drill".as_bytes()
}

/// The command `drill`, whose number of tasks is the only word.
fn drill(words: &[Word]) -> Option<Invocation>
    ensures invocation { result ≡ drill_of words.now }
    ensures ranges { IfSome result (λ i. IsInRange i.command) }
{
    let [word] = words else {
        return None;
    };
    let count = number_from_to(1, u64::from(DRILL_LIMIT), word.as_bytes())?;
    Some(Invocation {
        command: Command::Drill(count as u32),
        store: None,
    })
}

/// The command that the words are: its name, then its options in any order, each at most once, as `--name value` or
/// `--name=value`; a value in a word of its own does not begin with `-`. Numbers have 1 to 20 digits. `replay` and `calendar` have
/// `--seats` 1 to 32, by default 8, `--journal` 1 to 4,000,000, by default that many, and `--store` with a path that is not empty.
/// `formula` has `--now`, milliseconds since 1970 up to the end of the year 9999, and `--dedicated` 0 to 1,000, both by default 0.
/// `export` has `--store`. `drill` has no options, but one word more, the number of tasks, 1 to 100,000. `serve` has the three of
/// `replay`, and `--port` 0 to 65,535, by default 8,080, `--doors` 1 to 16, by default 4, and `--connections` 1 to 1,000,000, by
/// default no limit.
///
/// Returns None exactly if the words are not a command with its options; so are words after its name that are not UTF-8. The error
/// is that it is out of memory.
pub fn read_command(alloc: Global, words: &[Word]) -> Result<Option<Invocation>, NoMemory>
    ensures command { IfOk result (λ r. r ≡ command_of words.now) }
    ensures ranges { IfOk result (λ r. IfSome r (λ i. IsInRange i.command)) }
{
    let [word, rest @ ..] = words else {
        return Ok(None);
    };
    if is_drill(word.as_bytes()) {
        return Ok(drill(rest));
    }
    match CommandName::read(word.as_bytes()) {
        Some(name) => with_options(alloc, name, rest),
        None => Ok(None),
    }
}
