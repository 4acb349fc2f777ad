//! Reading options by `clap`, and the value of an option.
ghost use Rattle.std.specs.Prelude.{◌≡◌, List, true, false, IfOk, map, option_map, codes};
ghost use Rattle.std.specs.List.{list_all, list_any};
ghost use Rattle.std.specs.Str.{is_utf8};
ghost use Rattle.clap.specs.Words.{app_of, found_of, rows_of, rule_of};
ghost use Rattle.option_words.specs.Options.{Setting, are_names, settings_in, value_for};
ghost use Rattle.option_words.specs.Clap.{is_dashes, option_rule, options_app, rows_for};

use clap::error::ErrorKind;
use clap::{Arg, ArgAction, ArgMatches, Command};
use std::alloc::{AllocError, Global};

/// The option `--name`, which takes one value and is given at most once.
fn option<'a>(alloc: Global, name: &'a str) -> Arg<'a>
    ensures rule { rule_of result ≡ option_rule name.entry.now }
    ensures local { result.global ≡ false }
{
    Arg::new(alloc, name).long(name).action(ArgAction::Set)
}

/// A command with these options alone, without help and version, whose words do not begin with the name of a program. An error
/// is out of memory.
fn command_of<'a>(
    alloc: Global,
    name: &'a str,
    options: &'a [&'a str],
) -> Result<Command<'a>, AllocError>
    ensures { IfOk result (λ c. app_of c ≡ options_app name.entry.now (map (λ o. o.now) options.entry.now)) }
{
    let mut command = Command::new(alloc, name)
        .no_binary_name(true)
        .disable_help_flag(true)
        .disable_version_flag(true);
    for each in options {
        command = command.arg(option(alloc, each))?;
    }
    Ok(command)
}

/// Whether the word is `-` or `--`, which `clap` would take.
fn is_dashes(word: &str) -> bool
    ensures { result ≡ is_dashes word.now }
{
    word == "-" || word == "--"
}

/// Whether any word is `-` or `--`.
fn has_dashes(words: &[&str]) -> bool
    ensures { result ≡ list_any is_dashes (map (λ w. w.now) words.now) }
{
    for word in words {
        if is_dashes(word) {
            return true;
        }
    }
    false
}

/// Reads the words that come after a command's name as options of these names, each with its value. Each name has at least one byte
/// and no `=`; the words are UTF-8, and may be any. `name` is the name of the command in `clap`'s errors.
///
/// Returns what `clap` found, whose rows are the options in the order of the words; None exactly if the words are not options with
/// their values, each given at most once. An error is out of memory.
pub fn read_options<'a>(
    alloc: Global,
    name: &'a str,
    options: &'a [&'a str],
    words: &'a [&'a str],
) -> Result<Option<ArgMatches<'a>>, AllocError>
    requires names { are_names (map (λ o. o.now) options.now) ≡ true }
    requires texts { list_all is_utf8 (map (λ w. w.now) words.now) ≡ true }
    ensures { IfOk result (λ r. option_map (λ m. rows_of (found_of m)) r
        ≡ option_map rows_for (settings_in (map (λ o. o.now) options.entry.now) (map (λ w. w.now) words.entry.now))) }
{
    if has_dashes(words) {
        return Ok(None);
    }
    let command = command_of(alloc, name, options)?;
    match command.try_get_matches_from(words) {
        Ok(matches) => Ok(Some(matches)),
        Err(error) => match error.kind() {
            ErrorKind::OutOfMemory => Err(AllocError),
            _ => Ok(None),
        },
    }
}

/// The value of the option with this name; None if the words do not have it. It does not allocate.
pub fn value_of<'a>(matches: &ArgMatches<'a>, name: &str) -> Option<&'a str>
    ensures { (settings : List Setting) → rows_of (found_of matches.now) ≡ rows_for settings
        → option_map (λ s. s.now) result ≡ value_for name.now settings }
{
    matches.get_str(name)
}
