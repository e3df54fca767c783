//! The words of a command line after the command's name, read by `clap`.
//!
//! A command takes from one word to five, and each of them is required. The contract of `exactly` says: what is read are the words themselves, just
//! where there are as many as the command takes, or memory ran out. No word is an option, since `clap` is handed them after the word `--`.
ghost use Rattle.std.specs.Prelude.{◌≡◌, ◌≤◌, List, [], length, map, IfOk, MatchOption, Some, None, option_map, string_bytes};
ghost use Rattle.clap.specs.Walk.{Text, texts};
ghost use Rattle.clap.specs.Simple.{HasMatchesOf, app_of, with_rule};
ghost use Rattle.clap.specs.Faults.{fault_of};
ghost use Rattle.clap.specs.Matches.{found_of};
ghost use Rattle.command_words.specs.Positionals.{after_dashes, exactly, name_of, required, taking, HasValues};

use clap::error::ErrorKind;
use clap::{Arg, ArgMatches, Command};
use std::alloc::{AllocError, Global};

// The name of the argument at this place, counted from 0.
fn name_of<'a>(place: usize) -> &'a str
    ensures { result.now ≡ name_of place }
{
    match place {
        0 => "1",
        1 => "2",
        2 => "3",
        3 => "4",
        _ => "5",
    }
}

// The command with one more argument: one that is required, at this place.
fn with_argument<'a>(
    alloc: Global,
    command: Command<'a>,
    place: usize,
) -> Result<Command<'a>, AllocError>
    ensures { IfOk result (λ longer. app_of longer ≡ with_rule (app_of command.entry) (required (name_of place))) }
{
    command.arg(Arg::new(alloc, name_of(place)).required(true))
}

// A command that takes so many words.
fn taking<'a>(alloc: Global, count: usize) -> Result<Command<'a>, AllocError>
    ensures { IfOk result (λ command. app_of command ≡ taking count) }
{
    let mut command = Command::new(alloc, "words")
        .no_binary_name(true)
        .disable_help_flag(true);
    for place in 0..count {
        command = with_argument(alloc, command, place)?;
    }
    Ok(command)
}

// What the command that takes so many words makes of them, where it takes them.
fn matches_of<'a>(
    alloc: Global,
    count: usize,
    given: &'a [&'a str],
) -> Result<Option<ArgMatches<'a>>, AllocError>
    requires { (1 ≤ count) × (count ≤ 5) }
    ensures { (words : List Text) → texts given.now ≡ after_dashes words
        → IfOk result (λ taken. MatchOption taken (exactly count words ≡ None)
        (λ m. HasMatchesOf (taking count) (after_dashes words) m × (fault_of (taking count) (after_dashes words) ≡ []))) }
{
    let command = taking(alloc, count)?;
    match command.try_get_matches_from(given) {
        Ok(matches) => Ok(Some(matches)),
        Err(error) => {
            if error.kind() == ErrorKind::OutOfMemory {
                Err(AllocError)
            } else {
                Ok(None)
            }
        }
    }
}

// The words with `--` before them.
fn after_dashes<'a>(alloc: Global, words: &'a [String]) -> Result<Vec<&'a str>, AllocError>
    ensures { IfOk result (λ given. texts given.items ≡ after_dashes (map string_bytes words.now)) }
{
    let mut given = Vec::new(alloc);
    given.push("--")?;
    for word in words {
        given.push(word.as_str())?;
    }
    Ok(given)
}

// The values of so many arguments, where each has one.
fn values_of(
    alloc: Global,
    count: usize,
    matches: &ArgMatches,
) -> Result<Option<Vec<String>>, AllocError>
    ensures { (words : List Text) → length words ≡ count → HasValues (found_of matches.now) words
        → IfOk result (λ values. option_map (λ v. map string_bytes v.items) values ≡ Some words) }
{
    let mut values = Vec::new(alloc);
    for place in 0..count {
        let Some(value) = matches.get_str(name_of(place)) else {
            return Ok(None);
        };
        values.push(String::from_str(alloc, value)?)?;
    }
    Ok(Some(values))
}

/// The words, where they are so many, and none where they aren't. Fails where memory runs out.
pub(crate) fn exactly(
    alloc: Global,
    count: usize,
    words: &[String],
) -> Result<Option<Vec<String>>, AllocError>
    requires { (1 ≤ count) × (count ≤ 5) }
    ensures { IfOk result (λ taken. option_map (λ v. map string_bytes v.items) taken ≡ exactly count (map string_bytes words.now)) }
{
    let given = after_dashes(alloc, words)?;
    match matches_of(alloc, count, given.as_slice())? {
        Some(matches) => values_of(alloc, count, &matches),
        None => Ok(None),
    }
}
