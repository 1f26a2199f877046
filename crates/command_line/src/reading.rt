//! The words of a run.
ghost use Rattle.std.specs.Prelude.{◌≡◌, ◌≢◌, true, IfOk, IfErr, [], map, string_bytes};
ghost use Rattle.clap.specs.Words.{app_of, fault_of, found_of, is_simple_and_free, matches_of, rows_of};
ghost use Rattle.command_line.specs.Settings.{IsWithin, view};
ghost use Rattle.command_line.specs.Reading.{words_of, IfAt};
ghost use Rattle.lists.specs.Options.{Reads};

use crate::command::launch_command;
use crate::settings::{LaunchSettings, settings};
use clap::error::ErrorKind;
use clap::{ArgMatches, Command};
use lists::Stop;
use std::alloc::Global;
use thiserror::Error;

/// The words are not in the grammar.
#[derive(Clone, Copy, Debug, PartialEq, Error)]
#[error("the words are not those of a run")]
pub struct CommandLineFault;

// What the command finds in the words.
fn matches_in<'a>(
    command: Command<'a>,
    words: &'a [String],
) -> Result<ArgMatches<'a>, Stop<CommandLineFault>>
    requires { is_simple_and_free (app_of command) ≡ true }
    ensures taken { IfOk result (λ matches. fault_of (app_of command.entry) (map string_bytes words.entry.now) ≡ []) }
    ensures matches { IfOk result (λ matches. rows_of (found_of matches) ≡ matches_of (app_of command.entry) (map string_bytes words.entry.now)) }
    ensures refused { IfErr result (λ stop. IfAt stop (fault_of (app_of command.entry) (map string_bytes words.entry.now) ≢ [])) }
{
    match command.try_get_matches_from(words) {
        Ok(matches) => Ok(matches),
        Err(error) => match error.kind() {
            ErrorKind::OutOfMemory => Err(Stop::Memory),
            _ => Err(Stop::At(CommandLineFault)),
        },
    }
}

/// The settings that the words stand for. The first word is the running program's own name and is not looked at; the others
/// are `[--tree FILE] [--stdin FILE] [--workers N] [--turns N] [--key HEX] [--epoch NS] [--history] PROGRAM`. An option
/// stands at most once, in any place before `--`, with its value in the next word or after `=`; behind `--` each word is
/// just a word. There is a fault exactly in words that stand for no settings.
pub fn read_words<'a>(
    alloc: Global,
    words: &'a [String],
) -> Result<LaunchSettings<'a>, Stop<CommandLineFault>>
    ensures read { Reads view result (words_of (map string_bytes words.entry.now)) }
    ensures within { IfOk result (λ settings. IsWithin (view settings)) }
{
    let command = launch_command(alloc)?;
    let matches = matches_in(command, words)?;
    settings(&matches).ok_or(Stop::At(CommandLineFault))
}
