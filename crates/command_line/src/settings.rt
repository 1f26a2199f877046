//! The settings of a run.
ghost use Rattle.std.specs.Prelude.{◌≡◌, ◌≤◌, Bool, true, IfSome, Some, codes, option_map, replicate};
ghost use Rattle.clap.specs.Matches.{found_of, one_text};
ghost use Rattle.clap.specs.Values.{bool_text};
ghost use Rattle.command_line.specs.Found.{given_in};
ghost use Rattle.command_line.specs.Settings.{IsWithin, optional, or_default, settings_of, view};
ghost use Rattle.command_line.specs.Values.{file_of, is_file, key_of, number_of};

use crate::values::{file_name, key, number_within};
use clap::ArgMatches;

/// The settings that the words of a run stand for.
#[derive(Clone, Copy, PartialEq)]
pub struct LaunchSettings<'a> {
    /// The name of the program's file; neither empty nor `-`.
    pub program: &'a str,
    /// The name of the file with the tree document, if one is given; neither empty nor `-`.
    pub tree: Option<&'a str>,
    /// The name of the file that the program reads as standard input, if one is given; neither empty nor `-`.
    pub stdin: Option<&'a str>,
    /// The number of workers, 1 to 64; 4 where none is given.
    pub workers: u32,
    /// The number of turns that each process may do, 1 to 1,000,000,000; 100,000 where none is given.
    pub turns: u64,
    /// The key of the random words; all 0 where none is given.
    pub key: [u8; 32],
    /// The time at which the run begins, in nanoseconds, 0 to 2^62; 0 where none is given.
    pub epoch: u64,
    /// Whether the report has the history.
    pub history: bool,
}

// A file's name, where one is given.
fn optional_file<'a>(value: Option<&'a str>) -> Option<Option<&'a str>>
    ensures value { option_map (option_map (λ name. name.now)) result ≡ optional file_of (option_map (λ text. text.now) value.entry) }
    ensures named { IfSome result (λ name. IfSome name (λ name. is_file name.now ≡ true)) }
{
    match value {
        None => Some(None),
        Some(text) => Some(Some(file_name(text)?)),
    }
}

/// A number from `least` to `most`, or `default` where none is given.
pub(crate) fn number_or(default: u64, least: u64, most: u64, value: Option<&str>) -> Option<u64>
    requires { (least ≤ default) × (default ≤ most) }
    ensures value { result ≡ or_default default (number_of least most) (option_map (λ text. text.now) value.entry) }
    ensures within { IfSome result (λ n. (least ≤ n) × (n ≤ most)) }
{
    match value {
        None => Some(default),
        Some(text) => number_within(least, most, text),
    }
}

// A key, or 32 zeros where none is given.
fn key_or_zeros(value: Option<&str>) -> Option<[u8; 32]>
    ensures { result ≡ or_default (replicate 32 0) key_of (option_map (λ text. text.now) value.entry) }
{
    match value {
        None => Some([0; 32]),
        Some(text) => key(text),
    }
}

/// The settings, where each value that was found is one that its option may have.
#[tactic(auto, unfolding(crate::specs::Settings::settings_of))]
pub(crate) fn settings<'a>(matches: &ArgMatches<'a>) -> Option<LaunchSettings<'a>>
    ensures within { IfSome result (λ settings. IsWithin (view settings)) }
    ensures value { (history : Bool) → one_text (found_of matches.now) (codes "history") ≡ Some (bool_text history) → option_map view result ≡ settings_of (given_in (found_of matches.now) history) }
{
    let program = file_name(matches.get_str("program")?)?;
    let tree = optional_file(matches.get_str("tree"))?;
    let stdin = optional_file(matches.get_str("stdin"))?;
    let workers = number_or(4, 1, 64, matches.get_str("workers"))?;
    let turns = number_or(100_000, 1, 1_000_000_000, matches.get_str("turns"))?;
    let key = key_or_zeros(matches.get_str("key"))?;
    let epoch = number_or(0, 0, 1 << 62, matches.get_str("epoch"))?;
    Some(LaunchSettings {
        program,
        tree,
        stdin,
        workers: workers as u32,
        turns,
        key,
        epoch,
        history: matches.get_flag("history"),
    })
}
