//! The words of a run whose program, launch text and tree document are generated.
ghost use Rattle.std.specs.Prelude.{◌≡◌, IfSome, map, option_map, string_bytes};
ghost use Rattle.command_line.specs.Generating.{asks_to_generate, generate_of, numbers_in, IsGenerateWithin};

use crate::settings::number_or;
use crate::values::number_within;

/// The numbers of a generated run.
#[derive(Clone, Copy, Debug, PartialEq, Eq)]
pub struct GenerateSettings {
    /// The number of child processes, 1 to 128.
    pub processes: u32,
    /// The number of workers, 1 to 64; 4 where none is given.
    pub workers: u32,
}

// The numbers that these words give.
fn numbers_in(processes: &str, workers: Option<&str>) -> Option<GenerateSettings>
    ensures value { result ≡ numbers_in processes.now (option_map (λ text. text.now) workers.entry) }
    ensures within { IfSome result IsGenerateWithin }
{
    let processes = number_within(1, 128, processes)?;
    let workers = number_or(4, 1, 64, workers)?;
    Some(GenerateSettings {
        processes: processes as u32,
        workers: workers as u32,
    })
}

/// Whether the words are of a generated run: the second one is `--generate`.
pub fn asks_to_generate(words: &[String]) -> bool
    ensures { result ≡ asks_to_generate (map string_bytes words.now) }
{
    match words {
        [_, word, ..] => word.as_str() == "--generate",
        _ => false,
    }
}

/// The numbers of a generated run, of words that are `--generate N` or `--generate N --workers W` behind the running program's own
/// name. `None` exactly for other words.
pub fn read_generate(words: &[String]) -> Option<GenerateSettings>
    ensures value { result ≡ generate_of (map string_bytes words.now) }
    ensures within { IfSome result IsGenerateWithin }
{
    if !asks_to_generate(words) {
        return None;
    }
    match words {
        [_, _, processes] => numbers_in(processes, None),
        [_, _, processes, option, workers] if option.as_str() == "--workers" => {
            numbers_in(processes, Some(workers))
        }
        _ => None,
    }
}
