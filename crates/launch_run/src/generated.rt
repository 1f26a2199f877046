//! The top call of a run whose program, launch text and tree document are generated.
ghost use Rattle.std.specs.Prelude.{◌≡◌, ◌≤◌, ◌∷◌, None, Some, OnOk, IfOk, length, map, string_bytes};
ghost use Rattle.command_line.specs.Generating.{generate_of, IsGenerateWithin};
ghost use Rattle.command_line.specs.Settings.{IsWithin, view};
ghost use Rattle.launch_reading.specs.Launch.{input_limit};
ghost use Rattle.book_report.specs.Growth.{growth};
ghost use Rattle.book_report.specs.Shown.{record_summary};
ghost use Rattle.launch_run.specs.Answer.{IsAnswer};
ghost use Rattle.launch_run.specs.GeneratedCall.{AreShort, IsGeneratedEnd, IsGeneratedStatus, IsSourceFor, OfGenerated, generated_inputs, processes_in, settings_for};

use crate::top::{Finished, TopEnd, finish, refused, run_settings};
use book_report::Shown;
use command_line::{GenerateSettings, LaunchSettings, read_generate};
use guest_kit::{Generated, generate};
use input_output::{INPUT_LIMIT, Sink, SteadySource};
use launch_reading::LaunchRefusal;
use lists::Bytes;
use process_cell::Gate;
use std::alloc::{AllocError, Global};
use std::sync::Wait;
use std::thread::Threads;

// How many turns each process may do.
const TURNS: u64 = 100_000_000;

// The settings of a run of these numbers.
fn settings_for(numbers: GenerateSettings) -> LaunchSettings<'static>
    requires { IsGenerateWithin numbers }
    ensures settings { view result ≡ settings_for numbers }
    ensures within { IsWithin (view result) }
{
    LaunchSettings {
        program: "program",
        tree: Some("tree"),
        stdin: None,
        workers: numbers.workers,
        turns: TURNS,
        key: [0; 32],
        epoch: 0,
        history: true,
    }
}

// Gives an input its bytes. More bytes than an input may have are taken for lack of memory.
fn add_input(source: &mut SteadySource, name: &str, bytes: &Bytes) -> Result<(), AllocError>
    ensures short { OnOk result (length bytes.now ≤ input_limit) }
    ensures added { OnOk result (source.new ≡ record { name = name.now; bytes = bytes.now } ∷ source.old) }
{
    if bytes.len() > INPUT_LIMIT {
        return Err(AllocError);
    }
    source.add(name, bytes.as_slice())?;
    Ok(())
}

// What was generated, by the names of the inputs. The launch text is that of standard input.
fn source_of(alloc: Global, generated: &Generated) -> Result<SteadySource, AllocError>
    ensures inputs { IfOk result (λ source. source ≡ generated_inputs generated.now) }
    ensures short { OnOk result (AreShort generated.now) }
{
    let mut source = SteadySource::new(alloc);
    add_input(&mut source, "program", &generated.program)?;
    add_input(&mut source, "-", &generated.launch)?;
    add_input(&mut source, "tree", &generated.tree)?;
    Ok(source)
}

// Generates the inputs of a run with so many child processes.
fn generated_source(alloc: Global, processes: u32) -> Result<SteadySource, AllocError>
    requires { (1 ≤ processes) × (processes ≤ 128) }
    ensures { IfOk result (IsSourceFor processes) }
{
    let generated = generate(alloc, processes)?;
    source_of(alloc, &generated)
}

// Generates the inputs of a run of these numbers, runs it, and writes its summary, or the line of a refusal.
fn run_numbers<K: Sink, G: Gate + Sync, R: Threads + Wait + Sync>(
    rt: &R,
    alloc: Global,
    numbers: GenerateSettings,
    gate: &G,
    sink: &mut K,
) -> TopEnd<'static>
    requires { IsGenerateWithin numbers }
    ensures sink_faults { K.faults sink.old ≤ K.faults sink.new }
    ensures end { IsGeneratedEnd (Some numbers) (growth K.written K.faults sink.old sink.new) result }
{
    let processes = numbers.processes;
    let Ok(mut source) = generated_source(alloc, processes) else {
        return refused(LaunchRefusal::Memory, sink);
    };
    let settings = settings_for(numbers);
    let shown = Shown::Summary { processes };
    run_settings(rt, alloc, &settings, shown, gate, &mut source, sink)
}

// Reads the words, generates the inputs, runs them, and writes the summary, or the line of a refusal.
fn generate_and_run<K: Sink, G: Gate + Sync, R: Threads + Wait + Sync>(
    rt: &R,
    alloc: Global,
    words: &[String],
    gate: &G,
    sink: &mut K,
) -> TopEnd<'static>
    ensures sink_faults { K.faults sink.old ≤ K.faults sink.new }
    ensures end { IsGeneratedEnd (generate_of (map string_bytes words.now)) (growth K.written K.faults sink.old sink.new) result }
{
    match read_generate(words) {
        Some(numbers) => run_numbers(rt, alloc, numbers, gate, sink),
        None => refused(LaunchRefusal::Words, sink),
    }
}

/// Generates a program with its launch text and its tree document for so many child processes as the words say, runs it, and writes the
/// summary of its run.
///
/// The status is 0 where the run ended and process 0 exited with 0, 1 where it ended otherwise, 71 where it stalled, 2 for faulty words, 69
/// where the sink failed while the summary was written, and 70 where memory ran out; and 65, 67 and 68 are as `run_launch` says. No input
/// is read.
///
/// The run's processes are run by as many workers as the words say, each a thread of its own, which pass the gate.
pub fn run_generated<K: Sink, G: Gate + Sync, R: Threads + Wait + Sync>(
    rt: &R,
    alloc: Global,
    words: &[String],
    gate: &G,
    sink: &mut K,
) -> Finished
    ensures sink_faults { K.faults sink.old ≤ K.faults sink.new }

    // Which statuses there are, none of them for an input, and when that of the words comes.
    ensures statuses { IsGeneratedStatus result.status }
    ensures words { result.status ≡ 2 → generate_of (map string_bytes words.now) ≡ None }
    ensures words_refused { generate_of (map string_bytes words.now) ≡ None → result.status ≡ 2 }

    // What each status says and what was written, what is kept, and what is answered: nothing is read, so no fault comes.
    ensures answer { IsAnswer (OfGenerated (generate_of (map string_bytes words.now))) ⊥ (record_summary (processes_in (generate_of (map string_bytes words.now))))
        (growth K.written K.faults sink.old sink.new) result }
{
    finish(generate_and_run(rt, alloc, words, gate, sink))
}
