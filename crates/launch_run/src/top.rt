//! The top call: from the words of a command line to a status, a record, and what is written.
ghost use Rattle.std.specs.Prelude.{◌≡◌, ◌⊎◌, ◌≤◌, ℕ, List, None, Some, map, string_bytes, All};
ghost use Rattle.input_output.specs.Source.{Rose};
ghost use Rattle.command_line.specs.Settings.{IsWithin, view};
ghost use Rattle.command_line.specs.Reading.{words_of};
ghost use Rattle.launch_reading.specs.Launch.{launch_of, inputs_of, settings_inputs, asks_history};
ghost use Rattle.launch_reading.specs.Refusal.{line_of};
ghost use Rattle.call_codec.specs.Bounded.{IsBounded};
ghost use Rattle.book_report.specs.Ends.{IsEndOf};
ghost use Rattle.book_report.specs.Growth.{Wrote, growth};
ghost use Rattle.book_report.specs.Shown.{keeps_entries, record_report, shown_text};
ghost use Rattle.launch_run.specs.Answer.{IsAnswer, OfWords};
ghost use Rattle.launch_run.specs.Results.{IsInputRefused, IsTopStatus, status_number};
ghost use Rattle.launch_run.specs.TopCall.{IsReportedEnd, IsTopEnd, ReportsEnd, finished_of, finished_run};
ghost use Rattle.launch_run.specs.declared.top.TopEnd.TheVariants.{Refused};

use abi_types::Status;
use book_report::{Ending, RunEnd, Shown, record_of, report_run};
use command_line::{CommandLineFault, LaunchSettings, read_words};
use input_output::{Sink, Source};
use kernel_cell::{Begun, Record};
use launch_reading::{LaunchRefusal, read_launch};
use lists::Stop;
use process_cell::{Driven, Gate, drive};
use run_types::Launch;
use std::alloc::Global;
use std::sync::Wait;
use std::thread::Threads;

/// What the top call answers: the exit status, and the record of the run, where one is kept.
#[derive(Drop)]
pub struct Finished {
    pub status: u8,
    pub kept: Option<Record>,
}

// The exit status for process 0's status: 0 where it exited with 0, else 1.
fn status_number(status: Option<Status>) -> u8
    ensures { result ≡ status_number status }
{
    match status {
        Some(Status::Exit(0)) => 0,
        _ => 1,
    }
}

// Runs a launch to its end with this many workers, and writes what is shown of it.
fn run_launched<K: Sink, G: Gate + Sync, R: Threads + Wait + Sync>(
    rt: &R,
    alloc: Global,
    launch: Launch,
    workers: u32,
    gate: &G,
    shown: Shown,
    sink: &mut K,
) -> RunEnd
    requires { IsBounded launch }
    ensures faults_never_fall { K.faults sink.old ≤ K.faults sink.new }
    ensures end { IsEndOf launch (keeps_entries shown) (shown_text shown) (growth K.written K.faults sink.old sink.new) result }
{
    let Ok(begun) = Begun::begin(alloc, launch, shown.keeps_entries()) else {
        return RunEnd::NotBegun;
    };
    match drive(rt, alloc, begun, workers, gate) {
        Driven::Ended(book) => report_run(alloc, book, Ending::Ended, shown, sink),
        Driven::Stalled(book) => report_run(alloc, book, Ending::Stalled, shown, sink),
        Driven::Lacking(book) => RunEnd::Lacking(record_of(book)),
        Driven::NotBegun(_) => RunEnd::NotBegun,
    }
}

// Says that memory ran out, where it was. A fault of the sink changes nothing of the end.
fn report_end<K: Sink>(end: &RunEnd, sink: &mut K)
    ensures faults_never_fall { K.faults sink.old ≤ K.faults sink.new }
    ensures content { ReportsEnd (growth K.written K.faults sink.old sink.new) end.now }
{
    match end {
        RunEnd::Reported(..) | RunEnd::StallReported(_) | RunEnd::Unwritten(_) => {}
        RunEnd::NotBegun | RunEnd::Lacking(_) => refuse(&LaunchRefusal::Memory, sink),
    }
}

// Writes a refusal's line. A fault of the sink changes nothing of the status.
fn refuse<K: Sink>(refusal: &LaunchRefusal<'_>, sink: &mut K)
    ensures faults_never_fall { K.faults sink.old ≤ K.faults sink.new }
    ensures wrote { Wrote (growth K.written K.faults sink.old sink.new) (line_of refusal.now) }
{
    let _ = refusal.write_line(sink);
}

// Runs a launch to its end, and writes what is shown of it, or the line that says that memory ran out.
fn run_reported<K: Sink, G: Gate + Sync, R: Threads + Wait + Sync>(
    rt: &R,
    alloc: Global,
    launch: Launch,
    workers: u32,
    gate: &G,
    shown: Shown,
    sink: &mut K,
) -> RunEnd
    requires { IsBounded launch }
    ensures faults_never_fall { K.faults sink.old ≤ K.faults sink.new }
    ensures end { IsReportedEnd launch (keeps_entries shown) (shown_text shown) (growth K.written K.faults sink.old sink.new) result }
{
    let end = run_launched(rt, alloc, launch, workers, gate, shown, sink);
    report_end(&end, sink);
    end
}

/// How the call ended.
#[derive(Drop)]
pub enum TopEnd<'a> {
    /// No run began.
    Refused(LaunchRefusal<'a>),
    /// A run came to this end.
    Ran(RunEnd),
}

/// A refusal, with its line written.
pub(crate) fn refused<'a, K: Sink>(refusal: LaunchRefusal<'a>, sink: &mut K) -> TopEnd<'a>
    ensures end { result ≡ Refused refusal.entry }
    ensures faults_never_fall { K.faults sink.old ≤ K.faults sink.new }
    ensures wrote { Wrote (growth K.written K.faults sink.old sink.new) (line_of refusal.entry) }
{
    refuse(&refusal, sink);
    TopEnd::Refused(refusal)
}

/// Reads the launch of these settings, runs it, and writes what is shown of it, or the line of a refusal.
pub(crate) fn run_settings<'a, S: Source, K: Sink, G: Gate + Sync, R: Threads + Wait + Sync>(
    rt: &R,
    alloc: Global,
    settings: &LaunchSettings<'a>,
    shown: Shown,
    gate: &G,
    source: &mut S,
    sink: &mut K,
) -> TopEnd<'a>
    requires may_read { All (S.may_read source.old) (settings_inputs (view settings.now)) }
    requires within { IsWithin (view settings.now) }
    requires kept { keeps_entries shown ≡ settings.now.history }
    ensures content_stays { (n : List ℕ) → S.content source.new n ≡ S.content source.old n }
    ensures source_faults { S.faults source.old ≤ S.faults source.new }
    ensures sink_faults { K.faults sink.old ≤ K.faults sink.new }
    ensures end { IsTopEnd (Some (view settings.now)) (S.content source.old) (Rose (S.faults source.old) (S.faults source.new)) (shown_text shown) (growth K.written K.faults sink.old sink.new) result }
{
    match read_launch(alloc, settings, source) {
        Ok(launch) => TopEnd::Ran(run_reported(
            rt,
            alloc,
            launch,
            settings.workers,
            gate,
            shown,
            sink,
        )),
        Err(refusal) => refused(refusal, sink),
    }
}

// Reads the words and their launch, runs it, and writes its report, or the line of a refusal.
fn launch_and_run<'a, S: Source, K: Sink, G: Gate + Sync, R: Threads + Wait + Sync>(
    rt: &R,
    alloc: Global,
    words: &'a [String],
    gate: &G,
    source: &mut S,
    sink: &mut K,
) -> TopEnd<'a>
    requires { All (S.may_read source.old) (inputs_of (map string_bytes words.now)) }
    ensures content_stays { (n : List ℕ) → S.content source.new n ≡ S.content source.old n }
    ensures source_faults { S.faults source.old ≤ S.faults source.new }
    ensures sink_faults { K.faults sink.old ≤ K.faults sink.new }
    ensures unread { words_of (map string_bytes words.now) ≡ None → source.new ≡ source.old }
    ensures end { IsTopEnd (words_of (map string_bytes words.now)) (S.content source.old) (Rose (S.faults source.old) (S.faults source.new))
        (record_report (asks_history (map string_bytes words.now))) (growth K.written K.faults sink.old sink.new) result }
{
    match read_words(alloc, words) {
        Ok(settings) => {
            let lines = settings.history;
            let shown = Shown::Report { lines };
            run_settings(rt, alloc, &settings, shown, gate, source, sink)
        }
        Err(Stop::At(CommandLineFault)) => refused(LaunchRefusal::Words, sink),
        Err(Stop::Memory) => refused(LaunchRefusal::Memory, sink),
    }
}

// What the call answers for the end of a run.
fn finished_run(end: RunEnd) -> Finished
    ensures { result ≡ finished_run end }
{
    match end {
        RunEnd::Reported(record, status) => Finished {
            status: status_number(status),
            kept: Some(record),
        },
        RunEnd::StallReported(record) => Finished {
            status: 71,
            kept: Some(record),
        },
        RunEnd::Unwritten(record) => Finished {
            status: 69,
            kept: Some(record),
        },
        RunEnd::NotBegun => Finished {
            status: 70,
            kept: None,
        },
        RunEnd::Lacking(record) => Finished {
            status: 70,
            kept: Some(record),
        },
    }
}

/// What the call answers.
pub(crate) fn finish(end: TopEnd<'_>) -> Finished
    ensures { result ≡ finished_of end.entry }
{
    match end {
        TopEnd::Refused(refusal) => Finished {
            status: refusal.status(),
            kept: None,
        },
        TopEnd::Ran(end) => finished_run(end),
    }
}

/// Runs the program that the words name on the launch text of standard input, and writes its report.
///
/// The status is 0 where the run ended and process 0 exited with 0, 1 where it ended otherwise, 71 where it stalled, 2 for faulty words, 65
/// for a launch text, 67 for a program and 68 for a tree document that is refused, 66 for an input that can't be read or
/// is too long, 69 where the sink failed while the report was written, and 70 where memory ran out. What a refusal writes
/// is its line, or a prefix of it where the sink failed.
///
/// The run's processes are run by as many workers as the words say, each a thread of its own, which pass the gate. The record's
/// history is what contracts see; in memory are its entries where the words ask for the history, and else those of denied calls.
pub fn run_launch<S: Source, K: Sink, G: Gate + Sync, R: Threads + Wait + Sync>(
    rt: &R,
    alloc: Global,
    words: &[String],
    gate: &G,
    source: &mut S,
    sink: &mut K,
) -> Finished
    requires { All (S.may_read source.old) (inputs_of (map string_bytes words.now)) }

    // The counts of faults never fall, and what the source shows stays.
    ensures content_stays { (n : List ℕ) → S.content source.new n ≡ S.content source.old n }
    ensures source_faults { S.faults source.old ≤ S.faults source.new }
    ensures sink_faults { K.faults sink.old ≤ K.faults sink.new }

    // Which statuses there are, and when those of the words and of reading come.
    ensures statuses { IsTopStatus result.status }
    ensures words { result.status ≡ 2 → words_of (map string_bytes words.now) ≡ None }
    ensures words_refused { words_of (map string_bytes words.now) ≡ None → (result.status ≡ 2) ⊎ (result.status ≡ 70) }
    ensures unread { words_of (map string_bytes words.now) ≡ None → source.new ≡ source.old }
    ensures input { result.status ≡ 66 → IsInputRefused (inputs_of (map string_bytes words.now)) (launch_of (map string_bytes words.now) (S.content source.old))
        (Rose (S.faults source.old) (S.faults source.new)) (growth K.written K.faults sink.old sink.new) }

    // What each other status says and what was written, what is kept, and what is answered if no fault came.
    ensures answer { IsAnswer (OfWords (map string_bytes words.now) (S.content source.old)) (Rose (S.faults source.old) (S.faults source.new))
        (record_report (asks_history (map string_bytes words.now))) (growth K.written K.faults sink.old sink.new) result }
{
    finish(launch_and_run(rt, alloc, words, gate, source, sink))
}
