//! The report of a run: what the program wrote, how it ended, which calls were denied, and what files it left.
ghost use Rattle.std.specs.Prelude.{◌≡◌, List, ◌++◌, IfOk, OnOk, None, Some, codes};
ghost use Rattle.std.specs.FinMap as map;
ghost use Rattle.std.specs.String.{string_bytes};
ghost use Rattle.run_types.specs.declared.history.Entry.{Entry};
ghost use Rattle.run_report.specs.Report.{report_of, AreOf, stream_text, status_text, signal_text, run_text, end_text, ending, tree_text};

use crate::denials::append_denials;
use crate::history_lines::append_history;
use abi_types::{Bytes, Pid, Signal, Status};
use block_list::BlockList;
use denied_calls::DeniedCall;
use file_tree::Tree;
use kernel_core::Kernel;
use run_types::Entry;
use std::alloc::{AllocError, Global};
use tree_document::tree_text;

/// The report of a run whose kernel stands so and whose history has these denied calls, with a line for each entry of the
/// history where `lines` is set. The entries are read only there, and it is the report of each history that they and the denied
/// calls may be of.
///
/// It has, in order: what was written to stdout and to stderr, each under a line with its length; how process 0
/// stands; whether the run ended, or stalled with a process still live; the denied calls, in the history's order; the
/// records of the final file tree, under a line with their number; and the history's lines. `specs/Report.antt` has its text.
pub fn report(
    alloc: Global,
    kernel: &Kernel,
    denied: &BlockList<DeniedCall>,
    entries: &BlockList<Entry>,
    lines: bool,
) -> Result<Bytes, AllocError>
    ensures { (history : List Entry) → AreOf history lines denied.now.items entries.now.items
        → IfOk result (λ text. text ≡ report_of kernel.now history lines) }
{
    let mut text = Bytes::new(alloc);
    append_stream(alloc, &mut text, "stdout", kernel.output(1))?;
    append_stream(alloc, &mut text, "stderr", kernel.output(2))?;
    append_end(alloc, &mut text, kernel)?;
    append_denials(alloc, &mut text, denied)?;
    append_tree(alloc, &mut text, kernel.tree())?;
    if lines {
        append_history(alloc, &mut text, entries)?;
    }
    Ok(text)
}

// Puts what was written to a standard stream at the end, under a line with its length. `Err` may leave a part of it.
fn append_stream(
    alloc: Global,
    text: &mut Bytes,
    name: &str,
    written: &[u8],
) -> Result<(), AllocError>
    ensures { OnOk result (text.new ≡ text.old ++ stream_text name.now written.now) }
{
    let count = written.len();
    text.append(format!(in alloc; "== {name} {count}\n")?.as_bytes())?;
    text.append(written)?;
    text.append(ending(written))
}

// The line feed that ends a last line without one.
fn ending(written: &[u8]) -> &'static [u8]
    ensures { result.now ≡ ending written.now }
{
    match written.last() {
        None | Some(b'\n') => b"",
        Some(_) => b"\n",
    }
}

// Puts how process 0 stands and whether the run ended at the end. `Err` may leave a part of it.
fn append_end(alloc: Global, text: &mut Bytes, kernel: &Kernel) -> Result<(), AllocError>
    ensures { OnOk result (text.new ≡ text.old ++ end_text kernel.now) }
{
    let status = status_text(alloc, kernel.status(Pid(0)))?;
    let run = if kernel.any_live() {
        "stalled"
    } else {
        "ended"
    };
    text.append(format!(in alloc; "== status {status}\n== run {run}\n")?.as_bytes())
}

// Puts the records of a file tree at the end, under a line with their number. `Err` may leave a part of it.
fn append_tree(alloc: Global, text: &mut Bytes, tree: &Tree) -> Result<(), AllocError>
    ensures { OnOk result (text.new ≡ text.old ++ tree_text tree.now) }
{
    let document = tree_text(alloc, tree)?;
    let count = document.records;
    text.append(format!(in alloc; "== tree {count}\n")?.as_bytes())?;
    text.append(document.text.as_slice())
}

/// How a process stands, in words.
pub(crate) fn status_text(alloc: Global, status: Option<Status>) -> Result<String, AllocError>
    ensures { IfOk result (λ text. string_bytes text ≡ status_text status) }
{
    match status {
        None => String::from_str(alloc, "absent"),
        Some(Status::Live) => String::from_str(alloc, "live"),
        Some(Status::Exit(code)) => format!(in alloc; "exit {code}"),
        Some(Status::Killed(signal)) => signal_text(alloc, signal),
    }
}

// The end of a process by a signal, in words.
fn signal_text(alloc: Global, signal: Signal) -> Result<String, AllocError>
    ensures { IfOk result (λ text. string_bytes text ≡ signal_text signal) }
{
    format!(in alloc; "signal {} {}", signal.number(), signal.name())
}
