//! The summary of a run whose program was generated: how many calls it made and of which number, how many were denied, what files it left,
//! and how it ended.
ghost use Rattle.std.specs.Prelude.{◌≡◌, ◌++◌, List, IfOk, OnOk, true};
ghost use Rattle.run_types.specs.declared.history.Entry.{Entry};
ghost use Rattle.run_report.specs.Report.{AreOf};
ghost use Rattle.run_report.specs.Summary.{end_lines, summary_of, tree_line};
ghost use Rattle.run_report.specs.TreeSizes.{bytes_count, files_count};

use crate::counts::{append_numbers, calls_count};
use crate::report_text::status_text;
use crate::tree_sizes::sizes_of;
use abi_types::{Bytes, Pid};
use block_list::BlockList;
use denied_calls::DeniedCall;
use file_tree::Tree;
use kernel_core::Kernel;
use run_types::Entry;
use std::alloc::{AllocError, Global};

/// The summary of a run with so many child processes, whose kernel stands so and whose history has these denied calls and these entries.
/// It is the summary of each history that they are of.
///
/// It has a line each for the number of processes, for the number of calls, for each call of which there are any with their number, for
/// the number of denied calls, for the number of files in the final tree with the number of their bytes, for how process 0 stands, and
/// for whether the run ended or stalled. `specs/Summary.antt` has its text.
pub fn summary(
    alloc: Global,
    kernel: &Kernel,
    processes: u32,
    denied: &BlockList<DeniedCall>,
    entries: &BlockList<Entry>,
) -> Result<Bytes, AllocError>
    ensures { (history : List Entry) → AreOf history true denied.now.items entries.now.items
        → IfOk result (λ text. text ≡ summary_of processes kernel.now history) }
{
    let mut text = Bytes::new(alloc);
    text.append(format!(in alloc; "generated {processes}\n")?.as_bytes())?;
    let calls = calls_count(entries);
    text.append(format!(in alloc; "calls {calls}\n")?.as_bytes())?;
    append_numbers(alloc, &mut text, entries)?;
    let count = denied.len();
    text.append(format!(in alloc; "denials {count}\n")?.as_bytes())?;
    append_tree_sizes(alloc, &mut text, kernel.tree())?;
    append_end(alloc, &mut text, kernel)?;
    Ok(text)
}

// Puts how many files the tree has and how many bytes they hold at the end. `Err` may leave a part of it.
fn append_tree_sizes(alloc: Global, text: &mut Bytes, tree: &Tree) -> Result<(), AllocError>
    ensures { OnOk result (text.new ≡ text.old ++ tree_line (files_count tree.now) (bytes_count tree.now)) }
{
    let sizes = sizes_of(alloc, tree)?;
    text.append(format!(in alloc; "tree {} {}\n", sizes.files, sizes.bytes)?.as_bytes())
}

// Puts how process 0 stands and whether the run ended at the end. `Err` may leave a part of it.
fn append_end(alloc: Global, text: &mut Bytes, kernel: &Kernel) -> Result<(), AllocError>
    ensures { OnOk result (text.new ≡ text.old ++ end_lines kernel.now) }
{
    let status = status_text(alloc, kernel.status(Pid(0)))?;
    let run = if kernel.any_live() {
        "stalled"
    } else {
        "ended"
    };
    text.append(format!(in alloc; "status {status}\nrun {run}\n")?.as_bytes())
}
