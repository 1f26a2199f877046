//! How the run of a launch ended, and what was written of it then.
ghost use Rattle.std.specs.Prelude.{◌≡◌, ◌≤◌};
ghost use Rattle.kernel_cell.specs.Cell.{IsBookOf};
ghost use Rattle.book_report.specs.Ends.{IsEndOf, IsOverSo, reported_end};
ghost use Rattle.book_report.specs.Growth.{growth};
ghost use Rattle.book_report.specs.Shown.{keeps_entries, recorded, shown_text};

use crate::shown::Shown;
use abi_types::Status;
use guest_process::FIRST;
use input_output::{Sink, write_whole};
use kernel_cell::{Book, Record};
use std::alloc::Global;

/// How the run of a launch ended.
#[derive(Drop)]
pub enum RunEnd {
    /// It ended and what is shown of it was written; process 0 stands so.
    Reported(Record, Option<Status>),
    /// It stalled and what is shown of it was written.
    StallReported(Record),
    /// It ended or stalled, and the sink failed while what is shown of it was written.
    Unwritten(Record),
    /// Memory ran out before the run began.
    NotBegun,
    /// Memory ran out, and this was recorded until then.
    Lacking(Record),
}

/// How a run is over.
#[derive(Clone, Copy)]
pub enum Ending {
    /// No process is live.
    Ended,
    /// All threads wait, and nothing can happen any more.
    Stalled,
}

/// The record of a run that is over.
pub fn record_of(book: Book) -> Record
    ensures { result ≡ recorded book }
{
    let Book {
        kernel: _,
        launch,
        history,
        kept,
    } = book;
    Record {
        launch,
        history,
        kept,
    }
}

// The end of a run of which what is shown was written.
fn reported_end(book: Book, ending: Ending) -> RunEnd
    ensures { result ≡ reported_end ending book }
{
    match ending {
        Ending::Ended => {
            let status = book.kernel.status(FIRST);
            RunEnd::Reported(record_of(book), status)
        }
        Ending::Stalled => RunEnd::StallReported(record_of(book)),
    }
}

/// Writes what is shown of a run that is over.
pub fn report_run<K: Sink>(
    alloc: Global,
    book: Book,
    ending: Ending,
    shown: Shown,
    sink: &mut K,
) -> RunEnd
    requires of { IsBookOf book.launch (keeps_entries shown) book }
    requires over { IsOverSo ending book }
    ensures faults_never_fall { K.faults sink.old ≤ K.faults sink.new }
    ensures end { IsEndOf book.launch (keeps_entries shown) (shown_text shown) (growth K.written K.faults sink.old sink.new) result }
{
    let Ok(text) = shown.text(alloc, &book) else {
        return RunEnd::Lacking(record_of(book));
    };
    match write_whole(sink, text.as_slice()) {
        Ok(()) => reported_end(book, ending),
        Err(_) => RunEnd::Unwritten(record_of(book)),
    }
}
