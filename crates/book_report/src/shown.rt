//! What is written of a run that is over.
ghost use Rattle.std.specs.Prelude.{◌≡◌, IfOk};
ghost use Rattle.kernel_cell.specs.Cell.{IsBookOf};
ghost use Rattle.book_report.specs.Shown.{keeps_entries, recorded, shown_text};

use abi_types::Bytes;
use kernel_cell::Book;
use run_report::{report, summary};
use std::alloc::{AllocError, Global};

/// What is written of a run that is over.
#[derive(Clone, Copy)]
pub enum Shown {
    /// Its report, with the history's lines or without.
    Report { lines: bool },
    /// The summary of a run with so many child processes.
    Summary { processes: u32 },
}

impl Shown {
    /// Whether the history's entries are kept for it.
    pub fn keeps_entries(self) -> bool
        ensures { result ≡ keeps_entries self }
    {
        match self {
            Shown::Report { lines } => lines,
            Shown::Summary { .. } => true,
        }
    }

    /// The text, by the book of the run.
    pub fn text(self, alloc: Global, book: &Book) -> Result<Bytes, AllocError>
        requires { IsBookOf book.now.launch (keeps_entries self) book.now }
        ensures { IfOk result (λ text. text ≡ shown_text self (recorded book.now)) }
    {
        match self {
            Shown::Report { lines } => report(
                alloc,
                &book.kernel,
                &book.kept.denied,
                &book.kept.entries,
                lines,
            ),
            Shown::Summary { processes } => summary(
                alloc,
                &book.kernel,
                processes,
                &book.kept.denied,
                &book.kept.entries,
            ),
        }
    }
}
