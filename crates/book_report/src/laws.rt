//! Laws of reports. Their statements are in `specs/KeptReports.antt` and `specs/AlikeReports.antt`.
ghost use Rattle.book_report.specs.AlikeReports.{ReportsDifferInTree};
ghost use Rattle.book_report.specs.KeptReports.{ReportNeedsKept};

/// Histories of which a run keeps the same in memory have the same report: without the history's lines a report is written of denied
/// calls alone.
pub fn report_needs_kept_entries()
    ensures { ReportNeedsKept }
{}

/// Two launches that differ in nothing to which a grant leads have the same reports of each history but for the records of the file tree.
pub fn reports_differ_in_tree()
    ensures { ReportsDifferInTree }
{}
