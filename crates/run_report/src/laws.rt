//! Laws of reports. The statements are in `specs/ReportLaws.antt`, and each holds of every state and history, with the history's lines and without.
ghost use Rattle.run_report.specs.ReportLaws.{EndIsReported, ReportShowsStreams, StallIsReported, StdoutIsCutOut};

/// Two runs with the same report wrote the same to stdout, and the same to stderr.
pub fn report_shows_streams()
    ensures { ReportShowsStreams }
{}

/// The first line of a report says how many bytes were written to stdout, and as many bytes after it are those.
pub fn stdout_is_cut_out()
    ensures { StdoutIsCutOut }
{}

/// A report says that the run ended exactly where no process is live, and that it stalled exactly where one is.
pub fn run_is_reported()
    ensures ended { EndIsReported }
    ensures stalled { StallIsReported }
{}
