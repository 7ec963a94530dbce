//! Laws of reports, each the contract of a function that does nothing.

ghost use Rattle.sc_report.specs.Report.{ReportsAreOne};

/// The same diagnostics of the same files are told in one way, in whatever order they were found.
pub fn reports_are_one()
    ensures { ReportsAreOne }
{}
