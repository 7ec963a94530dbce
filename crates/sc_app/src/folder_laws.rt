//! Laws of the runs of a folder's checkers, each the contract of a function that does nothing.

ghost use Rattle.sc_app.specs.EveryOrder.{EveryOrderReportsTheSame, RunsLeadToReports};
ghost use Rattle.sc_app.specs.FolderLaw.{FilesAskForOwn, FolderRunsAreOrderly, FolderRunsAskSignaturesLast, FolderRunsLeaveGreatest, FolderRunsAreStuckByHeaders, EndedRunsReport, StuckRunsReport};
ghost use Rattle.sc_app.specs.FolderReport.{FoldersHaveOneReport, CircularLinesAreOne};
ghost use Rattle.sc_app.specs.NamedTypes.{CircularTypesNameCircularTypes};

/// At the end of each run of a folder's checkers the types whose supertypes are all there are the greatest set whose headers stand
/// on one another in ranks, and the checkers of all others wait in their headers. It is stuck exactly where there is such a type.
pub fn folder_runs_leave_greatest()
    ensures greatest { FolderRunsLeaveGreatest }
    ensures stuck { FolderRunsAreStuckByHeaders }
{}

/// In each run of a folder's checkers, that of a type asks its header's queries in turn, each once, until its supertypes are told, and
/// that of a file asks only what packages declare until its imports are told.
pub fn folder_runs_are_orderly()
    ensures orderly { FolderRunsAreOrderly }
    ensures files { FilesAskForOwn }
{}

/// In each run of a folder's checkers, that of a type asks for a signature only when those of its own members are all set.
pub fn folder_runs_ask_signatures_last()
    ensures { FolderRunsAskSignaturesLast }
{}

/// Each run of a folder's checkers that has ended came to the diagnostics of the rules in the whole graph; and where one is stuck,
/// what is said of a header by what its checker was told is what the rules say of it.
pub fn folder_runs_report()
    ensures ended { EndedRunsReport }
    ensures stuck { StuckRunsReport }
{}

/// A folder has one report, and what is said of a type that waits is one diagnostic.
pub fn folders_have_one_report()
    ensures folders { FoldersHaveOneReport }
    ensures types { CircularLinesAreOne }
{}

/// Whatever the order of their steps, the checkers of a folder come to its report: all their results together, or what is said of the
/// types whose headers wait. So two runs come to the same diagnostics.
pub fn every_order_reports_the_same()
    ensures reports { RunsLeadToReports }
    ensures same { EveryOrderReportsTheSame }
{
    folder_runs_leave_greatest();
    folder_runs_report();
    folders_have_one_report();
}

/// Where the checkers of a folder end stuck, the type for whose header that of another one waits, by the line that is said of that one,
/// waits for a header itself, and a line of its own says so.
pub fn circular_types_name_circular_types()
    ensures { CircularTypesNameCircularTypes }
{
    folder_runs_leave_greatest();
}
