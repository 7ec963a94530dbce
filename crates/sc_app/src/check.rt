ghost use Rattle.std.specs.Prelude.{◌≡◌, ◌≤◌, Err, IfOk, IfSome, MatchResult, None, Ok, Some, length};
ghost use Rattle.sc_app.specs.Checked.{IsChecked};
ghost use Rattle.sc_app.specs.Gathered.{IsGathered, MakesFew, MakesProject, StaysWithin};
ghost use Rattle.sc_app.specs.Outcome.{IsOutcomeOf};
ghost use Rattle.sc_app.specs.Ran.{IsBeside, IsBesideIn, Shows};
ghost use Rattle.sc_app.specs.Statuses.{IsReportStatus, status_of};
ghost use Rattle.sc_app.specs.Told.{Checks, files_for, limit_line};
ghost use Rattle.sc_gen.specs.Project.{project_files};
ghost use Rattle.sc_io.specs.Faults.{HasRisen};
ghost use Rattle.sc_io.specs.SourceFile.{sources_of};
ghost use Rattle.sc_sources.specs.Read.{AreWithinLimits};

use crate::asked::Asked;
use crate::command::Command;
use crate::gather::{Gathered, gather};
use crate::outcome::Outcome;
use crate::project::{ProjectFault, check_gated};
use crate::report::Report;
use crate::showing::shown;
use crate::status::{Status, Which};
use sc_gen::laws::projects_are_folders;
use sc_gen::project;
use sc_io::{SourceFile, SourceTree, TreeFault};
use sg_unit::Gate;
use std::alloc::{AllocError, Global};
use std::sync::Wait;
use std::thread::{Threads, available_parallelism};

/// The most workers that check a folder where nobody says how many.
const MOST_BY_ITSELF: usize = 16;

/// How many workers check so many files: as many as are asked for, or else one for each file, at least 1 and at most 16.
fn worker_count(asked: Option<u32>, files: usize) -> u32
    requires { IfSome asked (λ n. 1 ≤ n) }
    ensures some { 1 ≤ result }
    ensures asked { IfSome asked (λ n. result ≡ n) }
    ensures by_itself { asked ≡ None → (files ≤ 1 → result ≡ 1) × (1 ≤ files → files ≤ 16 → result ≡ files) × (16 ≤ files → result ≡ 16) }
{
    match asked {
        Some(workers) => workers,
        None => {
            if files > MOST_BY_ITSELF {
                return MOST_BY_ITSELF as u32;
            }
            if files > 0 { files as u32 } else { 1 }
        }
    }
}

/// How many of so many workers are started: all where somebody asked for them, and else no more than there are processors, since those
/// that wait for one would hold up the others. What they come to is the same.
fn started<R: Threads>(rt: &R, asked: Option<u32>, workers: u32) -> u32
    requires { 1 ≤ workers }
    ensures some { 1 ≤ result }
    ensures most { result ≤ workers }
    ensures asked { IfSome asked (λ n. result ≡ workers) }
{
    if asked.is_some() {
        return workers;
    }
    match available_parallelism(rt) {
        Ok(processors) => {
            if processors.get() < workers as usize {
                processors.get() as u32
            } else {
                workers
            }
        }
        Err(_) => workers,
    }
}

/// The files of the project with so many classes, as those of a folder are gathered.
fn generated(alloc: Global, classes: u32) -> Result<Gathered, TreeFault>
    requires { classes ≤ 1000 }
    ensures { MatchResult result (λ g. IsGathered (project_files classes) g × StaysWithin g) (λ e. e ≡ TreeFault.OutOfMemory) }
{
    projects_are_folders();
    match project(alloc, classes) {
        Ok(files) => Ok(Gathered::Sources(files)),
        Err(_) => Err(TreeFault::OutOfMemory),
    }
}

/// The sources that a command looks at: those of the tree, or those of the project that it makes, for which no tree is read.
fn sources_for<T: SourceTree>(
    alloc: Global,
    command: Command,
    tree: &mut T,
) -> Result<Gathered, TreeFault>
    requires { MakesFew command }
    ensures same { T.files tree.new ≡ T.files tree.old }
    ensures count { T.faults tree.old ≤ T.faults tree.new }
    ensures unread { MakesProject command → T.faults tree.new ≡ T.faults tree.old }
    ensures gathered { IfOk result (λ g. IfSome (T.files tree.old) (λ fs. IsGathered (files_for command fs) g)) }
    ensures within { IfOk result StaysWithin }
    ensures failed { result ≡ Err TreeFault.Failed → HasRisen (T.faults tree.old) (T.faults tree.new) }
    ensures made { MakesProject command → result ≡ Err TreeFault.Failed → ⊥ }
{
    match command {
        Command::Check | Command::Answers | Command::Graph => gather(alloc, tree),
        Command::Gen(classes) => generated(alloc, classes),
    }
}

/// What a command tells of the sources that it looks at, or the limit that they pass.
pub(crate) fn check<R: Threads + Wait + Sync, T: SourceTree, G: Gate>(
    rt: &R,
    alloc: Global,
    tree: &mut T,
    asked: Asked,
    gate: &G,
) -> Result<Report, TreeFault>
    requires few { MakesFew asked.command }
    requires workers { IfSome asked.workers (λ n. 1 ≤ n) }
    ensures same { T.files tree.new ≡ T.files tree.old }
    ensures count { T.faults tree.old ≤ T.faults tree.new }
    ensures unread { MakesProject asked.command → T.faults tree.new ≡ T.faults tree.old }
    ensures report { IfOk result (λ r. IfSome (T.files tree.old) (λ fs. Checks asked.command (files_for asked.command fs) r.bytes.items r.status)) }
    ensures status { IfOk result (λ r. IsReportStatus r.status) }
    ensures outcome { IfOk result (λ r. IsBesideIn asked.command (T.files tree.old) r.outcome r.bytes.items r.status) }
    ensures failed { result ≡ Err TreeFault.Failed → HasRisen (T.faults tree.old) (T.faults tree.new) }
    ensures made { MakesProject asked.command → result ≡ Err TreeFault.Failed → ⊥ }
{
    let gathered = sources_for(alloc, asked.command, tree)?;
    match gathered {
        Gathered::Sources(files) => {
            let workers = worker_count(asked.workers, files.len());
            let workers = started(rt, asked.workers, workers);
            reported(folder_report(rt, alloc, asked.command, files, workers, gate))
        }
        Gathered::Passed(limit) => reported(refusal(alloc, limit)),
    }
}

/// The report, or the fault that stands for want of memory.
fn reported(report: Result<Report, AllocError>) -> Result<Report, TreeFault>
    ensures { MatchResult result (λ r. report ≡ Ok r) (λ e. e ≡ TreeFault.OutOfMemory) }
{
    report.map_err(|_| TreeFault::OutOfMemory)
}

/// What a command tells of sources, or that they declare too many types.
fn folder_report<R: Threads + Wait + Sync, G: Gate>(
    rt: &R,
    alloc: Global,
    command: Command,
    files: Vec<SourceFile>,
    workers: u32,
    gate: &G,
) -> Result<Report, AllocError>
    requires within { AreWithinLimits (sources_of files.items) }
    requires workers { 1 ≤ workers }
    ensures report { IfOk result (λ r. IsChecked command (sources_of files.items) r.bytes.items r.status) }
    ensures outcome { IfOk result (λ r. IsBeside command (sources_of files.items) r.outcome r.bytes.items r.status) }
{
    match check_gated(rt, alloc, files, workers, gate) {
        Ok(outcome) => outcome_report(alloc, command, outcome),
        Err(ProjectFault::TooManyTypes) => refusal(alloc, Which::Types),
        Err(ProjectFault::OutOfMemory) => Err(AllocError),
    }
}

/// What a command shows of an outcome, and the status of its report.
fn outcome_report(alloc: Global, command: Command, outcome: Outcome) -> Result<Report, AllocError>
    requires within { AreWithinLimits (sources_of outcome.sources.items) }
    requires outcome { IsOutcomeOf (sources_of outcome.sources.items) outcome }
    ensures bytes { IfOk result (λ r. Shows command outcome r.bytes.items) }
    ensures status { IfOk result (λ r. r.status ≡ status_of (length outcome.diags.items)) }
    ensures outcome { IfOk result (λ r. r.outcome ≡ Some outcome) }
{
    let bytes = shown(alloc, command, &outcome)?;
    Ok(Report {
        bytes,
        status: Status::of_errors(outcome.diags.len()),
        outcome: Some(outcome),
    })
}

/// What is written where a limit is passed.
fn refusal(alloc: Global, limit: Which) -> Result<Report, AllocError>
    ensures { IfOk result (λ r. (r.bytes.items ≡ limit_line limit) × (r.status ≡ Status.Limit limit) × (r.outcome ≡ None)) }
{
    let text = match limit {
        Which::Files => b"limit files\n".as_slice(),
        Which::FileBytes => b"limit file bytes\n".as_slice(),
        Which::TotalBytes => b"limit total bytes\n".as_slice(),
        Which::Types => b"limit types\n".as_slice(),
    };
    Ok(Report {
        bytes: Vec::from_slice(alloc, text)?,
        status: Status::Limit(limit),
        outcome: None,
    })
}
