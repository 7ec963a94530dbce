//! What the sources of a folder come to.

ghost use Rattle.std.specs.Prelude.{◌≡◌, ◌≤◌, Some, None, IfErr, IfOk, IfSome, length};
ghost use Rattle.std.specs.Arc.{arc_value};
ghost use Rattle.jv_unit.specs.Kept.{folder_of, IsWhole};
ghost use Rattle.sc_io.specs.SourceFile.{sources_of};
ghost use Rattle.sc_sources.specs.Read.{AreWithinLimits, IsReadOf};
ghost use Rattle.sc_sources.specs.declared.sources.Sources.TheVariants.{Faults};
ghost use Rattle.sc_app.specs.Diagnoses.{DeclareTooMany};
ghost use Rattle.sc_app.specs.FolderReport.{Reports};
ghost use Rattle.sc_app.specs.FolderRun.{IsFolderRun, IsServedIn, ruled};
ghost use Rattle.sc_app.specs.Found.{IsFoundBy};
ghost use Rattle.sc_app.specs.Outcome.{IsOutcomeOf, IsReady};

use crate::circular::circular_lines;
use crate::folder_run::{run_folder, run_in_order};
use crate::outcome::Outcome;
use crate::prepared::{Prepared, prepare, prepare_in_threads};
use crate::results::ended_diags;
use jv_diag::DiagList;
use jv_instance::Java;
use jv_unit::Folder;
use sc_io::SourceFile;
use sc_report::sorted_diags;
use sg_core::{Core, Phase};
use sg_unit::{Gate, NoGate};
use std::alloc::{AllocError, Global};
use std::sync::{Arc, Wait};
use std::thread::Threads;
use thiserror::Error;

/// Why a project cannot be checked.
#[derive(Clone, Copy, Debug, PartialEq, Eq, Error)]
pub enum ProjectFault {
    /// The files have no fault, and declare more than 32,768 types.
    #[error("more than 32,768 types")]
    TooManyTypes,
    /// Memory was not found.
    #[error("out of memory")]
    OutOfMemory,
}

/// Checks the sources of a folder, as `check_gated` does, with nobody told of the checkers' steps.
pub fn check_project<R: Threads + Wait + Sync>(
    rt: &R,
    alloc: Global,
    files: Vec<SourceFile>,
    workers: u32,
) -> Result<Outcome, ProjectFault>
    requires within { AreWithinLimits (sources_of files.items) }
    requires workers { 1 ≤ workers }
    ensures outcome { IfOk result (IsOutcomeOf (sources_of files.items)) }
    ensures fault { IfErr result (λ e. e ≡ ProjectFault.TooManyTypes → DeclareTooMany (sources_of files.items)) }
{
    check_gated(rt, alloc, files, workers, &NoGate)
}

/// Checks the sources of a folder: at most 4,096 files of at most 1 MiB each and 4 MiB together, in rising order of their paths. So
/// many workers run its checkers, or one for each checker where those are fewer: one for each file and each type, the prelude's two and
/// two among them. The gate is told of each step of a checker. The outcome is the report of the rules, whatever the number of workers and
/// the order of their steps. A worker's thread that cannot be started is none: the caller's does its work. It may wait for the other
/// workers. The caller's thread and those that it starts need a stack of `jv_parse::PARSE_STACK` bytes for the deepest sources.
///
/// Reading takes time linear in the sources, as is expected of a hash, and the workers share it; what the checkers take is that of their
/// queries. Where a reply is missing a checker goes on with what asked for it.
pub fn check_gated<R: Threads + Wait + Sync, G: Gate>(
    rt: &R,
    alloc: Global,
    files: Vec<SourceFile>,
    workers: u32,
    gate: &G,
) -> Result<Outcome, ProjectFault>
    requires within { AreWithinLimits (sources_of files.items) }
    requires workers { 1 ≤ workers }
    ensures outcome { IfOk result (IsOutcomeOf (sources_of files.items)) }
    ensures fault { IfErr result (λ e. e ≡ ProjectFault.TooManyTypes → DeclareTooMany (sources_of files.items)) }
{
    match prepare_in_threads(rt, alloc, files.as_slice(), workers)? {
        Prepared::Faults(faults) => Ok(faulty(files, faults)),
        Prepared::Ready {
            folder,
            kinds,
            types,
        } => {
            let Ok(core) = run_folder(rt, alloc, &folder, kinds, workers, gate) else {
                return Err(ProjectFault::OutOfMemory);
            };
            ran(alloc, files, folder, types, core)
        }
    }
}

/// Checks the sources of a folder, as `check_project` does, on the caller's thread alone: first each number in `order` makes one step of
/// that checker, and is passed by where the checker has ended or waits, or where none has it; and then the least that can go on
/// steps, as long as there is one. The checkers of the files come first, the prelude's two before them, and then those of the types.
/// The outcome is the report of the rules, whatever the order, and its core's log has the steps in that order.
pub fn check_in_order(
    alloc: Global,
    files: Vec<SourceFile>,
    order: &[u32],
) -> Result<Outcome, ProjectFault>
    requires within { AreWithinLimits (sources_of files.items) }
    ensures outcome { IfOk result (IsOutcomeOf (sources_of files.items)) }
    ensures served { IfOk result (λ o. IfSome o.core (IsServedIn order.now)) }
    ensures fault { IfErr result (λ e. e ≡ ProjectFault.TooManyTypes → DeclareTooMany (sources_of files.items)) }
{
    match prepare(alloc, files.as_slice())? {
        Prepared::Faults(faults) => Ok(faulty(files, faults)),
        Prepared::Ready {
            folder,
            kinds,
            types,
        } => {
            let Ok(core) = run_in_order(alloc, &folder, kinds, order) else {
                return Err(ProjectFault::OutOfMemory);
            };
            ran(alloc, files, folder, types, core)
        }
    }
}

/// What files come to of which some have faults.
fn faulty(files: Vec<SourceFile>, faults: DiagList) -> Outcome
    requires faults { IsReadOf (sources_of files.items) (Faults faults) }
    requires within { length files.items ≤ 4096 }
    ensures outcome { IsOutcomeOf (sources_of files.items) result }
    ensures core { result.core ≡ None }
{
    Outcome {
        diags: sorted_diags(faults.into_vec()),
        files: files.as_slice().len() as u32,
        types: 0,
        sources: files,
        folder: None,
        core: None,
    }
}

/// What files come to whose checkers ran.
fn ran(
    alloc: Global,
    files: Vec<SourceFile>,
    folder: Arc<Folder, Global>,
    types: u32,
    core: Core<Java, DiagList>,
) -> Result<Outcome, ProjectFault>
    requires ready { IsReady (sources_of files.items) (arc_value folder) types }
    requires run { IsFolderRun (folder_of (arc_value folder)) core }
    requires within { length files.items ≤ 4096 }
    ensures outcome { IfOk result (IsOutcomeOf (sources_of files.items)) }
    ensures core { IfOk result (λ o. o.core ≡ Some core) }
    ensures fault { IfErr result (λ e. e ≡ ProjectFault.OutOfMemory) }
{
    let Ok(diags) = run_diags(alloc, &folder, &core) else {
        return Err(ProjectFault::OutOfMemory);
    };
    Ok(Outcome {
        diags: sorted_diags(diags.into_vec()),
        files: files.as_slice().len() as u32,
        types,
        sources: files,
        folder: Some(folder),
        core: Some(core),
    })
}

/// The diagnostics of a folder, by what the run of its checkers came to.
fn run_diags(
    alloc: Global,
    folder: &Folder,
    core: &Core<Java, DiagList>,
) -> Result<DiagList, AllocError>
    requires whole { IsWhole folder.now }
    requires run { IsFolderRun (folder_of folder.now) core.now }
    ensures reports { IfOk result (λ ds. Reports (ruled (folder_of folder.now)) ds) }
    ensures found { IfOk result (IsFoundBy (folder_of folder.now) core.now) }
{
    match core.phase() {
        Phase::Ended => ended_diags(alloc, folder, core),
        Phase::Stuck => circular_lines(alloc, folder, core),
        Phase::Running => unreachable!(),
    }
}
