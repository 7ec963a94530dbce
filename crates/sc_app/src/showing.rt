//! What a command shows of an outcome.

ghost use Rattle.std.specs.Prelude.{◌≡◌, ◌⊎◌, IfOk};
ghost use Rattle.jv_instance.specs.Data.{is_wanted};
ghost use Rattle.sc_app.specs.FolderLaw.{last_graph};
ghost use Rattle.sc_app.specs.FolderRun.{same_datum};
ghost use Rattle.sc_app.specs.Outcome.{IsOutcomeOf};
ghost use Rattle.sc_app.specs.Ran.{Shows, ShowsRun, listed_by, outcome_text};
ghost use Rattle.sc_io.specs.SourceFile.{sources_of};
ghost use Rattle.sc_listing.specs.Answers.{IsAnswersText};
ghost use Rattle.sc_listing.specs.Graph.{graph_text};
ghost use Rattle.sc_listing.specs.Listed.{listed_of};
ghost use Rattle.sc_sources.specs.Read.{AreWithinLimits};
ghost use Rattle.sg_core.specs.Core.{IsPhase, run};
ghost use Rattle.sg_core.specs.declared.phase.Phase.TheVariants.{Ended, Stuck};

use crate::command::Command;
use crate::outcome::Outcome;
use jv_diag::DiagList;
use jv_instance::Java;
use jv_unit::Folder;
use sc_listing::{Listed, answers_text, graph_text};
use sc_report::report_text;
use sg_core::{Core, Phase};
use std::alloc::{AllocError, Global};

/// The bytes that a command shows of an outcome: the report; or where it asks for a listing and all checkers have ended, the graph
/// that they made, or the questions that they asked with the answers that they took.
pub(crate) fn shown(
    alloc: Global,
    command: Command,
    outcome: &Outcome,
) -> Result<Vec<u8>, AllocError>
    requires within { AreWithinLimits (sources_of outcome.now.sources.items) }
    requires outcome { IsOutcomeOf (sources_of outcome.now.sources.items) outcome.now }
    ensures { IfOk result (λ v. Shows command outcome.now v.items) }
{
    match command {
        Command::Check | Command::Gen(_) => shown_report(alloc, outcome),
        Command::Graph => shown_graph(alloc, outcome),
        Command::Answers => shown_answers(alloc, outcome),
    }
}

/// The report.
fn shown_report(alloc: Global, outcome: &Outcome) -> Result<Vec<u8>, AllocError>
    requires { AreWithinLimits (sources_of outcome.now.sources.items) }
    ensures { IfOk result (λ v. v.items ≡ outcome_text outcome.now) }
{
    let files = outcome.sources.as_slice();
    report_text(alloc, files, outcome.diags.as_slice(), outcome.types)
}

/// The graph, and else the report.
fn shown_graph(alloc: Global, outcome: &Outcome) -> Result<Vec<u8>, AllocError>
    requires within { AreWithinLimits (sources_of outcome.now.sources.items) }
    requires outcome { IsOutcomeOf (sources_of outcome.now.sources.items) outcome.now }
    ensures { IfOk result (λ v. Shows Command.Graph outcome.now v.items) }
{
    let Some(folder) = &outcome.folder else {
        return shown_report(alloc, outcome);
    };
    match &outcome.core {
        Some(core) => graph_of(alloc, outcome, folder, core),
        None => shown_report(alloc, outcome),
    }
}

/// The graph that checkers made which have all ended, and else the report.
fn graph_of(
    alloc: Global,
    outcome: &Outcome,
    folder: &Folder,
    core: &Core<Java, DiagList>,
) -> Result<Vec<u8>, AllocError>
    requires within { AreWithinLimits (sources_of outcome.now.sources.items) }
    requires over { IsPhase (run is_wanted same_datum core.now) Ended ⊎ IsPhase (run is_wanted same_datum core.now) Stuck }
    ensures { IfOk result (λ v. ShowsRun (λ l c text. text ≡ graph_text l (last_graph c)) outcome.now folder.now core.now v.items) }
{
    match core.phase() {
        Phase::Ended => {
            let graph = core.graph()?;
            graph_text(alloc, &listed(folder, outcome), &graph)
        }
        Phase::Stuck => shown_report(alloc, outcome),
        Phase::Running => unreachable!(),
    }
}

/// The questions that checkers asked with their answers, and else the report.
fn shown_answers(alloc: Global, outcome: &Outcome) -> Result<Vec<u8>, AllocError>
    requires within { AreWithinLimits (sources_of outcome.now.sources.items) }
    requires outcome { IsOutcomeOf (sources_of outcome.now.sources.items) outcome.now }
    ensures { IfOk result (λ v. Shows Command.Answers outcome.now v.items) }
{
    let Some(folder) = &outcome.folder else {
        return shown_report(alloc, outcome);
    };
    match &outcome.core {
        Some(core) => answers_of(alloc, outcome, folder, core),
        None => shown_report(alloc, outcome),
    }
}

/// The questions of checkers which have all ended with their answers, and else the report.
fn answers_of(
    alloc: Global,
    outcome: &Outcome,
    folder: &Folder,
    core: &Core<Java, DiagList>,
) -> Result<Vec<u8>, AllocError>
    requires within { AreWithinLimits (sources_of outcome.now.sources.items) }
    requires over { IsPhase (run is_wanted same_datum core.now) Ended ⊎ IsPhase (run is_wanted same_datum core.now) Stuck }
    ensures { IfOk result (λ v. ShowsRun (λ l c text. IsAnswersText l c.log text) outcome.now folder.now core.now v.items) }
{
    match core.phase() {
        Phase::Ended => answers_text(alloc, &listed(folder, outcome), core.log()),
        Phase::Stuck => shown_report(alloc, outcome),
        Phase::Running => unreachable!(),
    }
}

/// What is listed of a folder.
fn listed<'a>(folder: &'a Folder, outcome: &'a Outcome) -> Listed<'a>
    ensures { listed_of result ≡ listed_by folder.now (sources_of outcome.now.sources.items) }
{
    Listed {
        layout: folder.layout(),
        names: folder.names(),
        files: outcome.sources.as_slice(),
    }
}
