//! What the checkers of a folder came to.

ghost use Rattle.std.specs.Prelude.{◌≡◌, ◌+◌, map, IfOk, OnOk};
ghost use Rattle.sg_core.specs.declared.phase.Phase.TheVariants.{Ended};
ghost use Rattle.sg_core.specs.Core.{IsCore, IsPhase, run};
ghost use Rattle.jv_instance.specs.Data.{is_wanted};
ghost use Rattle.jv_diag.specs.Plain.{diag_of};
ghost use Rattle.jv_unit.specs.Kept.{folder_of, IsWhole};
ghost use Rattle.sc_app.specs.FolderReport.{Reports};
ghost use Rattle.sc_app.specs.FolderRun.{IsFolderRun, ruled, same_datum};
ghost use Rattle.sc_app.specs.Found.{IsFoundBy};
ghost use Rattle.sc_app.specs.Results.{CameTo, CameToBelow};

use crate::folder_laws::folder_runs_report;
use jv_diag::{Diag, DiagList};
use jv_instance::Java;
use jv_unit::Folder;
use sg_core::Core;
use std::alloc::{AllocError, Global};

/// A copy of a diagnostic.
fn copy_diag(alloc: Global, d: &Diag) -> Result<Diag, AllocError>
    ensures { IfOk result (λ c. diag_of c ≡ diag_of d.now) }
{
    Ok(Diag {
        file: d.file,
        at: d.at,
        code: d.code,
        text: String::from_str(alloc, d.text.as_str())?,
    })
}

/// Copies of diagnostics.
fn copies_of(alloc: Global, diags: &[Diag]) -> Result<DiagList, AllocError>
    ensures { IfOk result (λ v. v ≡ map diag_of diags.now) }
{
    let mut copies = DiagList::empty(alloc);
    for d in diags {
        copies.push(copy_diag(alloc, d)?)?;
    }
    Ok(copies)
}

/// Adds the diagnostics to which a unit came, where it has ended.
fn add_result(
    alloc: Global,
    core: &Core<Java, DiagList>,
    unit: u32,
    all: &mut DiagList,
) -> Result<(), AllocError>
    requires { IsCore is_wanted same_datum core.now }
    ensures { OnOk result (CameToBelow core.now unit all.old → CameToBelow core.now (unit + 1) all.new) }
{
    match core.result(unit) {
        Some(diags) => all.append(copies_of(alloc, diags.as_slice())?),
        None => Ok(()),
    }
}

/// The diagnostics to which the units came, unit by unit.
fn joined(alloc: Global, core: &Core<Java, DiagList>) -> Result<DiagList, AllocError>
    requires { IsCore is_wanted same_datum core.now }
    ensures { IfOk result (λ ds. CameTo core.now ds) }
{
    let mut all = DiagList::empty(alloc);
    for unit in 0..core.units() {
        add_result(alloc, core, unit, &mut all)?;
    }
    Ok(all)
}

/// The diagnostics of a folder, where the run of its checkers has ended. It takes time and memory in all their texts.
pub(crate) fn ended_diags(
    alloc: Global,
    folder: &Folder,
    core: &Core<Java, DiagList>,
) -> Result<DiagList, AllocError>
    requires whole { IsWhole folder.now }
    requires run { IsFolderRun (folder_of folder.now) core.now }
    requires ended { IsPhase (run is_wanted same_datum core.now) Ended }
    ensures reports { IfOk result (λ ds. Reports (ruled (folder_of folder.now)) ds) }
    ensures found { IfOk result (IsFoundBy (folder_of folder.now) core.now) }
{
    // Contracts alone read the folder.
    let _ = folder;
    folder_runs_report();
    joined(alloc, core)
}
