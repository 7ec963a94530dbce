//! What is said of a folder whose headers wait for one another.

ghost use Rattle.std.specs.Prelude.{◌≡◌, ◌↔◌, ◌+◌, ◌<◌, ◌++◌, false, Some, IfOk, OnOk, length, option_to_list};
ghost use Rattle.std.specs.List.{Contains};
ghost use Rattle.sg_base.specs.declared.scope.Scope.{Scope as ScopeOf};
ghost use Rattle.sg_core.specs.declared.phase.Phase.TheVariants.{Stuck};
ghost use Rattle.sg_core.specs.Core.{IsPhase, run};
ghost use Rattle.sg_state.specs.declared.need.Need.TheVariants.{Row};
ghost use Rattle.jv_diag.specs.Plain.{diag_of};
ghost use Rattle.jv_instance.specs.declared.labels.TheConstants.{EXT};
ghost use Rattle.jv_instance.specs.Data.{is_wanted};
ghost use Rattle.jv_layout.specs.Scopes.{type_scope};
ghost use Rattle.jv_unit.specs.Kept.{folder_of, IsWhole};
ghost use Rattle.sc_app.specs.CircularLines.{AreLinesBelow, IsLineOf};
ghost use Rattle.sc_app.specs.FolderLaw.{closed_in};
ghost use Rattle.sc_app.specs.FolderReport.{Reports};
ghost use Rattle.sc_app.specs.FolderRun.{IsFolderRun, ruled, same_datum};
ghost use Rattle.sc_app.specs.Found.{IsFoundBy};

use crate::folder_laws::{
    circular_types_name_circular_types, folder_runs_leave_greatest, folder_runs_report,
    folders_have_one_report,
};
use crate::heard::replies_of;
use jv_diag::{Diag, DiagList};
use jv_header::circular_line;
use jv_instance::{Java, labels};
use jv_unit::Folder;
use sg_base::{Label, Scope};
use sg_core::Core;
use sg_state::Need;
use std::alloc::{AllocError, Global};

/// The type whose supertypes are needed, where a need is one.
fn needed_type(need: &Need) -> Option<Scope>
    ensures { (s : ScopeOf) → (result ≡ Some s) ↔ (need.now ≡ Row s EXT) }
{
    match need {
        Need::Row(scope, label) => {
            if label.number() == labels::EXT {
                Some(*scope)
            } else {
                None
            }
        }
        Need::Datum(_) => None,
    }
}

/// Adds a scope, where there is one.
fn push_some(scopes: &mut Vec<Scope>, scope: Option<Scope>) -> Result<(), AllocError>
    ensures { OnOk result (scopes.new.items ≡ scopes.old.items ++ option_to_list scope) }
{
    if let Some(scope) = scope {
        scopes.push(scope)?;
    }
    Ok(())
}

/// The types whose supertypes are needed, in the order of the needs.
fn needed_types(alloc: Global, needs: &[Need]) -> Result<Vec<Scope>, AllocError>
    ensures { IfOk result (λ v. (s : ScopeOf) → (Contains v.items s) ↔ (Contains needs.now (Row s EXT))) }
{
    let mut types = Vec::new(alloc);
    for need in needs {
        push_some(&mut types, needed_type(need))?;
    }
    Ok(types)
}

/// The diagnostic of the type with a number, whose header waits: by all that its checker was told, and by what it waits for.
fn line_of_type(
    alloc: Global,
    folder: &Folder,
    core: &Core<Java, DiagList>,
    t: u32,
) -> Result<Diag, AllocError>
    requires whole { IsWhole folder.now }
    requires run { IsFolderRun (folder_of folder.now) core.now }
    requires within { t < length folder.now.layout.types }
    requires waits { closed_in core.now (type_scope folder.now.layout t) ≡ false }
    ensures { IfOk result (λ d. IsLineOf (folder_of folder.now) core.now t (diag_of d)) }
{
    folder_runs_leave_greatest();
    folder_runs_report();
    let unit = folder.file_count() + t;
    let replies = replies_of(alloc, core.log(), unit)?;
    let needed = needed_types(alloc, core.needs(unit))?;
    circular_line(
        alloc,
        folder.layout(),
        folder.names(),
        &replies,
        folder.decl(t),
        folder.ty(t),
        needed.as_slice(),
    )
}

/// Adds the diagnostic of the type with a number, where its header waits.
fn add_line(
    alloc: Global,
    lines: &mut DiagList,
    folder: &Folder,
    core: &Core<Java, DiagList>,
    t: u32,
) -> Result<(), AllocError>
    requires whole { IsWhole folder.now }
    requires run { IsFolderRun (folder_of folder.now) core.now }
    requires within { t < length folder.now.layout.types }
    ensures { OnOk result (AreLinesBelow (folder_of folder.now) core.now t lines.old → AreLinesBelow (folder_of folder.now) core.now (t + 1) lines.new) }
{
    if core.is_closed(folder.ty(t), Label::new(labels::EXT)) {
        return Ok(());
    }
    lines.push(line_of_type(alloc, folder, core, t)?)
}

/// A diagnostic for each type whose header waits, where the run of a folder's checkers is stuck: at the first reference that cannot
/// be read, with the least type that it needs. It walks over the log once for each of these types.
pub(crate) fn circular_lines(
    alloc: Global,
    folder: &Folder,
    core: &Core<Java, DiagList>,
) -> Result<DiagList, AllocError>
    requires whole { IsWhole folder.now }
    requires run { IsFolderRun (folder_of folder.now) core.now }
    requires stuck { IsPhase (run is_wanted same_datum core.now) Stuck }
    ensures reports { IfOk result (λ ds. Reports (ruled (folder_of folder.now)) ds) }
    ensures found { IfOk result (IsFoundBy (folder_of folder.now) core.now) }
{
    folder_runs_leave_greatest();
    folders_have_one_report();
    circular_types_name_circular_types();
    let mut lines = DiagList::empty(alloc);
    for t in 0..folder.type_count() {
        add_line(alloc, &mut lines, folder, core, t)?;
    }
    Ok(lines)
}
