//! The run of a folder's checkers.

ghost use Rattle.std.specs.Prelude.{◌≡◌, ◌≤◌, IfOk, length, map};
ghost use Rattle.std.specs.Arc.{arc_value};
ghost use Rattle.jv_layout.specs.Folder.{layout_of};
ghost use Rattle.jv_layout.specs.Sizes.{IsFolder};
ghost use Rattle.jv_tree.specs.DeclTree.{tree_of};
ghost use Rattle.jv_tree.specs.Numbered.{AreNumbered};
ghost use Rattle.jv_unit.specs.Kept.{folder_of, IsWhole};
ghost use Rattle.sc_app.specs.FolderRun.{IsBegun, IsFolderRun, IsServedIn};

use crate::followers::run_followers;
use jv_diag::DiagList;
use jv_instance::Java;
use jv_layout::Layout;
use jv_names::java_kinds;
use jv_tree::{Names, Unit};
use jv_unit::{Folder, JavaScript, JavaUnit, java_units};
use sg_core::Core;
use sg_query::KindTable;
use sg_serial::run_serial;
use sg_unit::Gate;
use std::alloc::{AllocError, Global};
use std::sync::{Arc, Wait};
use std::thread::Threads;

/// A folder that its checkers share, and the table of the kinds of their queries.
#[derive(Drop)]
pub(crate) struct Shared {
    pub(crate) folder: Arc<Folder, Global>,
    pub(crate) kinds: KindTable,
}

/// The folder of a layout, with the names and the trees of which it was made.
pub(crate) fn share_folder(
    alloc: Global,
    layout: Layout,
    names: Names,
    files: Vec<Unit>,
) -> Result<Shared, AllocError>
    requires layout { layout ≡ layout_of names (map tree_of files.items) }
    requires folder { IsFolder (map tree_of files.items) }
    requires numbered { AreNumbered (length names) (map tree_of files.items) }
    ensures folder { IfOk result (λ s. folder_of (arc_value s.folder) ≡ record { layout = layout; names = names; files = map tree_of files.items; kinds = s.kinds }) }
    ensures whole { IfOk result (λ s. IsWhole (arc_value s.folder)) }
{
    let kinds = java_kinds(alloc)?;
    let folder = Folder::new(alloc, layout, names, files, &kinds)?;
    Ok(Shared {
        folder: Arc::new(alloc, folder)?,
        kinds,
    })
}

/// The checkers of a folder, which have given nothing yet, and a core at the opening of the folder's layout.
#[derive(Drop)]
pub(crate) struct Begun {
    core: Core<Java, DiagList>,
    units: Vec<JavaUnit>,
}

/// What the run of a folder's checkers begins with.
fn begin(alloc: Global, folder: &Arc<Folder, Global>, kinds: KindTable) -> Result<Begun, AllocError>
    requires whole { IsWhole (arc_value folder.now) }
    requires kinds { kinds ≡ (folder_of (arc_value folder.now)).kinds }
    ensures { IfOk result (λ b. IsBegun (folder_of (arc_value folder.now)) b.core b.units.items) }
{
    let opening = folder.layout().opening(alloc)?;
    let units = java_units(alloc, folder)?;
    let core = Core::<Java, DiagList>::open(alloc, opening, kinds)?;
    Ok(Begun { core, units })
}

/// Runs the checkers of a folder in so many threads, or one for each checker where there are fewer, until none can go on. The core that
/// is answered has ended, or each of its live units waits.
pub(crate) fn run_folder<R: Threads + Wait + Sync, G: Gate>(
    rt: &R,
    alloc: Global,
    folder: &Arc<Folder, Global>,
    kinds: KindTable,
    workers: u32,
    gate: &G,
) -> Result<Core<Java, DiagList>, AllocError>
    requires whole { IsWhole (arc_value folder.now) }
    requires kinds { kinds ≡ (folder_of (arc_value folder.now)).kinds }
    requires workers { 1 ≤ workers }
    ensures { IfOk result (IsFolderRun (folder_of (arc_value folder.now))) }
{
    let begun = begin(alloc, folder, kinds)?;
    run_followers::<JavaScript, G, R>(rt, alloc, begun.core, begun.units, workers, gate)
}

/// Runs the checkers of a folder on the caller's thread until none can go on: first each number of `order` makes one step of that checker,
/// and then the least that can go on steps. The core that is answered has ended, or each of its live units waits.
pub(crate) fn run_in_order(
    alloc: Global,
    folder: &Arc<Folder, Global>,
    kinds: KindTable,
    order: &[u32],
) -> Result<Core<Java, DiagList>, AllocError>
    requires whole { IsWhole (arc_value folder.now) }
    requires kinds { kinds ≡ (folder_of (arc_value folder.now)).kinds }
    ensures run { IfOk result (IsFolderRun (folder_of (arc_value folder.now))) }
    ensures served { IfOk result (IsServedIn order.now) }
{
    let begun = begin(alloc, folder, kinds)?;
    run_serial::<JavaUnit>(alloc, begun.core, begun.units, order)
}
