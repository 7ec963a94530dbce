//! What the sources of a folder come to before their checkers run.

ghost use Rattle.std.specs.Prelude.{◌≡◌, ◌≤◌, IfErr, IfOk, cond, length, map, nat_le};
ghost use Rattle.jv_layout.specs.Readers.{file_of};
ghost use Rattle.jv_layout.specs.Sizes.{most_types, own_types};
ghost use Rattle.jv_tree.specs.DeclTree.{tree_of};
ghost use Rattle.sc_io.specs.SourceFile.{sources_of};
ghost use Rattle.sc_sources.specs.Read.{AreWithinLimits};
ghost use Rattle.sc_app.specs.Diagnoses.{DeclareTooMany, HaveTrees};
ghost use Rattle.sc_app.specs.Prepared.{IsPreparedOf};

use crate::folder_run::{Shared, share_folder};
use crate::project::ProjectFault;
use jv_diag::DiagList;
use jv_layout::{Layout, LayoutFault, layout};
use jv_tree::{Names, Unit};
use jv_unit::Folder;
use sc_io::SourceFile;
use sc_sources::{Sources, read_in_threads, read_sources};
use sg_base::Scope;
use sg_query::KindTable;
use std::alloc::Global;
use std::sync::Arc;
use std::thread::Threads;

/// What sources come to before their checkers run.
#[derive(Drop)]
pub(crate) enum Prepared {
    /// The faults of files.
    Faults(DiagList),
    /// The folder of their trees, the table of the kinds of its queries, and how many types it declares.
    Ready {
        folder: Arc<Folder, Global>,
        kinds: KindTable,
        types: u32,
    },
}

/// Reads sources on the caller's thread, and lays them out where none has a fault.
pub(crate) fn prepare(alloc: Global, files: &[SourceFile]) -> Result<Prepared, ProjectFault>
    requires within { AreWithinLimits (sources_of files.now) }
    ensures prepared { IfOk result (IsPreparedOf (sources_of files.now)) }
    ensures fault { IfErr result (λ e. e ≡ ProjectFault.TooManyTypes → DeclareTooMany (sources_of files.now)) }
{
    let Ok(sources) = read_sources(alloc, files) else {
        return Err(ProjectFault::OutOfMemory);
    };
    match sources {
        Sources::Faults(faults) => Ok(Prepared::Faults(faults)),
        Sources::Trees { names, units } => lay_out(alloc, files, names, units),
    }
}

/// Reads sources by at most so many threads, and lays them out where none has a fault.
pub(crate) fn prepare_in_threads<R: Threads + Sync>(
    rt: &R,
    alloc: Global,
    files: &[SourceFile],
    workers: u32,
) -> Result<Prepared, ProjectFault>
    requires within { AreWithinLimits (sources_of files.now) }
    ensures prepared { IfOk result (IsPreparedOf (sources_of files.now)) }
    ensures fault { IfErr result (λ e. e ≡ ProjectFault.TooManyTypes → DeclareTooMany (sources_of files.now)) }
{
    let Ok(sources) = read_in_threads(rt, alloc, files, workers) else {
        return Err(ProjectFault::OutOfMemory);
    };
    match sources {
        Sources::Faults(faults) => Ok(Prepared::Faults(faults)),
        Sources::Trees { names, units } => lay_out(alloc, files, names, units),
    }
}

/// Lays out the trees of sources.
fn lay_out(
    alloc: Global,
    _files: &[SourceFile],
    names: Names,
    units: Vec<Unit>,
) -> Result<Prepared, ProjectFault>
    requires { HaveTrees (sources_of _files.now) names (map tree_of units.items) }
    ensures prepared { IfOk result (IsPreparedOf (sources_of _files.now)) }
    ensures fault { IfErr result (λ e. e ≡ ProjectFault.TooManyTypes → DeclareTooMany (sources_of _files.now)) }
{
    match layout(alloc, &names, units.as_slice()) {
        Ok(layout) => {
            let types = own_types(&layout);
            let Ok(shared) = share_folder(alloc, layout, names, units) else {
                return Err(ProjectFault::OutOfMemory);
            };
            let Shared { folder, kinds } = shared;
            Ok(Prepared::Ready {
                folder,
                kinds,
                types,
            })
        }
        Err(LayoutFault::TooManyTypes) => Err(ProjectFault::TooManyTypes),
        Err(LayoutFault::OutOfMemory) => Err(ProjectFault::OutOfMemory),
    }
}

/// How many types a layout has behind the prelude's.
fn own_types(layout: &Layout) -> u32
    requires { own_types layout.now.types ≤ most_types }
    ensures { result ≡ own_types layout.now.types }
{
    let types = layout.types();
    let mut count = 0;
    for ty in types {
        count += own_count(layout, *ty);
    }
    count as u32
}

/// One where a type stands behind the prelude's, and else none.
fn own_count(layout: &Layout, ty: Scope) -> usize
    ensures { result ≡ cond (nat_le 2 (file_of layout.now ty)) 1 0 }
{
    if layout.file_of(ty) >= 2 { 1 } else { 0 }
}
