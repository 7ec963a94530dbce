//! The layout of a folder.

ghost use Rattle.std.specs.Prelude.{◌≡◌, ◌+◌, ◌^◌, ◌<◌, ◌≤◌, [], length, map, All, IfOk, IfErr, OnOk};
ghost use Rattle.std.specs.List.{filter, range_with_len};
ghost use Rattle.jv_tree.specs.DeclTree.{import_tree, tree_of};
ghost use Rattle.jv_layout.specs.Folder.{layout_of, statics_in};
ghost use Rattle.jv_layout.specs.Linked.{IsLinked};
ghost use Rattle.jv_layout.specs.Scopes.{scope_count};
ghost use Rattle.jv_layout.specs.Sizes.{IsFolder, own_types, most_types};
ghost use Rattle.jv_layout.specs.Rows.{layout_by, owned};

use crate::collect::Collected;
use crate::fault::LayoutFault;
use crate::packages::{file_rows, package_rows, paths};
use crate::rows::{MemberRow, PackageRow, TypeRow};
use crate::tables::{Layout, scope_at, scopes_from};
use jv_tree::{Import, Name, Names, Unit};
use sg_base::Scope;
use std::alloc::{AllocError, Global};

/// How many types a folder may declare beside the prelude's.
const MOST_TYPES: usize = 32_768;

/// How many types stand in files behind the first two.
fn own_types(types: &[TypeRow]) -> usize
    ensures { result ≡ own_types types.now }
{
    types.iter().filter(|row| row.file >= 2).count()
}

/// So many lists with nothing in them.
fn empty_lists(alloc: Global, count: usize) -> Result<Vec<Vec<Scope>>, AllocError>
    ensures { IfOk result (λ v. map (λ x. x.items) v.items ≡ map (λ _. []) (range_with_len 0 count)) }
{
    let mut lists = Vec::new(alloc);
    for _ in 0..count {
        lists.push(Vec::new(alloc))?;
    }
    Ok(lists)
}

/// The scopes of the members of each type, where the scope of the first member of all has the first number.
fn scopes_by_owner(
    alloc: Global,
    first: u32,
    types: usize,
    members: &[MemberRow],
) -> Result<Vec<Vec<Scope>>, AllocError>
    requires owners { All (λ r. r.owner < types) members.now }
    requires few { first + length members.now < 2 ^ 32 }
    ensures { IfOk result (λ v. map (λ x. x.items) v.items
        ≡ map (λ t. owned members.now first t (length members.now)) (range_with_len 0 types)) }
{
    let mut lists = empty_lists(alloc, types)?;
    for (m, row) in members.iter().enumerate() {
        lists[row.owner as usize].push(scope_at(first + m as u32))?;
    }
    Ok(lists)
}

/// A copy of an import. It takes time in its name.
fn copied_import(alloc: Global, import: &Import) -> Result<Import, AllocError>
    ensures { IfOk result (λ c. import_tree c ≡ import_tree import.now) }
{
    let ids = Vec::from_slice(alloc, &import.name.ids)?;
    Ok(Import {
        name: Name { ids },
        all: import.all,
        is_static: import.is_static,
    })
}

/// Those of some imports that are static. It takes time in the imports.
fn static_ones(alloc: Global, imports: &[Import]) -> Result<Vec<Import>, AllocError>
    ensures { IfOk result (λ v. map import_tree v.items ≡ filter (λ i. i.is_static) (map import_tree imports.now)) }
{
    let mut statics = Vec::new(alloc);
    for import in imports {
        if import.is_static {
            statics.push(copied_import(alloc, import)?)?;
        }
    }
    Ok(statics)
}

/// The static imports of each file (JLS 7.5.3, 7.5.4). It takes time in the imports.
fn static_imports(alloc: Global, files: &[Unit]) -> Result<Vec<Vec<Import>>, AllocError>
    ensures { IfOk result (λ v. map (λ x. map import_tree x.items) v.items ≡ map statics_in (map tree_of files.now)) }
{
    let mut statics = Vec::new(alloc);
    for file in files {
        statics.push(static_ones(alloc, &file.imports)?)?;
    }
    Ok(statics)
}

/// The layout with these rows and these static imports of each file.
fn from_rows(
    alloc: Global,
    packages: Vec<PackageRow>,
    files: Vec<Option<u32>>,
    statics: Vec<Vec<Import>>,
    collected: Collected,
) -> Result<Layout, AllocError>
    requires linked { IsLinked (layout_by packages.items files.items collected.types.items collected.members.items
        (map (λ x. map import_tree x.items) statics.items)) }
    requires few { scope_count (layout_by packages.items files.items collected.types.items collected.members.items
        (map (λ x. map import_tree x.items) statics.items)) < 2 ^ 31 }
    ensures { IfOk result (λ l. l ≡ layout_by packages.items files.items collected.types.items collected.members.items
        (map (λ x. map import_tree x.items) statics.items)) }
{
    let Collected { types, members } = collected;
    let first_type = 2 + packages.len() as u32 + files.len() as u32;
    let first_member = first_type + types.len() as u32;
    let type_scopes = scopes_from(alloc, first_type, types.len() as u32)?;
    let member_scopes = scopes_by_owner(alloc, first_member, types.len(), &members)?;
    Ok(Layout {
        packages,
        files,
        types,
        members,
        statics,
        type_scopes,
        member_scopes,
    })
}

/// The layout of files, of which the first two are the prelude's. The numbers in the trees are those of `names`.
///
/// There are at most 4,098 files, and they declare fewer than 2^28 names. `TooManyTypes` says that more than 32,768
/// types stand behind the prelude's. It takes time in the names that are declared and in the imports, and n names of
/// package clauses take n log n comparisons of packages, each of a step for each halving of their numbers of names.
pub fn layout(alloc: Global, names: &Names, files: &[Unit]) -> Result<Layout, LayoutFault>
    requires { IsFolder (map tree_of files.now) }
    ensures value { IfOk result (λ l. l ≡ layout_of names.now (map tree_of files.now)) }
    ensures few { OnOk result (own_types (layout_of names.now (map tree_of files.now)).types ≤ most_types) }
    ensures many { IfErr result (λ e. e ≡ LayoutFault.TooManyTypes
        → most_types < own_types (layout_of names.now (map tree_of files.now)).types) }
{
    let mut collected = Collected::new(alloc);
    collected.add_files(files)?;
    if own_types(&collected.types) > MOST_TYPES {
        return Err(LayoutFault::TooManyTypes);
    }
    let named = paths(alloc, names, files)?;
    let packages = package_rows(alloc, names, files, &named.firsts, &named.paths)?;
    let files_packages = file_rows(alloc, names, files, &named.firsts, &named.paths)?;
    let statics = static_imports(alloc, files)?;
    Ok(from_rows(alloc, packages, files_packages, statics, collected)?)
}
