//! Clashes of single imports, by look-up.

ghost use Rattle.std.specs.Prelude.{◌≡◌, false, ◌==◌, ◌++◌, [], ◌∷◌, map, IfOk, OnOk, Option, MatchOption};
ghost use Rattle.std.specs.List.{list_any};
ghost use Rattle.std.specs.HashMap.{get_by};
ghost use Rattle.jv_tree.specs.DeclTree.{type_decl_tree};
ghost use Rattle.jv_header.specs.Clashes.{AreBrought, AreNamesOf, is_other};
ghost use Rattle.jv_header.specs.Imports.{is_own, is_taken};

use jv_layout::Layout;
use jv_tree::{NameId, TypeDecl};
use sg_base::Scope;
use std::alloc::{AllocError, Global};
use std::collections::{HashMap, HashSet};

/// The names of types.
pub fn own_names(alloc: Global, types: &[TypeDecl]) -> Result<HashSet<NameId>, AllocError>
    ensures { IfOk result (λ own. AreNamesOf (λ n. list_any (λ k. n.0 == k.0) own.keys) (map type_decl_tree types.now)) }
{
    let mut own = HashSet::new(alloc);
    for decl in types {
        own.insert(decl.name.id)?;
    }
    Ok(own)
}

/// Whether a type is a top-level type of a file.
pub fn is_own(l: &Layout, file: u32, s: Scope) -> bool
    ensures { result ≡ is_own l.now file s }
{
    l.file_of(s) == file && l.owner(s).is_none()
}

/// Whether an earlier single import that stands brought another type under this name.
pub fn is_taken(brought: &HashMap<NameId, Scope>, name: NameId, s: Scope) -> bool
    ensures { result ≡ is_other (get_by (λ k. name.0 == k.0) brought.now) s }
{
    match brought.get(&name) {
        Some(other) => *other != s,
        None => false,
    }
}

/// Brings a type under a name, where no other type stands.
pub fn bring(
    brought: &mut HashMap<NameId, Scope>,
    singles: &mut Vec<(NameId, Scope)>,
    name: NameId,
    s: Scope,
) -> Result<(), AllocError>
    requires before { AreBrought (λ n. get_by (λ k. n.0 == k.0) brought.old) singles.old.items }
    requires free { is_other (get_by (λ k. name.0 == k.0) brought.old) s ≡ false }
    ensures singles { OnOk result (singles.new.items ≡ singles.old.items ++ (name, s) ∷ []) }
    ensures after { OnOk result (AreBrought (λ n. get_by (λ k. n.0 == k.0) brought.new) singles.new.items) }
{
    brought.insert(name, s)?;
    singles.push((name, s))?;
    Ok(())
}
