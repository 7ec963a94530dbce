//! Diagnostics of what a type extends and implements.

ghost use Rattle.std.specs.Prelude.{◌≡◌, [], ◌∷◌, ◌++◌, ◌||◌, map, OnOk, IfOk, Some};
ghost use Rattle.std.specs.List.{list_any};
ghost use Rattle.sg_base.specs.declared.scope.Scope.{Scope};
ghost use Rattle.sg_base.specs.Scope.{is_scope};
ghost use Rattle.jv_diag.specs.Text.{takes};
ghost use Rattle.jv_layout.specs.Readers.{file_of};
ghost use Rattle.jv_tree.specs.TypeTree.{ids_of};
ghost use Rattle.jv_header.specs.Header.{one_of, at_reference, superclass_diags, stands_among, interface_diags, class_clause, interface_clause, extends_diags};

use jv_diag::{DiagList, codes};
use jv_layout::Layout;
use jv_names::{Meaning, Reference, add_reference, start_of};
use jv_tree::{Ident, Name, Names};
use sg_base::Scope;
use std::alloc::{AllocError, Global};
use std::collections::HashSet;

/// Adds a code with the title of a type at a reference's first token.
fn add_at(
    alloc: Global,
    diags: &mut DiagList,
    l: &Layout,
    names: &Names,
    file: u32,
    code: u8,
    ids: &[Ident],
    ty: Scope,
) -> Result<(), AllocError>
    requires { takes code ≡ Some 1 }
    ensures { OnOk result (diags.new ≡ diags.old ++ at_reference l.now names.now file code ids.now ty ∷ []) }
{
    let title = l.title(alloc, names, ty)?;
    diags.add(alloc, file, start_of(ids), code, &[title.as_str()])
}

/// Adds what is wrong with the type that a class extends.
fn add_superclass(
    alloc: Global,
    diags: &mut DiagList,
    l: &Layout,
    names: &Names,
    file: u32,
    ids: &[Ident],
    meaning: Meaning,
) -> Result<(), AllocError>
    ensures { OnOk result (diags.new ≡ diags.old ++ superclass_diags l.now names.now file ids.now meaning) }
{
    if let Meaning::One(s) = meaning {
        if l.is_interface(s) {
            add_at(alloc, diags, l, names, file, codes::NO_CLASS, ids, s)?;
        }
        if l.is_final(s) {
            add_at(
                alloc,
                diags,
                l,
                names,
                file,
                codes::FINAL_SUPERCLASS,
                ids,
                s,
            )?;
        }
    }
    Ok(())
}

/// Adds what is wrong with a type that a class implements or an interface extends.
fn add_interface(
    alloc: Global,
    diags: &mut DiagList,
    l: &Layout,
    names: &Names,
    file: u32,
    again: bool,
    ids: &[Ident],
    meaning: Meaning,
) -> Result<(), AllocError>
    ensures { OnOk result (diags.new ≡ diags.old ++ interface_diags l.now names.now file again ids.now meaning) }
{
    match meaning {
        Meaning::One(s) => {
            if !l.is_interface(s) {
                add_at(alloc, diags, l, names, file, codes::NO_INTERFACE, ids, s)
            } else if again {
                add_at(
                    alloc,
                    diags,
                    l,
                    names,
                    file,
                    codes::REPEATED_INTERFACE,
                    ids,
                    s,
                )
            } else {
                Ok(())
            }
        }
        _ => Ok(()),
    }
}

/// Adds the diagnostics of the names that a class extends.
fn add_class_clause(
    alloc: Global,
    diags: &mut DiagList,
    l: &Layout,
    names: &Names,
    file: u32,
    clause: &[Name],
    found: &[Reference],
) -> Result<(), AllocError>
    ensures { OnOk result (diags.new ≡ diags.old ++ class_clause l.now names.now file (map ids_of clause.now) found.now) }
{
    for i in 0..clause.len().min(found.len()) {
        let ids = clause[i].ids.as_slice();
        let reference = &found[i];
        add_reference(alloc, diags, l, names, file, ids, reference)?;
        add_superclass(alloc, diags, l, names, file, ids, reference.meaning)?;
    }
    Ok(())
}

/// Whether a type that a meaning is was seen before; then it counts as seen.
fn seen_before(seen: &mut HashSet<Scope>, meaning: Meaning) -> Result<bool, AllocError>
    ensures again { IfOk result (λ again. again ≡ stands_among seen.old.keys meaning) }
    ensures more { OnOk result ((s : Scope) → list_any (is_scope s) seen.new.keys ≡ (list_any (is_scope s) seen.old.keys || list_any (is_scope s) (one_of meaning))) }
{
    match meaning {
        Meaning::One(s) => Ok(!seen.insert(s)?),
        _ => Ok(false),
    }
}

/// Adds the diagnostics of the names that a class implements or an interface extends.
pub fn add_interface_clause(
    alloc: Global,
    diags: &mut DiagList,
    l: &Layout,
    names: &Names,
    file: u32,
    clause: &[Name],
    found: &[Reference],
) -> Result<(), AllocError>
    ensures { OnOk result (diags.new ≡ diags.old ++ interface_clause l.now names.now file [] (map ids_of clause.now) found.now) }
{
    let mut seen = HashSet::new(alloc);
    for i in 0..clause.len().min(found.len()) {
        let ids = clause[i].ids.as_slice();
        let reference = &found[i];
        let again = seen_before(&mut seen, reference.meaning)?;
        add_reference(alloc, diags, l, names, file, ids, reference)?;
        add_interface(alloc, diags, l, names, file, again, ids, reference.meaning)?;
    }
    Ok(())
}

/// Adds the diagnostics of what a type extends.
pub fn add_extends(
    alloc: Global,
    diags: &mut DiagList,
    l: &Layout,
    names: &Names,
    ty: Scope,
    clause: &[Name],
    found: &[Reference],
) -> Result<(), AllocError>
    ensures { OnOk result (diags.new ≡ diags.old ++ extends_diags l.now names.now ty (map ids_of clause.now) found.now) }
{
    let file = l.file_of(ty);
    if l.is_interface(ty) {
        add_interface_clause(alloc, diags, l, names, file, clause, found)
    } else {
        add_class_clause(alloc, diags, l, names, file, clause, found)
    }
}
