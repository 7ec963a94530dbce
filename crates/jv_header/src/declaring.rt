//! What is wrong with the declaration of a type itself.

ghost use Rattle.std.specs.Prelude.{◌≡◌, [], ◌∷◌, ◌++◌, IfOk, OnOk, Some};
ghost use Rattle.jv_diag.specs.declared.codes.TheConstants.{DUPLICATE_TYPE};
ghost use Rattle.jv_diag.specs.Plain.{diagnostic, fault_if};
ghost use Rattle.jv_diag.specs.Text.{takes};
ghost use Rattle.jv_layout.specs.Folder.{text_of};
ghost use Rattle.jv_layout.specs.Readers.{owner_scope, file_of};
ghost use Rattle.jv_layout.specs.Titles.{title_of};
ghost use Rattle.jv_layout.specs.Words.{has_other};
ghost use Rattle.jv_header.specs.Declaration.{encloses_name, is_package_too, of_types, is_static_in_inner, has_bad_modifiers, declared_diags};

use jv_diag::{DiagList, codes};
use jv_layout::words::{
    ABSTRACT, FINAL, PRIVATE, PROTECTED, PUBLIC, STATIC, has_other, has_repeat, has_two_accesses,
    is_written,
};
use jv_layout::{Declarations, Layout, text_of};
use jv_names::Spot;
use jv_tree::{Ident, NameId, Names, TypeDecl};
use sg_base::Scope;
use std::alloc::{AllocError, Global};

/// Whether some type whose body encloses a type has this name. It takes time in how deep the type is nested.
fn encloses_name(alloc: Global, l: &Layout, name: NameId, ty: Scope) -> Result<bool, AllocError>
    ensures { IfOk result (λ b. b ≡ encloses_name l.now name ty) }
{
    let spot = Spot::of_header(alloc, l, ty)?;
    Ok(spot.inside.iter().any(|body| l.is_named(name, *body)))
}

/// Whether a top-level type has the name of a package directly in its package.
fn is_package_too(l: &Layout, declarations: &Declarations, name: NameId, ty: Scope) -> bool
    requires { declarations.now ≡ l.now }
    ensures { result ≡ is_package_too l.now ty name (owner_scope l.now ty) }
{
    match l.owner(ty) {
        None => declarations.has_subpackage(l.package_of(ty), name),
        Some(_) => false,
    }
}

/// Whether a modifier stands that is not allowed at a type with this owner.
fn has_other_words(l: &Layout, owner: Option<Scope>, words: &[u8]) -> bool
    ensures { result ≡ has_other (of_types l.now owner) words.now }
{
    match owner {
        None => has_other(&[PUBLIC, ABSTRACT, FINAL], words),
        Some(outer) => {
            if l.is_interface(outer) {
                has_other(&[PUBLIC, STATIC, ABSTRACT, FINAL], words)
            } else {
                has_other(
                    &[PUBLIC, PROTECTED, PRIVATE, STATIC, ABSTRACT, FINAL],
                    words,
                )
            }
        }
    }
}

/// Whether a static type stands in an inner class.
fn is_static_in_inner(l: &Layout, ty: Scope, owner: Option<Scope>) -> bool
    ensures { result ≡ is_static_in_inner l.now ty owner }
{
    match owner {
        None => false,
        Some(outer) => l.is_static(ty) && !l.is_static(outer),
    }
}

/// Whether the modifiers of a type cannot stand.
fn has_bad_modifiers(l: &Layout, ty: Scope, words: &[u8]) -> bool
    ensures { result ≡ has_bad_modifiers l.now ty words.now }
{
    let owner = l.owner(ty);
    has_repeat(words)
        || (has_two_accesses(words)
            || (has_other_words(l, owner, words)
                || (l.is_interface(ty) && is_written(FINAL, words)
                    || (is_written(ABSTRACT, words) && is_written(FINAL, words)
                        || is_static_in_inner(l, ty, owner)))))
}

/// Adds a code with the simple name of a type at that name, where a fault is there.
fn add_if(
    alloc: Global,
    diags: &mut DiagList,
    l: &Layout,
    names: &Names,
    ty: Scope,
    name: Ident,
    code: u8,
    fault: bool,
) -> Result<(), AllocError>
    requires { takes code ≡ Some 1 }
    ensures { OnOk result (diags.new ≡ diags.old ++ fault_if fault (diagnostic (file_of l.now ty) name.at code (text_of names.now name.id.0 ∷ []))) }
{
    if fault {
        diags.add(
            alloc,
            l.file_of(ty),
            name.at,
            code,
            &[text_of(names, name.id)],
        )?;
    }
    Ok(())
}

/// Adds the diagnostic of a duplicate type.
fn add_duplicate(
    alloc: Global,
    diags: &mut DiagList,
    l: &Layout,
    names: &Names,
    ty: Scope,
    name: Ident,
    fault: bool,
) -> Result<(), AllocError>
    ensures { OnOk result (diags.new ≡ diags.old ++ fault_if fault (diagnostic (file_of l.now ty) name.at DUPLICATE_TYPE (title_of l.now names.now ty ∷ []))) }
{
    if fault {
        let title = l.title(alloc, names, ty)?;
        diags.add(
            alloc,
            l.file_of(ty),
            name.at,
            codes::DUPLICATE_TYPE,
            &[title.as_str()],
        )?;
    }
    Ok(())
}

/// What is wrong with the declaration of a type (JLS 7.1, 7.6, 8.1.1, 8.5): a second type of its name in its package or type, the
/// name of a package, the name of an enclosing type, and modifiers that cannot stand. All stand at its name. It takes time in how
/// deep the type is nested, in its modifiers and in the texts.
pub fn declared_diags(
    alloc: Global,
    l: &Layout,
    declarations: &Declarations,
    names: &Names,
    decl: &TypeDecl,
    ty: Scope,
) -> Result<DiagList, AllocError>
    requires { declarations.now ≡ l.now }
    ensures { IfOk result (λ diags. diags ≡ declared_diags l.now names.now ty decl.now.name decl.now.mods.words.items) }
{
    let name = decl.name;
    let words = decl.mods.words.as_slice();
    let mut diags = DiagList::empty(alloc);
    add_duplicate(
        alloc,
        &mut diags,
        l,
        names,
        ty,
        name,
        declarations.is_duplicate(l, ty),
    )?;
    let package_too = is_package_too(l, declarations, name.id, ty);
    add_if(
        alloc,
        &mut diags,
        l,
        names,
        ty,
        name,
        codes::TYPE_AND_PACKAGE,
        package_too,
    )?;
    let enclosed = encloses_name(alloc, l, name.id, ty)?;
    add_if(
        alloc,
        &mut diags,
        l,
        names,
        ty,
        name,
        codes::NAME_OF_ENCLOSING_TYPE,
        enclosed,
    )?;
    add_if(
        alloc,
        &mut diags,
        l,
        names,
        ty,
        name,
        codes::MODIFIERS,
        has_bad_modifiers(l, ty, words),
    )?;
    Ok(diags)
}
