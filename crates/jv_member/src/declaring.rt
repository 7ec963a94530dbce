//! What is wrong with the declaration of a member itself.

ghost use Rattle.std.specs.Prelude.{◌≡◌, [], ◌∷◌, ◌++◌, IfOk, OnOk, Some};
ghost use Rattle.jv_diag.specs.Plain.{diagnostic, fault_if};
ghost use Rattle.jv_diag.specs.Text.{takes};
ghost use Rattle.jv_layout.specs.Duplicates.{is_duplicate};
ghost use Rattle.jv_layout.specs.Readers.{file_of};
ghost use Rattle.jv_tree.specs.DeclTree.{method_tree, ctor_tree};
ghost use Rattle.jv_tree.specs.StmtTree.{var_tree};
ghost use Rattle.jv_tree.specs.TypeTree.{base_tree, type_tree};
ghost use Rattle.jv_member.specs.Own.{own_method, own_ctor};
ghost use Rattle.jv_member.specs.MemberDecls.{own_field_of, own_of};
ghost use Rattle.jv_member.specs.Declaration.{at_name, of_fields, of_methods, of_ctors, are_bad_words, is_string_text, is_plain_base, is_constant, has_bad_field_words, are_two_sorts, has_bad_method_words, is_abstract_by, has_wrong_body, member_diags};

use crate::member_decl::MemberDecl;
use jv_diag::{DiagList, codes};
use jv_layout::words::{
    ABSTRACT, DEFAULT, FINAL, PRIVATE, PROTECTED, PUBLIC, STATIC, has_other, has_repeat,
    has_two_accesses, is_written,
};
use jv_layout::{Declarations, Layout, text_of};
use jv_tree::{Base, Ctor, Ident, Method, Mods, NameId, Names, TypeRef, Var};
use sg_base::Scope;
use std::alloc::{AllocError, Global};

/// Whether modifiers cannot stand at any member where these may.
fn are_bad_words(allowed: &[u8], words: &[u8]) -> bool
    ensures { result ≡ are_bad_words allowed.now words.now }
{
    has_repeat(words) || (has_two_accesses(words) || has_other(allowed, words))
}

/// Whether modifiers cannot stand at any field of an interface or of a class.
fn are_bad_of_fields(interface: bool, words: &[u8]) -> bool
    ensures { result ≡ are_bad_words (of_fields interface) words.now }
{
    if interface {
        are_bad_words(&[PUBLIC, STATIC, FINAL], words)
    } else {
        are_bad_words(&[PUBLIC, PROTECTED, PRIVATE, STATIC, FINAL], words)
    }
}

/// Whether modifiers cannot stand at any method of an interface or of a class.
fn are_bad_of_methods(interface: bool, words: &[u8]) -> bool
    ensures { result ≡ are_bad_words (of_methods interface) words.now }
{
    if interface {
        are_bad_words(&[PUBLIC, ABSTRACT, STATIC, DEFAULT], words)
    } else {
        are_bad_words(
            &[PUBLIC, PROTECTED, PRIVATE, STATIC, ABSTRACT, FINAL],
            words,
        )
    }
}

/// Whether modifiers cannot stand at any constructor.
fn are_bad_of_ctors(words: &[u8]) -> bool
    ensures { result ≡ are_bad_words of_ctors words.now }
{
    are_bad_words(&[PUBLIC, PROTECTED, PRIVATE], words)
}

/// Whether a text is `String`.
fn is_string_text(text: &str) -> bool
    ensures { result ≡ is_string_text text.now }
{
    text == "String"
}

/// Whether a base is written as a primitive type, or by the simple name `String`.
fn is_plain_base(names: &Names, base: &Base) -> bool
    ensures { result ≡ is_plain_base names.now (base_tree base.now) }
{
    match base {
        Base::Boolean | Base::Char | Base::Int | Base::Long => true,
        Base::Void => false,
        Base::Named(name) => match name.ids.as_slice() {
            [ident] => is_string_text(text_of(names, ident.id)),
            _ => false,
        },
    }
}

/// Whether a variable is written as a constant: final, with an initializer and such a type without brackets.
fn is_constant(names: &Names, words: &[u8], ty: &TypeRef, variable: &Var) -> bool
    ensures { result ≡ is_constant names.now words.now (type_tree ty.now) (var_tree variable.now) }
{
    is_written(FINAL, words)
        && (variable.init.is_some() && (ty.dims == 0 && is_plain_base(names, &ty.base)))
}

/// Whether the modifiers of a field cannot stand.
fn has_bad_field_words(
    l: &Layout,
    names: &Names,
    ty: Scope,
    words: &[u8],
    written: &TypeRef,
    variable: &Var,
) -> bool
    ensures { result ≡ has_bad_field_words l.now names.now ty words.now (type_tree written.now) (var_tree variable.now) }
{
    are_bad_of_fields(l.is_interface(ty), words)
        || is_written(STATIC, words)
            && !l.is_static(ty)
            && !is_constant(names, words, written, variable)
}

/// Whether two of `abstract`, `static` and `default` stand.
fn are_two_sorts(words: &[u8]) -> bool
    ensures { result ≡ are_two_sorts words.now }
{
    is_written(ABSTRACT, words) && (is_written(STATIC, words) || is_written(DEFAULT, words))
        || is_written(STATIC, words) && is_written(DEFAULT, words)
}

/// Whether the modifiers of a method cannot stand.
fn has_bad_method_words(l: &Layout, ty: Scope, words: &[u8]) -> bool
    ensures { result ≡ has_bad_method_words l.now ty words.now }
{
    let interface = l.is_interface(ty);
    are_bad_of_methods(interface, words)
        || (interface && are_two_sorts(words)
            || (is_written(ABSTRACT, words)
                && (is_written(PRIVATE, words)
                    || (is_written(STATIC, words) || is_written(FINAL, words)))
                || is_written(STATIC, words) && !l.is_static(ty)))
}

/// Whether a method is abstract by its modifiers: in an interface where neither `static` nor `default` is written, and in a class
/// where `abstract` is.
fn is_abstract_by(l: &Layout, ty: Scope, words: &[u8]) -> bool
    ensures { result ≡ is_abstract_by l.now ty words.now }
{
    if l.is_interface(ty) {
        !(is_written(STATIC, words) || is_written(DEFAULT, words))
    } else {
        is_written(ABSTRACT, words)
    }
}

/// Whether a method is abstract and has a body, or is not and has none.
fn has_wrong_body(l: &Layout, ty: Scope, method: &Method) -> bool
    ensures { result ≡ has_wrong_body l.now ty (method_tree method.now) }
{
    if is_abstract_by(l, ty, &method.mods.words) {
        method.body.is_some()
    } else {
        method.body.is_none()
    }
}

/// Adds a code with the text of a name at that name, where a fault is there.
fn add_if(
    alloc: Global,
    diags: &mut DiagList,
    l: &Layout,
    names: &Names,
    ty: Scope,
    code: u8,
    name: Ident,
    fault: bool,
) -> Result<(), AllocError>
    requires { takes code ≡ Some 1 }
    ensures { OnOk result (diags.new ≡ diags.old ++ fault_if fault (at_name l.now names.now ty code name)) }
{
    if fault {
        diags.add(
            alloc,
            l.file_of(ty),
            name.at,
            code,
            &[text_of(names, name.id)],
        )?;
    }
    Ok(())
}

/// What is wrong with a field.
fn field_diags(
    alloc: Global,
    l: &Layout,
    names: &Names,
    ty: Scope,
    class: NameId,
    duplicate: bool,
    mods: &Mods,
    written: &TypeRef,
    variable: &Var,
) -> Result<DiagList, AllocError>
    ensures { (s : Scope) → duplicate ≡ is_duplicate l.now s
        → IfOk result (λ diags. diags ≡ member_diags l.now names.now ty class s (own_field_of mods.now written.now variable.now)) }
{
    let name = variable.name;
    let bad = has_bad_field_words(l, names, ty, &mods.words, written, variable);
    let mut diags = DiagList::empty(alloc);
    add_if(
        alloc,
        &mut diags,
        l,
        names,
        ty,
        codes::DUPLICATE_FIELD,
        name,
        duplicate,
    )?;
    add_if(alloc, &mut diags, l, names, ty, codes::MODIFIERS, name, bad)?;
    Ok(diags)
}

/// What is wrong with a method.
fn method_diags(
    alloc: Global,
    l: &Layout,
    names: &Names,
    ty: Scope,
    class: NameId,
    duplicate: bool,
    method: &Method,
) -> Result<DiagList, AllocError>
    ensures { (s : Scope) → duplicate ≡ is_duplicate l.now s
        → IfOk result (λ diags. diags ≡ member_diags l.now names.now ty class s (own_method (method_tree method.now))) }
{
    let name = method.name;
    let bad = has_bad_method_words(l, ty, &method.mods.words);
    let wrong = has_wrong_body(l, ty, method);
    let mut diags = DiagList::empty(alloc);
    add_if(
        alloc,
        &mut diags,
        l,
        names,
        ty,
        codes::OVERLOADED,
        name,
        duplicate,
    )?;
    add_if(alloc, &mut diags, l, names, ty, codes::MODIFIERS, name, bad)?;
    add_if(
        alloc,
        &mut diags,
        l,
        names,
        ty,
        codes::WRONG_BODY,
        name,
        wrong,
    )?;
    Ok(diags)
}

/// What is wrong with a constructor.
fn ctor_diags(
    alloc: Global,
    l: &Layout,
    names: &Names,
    ty: Scope,
    class: NameId,
    duplicate: bool,
    ctor: &Ctor,
) -> Result<DiagList, AllocError>
    ensures { (s : Scope) → duplicate ≡ is_duplicate l.now s
        → IfOk result (λ diags. diags ≡ member_diags l.now names.now ty class s (own_ctor (ctor_tree ctor.now))) }
{
    let name = ctor.name;
    let bad = are_bad_of_ctors(&ctor.mods.words);
    let mut diags = DiagList::empty(alloc);
    if duplicate {
        diags.add(
            alloc,
            l.file_of(ty),
            name.at,
            codes::SECOND_CONSTRUCTOR,
            &[],
        )?;
    }
    add_if(alloc, &mut diags, l, names, ty, codes::MODIFIERS, name, bad)?;
    add_if(
        alloc,
        &mut diags,
        l,
        names,
        ty,
        codes::UNKNOWN_METHOD,
        name,
        name.id != class,
    )?;
    Ok(diags)
}

/// What is wrong with the declaration of a member of a type with this name (JLS 8.1.3, 8.3, 8.3.1, 8.4, 8.4.3, 8.4.7, 8.8, 8.8.3,
/// 9.3, 9.4, 9.4.3): a second field, method or constructor of its name, modifiers that cannot stand, a body that is missing or
/// stands where none may, and a constructor with another name than its class. All stand at its name. The member has this scope.
/// It takes time in its modifiers and in the texts.
pub fn member_diags(
    alloc: Global,
    l: &Layout,
    declarations: &Declarations,
    names: &Names,
    ty: Scope,
    class: NameId,
    member_scope: Scope,
    member: &MemberDecl,
) -> Result<DiagList, AllocError>
    requires { declarations.now ≡ l.now }
    ensures { IfOk result (λ diags. diags ≡ member_diags l.now names.now ty class member_scope (own_of member.now)) }
{
    let duplicate = declarations.is_duplicate(l, member_scope);
    match member {
        MemberDecl::Field(mods, written, variable) => field_diags(
            alloc, l, names, ty, class, duplicate, mods, written, variable,
        ),
        MemberDecl::Method(method) => method_diags(alloc, l, names, ty, class, duplicate, method),
        MemberDecl::Ctor(ctor) => ctor_diags(alloc, l, names, ty, class, duplicate, ctor),
        MemberDecl::DefaultCtor(_) => Ok(DiagList::empty(alloc)),
    }
}
