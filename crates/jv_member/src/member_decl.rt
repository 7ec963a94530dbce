//! The members that a declaration declares.

ghost use Rattle.std.specs.Prelude.{◌≡◌, ◌++◌, map, IfOk, OnOk};
ghost use Rattle.jv_layout.specs.Folder.{has_ctor};
ghost use Rattle.jv_tree.specs.StmtTree.{var_trees};
ghost use Rattle.jv_tree.specs.TypeTree.{type_tree};
ghost use Rattle.jv_tree.specs.DeclTree.{member_trees, type_decl_tree};
ghost use Rattle.jv_member.specs.Own.{own_field, body_own, own_members};
ghost use Rattle.jv_member.specs.MemberDecls.{own_of};

use jv_tree::{Ctor, Ident, Member, Method, Mods, TypeDecl, TypeRef, Var};
use std::alloc::{AllocError, Global};

/// A member of a class or an interface as its declaration has it.
#[derive(Clone, Copy)]
pub enum MemberDecl<'a> {
    /// A variable of a declaration of fields, with the modifiers and the type there.
    Field(&'a Mods, &'a TypeRef, &'a Var),
    Method(&'a Method),
    Ctor(&'a Ctor),
    /// The default constructor of a class with this name (JLS 8.8.9).
    DefaultCtor(Ident),
}

/// Whether a constructor stands among members. It takes time in their number.
fn has_ctor(body: &[Member]) -> bool
    ensures { result ≡ has_ctor (member_trees body.now) }
{
    for member in body {
        if let Member::Ctor(_) = member {
            return true;
        }
    }
    false
}

/// Adds the fields of one declaration.
fn add_fields<'a>(
    own: &mut Vec<MemberDecl<'a>>,
    mods: &'a Mods,
    ty: &'a TypeRef,
    variables: &'a [Var],
) -> Result<(), AllocError>
    ensures { OnOk result (map own_of own.new.items ≡ map own_of own.old.items ++ map (own_field mods.now.words.items (type_tree ty.now)) (var_trees variables.now)) }
{
    for variable in variables {
        own.push(MemberDecl::Field(mods, ty, variable))?;
    }
    Ok(())
}

/// Adds the members of a body.
fn add_body<'a>(own: &mut Vec<MemberDecl<'a>>, body: &'a [Member]) -> Result<(), AllocError>
    ensures { OnOk result (map own_of own.new.items ≡ map own_of own.old.items ++ body_own (member_trees body.now)) }
{
    for member in body {
        match member {
            Member::Nested(_) => {}
            Member::Field(mods, ty, variables) => add_fields(own, mods, ty, variables)?,
            Member::Method(method) => own.push(MemberDecl::Method(method))?,
            Member::Ctor(ctor) => own.push(MemberDecl::Ctor(ctor))?,
        }
    }
    Ok(())
}

/// The members of a class or an interface, in the order of the layout: for a class without constructors its default
/// constructor, and then those of the body as the text has them (JLS 8.3, 8.4, 8.8, 8.8.9, 9.3, 9.4). It takes time in the
/// members of the body and the variables of its fields.
pub fn own_members<'a>(alloc: Global, decl: &'a TypeDecl) -> Result<Vec<MemberDecl<'a>>, AllocError>
    ensures { IfOk result (λ ms. map own_of ms.items ≡ own_members (type_decl_tree decl.now)) }
{
    let mut own = Vec::new(alloc);
    if !decl.interface && !has_ctor(&decl.members) {
        own.push(MemberDecl::DefaultCtor(decl.name))?;
    }
    add_body(&mut own, &decl.members)?;
    Ok(own)
}
