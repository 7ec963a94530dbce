//! The check of one body.

ghost use Rattle.std.specs.Prelude.{IfOk};
ghost use Rattle.sg_reading.specs.Stop.{IsKnown, Reads};
ghost use Rattle.jv_names.specs.Replies.{reply_to};
ghost use Rattle.jv_tree.specs.DeclTree.{type_decl_tree};
ghost use Rattle.jv_unit.specs.DeclaredBodies.{declared_body};

use crate::declared_members::{blanks_among, member_with};
use jv_diag::DiagList;
use jv_expr::{BodyProgress, read_ctor_body, read_method_body};
use jv_instance::JavaPred;
use jv_layout::Layout;
use jv_member::{MemberDecl, own_members};
use jv_names::Oracle;
use jv_tree::{Names, TypeDecl};
use sg_base::Scope;
use sg_query::Query;
use sg_reading::{Known, Stop};
use std::alloc::{AllocError, Global};

/// What is wrong in the body of a member of a type, as far as the replies tell it, or the first query that has no reply.
#[tactic(auto, using(sg_reading::proofs::Steps::reading_steps))]
fn read_declared_body(
    alloc: Global,
    l: &Layout,
    names: &Names,
    o: &Oracle,
    decl: &TypeDecl,
    ty: Scope,
    member: Scope,
) -> Result<DiagList, Stop<Query<JavaPred>>>
    ensures { Reads (reply_to o.now) (declared_body l.now names.now ty (type_decl_tree decl.now) member) result }
{
    let own = own_members(alloc, decl)?;
    let (scopes, members) = (l.members(ty), own.as_slice());
    let extends = decl.extends.as_slice();
    let mut progress = BodyProgress::new();
    match member_with(member, scopes, members) {
        MemberDecl::Method(method) => {
            read_method_body(
                alloc,
                l,
                names,
                o,
                ty,
                extends,
                member,
                method,
                &mut progress,
            )
        }
        MemberDecl::Ctor(ctor) => {
            let found = blanks_among(alloc, l, scopes, members)?;
            let blanks = found.as_slice();
            read_ctor_body(
                alloc,
                l,
                names,
                o,
                ty,
                extends,
                blanks,
                member,
                ctor,
                &mut progress,
            )
        }
        MemberDecl::Field(_, _, _) => Ok(DiagList::empty(alloc)),
        MemberDecl::DefaultCtor(_) => Ok(DiagList::empty(alloc)),
    }
}

/// What is wrong in the body of a method or a constructor (JLS 8.4.7, 8.8.7), by the declaration of its type: of the scopes of the type's
/// members `member` is that of the one whose body it is. A field has no body, nor has a default constructor, and nothing is said where
/// no member has that scope. It takes time in the members of the type, in the body and in the answers that it reads.
#[tactic(auto, using(sg_reading::proofs::Steps::reading_steps))]
pub fn check_body(
    alloc: Global,
    l: &Layout,
    names: &Names,
    o: &Oracle,
    decl: &TypeDecl,
    ty: Scope,
    member: Scope,
) -> Result<Known<DiagList, Query<JavaPred>>, AllocError>
    ensures { IfOk result (IsKnown (reply_to o.now) (declared_body l.now names.now ty (type_decl_tree decl.now) member)) }
{
    Known::from_found(read_declared_body(alloc, l, names, o, decl, ty, member))
}
