//! The signature of one member.

ghost use Rattle.std.specs.Prelude.{IfOk};
ghost use Rattle.sg_reading.specs.Stop.{IsKnown, Reads};
ghost use Rattle.jv_names.specs.Replies.{reply_to};
ghost use Rattle.jv_tree.specs.DeclTree.{type_decl_tree};
ghost use Rattle.jv_unit.specs.DeclaredBodies.{declared_signature};

use crate::declared_members::member_with;
use jv_instance::JavaPred;
use jv_layout::Layout;
use jv_member::{Signature, own_members, read_signature};
use jv_names::Oracle;
use jv_tree::{Names, TypeDecl};
use sg_base::Scope;
use sg_query::Query;
use sg_reading::{Known, Stop};
use std::alloc::{AllocError, Global};

/// The signature of a member of a type, as far as the replies tell it, or the first query that has no reply.
#[tactic(auto, using(sg_reading::proofs::Steps::reading_steps))]
fn read_declared_signature(
    alloc: Global,
    l: &Layout,
    names: &Names,
    o: &Oracle,
    decl: &TypeDecl,
    ty: Scope,
    member: Scope,
) -> Result<Signature, Stop<Query<JavaPred>>>
    ensures { Reads (reply_to o.now) (declared_signature l.now names.now ty (type_decl_tree decl.now) member) result }
{
    let own = own_members(alloc, decl)?;
    let (scopes, members) = (l.members(ty), own.as_slice());
    let declared = member_with(member, scopes, members);
    read_signature(alloc, l, names, o, ty, decl.name.id, &declared)
}

/// The signature of a member (JLS 8.3, 8.4.2, 8.4.5, 8.8.2, 9.3, 9.4), with what is wrong with the types in it, by the declaration of its
/// type: of the scopes of the type's members `member` is that of the one whose signature it is; where no member has that scope, that of
/// a constructor without parameters. It takes time in the members of the type, in the ends that its answers give, and in the texts.
#[tactic(auto, using(sg_reading::proofs::Steps::reading_steps))]
pub fn check_signature(
    alloc: Global,
    l: &Layout,
    names: &Names,
    o: &Oracle,
    decl: &TypeDecl,
    ty: Scope,
    member: Scope,
) -> Result<Known<Signature, Query<JavaPred>>, AllocError>
    ensures { IfOk result (IsKnown (reply_to o.now) (declared_signature l.now names.now ty (type_decl_tree decl.now) member)) }
{
    Known::from_found(read_declared_signature(alloc, l, names, o, decl, ty, member))
}
