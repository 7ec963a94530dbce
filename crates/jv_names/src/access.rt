//! Which types and members are accessible at a place.

ghost use Rattle.std.specs.Prelude.{◌≡◌, ◌<◌, ◌^◌, IfOk};
ghost use Rattle.sg_reading.specs.Stop.{Reads, IsKnown};
ghost use Rattle.jv_names.specs.Access.{is_same_package, is_same_top, has_super, some_body, member_type_by, top_type_by, type_accessible, receiver_fits, body_fits, is_constructor, protected_elsewhere, member_accessible};
ghost use Rattle.jv_layout.specs.Readers.{owner_scope};
ghost use Rattle.jv_names.specs.Replies.{reply_to};

use crate::answers::has_end;
use crate::counts::Counts;
use crate::kinds;
use crate::oracle::Oracle;
use crate::queries::{ask, for_any};
use crate::spot::Spot;
use jv_instance::{Access, JavaPred, labels};
use jv_layout::Layout;
use sg_base::Scope;
use sg_query::Query;
use sg_reading::{Known, Stop};
use std::alloc::AllocError;

/// Whether the place's file lies in the package of a type or a member.
fn is_same_package(l: &Layout, file: u32, s: Scope) -> bool
    requires { file < 2 ^ 31 }
    ensures { result ≡ is_same_package l.now file s }
{
    l.package_of(l.file_scope(file)) == l.package_of(s)
}

/// Whether the innermost body lies in the outermost type of a type or a member.
fn is_same_top(l: &Layout, bodies: &[Scope], s: Scope) -> bool
    ensures { result ≡ is_same_top l.now bodies.now s }
{
    match bodies.first() {
        Some(body) => l.top_of(*body) == l.top_of(s),
        None => false,
    }
}

/// Whether a type is another one or among its supertypes.
#[tactic(auto, using(crate::proofs::Steps::name_steps))]
pub(crate) fn has_super(
    l: &Layout,
    o: &Oracle,
    sub: Scope,
    above: Scope,
) -> Result<bool, Stop<Query<JavaPred>>>
    ensures { Reads (reply_to o.now) (has_super l.now above sub) result }
{
    let answer = ask(o, for_any(kinds::SUPERS, sub))?;
    Ok(has_end(l, Counts::Supertypes, above, answer))
}

/// Whether a type is one of the bodies or among their supertypes.
#[tactic(auto, using(crate::proofs::Steps::name_steps))]
pub fn some_has_super(
    l: &Layout,
    o: &Oracle,
    bodies: &[Scope],
    above: Scope,
) -> Result<bool, Stop<Query<JavaPred>>>
    ensures { Reads (reply_to o.now) (some_body (has_super l.now above) bodies.now) result }
{
    for body in bodies {
        if has_super(l, o, *body, above)? {
            return Ok(true);
        }
    }
    Ok(false)
}

/// A member type, by its access.
#[tactic(auto, using(crate::proofs::Steps::name_steps))]
fn member_type_by(
    l: &Layout,
    o: &Oracle,
    spot: &Spot,
    ty: Scope,
    declarer: Scope,
    access: Access,
) -> Result<bool, Stop<Query<JavaPred>>>
    requires { spot.now.file < 2 ^ 31 }
    ensures { Reads (reply_to o.now) (member_type_by l.now spot.now.file spot.now.inside.items ty declarer access) result }
{
    match access {
        Access::Public => Ok(true),
        Access::Private => Ok(is_same_top(l, spot.inside.as_slice(), ty)),
        Access::Package => Ok(is_same_package(l, spot.file, ty)),
        Access::Protected => {
            if is_same_package(l, spot.file, ty) {
                Ok(true)
            } else {
                some_has_super(l, o, spot.inside.as_slice(), declarer)
            }
        }
    }
}

/// A top-level type, by its access.
fn top_type_by(l: &Layout, file: u32, ty: Scope, access: Access) -> bool
    requires { file < 2 ^ 31 }
    ensures { result ≡ top_type_by l.now file ty access }
{
    match access {
        Access::Public => true,
        Access::Protected => is_same_package(l, file, ty),
        Access::Package => is_same_package(l, file, ty),
        Access::Private => is_same_package(l, file, ty),
    }
}

/// Whether a type is accessible as far as the replies tell it, or the first query that has no reply.
#[tactic(auto, using(crate::proofs::Steps::name_steps))]
pub fn read_type_accessible(
    l: &Layout,
    o: &Oracle,
    spot: &Spot,
    ty: Scope,
) -> Result<bool, Stop<Query<JavaPred>>>
    requires { spot.now.file < 2 ^ 31 }
    ensures { Reads (reply_to o.now) (type_accessible l.now spot.now.file spot.now.inside.items ty) result }
{
    match l.owner(ty) {
        None => Ok(top_type_by(l, spot.file, ty, l.access(ty))),
        Some(declarer) => member_type_by(l, o, spot, ty, declarer, l.access(ty)),
    }
}

/// Whether a type is accessible at a place (JLS 6.6.1): a top-level type where it is public or in its package; a member type
/// where its access lets it, a protected one also in the bodies of subtypes of the type that declares it. For an import the place
/// has no body around it. It takes the time of the supertypes that it looks at.
#[tactic(auto, using(crate::proofs::Steps::name_steps))]
pub fn type_accessible(
    l: &Layout,
    o: &Oracle,
    spot: &Spot,
    ty: Scope,
) -> Result<Known<bool, Query<JavaPred>>, AllocError>
    requires { spot.now.file < 2 ^ 31 }
    ensures { IfOk result (IsKnown (reply_to o.now) (type_accessible l.now spot.now.file spot.now.inside.items ty)) }
{
    Known::from_found(read_type_accessible(l, o, spot, ty))
}

/// Whether a receiver's type has the body among its supertypes, where that is asked.
#[tactic(auto, using(crate::proofs::Steps::name_steps))]
fn receiver_fits(
    l: &Layout,
    o: &Oracle,
    member: Scope,
    body: Scope,
    through: Option<Scope>,
) -> Result<bool, Stop<Query<JavaPred>>>
    ensures { Reads (reply_to o.now) (receiver_fits l.now member body through) result }
{
    match through {
        None => Ok(true),
        Some(receiver) => {
            if l.is_static(member) {
                Ok(true)
            } else {
                has_super(l, o, receiver, body)
            }
        }
    }
}

/// Whether a protected member is accessible within a body.
#[tactic(auto, using(crate::proofs::Steps::name_steps))]
fn body_fits(
    l: &Layout,
    o: &Oracle,
    member: Scope,
    declarer: Scope,
    through: Option<Scope>,
    body: Scope,
) -> Result<bool, Stop<Query<JavaPred>>>
    ensures { Reads (reply_to o.now) (body_fits l.now member declarer through body) result }
{
    if has_super(l, o, body, declarer)? {
        receiver_fits(l, o, member, body, through)
    } else {
        Ok(false)
    }
}

/// Whether a protected member is accessible within one of the bodies.
#[tactic(auto, using(crate::proofs::Steps::name_steps))]
fn some_fits(
    l: &Layout,
    o: &Oracle,
    member: Scope,
    declarer: Scope,
    through: Option<Scope>,
    bodies: &[Scope],
) -> Result<bool, Stop<Query<JavaPred>>>
    ensures { Reads (reply_to o.now) (some_body (body_fits l.now member declarer through) bodies.now) result }
{
    for body in bodies {
        if body_fits(l, o, member, declarer, through, *body)? {
            return Ok(true);
        }
    }
    Ok(false)
}

/// Whether a member is a constructor.
fn is_constructor(l: &Layout, member: Scope) -> bool
    ensures { result ≡ is_constructor l.now member }
{
    l.is_member_by(labels::CTOR, l.place(member))
}

/// A protected member of another package.
#[tactic(auto, using(crate::proofs::Steps::name_steps))]
fn protected_elsewhere(
    l: &Layout,
    o: &Oracle,
    bodies: &[Scope],
    member: Scope,
    through: Option<Scope>,
) -> Result<bool, Stop<Query<JavaPred>>>
    ensures { Reads (reply_to o.now) (protected_elsewhere l.now bodies.now member through (owner_scope l.now member)) result }
{
    match l.owner(member) {
        None => Ok(false),
        Some(declarer) => {
            if is_constructor(l, member) && through.is_some() {
                Ok(false)
            } else {
                some_fits(l, o, member, declarer, through, bodies)
            }
        }
    }
}

/// Whether a member is accessible as far as the replies tell it, or the first query that has no reply.
#[tactic(auto, using(crate::proofs::Steps::name_steps))]
pub fn read_accessible(
    l: &Layout,
    o: &Oracle,
    spot: &Spot,
    member: Scope,
    through: Option<Scope>,
) -> Result<bool, Stop<Query<JavaPred>>>
    requires { spot.now.file < 2 ^ 31 }
    ensures { Reads (reply_to o.now) (member_accessible l.now spot.now.file spot.now.inside.items member through) result }
{
    match l.access(member) {
        Access::Public => Ok(true),
        Access::Private => Ok(is_same_top(l, spot.inside.as_slice(), member)),
        Access::Package => Ok(is_same_package(l, spot.file, member)),
        Access::Protected => {
            if is_same_package(l, spot.file, member) {
                Ok(true)
            } else {
                protected_elsewhere(l, o, spot.inside.as_slice(), member, through)
            }
        }
    }
}

/// Whether a field, a method or a constructor is accessible at a place (JLS 6.6.1, 6.6.2). `through` is none for a simple name,
/// for `super` and for a super call, the class for `new`, and else the type of what stands before the dot. A protected
/// constructor outside its package is reached by a super call alone. It takes the time of the supertypes that it looks at.
#[tactic(auto, using(crate::proofs::Steps::name_steps))]
pub fn accessible(
    l: &Layout,
    o: &Oracle,
    spot: &Spot,
    member: Scope,
    through: Option<Scope>,
) -> Result<Known<bool, Query<JavaPred>>, AllocError>
    requires { spot.now.file < 2 ^ 31 }
    ensures { IfOk result (IsKnown (reply_to o.now) (member_accessible l.now spot.now.file spot.now.inside.items member through)) }
{
    Known::from_found(read_accessible(l, o, spot, member, through))
}
