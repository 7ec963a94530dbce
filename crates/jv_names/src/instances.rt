//! Enclosing instances: the bodies around a type with an instance, and whether one that a class needs is there.

ghost use Rattle.std.specs.Prelude.{◌≡◌, IfOk};
ghost use Rattle.sg_reading.specs.Stop.{Reads};
ghost use Rattle.jv_layout.specs.Readers.{owner_scope};
ghost use Rattle.jv_names.specs.Instances.{instances_from, instance_bodies, has_enclosing};
ghost use Rattle.jv_names.specs.Replies.{reply_to};

use crate::access::some_has_super;
use crate::oracle::Oracle;
use crate::scope_list::ScopeList;
use crate::spot::Spot;
use jv_instance::JavaPred;
use jv_layout::Layout;
use sg_base::Scope;
use sg_query::Query;
use sg_reading::Stop;
use std::alloc::{AllocError, Global};

/// Of bodies outward from a type, those of which a place in that type has an instance.
fn instances_from(
    alloc: Global,
    l: &Layout,
    ty: Scope,
    bodies: &[Scope],
) -> Result<ScopeList, AllocError>
    ensures { IfOk result (λ found. found ≡ instances_from l.now ty bodies.now) }
{
    let mut found = ScopeList::empty(alloc);
    let mut inner = ty;
    for body in bodies {
        if l.is_static(inner) {
            return Ok(found);
        }
        found.push(*body)?;
        inner = *body;
    }
    Ok(found)
}

/// The bodies around a type of which a place in it has an instance, innermost first (JLS 8.1.3): a static type ends them. It
/// takes time in how deep the type is nested.
pub fn instance_bodies(alloc: Global, l: &Layout, ty: Scope) -> Result<ScopeList, AllocError>
    ensures { IfOk result (λ found. found ≡ instance_bodies l.now ty) }
{
    let spot = Spot::of_header(alloc, l, ty)?;
    instances_from(alloc, l, ty, spot.inside.as_slice())
}

/// Whether there is the enclosing instance that an instance of a class needs (JLS 8.1.3, 15.9.2), as far as the replies tell it, or
/// the first query that has no reply: the class is no inner class, or one of these bodies has the type in which it stands among its
/// supertypes. It takes the time of the answers.
#[tactic(auto, using(crate::proofs::Steps::name_steps))]
pub fn read_has_enclosing(
    l: &Layout,
    o: &Oracle,
    bodies: &[Scope],
    class: Scope,
) -> Result<bool, Stop<Query<JavaPred>>>
    ensures { Reads (reply_to o.now) (has_enclosing l.now bodies.now class (owner_scope l.now class)) result }
{
    match l.owner(class) {
        None => Ok(true),
        Some(outer) => {
            if l.is_static(class) {
                return Ok(true);
            }
            some_has_super(l, o, bodies, outer)
        }
    }
}
