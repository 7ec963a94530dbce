//! Which of the methods of a name that a type inherits are its members: for a method of an interface another one may stand.

ghost use Rattle.std.specs.Prelude.{◌≡◌, cond, Some, MatchResult};
ghost use Rattle.sg_base.specs.List.{IsRising};
ghost use Rattle.sg_base.specs.Scope.{scope_cmp};
ghost use Rattle.sg_reading.specs.declared.stop.Stop.TheVariants.{OutOfMemory};
ghost use Rattle.sg_reading.specs.Stop.{Reads};
ghost use Rattle.sg_state.specs.Held.{put};
ghost use Rattle.jv_names.specs.Access.{some_body};
ghost use Rattle.jv_names.specs.Members.{is_of_class, lies_below, stands_for, is_replaced, members_among};
ghost use Rattle.jv_names.specs.Replies.{reply_to};

use crate::access::has_super;
use crate::oracle::Oracle;
use jv_instance::JavaPred;
use jv_layout::Layout;
use sg_base::{Scope, ScopeSet};
use sg_query::Query;
use sg_reading::Stop;
use std::alloc::Global;

/// Whether a method is not abstract and declared in a class.
fn is_of_class(l: &Layout, method: Scope) -> bool
    ensures { result ≡ is_of_class l.now method }
{
    !l.is_abstract(method) && !l.is_interface_method(method)
}

/// Whether another type has an interface among its supertypes.
#[tactic(auto, using(crate::proofs::Steps::name_steps))]
fn read_type_below(
    l: &Layout,
    o: &Oracle,
    interface: Scope,
    other: Scope,
) -> Result<bool, Stop<Query<JavaPred>>>
    ensures { Reads (reply_to o.now) (lies_below l.now (Some interface) (Some other)) result }
{
    if interface == other {
        Ok(false)
    } else {
        has_super(l, o, other, interface)
    }
}

/// Whether another type has an interface among its supertypes, where both are there.
#[tactic(auto, using(crate::proofs::Steps::name_steps))]
fn read_lies_below(
    l: &Layout,
    o: &Oracle,
    interface: Option<Scope>,
    other: Option<Scope>,
) -> Result<bool, Stop<Query<JavaPred>>>
    ensures { Reads (reply_to o.now) (lies_below l.now interface other) result }
{
    match interface {
        None => Ok(false),
        Some(above) => match other {
            None => Ok(false),
            Some(sub) => read_type_below(l, o, above, sub),
        },
    }
}

/// Whether another method takes the place of one of an interface: it is not static, and of a class and not abstract, or of a
/// subtype of that interface.
#[tactic(auto, using(crate::proofs::Steps::name_steps), unfolding(crate::specs::Members::stands_for))]
fn read_stands_for(
    l: &Layout,
    o: &Oracle,
    method: Scope,
    other: Scope,
) -> Result<bool, Stop<Query<JavaPred>>>
    ensures { Reads (reply_to o.now) (stands_for l.now method other) result }
{
    if method == other || l.is_static(other) {
        return Ok(false);
    }
    if is_of_class(l, other) {
        return Ok(true);
    }
    read_lies_below(l, o, l.owner(method), l.owner(other))
}

/// Whether one of the methods takes the place of one of an interface.
#[tactic(auto, using(crate::proofs::Steps::name_steps))]
fn read_some_stands_for(
    l: &Layout,
    o: &Oracle,
    method: Scope,
    all: &[Scope],
) -> Result<bool, Stop<Query<JavaPred>>>
    ensures { Reads (reply_to o.now) (some_body (stands_for l.now method) all.now) result }
{
    for other in all {
        if read_stands_for(l, o, method, *other)? {
            return Ok(true);
        }
    }
    Ok(false)
}

/// Whether a method is one of an interface, and one of all takes its place.
#[tactic(auto, using(crate::proofs::Steps::name_steps))]
fn read_is_replaced(
    l: &Layout,
    o: &Oracle,
    all: &[Scope],
    method: Scope,
) -> Result<bool, Stop<Query<JavaPred>>>
    ensures { Reads (reply_to o.now) (is_replaced l.now all.now method) result }
{
    if l.is_interface_method(method) {
        read_some_stands_for(l, o, method, all)
    } else {
        Ok(false)
    }
}

/// The scopes that are kept, with one more where that is not gone.
pub(crate) fn kept_with(
    mut kept: ScopeSet,
    gone: bool,
    scope: Scope,
) -> Result<ScopeSet, Stop<Query<JavaPred>>>
    requires { IsRising scope_cmp kept }
    ensures { MatchResult result
        (λ scopes. (scopes ≡ cond gone kept (put scope_cmp kept scope)) × IsRising scope_cmp scopes)
        (λ stop. stop ≡ OutOfMemory) }
{
    if gone {
        return Ok(kept);
    }
    kept.insert(scope)?;
    Ok(kept)
}

/// The members among methods of one name that a type declares or inherits (JLS 8.4.8, 9.4.1), in rising order, as far as the
/// replies tell it, or the first query that has no reply. For each pair of methods of which one is an interface's it takes the
/// time of a look into the supertypes of the other's type.
#[tactic(auto, using(crate::proofs::ReplacingSteps::replacing_steps))]
pub fn read_members_among(
    alloc: Global,
    l: &Layout,
    o: &Oracle,
    methods: &[Scope],
) -> Result<ScopeSet, Stop<Query<JavaPred>>>
    ensures { Reads (reply_to o.now) (members_among l.now methods.now) result }
{
    let mut kept = ScopeSet::new(alloc);
    for method in methods {
        let gone = read_is_replaced(l, o, methods, *method)?;
        kept = kept_with(kept, gone, *method)?;
    }
    Ok(kept)
}
