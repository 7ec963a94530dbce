//! Pairs of methods of one name.

ghost use Rattle.std.specs.Prelude.{◌≡◌};
ghost use Rattle.sg_reading.specs.Stop.{Reads};
ghost use Rattle.jv_names.specs.Replies.{reply_to};
ghost use Rattle.jv_member.specs.Overriding.{access_rank, is_weaker, static_differs, weaker_or_other, overriding_code, meeting_code, on_whole, overriding};

use crate::clash::{Clash, ClashKind};
use jv_instance::{Access, JavaPred};
use jv_layout::Layout;
use jv_names::{Oracle, ReadSignature, read_result_fits, read_signature_of};
use sg_base::Scope;
use sg_query::Query;
use sg_reading::Stop;
use std::alloc::Global;

/// How far a method is accessible: private, package access, protected, public.
fn access_rank(access: Access) -> u8
    ensures { result ≡ access_rank access }
{
    match access {
        Access::Private => 0,
        Access::Package => 1,
        Access::Protected => 2,
        Access::Public => 3,
    }
}

/// Whether the first method has weaker access than the second.
fn is_weaker(l: &Layout, method: Scope, other: Scope) -> bool
    ensures { result ≡ is_weaker l.now method other }
{
    access_rank(l.access(method)) < access_rank(l.access(other))
}

/// Whether one of two methods is static and the other is not.
fn static_differs(l: &Layout, method: Scope, other: Scope) -> bool
    ensures { result ≡ static_differs l.now method other }
{
    if l.is_static(method) {
        !l.is_static(other)
    } else {
        l.is_static(other)
    }
}

/// Whether the first of two methods has weaker access, or a result that does not fit that of the second.
#[tactic(auto, using(crate::proofs::PairSteps::pair_steps))]
fn read_weaker_or_other(
    l: &Layout,
    o: &Oracle,
    method: Scope,
    other: Scope,
    ours: &ReadSignature,
    theirs: &ReadSignature,
) -> Result<Option<Clash>, Stop<Query<JavaPred>>>
    ensures { Reads (reply_to o.now) (weaker_or_other l.now method other ours.now theirs.now) result }
{
    if is_weaker(l, method, other) {
        return Ok(Some(Clash::new(ClashKind::Weaker)));
    }
    if read_result_fits(l, o, ours.result, theirs.result)? {
        Ok(None)
    } else {
        Ok(Some(Clash::new(ClashKind::Result)))
    }
}

/// What is wrong where the first method is declared over the second, by their signatures.
#[tactic(auto, using(crate::proofs::PairSteps::pair_steps))]
fn read_overriding_code(
    l: &Layout,
    o: &Oracle,
    method: Scope,
    other: Scope,
    ours: &ReadSignature,
    theirs: &ReadSignature,
) -> Result<Option<Clash>, Stop<Query<JavaPred>>>
    ensures { Reads (reply_to o.now) (overriding_code l.now method other ours.now theirs.now) result }
{
    if !ours.has_params_of(theirs) {
        return Ok(Some(Clash::new(ClashKind::Params)));
    }
    if static_differs(l, method, other) {
        return Ok(Some(Clash::new(ClashKind::Static)));
    }
    if l.is_final(other) {
        return Ok(Some(Clash::new(ClashKind::Final)));
    }
    read_weaker_or_other(l, o, method, other, ours, theirs)
}

/// What is wrong where both methods are inherited and the first stands for both (JLS 8.4.8.4, 9.4.1.3), by their signatures. It
/// takes the time of the supertypes that it looks at.
#[tactic(auto, using(crate::proofs::PairSteps::pair_steps))]
pub fn read_meeting_code(
    l: &Layout,
    o: &Oracle,
    method: Scope,
    other: Scope,
    ours: &ReadSignature,
    theirs: &ReadSignature,
) -> Result<Option<Clash>, Stop<Query<JavaPred>>>
    ensures { Reads (reply_to o.now) (meeting_code l.now method other ours.now theirs.now) result }
{
    if static_differs(l, method, other) {
        return Ok(Some(Clash::new(ClashKind::Static)));
    }
    read_weaker_or_other(l, o, method, other, ours, theirs)
}

/// The same by signatures that may be none; one with a bad type is passed over.
#[tactic(auto, using(crate::proofs::PairSteps::pair_steps))]
fn read_on_whole(
    l: &Layout,
    o: &Oracle,
    method: Scope,
    other: Scope,
    ours: &Option<ReadSignature>,
    theirs: &Option<ReadSignature>,
) -> Result<Option<Clash>, Stop<Query<JavaPred>>>
    ensures { Reads (reply_to o.now) (on_whole ours.now theirs.now (overriding_code l.now method other)) result }
{
    match ours {
        None => Ok(None),
        Some(a) => match theirs {
            None => Ok(None),
            Some(b) => {
                if a.is_whole() && b.is_whole() {
                    read_overriding_code(l, o, method, other, a, b)
                } else {
                    Ok(None)
                }
            }
        },
    }
}

/// What is wrong where the first method is declared over the second (JLS 8.4.8.1 to 8.4.8.3, 9.4.1), as far as the replies tell
/// it, or the first query that has no reply: other parameters, one of the two is static, the second is final, weaker access, or
/// another result; the first that holds. Where a type of theirs is bad, nothing is. It takes the time of the answers.
#[tactic(auto, using(crate::proofs::PairSteps::pair_steps), unfolding(crate::specs::Overriding::overriding))]
pub fn read_overriding(
    alloc: Global,
    l: &Layout,
    o: &Oracle,
    method: Scope,
    other: Scope,
) -> Result<Option<Clash>, Stop<Query<JavaPred>>>
    ensures { Reads (reply_to o.now) (overriding l.now method other) result }
{
    let ours = read_signature_of(alloc, l, o, method)?;
    let theirs = read_signature_of(alloc, l, o, other)?;
    read_on_whole(l, o, method, other, &ours, &theirs)
}
