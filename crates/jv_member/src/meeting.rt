//! Methods of one name that meet in a type.

ghost use Rattle.std.specs.Prelude.{◌≡◌, IfOk, MatchResult, option_copied};
ghost use Rattle.std.specs.List.{filter, list_any};
ghost use Rattle.sg_reading.specs.Reading.{each};
ghost use Rattle.sg_reading.specs.Stop.{Reads};
ghost use Rattle.sg_reading.specs.declared.stop.Stop.TheVariants.{OutOfMemory};
ghost use Rattle.jv_layout.specs.Readers.{is_default_of};
ghost use Rattle.jv_names.specs.Replies.{reply_to};
ghost use Rattle.jv_member.specs.Overriding.{is_owner, declares_one, first_concrete, meets_default, default_codes, meets, is_other, concrete_codes, results_of, some_fits, abstract_codes, met_codes, meeting_codes, meeting};

use crate::clash::{Clash, ClashKind};
use crate::codes::Codes;
use crate::of_class::has_abstract_of_class;
use crate::pairs::read_meeting_code;
use crate::whole_methods::{
    WholeMethod, params_differ, read_signatures, signature_among, whole_methods,
};
use jv_instance::{JavaPred, Ty, TypeList};
use jv_layout::Layout;
use jv_names::{Oracle, ReadSignature, read_fits_all};
use sg_base::Scope;
use sg_query::Query;
use sg_reading::Stop;
use std::alloc::{AllocError, Global};

/// Whether a type is the owner of a member.
fn is_owner(ty: Scope, owner: Option<Scope>) -> bool
    ensures { result ≡ is_owner ty owner }
{
    match owner {
        None => false,
        Some(other) => ty == other,
    }
}

/// Whether a type declares one of the methods.
fn declares_one(l: &Layout, ty: Scope, methods: &[Scope]) -> bool
    ensures { result ≡ declares_one l.now ty methods.now }
{
    methods.iter().any(|method| is_owner(ty, l.owner(*method)))
}

/// The first method that a class declares and that is not abstract. It takes time in the number of methods.
fn first_concrete(l: &Layout, methods: &[Scope]) -> Option<Scope>
    ensures { result ≡ first_concrete l.now methods.now }
{
    for method in methods {
        if !(l.is_abstract(*method) || l.is_interface_method(*method)) {
            return Some(*method);
        }
    }
    None
}

/// Whether one of the methods is a default method (JLS 9.4.3).
fn has_default(l: &Layout, methods: &[Scope]) -> bool
    ensures { result ≡ list_any (is_default_of l.now) methods.now }
{
    methods.iter().any(|method| l.is_default(*method))
}

/// Whether a default method and another one are members, and none of them is an abstract one of a class (JLS 8.4.8.4, 9.4.1.3).
fn meets_default(l: &Layout, members: &[Scope]) -> bool
    ensures { result ≡ meets_default l.now members.now }
{
    has_default(l, members) && (members.len() >= 2 && !has_abstract_of_class(l, members))
}

/// What is wrong where default methods meet.
fn default_codes(
    alloc: Global,
    l: &Layout,
    members: &[Scope],
) -> Result<Codes, Stop<Query<JavaPred>>>
    ensures { MatchResult result (λ codes. codes ≡ default_codes l.now members.now) (λ stop. stop ≡ OutOfMemory) }
{
    let codes = Codes::empty(alloc);
    if meets_default(l, members) {
        codes.with(Some(Clash::new(ClashKind::Defaults)))
    } else {
        Ok(codes)
    }
}

/// Whether a method is another one.
fn is_other(method: Scope, other: &WholeMethod) -> bool
    ensures { result ≡ is_other method other.now }
{
    method != other.scope
}

/// What is wrong with another method where one stands for both.
fn read_meets(
    l: &Layout,
    o: &Oracle,
    method: Scope,
    signature: &ReadSignature,
    other: &WholeMethod,
) -> Result<Option<Clash>, Stop<Query<JavaPred>>>
    ensures { Reads (reply_to o.now) (meets l.now method signature.now other.now) result }
{
    read_meeting_code(l, o, method, other.scope, signature, &other.signature)
}

/// What is wrong with each of the other methods where one stands for all.
#[tactic(auto, using(crate::proofs::MeetingSteps::meeting_steps))]
fn read_each_meets(
    alloc: Global,
    l: &Layout,
    o: &Oracle,
    method: Scope,
    signature: &ReadSignature,
    methods: &[WholeMethod],
) -> Result<Codes, Stop<Query<JavaPred>>>
    ensures { Reads (reply_to o.now) (each (meets l.now method signature.now) (filter (is_other method) methods.now)) result }
{
    let mut codes = Codes::empty(alloc);
    for other in methods {
        if is_other(method, other) {
            let code = read_meets(l, o, method, signature, other)?;
            codes = codes.with(code)?;
        }
    }
    Ok(codes)
}

/// What is wrong where a method of a class that is not abstract stands for all others.
#[tactic(auto, using(crate::proofs::MeetingSteps::meeting_steps))]
fn read_concrete_codes(
    alloc: Global,
    l: &Layout,
    o: &Oracle,
    method: Scope,
    signature: Option<&ReadSignature>,
    methods: &[WholeMethod],
) -> Result<Codes, Stop<Query<JavaPred>>>
    ensures { Reads (reply_to o.now) (concrete_codes l.now method (option_copied signature.entry) methods.now) result }
{
    match signature {
        None => Ok(Codes::empty(alloc)),
        Some(signature) => read_each_meets(alloc, l, o, method, signature, methods),
    }
}

/// The results of methods.
fn results_of(alloc: Global, methods: &[WholeMethod]) -> Result<TypeList, AllocError>
    ensures { IfOk result (λ types. types ≡ results_of methods.now) }
{
    let mut results = Vec::new(alloc);
    for method in methods {
        results.push(method.signature.result)?;
    }
    Ok(TypeList::new(results))
}

/// Whether one of the results fits all others.
#[tactic(auto, using(crate::proofs::MeetingSteps::meeting_steps))]
fn read_some_fits(l: &Layout, o: &Oracle, results: &[Ty]) -> Result<bool, Stop<Query<JavaPred>>>
    ensures { Reads (reply_to o.now) (some_fits l.now results.now results.now) result }
{
    for ty in results {
        if read_fits_all(l, o, *ty, results)? {
            return Ok(true);
        }
    }
    Ok(false)
}

/// What is wrong where no method of a class stands for all.
#[tactic(auto, using(crate::proofs::MeetingSteps::meeting_steps))]
fn read_abstract_codes(
    alloc: Global,
    l: &Layout,
    o: &Oracle,
    methods: &[Scope],
    members: &[Scope],
    whole: &[WholeMethod],
) -> Result<Codes, Stop<Query<JavaPred>>>
    ensures { Reads (reply_to o.now) (abstract_codes l.now methods.now members.now whole.now) result }
{
    if whole.len() != methods.len() {
        return default_codes(alloc, l, members);
    }
    let results = results_of(alloc, whole)?;
    if read_some_fits(l, o, results.as_slice())? {
        default_codes(alloc, l, members)
    } else {
        Codes::empty(alloc).with(Some(Clash::new(ClashKind::Result)))
    }
}

/// What is wrong with methods that have the same parameters.
#[tactic(auto, using(crate::proofs::MeetingSteps::meeting_steps))]
fn read_met_codes(
    alloc: Global,
    l: &Layout,
    o: &Oracle,
    methods: &[Scope],
    members: &[Scope],
    whole: &[WholeMethod],
) -> Result<Codes, Stop<Query<JavaPred>>>
    ensures { Reads (reply_to o.now) (met_codes l.now methods.now members.now (first_concrete l.now methods.now) whole.now) result }
{
    match first_concrete(l, methods) {
        None => read_abstract_codes(alloc, l, o, methods, members, whole),
        Some(method) => {
            let signature = signature_among(method, whole);
            read_concrete_codes(alloc, l, o, method, signature, whole)
        }
    }
}

/// What is wrong with several methods of one name, by their signatures.
#[tactic(auto, using(crate::proofs::MeetingSteps::meeting_steps))]
fn read_meeting_codes(
    alloc: Global,
    l: &Layout,
    o: &Oracle,
    methods: &[Scope],
    members: &[Scope],
    whole: &[WholeMethod],
) -> Result<Codes, Stop<Query<JavaPred>>>
    ensures { Reads (reply_to o.now) (meeting_codes l.now methods.now members.now whole.now) result }
{
    if params_differ(whole) {
        return Codes::empty(alloc).with(Some(Clash::new(ClashKind::Params)));
    }
    read_met_codes(alloc, l, o, methods, members, whole)
}

/// What is wrong with the methods of one name that meet in a type, of which some are its members (JLS 8.4.8.4, 9.4.1.3), as far as
/// the replies tell it, or the first query that has no reply: nothing where the type declares one of them. Else other parameters
/// than those of the first; else each method is compared with the first of a class that is not abstract; and where there is none,
/// the result of one of them has to fit all, and else a default method may not meet another member. Methods with bad types are
/// passed over. It takes the time of the answers, and of comparing each pair of results.
#[tactic(auto, using(crate::proofs::MeetingSteps::meeting_steps), unfolding(crate::specs::Overriding::meeting))]
pub fn read_meeting(
    alloc: Global,
    l: &Layout,
    o: &Oracle,
    ty: Scope,
    methods: &[Scope],
    members: &[Scope],
) -> Result<Codes, Stop<Query<JavaPred>>>
    ensures { Reads (reply_to o.now) (meeting l.now ty methods.now members.now) result }
{
    if declares_one(l, ty, methods) || methods.len() < 2 {
        return Ok(Codes::empty(alloc));
    }
    let signatures = read_signatures(alloc, l, o, methods)?;
    let whole = whole_methods(alloc, methods, signatures)?;
    read_meeting_codes(alloc, l, o, methods, members, whole.as_slice())
}
