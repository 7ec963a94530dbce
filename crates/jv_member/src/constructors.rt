//! The constructor of the superclass that a constructor calls without a super call.

ghost use Rattle.std.specs.Prelude.{◌≡◌, ◌++◌, Some, map, OnOk, MatchResult};
ghost use Rattle.sg_reading.specs.Stop.{Reads};
ghost use Rattle.sg_reading.specs.declared.stop.Stop.TheVariants.{OutOfMemory};
ghost use Rattle.jv_diag.specs.Plain.{fault_if};
ghost use Rattle.jv_diag.specs.Text.{takes};
ghost use Rattle.jv_tree.specs.TypeTree.{ids_of};
ghost use Rattle.jv_names.specs.Replies.{reply_to};
ghost use Rattle.jv_member.specs.MemberDecls.{own_of};
ghost use Rattle.jv_member.specs.Constructors.{titled_diag, takes_some, can_call, call_diags, call_faults, only_class, call_of, calls_at, call_at, ctor_rule};

use crate::member_decl::MemberDecl;
use jv_diag::{DiagList, codes};
use jv_instance::JavaPred;
use jv_layout::Layout;
use jv_names::{
    Oracle, ReadSignature, Spot, instance_bodies, read_accessible, read_ctor_of,
    read_has_enclosing, read_signature_of, read_superclass,
};
use jv_tree::{Name, Names};
use sg_base::Scope;
use sg_query::Query;
use sg_reading::Stop;
use std::alloc::{AllocError, Global};

/// Adds a code with the name of a class at a place of a type's file, where a fault is there.
fn add_titled(
    alloc: Global,
    diags: &mut DiagList,
    l: &Layout,
    names: &Names,
    ty: Scope,
    code: u8,
    at: u32,
    class: Scope,
    fault: bool,
) -> Result<(), AllocError>
    requires { takes code ≡ Some 1 }
    ensures { OnOk result (diags.new ≡ diags.old ++ fault_if fault (titled_diag l.now names.now ty code at class)) }
{
    if fault {
        let title = l.title(alloc, names, class)?;
        diags.add(alloc, l.file_of(ty), at, code, &[title.as_str()])?;
    }
    Ok(())
}

/// The diagnostics of a call that is not possible, or lacks its enclosing instance.
fn call_faults(
    alloc: Global,
    l: &Layout,
    names: &Names,
    ty: Scope,
    at: u32,
    class: Scope,
    called: bool,
    enclosed: bool,
) -> Result<DiagList, Stop<Query<JavaPred>>>
    ensures { MatchResult result (λ diags. diags ≡ call_faults l.now names.now ty at class called enclosed) (λ stop. stop ≡ OutOfMemory) }
{
    let mut diags = DiagList::empty(alloc);
    add_titled(
        alloc,
        &mut diags,
        l,
        names,
        ty,
        codes::NO_CONSTRUCTOR,
        at,
        class,
        !called,
    )?;
    add_titled(
        alloc,
        &mut diags,
        l,
        names,
        ty,
        codes::NO_ENCLOSING_INSTANCE,
        at,
        class,
        !enclosed,
    )?;
    Ok(diags)
}

/// Whether a signature takes arguments.
fn takes_some(signature: &Option<ReadSignature>) -> bool
    ensures { result ≡ takes_some signature.now }
{
    match signature {
        None => false,
        Some(found) => found.takes_arguments(),
    }
}

/// Whether a constructor can be called without arguments in the body of a type.
#[tactic(auto, using(crate::proofs::CtorSteps::ctor_steps))]
fn read_can_call(
    alloc: Global,
    l: &Layout,
    o: &Oracle,
    ty: Scope,
    ctor: Option<Scope>,
) -> Result<bool, Stop<Query<JavaPred>>>
    ensures { Reads (reply_to o.now) (can_call l.now ty ctor) result }
{
    match ctor {
        None => Ok(true),
        Some(found) => {
            let signature = read_signature_of(alloc, l, o, found)?;
            if takes_some(&signature) {
                return Ok(false);
            }
            let spot = Spot::of_body(alloc, l, ty)?;
            read_accessible(l, o, &spot, found, None)
        }
    }
}

/// The diagnostics of the call of the superclass's constructor without arguments.
#[tactic(auto, using(crate::proofs::CtorSteps::ctor_steps), unfolding(crate::specs::Constructors::call_diags))]
fn read_call_diags(
    alloc: Global,
    l: &Layout,
    names: &Names,
    o: &Oracle,
    ty: Scope,
    at: u32,
    class: Scope,
) -> Result<DiagList, Stop<Query<JavaPred>>>
    ensures { Reads (reply_to o.now) (call_diags l.now names.now ty at class) result }
{
    let ctor = read_ctor_of(l, o, class)?;
    let called = read_can_call(alloc, l, o, ty, ctor)?;
    let bodies = instance_bodies(alloc, l, ty)?;
    let enclosed = read_has_enclosing(l, o, bodies.as_slice(), class)?;
    call_faults(alloc, l, names, ty, at, class, called, enclosed)
}

/// The superclass where it is a class.
fn only_class(l: &Layout, class: Scope) -> Option<Scope>
    ensures { result ≡ only_class l.now class }
{
    if l.is_interface(class) {
        None
    } else {
        Some(class)
    }
}

/// The same for a superclass, where there is one.
#[tactic(auto, using(crate::proofs::CtorSteps::ctor_steps))]
fn read_call_of(
    alloc: Global,
    l: &Layout,
    names: &Names,
    o: &Oracle,
    ty: Scope,
    at: u32,
    class: Option<Scope>,
) -> Result<DiagList, Stop<Query<JavaPred>>>
    ensures { Reads (reply_to o.now) (call_of l.now names.now ty at class) result }
{
    match class {
        None => Ok(DiagList::empty(alloc)),
        Some(found) => read_call_diags(alloc, l, names, o, ty, at, found),
    }
}

/// Where a member calls the superclass's constructor without a super call, if it does.
fn calls_at(member: &MemberDecl) -> Option<u32>
    ensures { result ≡ calls_at (own_of member.now) }
{
    match member {
        MemberDecl::Field(_, _, _) => None,
        MemberDecl::Method(_) => None,
        MemberDecl::Ctor(ctor) => match ctor.call {
            None => Some(ctor.name.at),
            Some(_) => None,
        },
        MemberDecl::DefaultCtor(name) => Some(name.at),
    }
}

/// The diagnostics of a call at a place, where there is one; `Object` calls none.
#[tactic(auto, using(crate::proofs::CtorSteps::ctor_steps))]
fn read_call_at(
    alloc: Global,
    l: &Layout,
    names: &Names,
    o: &Oracle,
    ty: Scope,
    extends: &[Name],
    place: Option<u32>,
) -> Result<DiagList, Stop<Query<JavaPred>>>
    ensures { Reads (reply_to o.now) (call_at l.now names.now ty (map ids_of extends.now) place) result }
{
    match place {
        None => Ok(DiagList::empty(alloc)),
        Some(at) => {
            if ty == l.object() {
                return Ok(DiagList::empty(alloc));
            }
            let class = read_superclass(alloc, l, o, ty, extends)?;
            read_call_of(alloc, l, names, o, ty, at, only_class(l, class))
        }
    }
}

/// The diagnostics of a constructor that calls the superclass's without a super call (JLS 8.8.7, 8.8.9, 15.9.2), as far as the
/// replies tell them, or the first query that has no reply: that one takes arguments, or is not accessible; or the superclass is
/// an inner class, and no body around has its enclosing instance. Other members have none. It takes the time of the answers, and
/// of the texts.
#[tactic(auto, using(crate::proofs::CtorSteps::ctor_steps), unfolding(crate::specs::Constructors::ctor_rule))]
pub fn read_ctor_rule(
    alloc: Global,
    l: &Layout,
    names: &Names,
    o: &Oracle,
    ty: Scope,
    extends: &[Name],
    member: &MemberDecl,
) -> Result<DiagList, Stop<Query<JavaPred>>>
    ensures { Reads (reply_to o.now) (ctor_rule l.now names.now ty (map ids_of extends.now) (own_of member.now)) result }
{
    read_call_at(alloc, l, names, o, ty, extends, calls_at(member))
}
