//! Calls of methods and constructors by the types of their arguments.

ghost use Rattle.std.specs.Prelude.{◌≡◌, ◌<◌, ◌^◌, cond, OnOk};
ghost use Rattle.sg_reading.specs.Stop.{Reads};
ghost use Rattle.jv_names.specs.Replies.{reply_to};
ghost use Rattle.jv_expr.specs.Calls.{above_call, above_field, bad_super, bare_call, bare_in, base_call, front_call, new_meant, super_call, super_called, super_field, through, value_call, with_super};
ghost use Rattle.jv_expr.specs.Checking.{only_diags, with_diags};
ghost use Rattle.jv_expr.specs.Manners.{manner_of};
ghost use Rattle.jv_expr.specs.Operators.{bad_value};
ghost use Rattle.jv_expr.specs.Site.{has_instance, has_this};
ghost use Rattle.jv_expr.specs.Sites.{site_of};

use crate::applying::bad_type;
use crate::argument::Argument;
use crate::constructors::{check_new_class, check_super_ctor};
use crate::faults::add_fault;
use crate::fields::check_class_field;
use crate::front::Front;
use crate::imported_calls::check_imported_call;
use crate::manner::Manner;
use crate::method_calls::{add_bad_call, check_called_of, check_class_call};
use crate::need::Need;
use crate::site::Site;
use crate::value::Value;
use jv_diag::{DiagList, codes};
use jv_instance::{Ty, TypeBase};
use jv_names::{Ends, Meaning, Oracle, read_methods, read_superclass};
use jv_tree::Ident;
use sg_base::Scope;
use std::alloc::{AllocError, Global};

/// Whether the place has an instance of the body of a type (JLS 8.1.3, 15.8.3).
fn has_instance(site: &Site<'_>, body: Scope) -> bool
    ensures { result ≡ has_instance (site_of site.now) body }
{
    site.instances.iter().any(|scope| body == *scope)
}

/// Adds that `super` stands without an instance.
fn add_bad_super(
    alloc: Global,
    site: &Site<'_>,
    at: u32,
    ds: &mut DiagList,
) -> Result<(), AllocError>
    ensures { OnOk result (ds.new ≡ bad_super (site_of site.now) at ds.old) }
{
    add_fault(alloc, site, at, codes::NO_INSTANCE, &["super"], ds)
}

/// The manner of a call on a value of a type.
fn through(class: Scope) -> Manner
    ensures { manner_of result ≡ through class }
{
    Manner {
        through: Some(class),
        free: true,
        concrete: false,
        on_value: true,
    }
}

/// A call on a value of a type without brackets.
#[tactic(auto, using(crate::proofs::CallSteps::call_steps))]
fn check_base_call(
    alloc: Global,
    site: &Site<'_>,
    o: &Oracle,
    base: TypeBase,
    i: Ident,
    arguments: &[Argument],
    ds: &mut DiagList,
) -> Result<Ty, Need>
    requires { site.now.spot.now.file < 2 ^ 31 }
    ensures { Reads (reply_to o.now) (base_call (site_of site.now) base i arguments.now ds.old) (with_diags result ds.new) }
{
    match base {
        TypeBase::Class(class) => {
            check_class_call(alloc, site, o, through(class), class, i, arguments, ds)
        }
        TypeBase::Bad => Ok(bad_type()),
        TypeBase::Boolean
        | TypeBase::Char
        | TypeBase::Int
        | TypeBase::Long
        | TypeBase::Null
        | TypeBase::Void => Ok(add_bad_call(alloc, site, i, codes::UNKNOWN_METHOD, ds)?),
    }
}

/// A call on a value of a type; on an array the methods of `Object` are called (JLS 10.7).
#[tactic(auto, using(crate::proofs::CallSteps::call_steps))]
fn check_value_call(
    alloc: Global,
    site: &Site<'_>,
    o: &Oracle,
    ty: Ty,
    i: Ident,
    arguments: &[Argument],
    ds: &mut DiagList,
) -> Result<Ty, Need>
    requires { site.now.spot.now.file < 2 ^ 31 }
    ensures { Reads (reply_to o.now) (value_call (site_of site.now) ty i arguments.now ds.old) (with_diags result ds.new) }
{
    if 0 < ty.dims && !ty.is_bad() {
        let object = site.layout.object();
        return check_class_call(alloc, site, o, through(object), object, i, arguments, ds);
    }
    check_base_call(alloc, site, o, ty.base, i, arguments, ds)
}

/// A call behind a value or a type (JLS 15.12).
#[tactic(auto, using(crate::proofs::CallSteps::call_steps), unfolding(crate::specs::Calls::front_call))]
pub(crate) fn check_front_call(
    alloc: Global,
    site: &Site<'_>,
    o: &Oracle,
    front: Front,
    i: Ident,
    arguments: &[Argument],
    ds: &mut DiagList,
) -> Result<Ty, Need>
    requires { site.now.spot.now.file < 2 ^ 31 }
    ensures { Reads (reply_to o.now) (front_call (site_of site.now) front i arguments.now ds.old) (with_diags result ds.new) }
{
    match front {
        Front::Value(v) => check_value_call(alloc, site, o, v.ty, i, arguments, ds),
        Front::TypeName(class) => {
            let how = Manner {
                through: Some(class),
                free: false,
                concrete: false,
                on_value: false,
            };
            check_class_call(alloc, site, o, how, class, i, arguments, ds)
        }
    }
}

/// A call by a simple name of the innermost of some bodies that has a method of the name, and else of a method that imports bring.
#[tactic(auto, using(crate::proofs::BareSteps::bare_steps))]
fn check_call_in(
    alloc: Global,
    site: &Site<'_>,
    o: &Oracle,
    bodies: &[Scope],
    i: Ident,
    arguments: &[Argument],
    ds: &mut DiagList,
) -> Result<Ty, Need>
    requires { site.now.spot.now.file < 2 ^ 31 }
    ensures { Reads (reply_to o.now) (bare_in (site_of site.now) bodies.now i arguments.now ds.old) (with_diags result ds.new) }
{
    for body in bodies {
        match read_methods(alloc, site.layout, o, *body, i.id)? {
            Ends::TooMany => return Ok(add_bad_call(alloc, site, i, codes::TOO_MANY_PATHS, ds)?),
            Ends::Scopes(methods) => {
                if !methods.as_slice().is_empty() {
                    let how = Manner {
                        through: None,
                        free: has_instance(site, *body),
                        concrete: false,
                        on_value: false,
                    };
                    return check_called_of(
                        alloc,
                        site,
                        o,
                        how,
                        i,
                        arguments,
                        methods.as_slice(),
                        ds,
                    );
                }
            }
        }
    }
    check_imported_call(alloc, site, o, i, arguments, ds)
}

/// A call by a simple name (JLS 15.12.1).
#[tactic(auto, using(crate::proofs::CallSteps::call_steps), unfolding(crate::specs::Calls::bare_call))]
pub(crate) fn check_bare_call(
    alloc: Global,
    site: &Site<'_>,
    o: &Oracle,
    i: Ident,
    arguments: &[Argument],
    ds: &mut DiagList,
) -> Result<Ty, Need>
    requires { site.now.spot.now.file < 2 ^ 31 }
    ensures { Reads (reply_to o.now) (bare_call (site_of site.now) i arguments.now ds.old) (with_diags result ds.new) }
{
    check_call_in(
        alloc,
        site,
        o,
        site.spot.inside.as_slice(),
        i,
        arguments,
        ds,
    )
}

/// Adds that `super` stands without an instance, where it does.
fn add_super(alloc: Global, site: &Site<'_>, at: u32, ds: &mut DiagList) -> Result<(), AllocError>
    ensures { OnOk result (ds.new ≡ with_super (site_of site.now) at ds.old) }
{
    if !has_instance(site, site.class) {
        add_bad_super(alloc, site, at, ds)?;
    }
    Ok(())
}

/// The first where the place has an instance of the innermost body, and else the second.
fn if_this<T: Drop>(site: &Site<'_>, found: T, other: T) -> T
    ensures { result ≡ cond (has_this (site_of site.now)) found other }
{
    if has_instance(site, site.class) {
        found
    } else {
        other
    }
}

/// A call through `super` at an offset (JLS 15.12.1).
#[tactic(auto, using(crate::proofs::CallSteps::call_steps), unfolding(crate::specs::Calls::super_call))]
pub(crate) fn check_super_call(
    alloc: Global,
    site: &Site<'_>,
    o: &Oracle,
    at: u32,
    i: Ident,
    arguments: &[Argument],
    ds: &mut DiagList,
) -> Result<Ty, Need>
    requires { site.now.spot.now.file < 2 ^ 31 }
    ensures { Reads (reply_to o.now) (super_call (site_of site.now) at i arguments.now ds.old) (with_diags result ds.new) }
{
    if site.layout.is_interface(site.class) {
        add_bad_super(alloc, site, at, ds)?;
        return Ok(bad_type());
    }
    add_super(alloc, site, at, ds)?;
    let ty = check_above_call(alloc, site, o, i, arguments, ds)?;
    Ok(if_this(site, ty, bad_type()))
}

/// A call of a method of the superclass, which may not be abstract.
#[tactic(auto, using(crate::proofs::CallSteps::call_steps), unfolding(crate::specs::Calls::above_call))]
fn check_above_call(
    alloc: Global,
    site: &Site<'_>,
    o: &Oracle,
    i: Ident,
    arguments: &[Argument],
    ds: &mut DiagList,
) -> Result<Ty, Need>
    requires { site.now.spot.now.file < 2 ^ 31 }
    ensures { Reads (reply_to o.now) (above_call (site_of site.now) i arguments.now ds.old) (with_diags result ds.new) }
{
    let class = read_superclass(alloc, site.layout, o, site.class, site.extends)?;
    let how = Manner {
        through: None,
        free: true,
        concrete: true,
        on_value: false,
    };
    check_class_call(alloc, site, o, how, class, i, arguments, ds)
}

/// A field through `super` at an offset (JLS 15.11.2).
#[tactic(auto, using(crate::proofs::CallSteps::call_steps), unfolding(crate::specs::Calls::super_field))]
pub(crate) fn check_super_field(
    alloc: Global,
    site: &Site<'_>,
    o: &Oracle,
    at: u32,
    i: Ident,
    ds: &mut DiagList,
) -> Result<Value, Need>
    requires { site.now.spot.now.file < 2 ^ 31 }
    ensures { Reads (reply_to o.now) (super_field (site_of site.now) at i ds.old) (with_diags result ds.new) }
{
    if site.layout.is_interface(site.class) {
        add_bad_super(alloc, site, at, ds)?;
        return Ok(bad_value());
    }
    add_super(alloc, site, at, ds)?;
    let v = check_above_field(alloc, site, o, i, ds)?;
    Ok(if_this(site, v, bad_value()))
}

/// A bad value.
fn bad_value() -> Value
    ensures { result ≡ bad_value }
{
    Value {
        ty: bad_type(),
        sealed: None,
    }
}

/// A field of the superclass.
#[tactic(auto, using(crate::proofs::CallSteps::call_steps), unfolding(crate::specs::Calls::above_field))]
fn check_above_field(
    alloc: Global,
    site: &Site<'_>,
    o: &Oracle,
    i: Ident,
    ds: &mut DiagList,
) -> Result<Value, Need>
    requires { site.now.spot.now.file < 2 ^ 31 }
    ensures { Reads (reply_to o.now) (above_field (site_of site.now) i ds.old) (with_diags result ds.new) }
{
    let class = read_superclass(alloc, site.layout, o, site.class, site.extends)?;
    check_class_field(alloc, site, o, None, false, class, i, ds)
}

/// A class instance creation, by what the name of the class means, which starts at an offset (JLS 15.9).
#[tactic(auto, using(crate::proofs::CallSteps::call_steps))]
pub(crate) fn check_new(
    alloc: Global,
    site: &Site<'_>,
    o: &Oracle,
    meaning: Meaning,
    at: u32,
    arguments: &[Argument],
    ds: &mut DiagList,
) -> Result<Ty, Need>
    requires { site.now.spot.now.file < 2 ^ 31 }
    ensures { Reads (reply_to o.now) (new_meant (site_of site.now) meaning at arguments.now ds.old) (with_diags result ds.new) }
{
    match meaning {
        Meaning::One(class) => check_new_class(alloc, site, o, class, at, arguments, ds),
        Meaning::Nothing | Meaning::Ambiguous | Meaning::TooMany => Ok(bad_type()),
    }
}

/// `super(..)` at an offset (JLS 8.8.7.1).
#[tactic(auto, using(crate::proofs::CallSteps::call_steps), unfolding(crate::specs::Calls::super_called))]
pub(crate) fn check_super_constructor(
    alloc: Global,
    site: &Site<'_>,
    o: &Oracle,
    at: u32,
    arguments: &[Argument],
    ds: &mut DiagList,
) -> Result<(), Need>
    requires { site.now.spot.now.file < 2 ^ 31 }
    ensures { Reads (reply_to o.now) (super_called (site_of site.now) at arguments.now ds.old) (only_diags result ds.new) }
{
    let class = read_superclass(alloc, site.layout, o, site.class, site.extends)?;
    if site.layout.is_interface(class) {
        return Ok(());
    }
    check_super_ctor(alloc, site, o, class, at, arguments, ds)
}
