//! Calls of the methods of a class or an interface.

ghost use Rattle.std.specs.Prelude.{◌≡◌, ◌<◌, ◌^◌, Some, IfOk, OnOk};
ghost use Rattle.sg_reading.specs.Stop.{Reads};
ghost use Rattle.jv_diag.specs.Text.{takes};
ghost use Rattle.jv_types.specs.Operators.{bad_type};
ghost use Rattle.jv_names.specs.Replies.{reply_to};
ghost use Rattle.jv_expr.specs.Calls.{call_type, called_among, called_of, class_call, class_methods, is_faulty_call, is_misplaced, is_missing, method_called, or_objects, with_call};
ghost use Rattle.jv_expr.specs.Checking.{with_diags};
ghost use Rattle.jv_expr.specs.Fields.{lacks_instance};
ghost use Rattle.jv_expr.specs.Manners.{manner_of};
ghost use Rattle.jv_expr.specs.Site.{with_named};
ghost use Rattle.jv_expr.specs.Sites.{site_of};

use crate::applying::{bad_type, check_applied};
use crate::argument::Argument;
use crate::choosing::read_chosen;
use crate::faults::{add_named, add_named_if};
use crate::manner::Manner;
use crate::need::Need;
use crate::site::Site;
use jv_diag::{DiagList, codes};
use jv_instance::Ty;
use jv_layout::{Layout, text_of};
use jv_names::{Ends, Oracle, read_accessible, read_methods, read_signature_of};
use jv_tree::{Ident, NameId};
use sg_base::Scope;
use std::alloc::{AllocError, Global};

/// Whether an instance method is called without an instance.
fn lacks_instance(site: &Site<'_>, free: bool, method: Scope) -> bool
    ensures { result ≡ lacks_instance (site_of site.now) free method }
{
    !(free || site.layout.is_static(method))
}

/// Whether an abstract method is called through `super`.
fn is_missing(site: &Site<'_>, how: Manner, method: Scope) -> bool
    ensures { result ≡ is_missing (site_of site.now) (manner_of how) method }
{
    how.concrete && site.layout.is_abstract(method)
}

/// Whether a static method of an interface is called on a value (JLS 15.12.3).
fn is_misplaced(site: &Site<'_>, how: Manner, method: Scope) -> bool
    ensures { result ≡ is_misplaced (site_of site.now) (manner_of how) method }
{
    how.on_value && (site.layout.is_interface_method(method) && site.layout.is_static(method))
}

/// Adds what is wrong with a method that is called at an identifier.
fn add_call_faults(
    alloc: Global,
    site: &Site<'_>,
    how: Manner,
    i: Ident,
    method: Scope,
    ok: bool,
    ds: &mut DiagList,
) -> Result<(), AllocError>
    ensures { OnOk result (ds.new ≡ with_call (site_of site.now) (manner_of how) i method ok ds.old) }
{
    add_named_if(alloc, !ok, site, i, codes::INACCESSIBLE_MEMBER, ds)?;
    add_named_if(
        alloc,
        lacks_instance(site, how.free, method),
        site,
        i,
        codes::NO_INSTANCE,
        ds,
    )?;
    add_named_if(
        alloc,
        is_missing(site, how, method),
        site,
        i,
        codes::ABSTRACT,
        ds,
    )?;
    add_named_if(
        alloc,
        is_misplaced(site, how, method),
        site,
        i,
        codes::STATIC_OF_INTERFACE,
        ds,
    )
}

/// Whether something is wrong with it.
fn is_faulty_call(site: &Site<'_>, how: Manner, method: Scope, ok: bool) -> bool
    ensures { result ≡ is_faulty_call (site_of site.now) (manner_of how) method ok }
{
    !ok || (lacks_instance(site, how.free, method)
        || (is_missing(site, how, method) || is_misplaced(site, how, method)))
}

/// The type of a call, unless something was wrong.
fn call_type(faulty: bool, found: Option<Ty>) -> Ty
    ensures { result ≡ call_type faulty found }
{
    match found {
        None => bad_type(),
        Some(_) if faulty => bad_type(),
        Some(ty) => ty,
    }
}

/// A method is called at an identifier.
#[tactic(auto, using(crate::proofs::CallSteps::call_steps), unfolding(crate::specs::Calls::method_called))]
pub(crate) fn check_method_called(
    alloc: Global,
    site: &Site<'_>,
    o: &Oracle,
    how: Manner,
    i: Ident,
    arguments: &[Argument],
    method: Scope,
    ds: &mut DiagList,
) -> Result<Ty, Need>
    requires { site.now.spot.now.file < 2 ^ 31 }
    ensures { Reads (reply_to o.now) (method_called (site_of site.now) (manner_of how) i arguments.now method ds.old) (with_diags result ds.new) }
{
    let ok = read_accessible(site.layout, o, site.spot, method, how.through)?;
    let signature = read_signature_of(alloc, site.layout, o, method)?;
    add_call_faults(alloc, site, how, i, method, ok, ds)?;
    let text = text_of(site.names, i.id);
    let found = check_applied(alloc, site, o, i.at, text, arguments, &signature, ds)?;
    Ok(call_type(is_faulty_call(site, how, method, ok), found))
}

/// Adds the code of a method that is not found at an identifier, whose call has a bad type.
pub(crate) fn add_bad_call(
    alloc: Global,
    site: &Site<'_>,
    i: Ident,
    code: u8,
    ds: &mut DiagList,
) -> Result<Ty, AllocError>
    requires { takes code ≡ Some 1 }
    ensures ty { IfOk result (λ t. t ≡ bad_type) }
    ensures added { OnOk result (ds.new ≡ with_named (site_of site.now) i code ds.old) }
{
    add_named(alloc, site, i, code, ds)?;
    Ok(bad_type())
}

/// One of the methods of a name is called.
#[tactic(auto, using(crate::proofs::CallSteps::called_steps))]
pub(crate) fn check_called_of(
    alloc: Global,
    site: &Site<'_>,
    o: &Oracle,
    how: Manner,
    i: Ident,
    arguments: &[Argument],
    methods: &[Scope],
    ds: &mut DiagList,
) -> Result<Ty, Need>
    requires { site.now.spot.now.file < 2 ^ 31 }
    ensures { Reads (reply_to o.now) (called_of (site_of site.now) (manner_of how) i arguments.now methods.now ds.old) (with_diags result ds.new) }
{
    match methods.split_first() {
        None => Ok(add_bad_call(alloc, site, i, codes::UNKNOWN_METHOD, ds)?),
        Some((first, others)) => {
            let method = read_chosen(alloc, site.layout, o, *first, others, methods)?;
            check_method_called(alloc, site, o, how, i, arguments, method, ds)
        }
    }
}

/// The same by the ends that a query gives.
#[tactic(auto, using(crate::proofs::CallSteps::call_steps))]
fn check_called_among(
    alloc: Global,
    site: &Site<'_>,
    o: &Oracle,
    how: Manner,
    i: Ident,
    arguments: &[Argument],
    ends: &Ends,
    ds: &mut DiagList,
) -> Result<Ty, Need>
    requires { site.now.spot.now.file < 2 ^ 31 }
    ensures { Reads (reply_to o.now) (called_among (site_of site.now) (manner_of how) i arguments.now ends.now ds.old) (with_diags result ds.new) }
{
    match ends {
        Ends::TooMany => Ok(add_bad_call(alloc, site, i, codes::TOO_MANY_PATHS, ds)?),
        Ends::Scopes(methods) => {
            check_called_of(alloc, site, o, how, i, arguments, methods.as_slice(), ds)
        }
    }
}

/// For an interface without such a method, those of `Object` (JLS 9.2).
#[tactic(auto, using(crate::proofs::CallSteps::object_steps))]
fn read_or_objects(
    alloc: Global,
    l: &Layout,
    o: &Oracle,
    class: Scope,
    name: NameId,
    ends: Ends,
) -> Result<Ends, Need>
    ensures { Reads (reply_to o.now) (or_objects l.now class name ends) result }
{
    match ends {
        Ends::TooMany => Ok(Ends::TooMany),
        Ends::Scopes(methods) => {
            if !methods.as_slice().is_empty() {
                return Ok(Ends::Scopes(methods));
            }
            if l.is_interface(class) {
                return read_methods(alloc, l, o, l.object(), name);
            }
            Ok(Ends::Scopes(methods))
        }
    }
}

/// The methods of a name that may be called in a class or an interface.
#[tactic(auto, using(crate::proofs::CallSteps::call_steps), unfolding(crate::specs::Calls::class_methods))]
fn read_class_methods(
    alloc: Global,
    l: &Layout,
    o: &Oracle,
    class: Scope,
    name: NameId,
) -> Result<Ends, Need>
    ensures { Reads (reply_to o.now) (class_methods l.now class name) result }
{
    let ends = read_methods(alloc, l, o, class, name)?;
    read_or_objects(alloc, l, o, class, name, ends)
}

/// A method of a class or an interface is called.
#[tactic(auto, using(crate::proofs::CallSteps::call_steps), unfolding(crate::specs::Calls::class_call))]
pub(crate) fn check_class_call(
    alloc: Global,
    site: &Site<'_>,
    o: &Oracle,
    how: Manner,
    class: Scope,
    i: Ident,
    arguments: &[Argument],
    ds: &mut DiagList,
) -> Result<Ty, Need>
    requires { site.now.spot.now.file < 2 ^ 31 }
    ensures { Reads (reply_to o.now) (class_call (site_of site.now) (manner_of how) class i arguments.now ds.old) (with_diags result ds.new) }
{
    let ends = read_class_methods(alloc, site.layout, o, class, i.id)?;
    check_called_among(alloc, site, o, how, i, arguments, &ends, ds)
}
