//! Calls of constructors.

ghost use Rattle.std.specs.Prelude.{◌≡◌, ◌<◌, ◌^◌, ◌||◌, ◌&&◌, [], ◌∷◌, not, Some, OnOk};
ghost use Rattle.sg_reading.specs.Stop.{Reads};
ghost use Rattle.jv_diag.specs.Text.{takes};
ghost use Rattle.jv_names.specs.Replies.{reply_to};
ghost use Rattle.jv_expr.specs.Calls.{class_text, class_type, ctor_call, ctor_called, is_abstract_class, new_class, super_ctor, with_enclosing};
ghost use Rattle.jv_expr.specs.Checking.{only_diags, with_diags};
ghost use Rattle.jv_expr.specs.Operators.{unless_faulty};
ghost use Rattle.jv_expr.specs.Site.{with_fault_if};
ghost use Rattle.jv_expr.specs.Sites.{site_of};

use crate::applying::check_applied;
use crate::argument::Argument;
use crate::faults::add_fault;
use crate::need::Need;
use crate::site::Site;
use jv_diag::{DiagList, codes};
use jv_instance::{Ty, TypeBase};
use jv_layout::text_of;
use jv_names::{
    Oracle, instance_bodies, read_accessible, read_ctor_of, read_has_enclosing, read_signature_of,
};
use sg_base::Scope;
use std::alloc::{AllocError, Global};

/// The simple name of a class.
fn class_text<'a>(site: &Site<'a>, class: Scope) -> &'a str
    ensures { result.now ≡ class_text (site_of site.now) class }
{
    match site.layout.simple_name(class) {
        None => "",
        Some(name) => text_of(site.names, name),
    }
}

/// Adds a code with the name of a class, where this holds.
fn add_class_fault_if(
    alloc: Global,
    fault: bool,
    site: &Site<'_>,
    at: u32,
    code: u8,
    class: Scope,
    ds: &mut DiagList,
) -> Result<(), AllocError>
    requires { takes code ≡ Some 1 }
    ensures { OnOk result (ds.new ≡ with_fault_if fault (site_of site.now) at code (class_text (site_of site.now) class ∷ []) ds.old) }
{
    if fault {
        add_fault(alloc, site, at, code, &[class_text(site, class)], ds)?;
    }
    Ok(())
}

/// Adds that the enclosing instance is missing that a class needs, where it is (JLS 15.9.2).
fn add_enclosing(
    alloc: Global,
    enclosed: bool,
    site: &Site<'_>,
    at: u32,
    class: Scope,
    ds: &mut DiagList,
) -> Result<(), AllocError>
    ensures { OnOk result (ds.new ≡ with_enclosing enclosed (site_of site.now) at class ds.old) }
{
    if !enclosed {
        let title = site.layout.title(alloc, site.names, class)?;
        add_fault(
            alloc,
            site,
            at,
            codes::NO_ENCLOSING_INSTANCE,
            &[title.as_str()],
            ds,
        )?;
    }
    Ok(())
}

/// The constructor of a class, where there is one, is called at an offset: whether nothing was wrong.
#[tactic(auto, using(crate::proofs::CallSteps::call_steps))]
fn check_ctor_called(
    alloc: Global,
    site: &Site<'_>,
    o: &Oracle,
    through: Option<Scope>,
    class: Scope,
    at: u32,
    arguments: &[Argument],
    ctor: Option<Scope>,
    ds: &mut DiagList,
) -> Result<bool, Need>
    requires { site.now.spot.now.file < 2 ^ 31 }
    ensures { Reads (reply_to o.now) (ctor_called (site_of site.now) through class at arguments.now ctor ds.old) (with_diags result ds.new) }
{
    match ctor {
        None => Ok(true),
        Some(member) => {
            let ok = read_accessible(site.layout, o, site.spot, member, through)?;
            let signature = read_signature_of(alloc, site.layout, o, member)?;
            add_class_fault_if(alloc, !ok, site, at, codes::INACCESSIBLE_MEMBER, class, ds)?;
            let text = class_text(site, class);
            let found = check_applied(alloc, site, o, at, text, arguments, &signature, ds)?;
            Ok(ok && found.is_some())
        }
    }
}

/// The constructor of a class is called at an offset: whether nothing was wrong (JLS 15.9.3).
#[tactic(auto, using(crate::proofs::CallSteps::call_steps), unfolding(crate::specs::Calls::ctor_call))]
fn check_ctor_call(
    alloc: Global,
    site: &Site<'_>,
    o: &Oracle,
    through: Option<Scope>,
    class: Scope,
    at: u32,
    arguments: &[Argument],
    ds: &mut DiagList,
) -> Result<bool, Need>
    requires { site.now.spot.now.file < 2 ^ 31 }
    ensures { Reads (reply_to o.now) (ctor_call (site_of site.now) through class at arguments.now ds.old) (with_diags result ds.new) }
{
    let ctor = read_ctor_of(site.layout, o, class)?;
    check_ctor_called(alloc, site, o, through, class, at, arguments, ctor, ds)
}

/// Whether a class has no instances of its own: an interface, or an abstract class (JLS 15.9.1).
fn is_abstract_class(site: &Site<'_>, class: Scope) -> bool
    ensures { result ≡ is_abstract_class (site_of site.now) class }
{
    site.layout.is_interface(class) || site.layout.is_abstract(class)
}

/// The type of a class, unless something was wrong.
fn new_type(faulty: bool, class: Scope) -> Ty
    ensures { result ≡ unless_faulty faulty (class_type class) }
{
    Ty {
        base: if faulty {
            TypeBase::Bad
        } else {
            TypeBase::Class(class)
        },
        dims: 0,
    }
}

/// A class is instantiated, whose name starts at an offset (JLS 15.9).
#[tactic(auto, using(crate::proofs::CallSteps::call_steps), unfolding(crate::specs::Calls::new_class))]
pub(crate) fn check_new_class(
    alloc: Global,
    site: &Site<'_>,
    o: &Oracle,
    class: Scope,
    at: u32,
    arguments: &[Argument],
    ds: &mut DiagList,
) -> Result<Ty, Need>
    requires { site.now.spot.now.file < 2 ^ 31 }
    ensures { Reads (reply_to o.now) (new_class (site_of site.now) class at arguments.now ds.old) (with_diags result ds.new) }
{
    let unmade = is_abstract_class(site, class);
    add_class_fault_if(alloc, unmade, site, at, codes::ABSTRACT, class, ds)?;
    let called = check_ctor_call(alloc, site, o, Some(class), class, at, arguments, ds)?;
    let enclosed = read_has_enclosing(site.layout, o, site.instances, class)?;
    add_enclosing(alloc, enclosed, site, at, class, ds)?;
    Ok(new_type(unmade || !(called && enclosed), class))
}

/// A constructor calls that of a superclass at an offset, and has the enclosing instance that this one needs from the bodies
/// outside (JLS 8.8.7.1).
#[tactic(auto, using(crate::proofs::CallSteps::call_steps), unfolding(crate::specs::Calls::super_ctor))]
pub(crate) fn check_super_ctor(
    alloc: Global,
    site: &Site<'_>,
    o: &Oracle,
    class: Scope,
    at: u32,
    arguments: &[Argument],
    ds: &mut DiagList,
) -> Result<(), Need>
    requires { site.now.spot.now.file < 2 ^ 31 }
    ensures { Reads (reply_to o.now) (super_ctor (site_of site.now) class at arguments.now ds.old) (only_diags result ds.new) }
{
    let bodies = instance_bodies(alloc, site.layout, site.class)?;
    check_ctor_call(alloc, site, o, None, class, at, arguments, ds)?;
    let enclosed = read_has_enclosing(site.layout, o, bodies.as_slice(), class)?;
    add_enclosing(alloc, enclosed, site, at, class, ds)?;
    Ok(())
}
