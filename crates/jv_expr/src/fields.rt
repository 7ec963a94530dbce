//! Fields by the types that they stand behind.

ghost use Rattle.std.specs.Prelude.{◌≡◌, ◌<◌, ◌^◌, OnOk, Some};
ghost use Rattle.std.specs.List.{list_any};
ghost use Rattle.sg_base.specs.Scope.{is_scope};
ghost use Rattle.sg_reading.specs.Stop.{Reads};
ghost use Rattle.jv_diag.specs.Text.{takes};
ghost use Rattle.jv_names.specs.Replies.{reply_to};
ghost use Rattle.jv_expr.specs.Checking.{with_diags};
ghost use Rattle.jv_expr.specs.Fields.{array_field, bad_named, base_field, class_field, field_by, field_found, field_meant, field_on, field_value, is_sealed, result_of, with_access};
ghost use Rattle.jv_expr.specs.Operators.{bad_value};
ghost use Rattle.jv_expr.specs.Sites.{site_of};

use crate::faults::{add_named, add_named_if};
use crate::need::Need;
use crate::site::Site;
use crate::value::Value;
use jv_diag::{DiagList, codes};
use jv_instance::{Ty, TypeBase};
use jv_layout::text_of;
use jv_names::{Meaning, Oracle, ReadSignature, read_accessible, read_field, read_signature_of};
use jv_tree::Ident;
use sg_base::Scope;
use std::alloc::{AllocError, Global};

/// Whether a scope is one of some. Takes time in their number.
pub(crate) fn is_among(scopes: &[Scope], scope: Scope) -> bool
    ensures { result ≡ list_any (is_scope scope) scopes.now }
{
    for other in scopes {
        if scope == *other {
            return true;
        }
    }
    false
}

/// The type of a member by its signature; where there is none, a bad one.
fn result_of(found: Option<ReadSignature>) -> Ty
    ensures { result ≡ result_of found }
{
    match found {
        Some(signature) => signature.result,
        None => Ty {
            base: TypeBase::Bad,
            dims: 0,
        },
    }
}

/// A value that is bad.
pub(crate) fn bad_value() -> Value
    ensures { result ≡ bad_value }
{
    Value {
        ty: Ty {
            base: TypeBase::Bad,
            dims: 0,
        },
        sealed: None,
    }
}

/// Whether a field cannot be assigned: a final one, but for a blank one of the class that its constructor names as its own
/// (JLS 4.12.4).
fn is_sealed(site: &Site<'_>, own: bool, field: Scope) -> bool
    ensures { result ≡ is_sealed (site_of site.now) own field }
{
    site.layout.is_final(field) && !(own && is_among(site.blanks, field))
}

/// A field of an identifier with this signature.
fn field_value(
    site: &Site<'_>,
    own: bool,
    i: Ident,
    field: Scope,
    found: Option<ReadSignature>,
) -> Value
    ensures { result ≡ field_value (site_of site.now) own i field found }
{
    let sealed = if is_sealed(site, own, field) {
        Some(i.id)
    } else {
        None
    };
    Value {
        ty: result_of(found),
        sealed,
    }
}

/// Adds that a member is not accessible, and that it lacks an instance, at the identifier that names it.
fn add_access(
    alloc: Global,
    site: &Site<'_>,
    ok: bool,
    lacks: bool,
    i: Ident,
    ds: &mut DiagList,
) -> Result<(), AllocError>
    ensures { OnOk result (ds.new ≡ with_access (site_of site.now) ok lacks i ds.old) }
{
    add_named_if(alloc, !ok, site, i, codes::INACCESSIBLE_MEMBER, ds)?;
    add_named_if(alloc, lacks, site, i, codes::NO_INSTANCE, ds)
}

/// A bad value, with a diagnostic at the identifier.
#[tactic(auto, using(crate::proofs::NamingSteps::naming_steps))]
pub(crate) fn check_bad_named(
    alloc: Global,
    site: &Site<'_>,
    o: &Oracle,
    i: Ident,
    code: u8,
    ds: &mut DiagList,
) -> Result<Value, Need>
    requires { takes code ≡ Some 1 }
    ensures { Reads (reply_to o.now) (bad_named (site_of site.now) i code ds.old) (with_diags result ds.new) }
{
    add_named(alloc, site, i, code, ds)?;
    Ok(bad_value())
}

/// A field where it may be named, and else a bad value.
#[tactic(auto, using(crate::proofs::NamingSteps::naming_steps))]
fn check_field_by(
    alloc: Global,
    site: &Site<'_>,
    o: &Oracle,
    own: bool,
    i: Ident,
    field: Scope,
    ok: bool,
    lacks: bool,
    ds: &mut DiagList,
) -> Result<Value, Need>
    ensures { Reads (reply_to o.now) (field_by (site_of site.now) own i field ok lacks ds.old) (with_diags result ds.new) }
{
    if ok && !lacks {
        let found = read_signature_of(alloc, site.layout, o, field)?;
        Ok(field_value(site, own, i, field, found))
    } else {
        add_access(alloc, site, ok, lacks, i, ds)?;
        Ok(bad_value())
    }
}

/// A field that was found: through a receiver or without one; whether an instance field may stand there; and whether it is named
/// as a constructor names the fields of its own class.
#[tactic(auto, using(crate::proofs::NamingSteps::naming_steps), unfolding(crate::specs::Fields::field_found))]
pub(crate) fn check_field_found(
    alloc: Global,
    site: &Site<'_>,
    o: &Oracle,
    through: Option<Scope>,
    free: bool,
    own: bool,
    i: Ident,
    field: Scope,
    ds: &mut DiagList,
) -> Result<Value, Need>
    requires { site.now.spot.now.file < 2 ^ 31 }
    ensures { Reads (reply_to o.now) (field_found (site_of site.now) through free own i field ds.old) (with_diags result ds.new) }
{
    let ok = read_accessible(site.layout, o, site.spot, field, through)?;
    let lacks = !(free || site.layout.is_static(field));
    check_field_by(alloc, site, o, own, i, field, ok, lacks, ds)
}

/// A field by what its name means in a type.
#[tactic(auto, using(crate::proofs::NamingSteps::naming_steps))]
fn check_field_meant(
    alloc: Global,
    site: &Site<'_>,
    o: &Oracle,
    through: Option<Scope>,
    free: bool,
    own: bool,
    i: Ident,
    meaning: Meaning,
    ds: &mut DiagList,
) -> Result<Value, Need>
    requires { site.now.spot.now.file < 2 ^ 31 }
    ensures { Reads (reply_to o.now) (field_meant (site_of site.now) through free own i meaning ds.old) (with_diags result ds.new) }
{
    match meaning {
        Meaning::One(field) => {
            check_field_found(alloc, site, o, through, free, own, i, field, ds)
        }
        Meaning::Nothing => check_bad_named(alloc, site, o, i, codes::UNKNOWN_NAME, ds),
        Meaning::Ambiguous => check_bad_named(alloc, site, o, i, codes::AMBIGUOUS_NAME, ds),
        Meaning::TooMany => check_bad_named(alloc, site, o, i, codes::TOO_MANY_PATHS, ds),
    }
}

/// A field of a class or an interface.
#[tactic(auto, using(crate::proofs::NamingSteps::naming_steps), unfolding(crate::specs::Fields::class_field))]
pub(crate) fn check_class_field(
    alloc: Global,
    site: &Site<'_>,
    o: &Oracle,
    through: Option<Scope>,
    own: bool,
    class: Scope,
    i: Ident,
    ds: &mut DiagList,
) -> Result<Value, Need>
    requires { site.now.spot.now.file < 2 ^ 31 }
    ensures { Reads (reply_to o.now) (class_field (site_of site.now) through own class i ds.old) (with_diags result ds.new) }
{
    let meaning = read_field(site.layout, o, class, i.id)?;
    check_field_meant(alloc, site, o, through, true, own, i, meaning, ds)
}

/// The length of an array, which is final (JLS 10.7).
#[tactic(auto, using(crate::proofs::NamingSteps::naming_steps))]
fn check_array_field(
    alloc: Global,
    site: &Site<'_>,
    o: &Oracle,
    i: Ident,
    ds: &mut DiagList,
) -> Result<Value, Need>
    ensures { Reads (reply_to o.now) (array_field (site_of site.now) i ds.old) (with_diags result ds.new) }
{
    if text_of(site.names, i.id) == "length" {
        Ok(Value {
            ty: Ty {
                base: TypeBase::Int,
                dims: 0,
            },
            sealed: Some(i.id),
        })
    } else {
        check_bad_named(alloc, site, o, i, codes::UNKNOWN_NAME, ds)
    }
}

/// A field behind a value of a type without brackets, by its base.
#[tactic(auto, using(crate::proofs::NamingSteps::naming_steps))]
fn check_base_field(
    alloc: Global,
    site: &Site<'_>,
    o: &Oracle,
    own: bool,
    base: TypeBase,
    i: Ident,
    ds: &mut DiagList,
) -> Result<Value, Need>
    requires { site.now.spot.now.file < 2 ^ 31 }
    ensures { Reads (reply_to o.now) (base_field (site_of site.now) own base i ds.old) (with_diags result ds.new) }
{
    match base {
        TypeBase::Class(class) => {
            check_class_field(alloc, site, o, Some(class), own, class, i, ds)
        }
        TypeBase::Bad => Ok(bad_value()),
        _ => check_bad_named(alloc, site, o, i, codes::UNKNOWN_NAME, ds),
    }
}

/// A field behind a value of a type (JLS 10.7, 15.11.1).
#[tactic(auto, using(crate::proofs::NamingSteps::naming_steps), unfolding(crate::specs::Fields::field_on))]
pub(crate) fn check_field(
    alloc: Global,
    site: &Site<'_>,
    o: &Oracle,
    own: bool,
    ty: Ty,
    i: Ident,
    ds: &mut DiagList,
) -> Result<Value, Need>
    requires { site.now.spot.now.file < 2 ^ 31 }
    ensures { Reads (reply_to o.now) (field_on (site_of site.now) own ty i ds.old) (with_diags result ds.new) }
{
    if ty.dims > 0 && !ty.is_bad() {
        check_array_field(alloc, site, o, i, ds)
    } else {
        check_base_field(alloc, site, o, own, ty.base, i, ds)
    }
}
