//! Names as expressions, and in front of the dot of a call.

ghost use Rattle.std.specs.Prelude.{◌≡◌, ◌∷◌, ◌<◌, ◌^◌, None};
ghost use Rattle.sg_reading.specs.Reading.{done};
ghost use Rattle.sg_reading.specs.Stop.{Reads};
ghost use Rattle.jv_names.specs.Replies.{reply_to};
ghost use Rattle.jv_expr.specs.Checking.{with_diags};
ghost use Rattle.jv_expr.specs.Sites.{site_of};
ghost use Rattle.jv_expr.specs.Variables.{ended_front, ended_value, field_around, field_outward, last_of, latest, local_value, long_name_value, name_front, name_front_of, name_value, or_field, or_imported, outward_value, simple_name};

use crate::denoted::Denoted;
use crate::denoting::{add_written, check_denoted};
use crate::faults::add_named;
use crate::fields::{bad_value, check_bad_named, check_field_found, is_among};
use crate::found_field::FoundField;
use crate::front::Front;
use crate::imported_fields::read_imported_field;
use crate::local::Local;
use crate::need::Need;
use crate::site::Site;
use crate::value::Value;
use jv_diag::{DiagList, codes};
use jv_layout::Layout;
use jv_names::{Meaning, Oracle, read_field};
use jv_tree::{Ident, NameId};
use sg_base::Scope;
use std::alloc::Global;

/// The innermost local variable of a name, where there is one. Takes time in the number of local variables in scope.
pub(crate) fn latest(locals: &[Local], name: NameId) -> Option<Local>
    ensures { result ≡ latest locals.now name None }
{
    let mut found = None;
    for local in locals {
        if local.name == name {
            found = Some(*local);
        }
    }
    found
}

/// A local variable as a value.
pub(crate) fn local_value(local: Local) -> Value
    ensures { result ≡ local_value local }
{
    let sealed = if local.sealed { Some(local.name) } else { None };
    Value {
        ty: local.ty,
        sealed,
    }
}

/// The field of a name in the bodies outward: of the first that has some (JLS 6.4.1). It takes the time of the ends that its
/// answers give.
#[tactic(auto, using(crate::proofs::OutwardSteps::outward_steps))]
pub(crate) fn read_field_outward(
    l: &Layout,
    o: &Oracle,
    bodies: &[Scope],
    name: NameId,
) -> Result<FoundField, Need>
    ensures { Reads (reply_to o.now) (field_outward l.now bodies.now name) result }
{
    for body in bodies {
        match read_field(l, o, *body, name)? {
            Meaning::One(field) => return Ok(FoundField::In(*body, field)),
            Meaning::Nothing => {}
            Meaning::Ambiguous => return Ok(FoundField::Several),
            Meaning::TooMany => return Ok(FoundField::TooMany),
        }
    }
    Ok(FoundField::Nowhere)
}

/// Where no body has a field of the name, the static field that imports of a file bring.
#[tactic(auto, using(crate::proofs::NamingSteps::naming_steps))]
fn read_or_imported(
    alloc: Global,
    l: &Layout,
    o: &Oracle,
    file: u32,
    name: NameId,
    found: FoundField,
) -> Result<FoundField, Need>
    requires { file < 2 ^ 31 }
    ensures { Reads (reply_to o.now) (or_imported l.now file name found) result }
{
    match found {
        FoundField::In(body, field) => Ok(FoundField::In(body, field)),
        FoundField::Imported(field) => Ok(FoundField::Imported(field)),
        FoundField::Several => Ok(FoundField::Several),
        FoundField::TooMany => Ok(FoundField::TooMany),
        FoundField::Nowhere => read_imported_field(alloc, l, o, file, name),
    }
}

/// The field of a name around a place: of the bodies outward, and else one that the file's static imports bring (JLS 6.4.1). It
/// takes the time of the ends that its answers give, and looks at each static import of the file.
#[tactic(auto, using(crate::proofs::NamingSteps::naming_steps), unfolding(crate::specs::Variables::field_around))]
pub(crate) fn read_field_around(
    alloc: Global,
    site: &Site<'_>,
    o: &Oracle,
    name: NameId,
) -> Result<FoundField, Need>
    requires { site.now.spot.now.file < 2 ^ 31 }
    ensures { Reads (reply_to o.now) (field_around (site_of site.now) name) result }
{
    let found = read_field_outward(site.layout, o, site.spot.inside.as_slice(), name)?;
    read_or_imported(alloc, site.layout, o, site.spot.file, name, found)
}

/// A field that was found around a place, as a value.
#[tactic(auto, using(crate::proofs::NamingSteps::naming_steps))]
pub(crate) fn check_outward(
    alloc: Global,
    site: &Site<'_>,
    o: &Oracle,
    i: Ident,
    found: FoundField,
    ds: &mut DiagList,
) -> Result<Value, Need>
    requires { site.now.spot.now.file < 2 ^ 31 }
    ensures { Reads (reply_to o.now) (outward_value (site_of site.now) i found ds.old) (with_diags result ds.new) }
{
    match found {
        FoundField::In(body, field) => {
            let free = is_among(site.instances, body);
            check_field_found(alloc, site, o, None, free, true, i, field, ds)
        }
        FoundField::Imported(field) => {
            check_field_found(alloc, site, o, None, true, false, i, field, ds)
        }
        FoundField::Several => check_bad_named(alloc, site, o, i, codes::AMBIGUOUS_NAME, ds),
        FoundField::TooMany => check_bad_named(alloc, site, o, i, codes::TOO_MANY_PATHS, ds),
        FoundField::Nowhere => check_bad_named(alloc, site, o, i, codes::UNKNOWN_NAME, ds),
    }
}

/// A local variable, or else a field around.
#[tactic(auto, using(crate::proofs::NamingSteps::naming_steps))]
fn check_or_field(
    alloc: Global,
    site: &Site<'_>,
    o: &Oracle,
    local: Option<Local>,
    i: Ident,
    ds: &mut DiagList,
) -> Result<Value, Need>
    requires { site.now.spot.now.file < 2 ^ 31 }
    ensures { Reads (reply_to o.now) (or_field (site_of site.now) local i ds.old) (with_diags result ds.new) }
{
    match local {
        Some(v) => Ok(local_value(v)),
        None => {
            let found = read_field_around(alloc, site, o, i.id)?;
            check_outward(alloc, site, o, i, found, ds)
        }
    }
}

/// A simple name: the innermost local variable, or else a field around (JLS 6.5.6.1).
#[tactic(auto, using(crate::proofs::NamingSteps::naming_steps), unfolding(crate::specs::Variables::simple_name))]
pub(crate) fn check_simple_name(
    alloc: Global,
    site: &Site<'_>,
    o: &Oracle,
    locals: &[Local],
    i: Ident,
    ds: &mut DiagList,
) -> Result<Value, Need>
    requires { site.now.spot.now.file < 2 ^ 31 }
    ensures { Reads (reply_to o.now) (simple_name (site_of site.now) locals.now i ds.old) (with_diags result ds.new) }
{
    check_or_field(alloc, site, o, latest(locals, i.id), i, ds)
}

/// The last of some identifiers. Takes time in their number.
fn last_of(first: Ident, rest: &[Ident]) -> Ident
    ensures { result ≡ last_of first rest.now }
{
    let mut last = first;
    for i in rest {
        last = *i;
    }
    last
}

/// What a name of several parts stands for, as a value: one that ends as a type or a package is no variable.
#[tactic(auto, using(crate::proofs::NamingSteps::naming_steps))]
fn check_ended_value(
    alloc: Global,
    site: &Site<'_>,
    o: &Oracle,
    first: Ident,
    rest: &[Ident],
    ids: &[Ident],
    ended: Denoted,
    ds: &mut DiagList,
) -> Result<Value, Need>
    requires { ids.now ≡ first ∷ rest.now }
    ensures { Reads (reply_to o.now) (done (ended_value (site_of site.now) first rest.now ended ds.old)) (with_diags result ds.new) }
{
    match ended {
        Denoted::Variable(v) => Ok(v),
        Denoted::TypeName(_, true) => {
            add_named(alloc, site, last_of(first, rest), codes::UNKNOWN_NAME, ds)?;
            Ok(bad_value())
        }
        Denoted::TypeName(_, false) => {
            add_written(alloc, site, first.at, ids, codes::UNKNOWN_NAME, ds)?;
            Ok(bad_value())
        }
        Denoted::Package(_) => {
            add_written(alloc, site, first.at, ids, codes::UNKNOWN_NAME, ds)?;
            Ok(bad_value())
        }
        Denoted::Nothing => Ok(bad_value()),
    }
}

/// A name of several parts as an expression (JLS 6.5.6.2).
#[tactic(auto, using(crate::proofs::NamingSteps::naming_steps))]
fn check_long_name(
    alloc: Global,
    site: &Site<'_>,
    o: &Oracle,
    locals: &[Local],
    first: Ident,
    rest: &[Ident],
    ids: &[Ident],
    ds: &mut DiagList,
) -> Result<Value, Need>
    requires file { site.now.spot.now.file < 2 ^ 31 }
    requires parts { ids.now ≡ first ∷ rest.now }
    ensures { Reads (reply_to o.now) (long_name_value (site_of site.now) locals.now first rest.now ds.old) (with_diags result ds.new) }
{
    let ended = check_denoted(alloc, site, o, locals, first, rest, ids, ds)?;
    check_ended_value(alloc, site, o, first, rest, ids, ended, ds)
}

/// A name as an expression (JLS 6.5.6, 15.14.1).
#[tactic(auto, using(crate::proofs::LongSteps::long_steps), unfolding(crate::specs::Variables::name_value))]
pub(crate) fn check_name(
    alloc: Global,
    site: &Site<'_>,
    o: &Oracle,
    locals: &[Local],
    ids: &[Ident],
    ds: &mut DiagList,
) -> Result<Value, Need>
    requires { site.now.spot.now.file < 2 ^ 31 }
    ensures { Reads (reply_to o.now) (name_value (site_of site.now) locals.now ids.now ds.old) (with_diags result ds.new) }
{
    match ids.split_first() {
        None => Ok(bad_value()),
        Some((first, rest)) => match rest.split_first() {
            None => check_simple_name(alloc, site, o, locals, *first, ds),
            Some(_) => check_long_name(alloc, site, o, locals, *first, rest, ids, ds),
        },
    }
}

/// What a name stands for, in front of the dot of a call: a variable, or a type.
#[tactic(auto, using(crate::proofs::NamingSteps::naming_steps))]
fn check_ended_front(
    alloc: Global,
    site: &Site<'_>,
    o: &Oracle,
    first: Ident,
    rest: &[Ident],
    ids: &[Ident],
    ended: Denoted,
    ds: &mut DiagList,
) -> Result<Front, Need>
    requires { ids.now ≡ first ∷ rest.now }
    ensures { Reads (reply_to o.now) (done (ended_front (site_of site.now) first rest.now ended ds.old)) (with_diags result ds.new) }
{
    match ended {
        Denoted::Variable(v) => Ok(Front::Value(v)),
        Denoted::TypeName(t, _) => Ok(Front::TypeName(t)),
        Denoted::Package(_) => {
            add_written(alloc, site, first.at, ids, codes::UNKNOWN_NAME, ds)?;
            Ok(Front::Value(bad_value()))
        }
        Denoted::Nothing => Ok(Front::Value(bad_value())),
    }
}

/// A name with these parts in front of the dot of a call.
#[tactic(auto, using(crate::proofs::NamingSteps::naming_steps))]
fn check_parts_front(
    alloc: Global,
    site: &Site<'_>,
    o: &Oracle,
    locals: &[Local],
    first: Ident,
    rest: &[Ident],
    ids: &[Ident],
    ds: &mut DiagList,
) -> Result<Front, Need>
    requires file { site.now.spot.now.file < 2 ^ 31 }
    requires parts { ids.now ≡ first ∷ rest.now }
    ensures { Reads (reply_to o.now) (name_front_of (site_of site.now) locals.now (first ∷ rest.now) ds.old) (with_diags result ds.new) }
{
    let ended = check_denoted(alloc, site, o, locals, first, rest, ids, ds)?;
    check_ended_front(alloc, site, o, first, rest, ids, ended, ds)
}

/// A name in front of the dot of a call (JLS 6.5.2).
#[tactic(auto, using(crate::proofs::NamingSteps::naming_steps), unfolding(crate::specs::Variables::name_front))]
pub(crate) fn check_name_front(
    alloc: Global,
    site: &Site<'_>,
    o: &Oracle,
    locals: &[Local],
    ids: &[Ident],
    ds: &mut DiagList,
) -> Result<Front, Need>
    requires { site.now.spot.now.file < 2 ^ 31 }
    ensures { Reads (reply_to o.now) (name_front (site_of site.now) locals.now ids.now ds.old) (with_diags result ds.new) }
{
    match ids.split_first() {
        None => Ok(Front::Value(bad_value())),
        Some((first, rest)) => check_parts_front(alloc, site, o, locals, *first, rest, ids, ds),
    }
}
