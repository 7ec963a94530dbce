//! What the parts of a name stand for.

ghost use Rattle.std.specs.Prelude.{◌≡◌, [], ◌∷◌, ◌<◌, ◌^◌, OnOk, Some, drop, false, not, take};
ghost use Rattle.sg_reading.specs.Stop.{Reads};
ghost use Rattle.jv_diag.specs.declared.codes.TheConstants.{INACCESSIBLE_TYPE};
ghost use Rattle.jv_diag.specs.Text.{takes};
ghost use Rattle.jv_names.specs.Replies.{reply_to};
ghost use Rattle.jv_names.specs.Written.{start_of, written};
ghost use Rattle.jv_expr.specs.Checking.{with_diags};
ghost use Rattle.jv_expr.specs.Fields.{bad_named, field_found, field_on};
ghost use Rattle.jv_expr.specs.Site.{title, with_fault, with_fault_if};
ghost use Rattle.jv_expr.specs.Sites.{site_of};
ghost use Rattle.jv_expr.specs.Variables.{as_variable, denoted, further_parts, head_found, head_part, lost_front, lost_part, many_part, member_meant, next_part, or_head, outward_value, package_meant, several_part, static_meant, type_meant, type_part};

use crate::denoted::Denoted;
use crate::faults::{add_fault, add_named};
use crate::fields::{bad_value, check_field, check_field_found};
use crate::found_field::FoundField;
use crate::local::Local;
use crate::need::Need;
use crate::site::Site;
use crate::variables::{check_outward, latest, local_value, read_field_around};
use jv_diag::{DiagList, codes};
use jv_instance::Ty;
use jv_names::{
    Meaning, Oracle, member_type, package_type, read_field, read_type_accessible, simple_type,
    start_of, subpackage, written,
};
use jv_tree::Ident;
use sg_base::Scope;
use std::alloc::{AllocError, Global};

/// Adds a diagnostic at an offset, with a name as it is written.
pub(crate) fn add_written(
    alloc: Global,
    site: &Site<'_>,
    at: u32,
    ids: &[Ident],
    code: u8,
    ds: &mut DiagList,
) -> Result<(), AllocError>
    requires { takes code ≡ Some 1 }
    ensures { OnOk result (ds.new ≡ with_fault (site_of site.now) at code (written site.now.names.now ids.now ∷ []) ds.old) }
{
    let text = written(alloc, site.names, ids)?;
    add_fault(alloc, site, at, code, &[text.as_str()], ds)
}

/// Adds that a type is not accessible, where it is not, at the front that names it.
fn add_refused_type(
    alloc: Global,
    ok: bool,
    site: &Site<'_>,
    front: &[Ident],
    t: Scope,
    ds: &mut DiagList,
) -> Result<(), AllocError>
    ensures { OnOk result (ds.new ≡ with_fault_if (not ok) (site_of site.now) (start_of front.now) INACCESSIBLE_TYPE (title (site_of site.now) t ∷ []) ds.old) }
{
    if !ok {
        let text = site.layout.title(alloc, site.names, t)?;
        add_fault(
            alloc,
            site,
            start_of(front),
            codes::INACCESSIBLE_TYPE,
            &[text.as_str()],
            ds,
        )?;
    }
    Ok(())
}

/// A type that a part names: it is accessible, or that is said (JLS 6.6.1).
#[tactic(auto, using(crate::proofs::NamingSteps::naming_steps), unfolding(crate::specs::Variables::type_part))]
fn check_type_part(
    alloc: Global,
    site: &Site<'_>,
    o: &Oracle,
    front: &[Ident],
    behind: bool,
    t: Scope,
    ds: &mut DiagList,
) -> Result<Denoted, Need>
    requires { site.now.spot.now.file < 2 ^ 31 }
    ensures { Reads (reply_to o.now) (type_part (site_of site.now) front.now behind t ds.old) (with_diags result ds.new) }
{
    let ok = read_type_accessible(site.layout, o, site.spot, t)?;
    add_refused_type(alloc, ok, site, front, t, ds)?;
    Ok(Denoted::TypeName(t, behind))
}

/// A front that means several things.
#[tactic(auto, using(crate::proofs::NamingSteps::naming_steps))]
fn check_several_part(
    alloc: Global,
    site: &Site<'_>,
    o: &Oracle,
    front: &[Ident],
    ds: &mut DiagList,
) -> Result<Denoted, Need>
    ensures { Reads (reply_to o.now) (several_part (site_of site.now) front.now ds.old) (with_diags result ds.new) }
{
    add_written(
        alloc,
        site,
        start_of(front),
        front,
        codes::AMBIGUOUS_TYPE,
        ds,
    )?;
    Ok(Denoted::Nothing)
}

/// A front that is not found.
#[tactic(auto, using(crate::proofs::NamingSteps::naming_steps))]
fn check_lost_front(
    alloc: Global,
    site: &Site<'_>,
    o: &Oracle,
    front: &[Ident],
    ds: &mut DiagList,
) -> Result<Denoted, Need>
    ensures { Reads (reply_to o.now) (lost_front (site_of site.now) front.now ds.old) (with_diags result ds.new) }
{
    add_written(alloc, site, start_of(front), front, codes::UNKNOWN_NAME, ds)?;
    Ok(Denoted::Nothing)
}

/// A part whose answer has too many paths.
#[tactic(auto, using(crate::proofs::NamingSteps::naming_steps))]
fn check_many_part(
    alloc: Global,
    site: &Site<'_>,
    o: &Oracle,
    i: Ident,
    ds: &mut DiagList,
) -> Result<Denoted, Need>
    ensures { Reads (reply_to o.now) (many_part (site_of site.now) i ds.old) (with_diags result ds.new) }
{
    add_named(alloc, site, i, codes::TOO_MANY_PATHS, ds)?;
    Ok(Denoted::Nothing)
}

/// A part that is not found behind a type.
#[tactic(auto, using(crate::proofs::NamingSteps::naming_steps))]
fn check_lost_part(
    alloc: Global,
    site: &Site<'_>,
    o: &Oracle,
    i: Ident,
    ds: &mut DiagList,
) -> Result<Denoted, Need>
    ensures { Reads (reply_to o.now) (lost_part (site_of site.now) i ds.old) (with_diags result ds.new) }
{
    add_named(alloc, site, i, codes::UNKNOWN_NAME, ds)?;
    Ok(Denoted::Nothing)
}

/// A part by what it means among packages, where it is not found elsewhere.
#[tactic(auto, using(crate::proofs::NamingSteps::naming_steps))]
fn check_package_meant(
    alloc: Global,
    site: &Site<'_>,
    o: &Oracle,
    front: &[Ident],
    i: Ident,
    meaning: Meaning,
    ds: &mut DiagList,
) -> Result<Denoted, Need>
    ensures { Reads (reply_to o.now) (package_meant (site_of site.now) front.now i meaning ds.old) (with_diags result ds.new) }
{
    match meaning {
        Meaning::One(p) => Ok(Denoted::Package(p)),
        Meaning::Nothing => check_lost_front(alloc, site, o, front, ds),
        Meaning::Ambiguous => check_several_part(alloc, site, o, front, ds),
        Meaning::TooMany => check_many_part(alloc, site, o, i, ds),
    }
}

/// A part by what it means among types, and else among the packages in a package (JLS 6.5.2).
#[tactic(auto, using(crate::proofs::NamingSteps::naming_steps))]
fn check_type_meant(
    alloc: Global,
    site: &Site<'_>,
    o: &Oracle,
    p: Scope,
    front: &[Ident],
    i: Ident,
    meaning: Meaning,
    ds: &mut DiagList,
) -> Result<Denoted, Need>
    requires { site.now.spot.now.file < 2 ^ 31 }
    ensures { Reads (reply_to o.now) (type_meant (site_of site.now) p front.now i meaning ds.old) (with_diags result ds.new) }
{
    match meaning {
        Meaning::One(t) => check_type_part(alloc, site, o, front, false, t, ds),
        Meaning::Nothing => {
            let k = subpackage(site.layout, o, p, i.id)?;
            check_package_meant(alloc, site, o, front, i, k, ds)
        }
        Meaning::Ambiguous => check_several_part(alloc, site, o, front, ds),
        Meaning::TooMany => check_many_part(alloc, site, o, i, ds),
    }
}

/// A field that was found around a place, as a variable.
#[tactic(auto, using(crate::proofs::NamingSteps::naming_steps))]
fn check_outward_variable(
    alloc: Global,
    site: &Site<'_>,
    o: &Oracle,
    i: Ident,
    found: FoundField,
    ds: &mut DiagList,
) -> Result<Denoted, Need>
    requires { site.now.spot.now.file < 2 ^ 31 }
    ensures { Reads (reply_to o.now) (as_variable (outward_value (site_of site.now) i found ds.old)) (with_diags result ds.new) }
{
    let v = check_outward(alloc, site, o, i, found, ds)?;
    Ok(Denoted::Variable(v))
}

/// The first part, where it is no local variable: a field around, and else a type, and else a package.
#[tactic(auto, using(crate::proofs::NamingSteps::naming_steps))]
fn check_head_found(
    alloc: Global,
    site: &Site<'_>,
    o: &Oracle,
    i: Ident,
    found: FoundField,
    ds: &mut DiagList,
) -> Result<Denoted, Need>
    requires { site.now.spot.now.file < 2 ^ 31 }
    ensures { Reads (reply_to o.now) (head_found (site_of site.now) i found ds.old) (with_diags result ds.new) }
{
    match found {
        FoundField::In(body, field) => {
            check_outward_variable(alloc, site, o, i, FoundField::In(body, field), ds)
        }
        FoundField::Imported(field) => {
            check_outward_variable(alloc, site, o, i, FoundField::Imported(field), ds)
        }
        FoundField::Several => {
            check_outward_variable(alloc, site, o, i, FoundField::Several, ds)
        }
        FoundField::TooMany => {
            check_outward_variable(alloc, site, o, i, FoundField::TooMany, ds)
        }
        FoundField::Nowhere => {
            let m = simple_type(alloc, site.layout, o, site.spot, i.id)?;
            check_type_meant(alloc, site, o, site.layout.root(), &[i], i, m, ds)
        }
    }
}

/// The first part: a local variable, and else what it means besides.
#[tactic(auto, using(crate::proofs::NamingSteps::naming_steps))]
fn check_or_head(
    alloc: Global,
    site: &Site<'_>,
    o: &Oracle,
    local: Option<Local>,
    i: Ident,
    ds: &mut DiagList,
) -> Result<Denoted, Need>
    requires { site.now.spot.now.file < 2 ^ 31 }
    ensures { Reads (reply_to o.now) (or_head (site_of site.now) local i ds.old) (with_diags result ds.new) }
{
    match local {
        Some(v) => Ok(Denoted::Variable(local_value(v))),
        None => {
            let found = read_field_around(alloc, site, o, i.id)?;
            check_head_found(alloc, site, o, i, found, ds)
        }
    }
}

/// The first part of a name (JLS 6.5.2).
#[tactic(auto, using(crate::proofs::NamingSteps::naming_steps), unfolding(crate::specs::Variables::head_part))]
fn check_head_part(
    alloc: Global,
    site: &Site<'_>,
    o: &Oracle,
    locals: &[Local],
    i: Ident,
    ds: &mut DiagList,
) -> Result<Denoted, Need>
    requires { site.now.spot.now.file < 2 ^ 31 }
    ensures { Reads (reply_to o.now) (head_part (site_of site.now) locals.now i ds.old) (with_diags result ds.new) }
{
    check_or_head(alloc, site, o, latest(locals, i.id), i, ds)
}

/// A part behind a type that is no field of it: a member type.
#[tactic(auto, using(crate::proofs::NamingSteps::naming_steps))]
fn check_member_meant(
    alloc: Global,
    site: &Site<'_>,
    o: &Oracle,
    front: &[Ident],
    i: Ident,
    meaning: Meaning,
    ds: &mut DiagList,
) -> Result<Denoted, Need>
    requires { site.now.spot.now.file < 2 ^ 31 }
    ensures { Reads (reply_to o.now) (member_meant (site_of site.now) front.now i meaning ds.old) (with_diags result ds.new) }
{
    match meaning {
        Meaning::One(t) => check_type_part(alloc, site, o, front, true, t, ds),
        Meaning::Nothing => check_lost_part(alloc, site, o, i, ds),
        Meaning::Ambiguous => check_several_part(alloc, site, o, front, ds),
        Meaning::TooMany => check_many_part(alloc, site, o, i, ds),
    }
}

/// A field behind a type, as a variable.
#[tactic(auto, using(crate::proofs::NamingSteps::naming_steps))]
fn check_static_field(
    alloc: Global,
    site: &Site<'_>,
    o: &Oracle,
    t: Scope,
    i: Ident,
    field: Scope,
    ds: &mut DiagList,
) -> Result<Denoted, Need>
    requires { site.now.spot.now.file < 2 ^ 31 }
    ensures { Reads (reply_to o.now) (as_variable (field_found (site_of site.now) (Some t) false false i field ds.old)) (with_diags result ds.new) }
{
    let v = check_field_found(alloc, site, o, Some(t), false, false, i, field, ds)?;
    Ok(Denoted::Variable(v))
}

/// A part that means no one field, as a variable that is bad.
#[tactic(auto, using(crate::proofs::NamingSteps::naming_steps))]
fn check_bad_variable(
    alloc: Global,
    site: &Site<'_>,
    o: &Oracle,
    i: Ident,
    code: u8,
    ds: &mut DiagList,
) -> Result<Denoted, Need>
    requires { takes code ≡ Some 1 }
    ensures { Reads (reply_to o.now) (as_variable (bad_named (site_of site.now) i code ds.old)) (with_diags result ds.new) }
{
    add_named(alloc, site, i, code, ds)?;
    Ok(Denoted::Variable(bad_value()))
}

/// A part behind a type: a field, which lacks an instance where it is an instance field, and else a member type.
#[tactic(auto, using(crate::proofs::NamingSteps::naming_steps))]
fn check_static_meant(
    alloc: Global,
    site: &Site<'_>,
    o: &Oracle,
    t: Scope,
    front: &[Ident],
    i: Ident,
    meaning: Meaning,
    ds: &mut DiagList,
) -> Result<Denoted, Need>
    requires { site.now.spot.now.file < 2 ^ 31 }
    ensures { Reads (reply_to o.now) (static_meant (site_of site.now) t front.now i meaning ds.old) (with_diags result ds.new) }
{
    match meaning {
        Meaning::One(field) => check_static_field(alloc, site, o, t, i, field, ds),
        Meaning::Nothing => {
            let k = member_type(site.layout, o, t, i.id)?;
            check_member_meant(alloc, site, o, front, i, k, ds)
        }
        Meaning::Ambiguous => check_bad_variable(alloc, site, o, i, codes::AMBIGUOUS_NAME, ds),
        Meaning::TooMany => check_bad_variable(alloc, site, o, i, codes::TOO_MANY_PATHS, ds),
    }
}

/// A field behind a variable of a type, as a variable.
#[tactic(auto, using(crate::proofs::NamingSteps::naming_steps))]
fn check_variable_field(
    alloc: Global,
    site: &Site<'_>,
    o: &Oracle,
    ty: Ty,
    i: Ident,
    ds: &mut DiagList,
) -> Result<Denoted, Need>
    requires { site.now.spot.now.file < 2 ^ 31 }
    ensures { Reads (reply_to o.now) (as_variable (field_on (site_of site.now) false ty i ds.old)) (with_diags result ds.new) }
{
    let v = check_field(alloc, site, o, false, ty, i, ds)?;
    Ok(Denoted::Variable(v))
}

/// A part of a name behind what the parts before it stand for, with the front that ends with it (JLS 6.5.2).
#[tactic(auto, using(crate::proofs::NamingSteps::naming_steps), unfolding(crate::specs::Variables::next_part))]
fn check_next_part(
    alloc: Global,
    site: &Site<'_>,
    o: &Oracle,
    front: &[Ident],
    before: Denoted,
    i: Ident,
    ds: &mut DiagList,
) -> Result<Denoted, Need>
    requires { site.now.spot.now.file < 2 ^ 31 }
    ensures { Reads (reply_to o.now) (next_part (site_of site.now) front.now before i ds.old) (with_diags result ds.new) }
{
    match before {
        Denoted::Variable(v) => check_variable_field(alloc, site, o, v.ty, i, ds),
        Denoted::TypeName(t, _) => {
            let m = read_field(site.layout, o, t, i.id)?;
            check_static_meant(alloc, site, o, t, front, i, m, ds)
        }
        Denoted::Package(p) => {
            let m = package_type(site.layout, o, p, i.id)?;
            check_type_meant(alloc, site, o, p, front, i, m, ds)
        }
        Denoted::Nothing => Ok(Denoted::Nothing),
    }
}

/// The parts of a name behind the first one. It takes the time of the ends that its answers give, and of the fronts.
#[tactic(auto, using(crate::proofs::PartSteps::part_steps))]
fn check_further_parts(
    alloc: Global,
    site: &Site<'_>,
    o: &Oracle,
    ids: &[Ident],
    head: Denoted,
    ds: &mut DiagList,
) -> Result<Denoted, Need>
    requires { site.now.spot.now.file < 2 ^ 31 }
    ensures { Reads (reply_to o.now) (further_parts (site_of site.now) (take 1 ids.now) head (drop 1 ids.now) ds.old) (with_diags result ds.new) }
{
    let mut so_far = head;
    let mut k = 1;
    while k < ids.len() {
        so_far = check_next_part(alloc, site, o, &ids[..k + 1], so_far, ids[k], ds)?;
        k += 1;
    }
    Ok(so_far)
}

/// What a name with these parts stands for (JLS 6.5.2).
#[tactic(auto, using(crate::proofs::PartSteps::part_steps))]
pub(crate) fn check_denoted(
    alloc: Global,
    site: &Site<'_>,
    o: &Oracle,
    locals: &[Local],
    first: Ident,
    rest: &[Ident],
    ids: &[Ident],
    ds: &mut DiagList,
) -> Result<Denoted, Need>
    requires file { site.now.spot.now.file < 2 ^ 31 }
    requires parts { ids.now ≡ first ∷ rest.now }
    ensures { Reads (reply_to o.now) (denoted (site_of site.now) locals.now first rest.now ds.old) (with_diags result ds.new) }
{
    let head = check_head_part(alloc, site, o, locals, first, ds)?;
    check_further_parts(alloc, site, o, ids, head, ds)
}
