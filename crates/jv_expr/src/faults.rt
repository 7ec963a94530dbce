//! Diagnostics at a place.

ghost use Rattle.std.specs.Prelude.{◌≡◌, ◌<◌, ◌^◌, length, map, not, OnOk, IfOk, Some};
ghost use Rattle.std.specs.String.{string_bytes};
ghost use Rattle.jv_diag.specs.Text.{takes};
ghost use Rattle.jv_expr.specs.Operators.{is_condition, is_index, with_misfit, with_cast, with_condition, with_size};
ghost use Rattle.jv_expr.specs.Site.{with_fault, with_named, with_named_if, type_text};
ghost use Rattle.jv_expr.specs.Sites.{site_of};

use crate::site::Site;
use jv_diag::{DiagList, codes};
use jv_instance::{Ty, TypeBase};
use jv_layout::text_of;
use jv_tree::Ident;
use jv_types::{is_numeric, is_type, promote};
use std::alloc::{AllocError, Global};

/// The type that needs no diagnostic.
pub(crate) const BAD: Ty = Ty {
    base: TypeBase::Bad,
    dims: 0,
};

/// The type of a condition.
pub(crate) const BOOLEAN: Ty = Ty {
    base: TypeBase::Boolean,
    dims: 0,
};

/// The type of an index.
pub(crate) const INT: Ty = Ty {
    base: TypeBase::Int,
    dims: 0,
};

/// Whether a type is a number that is promoted to int (JLS 10.4).
pub(crate) fn is_index(ty: Ty) -> bool
    ensures { result ≡ is_index ty }
{
    is_numeric(ty) && is_type(promote(ty, ty), INT)
}

/// Adds a diagnostic of a code at an offset of the place's file.
pub(crate) fn add_fault(
    alloc: Global,
    site: &Site<'_>,
    at: u32,
    code: u8,
    args: &[&str],
    ds: &mut DiagList,
) -> Result<(), AllocError>
    requires { takes code ≡ Some (length args.now) }
    ensures { OnOk result (ds.new ≡ with_fault (site_of site.now) at code (map (λ a. a.now) args.now) ds.old) }
{
    ds.add(alloc, site.spot.file, at, code, args)
}

/// Adds a diagnostic of a code at an identifier, with its text.
pub(crate) fn add_named(
    alloc: Global,
    site: &Site<'_>,
    i: Ident,
    code: u8,
    ds: &mut DiagList,
) -> Result<(), AllocError>
    requires { takes code ≡ Some 1 }
    ensures { OnOk result (ds.new ≡ with_named (site_of site.now) i code ds.old) }
{
    add_fault(alloc, site, i.at, code, &[text_of(site.names, i.id)], ds)
}

/// Adds it where this holds.
pub(crate) fn add_named_if(
    alloc: Global,
    fault: bool,
    site: &Site<'_>,
    i: Ident,
    code: u8,
    ds: &mut DiagList,
) -> Result<(), AllocError>
    requires { takes code ≡ Some 1 }
    ensures { OnOk result (ds.new ≡ with_named_if fault (site_of site.now) i code ds.old) }
{
    if fault {
        add_named(alloc, site, i, code, ds)?;
    }
    Ok(())
}

/// Adds that a type does not fit another one that is needed, where it does not.
pub(crate) fn add_misfit(
    alloc: Global,
    ok: bool,
    site: &Site<'_>,
    at: u32,
    found: Ty,
    needed: Ty,
    ds: &mut DiagList,
) -> Result<(), AllocError>
    ensures { OnOk result (ds.new ≡ with_misfit ok (site_of site.now) at found needed ds.old) }
{
    if !ok {
        let has = site.layout.type_text(alloc, site.names, found)?;
        let needs = site.layout.type_text(alloc, site.names, needed)?;
        add_fault(
            alloc,
            site,
            at,
            codes::OTHER_TYPE,
            &[has.as_str(), needs.as_str()],
            ds,
        )?;
    }
    Ok(())
}

/// Whether a condition is boolean; of a bad one nothing is said.
pub(crate) fn is_condition(ty: Ty) -> bool
    ensures { result ≡ is_condition ty }
{
    ty.is_bad() || is_type(ty, BOOLEAN)
}

/// Adds that a condition is not boolean, where it is not (JLS 14.9).
pub(crate) fn add_condition(
    alloc: Global,
    site: &Site<'_>,
    at: u32,
    ty: Ty,
    ds: &mut DiagList,
) -> Result<(), AllocError>
    ensures { OnOk result (ds.new ≡ with_condition (site_of site.now) at ty ds.old) }
{
    let ok = is_condition(ty);
    add_misfit(alloc, ok, site, at, ty, BOOLEAN, ds)
}

/// Adds that a size of an array is no number that is promoted to int, where it is not (JLS 15.10.1).
pub(crate) fn add_size(
    alloc: Global,
    site: &Site<'_>,
    at: u32,
    ty: Ty,
    ds: &mut DiagList,
) -> Result<(), AllocError>
    ensures { OnOk result (ds.new ≡ with_size (site_of site.now) at ty ds.old) }
{
    let ok = ty.is_bad() || is_index(ty);
    add_misfit(alloc, ok, site, at, ty, INT, ds)
}
