//! Values and types that ask for nothing more.

ghost use Rattle.std.specs.Prelude.{◌≡◌, ◌<◌, ◌^◌, length, IfOk, OnOk};
ghost use Rattle.sg_reading.specs.Stop.{Reads};
ghost use Rattle.jv_tree.specs.ExprTree.{expr_count, expr_trees};
ghost use Rattle.jv_tree.specs.TypeTree.{ids_of, type_tree};
ghost use Rattle.jv_types.specs.Operators.{plain};
ghost use Rattle.jv_names.specs.Replies.{reply_to};
ghost use Rattle.jv_expr.specs.Checking.{with_diags};
ghost use Rattle.jv_expr.specs.Operators.{value};
ghost use Rattle.jv_expr.specs.Sites.{site_of};
ghost use Rattle.jv_expr.specs.Typed.{element_needed, named_at, string_type, this_value, with_dims, with_list, written_at};

use crate::faults::add_fault;
use crate::fields::is_among;
use crate::need::Need;
use crate::site::Site;
use crate::value::Value;
use jv_diag::{DiagList, codes};
use jv_instance::{Ty, TypeBase};
use jv_layout::Place;
use jv_names::{Oracle, Reference, add_reference, read_reference, read_written_type};
use jv_tree::{Expr, Name, TypeRef};
use std::alloc::{AllocError, Global};

/// A value that is no variable.
pub(crate) fn value(ty: Ty) -> Value
    ensures { result ≡ value ty }
{
    Value { ty, sealed: None }
}

/// The value of a literal without brackets.
pub(crate) fn literal(base: TypeBase) -> Value
    ensures { result ≡ value (plain base) }
{
    value(Ty { base, dims: 0 })
}

/// The class `String`; where the layout has none, a bad type.
pub(crate) fn string_type(site: &Site<'_>) -> Ty
    ensures { result ≡ string_type (site_of site.now) }
{
    let string = site.layout.string();
    if matches!(site.layout.place(string), Place::Ty(_)) {
        Ty {
            base: TypeBase::Class(string),
            dims: 0,
        }
    } else {
        Ty {
            base: TypeBase::Bad,
            dims: 0,
        }
    }
}

/// `this`, where there is an instance of the innermost body (JLS 15.8.3).
pub(crate) fn this_value(
    alloc: Global,
    site: &Site<'_>,
    at: u32,
    ds: &mut DiagList,
) -> Result<Value, AllocError>
    ensures { IfOk result (λ v. (v, ds.new) ≡ this_value (site_of site.now) at ds.old) }
{
    if is_among(site.instances, site.class) {
        return Ok(literal(TypeBase::Class(site.class)));
    }
    add_fault(alloc, site, at, codes::NO_INSTANCE, &["this"], ds)?;
    Ok(literal(TypeBase::Bad))
}

/// A type that is written at the place (JLS 4.2, 4.3).
#[tactic(auto, using(crate::proofs::StatementEnds::end_steps))]
pub(crate) fn check_written(
    alloc: Global,
    site: &Site<'_>,
    o: &Oracle,
    ty: &TypeRef,
    ds: &mut DiagList,
) -> Result<Ty, Need>
    requires { site.now.spot.now.file < 2 ^ 31 }
    ensures { Reads (reply_to o.now) (written_at (site_of site.now) (type_tree ty.now) ds.old) (with_diags result ds.new) }
{
    let written = read_written_type(alloc, site.layout, site.names, o, site.spot, ty)?;
    ds.append(written.diags)?;
    Ok(written.ty)
}

/// What the name of a class means at the place (JLS 6.5.5).
#[tactic(auto, using(crate::proofs::StatementEnds::end_steps))]
pub(crate) fn check_named(
    alloc: Global,
    site: &Site<'_>,
    o: &Oracle,
    name: &Name,
    ds: &mut DiagList,
) -> Result<Reference, Need>
    requires { site.now.spot.now.file < 2 ^ 31 }
    ensures { Reads (reply_to o.now) (named_at (site_of site.now) (ids_of name.now) ds.old) (with_diags result ds.new) }
{
    let reference = read_reference(alloc, site.layout, o, site.spot, name)?;
    let ids = name.ids.as_slice();
    add_reference(
        alloc,
        ds,
        site.layout,
        site.names,
        site.spot.file,
        ids,
        &reference,
    )?;
    Ok(reference)
}

/// How many sizes there are.
fn count(sizes: &Vec<Expr>) -> usize
    ensures { result ≡ length sizes.now.items }
{
    sizes.len()
}

/// An array type with as many pairs of brackets more as there are sizes.
pub(crate) fn array_type(ty: Ty, sizes: &Vec<Expr>) -> Ty
    ensures { result ≡ with_dims (expr_count (expr_trees sizes.now.items)) ty }
{
    let n = count(sizes);
    if n <= 255 - ty.dims as usize {
        Ty {
            base: ty.base,
            dims: ty.dims + n as u8,
        }
    } else {
        Ty {
            base: TypeBase::Bad,
            dims: 0,
        }
    }
}

/// What the elements of a list are assigned to (JLS 10.6).
pub(crate) fn element_needed(ty: Ty) -> Ty
    ensures { result ≡ element_needed ty }
{
    if ty.dims > 0 && !ty.is_bad() {
        Ty {
            base: ty.base,
            dims: ty.dims - 1,
        }
    } else {
        Ty {
            base: TypeBase::Bad,
            dims: 0,
        }
    }
}

/// Adds that a list stands where no array is needed, where it does.
pub(crate) fn add_list(
    alloc: Global,
    site: &Site<'_>,
    at: u32,
    ty: Ty,
    ds: &mut DiagList,
) -> Result<(), AllocError>
    ensures { OnOk result (ds.new ≡ with_list (site_of site.now) at ty ds.old) }
{
    if !ty.is_bad() && ty.dims == 0 {
        let needed = site.layout.type_text(alloc, site.names, ty)?;
        add_fault(
            alloc,
            site,
            at,
            codes::OTHER_TYPE,
            &["list", needed.as_str()],
            ds,
        )?;
    }
    Ok(())
}
