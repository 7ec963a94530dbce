//! The parameters of methods and constructors (JLS 8.4.1).

ghost use Rattle.std.specs.Prelude.{◌≡◌, map, OnOk};
ghost use Rattle.jv_tree.specs.DeclTree.{param_tree};
ghost use Rattle.jv_types.specs.Operators.{bad_type};
ghost use Rattle.jv_expr.specs.Bodies.{given_result, param_types, params_declared};
ghost use Rattle.jv_expr.specs.Fields.{result_of};
ghost use Rattle.jv_expr.specs.ParamTypes.{first_type, rest_types};
ghost use Rattle.jv_expr.specs.Sites.{site_of};

use crate::declaring::declare;
use crate::local::Local;
use crate::site::Site;
use jv_diag::DiagList;
use jv_instance::{Ty, TypeBase};
use jv_names::ReadSignature;
use jv_tree::Param;
use std::alloc::{AllocError, Global};

/// A type of which nothing more is said.
fn bad_type() -> Ty
    ensures { result ≡ bad_type }
{
    Ty {
        base: TypeBase::Bad,
        dims: 0,
    }
}

/// The type of a member by its signature; where there is none, a bad one.
pub(crate) fn result_of(s: &Option<ReadSignature>) -> Ty
    ensures { result ≡ result_of s.now }
{
    match s {
        None => bad_type(),
        Some(s) => s.result,
    }
}

/// What a `return` gives in a method with this signature, where that is a value (JLS 14.17).
pub(crate) fn given_result(s: &Option<ReadSignature>) -> Option<Ty>
    ensures { result ≡ given_result s.now }
{
    let t = result_of(s);
    if t.dims == 0 && matches!(t.base, TypeBase::Void) {
        None
    } else {
        Some(t)
    }
}

/// The types of a signature's parameters; where there is none, none is known.
pub(crate) fn param_types(s: &Option<ReadSignature>) -> &[Ty]
    ensures { result.now ≡ param_types s.now }
{
    match s {
        None => &[],
        Some(s) => s.params.as_slice(),
    }
}

/// The first of these types; where there is none, a bad one.
fn first_type(types: &[Ty]) -> Ty
    ensures { result ≡ first_type types.now }
{
    match types {
        [] => bad_type(),
        [ty, ..] => *ty,
    }
}

/// The types behind the first.
fn rest_types(types: &[Ty]) -> &[Ty]
    ensures { result.now ≡ rest_types types.now }
{
    match types {
        [] => &[],
        [_, rest @ ..] => rest,
    }
}

/// Adds the parameters of a body, by the types of its signature; one without a type has a bad one.
#[tactic(auto, using(crate::proofs::Parameters::param_steps))]
pub(crate) fn declare_params(
    alloc: Global,
    site: &Site<'_>,
    params: &[Param],
    types: &[Ty],
    locals: &mut Vec<Local>,
    ds: &mut DiagList,
) -> Result<(), AllocError>
    ensures { OnOk result ((locals.new.items, ds.new) ≡ params_declared (site_of site.now) (map param_tree params.now) types.now locals.old.items ds.old) }
{
    let mut left = types;
    for param in params {
        let ty = first_type(left);
        declare(alloc, site, param.name, ty, param.is_final, locals, ds)?;
        left = rest_types(left);
    }
    Ok(())
}
