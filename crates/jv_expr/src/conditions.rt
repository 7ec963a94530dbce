//! Expressions in statements: those whose value is left alone, conditions, and what a `return` gives.

ghost use Rattle.std.specs.Prelude.{◌≡◌, ◌<◌, ◌^◌, [], is_some, OnOk};
ghost use Rattle.std.specs.Option.{option_map};
ghost use Rattle.sg_reading.specs.Stop.{Reads};
ghost use Rattle.jv_diag.specs.declared.codes.TheConstants.{WRONG_RETURN};
ghost use Rattle.jv_tree.specs.ExprTree.{expr_tree, expr_trees};
ghost use Rattle.jv_names.specs.Replies.{reply_to};
ghost use Rattle.jv_expr.specs.Checking.{only_diags};
ghost use Rattle.jv_expr.specs.Site.{with_fault_if};
ghost use Rattle.jv_expr.specs.Sites.{site_of};
ghost use Rattle.jv_expr.specs.Statements.{condition_checked, effect_checked, effects_checked, optional_condition, returned, value_returned};

use crate::conversions::check_assigned;
use crate::expressions::check_expr;
use crate::faults::{add_condition, add_fault};
use crate::local::Local;
use crate::need::Need;
use crate::site::Site;
use jv_diag::{DiagList, codes};
use jv_instance::Ty;
use jv_names::Oracle;
use jv_tree::Expr;
use sg_reading::Stop;
use std::alloc::{AllocError, Global};

/// An expression whose value is left alone.
#[tactic(auto, using(crate::proofs::StatementEnds::end_steps))]
pub(crate) fn check_effect(
    alloc: Global,
    site: &Site<'_>,
    o: &Oracle,
    locals: &[Local],
    e: &Expr,
    ds: &mut DiagList,
) -> Result<(), Need>
    requires { site.now.spot.now.file < 2 ^ 31 }
    ensures { Reads (reply_to o.now) (effect_checked (site_of site.now) locals.now (expr_tree e.now) ds.old) (only_diags result ds.new) }
{
    check_expr(alloc, site, o, locals, e, ds)?;
    Ok(())
}

/// Expressions whose values are left alone.
#[tactic(auto, using(crate::proofs::Effects::effect_steps))]
pub(crate) fn check_effects(
    alloc: Global,
    site: &Site<'_>,
    o: &Oracle,
    locals: &[Local],
    es: &Vec<Expr>,
    ds: &mut DiagList,
) -> Result<(), Need>
    requires { site.now.spot.now.file < 2 ^ 31 }
    ensures { Reads (reply_to o.now) (effects_checked (site_of site.now) locals.now (expr_trees es.now.items) ds.old) (only_diags result ds.new) }
{
    for e in es {
        check_effect(alloc, site, o, locals, e, ds)?;
    }
    Ok(())
}

/// A condition (JLS 14.9, 14.12, 14.13, 14.14).
#[tactic(auto, using(crate::proofs::StatementEnds::end_steps))]
pub(crate) fn check_condition(
    alloc: Global,
    site: &Site<'_>,
    o: &Oracle,
    locals: &[Local],
    e: &Expr,
    ds: &mut DiagList,
) -> Result<(), Need>
    requires { site.now.spot.now.file < 2 ^ 31 }
    ensures { Reads (reply_to o.now) (condition_checked (site_of site.now) locals.now (expr_tree e.now) ds.old) (only_diags result ds.new) }
{
    let v = check_expr(alloc, site, o, locals, e, ds)?;
    add_condition(alloc, site, e.at, v.ty, ds)?;
    Ok(())
}

/// A condition, where there is one.
#[tactic(auto, using(crate::proofs::StatementEnds::end_steps))]
pub(crate) fn check_optional_condition(
    alloc: Global,
    site: &Site<'_>,
    o: &Oracle,
    locals: &[Local],
    e: &Option<Expr>,
    ds: &mut DiagList,
) -> Result<(), Need>
    requires { site.now.spot.now.file < 2 ^ 31 }
    ensures { Reads (reply_to o.now) (optional_condition (site_of site.now) locals.now (option_map expr_tree e.now) ds.old) (only_diags result ds.new) }
{
    match e {
        None => Ok(()),
        Some(e) => check_condition(alloc, site, o, locals, e, ds),
    }
}

/// A value that is returned at an offset, by the type that a `return` gives there (JLS 14.17).
#[tactic(auto, using(crate::proofs::StatementEnds::end_steps))]
fn check_value_returned(
    alloc: Global,
    site: &Site<'_>,
    o: &Oracle,
    at: u32,
    needed: Option<Ty>,
    place: u32,
    found: Ty,
    ds: &mut DiagList,
) -> Result<(), Need>
    ensures { Reads (reply_to o.now) (value_returned (site_of site.now) at needed place found ds.old) (only_diags result ds.new) }
{
    match needed {
        None => {
            add_fault(alloc, site, at, codes::WRONG_RETURN, &[], ds)?;
            Ok(())
        }
        Some(needed) => check_assigned(alloc, site, o, place, found, needed, ds),
    }
}

/// Adds that a `return` at an offset has no value, where one is to be given.
fn add_nothing_returned(
    alloc: Global,
    site: &Site<'_>,
    at: u32,
    ds: &mut DiagList,
) -> Result<(), AllocError>
    ensures { OnOk result (ds.new ≡ with_fault_if (is_some (site_of site.now).result) (site_of site.now) at WRONG_RETURN [] ds.old) }
{
    if site.result.is_some() {
        add_fault(alloc, site, at, codes::WRONG_RETURN, &[], ds)?;
    }
    Ok(())
}

/// A `return` at an offset (JLS 14.17).
#[tactic(auto, using(crate::proofs::StatementEnds::end_steps))]
pub(crate) fn check_returned(
    alloc: Global,
    site: &Site<'_>,
    o: &Oracle,
    at: u32,
    locals: &[Local],
    e: &Option<Expr>,
    ds: &mut DiagList,
) -> Result<(), Need>
    requires { site.now.spot.now.file < 2 ^ 31 }
    ensures { Reads (reply_to o.now) (returned (site_of site.now) at locals.now (option_map expr_tree e.now) ds.old) (only_diags result ds.new) }
{
    match e {
        None => {
            add_nothing_returned(alloc, site, at, ds)?;
            Ok(())
        }
        Some(e) => {
            let v = check_expr(alloc, site, o, locals, e, ds)?;
            check_value_returned(alloc, site, o, at, site.result, e.at, v.ty, ds)
        }
    }
}
