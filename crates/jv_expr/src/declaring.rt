//! The declarations of local variables (JLS 14.4).

ghost use Rattle.std.specs.Prelude.{◌≡◌, ◌<◌, ◌^◌, ◌&&◌, is_some, OnOk};
ghost use Rattle.std.specs.Option.{option_map};
ghost use Rattle.sg_reading.specs.Stop.{Reads};
ghost use Rattle.jv_tree.specs.ExprTree.{init_tree};
ghost use Rattle.jv_tree.specs.StmtTree.{var_tree, var_trees};
ghost use Rattle.jv_tree.specs.TypeTree.{type_tree};
ghost use Rattle.jv_names.specs.Replies.{reply_to};
ghost use Rattle.jv_expr.specs.Checking.{only_diags, ReadsScope, with_diags, with_scope};
ghost use Rattle.jv_expr.specs.Locals.{AddsLocals};
ghost use Rattle.jv_expr.specs.Sites.{site_of};
ghost use Rattle.jv_expr.specs.Statements.{declared, local_checked, optional_init, variable_checked, variables_checked};
ghost use Rattle.jv_expr.specs.Typed.{written_at};

use crate::expressions::check_init;
use crate::faults::add_named_if;
use crate::local::Local;
use crate::need::Need;
use crate::site::Site;
use crate::variables::latest;
use jv_diag::{DiagList, codes};
use jv_instance::Ty;
use jv_names::{Oracle, read_written_type};
use jv_tree::{Ident, Init, TypeRef, Var};
use sg_reading::Stop;
use std::alloc::{AllocError, Global};

/// Adds a local variable. One of its name that is in scope already is a diagnostic (JLS 6.4).
#[tactic(auto, using(crate::proofs::Locals::local_steps))]
pub(crate) fn declare(
    alloc: Global,
    site: &Site<'_>,
    i: Ident,
    ty: Ty,
    sealed: bool,
    locals: &mut Vec<Local>,
    ds: &mut DiagList,
) -> Result<(), AllocError>
    ensures declared { OnOk result ((locals.new.items, ds.new) ≡ declared (site_of site.now) i ty sealed locals.old.items ds.old) }
    ensures grows { AddsLocals locals.old.items locals.new.items }
{
    let known = latest(locals.as_slice(), i.id).is_some();
    add_named_if(alloc, known, site, i, codes::DUPLICATE_VARIABLE, ds)?;
    locals.push(Local {
        name: i.id,
        ty,
        sealed,
    })?;
    Ok(())
}

/// An initializer, where there is one.
#[tactic(auto, using(crate::proofs::StatementEnds::end_steps))]
fn check_optional_init(
    alloc: Global,
    site: &Site<'_>,
    o: &Oracle,
    locals: &[Local],
    ty: Ty,
    init: &Option<Init>,
    ds: &mut DiagList,
) -> Result<(), Need>
    requires { site.now.spot.now.file < 2 ^ 31 }
    ensures { Reads (reply_to o.now) (optional_init (site_of site.now) locals.now ty (option_map init_tree init.now) ds.old) (only_diags result ds.new) }
{
    match init {
        None => Ok(()),
        Some(init) => check_init(alloc, site, o, locals, ty, init, ds),
    }
}

/// Whether a variable cannot be assigned: a final one that has an initializer (JLS 4.12.4).
fn is_sealed(is_final: bool, init: &Option<Init>) -> bool
    ensures { result ≡ (is_final && is_some (option_map init_tree init.now)) }
{
    is_final && init.is_some()
}

/// A variable of a declaration, whose own initializer is in its scope.
#[tactic(auto, using(crate::proofs::Declared::variable_steps))]
fn check_variable(
    alloc: Global,
    site: &Site<'_>,
    o: &Oracle,
    is_final: bool,
    ty: Ty,
    var: &Var,
    locals: &mut Vec<Local>,
    ds: &mut DiagList,
) -> Result<(), Need>
    requires { site.now.spot.now.file < 2 ^ 31 }
    ensures reads { Reads (reply_to o.now) (variable_checked (site_of site.now) is_final ty (var_tree var.now) locals.old.items ds.old) (with_scope result locals.new.items ds.new) }
    ensures grows { AddsLocals locals.old.items locals.new.items }
{
    let sealed = is_sealed(is_final, &var.init);
    declare(alloc, site, var.name, ty, sealed, locals, ds)?;
    check_optional_init(alloc, site, o, locals.as_slice(), ty, &var.init, ds)?;
    Ok(())
}

/// The variables of a declaration.
#[tactic(auto, using(crate::proofs::Declared::variables_steps))]
fn check_variables(
    alloc: Global,
    site: &Site<'_>,
    o: &Oracle,
    is_final: bool,
    ty: Ty,
    vars: &Vec<Var>,
    locals: &mut Vec<Local>,
    ds: &mut DiagList,
) -> Result<(), Need>
    requires { site.now.spot.now.file < 2 ^ 31 }
    ensures reads { ReadsScope o.now (variables_checked (site_of site.now) is_final ty (var_trees vars.now.items) locals.old.items ds.old) result locals.new.items ds.new }
    ensures grows { AddsLocals locals.old.items locals.new.items }
{
    for var in vars {
        check_variable(alloc, site, o, is_final, ty, var, locals, ds)?;
    }
    Ok(())
}

/// The type that a declaration names.
#[tactic(auto, using(crate::proofs::StatementEnds::end_steps))]
fn check_declared_type(
    alloc: Global,
    site: &Site<'_>,
    o: &Oracle,
    ty: &TypeRef,
    ds: &mut DiagList,
) -> Result<Ty, Need>
    requires { site.now.spot.now.file < 2 ^ 31 }
    ensures { Reads (reply_to o.now) (written_at (site_of site.now) (type_tree ty.now) ds.old) (with_diags result ds.new) }
{
    let w = read_written_type(alloc, site.layout, site.names, o, site.spot, ty)?;
    ds.append(w.diags)?;
    Ok(w.ty)
}

/// A declaration of local variables.
#[tactic(auto, using(crate::proofs::StatementEnds::end_steps))]
pub(crate) fn check_local(
    alloc: Global,
    site: &Site<'_>,
    o: &Oracle,
    is_final: bool,
    ty: &TypeRef,
    vars: &Vec<Var>,
    locals: &mut Vec<Local>,
    ds: &mut DiagList,
) -> Result<(), Need>
    requires { site.now.spot.now.file < 2 ^ 31 }
    ensures reads { ReadsScope o.now (local_checked (site_of site.now) is_final (type_tree ty.now) (var_trees vars.now.items) locals.old.items ds.old) result locals.new.items ds.new }
    ensures grows { AddsLocals locals.old.items locals.new.items }
{
    let t = check_declared_type(alloc, site, o, ty, ds)?;
    check_variables(alloc, site, o, is_final, t, vars, locals, ds)
}
