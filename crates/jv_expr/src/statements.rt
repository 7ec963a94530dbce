//! Statements.

ghost use Rattle.std.specs.Prelude.{◌≡◌, ◌<◌, ◌^◌, length, OnOk};
ghost use Rattle.sg_reading.specs.Stop.{Reads};
ghost use Rattle.jv_tree.specs.StmtTree.{stmt_kind_tree, stmt_tree, stmt_trees};
ghost use Rattle.jv_names.specs.Replies.{reply_to};
ghost use Rattle.jv_expr.specs.Branches.{branches_of};
ghost use Rattle.jv_expr.specs.Checking.{ReadsScope, with_scope};
ghost use Rattle.jv_expr.specs.Locals.{AddsLocals};
ghost use Rattle.jv_expr.specs.Sites.{site_of};
ghost use Rattle.jv_expr.specs.StatementParts.{else_of, rounds_checked};
ghost use Rattle.jv_expr.specs.Statements.{all_checked, branches_checked, checked, else_checked, in_loop, left};

use crate::conditions::{
    check_condition, check_effect, check_effects, check_optional_condition, check_returned,
};
use crate::declaring::check_local;
use crate::faults::add_fault;
use crate::local::Local;
use crate::need::Need;
use crate::site::Site;
use jv_diag::{DiagList, codes};
use jv_names::Oracle;
use jv_tree::{Expr, Stmt, StmtKind};
use sg_reading::Stop;
use std::alloc::{AllocError, Global};

/// Adds that a statement asks for a loop, where it stands in none (JLS 14.15, 14.16).
fn add_in_loop(
    alloc: Global,
    site: &Site<'_>,
    at: u32,
    within: bool,
    ds: &mut DiagList,
) -> Result<(), AllocError>
    ensures { OnOk result (ds.new ≡ in_loop (site_of site.now) at within ds.old) }
{
    if !within {
        add_fault(alloc, site, at, codes::NO_LOOP, &[], ds)?;
    }
    Ok(())
}

/// The number of local variables in scope.
fn count(locals: &Vec<Local>) -> usize
    ensures { result ≡ length locals.now.items }
{
    locals.len()
}

/// A statement, within a loop or outside (JLS 14).
#[tactic(auto, using(crate::proofs::StatementCases::statement_steps))]
#[cycle(statements)]
pub(crate) fn check_statement(
    alloc: Global,
    site: &Site<'_>,
    o: &Oracle,
    within: bool,
    s: &Stmt,
    locals: &mut Vec<Local>,
    ds: &mut DiagList,
) -> Result<(), Need>
    requires { site.now.spot.now.file < 2 ^ 31 }
    ensures reads { Reads (reply_to o.now) (checked (site_of site.now) within (stmt_tree s.now) locals.old.items ds.old) (with_scope result locals.new.items ds.new) }
    ensures grows { AddsLocals locals.old.items locals.new.items }
{
    match &s.kind {
        StmtKind::Block(ss) => check_block(alloc, site, o, within, ss, locals, ds),
        StmtKind::Empty => Ok(()),
        StmtKind::Local(is_final, ty, vars) => {
            check_local(alloc, site, o, *is_final, ty, vars, locals, ds)
        }
        StmtKind::Effect(e) => {
            check_effect(alloc, site, o, locals.as_slice(), e, ds)?;
            Ok(())
        }
        StmtKind::If(_, other) => {
            check_branches(alloc, site, o, within, s, locals, ds)?;
            check_else(alloc, site, o, within, other, locals, ds)
        }
        StmtKind::While(e, body) => {
            check_condition(alloc, site, o, locals.as_slice(), e, ds)?;
            check_statement(alloc, site, o, true, body, locals, ds)
        }
        StmtKind::Do(body, e) => {
            check_statement(alloc, site, o, true, body, locals, ds)?;
            check_condition(alloc, site, o, locals.as_slice(), e, ds)?;
            Ok(())
        }
        StmtKind::For(first, e, updates, body) => {
            let n = count(locals);
            check_all(alloc, site, o, within, first, locals, ds)?;
            check_rounds(alloc, site, o, body, e, updates, locals, ds)?;
            locals.truncate(n);
            Ok(())
        }
        StmtKind::Return(e) => {
            check_returned(alloc, site, o, s.at, locals.as_slice(), e, ds)?;
            Ok(())
        }
        StmtKind::Break => {
            add_in_loop(alloc, site, s.at, within, ds)?;
            Ok(())
        }
        StmtKind::Continue => {
            add_in_loop(alloc, site, s.at, within, ds)?;
            Ok(())
        }
    }
}

/// A block: its local variables are in scope there alone (JLS 14.2).
#[tactic(auto, using(crate::proofs::StatementEnds::end_steps))]
#[cycle(statements)]
fn check_block(
    alloc: Global,
    site: &Site<'_>,
    o: &Oracle,
    within: bool,
    ss: &Vec<Stmt>,
    locals: &mut Vec<Local>,
    ds: &mut DiagList,
) -> Result<(), Need>
    requires { site.now.spot.now.file < 2 ^ 31 }
    ensures reads { ReadsScope o.now (left locals.old.items (all_checked (site_of site.now) within (stmt_trees ss.now.items) locals.old.items ds.old)) result locals.new.items ds.new }
    ensures grows { AddsLocals locals.old.items locals.new.items }
{
    let n = locals.len();
    check_all(alloc, site, o, within, ss, locals, ds)?;
    locals.truncate(n);
    Ok(())
}

/// The condition of a `for`, what comes after each round, and its body.
#[tactic(auto, using(crate::proofs::StatementEnds::end_steps))]
#[cycle(statements)]
fn check_rounds(
    alloc: Global,
    site: &Site<'_>,
    o: &Oracle,
    body: &Stmt,
    e: &Option<Expr>,
    updates: &Vec<Expr>,
    locals: &mut Vec<Local>,
    ds: &mut DiagList,
) -> Result<(), Need>
    requires { site.now.spot.now.file < 2 ^ 31 }
    ensures reads { ReadsScope o.now (rounds_checked (site_of site.now) e.now updates.now.items body.now locals.old.items ds.old) result locals.new.items ds.new }
    ensures grows { AddsLocals locals.old.items locals.new.items }
{
    check_optional_condition(alloc, site, o, locals.as_slice(), e, ds)?;
    check_effects(alloc, site, o, locals.as_slice(), updates, ds)?;
    check_statement(alloc, site, o, true, body, locals, ds)
}

/// The conditions of an `if` with what they guard (JLS 14.9).
#[tactic(auto, using(crate::proofs::StatementLists::branch_steps))]
#[cycle(statements)]
fn check_branches(
    alloc: Global,
    site: &Site<'_>,
    o: &Oracle,
    within: bool,
    s: &Stmt,
    locals: &mut Vec<Local>,
    ds: &mut DiagList,
) -> Result<(), Need>
    requires { site.now.spot.now.file < 2 ^ 31 }
    ensures reads { ReadsScope o.now (branches_checked (site_of site.now) within (branches_of (stmt_kind_tree s.now.kind)) locals.old.items ds.old) result locals.new.items ds.new }
    ensures grows { AddsLocals locals.old.items locals.new.items }
{
    match &s.kind {
        StmtKind::If(branches, _) => {
            for branch in branches {
                check_condition(alloc, site, o, locals.as_slice(), &branch.0, ds)?;
                check_statement(alloc, site, o, within, &branch.1, locals, ds)?;
            }
            Ok(())
        }
        StmtKind::Block(_) => Ok(()),
        StmtKind::Empty => Ok(()),
        StmtKind::Local(_, _, _) => Ok(()),
        StmtKind::Effect(_) => Ok(()),
        StmtKind::While(_, _) => Ok(()),
        StmtKind::Do(_, _) => Ok(()),
        StmtKind::For(_, _, _, _) => Ok(()),
        StmtKind::Return(_) => Ok(()),
        StmtKind::Break => Ok(()),
        StmtKind::Continue => Ok(()),
    }
}

/// What stands behind the last `else`, where there is one.
#[tactic(auto, using(crate::proofs::StatementCases::else_steps))]
#[cycle(statements)]
fn check_else(
    alloc: Global,
    site: &Site<'_>,
    o: &Oracle,
    within: bool,
    other: &Option<Box<Stmt>>,
    locals: &mut Vec<Local>,
    ds: &mut DiagList,
) -> Result<(), Need>
    requires { site.now.spot.now.file < 2 ^ 31 }
    ensures reads { ReadsScope o.now (else_checked (site_of site.now) within (else_of other.now) locals.old.items ds.old) result locals.new.items ds.new }
    ensures grows { AddsLocals locals.old.items locals.new.items }
{
    match other {
        None => Ok(()),
        Some(s) => check_statement(alloc, site, o, within, s, locals, ds),
    }
}

/// Statements of a block, within a loop or outside.
#[tactic(auto, using(crate::proofs::StatementLists::all_steps))]
#[cycle(statements)]
fn check_all(
    alloc: Global,
    site: &Site<'_>,
    o: &Oracle,
    within: bool,
    ss: &Vec<Stmt>,
    locals: &mut Vec<Local>,
    ds: &mut DiagList,
) -> Result<(), Need>
    requires { site.now.spot.now.file < 2 ^ 31 }
    ensures reads { Reads (reply_to o.now) (all_checked (site_of site.now) within (stmt_trees ss.now.items) locals.old.items ds.old) (with_scope result locals.new.items ds.new) }
    ensures grows { AddsLocals locals.old.items locals.new.items }
{
    for s in ss {
        check_statement(alloc, site, o, within, s, locals, ds)?;
    }
    Ok(())
}
