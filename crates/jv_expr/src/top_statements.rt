//! The statements at the top of a body, one after another, from where the check of the body stopped.

ghost use Rattle.std.specs.Prelude.{◌≡◌, ◌<◌, ◌^◌, None, IfSome, OnOk, OnErr};
ghost use Rattle.sg_reading.specs.Progress.{HasResidual};
ghost use Rattle.sg_reading.specs.Stop.{Reads};
ghost use Rattle.jv_tree.specs.StmtTree.{stmt_tree, stmt_trees};
ghost use Rattle.jv_names.specs.Replies.{reply_to};
ghost use Rattle.jv_expr.specs.Checking.{only_diags, with_scope};
ghost use Rattle.jv_expr.specs.Locals.{AddsLocals};
ghost use Rattle.jv_expr.specs.Progress.{IsFurther, statements_left, top_checked};
ghost use Rattle.jv_expr.specs.Sites.{site_of};

use crate::begun_body::BegunBody;
use crate::body_progress::BodyProgress;
use crate::local::Local;
use crate::need::Need;
use crate::site::Site;
use crate::statements::check_statement;
use jv_diag::DiagList;
use jv_names::Oracle;
use jv_tree::Stmt;
use std::alloc::Global;

/// A statement at the top of a body. Its own diagnostics come behind those so far, which stay what they are where it stops.
#[tactic(auto, using(crate::proofs::TopSteps::own_steps))]
fn check_own(
    alloc: Global,
    site: &Site<'_>,
    o: &Oracle,
    s: &Stmt,
    locals: &mut Vec<Local>,
    ds: &mut DiagList,
) -> Result<(), Need>
    requires { site.now.spot.now.file < 2 ^ 31 }
    ensures reads { Reads (reply_to o.now) (top_checked (site_of site.now) (stmt_tree s.now) (locals.old.items, ds.old)) (with_scope result locals.new.items ds.new) }
    ensures grows { AddsLocals locals.old.items locals.new.items }
    ensures diags { OnErr result (ds.new ≡ ds.old) }
{
    let mut own = DiagList::empty(alloc);
    check_statement(alloc, site, o, false, s, locals, &mut own)?;
    ds.append(own)?;
    Ok(())
}

/// The next statement at the top of a body. Where it stops the local variables and the diagnostics are what they were.
#[tactic(auto, using(crate::proofs::TopSteps::next_steps))]
fn check_next(
    alloc: Global,
    site: &Site<'_>,
    o: &Oracle,
    s: &Stmt,
    locals: &mut Vec<Local>,
    ds: &mut DiagList,
) -> Result<(), Need>
    requires { site.now.spot.now.file < 2 ^ 31 }
    ensures reads { Reads (reply_to o.now) (top_checked (site_of site.now) (stmt_tree s.now) (locals.old.items, ds.old)) (with_scope result locals.new.items ds.new) }
    ensures locals { OnErr result (locals.new.items ≡ locals.old.items) }
    ensures diags { OnErr result (ds.new ≡ ds.old) }
{
    let n = locals.len();
    match check_own(alloc, site, o, s, locals, ds) {
        Ok(()) => Ok(()),
        Err(stop) => {
            locals.truncate(n);
            Err(stop)
        }
    }
}

/// The statements that are left of a body. Where one stops, those before it stay checked.
#[tactic(auto, using(crate::proofs::TopSteps::left_steps))]
fn check_left(
    alloc: Global,
    site: &Site<'_>,
    o: &Oracle,
    ss: &[Stmt],
    body: &mut BegunBody,
) -> Result<(), Need>
    requires { site.now.spot.now.file < 2 ^ 31 }
    ensures reads { Reads (reply_to o.now) (statements_left (site_of site.now) (stmt_trees ss.now) body.old) (only_diags result body.new.diags) }
    ensures left { HasResidual (reply_to o.now) (statements_left (site_of site.now) (stmt_trees ss.now) body.old) (statements_left (site_of site.now) (stmt_trees ss.now) body.new) }
    ensures result { body.new.result ≡ body.old.result }
{
    while body.count < ss.len() {
        let s = &ss[body.count];
        check_next(alloc, site, o, s, &mut body.locals, &mut body.diags)?;
        body.count += 1;
    }
    Ok(())
}

/// What is wrong in a body that was begun. Where a reply is missing, the progress keeps how far it came.
#[tactic(auto, using(crate::proofs::TopSteps::left_steps))]
pub(crate) fn go_on(
    alloc: Global,
    site: &Site<'_>,
    o: &Oracle,
    ss: &[Stmt],
    body: BegunBody,
    progress: &mut BodyProgress,
) -> Result<DiagList, Need>
    requires file { site.now.spot.now.file < 2 ^ 31 }
    requires new { progress.old.begun ≡ None }
    ensures reads { Reads (reply_to o.now) (statements_left (site_of site.now) (stmt_trees ss.now) body) result }
    ensures left { IfSome progress.new.begun (λ b. (b.result ≡ body.result) × IsFurther o.now (statements_left (site_of site.now) (stmt_trees ss.now)) body b) }
    ensures new { OnOk result (progress.new.begun ≡ None) }
{
    let mut body = body;
    match check_left(alloc, site, o, ss, &mut body) {
        Ok(()) => Ok(body.diags),
        Err(stop) => {
            progress.keep(body);
            Err(stop)
        }
    }
}
