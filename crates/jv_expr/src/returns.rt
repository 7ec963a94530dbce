//! Where a `return` stands in a body.
//!
//! Statements nest no deeper than the load of the source allows, and an `else if` is no deeper than its `if`.

ghost use Rattle.std.specs.Prelude.{◌≡◌};
ghost use Rattle.jv_tree.specs.StmtTree.{stmt_kind_tree, stmt_tree, stmt_trees};
ghost use Rattle.jv_expr.specs.Branches.{branches_of};
ghost use Rattle.jv_expr.specs.Returns.{branch_returns, else_returns, has_return, some_return};
ghost use Rattle.jv_expr.specs.StatementParts.{else_of};

use jv_tree::{Stmt, StmtKind};

/// Whether a `return` is a statement or stands in it.
#[cycle(returns)]
fn has_return(s: &Stmt) -> bool
    ensures { result ≡ has_return (stmt_tree s.now) }
{
    match &s.kind {
        StmtKind::Block(ss) => some_return(ss),
        StmtKind::Empty => false,
        StmtKind::Local(_, _, _) => false,
        StmtKind::Effect(_) => false,
        StmtKind::If(_, other) => branch_returns(s) || else_returns(other),
        StmtKind::While(_, body) => has_return(body),
        StmtKind::Do(body, _) => has_return(body),
        StmtKind::For(first, _, _, body) => some_return(first) || has_return(body),
        StmtKind::Return(_) => true,
        StmtKind::Break => false,
        StmtKind::Continue => false,
    }
}

/// Whether it does in what one of the conditions of an `if` guards; other statements have none.
#[tactic(auto, using(crate::proofs::ReturnSteps::branch_steps))]
#[cycle(returns)]
fn branch_returns(s: &Stmt) -> bool
    ensures { result ≡ branch_returns (branches_of (stmt_kind_tree s.now.kind)) }
{
    match &s.kind {
        StmtKind::If(branches, _) => {
            for branch in branches {
                if has_return(&branch.1) {
                    return true;
                }
            }
            false
        }
        StmtKind::Block(_) => false,
        StmtKind::Empty => false,
        StmtKind::Local(_, _, _) => false,
        StmtKind::Effect(_) => false,
        StmtKind::While(_, _) => false,
        StmtKind::Do(_, _) => false,
        StmtKind::For(_, _, _, _) => false,
        StmtKind::Return(_) => false,
        StmtKind::Break => false,
        StmtKind::Continue => false,
    }
}

/// Whether it does behind the last `else`, where there is one.
#[cycle(returns)]
fn else_returns(other: &Option<Box<Stmt>>) -> bool
    ensures { result ≡ else_returns (else_of other.now) }
{
    match other {
        None => false,
        Some(s) => has_return(s),
    }
}

/// Whether a `return` stands in one of some statements. It takes the time of the statements, and no memory.
#[tactic(auto, using(crate::proofs::ReturnSteps::all_steps))]
#[cycle(returns)]
pub(crate) fn some_return(ss: &[Stmt]) -> bool
    ensures { result ≡ some_return (stmt_trees ss.now) }
{
    for s in ss {
        if has_return(s) {
            return true;
        }
    }
    false
}
