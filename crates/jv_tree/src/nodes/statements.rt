//! Statements.

ghost use Rattle.std.specs.Prelude.{◌≡◌, IfOk};
ghost use Rattle.std.specs.Option.{option_map};
ghost use Rattle.jv_tree.specs.TypeTree.{type_tree};
ghost use Rattle.jv_tree.specs.ExprTree.{expr_tree, expr_trees};
ghost use Rattle.jv_tree.specs.StmtTree as s;
ghost use Rattle.jv_tree.specs.StmtTree.{stmt_tree, stmt_trees, branch_trees, optional_else, var_trees};

use crate::expression::Expr;
use crate::statement::{Stmt, StmtKind};
use crate::type_ref::{TypeRef, Var};
use std::alloc::{AllocError, Global};

/// A block.
pub fn block(at: u32, statements: Vec<Stmt>) -> Stmt
    ensures { stmt_tree result ≡ s.stmt at (s.block (stmt_trees statements.items)) }
{
    Stmt {
        at,
        kind: StmtKind::Block(statements),
    }
}

/// A `;` alone.
pub fn empty(at: u32) -> Stmt
    ensures { stmt_tree result ≡ s.stmt at s.empty }
{
    Stmt {
        at,
        kind: StmtKind::Empty,
    }
}

/// Local variables.
pub fn local(at: u32, is_final: bool, ty: TypeRef, variables: Vec<Var>) -> Stmt
    ensures { stmt_tree result
        ≡ s.stmt at (s.local is_final (type_tree ty) (var_trees variables.items)) }
{
    Stmt {
        at,
        kind: StmtKind::Local(is_final, ty, variables),
    }
}

/// An expression as a statement.
pub fn effect(at: u32, of: Expr) -> Stmt
    ensures { stmt_tree result ≡ s.stmt at (s.effect (expr_tree of)) }
{
    Stmt {
        at,
        kind: StmtKind::Effect(of),
    }
}

/// An `if` with its `else if`s, and what stands behind the last `else`.
pub fn if_else(
    alloc: Global,
    at: u32,
    branches: Vec<(Expr, Stmt)>,
    otherwise: Option<Stmt>,
) -> Result<Stmt, AllocError>
    ensures { IfOk result (λ t. stmt_tree t
        ≡ s.stmt at (s.if_else (branch_trees branches.items) (optional_else otherwise))) }
{
    match otherwise {
        Some(statement) => {
            let statement = Box::new(alloc, statement)?;
            Ok(Stmt {
                at,
                kind: StmtKind::If(branches, Some(statement)),
            })
        }
        None => Ok(Stmt {
            at,
            kind: StmtKind::If(branches, None),
        }),
    }
}

/// A `while` loop.
pub fn while_loop(alloc: Global, at: u32, condition: Expr, body: Stmt) -> Result<Stmt, AllocError>
    ensures { IfOk result (λ t. stmt_tree t
        ≡ s.stmt at (s.while_loop (expr_tree condition) (stmt_tree body))) }
{
    let body = Box::new(alloc, body)?;
    Ok(Stmt {
        at,
        kind: StmtKind::While(condition, body),
    })
}

/// A `do` loop.
pub fn do_loop(alloc: Global, at: u32, body: Stmt, condition: Expr) -> Result<Stmt, AllocError>
    ensures { IfOk result (λ t. stmt_tree t
        ≡ s.stmt at (s.do_loop (stmt_tree body) (expr_tree condition))) }
{
    let body = Box::new(alloc, body)?;
    Ok(Stmt {
        at,
        kind: StmtKind::Do(body, condition),
    })
}

/// A `for` loop: what comes first, the condition, what comes after each round, and the body.
pub fn for_loop(
    alloc: Global,
    at: u32,
    first: Vec<Stmt>,
    condition: Option<Expr>,
    after: Vec<Expr>,
    body: Stmt,
) -> Result<Stmt, AllocError>
    ensures { IfOk result (λ t. stmt_tree t
        ≡ s.stmt at (s.for_loop (stmt_trees first.items) (option_map expr_tree condition)
        (expr_trees after.items) (stmt_tree body))) }
{
    let body = Box::new(alloc, body)?;
    Ok(Stmt {
        at,
        kind: StmtKind::For(first, condition, after, body),
    })
}

/// A `return`.
pub fn return_from(at: u32, value: Option<Expr>) -> Stmt
    ensures { stmt_tree result ≡ s.stmt at (s.return (option_map expr_tree value)) }
{
    Stmt {
        at,
        kind: StmtKind::Return(value),
    }
}

/// A `break`.
pub fn break_loop(at: u32) -> Stmt
    ensures { stmt_tree result ≡ s.stmt at s.break }
{
    Stmt {
        at,
        kind: StmtKind::Break,
    }
}

/// A `continue`.
pub fn continue_loop(at: u32) -> Stmt
    ensures { stmt_tree result ≡ s.stmt at s.continue }
{
    Stmt {
        at,
        kind: StmtKind::Continue,
    }
}
