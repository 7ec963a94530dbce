//! Statements (JLS 14).

use crate::expression::Expr;
use crate::type_ref::{TypeRef, Var};

/// A statement; `at` is where it starts.
#[derive(Drop)]
#[cycle(stmt)]
pub struct Stmt {
    pub at: u32,
    pub kind: StmtKind,
}

/// What a statement is.
#[derive(Drop)]
#[cycle(stmt)]
pub enum StmtKind {
    Block(Vec<Stmt>),
    Empty,
    /// Local variables, and whether they are final.
    Local(bool, TypeRef, Vec<Var>),
    Effect(Expr),
    /// The conditions of an `if` and of each `else if`, with what they guard, and what stands behind the last `else`.
    If(Vec<(Expr, Stmt)>, Option<Box<Stmt>>),
    While(Expr, Box<Stmt>),
    Do(Box<Stmt>, Expr),
    /// What comes first, the condition, what comes after each round, and the body.
    For(Vec<Stmt>, Option<Expr>, Vec<Expr>, Box<Stmt>),
    Return(Option<Expr>),
    Break,
    Continue,
}
