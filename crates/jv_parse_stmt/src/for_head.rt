//! The heads of `for` loops (JLS 14.14.1).

use jv_tree::{Expr, Stmt};

/// What stands in the parentheses of a `for`.
#[derive(Drop)]
pub(crate) struct ForHead {
    /// What comes first: one declaration of local variables, or effects.
    pub(crate) first: Vec<Stmt>,
    pub(crate) condition: Option<Expr>,
    /// What comes after each round.
    pub(crate) updates: Vec<Expr>,
}
