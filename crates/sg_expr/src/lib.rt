//! Path expressions: regular expressions over labels, which say what words a path may have.
//!
//! A path expression is the well-formedness predicate of paths in a scope graph (Neron et al., "A Theory of Name
//! Resolution", ESOP 2015). Its meaning is the set of words that belong to it; each question here is answered by that
//! set, and the words behind a first label are again those of an expression (Brzozowski's derivative).
#![tactic(auto)]

mod build;
mod expr;
mod laying;
mod positions;
mod same;

pub use expr::Expr;
pub use positions::Positions;
