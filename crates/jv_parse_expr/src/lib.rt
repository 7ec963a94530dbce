//! The parser of types, expressions and initializers, below that of statements and declarations.
//!
//! Each function gives what the reader of `jv_grammar` gives for the terminals that it is handed, with the terminals
//! behind it, or says how many are left where one is refused (`specs/View.antt`). `fuel` says how many levels may be
//! nested. It knows nothing of tokens.
#![tactic(auto)]

pub mod expressions;
pub mod fault;
mod heads;
pub mod lists;
pub mod marks;
pub mod names;
mod nested;
mod operators;
mod primaries;
mod steps;
pub mod terminals;
pub mod types;
