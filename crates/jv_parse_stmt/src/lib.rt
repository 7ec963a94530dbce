//! The parser of statements and local variables, below that of declarations.
//!
//! Each function gives what the reader of `jv_grammar` gives for the terminals that it is handed, with the terminals
//! behind it, or says how many are left where one is refused (`Gives` of `jv_parse_expr`). `fuel` says how many levels
//! may be nested. It knows nothing of tokens.
#![tactic(auto)]

pub mod blocks;
mod branches;
mod conditions;
mod effects;
mod for_head;
mod loops;
mod statements;
pub mod variables;
