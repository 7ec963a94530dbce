//! From the tokens of a Java source to its tree, in the grammar of `docs/JAVA-PROFILE.md`.
//!
//! `parse` gives the one tree that derives from the tokens, or says that they are nested too deep or no file
//! (`specs/Parse.antt`). Each function below it gives what the reader of `jv_grammar` gives; those of statements stand
//! in `jv_parse_stmt`, those of types and expressions in `jv_parse_expr`.
#![tactic(auto)]

mod declarations;
pub mod laws;
mod naming;
mod parse_fault;
mod parser;

pub use naming::name_tokens;
pub use parse_fault::ParseFault;
pub use parser::{PARSE_STACK, parse, parse_terminals};
