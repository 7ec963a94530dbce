//! The grammar of the Java profile: what a source of it is.
//!
//! `specs/` says which tree derives from which terminals, and how deep a source is nested (docs/JAVA-PROFILE.md). It
//! knows nothing of a parser's code: laws say that at most one tree derives, and that a reader of `specs/` finds it.
#![tactic(auto)]

mod form;
pub mod laws;
mod load;
mod terminal;
#[cfg(test)]
mod tests;

pub use form::Form;
pub use load::first_deep;
pub use terminal::{LiteralKind, Terminal};
