//! A project that is made from a number: its source files, each with one class.
//!
//! The class with the number i extends the one with half that number, and its method reads a field of it, so a chain of
//! supertypes is as deep as the number is long. It knows files, and nothing of a tree or of the rules.
#![tactic(auto)]

mod files;
pub mod laws;
#[cfg(test)]
mod tests;

pub use files::project;
