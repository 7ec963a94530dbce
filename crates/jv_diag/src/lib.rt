//! Diagnostics: their codes, their texts, and the lines that are printed.
//!
//! All texts stand in one table (`texts`), with marks where the arguments of a diagnostic go. It knows nothing of rules: a
//! caller names a code and the arguments, and the file and the place that it speaks of.
#![tactic(auto)]

pub mod codes;
mod diagnostic;
mod fill;
mod last;
mod lines;
mod list;
mod making;
#[cfg(test)]
mod tests;
mod texts;

pub use diagnostic::Diag;
pub use last::last_line;
pub use lines::{line, push_line};
pub use list::DiagList;
pub use making::diag;
