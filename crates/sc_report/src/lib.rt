//! The report on a folder: its diagnostics as lines, sorted, each once, and the last line.
//!
//! It knows files and diagnostics, and no rule. Each source is walked once.
#![tactic(auto)]

mod file;
pub mod laws;
mod lines;
mod reporting;
mod sorting;
#[cfg(test)]
mod tests;
mod walk;

pub use reporting::report_text;
pub use sorting::sorted_diags;
