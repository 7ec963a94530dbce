//! The top call: it reads the words and the tree, and writes the report, or what is listed in its place.
//!
//! What the words and the files of a folder determine stands in `specs/Told.antt`; the contract of `run` says that
//! these bytes are written, with that status, and when each fault comes.
#![tactic(auto)]

mod asked;
mod check;
mod circular;
mod command;
pub mod folder_laws;
mod folder_run;
mod followers;
mod gather;
mod heard;
pub mod laws;
mod outcome;
mod prepared;
mod project;
mod ran;
mod report;
mod results;
mod showing;
mod status;
mod top_call;

pub use outcome::Outcome;
pub use project::{ProjectFault, check_gated, check_in_order, check_project};
pub use ran::Ran;
pub use status::{Status, Which};
pub use top_call::{run, run_gated};
