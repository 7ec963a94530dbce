//! The sources of a folder: their trees, or their faults.
//!
//! The two files of the prelude come first. Each source is read with the names of those before it, so that one name has one
//! number in all trees. Where a source has a fault no tree counts, and the faults are all that is said of the folder. It knows
//! nothing of scopes or rules.
#![tactic(auto)]

mod growing;
pub mod laws;
mod lexing;
mod naming;
mod read;
mod reading;
mod source_read;
mod sources;
mod terminals;

pub use read::{read_in_threads, read_sources};
pub use sources::Sources;
