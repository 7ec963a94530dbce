//! Searches that wait for open rows and unset data.
//!
//! A search answers a query in a graph that others still add to. It passes a row only when the row is closed, and reads
//! a datum only when the datum is set or absent for good, and where it cannot go on it says exactly what it waits for
//! (Van Antwerpen and Visser, "Scope States", ECOOP 2021). What it has explored it keeps from one advance to the next.
#![tactic(auto)]

mod answering;
mod explore;
pub mod laws;
mod laying;
mod look;
mod mark;
mod needs;
mod nodes;
mod outcome;
mod progress;
mod run;
mod search;
mod spent;
mod tree;
mod work;

pub use progress::Progress;
pub use search::Search;
