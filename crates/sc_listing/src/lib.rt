//! Listings of a folder whose checkers have all ended: its finished graph, and the answers that its checkers took.
//!
//! `graph_text` lists the imports of each file and the supertypes and members of each type, `answers_text` the questions of
//! each checker with their answers. Both are read off the layout, the names, the paths, and the graph or the log of a run;
//! no rule is known here.
#![tactic(auto)]

mod answer_lines;
mod answering;
mod by_unit;
mod edges;
mod heard;
pub mod laws;
mod listed;
mod listing;
mod members;
mod questions;
mod titles;
mod words;

pub use answering::answers_text;
pub use listed::Listed;
pub use listing::graph_text;
