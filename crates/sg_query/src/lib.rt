//! Queries in scope graphs and their answers.
//!
//! A query follows the words of a path expression from a scope, and answers with the visible paths: those to a wanted
//! datum that no more specific path to the same datum shadows (Neron et al., "A Theory of Name Resolution", ESOP 2015).
//! The plain resolver here is slow and simple: its contract is the definition.
#![tactic(auto)]

mod answer;
mod found;
mod found_at;
mod found_paths;
mod found_tree;
mod found_view;
mod going;
mod kind;
mod kind_table;
mod laid_out;
pub mod laws;
mod most_paths;
mod plain;
mod query;
mod shadow;
mod steps;
mod walk;

pub use answer::Answer;
pub use found::Found;
pub use found_at::FoundAt;
pub use found_paths::FoundPaths;
pub use found_tree::FoundTree;
pub use found_view::FoundView;
pub use kind::Kind;
pub use kind_table::KindTable;
pub use most_paths::MOST_PATHS;
pub use plain::ans_plain;
pub use query::{Query, copy_query};
pub use shadow::visible_of;
