//! Scope graphs: labels, scopes, paths and graphs that are finished.
//!
//! A graph has scopes, labelled edges between them, and at most one datum at a scope (Neron et al., "A Theory of
//! Name Resolution", ESOP 2015). The specifications also say what a graph that still grows may become (Van Antwerpen
//! and Visser, "Scope States", ECOOP 2021). No language is known here: data are those of an `Instance`.
#![tactic(auto)]

mod graph;
mod instance;
mod label;
mod label_set;
pub mod laws;
mod mark;
mod path;
mod path_node;
mod path_tree;
mod path_view;
mod row;
mod scope;
mod scope_set;
mod step;

pub use graph::Graph;
pub use instance::Instance;
pub use label::Label;
pub use label_set::LabelSet;
pub use mark::Mark;
pub use path::Path;
pub use path_tree::PathTree;
pub use path_view::PathView;
pub use scope::Scope;
pub use scope_set::ScopeSet;
pub use step::Step;
