//! Orders of labels and of the end of a path, and the specificity order of paths that they give.
//!
//! Of two paths that part after a common prefix, the one whose next label (or whose end) comes first in the order is
//! the more specific (Neron et al., "A Theory of Name Resolution", ESOP 2015).
#![tactic(auto)]

pub mod laws;
mod not_strict;
mod order;
mod place_before;
mod relation;

pub use not_strict::NotStrict;
pub use order::Order;

#[cfg(test)]
mod tests;
