//! What the tests of several crates share: data that are numbers, as an instance, and the scopes of openings.
#![tactic(auto)]

mod numbers;
mod scopes;

pub use numbers::Numbers;
pub use scopes::{FIRST, SECOND, THIRD, scope};
