//! Units that follow scripts: rules over answers, which say in stages what a unit writes, and what it comes to.
//!
//! A script is a list of stages, each a rule that gives writes, and a last rule that gives what the unit comes to. A
//! follower asks the queries that these rules read, gives the writes of one stage after another, and ends. It is honest
//! for every sound script, so that a unit is made by writing rules alone.
#![tactic(auto)]

mod follower;
pub mod laws;
mod script;
mod write;
mod writes;

pub use follower::Follower;
pub use script::Script;
pub use write::Write;
pub use writes::Writes;

#[cfg(test)]
mod tests;
