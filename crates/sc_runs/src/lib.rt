//! Whole runs over folders in memory, by the top call: orders of steps, workers at once, and trees and sinks that fail.
//!
//! All of it is tests. They stand above the crate of the top call, so that this is not proved again with them.
#![tactic(auto)]

#[cfg(test)]
mod folders;
#[cfg(test)]
mod order_tests;
#[cfg(test)]
mod outcome_tests;
#[cfg(test)]
mod project_tests;
#[cfg(test)]
mod tables;
#[cfg(test)]
mod tests;
#[cfg(test)]
mod thread_tests;
