//! Units served on one thread, one step at a time: in a given order, and then the least that runs, until none can go on.
//!
//! A step advances the ask of a unit or takes its answer; a unit that asks nothing is handed the reply that waits for it,
//! and gives its next operation. Whatever the order, what comes of it is a legal run that has ended or is stuck.
#![tactic(auto)]

mod giving;
mod pushing;
mod serial;

pub use serial::run_serial;
