//! Units, their operations, and the runs that operations make.
//!
//! A run is a list of entries from an opening, and its legality is one relation per entry: the condition of the operation
//! and its reply. The specifications say what a run holds, which units wait and whom they wait for, what a unit can tell
//! of a run by its own entries, and what an honest unit gives. No code here applies an operation.
#![tactic(auto)]

mod desk;
mod entry;
mod gate;
pub mod laws;
mod op;
mod reply;
mod seat;
mod unit;
mod woken;

pub use desk::Desk;
pub use entry::Entry;
pub use gate::{Gate, NoGate};
pub use op::Op;
pub use reply::Reply;
pub use seat::Seat;
pub use unit::Unit;
pub use woken::Woken;

#[cfg(test)]
mod tests;
