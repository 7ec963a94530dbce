//! A lock that is taken in turns, and whose value carries its history.
//!
//! A thread comes to it with a seat. Between two turns of a seat the history only grows, and what it has of the
//! seat is what the seat added, in its order. Once all seats are back, the value's history is theirs together.
//! It is the one place where threads meet: all else is said of plain values.
#![tactic(auto)]

mod dealing;
mod gathering;
mod giving;
mod in_turn;
pub mod laws;
mod sleeping;
mod stage;
mod steps;
mod storied;
mod taking;
mod turn;
mod turn_seat;
mod view;

pub use storied::Storied;
pub use turn::Turn;
pub use turn_seat::TurnSeat;
