//! One unit, driven at any desk.
//!
//! A `Running` is a unit at its seat, which one worker has in hand at a time. Each `step` is one operation of it at the
//! desk, and adds one entry to those of its seat. Whatever happens between two steps, the unit stands for its entries and
//! is honest by them.
#![tactic(auto)]

mod after;
mod doing;
mod driving;
mod finishing;
mod job;
mod pool;
mod running;
mod seating;
mod site;
mod stepped;

pub use after::After;
pub use doing::Doing;
pub use pool::run_pool;
pub use running::{Running, step};
pub use seating::seat_all;
