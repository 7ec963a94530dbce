//! The machine of runs behind a lock that is taken in turns.
//!
//! Each unit has a seat, and each of its operations is one event of the machine, applied while its seat has the turn. So
//! the log is a legal run whatever the threads do, and what a unit may do next is told by its own events alone. The threads
//! themselves are `run_threads`: units at their seats, driven by workers until none can go on.
//!
//! Once nobody holds anything of the graph, no later event changes what an ask is answered. So a seat that has seen this answers
//! the asks of its unit without a turn, and keeps these events until the unit's next turn, in which they go into the log. That
//! they come later there is legal: a settled query stays settled, with its answer, and nobody waits for who only asks.
#![tactic(auto)]

mod aside;
mod broker;
mod closing;
mod core_in_turn;
mod desk;
mod giving;
mod in_turn;
mod keeping;
mod logging;
mod seating;
mod step;
mod threads;
mod unit_seat;

pub use broker::Broker;
pub use threads::run_threads;
pub use unit_seat::UnitSeat;
