//! Workers that take tasks from deques, and a board under a lock for the tasks that wait.
//!
//! A task is at one worker at a time, or stands in a deque, or lies at its place on the board. The rules of the lock and of the
//! deques weigh the tasks: what lies there is what was given there and not taken. So whatever the workers do, each task is
//! somewhere, once, and all of them are back in their order when the workers are done.
#![tactic(auto)]

mod board;
mod closing;
mod dealing;
mod hand;
mod lock;
mod owner;
mod place;
mod places;
mod progress;
mod share;
mod task;
mod thief;
mod waiting;
mod worker_view;
mod workers;

pub use progress::Progress;
pub use task::Task;
pub use workers::run;
