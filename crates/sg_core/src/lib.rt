//! The machine of runs: it applies one operation of one unit at a time, answers it, and logs both.
//!
//! All that it does is said of its log alone: the log is a legal run (`sg_unit`), and each call adds one legal entry. Any
//! order in which units are served gives some such run, so what is proved of runs holds for every order.
//!
//! What the run holds is shared once nobody holds anything of it (`Core::share`). Whoever has it may search there beside the
//! machine, and hand in what came of it: a search that is begun (`apply_with`), or whole events that were kept (`apply_kept`).
#![tactic(auto)]

mod advancing;
mod ahead;
mod apply;
mod ask;
mod ask_state;
mod asking;
mod begun;
mod behind;
mod ending;
mod found_ask;
mod handing;
mod holding;
mod idle;
mod keep;
mod kept;
pub mod laws;
mod machine;
mod may;
mod open;
mod phase;
mod reading;
mod reading_asks;
mod searching;
mod shared_kinds;
mod showing;
mod sight;
mod taking_back;
mod watch;
mod woken;
mod writing;

pub use ahead::{Ahead, search_ahead};
pub use ask_state::AskState;
pub use found_ask::FoundAsk;
pub use kept::Kept;
pub use machine::Core;
pub use phase::Phase;
pub use sight::Sight;
