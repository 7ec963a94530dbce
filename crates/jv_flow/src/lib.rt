//! The flow of control through bodies: unreachable statements, and results that are not returned (JLS 8.4.7, 14.21).
//!
//! `specs/Run.antt` says what runs of a body are, `specs/Reachable.antt` which statements are reachable and which complete by
//! the rules, and `specs/Law.antt` that the rules say what the runs do. `specs/Fault.antt` says which unreachable statements are
//! faults, and `specs/FlowFaults.antt` what is wrong with a method or a constructor. It knows nothing of scopes and types.
#![tactic(auto)]

mod checking;
mod condition;
mod ends;
mod flowing;
pub mod laws;
mod outcome;
mod place_list;
mod walking;

pub use checking::{check_ctor_flow, check_flow, check_method_flow};
pub use flowing::flow;
pub use outcome::Flow;
pub use place_list::PlaceList;
