//! Held graphs: scope graphs that units still add to.
//!
//! A row of a held graph is open while a unit holds it, and a datum is unset while a unit holds it. Only a holder adds
//! to a row or sets a datum, so what the graph may become is known at each moment (Van Antwerpen and Visser, "Scope
//! States", ECOOP 2021). No query and no order of units is known here.
#![tactic(auto)]

mod by_scope;
mod copied;
mod datum_state;
mod freed;
mod held;
pub mod laws;
mod lists;
mod need;
mod opened;
mod opening;
mod part;
mod parts;
mod place;
mod places;
mod row;
mod rows;
mod scope_index;
mod scope_list;
mod scope_parts;
mod slot;
mod sound;
mod unit_set;

pub use datum_state::DatumState;
pub use held::Held;
pub use need::Need;
pub use opening::Opening;
