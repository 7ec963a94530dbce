//! The table of waiting units: which units are live, and what those that wait need.
//!
//! A unit waits for rows that are open or data that are unset. Where some of these go, the units that wait for one of
//! them are told by a look-up, and no other unit is looked at. Where each live unit waits, the table shows who waits for
//! whom (Van Antwerpen and Visser, "Scope States", ECOOP 2021). No graph and no query is known here.
#![tactic(auto)]

mod blocks;
mod holders;
mod listing;
mod listings;
mod need_list;
mod shown;
mod status;
mod units;
mod waits;
mod woken;

pub use shown::{Shown, ShownItem, ShownItems};
pub use waits::Waits;
pub use woken::Woken;
