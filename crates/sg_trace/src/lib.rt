//! What the traces of units tell of a run.
//!
//! A trace is what a unit gave and was handed. Here stands how it is tied to the run's entries and states: what the unit
//! asks, that each entry's operation came next after what its unit was handed, that what a unit was told was settled by
//! then and stays the answer, and where the edges and holds of a later state come from. All of it is definitions and laws.
#![tactic(auto)]

pub mod laws;
