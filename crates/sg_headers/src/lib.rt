//! Every run of units that read headers and imports in order finds the greatest stratified set.
//!
//! What makes a unit orderly is a condition on its own trace, which it owes call by call. Where all units are orderly, the
//! rows that are closed when the run is over are the greatest stratified set of the program, whatever the order of steps,
//! and who still waits, waits for the first open query of its header. All of it is definitions and laws.
#![tactic(auto)]

pub mod laws;
