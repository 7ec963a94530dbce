//! Tests of `sg_turn`. They stand beside it, so that it is not proved once more with them.
#![tactic(auto)]

pub mod tally;
#[cfg(test)]
mod tests;
