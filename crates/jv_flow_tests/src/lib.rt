//! Tests of `jv_flow`. They stand beside it, so that it is not proved once more with them.
#![tactic(auto)]

#[cfg(test)]
mod build;
#[cfg(test)]
mod tests;
