//! Tests of `jv_unit`. They stand beside it, so that it is not proved once more with them.
#![tactic(auto)]

#[cfg(test)]
mod tests;
