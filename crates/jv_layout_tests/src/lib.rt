//! Tests of `jv_layout`. They stand beside it, so that it is not proved once more with them.
#![tactic(auto)]

#[cfg(test)]
mod small_folder;
#[cfg(test)]
mod tests;
