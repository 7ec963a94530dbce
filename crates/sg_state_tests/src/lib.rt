//! Tests of `sg_state`. They stand beside it, so that it is not proved once more with them.
#![tactic(auto)]

#[cfg(test)]
mod scripts;
#[cfg(test)]
mod tests;
