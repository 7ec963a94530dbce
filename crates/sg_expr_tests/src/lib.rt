//! Tests of `sg_expr`. They stand beside it, so that it is not proved once more with them.
#![tactic(auto)]

#[cfg(test)]
mod positions_tests;
#[cfg(test)]
mod tests;
