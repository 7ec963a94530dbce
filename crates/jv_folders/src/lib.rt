//! What the rules of imports, static ones too, headers and dependence ask in a folder of sources, and what they come to by replies that are made up.
//!
//! All of it is tests. They stand below the crate that checks folders, so that they are proved without it.
#![tactic(auto)]

#[cfg(test)]
mod header_tests;
#[cfg(test)]
mod sources;
#[cfg(test)]
mod static_tests;
