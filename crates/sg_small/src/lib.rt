//! Readers of the headers of small programs, as scripts that units follow.
//!
//! A small program has three types. The header of each looks at the supertypes of some types, one after another, and gives
//! its own. Its reader asks what the header looks at, writes the row of the supertypes, closes it, and ends with 7.
#![tactic(auto)]

mod reader;

pub use reader::Reader;

#[cfg(test)]
mod tests;
