//! Why the supertypes that headers give are unique, whatever the order in which they are found.
//!
//! A header is a rule over the graph that it adds to. A set of types is stratified where each header is settled by the
//! supertypes of lower ranks; the greatest such set is what every header run closes, and its graph is one. All of it is
//! definitions and laws; nothing here knows what a header says.
#![tactic(auto)]

pub mod laws;
