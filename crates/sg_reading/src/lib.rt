//! Rules that look at something only by asking queries, and what they come to over the replies so far.
//!
//! A rule is a reading: it ends with a value, or it asks a query and goes on with the answer. One definition serves
//! every set of answers, those of a finished graph, of a state that still grows, and of the replies that a checker
//! was given, so one law says for all rules that sets which answer alike give alike.
#![tactic(auto)]

mod answers;
pub mod example;
mod known;
pub mod laws;
mod replies;
mod stop;

pub use answers::Answers;
pub use known::Known;
pub use replies::Replies;
pub use stop::Stop;
