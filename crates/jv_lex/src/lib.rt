//! The tokens of a Java source (JLS 3): bytes in, the list of tokens out, each the longest that is possible.
//!
//! `lex` gives the tokens of a source or its first bad place, and `place` the line and the column of a byte.
//! Blanks and comments leave no token. What a source, a token and a bad place are stands in `specs/`, and
//! `laws` holds what these definitions imply. It knows nothing of trees, names and grammar.
#![tactic(auto)]

mod characters;
mod fault;
mod gaps;
pub mod laws;
mod line_column;
mod numbers;
mod places;
mod punctuation;
mod quotes;
mod scanner;
mod token;
mod words;

pub use fault::LexFault;
pub use line_column::Place;
pub use places::place;
pub use scanner::lex;
pub use token::{Token, TokenKind};
