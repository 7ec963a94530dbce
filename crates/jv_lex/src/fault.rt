//! Why a source has no tokens.

use thiserror::Error;

/// The first place at which a source is wrong, as a byte offset from 0, or want of memory.
#[derive(Debug, Drop, PartialEq, Eq, Error)]
pub enum LexFault {
    /// The bytes are not UTF-8; `at` is the length of their longest front that is.
    #[error("not UTF-8 at byte {at}")]
    NotUtf8 { at: u32 },
    /// No token begins here, or a comment that has no end.
    #[error("bad token at byte {at}")]
    BadToken { at: u32 },
    /// What begins here as a number, a character or a string is none.
    #[error("bad literal at byte {at}")]
    BadLiteral { at: u32 },
    /// No memory was left.
    #[error("out of memory")]
    OutOfMemory,
}
