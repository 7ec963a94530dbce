//! Tokens.

/// What a token is.
///
/// The number of a keyword is its place in the list `abstract assert boolean .. while true false null` (JLS 3.9,
/// without `_`, and with the three words of JLS 3.10), that of a punctuation mark its place in the list
/// `( ) { } [ ] ; , . ... @ :: = > .. >>>=` (JLS 3.11, 3.12), both from 0.
#[derive(Clone, Copy, Debug, PartialEq, Eq)]
pub enum TokenKind {
    /// An identifier (JLS 3.8).
    Ident,
    /// A keyword, `true`, `false` or `null`.
    Keyword(u8),
    /// A literal of type `int` (JLS 3.10.1).
    Int,
    /// A literal of type `long`.
    Long,
    /// `2147483648`, which stands only behind `-`.
    Minimum,
    /// `9223372036854775808L`, which stands only behind `-`.
    MinimumLong,
    /// A character literal (JLS 3.10.4).
    Char,
    /// A string literal (JLS 3.10.5).
    Str,
    /// A separator or an operator.
    Punct(u8),
}

/// A token and the bytes that it takes: from the offset `start` up to the offset `end`, from 0.
#[derive(Clone, Copy, Debug, PartialEq, Eq)]
pub struct Token {
    pub kind: TokenKind,
    pub start: u32,
    pub end: u32,
}
