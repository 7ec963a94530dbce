//! Terminals of the grammar.

use jv_tree::Ident;

/// The kind of a literal (JLS 3.10).
#[derive(Clone, Copy, Debug, PartialEq, Eq)]
pub enum LiteralKind {
    /// An integer literal of type `int`.
    Int,
    /// An integer literal of type `long`.
    Long,
    /// A character literal.
    Char,
    /// A string literal.
    Str,
    /// `true` or `false`, by its value.
    Bool(bool),
    /// `null`.
    Null,
}

/// A token as the grammar sees it. Each has the offset of its first byte, from 0; an identifier has the number of its
/// text; a keyword and a mark have the numbers of `docs/JAVA-PROFILE.md`.
#[derive(Clone, Copy, Debug, PartialEq, Eq)]
pub enum Terminal {
    /// An identifier (JLS 3.8).
    Ident(Ident),
    /// A keyword that is no literal (JLS 3.9).
    Keyword(u32, u8),
    /// A literal, but a minimum literal.
    Literal(u32, LiteralKind),
    /// `2147483648`, which stands only behind `-` (JLS 3.10.1).
    Minimum(u32),
    /// `9223372036854775808L`, which stands only behind `-` (JLS 3.10.1).
    MinimumLong(u32),
    /// A separator or an operator (JLS 3.11, 3.12).
    Punct(u32, u8),
}
