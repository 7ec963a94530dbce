//! Identifiers and names.

use crate::names::NameId;

/// An identifier: the offset at which it starts, and its number.
#[derive(Clone, Copy, Debug, PartialEq, Eq)]
pub struct Ident {
    pub at: u32,
    pub id: NameId,
}

/// Identifiers joined by dots, at least one (JLS 6.2).
#[derive(Drop)]
pub struct Name {
    pub ids: Vec<Ident>,
}
