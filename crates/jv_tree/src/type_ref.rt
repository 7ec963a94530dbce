//! Types as they are written, and variables.

use crate::expression::Init;
use crate::name::{Ident, Name};

/// A type without its brackets.
#[derive(Drop)]
pub enum Base {
    Boolean,
    Char,
    Int,
    Long,
    /// The result of a method that gives none.
    Void,
    /// A class or an interface.
    Named(Name),
}

/// A type with `dims` pairs of brackets, at most 200 (JLS 4.3); `at` is where it starts.
#[derive(Drop)]
pub struct TypeRef {
    pub at: u32,
    pub base: Base,
    pub dims: u8,
}

/// A variable of a declaration, with its initializer (JLS 8.3, 14.4).
#[derive(Drop)]
pub struct Var {
    pub name: Ident,
    pub init: Option<Init>,
}
