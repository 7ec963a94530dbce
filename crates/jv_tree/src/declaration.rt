//! Declarations (JLS 7 to 9).

use crate::expression::Expr;
use crate::name::{Ident, Name};
use crate::statement::Stmt;
use crate::type_ref::{TypeRef, Var};

/// The modifiers as they are written, by the numbers of their keywords.
#[derive(Drop)]
pub struct Mods {
    pub words: Vec<u8>,
}

/// A file (JLS 7.3).
#[derive(Drop)]
pub struct Unit {
    pub package: Option<Name>,
    pub imports: Vec<Import>,
    pub types: Vec<TypeDecl>,
}

/// An import; `all` says that it is on demand, by `.*` (JLS 7.5), and `is_static` that `static` stands behind its word
/// (JLS 7.5.3, 7.5.4).
#[derive(Drop)]
pub struct Import {
    pub name: Name,
    pub all: bool,
    pub is_static: bool,
}

/// A class or an interface (JLS 8.1, 9.1).
#[derive(Drop)]
#[cycle(decl)]
pub struct TypeDecl {
    pub name: Ident,
    pub mods: Mods,
    pub interface: bool,
    pub extends: Vec<Name>,
    pub implements: Vec<Name>,
    pub members: Vec<Member>,
}

/// A member of a class or an interface.
#[derive(Drop)]
#[cycle(decl)]
pub enum Member {
    Nested(TypeDecl),
    Field(Mods, TypeRef, Vec<Var>),
    Method(Method),
    Ctor(Ctor),
}

/// A parameter (JLS 8.4.1).
#[derive(Drop)]
pub struct Param {
    pub is_final: bool,
    pub ty: TypeRef,
    pub name: Ident,
}

/// A method (JLS 8.4); one that ends with `;` has no body.
#[derive(Drop)]
pub struct Method {
    pub mods: Mods,
    pub result: TypeRef,
    pub name: Ident,
    pub params: Vec<Param>,
    pub body: Option<Vec<Stmt>>,
}

/// A constructor (JLS 8.8); `call` is the offset of the `super` that its body begins with, and the arguments there.
#[derive(Drop)]
pub struct Ctor {
    pub mods: Mods,
    pub name: Ident,
    pub params: Vec<Param>,
    pub call: Option<(u32, Vec<Expr>)>,
    pub body: Vec<Stmt>,
}
