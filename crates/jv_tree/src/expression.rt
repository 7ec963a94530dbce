//! Expressions (JLS 15).
//!
//! An `at` is where the first token of a part starts; an expression in parentheses has the `at` of its outermost
//! opening parenthesis. A `u32` beside an operator is where the operator starts. An operator is the number of its
//! punctuation mark, or 153 for `instanceof`, which is its keyword's number plus 128.

use crate::name::{Ident, Name};
use crate::type_ref::TypeRef;

/// An initializer: an expression, or a list whose `{` starts at the offset (JLS 10.6).
#[derive(Drop)]
#[cycle(expr)]
pub enum Init {
    One(Expr),
    List(u32, Vec<Init>),
}

/// An expression.
#[derive(Drop)]
#[cycle(expr)]
pub struct Expr {
    pub at: u32,
    pub kind: ExprKind,
}

/// What an expression is. To let it go takes no more stack where a field, a call or an index stands behind it.
#[cycle(expr)]
pub enum ExprKind {
    Int,
    Long,
    Char,
    Str,
    Bool(bool),
    Null,
    This,
    Name(Name),
    Field(Box<Expr>, Ident),
    SuperField(Ident),
    Call(Target, Ident, Vec<Expr>),
    Index(Box<Expr>, Box<Expr>),
    New(Name, Vec<Expr>),
    /// A type and the sizes of its outermost dimensions, which are not among the brackets of the type.
    NewArray(TypeRef, Vec<Expr>),
    NewList(TypeRef, Vec<Init>),
    Pre(u32, u8, Box<Expr>),
    Post(u32, u8, Box<Expr>),
    /// One level of left-associative operators.
    Chain(Box<Expr>, Vec<(u32, u8, Operand)>),
    Cast(TypeRef, Box<Expr>),
    Cond(Box<Expr>, Box<Expr>, Box<Expr>),
    Assign(u32, u8, Box<Expr>, Box<Expr>),
}

/// What stands in front of the name of a method.
#[derive(Drop)]
#[cycle(expr)]
pub enum Target {
    Bare,
    On(Box<Expr>),
    Super,
}

/// What stands behind an operator of a chain: an expression, or the type behind `instanceof`.
#[derive(Drop)]
#[cycle(expr)]
pub enum Operand {
    Expr(Expr),
    Of(TypeRef),
}

/// Fields, calls and indexes nest as deep as a source is long, so what they stand behind is let go in a loop.
impl Drop for ExprKind {
    #[cycle(release)]
    fn drop(mut self) {
        loop {
            match self {
                ExprKind::Field(object, _) => self = Box::into_inner(object).kind,
                ExprKind::Index(array, _) => self = Box::into_inner(array).kind,
                ExprKind::Call(target, _, _) => match target {
                    Target::On(object) => self = Box::into_inner(object).kind,
                    Target::Bare | Target::Super => return,
                },
                ExprKind::Int
                | ExprKind::Long
                | ExprKind::Char
                | ExprKind::Str
                | ExprKind::Bool(_)
                | ExprKind::Null
                | ExprKind::This
                | ExprKind::SuperField(_) => return,
                ExprKind::Name(_) => return,
                ExprKind::New(_, _) => return,
                ExprKind::NewArray(_, _) => return,
                ExprKind::NewList(_, _) => return,
                ExprKind::Pre(_, _, _) => return,
                ExprKind::Post(_, _, _) => return,
                ExprKind::Chain(_, _) => return,
                ExprKind::Cast(_, _) => return,
                ExprKind::Cond(_, _, _) => return,
                ExprKind::Assign(_, _, _, _) => return,
            }
        }
    }
}
