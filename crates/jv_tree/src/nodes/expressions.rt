//! Types, variables and expressions.

ghost use Rattle.std.specs.Prelude.{◌≡◌, List, IfOk};
ghost use Rattle.std.specs.Option.{option_map};
ghost use Rattle.jv_tree.specs.TypeTree.{ids_of, base_tree, type_tree};
ghost use Rattle.jv_tree.specs.ExprTree as e;
ghost use Rattle.jv_tree.specs.ExprTree.{expr_tree, expr_trees, init_tree, init_trees, link_trees, operand_tree, target_tree};
ghost use Rattle.jv_tree.specs.StmtTree.{var_tree};

use crate::expression::{Expr, ExprKind, Init, Operand, Target};
use crate::name::{Ident, Name};
use crate::type_ref::{Base, TypeRef, Var};
use std::alloc::{AllocError, Global};

/// A type.
pub fn type_ref(at: u32, base: Base, dims: u8) -> TypeRef
    ensures { type_tree result ≡ record { at = at; base = base_tree base; dims = dims } }
{
    TypeRef { at, base, dims }
}

/// A variable.
pub fn variable(name: Ident, init: Option<Init>) -> Var
    ensures { var_tree result ≡ record { name = name; init = option_map init_tree init } }
{
    Var { name, init }
}

/// A literal of type `int`.
pub fn int_literal(at: u32) -> Expr
    ensures { expr_tree result ≡ e.expr at e.int }
{
    Expr {
        at,
        kind: ExprKind::Int,
    }
}

/// A literal of type `long`.
pub fn long_literal(at: u32) -> Expr
    ensures { expr_tree result ≡ e.expr at e.long }
{
    Expr {
        at,
        kind: ExprKind::Long,
    }
}

/// A character literal.
pub fn char_literal(at: u32) -> Expr
    ensures { expr_tree result ≡ e.expr at e.char }
{
    Expr {
        at,
        kind: ExprKind::Char,
    }
}

/// A string literal.
pub fn string_literal(at: u32) -> Expr
    ensures { expr_tree result ≡ e.expr at e.str }
{
    Expr {
        at,
        kind: ExprKind::Str,
    }
}

/// `true` or `false`, by its value.
pub fn bool_literal(at: u32, value: bool) -> Expr
    ensures { expr_tree result ≡ e.expr at (e.bool value) }
{
    Expr {
        at,
        kind: ExprKind::Bool(value),
    }
}

/// `null`.
pub fn null_literal(at: u32) -> Expr
    ensures { expr_tree result ≡ e.expr at e.null }
{
    Expr {
        at,
        kind: ExprKind::Null,
    }
}

/// `this`.
pub fn this(at: u32) -> Expr
    ensures { expr_tree result ≡ e.expr at e.this }
{
    Expr {
        at,
        kind: ExprKind::This,
    }
}

/// A name.
pub fn name_expression(at: u32, name: Name) -> Expr
    ensures { expr_tree result ≡ e.expr at (e.name (ids_of name)) }
{
    Expr {
        at,
        kind: ExprKind::Name(name),
    }
}

/// A field of what an expression gives.
pub fn field(alloc: Global, at: u32, object: Expr, name: Ident) -> Result<Expr, AllocError>
    ensures { IfOk result (λ x. expr_tree x ≡ e.expr at (e.field (expr_tree object) name)) }
{
    let object = Box::new(alloc, object)?;
    Ok(Expr {
        at,
        kind: ExprKind::Field(object, name),
    })
}

/// A field of `super`.
pub fn super_field(at: u32, name: Ident) -> Expr
    ensures { expr_tree result ≡ e.expr at (e.super_field name) }
{
    Expr {
        at,
        kind: ExprKind::SuperField(name),
    }
}

/// A call that names its method alone.
pub fn bare() -> Target
    ensures { target_tree result ≡ e.bare }
{
    Target::Bare
}

/// A call on what an expression gives.
pub fn on(alloc: Global, object: Expr) -> Result<Target, AllocError>
    ensures { IfOk result (λ t. target_tree t ≡ e.on (expr_tree object)) }
{
    Ok(Target::On(Box::new(alloc, object)?))
}

/// A call on `super`.
pub fn super_target() -> Target
    ensures { target_tree result ≡ e.super }
{
    Target::Super
}

/// A call of a method.
pub fn call(at: u32, target: Target, name: Ident, arguments: Vec<Expr>) -> Expr
    ensures { expr_tree result
        ≡ e.expr at (e.call (target_tree target) name (expr_trees arguments.items)) }
{
    Expr {
        at,
        kind: ExprKind::Call(target, name, arguments),
    }
}

/// An element of an array.
pub fn index(alloc: Global, at: u32, array: Expr, place: Expr) -> Result<Expr, AllocError>
    ensures { IfOk result (λ x. expr_tree x
        ≡ e.expr at (e.index (expr_tree array) (expr_tree place))) }
{
    let array = Box::new(alloc, array)?;
    let place = Box::new(alloc, place)?;
    Ok(Expr {
        at,
        kind: ExprKind::Index(array, place),
    })
}

/// A new object.
pub fn new_object(at: u32, class: Name, arguments: Vec<Expr>) -> Expr
    ensures { expr_tree result ≡ e.expr at (e.new (ids_of class) (expr_trees arguments.items)) }
{
    Expr {
        at,
        kind: ExprKind::New(class, arguments),
    }
}

/// A new array by the sizes of its outermost dimensions.
pub fn new_array(at: u32, ty: TypeRef, sizes: Vec<Expr>) -> Expr
    ensures { expr_tree result ≡ e.expr at (e.new_array (type_tree ty) (expr_trees sizes.items)) }
{
    Expr {
        at,
        kind: ExprKind::NewArray(ty, sizes),
    }
}

/// A new array by its elements.
pub fn new_list(at: u32, ty: TypeRef, elements: Vec<Init>) -> Expr
    ensures { expr_tree result ≡ e.expr at (e.new_list (type_tree ty) (init_trees elements.items)) }
{
    Expr {
        at,
        kind: ExprKind::NewList(ty, elements),
    }
}

/// An operator in front.
pub fn prefix(
    alloc: Global,
    at: u32,
    place: u32,
    operator: u8,
    of: Expr,
) -> Result<Expr, AllocError>
    ensures { IfOk result (λ x. expr_tree x ≡ e.expr at (e.pre place operator (expr_tree of))) }
{
    let of = Box::new(alloc, of)?;
    Ok(Expr {
        at,
        kind: ExprKind::Pre(place, operator, of),
    })
}

/// An operator behind.
pub fn postfix(
    alloc: Global,
    at: u32,
    place: u32,
    operator: u8,
    of: Expr,
) -> Result<Expr, AllocError>
    ensures { IfOk result (λ x. expr_tree x ≡ e.expr at (e.post place operator (expr_tree of))) }
{
    let of = Box::new(alloc, of)?;
    Ok(Expr {
        at,
        kind: ExprKind::Post(place, operator, of),
    })
}

/// One level of left-associative operators.
pub fn chain(
    alloc: Global,
    at: u32,
    first: Expr,
    others: Vec<(u32, u8, Operand)>,
) -> Result<Expr, AllocError>
    ensures { IfOk result (λ x. expr_tree x
        ≡ e.expr at (e.chain (expr_tree first) (link_trees others.items))) }
{
    let first = Box::new(alloc, first)?;
    Ok(Expr {
        at,
        kind: ExprKind::Chain(first, others),
    })
}

/// An expression behind an operator.
pub fn operand(of: Expr) -> Operand
    ensures { operand_tree result ≡ e.operand (expr_tree of) }
{
    Operand::Expr(of)
}

/// The type behind `instanceof`.
pub fn type_operand(ty: TypeRef) -> Operand
    ensures { operand_tree result ≡ e.of_type (type_tree ty) }
{
    Operand::Of(ty)
}

/// A cast.
pub fn cast(alloc: Global, at: u32, ty: TypeRef, of: Expr) -> Result<Expr, AllocError>
    ensures { IfOk result (λ x. expr_tree x ≡ e.expr at (e.cast (type_tree ty) (expr_tree of))) }
{
    let of = Box::new(alloc, of)?;
    Ok(Expr {
        at,
        kind: ExprKind::Cast(ty, of),
    })
}

/// One of two expressions, by a condition.
pub fn conditional(
    alloc: Global,
    at: u32,
    condition: Expr,
    yes: Expr,
    no: Expr,
) -> Result<Expr, AllocError>
    ensures { IfOk result (λ x. expr_tree x
        ≡ e.expr at (e.choice (expr_tree condition) (expr_tree yes) (expr_tree no))) }
{
    let condition = Box::new(alloc, condition)?;
    let yes = Box::new(alloc, yes)?;
    let no = Box::new(alloc, no)?;
    Ok(Expr {
        at,
        kind: ExprKind::Cond(condition, yes, no),
    })
}

/// An assignment, with `=` or with an operator that ends with it.
pub fn assignment(
    alloc: Global,
    at: u32,
    place: u32,
    operator: u8,
    left: Expr,
    right: Expr,
) -> Result<Expr, AllocError>
    ensures { IfOk result (λ x. expr_tree x
        ≡ e.expr at (e.assign place operator (expr_tree left) (expr_tree right))) }
{
    let left = Box::new(alloc, left)?;
    let right = Box::new(alloc, right)?;
    Ok(Expr {
        at,
        kind: ExprKind::Assign(place, operator, left, right),
    })
}

/// An expression as an initializer.
pub fn one(of: Expr) -> Init
    ensures { init_tree result ≡ e.one (expr_tree of) }
{
    Init::One(of)
}

/// A list as an initializer.
pub fn list(at: u32, elements: Vec<Init>) -> Init
    ensures { init_tree result ≡ e.list at (init_trees elements.items) }
{
    Init::List(at, elements)
}
