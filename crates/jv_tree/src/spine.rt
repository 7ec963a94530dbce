//! The way from what stands innermost in an expression to the whole.

ghost use Rattle.std.specs.Prelude.{◌≡◌, map, IfOk};
ghost use Rattle.jv_tree.specs.ExprTree.{expr_tree};
ghost use Rattle.jv_tree.specs.Spine.{IsHead, outward, step_tree};

use crate::expression::{Expr, ExprKind, Target};
use crate::name::Ident;
use std::alloc::{AllocError, Global};

/// The expression that stands innermost, and the steps from it to the whole, the innermost first.
#[derive(Drop)]
pub struct Spine<'a> {
    pub head: &'a Expr,
    pub steps: Vec<Step<'a>>,
}

/// A step from an expression to one that goes on from it, and where that one starts, in bytes from 0.
#[derive(Drop)]
pub struct Step<'a> {
    pub at: u32,
    pub kind: StepKind<'a>,
}

/// What goes on from an expression: a field, a call with its arguments, or an index.
#[derive(Drop)]
pub enum StepKind<'a> {
    Field(Ident),
    Call(Ident, &'a [Expr]),
    Index(&'a Expr),
}

impl Expr {
    /// The spine of the expression: its head, which is no field, no index and no call on an expression, and the fields,
    /// calls and indexes behind it (JLS 15.10.3, 15.11, 15.12).
    ///
    /// A spine is as long as a source; all else nests no deeper than the load of the source allows. So whoever walks a
    /// tree goes along the spine in a loop, and calls itself only for the head's parts, arguments and indexes. It takes
    /// time and memory in the number of steps.
    pub fn spine(&self, alloc: Global) -> Result<Spine<'_>, AllocError>
        ensures head { IfOk result (λ s. IsHead (expr_tree s.head.now)) }
        ensures whole { IfOk result (λ s. outward (expr_tree s.head.now) (map step_tree s.steps.items) ≡ expr_tree self.now) }
    {
        let mut head = self;
        let mut steps = Vec::new(alloc);
        loop {
            match &head.kind {
                ExprKind::Field(object, name) => {
                    let kind = StepKind::Field(*name);
                    steps.push(Step { at: head.at, kind })?;
                    head = object;
                }
                ExprKind::Call(target, name, arguments) => match target {
                    Target::On(object) => {
                        let kind = StepKind::Call(*name, arguments);
                        steps.push(Step { at: head.at, kind })?;
                        head = object;
                    }
                    Target::Bare | Target::Super => break,
                },
                ExprKind::Index(array, place) => {
                    let kind = StepKind::Index(place);
                    steps.push(Step { at: head.at, kind })?;
                    head = array;
                }
                _ => break,
            }
        }
        steps.reverse();
        Ok(Spine { head, steps })
    }
}
