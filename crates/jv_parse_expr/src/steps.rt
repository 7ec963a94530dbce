//! The `++` and `--` behind an expression (JLS 15.14.2, 15.14.3).

ghost use Rattle.std.specs.Prelude.{◌≡◌, Ok, MatchOption};
ghost use Rattle.jv_tree.specs.ExprTree.{ExprTree, expr_tree};
ghost use Rattle.jv_grammar.specs.declared.form.Form.{Form as FormOf};
ghost use Rattle.jv_grammar.specs.ExprReader.{steps_of};
ghost use Rattle.jv_parse_expr.specs.View.{Gives, StartsStep, shown, stepped};

use crate::fault::Fault;
use crate::nested::Read;
use crate::operators::is_step;
use crate::terminals::split;
use jv_grammar::{Form, Terminal};
use jv_tree::{Expr, nodes};
use std::alloc::Global;

/// The `++` or `--` that stands first with its place, and the terminals behind it.
#[tactic(auto, unfolding(jv_grammar::specs::ExprReader::steps_of))]
fn step(terminals: &[Terminal]) -> Option<(u32, u8, &[Terminal])>
    ensures { MatchOption result ((f : FormOf) (e : ExprTree) → steps_of f e terminals.now ≡ ((f, e), terminals.now))
        (λ p. StartsStep terminals.now p.0 p.1 p.2.now) }
{
    match split(terminals) {
        Some((Terminal::Punct(place, mark), after)) => {
            if is_step(mark) {
                Some((place, mark, after))
            } else {
                None
            }
        }
        _ => None,
    }
}

/// An expression with the `++` and `--` behind it.
pub fn steps<'a>(alloc: Global, form: Form, first: Expr, terminals: &'a [Terminal]) -> Read<'a>
    ensures { Gives shown result (stepped (steps_of form (expr_tree first) terminals.now)) }
{
    let mut outer = form;
    let mut inner = first;
    let mut rest = terminals;
    while let Some((place, mark, after)) = step(rest) {
        let at = inner.at;
        inner = match nodes::postfix(alloc, at, place, mark, inner) {
            Ok(whole) => whole,
            Err(fault) => return Err(Fault::from(fault)),
        };
        outer = Form::Effect;
        rest = after;
    }
    Ok((outer, inner, rest))
}
