//! What is nested one level deeper; `fuel` says how many levels there may be.

ghost use Rattle.std.specs.Prelude.{Ok, Err};
ghost use Rattle.jv_tree.specs.ExprTree.{init_tree};
ghost use Rattle.jv_grammar.specs.ExprReader.{below};
ghost use Rattle.jv_parse_expr.specs.View.{Gives, shown};

use crate::expressions::{conditional, expression, initializer, unary};
use crate::fault::{Fault, refused};
use jv_grammar::{Form, Terminal};
use jv_tree::{Expr, Init};
use std::alloc::Global;

/// An expression with its form and the terminals behind it.
pub type Read<'a> = Result<(Form, Expr, &'a [Terminal]), Fault>;

/// An expression.
#[cycle(parser)]
#[tactic(auto, using(crate::proofs::Faults::fails_bind), unfolding(jv_grammar::specs::ExprReader::below))]
pub fn nested_expression<'a>(alloc: Global, fuel: u32, terminals: &'a [Terminal]) -> Read<'a>
    ensures { Gives shown result ((below fuel).expr terminals.now) }
{
    if fuel == 0 {
        return Err(refused(terminals));
    }
    expression(alloc, fuel - 1, terminals)
}

/// An expression that is no assignment.
#[cycle(parser)]
#[tactic(auto, using(crate::proofs::Faults::fails_bind), unfolding(jv_grammar::specs::ExprReader::below))]
pub fn nested_conditional<'a>(alloc: Global, fuel: u32, terminals: &'a [Terminal]) -> Read<'a>
    ensures { Gives shown result ((below fuel).cond terminals.now) }
{
    if fuel == 0 {
        return Err(refused(terminals));
    }
    conditional(alloc, fuel - 1, terminals)
}

/// An operand of the operators with two operands.
#[cycle(parser)]
#[tactic(auto, using(crate::proofs::Faults::fails_bind), unfolding(jv_grammar::specs::ExprReader::below))]
pub fn nested_unary<'a>(alloc: Global, fuel: u32, terminals: &'a [Terminal]) -> Read<'a>
    ensures { Gives shown result ((below fuel).unary terminals.now) }
{
    if fuel == 0 {
        return Err(refused(terminals));
    }
    unary(alloc, fuel - 1, terminals)
}

/// An initializer.
#[cycle(parser)]
#[tactic(auto, using(crate::proofs::Faults::fails_bind), unfolding(jv_grammar::specs::ExprReader::below))]
pub fn nested_initializer<'a>(
    alloc: Global,
    fuel: u32,
    terminals: &'a [Terminal],
) -> Result<(Init, &'a [Terminal]), Fault>
    ensures { Gives (λ r. (init_tree r.0, r.1.now)) result ((below fuel).init terminals.now) }
{
    if fuel == 0 {
        return Err(refused(terminals));
    }
    initializer(alloc, fuel - 1, terminals)
}
