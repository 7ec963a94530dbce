//! Lists of expressions and of initializers, and the sizes of a new array (JLS 10.6, 15.10, 15.12).

ghost use Rattle.std.specs.Prelude.{◌≡◌, Ok, Err, length};
ghost use Rattle.jv_tree.specs.ExprTree.{expr_trees, init_trees};
ghost use Rattle.jv_grammar.specs.ExprReader.{below, exprs_of, args_of, inits_of, list_of, sizes_of};
ghost use Rattle.jv_parse_expr.specs.View.{Gives, separator_of};

use crate::fault::{Fault, refused};
use crate::marks::{
    BRACE_CLOSE, BRACE_OPEN, BRACKET_CLOSE, BRACKET_OPEN, COMMA, PAREN_CLOSE, PAREN_OPEN,
};
use crate::nested::{nested_expression, nested_initializer};
use crate::terminals::{behind, starts, starts_pair};
use crate::types::pairs;
use jv_grammar::Terminal;
use jv_tree::{Expr, Init};
use std::alloc::Global;

/// Expressions with commas between them, at most as many as `count`.
#[cycle(parser)]
#[tactic(auto, using(crate::proofs::Faults::fails_bind))]
pub fn expressions<'a>(
    alloc: Global,
    fuel: u32,
    count: usize,
    terminals: &'a [Terminal],
) -> Result<(Vec<Expr>, &'a [Terminal]), Fault>
    ensures { Gives (λ r. (expr_trees r.0.items, r.1.now)) result (exprs_of (below fuel).expr count terminals.now) }
{
    let mut items = Vec::new(alloc);
    let mut rest = terminals;
    for _i in 0..count {
        let (_, item, after) = match nested_expression(alloc, fuel, rest) {
            Ok(read) => read,
            Err(fault) => return Err(fault),
        };
        items.push(item)?;
        let Some(next) = behind(COMMA, after) else {
            return Ok((items, after));
        };
        rest = next;
    }
    Err(refused(rest))
}

/// Arguments in parentheses.
#[cycle(parser)]
#[tactic(auto, using(crate::proofs::Faults::fails_bind), unfolding(jv_grammar::specs::ExprReader::args_of))]
pub fn arguments<'a>(
    alloc: Global,
    fuel: u32,
    terminals: &'a [Terminal],
) -> Result<(Vec<Expr>, &'a [Terminal]), Fault>
    ensures { Gives (λ r. (expr_trees r.0.items, r.1.now)) result (args_of (below fuel).expr terminals.now) }
{
    let Some(open) = behind(PAREN_OPEN, terminals) else {
        return Err(refused(terminals));
    };
    if let Some(after) = behind(PAREN_CLOSE, open) {
        return Ok((Vec::new(alloc), after));
    }
    let (items, rest) = expressions(alloc, fuel, terminals.len(), open)?;
    let Some(after) = behind(PAREN_CLOSE, rest) else {
        return Err(refused(rest));
    };
    Ok((items, after))
}

/// Whether another element stands behind an element of a list, or else its end; and the terminals behind the comma or the end.
#[tactic(auto, using(crate::proofs::Faults::fails_bind))]
fn separator(terminals: &[Terminal]) -> Result<(bool, &[Terminal]), Fault>
    ensures { Gives (λ r. (r.0, r.1.now)) result (separator_of terminals.now) }
{
    let Some(next) = behind(COMMA, terminals) else {
        let Some(end) = behind(BRACE_CLOSE, terminals) else {
            return Err(refused(terminals));
        };
        return Ok((false, end));
    };
    if let Some(end) = behind(BRACE_CLOSE, next) {
        return Ok((false, end));
    }
    Ok((true, next))
}

/// The elements of a list up to its end, at most as many as `count`.
#[cycle(parser)]
#[tactic(auto, using(crate::proofs::Faults::fails_bind))]
fn elements<'a>(
    alloc: Global,
    fuel: u32,
    count: usize,
    terminals: &'a [Terminal],
) -> Result<(Vec<Init>, &'a [Terminal]), Fault>
    ensures { Gives (λ r. (init_trees r.0.items, r.1.now)) result (inits_of (below fuel).init count terminals.now) }
{
    let mut items = Vec::new(alloc);
    let mut rest = terminals;
    for _i in 0..count {
        let (item, after) = match nested_initializer(alloc, fuel, rest) {
            Ok(read) => read,
            Err(fault) => return Err(fault),
        };
        items.push(item)?;
        let (goes_on, next) = match separator(after) {
            Ok(read) => read,
            Err(fault) => return Err(fault),
        };
        if !goes_on {
            return Ok((items, next));
        }
        rest = next;
    }
    Err(refused(rest))
}

/// The elements of a list in braces.
#[cycle(parser)]
#[tactic(auto, using(crate::proofs::Faults::fails_bind), unfolding(jv_grammar::specs::ExprReader::list_of))]
pub fn list<'a>(
    alloc: Global,
    fuel: u32,
    terminals: &'a [Terminal],
) -> Result<(Vec<Init>, &'a [Terminal]), Fault>
    ensures { Gives (λ r. (init_trees r.0.items, r.1.now)) result (list_of (below fuel).init terminals.now) }
{
    let Some(open) = behind(BRACE_OPEN, terminals) else {
        return Err(refused(terminals));
    };
    if let Some(after) = behind(BRACE_CLOSE, open) {
        return Ok((Vec::new(alloc), after));
    }
    if let Some(end) = behind(COMMA, open) {
        let Some(after) = behind(BRACE_CLOSE, end) else {
            return Err(refused(end));
        };
        return Ok((Vec::new(alloc), after));
    }
    elements(alloc, fuel, terminals.len(), open)
}

/// The sizes of a new array, and how many pairs of brackets stand behind them; there may be `room` of both.
#[cycle(parser)]
#[tactic(auto, using(crate::proofs::Faults::fails_bind))]
pub fn sizes<'a>(
    alloc: Global,
    fuel: u32,
    room: u8,
    terminals: &'a [Terminal],
) -> Result<(Vec<Expr>, u8, &'a [Terminal]), Fault>
    ensures { Gives (λ r. ((expr_trees r.0.items, r.1), r.2.now)) result (sizes_of (below fuel).expr room terminals.now) }
{
    let mut items = Vec::new(alloc);
    let mut rest = terminals;
    for i in 0..room {
        if starts_pair(rest) {
            let (dims, after) = match pairs(room - i, rest) {
                Ok(read) => read,
                Err(fault) => return Err(fault),
            };
            return Ok((items, dims, after));
        }
        let Some(open) = behind(BRACKET_OPEN, rest) else {
            return Ok((items, 0, rest));
        };
        let (_, size, after) = match nested_expression(alloc, fuel, open) {
            Ok(read) => read,
            Err(fault) => return Err(fault),
        };
        let Some(next) = behind(BRACKET_CLOSE, after) else {
            return Err(Fault::Refused(after.len()));
        };
        items.push(size)?;
        rest = next;
    }
    if starts(BRACKET_OPEN, rest) {
        return Err(Fault::Refused(rest.len()));
    }
    Ok((items, 0, rest))
}
