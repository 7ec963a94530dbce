//! Parameters of methods and constructors (JLS 8.4.1).

ghost use Rattle.std.specs.Prelude.{◌≡◌, Ok, Err, length, map};
ghost use Rattle.jv_tree.specs.DeclTree.{param_tree};
ghost use Rattle.jv_grammar.specs.DeclReader.{named_of, param_of, some_params_of, params_of};
ghost use Rattle.jv_parse_expr.specs.View.{Gives};

use crate::declarations::first_words::ident;
use jv_grammar::Terminal;
use jv_parse_expr::fault::{Fault, refused};
use jv_parse_expr::marks::{COMMA, PAREN_CLOSE, PAREN_OPEN, WORD_FINAL};
use jv_parse_expr::terminals::{behind, behind_word};
use jv_parse_expr::types::ty;
use jv_tree::{Param, nodes};
use std::alloc::Global;

/// A parameter behind its `final`, or without one.
#[tactic(auto, using(jv_parse_expr::proofs::Faults::fails_bind))]
fn named<'a>(
    alloc: Global,
    is_final: bool,
    terminals: &'a [Terminal],
) -> Result<(Param, &'a [Terminal]), Fault>
    ensures { Gives (λ r. (param_tree r.0, r.1.now)) result (named_of is_final terminals.now) }
{
    let (ty, rest) = ty(alloc, terminals)?;
    let (name, after) = ident(rest)?;
    Ok((nodes::parameter(is_final, ty, name), after))
}

/// A parameter.
#[tactic(auto, using(jv_parse_expr::proofs::Faults::fails_bind), unfolding(jv_grammar::specs::DeclReader::param_of))]
fn parameter<'a>(alloc: Global, terminals: &'a [Terminal]) -> Result<(Param, &'a [Terminal]), Fault>
    ensures { Gives (λ r. (param_tree r.0, r.1.now)) result (param_of terminals.now) }
{
    match behind_word(WORD_FINAL, terminals) {
        Some(after) => named(alloc, true, after),
        None => named(alloc, false, terminals),
    }
}

/// Parameters with commas between them, at most as many as `count`.
#[tactic(auto, using(jv_parse_expr::proofs::Faults::fails_bind))]
fn some_parameters<'a>(
    alloc: Global,
    count: usize,
    terminals: &'a [Terminal],
) -> Result<(Vec<Param>, &'a [Terminal]), Fault>
    ensures { Gives (λ r. (map param_tree r.0.items, r.1.now)) result (some_params_of count terminals.now) }
{
    let mut items = Vec::new(alloc);
    let mut rest = terminals;
    for _i in 0..count {
        let (item, after) = match parameter(alloc, rest) {
            Ok(read) => read,
            Err(fault) => return Err(fault),
        };
        items.push(item)?;
        let Some(next) = behind(COMMA, after) else {
            return Ok((items, after));
        };
        rest = next;
    }
    Err(refused(rest))
}

/// Parameters in parentheses.
#[tactic(auto, using(jv_parse_expr::proofs::Faults::fails_bind), unfolding(jv_grammar::specs::DeclReader::params_of))]
pub(crate) fn parameters<'a>(
    alloc: Global,
    terminals: &'a [Terminal],
) -> Result<(Vec<Param>, &'a [Terminal]), Fault>
    ensures { Gives (λ r. (map param_tree r.0.items, r.1.now)) result (params_of terminals.now) }
{
    let Some(open) = behind(PAREN_OPEN, terminals) else {
        return Err(refused(terminals));
    };
    if let Some(after) = behind(PAREN_CLOSE, open) {
        return Ok((Vec::new(alloc), after));
    }
    let (items, rest) = some_parameters(alloc, terminals.len(), open)?;
    let Some(after) = behind(PAREN_CLOSE, rest) else {
        return Err(refused(rest));
    };
    Ok((items, after))
}
