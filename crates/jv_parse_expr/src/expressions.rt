//! Expressions and initializers (JLS 10.6, 15.14 to 15.26).

ghost use Rattle.std.specs.Prelude.{◌≡◌, ◌+◌, ◌<◌, ◌≤◌, drop, length, Ok, Err, IfOk, MatchOption};
ghost use Rattle.std.specs.Option.{option_map};
ghost use Rattle.jv_tree.specs.ExprTree.{ExprTree, expr_tree, init_tree, link_trees};
ghost use Rattle.jv_tree.specs.Shaped.{levels};
ghost use Rattle.jv_grammar.specs.declared.form.Form.{Form as FormOf};
ghost use Rattle.jv_grammar.specs.ExprReader.{below, post_of, cast_of, signed_of, unary_of, links_of, bin_of, chained, cond_of, expr_of, init_of};
ghost use Rattle.jv_parse_expr.specs.View.{Gives, shown, link_of, link_tree, level_at, tighter_than};

use crate::fault::{Fault, refused};
use crate::lists::list;
use crate::marks::{
    BRACE_OPEN, COLON, INSTANCE_OF, MINUS_SIGN, PAREN_CLOSE, PAREN_OPEN, QUESTION_MARK,
    WORD_INSTANCEOF,
};
use crate::nested::{Read, nested_conditional, nested_expression, nested_unary};
use crate::operators::{has_instanceof, is_assignment, is_operator, is_sign, is_step, level_ahead};
use crate::primaries::primary;
use crate::steps::steps;
use crate::terminals::{begins_plain, behind, split};
use crate::types::{cast_ahead, is_bare, reference, ty};
use jv_grammar::{Form, Terminal};
use jv_tree::{Expr, Init, Operand, nodes};
use std::alloc::{AllocError, Global};

/// A primary with the `++` and `--` behind it.
#[cycle(parser)]
#[tactic(auto, using(crate::proofs::Faults::fails_bind), unfolding(jv_grammar::specs::ExprReader::post_of))]
fn postfix<'a>(alloc: Global, fuel: u32, terminals: &'a [Terminal]) -> Read<'a>
    ensures { Gives shown result (post_of (below fuel) terminals.now) }
{
    let (form, first, after) = primary(alloc, fuel, terminals)?;
    steps(alloc, form, first, after)
}

/// A cast behind its `(`, which is at `at`.
#[cycle(parser)]
#[tactic(auto, using(crate::proofs::Faults::fails_bind), unfolding(jv_grammar::specs::ExprReader::cast_of))]
fn cast<'a>(alloc: Global, fuel: u32, at: u32, terminals: &'a [Terminal]) -> Read<'a>
    ensures { Gives shown result (cast_of (below fuel) at terminals.now) }
{
    let (ty, rest) = ty(alloc, terminals)?;
    let Some(after) = behind(PAREN_CLOSE, rest) else {
        return Err(refused(rest));
    };
    if !is_bare(&ty) && !begins_plain(after) {
        return Err(refused(after));
    }
    let (_, of, after) = nested_unary(alloc, fuel, after)?;
    Ok((Form::Other, nodes::cast(alloc, at, ty, of)?, after))
}

/// What a sign at `at` stands in front of.
#[cycle(parser)]
#[tactic(auto, using(crate::proofs::Faults::fails_bind), unfolding(jv_grammar::specs::ExprReader::signed_of))]
fn signed<'a>(alloc: Global, fuel: u32, at: u32, sign: u8, terminals: &'a [Terminal]) -> Read<'a>
    ensures { Gives shown result (signed_of (below fuel) at sign terminals.now) }
{
    match split(terminals) {
        Some((Terminal::Minimum(place), after)) => {
            if sign != MINUS_SIGN {
                return Err(refused(terminals));
            }
            let of = nodes::int_literal(place);
            Ok((Form::Other, nodes::prefix(alloc, at, at, sign, of)?, after))
        }
        Some((Terminal::MinimumLong(place), after)) => {
            if sign != MINUS_SIGN {
                return Err(refused(terminals));
            }
            let of = nodes::long_literal(place);
            Ok((Form::Other, nodes::prefix(alloc, at, at, sign, of)?, after))
        }
        _ => {
            let (_, of, after) = nested_unary(alloc, fuel, terminals)?;
            Ok((Form::Other, nodes::prefix(alloc, at, at, sign, of)?, after))
        }
    }
}

/// An operand of the operators with two operands.
#[cycle(parser)]
#[tactic(auto, using(crate::proofs::Faults::fails_bind), unfolding(jv_grammar::specs::ExprReader::unary_of))]
pub fn unary<'a>(alloc: Global, fuel: u32, terminals: &'a [Terminal]) -> Read<'a>
    ensures { Gives shown result (unary_of (below fuel) terminals.now) }
{
    match split(terminals) {
        Some((Terminal::Punct(at, mark), after)) => {
            if is_step(mark) {
                let (_, of, after) = nested_unary(alloc, fuel, after)?;
                return Ok((Form::Effect, nodes::prefix(alloc, at, at, mark, of)?, after));
            }
            if is_sign(mark) {
                return signed(alloc, fuel, at, mark, after);
            }
            if mark == PAREN_OPEN && cast_ahead(after) {
                return cast(alloc, fuel, at, after);
            }
            postfix(alloc, fuel, terminals)
        }
        _ => postfix(alloc, fuel, terminals),
    }
}

/// An operator of the level with what stands behind it, if one stands first.
#[cycle(parser)]
#[tactic(auto, using(crate::proofs::Faults::fails_bind))]
fn link<'a>(
    alloc: Global,
    fuel: u32,
    level: u8,
    terminals: &'a [Terminal],
) -> Result<(Option<(u32, u8, Operand)>, &'a [Terminal]), Fault>
    requires { level < 10 }
    ensures { Gives (λ r. (option_map link_tree r.0, r.1.now)) result
        (link_of (bin_of (below fuel) (tighter_than level)) (level_at level) terminals.now) }
{
    match split(terminals) {
        Some((Terminal::Punct(place, mark), behind)) => {
            if !is_operator(level, mark) {
                return Ok((None, terminals));
            }
            let (_, of, after) = binary(alloc, fuel, level + 1, behind)?;
            Ok((Some((place, mark, nodes::operand(of))), after))
        }
        Some((Terminal::Keyword(place, word), behind)) => {
            if word != WORD_INSTANCEOF || !has_instanceof(level) {
                return Ok((None, terminals));
            }
            let (ty, after) = reference(alloc, behind)?;
            Ok((Some((place, INSTANCE_OF, nodes::type_operand(ty))), after))
        }
        _ => Ok((None, terminals)),
    }
}

/// The operators of the level, each with what stands behind it, fewer than `count`.
#[cycle(parser)]
#[tactic(auto, using(crate::proofs::Faults::fails_bind))]
fn links<'a>(
    alloc: Global,
    fuel: u32,
    level: u8,
    count: usize,
    terminals: &'a [Terminal],
) -> Result<(Vec<(u32, u8, Operand)>, &'a [Terminal]), Fault>
    requires { level < 10 }
    ensures { Gives (λ r. (link_trees r.0.items, r.1.now)) result
        (links_of (bin_of (below fuel) (tighter_than level)) (level_at level) count terminals.now) }
{
    let mut items = Vec::new(alloc);
    let mut rest = terminals;
    for _i in 0..count {
        let (next, after) = match link(alloc, fuel, level, rest) {
            Ok(read) => read,
            Err(fault) => return Err(fault),
        };
        let Some(item) = next else {
            return Ok((items, after));
        };
        items.push(item)?;
        rest = after;
    }
    Err(refused(rest))
}

/// An operand with the operators behind it, if there are any.
fn with_links(
    alloc: Global,
    form: Form,
    first: Expr,
    links: Vec<(u32, u8, Operand)>,
) -> Result<(Form, Expr), AllocError>
    ensures { IfOk result (λ r. (r.0, expr_tree r.1) ≡ chained (form, expr_tree first) (link_trees links.items)) }
{
    if links.is_empty() {
        return Ok((form, first));
    }
    let at = first.at;
    Ok((Form::Other, nodes::chain(alloc, at, first, links)?))
}

/// Operands and operators with two operands, of the level and those that bind tighter; the level 10 has no operators.
///
/// Behind the first operand the levels are taken from the tightest on, and only those of which an operator stands there.
#[cycle(parser)]
#[tactic(auto, using(crate::proofs::Faults::fails_bind))]
fn binary<'a>(alloc: Global, fuel: u32, level: u8, terminals: &'a [Terminal]) -> Read<'a>
    requires { level ≤ 10 }
    ensures { Gives shown result (bin_of (below fuel) (drop level levels) terminals.now) }
{
    let (form, first, behind) = match unary(alloc, fuel, terminals) {
        Ok(read) => read,
        Err(fault) => return Err(fault),
    };
    let mut outer = form;
    let mut inner = first;
    let mut rest = behind;
    let mut held = 10;
    while let Some(next) = level_ahead(level, held, rest) {
        let (items, after) = match links(alloc, fuel, next, terminals.len() + 1, rest) {
            Ok(read) => read,
            Err(fault) => return Err(fault),
        };
        let (form, whole) = match with_links(alloc, outer, inner, items) {
            Ok(whole) => whole,
            Err(fault) => return Err(Fault::from(fault)),
        };
        outer = form;
        inner = whole;
        rest = after;
        held = next;
    }
    Ok((outer, inner, rest))
}

/// An expression that is no assignment.
#[cycle(parser)]
#[tactic(auto, using(crate::proofs::Faults::fails_bind), unfolding(jv_grammar::specs::ExprReader::cond_of))]
pub fn conditional<'a>(alloc: Global, fuel: u32, terminals: &'a [Terminal]) -> Read<'a>
    ensures { Gives shown result (cond_of (below fuel) terminals.now) }
{
    let (form, condition, rest) = binary(alloc, fuel, 0, terminals)?;
    let Some(after) = behind(QUESTION_MARK, rest) else {
        return Ok((form, condition, rest));
    };
    let (_, yes, rest) = nested_expression(alloc, fuel, after)?;
    let Some(after) = behind(COLON, rest) else {
        return Err(refused(rest));
    };
    let (_, no, after) = nested_conditional(alloc, fuel, after)?;
    let at = condition.at;
    Ok((
        Form::Other,
        nodes::conditional(alloc, at, condition, yes, no)?,
        after,
    ))
}

/// An expression, nested at most `fuel` deep, with its form and the terminals behind it.
#[cycle(parser)]
#[tactic(auto, using(crate::proofs::Faults::fails_bind), unfolding(jv_grammar::specs::ExprReader::expr_of))]
pub fn expression<'a>(alloc: Global, fuel: u32, terminals: &'a [Terminal]) -> Read<'a>
    ensures { Gives shown result (expr_of (below fuel) terminals.now) }
{
    let (form, left, rest) = conditional(alloc, fuel, terminals)?;
    match split(rest) {
        Some((Terminal::Punct(place, mark), behind)) => {
            if !is_assignment(mark) {
                return Ok((form, left, rest));
            }
            match form {
                Form::Target => {
                    let (_, right, after) = nested_expression(alloc, fuel, behind)?;
                    let at = left.at;
                    Ok((
                        Form::Effect,
                        nodes::assignment(alloc, at, place, mark, left, right)?,
                        after,
                    ))
                }
                _ => Err(refused(rest)),
            }
        }
        _ => Ok((form, left, rest)),
    }
}

/// An initializer: an expression or a list in braces, and the terminals behind it.
#[cycle(parser)]
#[tactic(auto, using(crate::proofs::Faults::fails_bind), unfolding(jv_grammar::specs::ExprReader::init_of))]
pub fn initializer<'a>(
    alloc: Global,
    fuel: u32,
    terminals: &'a [Terminal],
) -> Result<(Init, &'a [Terminal]), Fault>
    ensures { Gives (λ r. (init_tree r.0, r.1.now)) result (init_of (below fuel) terminals.now) }
{
    match split(terminals) {
        Some((Terminal::Punct(at, BRACE_OPEN), _)) => {
            let (elements, after) = list(alloc, fuel, terminals)?;
            Ok((nodes::list(at, elements), after))
        }
        _ => {
            let (_, of, after) = expression(alloc, fuel, terminals)?;
            Ok((nodes::one(of), after))
        }
    }
}
