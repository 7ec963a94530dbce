//! Heads of expressions, and the fields, calls and indexes behind them (JLS 15.8 to 15.14).

ghost use Rattle.std.specs.Prelude.{◌≡◌, Ok, Err, length};
ghost use Rattle.jv_tree.specs.TypeTree.{base_tree};
ghost use Rattle.jv_tree.specs.ExprTree.{expr_tree, on, field};
ghost use Rattle.jv_grammar.specs.ExprGrammar.{at_of};
ghost use Rattle.jv_grammar.specs.ExprReader.{below, new_of, array_of, super_of, member_of, done, head_of, suffixes_of, primary_of};
ghost use Rattle.jv_parse_expr.specs.View.{Gives, shown, suffix_of};

use crate::fault::{Fault, refused};
use crate::heads::{literal, longest_name};
use crate::lists::{arguments, list, sizes};
use crate::marks::{
    BRACKET_CLOSE, BRACKET_OPEN, DOT, PAREN_CLOSE, PAREN_OPEN, WORD_NEW, WORD_SUPER, WORD_THIS,
};
use crate::nested::{Read, nested_expression};
use crate::terminals::{behind, identifier, split, starts, starts_pair};
use crate::types::{base, pairs};
use jv_grammar::{Form, Terminal};
use jv_tree::{Base, Expr, nodes};
use std::alloc::Global;

/// A new array of the base, which stands at `place`, behind a `new` at `at`.
#[cycle(parser)]
#[tactic(auto, using(crate::proofs::Faults::fails_bind))]
fn array<'a>(
    alloc: Global,
    fuel: u32,
    at: u32,
    place: u32,
    base: Base,
    terminals: &'a [Terminal],
) -> Read<'a>
    ensures { Gives shown result (array_of (below fuel) at place (base_tree base) terminals.now) }
{
    if starts_pair(terminals) {
        let (dims, after) = pairs(200, terminals)?;
        let (elements, after) = list(alloc, fuel, after)?;
        let ty = nodes::type_ref(place, base, dims);
        return Ok((Form::Other, nodes::new_list(at, ty, elements), after));
    }
    if starts(BRACKET_OPEN, terminals) {
        let (items, dims, after) = sizes(alloc, fuel, 200, terminals)?;
        let ty = nodes::type_ref(place, base, dims);
        return Ok((Form::Other, nodes::new_array(at, ty, items), after));
    }
    Err(refused(terminals))
}

/// A new object or array, behind a `new` at `at`.
#[cycle(parser)]
#[tactic(auto, using(crate::proofs::Faults::fails_bind), unfolding(jv_grammar::specs::ExprReader::new_of))]
fn created<'a>(alloc: Global, fuel: u32, at: u32, terminals: &'a [Terminal]) -> Read<'a>
    ensures { Gives shown result (new_of (below fuel) at terminals.now) }
{
    let (place, base, after) = base(alloc, terminals)?;
    if starts(PAREN_OPEN, after) {
        let Base::Named(class) = base else {
            return Err(refused(after));
        };
        let (items, after) = arguments(alloc, fuel, after)?;
        return Ok((Form::Effect, nodes::new_object(at, class, items), after));
    }
    array(alloc, fuel, at, place, base, after)
}

/// A method or a field of `super`, which is at `at`.
#[cycle(parser)]
#[tactic(auto, using(crate::proofs::Faults::fails_bind))]
fn super_member<'a>(alloc: Global, fuel: u32, at: u32, terminals: &'a [Terminal]) -> Read<'a>
    ensures { Gives shown result (super_of (below fuel) at terminals.now) }
{
    let Some(dotted) = behind(DOT, terminals) else {
        return Err(refused(terminals));
    };
    let Some((name, after)) = identifier(dotted) else {
        return Err(refused(dotted));
    };
    if starts(PAREN_OPEN, after) {
        let (items, after) = arguments(alloc, fuel, after)?;
        return Ok((
            Form::Effect,
            nodes::call(at, nodes::super_target(), name, items),
            after,
        ));
    }
    Ok((Form::Target, nodes::super_field(at, name), after))
}

/// What an expression begins with.
#[cycle(parser)]
#[tactic(auto, using(crate::proofs::Faults::fails_bind), unfolding(jv_grammar::specs::ExprReader::head_of))]
fn head<'a>(alloc: Global, fuel: u32, terminals: &'a [Terminal]) -> Read<'a>
    ensures { Gives shown result (head_of (below fuel) terminals.now) }
{
    match split(terminals) {
        Some((Terminal::Ident(name), after)) => {
            if starts(PAREN_OPEN, after) {
                let (items, after) = arguments(alloc, fuel, after)?;
                return Ok((
                    Form::Effect,
                    nodes::call(name.at, nodes::bare(), name, items),
                    after,
                ));
            }
            let (ids, after) = longest_name(alloc, name, after)?;
            Ok((Form::Target, nodes::name_expression(name.at, ids), after))
        }
        Some((Terminal::Literal(at, kind), after)) => Ok((Form::Other, literal(at, kind), after)),
        Some((Terminal::Keyword(at, WORD_THIS), after)) => Ok((
            Form::Other,
            nodes::this(at),
            after,
        )),
        Some((Terminal::Keyword(at, WORD_SUPER), after)) => super_member(alloc, fuel, at, after),
        Some((Terminal::Keyword(at, WORD_NEW), after)) => created(alloc, fuel, at, after),
        Some((Terminal::Punct(at, PAREN_OPEN), open)) => {
            let (_, inner, rest) = nested_expression(alloc, fuel, open)?;
            let Some(after) = behind(PAREN_CLOSE, rest) else {
                return Err(refused(rest));
            };
            let Expr { at: _, kind } = inner;
            Ok((Form::Other, Expr { at, kind }, after))
        }
        _ => Err(refused(terminals)),
    }
}

/// A method or a field of what the expression gives.
#[cycle(parser)]
#[tactic(auto, using(crate::proofs::Faults::fails_bind))]
fn member<'a>(alloc: Global, fuel: u32, object: Expr, terminals: &'a [Terminal]) -> Read<'a>
    ensures { Gives shown result (member_of (below fuel).expr done (at_of (expr_tree object)) (on (expr_tree object)) (field (expr_tree object)) terminals.now) }
{
    let Some((name, after)) = identifier(terminals) else {
        return Err(refused(terminals));
    };
    let at = object.at;
    if starts(PAREN_OPEN, after) {
        let (items, after) = arguments(alloc, fuel, after)?;
        let target = nodes::on(alloc, object)?;
        return Ok((Form::Effect, nodes::call(at, target, name, items), after));
    }
    Ok((Form::Target, nodes::field(alloc, at, object, name)?, after))
}

/// The expression with the field, the call or the index behind it, and its form; without a form where none stands there.
#[cycle(parser)]
#[tactic(auto, using(crate::proofs::Faults::fails_bind))]
fn suffix<'a>(
    alloc: Global,
    fuel: u32,
    inner: Expr,
    terminals: &'a [Terminal],
) -> Result<(Option<Form>, Expr, &'a [Terminal]), Fault>
    ensures { Gives (λ r. ((r.0, expr_tree r.1), r.2.now)) result (suffix_of (below fuel) (expr_tree inner) terminals.now) }
{
    if let Some(open) = behind(BRACKET_OPEN, terminals) {
        let (_, place, rest) = nested_expression(alloc, fuel, open)?;
        let Some(after) = behind(BRACKET_CLOSE, rest) else {
            return Err(refused(rest));
        };
        let at = inner.at;
        return Ok((
            Some(Form::Target),
            nodes::index(alloc, at, inner, place)?,
            after,
        ));
    }
    if let Some(dotted) = behind(DOT, terminals) {
        let (form, whole, after) = member(alloc, fuel, inner, dotted)?;
        return Ok((Some(form), whole, after));
    }
    Ok((None, inner, terminals))
}

/// The fields, calls and indexes behind an expression of this form, fewer than `count`.
#[cycle(parser)]
#[tactic(auto, using(crate::proofs::Faults::fails_bind))]
fn suffixes<'a>(
    alloc: Global,
    fuel: u32,
    count: usize,
    form: Form,
    head: Expr,
    terminals: &'a [Terminal],
) -> Read<'a>
    ensures { Gives shown result (suffixes_of (below fuel) count form (expr_tree head) terminals.now) }
{
    let mut outer = form;
    let mut inner = head;
    let mut rest = terminals;
    for _i in 0..count {
        let (next, whole, after) = match suffix(alloc, fuel, inner, rest) {
            Ok(read) => read,
            Err(fault) => return Err(fault),
        };
        inner = whole;
        let Some(next) = next else {
            return Ok((outer, inner, after));
        };
        outer = next;
        rest = after;
    }
    Err(refused(rest))
}

/// A head with the fields, calls and indexes behind it.
#[cycle(parser)]
#[tactic(auto, using(crate::proofs::Faults::fails_bind), unfolding(jv_grammar::specs::ExprReader::primary_of))]
pub fn primary<'a>(alloc: Global, fuel: u32, terminals: &'a [Terminal]) -> Read<'a>
    ensures { Gives shown result (primary_of (below fuel) terminals.now) }
{
    let (form, first, after) = head(alloc, fuel, terminals)?;
    suffixes(alloc, fuel, terminals.len() + 1, form, first, after)
}
