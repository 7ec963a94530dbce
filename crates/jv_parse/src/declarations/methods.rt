//! Methods, and members that begin with a type (JLS 8.4, 9.4).

ghost use Rattle.std.specs.Prelude.{◌≡◌, Ok, Err};
ghost use Rattle.std.specs.Option.{option_map};
ghost use Rattle.jv_tree.specs.TypeTree.{type_tree};
ghost use Rattle.jv_tree.specs.StmtTree.{stmt_trees};
ghost use Rattle.jv_tree.specs.DeclTree.{member_tree};
ghost use Rattle.jv_grammar.specs.DeclReader.{body_of, method_of, typed_of, plain_of};
ghost use Rattle.jv_parse_expr.specs.View.{Gives};

use crate::declarations::fields::field;
use crate::declarations::first_words::{calls, ident};
use crate::declarations::parameters::parameters;
use jv_grammar::Terminal;
use jv_parse_expr::fault::Fault;
use jv_parse_expr::marks::{SEMICOLON, WORD_VOID};
use jv_parse_expr::terminals::{behind, split};
use jv_parse_expr::types::ty;
use jv_parse_stmt::blocks::block;
use jv_tree::{Base, Member, Mods, Stmt, TypeRef, nodes};
use std::alloc::Global;

/// What stands behind the parameters of a method: a block or `;`.
#[tactic(auto, using(jv_parse_expr::proofs::Faults::fails_bind))]
fn body<'a>(
    alloc: Global,
    fuel: u32,
    terminals: &'a [Terminal],
) -> Result<(Option<Vec<Stmt>>, &'a [Terminal]), Fault>
    ensures { Gives (λ r. (option_map (λ b. stmt_trees b.items) r.0, r.1.now)) result
        (body_of fuel terminals.now) }
{
    if let Some(after) = behind(SEMICOLON, terminals) {
        return Ok((None, after));
    }
    let (_, body, after) = block(alloc, fuel, terminals)?;
    Ok((Some(body), after))
}

/// A method behind its modifiers and its result.
#[tactic(auto, using(jv_parse_expr::proofs::Faults::fails_bind), unfolding(jv_grammar::specs::DeclReader::method_of))]
fn method<'a>(
    alloc: Global,
    fuel: u32,
    mods: Mods,
    gives: TypeRef,
    terminals: &'a [Terminal],
) -> Result<(Member, &'a [Terminal]), Fault>
    ensures { Gives (λ r. (member_tree r.0, r.1.now)) result
        (method_of fuel mods.words.items (type_tree gives) terminals.now) }
{
    let (name, rest) = ident(terminals)?;
    let (params, rest) = parameters(alloc, rest)?;
    let (body, after) = body(alloc, fuel, rest)?;
    let whole = nodes::method(mods, gives, name, params, body);
    Ok((nodes::method_member(whole), after))
}

/// Fields or a method with a type, behind their modifiers.
#[tactic(auto, using(jv_parse_expr::proofs::Faults::fails_bind), unfolding(jv_grammar::specs::DeclReader::typed_of))]
fn typed<'a>(
    alloc: Global,
    interface: bool,
    fuel: u32,
    mods: Mods,
    terminals: &'a [Terminal],
) -> Result<(Member, &'a [Terminal]), Fault>
    ensures { Gives (λ r. (member_tree r.0, r.1.now)) result
        (typed_of interface fuel mods.words.items terminals.now) }
{
    let (ty, rest) = ty(alloc, terminals)?;
    if calls(rest) {
        return method(alloc, fuel, mods, ty, rest);
    }
    field(alloc, interface, fuel, mods, ty, rest)
}

/// Fields or a method behind their modifiers.
#[tactic(auto, using(jv_parse_expr::proofs::Faults::fails_bind), unfolding(jv_grammar::specs::DeclReader::plain_of))]
pub(crate) fn plain_member<'a>(
    alloc: Global,
    interface: bool,
    fuel: u32,
    mods: Mods,
    terminals: &'a [Terminal],
) -> Result<(Member, &'a [Terminal]), Fault>
    ensures { Gives (λ r. (member_tree r.0, r.1.now)) result
        (plain_of interface fuel mods.words.items terminals.now) }
{
    match split(terminals) {
        Some((Terminal::Keyword(at, WORD_VOID), after)) => {
            let gives = nodes::type_ref(at, Base::Void, 0);
            method(alloc, fuel, mods, gives, after)
        }
        _ => typed(alloc, interface, fuel, mods, terminals),
    }
}
