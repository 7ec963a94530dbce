//! Fields of classes and interfaces (JLS 8.3, 9.3).

ghost use Rattle.std.specs.Prelude.{◌≡◌, Ok, Err, length, map};
ghost use Rattle.jv_tree.specs.TypeTree.{type_tree};
ghost use Rattle.jv_tree.specs.StmtTree.{var_tree};
ghost use Rattle.jv_tree.specs.DeclTree.{member_tree};
ghost use Rattle.jv_grammar.specs.DeclReader.{constants_of, fields_in, field_of};
ghost use Rattle.jv_parse_expr.specs.View.{Gives};
ghost use Rattle.jv_parse.specs.DeclView.{constant_of};

use crate::declarations::first_words::ident;
use jv_grammar::Terminal;
use jv_parse_expr::expressions::initializer;
use jv_parse_expr::fault::{Fault, refused};
use jv_parse_expr::marks::{COMMA, EQUALS_SIGN, SEMICOLON};
use jv_parse_expr::terminals::behind;
use jv_parse_stmt::variables::variables;
use jv_tree::{Member, Mods, TypeRef, Var, nodes};
use std::alloc::Global;

/// A constant of an interface: an identifier and its initializer.
#[tactic(auto, using(jv_parse_expr::proofs::Faults::fails_bind))]
fn constant<'a>(
    alloc: Global,
    fuel: u32,
    terminals: &'a [Terminal],
) -> Result<(Var, &'a [Terminal]), Fault>
    ensures { Gives (λ r. (var_tree r.0, r.1.now)) result (constant_of fuel terminals.now) }
{
    let (name, rest) = ident(terminals)?;
    let Some(open) = behind(EQUALS_SIGN, rest) else {
        return Err(refused(rest));
    };
    let (init, after) = initializer(alloc, fuel, open)?;
    Ok((nodes::variable(name, Some(init)), after))
}

/// Constants with commas between them, at most as many as `count`.
#[tactic(auto, using(jv_parse_expr::proofs::Faults::fails_bind))]
fn constants<'a>(
    alloc: Global,
    fuel: u32,
    count: usize,
    terminals: &'a [Terminal],
) -> Result<(Vec<Var>, &'a [Terminal]), Fault>
    ensures { Gives (λ r. (map var_tree r.0.items, r.1.now)) result (constants_of fuel count terminals.now) }
{
    let mut items = Vec::new(alloc);
    let mut rest = terminals;
    for _i in 0..count {
        let (item, after) = match constant(alloc, fuel, rest) {
            Ok(read) => read,
            Err(fault) => return Err(fault),
        };
        items.push(item)?;
        let Some(next) = behind(COMMA, after) else {
            return Ok((items, after));
        };
        rest = next;
    }
    Err(refused(rest))
}

/// The variables of a field; those of an interface have initializers.
#[tactic(auto, using(jv_parse_expr::proofs::Faults::fails_bind))]
fn field_variables<'a>(
    alloc: Global,
    interface: bool,
    fuel: u32,
    terminals: &'a [Terminal],
) -> Result<(Vec<Var>, &'a [Terminal]), Fault>
    ensures { Gives (λ r. (map var_tree r.0.items, r.1.now)) result (fields_in interface fuel terminals.now) }
{
    if interface {
        constants(alloc, fuel, terminals.len(), terminals)
    } else {
        variables(alloc, fuel, terminals)
    }
}

/// Fields behind their modifiers and their type.
#[tactic(auto, using(jv_parse_expr::proofs::Faults::fails_bind), unfolding(jv_grammar::specs::DeclReader::field_of))]
pub(crate) fn field<'a>(
    alloc: Global,
    interface: bool,
    fuel: u32,
    mods: Mods,
    ty: TypeRef,
    terminals: &'a [Terminal],
) -> Result<(Member, &'a [Terminal]), Fault>
    ensures { Gives (λ r. (member_tree r.0, r.1.now)) result
        (field_of interface fuel mods.words.items (type_tree ty) terminals.now) }
{
    let (variables, rest) = field_variables(alloc, interface, fuel, terminals)?;
    let Some(after) = behind(SEMICOLON, rest) else {
        return Err(refused(rest));
    };
    Ok((nodes::field_member(mods, ty, variables), after))
}
