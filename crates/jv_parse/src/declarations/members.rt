//! Members of classes and interfaces (JLS 8.1.6, 9.1.4).

ghost use Rattle.std.specs.Prelude.{◌≡◌, Ok, Err, length};
ghost use Rattle.jv_tree.specs.DeclTree.{member_tree, member_trees};
ghost use Rattle.jv_grammar.specs.DeclReader.{below_type, behind_mods, member_of, members_of, braced_of};
ghost use Rattle.jv_parse_expr.specs.View.{Gives};

use crate::declarations::constructors::constructor;
use crate::declarations::first_words::{begins_type, calls};
use crate::declarations::methods::plain_member;
use crate::declarations::modifiers::modifiers;
use crate::declarations::type_declarations::nested_type;
use jv_grammar::Terminal;
use jv_parse_expr::fault::{Fault, refused};
use jv_parse_expr::marks::{BRACE_CLOSE, BRACE_OPEN, SEMICOLON};
use jv_parse_expr::terminals::behind;
use jv_tree::{Member, Mods, nodes};
use std::alloc::Global;

/// A member behind its modifiers; an interface has no constructors.
#[cycle(declarations)]
#[tactic(auto, using(jv_parse_expr::proofs::Faults::fails_bind), unfolding(jv_grammar::specs::DeclReader::behind_mods))]
fn behind_modifiers<'a>(
    alloc: Global,
    interface: bool,
    fuel: u32,
    mods: Mods,
    terminals: &'a [Terminal],
) -> Result<(Member, &'a [Terminal]), Fault>
    ensures { Gives (λ r. (member_tree r.0, r.1.now)) result
        (behind_mods interface fuel (below_type fuel) mods.words.items terminals.now) }
{
    if begins_type(terminals) {
        let (decl, after) = nested_type(alloc, fuel, mods, terminals)?;
        return Ok((nodes::nested(decl), after));
    }
    if !interface && calls(terminals) {
        return constructor(alloc, fuel, mods, terminals);
    }
    plain_member(alloc, interface, fuel, mods, terminals)
}

/// A member.
#[cycle(declarations)]
#[tactic(auto, using(jv_parse_expr::proofs::Faults::fails_bind))]
fn member<'a>(
    alloc: Global,
    interface: bool,
    fuel: u32,
    terminals: &'a [Terminal],
) -> Result<(Member, &'a [Terminal]), Fault>
    ensures { Gives (λ r. (member_tree r.0, r.1.now)) result
        (member_of interface fuel (below_type fuel) terminals.now) }
{
    let (mods, rest) = match modifiers(alloc, terminals) {
        Ok(read) => read,
        Err(fault) => return Err(fault),
    };
    behind_modifiers(alloc, interface, fuel, mods, rest)
}

/// Members up to a `}`, which is taken with them; at most as many members and `;` as `count`.
#[cycle(declarations)]
#[tactic(auto, using(jv_parse_expr::proofs::Faults::fails_bind))]
fn members<'a>(
    alloc: Global,
    interface: bool,
    fuel: u32,
    count: usize,
    terminals: &'a [Terminal],
) -> Result<(Vec<Member>, &'a [Terminal]), Fault>
    ensures { Gives (λ r. (member_trees r.0.items, r.1.now)) result
        (members_of interface fuel (below_type fuel) count terminals.now) }
{
    let mut items = Vec::new(alloc);
    let mut rest = terminals;
    for _i in 0..count {
        if let Some(end) = behind(BRACE_CLOSE, rest) {
            return Ok((items, end));
        }
        if let Some(next) = behind(SEMICOLON, rest) {
            rest = next;
            continue;
        }
        let (item, after) = match member(alloc, interface, fuel, rest) {
            Ok(read) => read,
            Err(fault) => return Err(fault),
        };
        items.push(item)?;
        rest = after;
    }
    Err(refused(rest))
}

/// The members of a class or an interface in braces.
#[cycle(declarations)]
#[tactic(auto, using(jv_parse_expr::proofs::Faults::fails_bind), unfolding(jv_grammar::specs::DeclReader::braced_of))]
pub(crate) fn braced<'a>(
    alloc: Global,
    interface: bool,
    fuel: u32,
    terminals: &'a [Terminal],
) -> Result<(Vec<Member>, &'a [Terminal]), Fault>
    ensures { Gives (λ r. (member_trees r.0.items, r.1.now)) result
        (braced_of interface fuel (below_type fuel) terminals.now) }
{
    let Some(open) = behind(BRACE_OPEN, terminals) else {
        return Err(refused(terminals));
    };
    members(alloc, interface, fuel, terminals.len(), open)
}
