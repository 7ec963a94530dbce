//! Constructors (JLS 8.8).

ghost use Rattle.std.specs.Prelude.{◌≡◌, Ok, Err};
ghost use Rattle.std.specs.Option.{option_map};
ghost use Rattle.jv_tree.specs.ExprTree.{expr_trees};
ghost use Rattle.jv_tree.specs.StmtTree.{stmt_trees};
ghost use Rattle.jv_tree.specs.DeclTree.{member_tree};
ghost use Rattle.jv_grammar.specs.DeclReader.{call_of, inner_of, ctor_of};
ghost use Rattle.jv_parse_expr.specs.View.{Gives};

use crate::declarations::first_words::ident;
use crate::declarations::parameters::parameters;
use jv_grammar::Terminal;
use jv_parse_expr::fault::{Fault, refused};
use jv_parse_expr::lists::arguments;
use jv_parse_expr::marks::{BRACE_CLOSE, BRACE_OPEN, PAREN_OPEN, SEMICOLON, WORD_SUPER};
use jv_parse_expr::terminals::{behind, split, starts};
use jv_parse_stmt::blocks::block_statements;
use jv_tree::{Expr, Member, Mods, Stmt, nodes};
use std::alloc::Global;

/// The call of `super` that a constructor begins with, or else none.
#[tactic(auto, using(jv_parse_expr::proofs::Faults::fails_bind), unfolding(jv_grammar::specs::DeclReader::call_of))]
fn super_call<'a>(
    alloc: Global,
    fuel: u32,
    terminals: &'a [Terminal],
) -> Result<(Option<(u32, Vec<Expr>)>, &'a [Terminal]), Fault>
    ensures { Gives (λ r. (option_map (λ x. (x.0, expr_trees x.1.items)) r.0, r.1.now)) result
        (call_of fuel terminals.now) }
{
    match split(terminals) {
        Some((Terminal::Keyword(at, WORD_SUPER), open)) => {
            if !starts(PAREN_OPEN, open) {
                return Ok((None, terminals));
            }
            let (items, rest) = arguments(alloc, fuel, open)?;
            let Some(after) = behind(SEMICOLON, rest) else {
                return Err(refused(rest));
            };
            Ok((Some((at, items)), after))
        }
        _ => Ok((None, terminals)),
    }
}

/// What stands in the braces of a constructor: its call of `super` and its statements.
#[tactic(auto, using(jv_parse_expr::proofs::Faults::fails_bind), unfolding(jv_grammar::specs::DeclReader::inner_of))]
fn inner<'a>(
    alloc: Global,
    fuel: u32,
    terminals: &'a [Terminal],
) -> Result<(Option<(u32, Vec<Expr>)>, Vec<Stmt>, &'a [Terminal]), Fault>
    ensures { Gives (λ r. ((option_map (λ x. (x.0, expr_trees x.1.items)) r.0, stmt_trees r.1.items), r.2.now)) result
        (inner_of fuel terminals.now) }
{
    let Some(open) = behind(BRACE_OPEN, terminals) else {
        return Err(refused(terminals));
    };
    let (call, rest) = super_call(alloc, fuel, open)?;
    let (statements, rest) = block_statements(alloc, fuel, rest)?;
    let Some(after) = behind(BRACE_CLOSE, rest) else {
        return Err(refused(rest));
    };
    Ok((call, statements, after))
}

/// A constructor behind its modifiers.
#[tactic(auto, using(jv_parse_expr::proofs::Faults::fails_bind), unfolding(jv_grammar::specs::DeclReader::ctor_of))]
pub(crate) fn constructor<'a>(
    alloc: Global,
    fuel: u32,
    mods: Mods,
    terminals: &'a [Terminal],
) -> Result<(Member, &'a [Terminal]), Fault>
    ensures { Gives (λ r. (member_tree r.0, r.1.now)) result (ctor_of fuel mods.words.items terminals.now) }
{
    let (name, rest) = ident(terminals)?;
    let (params, rest) = parameters(alloc, rest)?;
    let (call, statements, after) = inner(alloc, fuel, rest)?;
    let whole = nodes::constructor(mods, name, params, call, statements);
    Ok((nodes::constructor_member(whole), after))
}
