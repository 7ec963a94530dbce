//! The names and literals that expressions begin with.

ghost use Rattle.std.specs.Prelude.{◌≡◌, [], Ok, MatchOption};
ghost use Rattle.jv_tree.specs.TypeTree.{ids_of};
ghost use Rattle.jv_tree.specs.ExprTree.{expr, expr_tree};
ghost use Rattle.jv_grammar.specs.ExprGrammar.{literal_tree};
ghost use Rattle.jv_grammar.specs.ExprReader.{run_of};
ghost use Rattle.jv_parse_expr.specs.View.{Gives, StartsRun, headed};

use crate::fault::Fault;
use crate::marks::{DOT, PAREN_OPEN};
use crate::terminals::{split, starts};
use jv_grammar::{LiteralKind, Terminal};
use jv_tree::{Expr, Ident, Name, nodes};
use std::alloc::Global;

/// A dot and an identifier that no `(` follows, and the terminals behind them.
#[tactic(auto, unfolding(jv_grammar::specs::ExprReader::run_of))]
fn dotted(terminals: &[Terminal]) -> Option<(Ident, &[Terminal])>
    ensures { MatchOption result (run_of terminals.now ≡ ([], terminals.now))
        (λ p. StartsRun terminals.now p.0 p.1.now) }
{
    match split(terminals) {
        Some((Terminal::Punct(_, DOT), after)) => match split(after) {
            Some((Terminal::Ident(name), behind)) => {
                if starts(PAREN_OPEN, behind) {
                    None
                } else {
                    Some((name, behind))
                }
            }
            _ => None,
        },
        _ => None,
    }
}

/// The longest name that begins with the identifier, and the terminals behind it; the last identifier has no `(` behind it.
pub fn longest_name<'a>(
    alloc: Global,
    first: Ident,
    terminals: &'a [Terminal],
) -> Result<(Name, &'a [Terminal]), Fault>
    ensures { Gives (λ r. (ids_of r.0, r.1.now)) result (headed first (run_of terminals.now)) }
{
    let mut ids = Vec::new(alloc);
    ids.push(first)?;
    let mut rest = terminals;
    while let Some((next, after)) = dotted(rest) {
        ids.push(next)?;
        rest = after;
    }
    Ok((Name { ids }, rest))
}

/// A literal.
pub fn literal(at: u32, kind: LiteralKind) -> Expr
    ensures { expr_tree result ≡ expr at (literal_tree kind) }
{
    match kind {
        LiteralKind::Int => nodes::int_literal(at),
        LiteralKind::Long => nodes::long_literal(at),
        LiteralKind::Char => nodes::char_literal(at),
        LiteralKind::Str => nodes::string_literal(at),
        LiteralKind::Bool(value) => nodes::bool_literal(at, value),
        LiteralKind::Null => nodes::null_literal(at),
    }
}
