//! Conditions, the heads of `for` loops, and what `return` gives (JLS 14.9, 14.14.1, 14.17).

ghost use Rattle.std.specs.Prelude.{◌≡◌, Ok, Err};
ghost use Rattle.std.specs.Option.{option_map};
ghost use Rattle.jv_tree.specs.ExprTree.{expr_tree, expr_trees};
ghost use Rattle.jv_tree.specs.StmtTree.{stmt_trees};
ghost use Rattle.jv_grammar.specs.ExprReader.{below};
ghost use Rattle.jv_grammar.specs.StmtReader.{paren_by, first_by, optional_by, updates_by, for_head_by};
ghost use Rattle.jv_parse_expr.specs.View.{Gives};
ghost use Rattle.jv_parse_stmt.specs.View.{head_tree};

use crate::effects::{effect_statements, effects};
use crate::for_head::ForHead;
use crate::variables::{begins_local, local};
use jv_grammar::Terminal;
use jv_parse_expr::expressions::expression;
use jv_parse_expr::fault::{Fault, refused};
use jv_parse_expr::marks::{PAREN_CLOSE, PAREN_OPEN, SEMICOLON};
use jv_parse_expr::terminals::{behind, starts};
use jv_tree::{Expr, Stmt};
use std::alloc::Global;

/// An expression in parentheses, and the terminals behind it.
#[tactic(auto, using(jv_parse_expr::proofs::Faults::fails_bind), unfolding(jv_grammar::specs::StmtReader::paren_by))]
pub(crate) fn condition<'a>(
    alloc: Global,
    fuel: u32,
    terminals: &'a [Terminal],
) -> Result<(Expr, &'a [Terminal]), Fault>
    ensures { Gives (λ r. (expr_tree r.0, r.1.now)) result (paren_by (below fuel) terminals.now) }
{
    let Some(open) = behind(PAREN_OPEN, terminals) else {
        return Err(refused(terminals));
    };
    let (_, of, rest) = expression(alloc, fuel, open)?;
    let Some(after) = behind(PAREN_CLOSE, rest) else {
        return Err(refused(rest));
    };
    Ok((of, after))
}

/// An expression or none up to a `;`, and the terminals from there on.
#[tactic(auto, using(jv_parse_expr::proofs::Faults::fails_bind), unfolding(jv_grammar::specs::StmtReader::optional_by))]
pub(crate) fn optional<'a>(
    alloc: Global,
    fuel: u32,
    terminals: &'a [Terminal],
) -> Result<(Option<Expr>, &'a [Terminal]), Fault>
    ensures { Gives (λ r. (option_map expr_tree r.0, r.1.now)) result (optional_by (below fuel) terminals.now) }
{
    if starts(SEMICOLON, terminals) {
        return Ok((None, terminals));
    }
    let (_, of, after) = expression(alloc, fuel, terminals)?;
    Ok((Some(of), after))
}

/// What a `for` begins with up to its first `;`, and the terminals from there on.
#[tactic(auto, using(jv_parse_expr::proofs::Faults::fails_bind), unfolding(jv_grammar::specs::StmtReader::first_by))]
fn first<'a>(
    alloc: Global,
    fuel: u32,
    terminals: &'a [Terminal],
) -> Result<(Vec<Stmt>, &'a [Terminal]), Fault>
    ensures { Gives (λ r. (stmt_trees r.0.items, r.1.now)) result (first_by (below fuel) terminals.now) }
{
    if starts(SEMICOLON, terminals) {
        return Ok((Vec::new(alloc), terminals));
    }
    if begins_local(terminals) {
        let (declared, after) = local(alloc, fuel, terminals)?;
        let mut items = Vec::new(alloc);
        items.push(declared)?;
        return Ok((items, after));
    }
    effect_statements(alloc, fuel, terminals)
}

/// Effects or none up to a `)`, and the terminals from there on.
#[tactic(auto, using(jv_parse_expr::proofs::Faults::fails_bind), unfolding(jv_grammar::specs::StmtReader::updates_by))]
fn updates<'a>(
    alloc: Global,
    fuel: u32,
    terminals: &'a [Terminal],
) -> Result<(Vec<Expr>, &'a [Terminal]), Fault>
    ensures { Gives (λ r. (expr_trees r.0.items, r.1.now)) result (updates_by (below fuel) terminals.now) }
{
    if starts(PAREN_CLOSE, terminals) {
        return Ok((Vec::new(alloc), terminals));
    }
    effects(alloc, fuel, terminals)
}

/// The head of a `for` in its parentheses, and the terminals behind it.
#[tactic(auto, using(jv_parse_expr::proofs::Faults::fails_bind), unfolding(jv_grammar::specs::StmtReader::for_head_by))]
pub(crate) fn for_head<'a>(
    alloc: Global,
    fuel: u32,
    terminals: &'a [Terminal],
) -> Result<(ForHead, &'a [Terminal]), Fault>
    ensures { Gives (λ r. (head_tree r.0, r.1.now)) result (for_head_by (below fuel) terminals.now) }
{
    let Some(open) = behind(PAREN_OPEN, terminals) else {
        return Err(refused(terminals));
    };
    let (first, rest) = first(alloc, fuel, open)?;
    let Some(second) = behind(SEMICOLON, rest) else {
        return Err(refused(rest));
    };
    let (condition, rest) = optional(alloc, fuel, second)?;
    let Some(third) = behind(SEMICOLON, rest) else {
        return Err(refused(rest));
    };
    let (updates, rest) = updates(alloc, fuel, third)?;
    let Some(after) = behind(PAREN_CLOSE, rest) else {
        return Err(refused(rest));
    };
    let head = ForHead {
        first,
        condition,
        updates,
    };
    Ok((head, after))
}
