//! Loops behind their keywords (JLS 14.12 to 14.14).

ghost use Rattle.std.specs.Prelude.{◌≡◌, Ok, Err};
ghost use Rattle.jv_tree.specs.StmtTree.{stmt_tree};
ghost use Rattle.jv_grammar.specs.ExprReader.{below};
ghost use Rattle.jv_grammar.specs.StmtReader.{below_stmt, while_by, do_by, for_by};
ghost use Rattle.jv_parse_expr.specs.View.{Gives};

use crate::conditions::{condition, for_head};
use crate::for_head::ForHead;
use crate::statements::nested_statement;
use jv_grammar::Terminal;
use jv_parse_expr::fault::{Fault, refused};
use jv_parse_expr::marks::{SEMICOLON, WORD_WHILE};
use jv_parse_expr::terminals::{behind, behind_word};
use jv_tree::{Stmt, nodes};
use std::alloc::Global;

/// A `while` loop behind its keyword, which is at `at`, and the terminals behind it.
#[cycle(statements)]
#[tactic(auto, using(jv_parse_expr::proofs::Faults::fails_bind), unfolding(jv_grammar::specs::StmtReader::while_by))]
pub(crate) fn while_statement<'a>(
    alloc: Global,
    fuel: u32,
    at: u32,
    terminals: &'a [Terminal],
) -> Result<(Stmt, &'a [Terminal]), Fault>
    ensures { Gives (λ r. (stmt_tree r.0, r.1.now)) result
        (while_by (below fuel) (below_stmt fuel) at terminals.now) }
{
    let (test, after) = condition(alloc, fuel, terminals)?;
    let (body, after) = nested_statement(alloc, fuel, after)?;
    Ok((nodes::while_loop(alloc, at, test, body)?, after))
}

/// A `do` loop behind its keyword, which is at `at`, and the terminals behind it.
#[cycle(statements)]
#[tactic(auto, using(jv_parse_expr::proofs::Faults::fails_bind), unfolding(jv_grammar::specs::StmtReader::do_by))]
pub(crate) fn do_statement<'a>(
    alloc: Global,
    fuel: u32,
    at: u32,
    terminals: &'a [Terminal],
) -> Result<(Stmt, &'a [Terminal]), Fault>
    ensures { Gives (λ r. (stmt_tree r.0, r.1.now)) result
        (do_by (below fuel) (below_stmt fuel) at terminals.now) }
{
    let (body, rest) = nested_statement(alloc, fuel, terminals)?;
    let Some(after) = behind_word(WORD_WHILE, rest) else {
        return Err(refused(rest));
    };
    let (test, rest) = condition(alloc, fuel, after)?;
    let Some(after) = behind(SEMICOLON, rest) else {
        return Err(refused(rest));
    };
    Ok((nodes::do_loop(alloc, at, body, test)?, after))
}

/// A `for` loop behind its keyword, which is at `at`, and the terminals behind it.
#[cycle(statements)]
#[tactic(auto, using(jv_parse_expr::proofs::Faults::fails_bind), unfolding(jv_grammar::specs::StmtReader::for_by))]
pub(crate) fn for_statement<'a>(
    alloc: Global,
    fuel: u32,
    at: u32,
    terminals: &'a [Terminal],
) -> Result<(Stmt, &'a [Terminal]), Fault>
    ensures { Gives (λ r. (stmt_tree r.0, r.1.now)) result
        (for_by (below fuel) (below_stmt fuel) at terminals.now) }
{
    let (head, after) = for_head(alloc, fuel, terminals)?;
    let (body, after) = nested_statement(alloc, fuel, after)?;
    let ForHead {
        first,
        condition,
        updates,
    } = head;
    Ok((
        nodes::for_loop(alloc, at, first, condition, updates, body)?,
        after,
    ))
}
