//! `if` with its `else` (JLS 14.9).

ghost use Rattle.std.specs.Prelude.{◌≡◌, Ok, Err};
ghost use Rattle.jv_tree.specs.ExprTree.{expr_tree};
ghost use Rattle.jv_tree.specs.StmtTree.{stmt_tree, branch_trees, optional_else};
ghost use Rattle.jv_grammar.specs.ExprReader.{below};
ghost use Rattle.jv_grammar.specs.StmtReader.{below_stmt, if_by};
ghost use Rattle.jv_parse_expr.specs.View.{Gives};
ghost use Rattle.jv_parse_stmt.specs.View.{guarded_by, branches_by};

use crate::conditions::condition;
use crate::statements::nested_statement;
use jv_grammar::Terminal;
use jv_parse_expr::fault::{Fault, refused};
use jv_parse_expr::marks::{WORD_ELSE, WORD_IF};
use jv_parse_expr::terminals::behind_word;
use jv_tree::{Expr, Stmt, nodes};
use std::alloc::Global;

/// A condition in parentheses with the statement that it guards, and the terminals behind them.
#[cycle(statements)]
#[tactic(auto, using(jv_parse_expr::proofs::Faults::fails_bind))]
pub(crate) fn guarded<'a>(
    alloc: Global,
    fuel: u32,
    terminals: &'a [Terminal],
) -> Result<(Expr, Stmt, &'a [Terminal]), Fault>
    ensures { Gives (λ r. ((expr_tree r.0, stmt_tree r.1), r.2.now)) result
        (guarded_by (below fuel) (below_stmt fuel) terminals.now) }
{
    let (test, after) = condition(alloc, fuel, terminals)?;
    let (body, after) = nested_statement(alloc, fuel, after)?;
    Ok((test, body, after))
}

/// The conditions of an `if` and of each `else if` with what they guard, and what stands behind the last `else`; behind
/// the first `if`. Each `else if` is nested one level deeper.
#[cycle(statements)]
#[tactic(auto, using(jv_parse_expr::proofs::Faults::fails_bind))]
fn branches<'a>(
    alloc: Global,
    fuel: u32,
    terminals: &'a [Terminal],
) -> Result<(Vec<(Expr, Stmt)>, Option<Stmt>, &'a [Terminal]), Fault>
    ensures { Gives (λ r. ((branch_trees r.0.items, optional_else r.1), r.2.now)) result
        (branches_by (below fuel) (below_stmt fuel) terminals.now) }
{
    let mut items = Vec::new(alloc);
    let mut left = fuel;
    let mut rest = terminals;
    'chain: loop {
        let (test, body, after) = match guarded(alloc, left, rest) {
            Ok(read) => read,
            Err(fault) => return Err(fault),
        };
        items.push((test, body))?;
        let Some(otherwise) = behind_word(WORD_ELSE, after) else {
            return Ok((items, None, after));
        };
        let Some(next) = behind_word(WORD_IF, otherwise) else {
            let (last, after) = match nested_statement(alloc, left, otherwise) {
                Ok(read) => read,
                Err(fault) => return Err(fault),
            };
            return Ok((items, Some(last), after));
        };
        if left == 0 {
            return Err(refused(otherwise));
        }
        left -= 1;
        rest = next;
    }
}

/// An `if` behind its keyword, which is at `at`, and the terminals behind it.
#[cycle(statements)]
#[tactic(auto, using(jv_parse_expr::proofs::Faults::fails_bind))]
pub(crate) fn if_statement<'a>(
    alloc: Global,
    fuel: u32,
    at: u32,
    terminals: &'a [Terminal],
) -> Result<(Stmt, &'a [Terminal]), Fault>
    ensures { Gives (λ r. (stmt_tree r.0, r.1.now)) result
        (if_by (below fuel) (below_stmt fuel) at terminals.now) }
{
    let (items, last, after) = match branches(alloc, fuel, terminals) {
        Ok(read) => read,
        Err(fault) => return Err(fault),
    };
    let whole = match nodes::if_else(alloc, at, items, last) {
        Ok(whole) => whole,
        Err(fault) => return Err(Fault::from(fault)),
    };
    Ok((whole, after))
}
