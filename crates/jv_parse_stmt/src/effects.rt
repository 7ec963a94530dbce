//! Expressions that may stand as statements (JLS 14.8).

ghost use Rattle.std.specs.Prelude.{◌≡◌, Ok, Err, length};
ghost use Rattle.jv_tree.specs.ExprTree.{expr_tree, expr_trees};
ghost use Rattle.jv_tree.specs.StmtTree.{stmt_tree, stmt_trees};
ghost use Rattle.jv_grammar.specs.ExprReader.{below};
ghost use Rattle.jv_grammar.specs.StmtReader.{effect_by, effects_by, effect_stmt_by};
ghost use Rattle.jv_parse_expr.specs.View.{Gives};
ghost use Rattle.jv_parse_stmt.specs.View.{effect_stmts_by};

use jv_grammar::{Form, Terminal};
use jv_parse_expr::expressions::expression;
use jv_parse_expr::fault::{Fault, refused};
use jv_parse_expr::marks::{COMMA, SEMICOLON};
use jv_parse_expr::terminals::behind;
use jv_tree::{Expr, Stmt, nodes};
use std::alloc::Global;

/// An effect and the terminals behind it; where an expression is none, what stands behind it is refused.
#[tactic(auto, using(jv_parse_expr::proofs::Faults::fails_bind), unfolding(jv_grammar::specs::StmtReader::effect_by))]
fn effect<'a>(
    alloc: Global,
    fuel: u32,
    terminals: &'a [Terminal],
) -> Result<(Expr, &'a [Terminal]), Fault>
    ensures { Gives (λ r. (expr_tree r.0, r.1.now)) result (effect_by (below fuel) terminals.now) }
{
    let (form, of, after) = expression(alloc, fuel, terminals)?;
    match form {
        Form::Effect => Ok((of, after)),
        _ => Err(refused(after)),
    }
}

/// Effects with commas between them, and the terminals behind them.
#[tactic(auto, using(jv_parse_expr::proofs::Faults::fails_bind))]
pub(crate) fn effects<'a>(
    alloc: Global,
    fuel: u32,
    terminals: &'a [Terminal],
) -> Result<(Vec<Expr>, &'a [Terminal]), Fault>
    ensures { Gives (λ r. (expr_trees r.0.items, r.1.now)) result (effects_by (below fuel) terminals.now) }
{
    let mut items = Vec::new(alloc);
    let mut rest = terminals;
    for _i in 0..terminals.len() {
        let (item, after) = match effect(alloc, fuel, rest) {
            Ok(read) => read,
            Err(fault) => return Err(fault),
        };
        items.push(item)?;
        let Some(next) = behind(COMMA, after) else {
            return Ok((items, after));
        };
        rest = next;
    }
    Err(refused(rest))
}

/// Effects with commas between them as statements, and the terminals behind them.
#[tactic(auto, using(jv_parse_expr::proofs::Faults::fails_bind))]
pub(crate) fn effect_statements<'a>(
    alloc: Global,
    fuel: u32,
    terminals: &'a [Terminal],
) -> Result<(Vec<Stmt>, &'a [Terminal]), Fault>
    ensures { Gives (λ r. (stmt_trees r.0.items, r.1.now)) result (effect_stmts_by (below fuel) terminals.now) }
{
    let mut items = Vec::new(alloc);
    let mut rest = terminals;
    for _i in 0..terminals.len() {
        let (of, after) = match effect(alloc, fuel, rest) {
            Ok(read) => read,
            Err(fault) => return Err(fault),
        };
        let at = of.at;
        items.push(nodes::effect(at, of))?;
        let Some(next) = behind(COMMA, after) else {
            return Ok((items, after));
        };
        rest = next;
    }
    Err(refused(rest))
}

/// An effect with its `;`, and the terminals behind it.
#[tactic(auto, using(jv_parse_expr::proofs::Faults::fails_bind), unfolding(jv_grammar::specs::StmtReader::effect_stmt_by))]
pub(crate) fn effect_statement<'a>(
    alloc: Global,
    fuel: u32,
    terminals: &'a [Terminal],
) -> Result<(Stmt, &'a [Terminal]), Fault>
    ensures { Gives (λ r. (stmt_tree r.0, r.1.now)) result (effect_stmt_by (below fuel) terminals.now) }
{
    let (of, rest) = effect(alloc, fuel, terminals)?;
    let Some(after) = behind(SEMICOLON, rest) else {
        return Err(refused(rest));
    };
    let at = of.at;
    Ok((nodes::effect(at, of), after))
}
