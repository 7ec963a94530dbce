//! Statements (JLS 14.4 to 14.17).

ghost use Rattle.std.specs.Prelude.{◌≡◌, Ok, Err};
ghost use Rattle.jv_tree.specs.StmtTree as s;
ghost use Rattle.jv_tree.specs.StmtTree.{StmtTree, stmt_tree};
ghost use Rattle.jv_grammar.specs.Reader.{closed};
ghost use Rattle.jv_grammar.specs.ExprReader.{below};
ghost use Rattle.jv_grammar.specs.StmtReader.{below_stmt, return_by, stmt_by};
ghost use Rattle.jv_parse_expr.specs.View.{Gives};

use crate::blocks::block;
use crate::branches::if_statement;
use crate::conditions::optional;
use crate::effects::effect_statement;
use crate::loops::{do_statement, for_statement, while_statement};
use jv_grammar::Terminal;
use jv_parse_expr::fault::{Fault, refused};
use jv_parse_expr::marks::{
    BRACE_OPEN, SEMICOLON, WORD_BREAK, WORD_CONTINUE, WORD_DO, WORD_FOR, WORD_IF, WORD_RETURN,
    WORD_WHILE,
};
use jv_parse_expr::terminals::{behind, split};
use jv_tree::{Stmt, nodes};
use std::alloc::Global;

/// A `return` behind its keyword, which is at `at`, and the terminals behind it.
#[tactic(auto, using(jv_parse_expr::proofs::Faults::fails_bind), unfolding(jv_grammar::specs::StmtReader::return_by))]
fn return_statement<'a>(
    alloc: Global,
    fuel: u32,
    at: u32,
    terminals: &'a [Terminal],
) -> Result<(Stmt, &'a [Terminal]), Fault>
    ensures { Gives (λ r. (stmt_tree r.0, r.1.now)) result (return_by (below fuel) at terminals.now) }
{
    let (value, rest) = optional(alloc, fuel, terminals)?;
    let Some(after) = behind(SEMICOLON, rest) else {
        return Err(refused(rest));
    };
    Ok((nodes::return_from(at, value), after))
}

/// A statement whose `;` stands first, and the terminals behind it.
#[tactic(auto, using(jv_parse_expr::proofs::Faults::fails_bind))]
fn ended(statement: Stmt, terminals: &[Terminal]) -> Result<(Stmt, &[Terminal]), Fault>
    ensures { Gives (λ r. (stmt_tree r.0, r.1.now)) result (closed SEMICOLON (stmt_tree statement) terminals.now) }
{
    let Some(after) = behind(SEMICOLON, terminals) else {
        return Err(refused(terminals));
    };
    Ok((statement, after))
}

/// A statement, nested at most `fuel` deep, and the terminals behind it.
#[cycle(statements)]
#[tactic(auto, using(jv_parse_expr::proofs::Faults::fails_bind), unfolding(jv_grammar::specs::StmtReader::stmt_by, jv_grammar::specs::StmtReader::word_by))]
pub(crate) fn statement<'a>(
    alloc: Global,
    fuel: u32,
    terminals: &'a [Terminal],
) -> Result<(Stmt, &'a [Terminal]), Fault>
    ensures { Gives (λ r. (stmt_tree r.0, r.1.now)) result
        (stmt_by (below fuel) (below_stmt fuel) terminals.now) }
{
    match split(terminals) {
        Some((Terminal::Keyword(at, WORD_IF), after)) => if_statement(alloc, fuel, at, after),
        Some((Terminal::Keyword(at, WORD_WHILE), after)) => while_statement(alloc, fuel, at, after),
        Some((Terminal::Keyword(at, WORD_DO), after)) => do_statement(alloc, fuel, at, after),
        Some((Terminal::Keyword(at, WORD_FOR), after)) => for_statement(alloc, fuel, at, after),
        Some((Terminal::Keyword(at, WORD_RETURN), after)) => {
            return_statement(alloc, fuel, at, after)
        }
        Some((Terminal::Keyword(at, WORD_BREAK), after)) => ended(nodes::break_loop(at), after),
        Some((Terminal::Keyword(at, WORD_CONTINUE), after)) => {
            ended(nodes::continue_loop(at), after)
        }
        Some((Terminal::Punct(_, BRACE_OPEN), _)) => {
            let (at, items, after) = block(alloc, fuel, terminals)?;
            Ok((nodes::block(at, items), after))
        }
        Some((Terminal::Punct(at, SEMICOLON), after)) => Ok((nodes::empty(at), after)),
        _ => effect_statement(alloc, fuel, terminals),
    }
}

/// A statement, nested one level deeper; `fuel` says how many levels there may be.
#[cycle(statements)]
#[tactic(auto, using(jv_parse_expr::proofs::Faults::fails_bind), unfolding(jv_grammar::specs::StmtReader::below_stmt))]
pub(crate) fn nested_statement<'a>(
    alloc: Global,
    fuel: u32,
    terminals: &'a [Terminal],
) -> Result<(Stmt, &'a [Terminal]), Fault>
    ensures { Gives (λ r. (stmt_tree r.0, r.1.now)) result ((below_stmt fuel).stmt terminals.now) }
{
    if fuel == 0 {
        return Err(refused(terminals));
    }
    statement(alloc, fuel - 1, terminals)
}
