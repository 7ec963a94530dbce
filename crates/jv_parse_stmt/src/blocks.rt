//! Blocks and the statements in them (JLS 14.2).

ghost use Rattle.std.specs.Prelude.{◌≡◌, Ok, Err, length};
ghost use Rattle.jv_tree.specs.StmtTree.{stmt_tree, stmt_trees};
ghost use Rattle.jv_grammar.specs.ExprReader.{below};
ghost use Rattle.jv_grammar.specs.StmtReader.{below_stmt, block_by, bstmt_by, bstmts_by, ends_block};
ghost use Rattle.jv_parse_expr.specs.View.{Gives};

use crate::statements::statement;
use crate::variables::{begins_local, local};
use jv_grammar::Terminal;
use jv_parse_expr::fault::{Fault, refused};
use jv_parse_expr::marks::{BRACE_CLOSE, BRACE_OPEN, SEMICOLON};
use jv_parse_expr::terminals::{behind, split};
use jv_tree::Stmt;
use std::alloc::Global;

/// Whether no further statement of a block stands here: a `}`, or the end.
fn ends_block(terminals: &[Terminal]) -> bool
    ensures { result ≡ ends_block terminals.now }
{
    match split(terminals) {
        Some((Terminal::Punct(_, mark), _)) => mark == BRACE_CLOSE,
        Some(_) => false,
        None => true,
    }
}

/// A block with the offset of its `{`, and the terminals behind it. It is one of the `fuel` levels that may be nested.
///
/// It takes time linear in the number of terminals that it reads.
#[cycle(statements)]
#[tactic(auto, using(jv_parse_expr::proofs::Faults::fails_bind), unfolding(jv_grammar::specs::StmtReader::block_by))]
pub fn block<'a>(
    alloc: Global,
    fuel: u32,
    terminals: &'a [Terminal],
) -> Result<(u32, Vec<Stmt>, &'a [Terminal]), Fault>
    ensures { Gives (λ r. ((r.0, stmt_trees r.1.items), r.2.now)) result (block_by (below_stmt fuel) terminals.now) }
{
    match split(terminals) {
        Some((Terminal::Punct(at, BRACE_OPEN), open)) => {
            let (items, rest) = nested_block_statements(alloc, fuel, open)?;
            let Some(after) = behind(BRACE_CLOSE, rest) else {
                return Err(refused(rest));
            };
            Ok((at, items, after))
        }
        _ => Err(refused(terminals)),
    }
}

/// A statement of a block, and the terminals behind it.
#[cycle(statements)]
#[tactic(auto, using(jv_parse_expr::proofs::Faults::fails_bind), unfolding(jv_grammar::specs::StmtReader::bstmt_by))]
fn block_statement<'a>(
    alloc: Global,
    fuel: u32,
    terminals: &'a [Terminal],
) -> Result<(Stmt, &'a [Terminal]), Fault>
    ensures { Gives (λ r. (stmt_tree r.0, r.1.now)) result
        (bstmt_by (below fuel) (below_stmt fuel) terminals.now) }
{
    if begins_local(terminals) {
        let (declared, rest) = local(alloc, fuel, terminals)?;
        let Some(after) = behind(SEMICOLON, rest) else {
            return Err(refused(rest));
        };
        return Ok((declared, after));
    }
    statement(alloc, fuel, terminals)
}

/// The statements of a block up to a `}` or the end, nested at most `fuel` deep, and the terminals from there on.
///
/// It takes time linear in the number of terminals that it reads.
#[cycle(statements)]
#[tactic(auto, using(jv_parse_expr::proofs::Faults::fails_bind))]
pub fn block_statements<'a>(
    alloc: Global,
    fuel: u32,
    terminals: &'a [Terminal],
) -> Result<(Vec<Stmt>, &'a [Terminal]), Fault>
    ensures { Gives (λ r. (stmt_trees r.0.items, r.1.now)) result
        (bstmts_by (below fuel) (below_stmt fuel) terminals.now) }
{
    let mut items = Vec::new(alloc);
    let mut rest = terminals;
    for _i in 0..terminals.len() + 1 {
        if ends_block(rest) {
            return Ok((items, rest));
        }
        let (item, after) = match block_statement(alloc, fuel, rest) {
            Ok(read) => read,
            Err(fault) => return Err(fault),
        };
        items.push(item)?;
        rest = after;
    }
    Err(refused(rest))
}

/// The statements of a block, nested one level deeper; `fuel` says how many levels there may be.
#[cycle(statements)]
#[tactic(auto, using(jv_parse_expr::proofs::Faults::fails_bind), unfolding(jv_grammar::specs::StmtReader::below_stmt))]
fn nested_block_statements<'a>(
    alloc: Global,
    fuel: u32,
    terminals: &'a [Terminal],
) -> Result<(Vec<Stmt>, &'a [Terminal]), Fault>
    ensures { Gives (λ r. (stmt_trees r.0.items, r.1.now)) result ((below_stmt fuel).bstmts terminals.now) }
{
    if fuel == 0 {
        return Err(refused(terminals));
    }
    block_statements(alloc, fuel - 1, terminals)
}
