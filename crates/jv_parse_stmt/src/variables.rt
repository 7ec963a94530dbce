//! Variables with their initializers, and declarations of local variables (JLS 8.3, 14.4).

ghost use Rattle.std.specs.Prelude.{◌≡◌, Ok, Err, length};
ghost use Rattle.jv_tree.specs.StmtTree.{stmt_tree, var_tree, var_trees};
ghost use Rattle.jv_grammar.specs.ExprReader.{below};
ghost use Rattle.jv_grammar.specs.StmtReader.{var_by, vars_by, local_by, begins_local};
ghost use Rattle.jv_parse_expr.specs.View.{Gives};

use jv_grammar::Terminal;
use jv_parse_expr::expressions::initializer;
use jv_parse_expr::fault::{Fault, refused};
use jv_parse_expr::marks::{COMMA, EQUALS_SIGN, WORD_FINAL};
use jv_parse_expr::terminals::{behind, identifier, split, starts_word};
use jv_parse_expr::types::{declares, ty};
use jv_tree::{Stmt, Var, nodes};
use std::alloc::Global;

/// A variable and the terminals behind it.
#[tactic(auto, using(jv_parse_expr::proofs::Faults::fails_bind), unfolding(jv_grammar::specs::StmtReader::var_by))]
fn variable<'a>(
    alloc: Global,
    fuel: u32,
    terminals: &'a [Terminal],
) -> Result<(Var, &'a [Terminal]), Fault>
    ensures { Gives (λ r. (var_tree r.0, r.1.now)) result (var_by (below fuel) terminals.now) }
{
    let Some((name, after)) = identifier(terminals) else {
        return Err(refused(terminals));
    };
    let Some(assigned) = behind(EQUALS_SIGN, after) else {
        return Ok((nodes::variable(name, None), after));
    };
    let (init, after) = initializer(alloc, fuel, assigned)?;
    Ok((nodes::variable(name, Some(init)), after))
}

/// Variables with commas between them, and the terminals behind them. Their initializers nest at most `fuel` deep.
///
/// It takes time linear in the number of terminals that it reads.
#[tactic(auto, using(jv_parse_expr::proofs::Faults::fails_bind))]
pub fn variables<'a>(
    alloc: Global,
    fuel: u32,
    terminals: &'a [Terminal],
) -> Result<(Vec<Var>, &'a [Terminal]), Fault>
    ensures { Gives (λ r. (var_trees r.0.items, r.1.now)) result (vars_by (below fuel) terminals.now) }
{
    let mut items = Vec::new(alloc);
    let mut rest = terminals;
    for _i in 0..terminals.len() {
        let (item, after) = match variable(alloc, fuel, rest) {
            Ok(read) => read,
            Err(fault) => return Err(fault),
        };
        items.push(item)?;
        let Some(next) = behind(COMMA, after) else {
            return Ok((items, after));
        };
        rest = next;
    }
    Err(refused(rest))
}

/// Whether the terminals begin a declaration of local variables.
pub(crate) fn begins_local(terminals: &[Terminal]) -> bool
    ensures { result ≡ begins_local terminals.now }
{
    starts_word(WORD_FINAL, terminals) || declares(terminals)
}

/// A declaration of local variables up to its `;`, and the terminals from there on.
#[tactic(auto, using(jv_parse_expr::proofs::Faults::fails_bind), unfolding(jv_grammar::specs::StmtReader::local_by, jv_grammar::specs::StmtReader::final_by, jv_grammar::specs::StmtReader::plain_by))]
pub(crate) fn local<'a>(
    alloc: Global,
    fuel: u32,
    terminals: &'a [Terminal],
) -> Result<(Stmt, &'a [Terminal]), Fault>
    ensures { Gives (λ r. (stmt_tree r.0, r.1.now)) result (local_by (below fuel) terminals.now) }
{
    match split(terminals) {
        Some((Terminal::Keyword(at, WORD_FINAL), behind)) => {
            let (ty, after) = ty(alloc, behind)?;
            let (items, after) = variables(alloc, fuel, after)?;
            Ok((nodes::local(at, true, ty, items), after))
        }
        _ => {
            let (ty, after) = ty(alloc, terminals)?;
            let at = ty.at;
            let (items, after) = variables(alloc, fuel, after)?;
            Ok((nodes::local(at, false, ty, items), after))
        }
    }
}
