//! What a class or an interface extends and implements (JLS 8.1.4, 8.1.5, 9.1.3).

ghost use Rattle.std.specs.Prelude.{◌≡◌, Ok, Err, length, map};
ghost use Rattle.jv_tree.specs.TypeTree.{ids_of};
ghost use Rattle.jv_grammar.specs.DeclReader.{names_of, parent_of, headed_of};
ghost use Rattle.jv_parse_expr.specs.View.{Gives};

use jv_grammar::Terminal;
use jv_parse_expr::fault::{Fault, refused};
use jv_parse_expr::marks::{COMMA, WORD_EXTENDS};
use jv_parse_expr::names::name;
use jv_parse_expr::terminals::{behind, behind_word};
use jv_tree::Name;
use std::alloc::Global;

/// Names with commas between them, at most as many as `count`.
#[tactic(auto, using(jv_parse_expr::proofs::Faults::fails_bind))]
fn names<'a>(
    alloc: Global,
    count: usize,
    terminals: &'a [Terminal],
) -> Result<(Vec<Name>, &'a [Terminal]), Fault>
    ensures { Gives (λ r. (map ids_of r.0.items, r.1.now)) result (names_of count terminals.now) }
{
    let mut items = Vec::new(alloc);
    let mut rest = terminals;
    for _i in 0..count {
        let (item, after) = match name(alloc, rest) {
            Ok(read) => read,
            Err(fault) => return Err(fault),
        };
        items.push(item)?;
        let Some(next) = behind(COMMA, after) else {
            return Ok((items, after));
        };
        rest = next;
    }
    Err(refused(rest))
}

/// The name behind `extends`, or else none.
#[tactic(auto, using(jv_parse_expr::proofs::Faults::fails_bind), unfolding(jv_grammar::specs::DeclReader::parent_of))]
pub(crate) fn parent<'a>(
    alloc: Global,
    terminals: &'a [Terminal],
) -> Result<(Vec<Name>, &'a [Terminal]), Fault>
    ensures { Gives (λ r. (map ids_of r.0.items, r.1.now)) result (parent_of terminals.now) }
{
    let mut items = Vec::new(alloc);
    let Some(open) = behind_word(WORD_EXTENDS, terminals) else {
        return Ok((items, terminals));
    };
    let (item, after) = name(alloc, open)?;
    items.push(item)?;
    Ok((items, after))
}

/// The names behind the keyword, or else none.
#[tactic(auto, using(jv_parse_expr::proofs::Faults::fails_bind), unfolding(jv_grammar::specs::DeclReader::headed_of))]
pub(crate) fn headed_names<'a>(
    alloc: Global,
    word: u8,
    terminals: &'a [Terminal],
) -> Result<(Vec<Name>, &'a [Terminal]), Fault>
    ensures { Gives (λ r. (map ids_of r.0.items, r.1.now)) result (headed_of word terminals.now) }
{
    let Some(open) = behind_word(word, terminals) else {
        return Ok((Vec::new(alloc), terminals));
    };
    names(alloc, terminals.len(), open)
}
