//! Files (JLS 7.3).

ghost use Rattle.std.specs.Prelude.{◌≡◌, Ok, Err, length, map};
ghost use Rattle.jv_tree.specs.DeclTree.{type_decl_tree, tree_of};
ghost use Rattle.jv_grammar.specs.DeclReader.{type_of, types_of, file_of};
ghost use Rattle.jv_parse_expr.specs.View.{Gives};

use crate::declarations::imports::{imports, package};
use crate::declarations::modifiers::modifiers;
use crate::declarations::type_declarations::type_declaration;
use jv_grammar::Terminal;
use jv_parse_expr::fault::{Fault, refused};
use jv_parse_expr::marks::SEMICOLON;
use jv_parse_expr::terminals::behind;
use jv_tree::{TypeDecl, Unit, nodes};
use std::alloc::Global;

/// A class or an interface with its modifiers, and the terminals behind it.
#[tactic(auto, using(jv_parse_expr::proofs::Faults::fails_bind))]
fn top_type<'a>(
    alloc: Global,
    fuel: u32,
    terminals: &'a [Terminal],
) -> Result<(TypeDecl, &'a [Terminal]), Fault>
    ensures { Gives (λ r. (type_decl_tree r.0, r.1.now)) result (type_of fuel terminals.now) }
{
    let (mods, rest) = match modifiers(alloc, terminals) {
        Ok(read) => read,
        Err(fault) => return Err(fault),
    };
    type_declaration(alloc, fuel, mods, rest)
}

/// The types of a file up to its end; at most as many types and `;` as `count`.
#[tactic(auto, using(jv_parse_expr::proofs::Faults::fails_bind))]
fn types(
    alloc: Global,
    fuel: u32,
    count: usize,
    terminals: &[Terminal],
) -> Result<Vec<TypeDecl>, Fault>
    ensures { Gives (λ r. map type_decl_tree r.items) result (types_of fuel count terminals.now) }
{
    let mut items = Vec::new(alloc);
    let mut rest = terminals;
    for _i in 0..count {
        if rest.is_empty() {
            return Ok(items);
        }
        if let Some(next) = behind(SEMICOLON, rest) {
            rest = next;
            continue;
        }
        let (item, after) = match top_type(alloc, fuel, rest) {
            Ok(read) => read,
            Err(fault) => return Err(fault),
        };
        items.push(item)?;
        rest = after;
    }
    if !rest.is_empty() {
        return Err(refused(rest));
    }
    Ok(items)
}

/// A file in which types and what is in them nest at most `fuel` deep: all terminals of it are taken. Its time grows with
/// their number.
#[tactic(auto, using(jv_parse_expr::proofs::Faults::fails_bind), unfolding(jv_grammar::specs::DeclReader::file_of))]
pub(crate) fn file(alloc: Global, fuel: u32, terminals: &[Terminal]) -> Result<Unit, Fault>
    ensures { Gives tree_of result (file_of fuel terminals.now) }
{
    let (package, rest) = package(alloc, terminals)?;
    let (imports, rest) = imports(alloc, rest.len() + 1, rest)?;
    let types = types(alloc, fuel, rest.len(), rest)?;
    Ok(nodes::unit(package, imports, types))
}
