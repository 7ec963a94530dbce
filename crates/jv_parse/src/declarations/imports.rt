//! Packages and imports of files (JLS 7.4, 7.5).

ghost use Rattle.std.specs.Prelude.{◌≡◌, Ok, Err, length, map};
ghost use Rattle.std.specs.Option.{option_map};
ghost use Rattle.jv_tree.specs.TypeTree.{ids_of};
ghost use Rattle.jv_tree.specs.DeclTree.{import_tree};
ghost use Rattle.jv_grammar.specs.DeclReader.{package_of, path_of, stands_alone, listed_of, import_of, imports_of};
ghost use Rattle.jv_parse_expr.specs.View.{Gives};

use jv_grammar::Terminal;
use jv_parse_expr::fault::{Fault, refused};
use jv_parse_expr::marks::{DOT, SEMICOLON, STAR, WORD_IMPORT, WORD_PACKAGE, WORD_STATIC};
use jv_parse_expr::names::name;
use jv_parse_expr::terminals::{behind, behind_word, identifier};
use jv_tree::{Import, Name, nodes};
use std::alloc::Global;

/// The package of a file, or else none.
#[tactic(auto, using(jv_parse_expr::proofs::Faults::fails_bind), unfolding(jv_grammar::specs::DeclReader::package_of))]
pub(crate) fn package<'a>(
    alloc: Global,
    terminals: &'a [Terminal],
) -> Result<(Option<Name>, &'a [Terminal]), Fault>
    ensures { Gives (λ r. (option_map ids_of r.0, r.1.now)) result (package_of terminals.now) }
{
    let Some(open) = behind_word(WORD_PACKAGE, terminals) else {
        return Ok((None, terminals));
    };
    let (name, rest) = name(alloc, open)?;
    let Some(after) = behind(SEMICOLON, rest) else {
        return Err(refused(rest));
    };
    Ok((Some(name), after))
}

/// The name of an import, and whether `.*` stands behind it; at most as many identifiers as `count`. The import is static where
/// `is_static` says so.
#[tactic(auto, using(jv_parse_expr::proofs::Faults::fails_bind))]
fn path<'a>(
    alloc: Global,
    is_static: bool,
    count: usize,
    terminals: &'a [Terminal],
) -> Result<(Import, &'a [Terminal]), Fault>
    ensures { Gives (λ r. (import_tree r.0, r.1.now)) result (path_of is_static count terminals.now) }
{
    let mut ids = Vec::new(alloc);
    let mut rest = terminals;
    for _i in 0..count {
        let Some((next, after)) = identifier(rest) else {
            return Err(refused(rest));
        };
        ids.push(next)?;
        let Some(dotted) = behind(DOT, after) else {
            return Ok((nodes::import(Name { ids }, false, is_static), after));
        };
        if let Some(end) = behind(STAR, dotted) {
            return Ok((nodes::import(Name { ids }, true, is_static), end));
        }
        rest = dotted;
    }
    Err(refused(rest))
}

/// Whether this is a single static import of one identifier, which names no type.
fn stands_alone(import: &Import) -> bool
    ensures { result ≡ stands_alone (import_tree import.now) }
{
    import.is_static && (!import.all && import.name.ids.len() < 2)
}

/// An import behind its words.
#[tactic(auto, using(jv_parse_expr::proofs::Faults::fails_bind), unfolding(jv_grammar::specs::DeclReader::listed_of))]
fn listed<'a>(
    alloc: Global,
    is_static: bool,
    terminals: &'a [Terminal],
) -> Result<(Import, &'a [Terminal]), Fault>
    ensures { Gives (λ r. (import_tree r.0, r.1.now)) result (listed_of is_static terminals.now) }
{
    let (item, end) = path(alloc, is_static, terminals.len(), terminals)?;
    if stands_alone(&item) {
        let alone = end;
        return Err(refused(alone));
    }
    let Some(after) = behind(SEMICOLON, end) else {
        return Err(refused(end));
    };
    Ok((item, after))
}

/// An import behind its keyword (JLS 7.5).
#[tactic(auto, using(jv_parse_expr::proofs::Faults::fails_bind), unfolding(jv_grammar::specs::DeclReader::import_of))]
fn import<'a>(alloc: Global, terminals: &'a [Terminal]) -> Result<(Import, &'a [Terminal]), Fault>
    ensures { Gives (λ r. (import_tree r.0, r.1.now)) result (import_of terminals.now) }
{
    match behind_word(WORD_STATIC, terminals) {
        Some(after) => listed(alloc, true, after),
        None => listed(alloc, false, terminals),
    }
}

/// Imports, fewer than `count`.
#[tactic(auto, using(jv_parse_expr::proofs::Faults::fails_bind))]
pub(crate) fn imports<'a>(
    alloc: Global,
    count: usize,
    terminals: &'a [Terminal],
) -> Result<(Vec<Import>, &'a [Terminal]), Fault>
    ensures { Gives (λ r. (map import_tree r.0.items, r.1.now)) result (imports_of count terminals.now) }
{
    let mut items = Vec::new(alloc);
    let mut rest = terminals;
    for _i in 0..count {
        let Some(open) = behind_word(WORD_IMPORT, rest) else {
            return Ok((items, rest));
        };
        let (item, after) = match import(alloc, open) {
            Ok(read) => read,
            Err(fault) => return Err(fault),
        };
        items.push(item)?;
        rest = after;
    }
    Err(refused(rest))
}
