//! Names: identifiers with dots between them (JLS 6.2).

ghost use Rattle.std.specs.Prelude.{◌≡◌, ◌<◌, Ok, Err, length, MatchOption};
ghost use Rattle.jv_tree.specs.TypeTree.{ids_of};
ghost use Rattle.jv_grammar.specs.TypeReader.{name_of};
ghost use Rattle.jv_parse_expr.specs.View.{Gives, Skips};

use crate::fault::{Fault, refused};
use crate::marks::DOT;
use crate::terminals::{behind, identifier};
use jv_grammar::Terminal;
use jv_tree::Name;
use std::alloc::Global;

/// A name and the terminals behind it.
#[tactic(auto, using(crate::proofs::Faults::fails_bind))]
pub fn name<'a>(alloc: Global, terminals: &'a [Terminal]) -> Result<(Name, &'a [Terminal]), Fault>
    ensures { Gives (λ r. (ids_of r.0, r.1.now)) result (name_of terminals.now) }
{
    let Some((first, after)) = identifier(terminals) else {
        return Err(refused(terminals));
    };
    let mut ids = Vec::new(alloc);
    ids.push(first)?;
    let mut rest = after;
    while let Some(dotted) = behind(DOT, rest) {
        let Some((next, after)) = identifier(dotted) else {
            return Err(refused(dotted));
        };
        ids.push(next)?;
        rest = after;
    }
    Ok((Name { ids }, rest))
}

/// The terminals behind the name that stands first, if one does.
pub fn behind_name(terminals: &[Terminal]) -> Option<&[Terminal]>
    ensures { Skips result (name_of terminals.now) }
{
    let (_, after) = identifier(terminals)?;
    let mut rest = after;
    while let Some(dotted) = behind(DOT, rest) {
        let Some((_, after)) = identifier(dotted) else {
            return None;
        };
        rest = after;
    }
    Some(rest)
}
