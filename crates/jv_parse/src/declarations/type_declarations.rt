//! Classes and interfaces (JLS 8.1, 9.1); `fuel` says how many levels of types may be nested in one.

ghost use Rattle.std.specs.Prelude.{◌≡◌, Ok, Err};
ghost use Rattle.jv_tree.specs.DeclTree.{type_decl_tree};
ghost use Rattle.jv_grammar.specs.DeclReader.{below_type, class_of, interface_of, decl_of};
ghost use Rattle.jv_parse_expr.specs.View.{Gives};

use crate::declarations::first_words::ident;
use crate::declarations::members::braced;
use crate::declarations::supertypes::{headed_names, parent};
use jv_grammar::Terminal;
use jv_parse_expr::fault::{Fault, refused};
use jv_parse_expr::marks::{WORD_CLASS, WORD_EXTENDS, WORD_IMPLEMENTS, WORD_INTERFACE};
use jv_parse_expr::terminals::behind_word;
use jv_tree::{Mods, TypeDecl, nodes};
use std::alloc::Global;

/// A class behind its keyword.
#[cycle(declarations)]
#[tactic(auto, using(jv_parse_expr::proofs::Faults::fails_bind), unfolding(jv_grammar::specs::DeclReader::class_of))]
fn class<'a>(
    alloc: Global,
    fuel: u32,
    mods: Mods,
    terminals: &'a [Terminal],
) -> Result<(TypeDecl, &'a [Terminal]), Fault>
    ensures { Gives (λ r. (type_decl_tree r.0, r.1.now)) result
        (class_of fuel (below_type fuel) mods.words.items terminals.now) }
{
    let (name, rest) = ident(terminals)?;
    let (extends, rest) = parent(alloc, rest)?;
    let (implements, rest) = headed_names(alloc, WORD_IMPLEMENTS, rest)?;
    let (members, after) = braced(alloc, false, fuel, rest)?;
    Ok((
        nodes::class_or_interface(name, mods, false, extends, implements, members),
        after,
    ))
}

/// An interface behind its keyword.
#[cycle(declarations)]
#[tactic(auto, using(jv_parse_expr::proofs::Faults::fails_bind), unfolding(jv_grammar::specs::DeclReader::interface_of))]
fn interface<'a>(
    alloc: Global,
    fuel: u32,
    mods: Mods,
    terminals: &'a [Terminal],
) -> Result<(TypeDecl, &'a [Terminal]), Fault>
    ensures { Gives (λ r. (type_decl_tree r.0, r.1.now)) result
        (interface_of fuel (below_type fuel) mods.words.items terminals.now) }
{
    let (name, rest) = ident(terminals)?;
    let (extends, rest) = headed_names(alloc, WORD_EXTENDS, rest)?;
    let (members, after) = braced(alloc, true, fuel, rest)?;
    Ok((
        nodes::class_or_interface(name, mods, true, extends, Vec::new(alloc), members),
        after,
    ))
}

/// A class or an interface behind its modifiers.
#[cycle(declarations)]
#[tactic(auto, using(jv_parse_expr::proofs::Faults::fails_bind), unfolding(jv_grammar::specs::DeclReader::decl_of))]
pub(crate) fn type_declaration<'a>(
    alloc: Global,
    fuel: u32,
    mods: Mods,
    terminals: &'a [Terminal],
) -> Result<(TypeDecl, &'a [Terminal]), Fault>
    ensures { Gives (λ r. (type_decl_tree r.0, r.1.now)) result
        (decl_of fuel (below_type fuel) mods.words.items terminals.now) }
{
    if let Some(after) = behind_word(WORD_CLASS, terminals) {
        return class(alloc, fuel, mods, after);
    }
    if let Some(after) = behind_word(WORD_INTERFACE, terminals) {
        return interface(alloc, fuel, mods, after);
    }
    Err(refused(terminals))
}

/// A class or an interface that is a member, behind its modifiers.
#[cycle(declarations)]
#[tactic(auto, using(jv_parse_expr::proofs::Faults::fails_bind), unfolding(jv_grammar::specs::DeclReader::below_type))]
pub(crate) fn nested_type<'a>(
    alloc: Global,
    fuel: u32,
    mods: Mods,
    terminals: &'a [Terminal],
) -> Result<(TypeDecl, &'a [Terminal]), Fault>
    ensures { Gives (λ r. (type_decl_tree r.0, r.1.now)) result (below_type fuel mods.words.items terminals.now) }
{
    if fuel == 0 {
        return Err(refused(terminals));
    }
    type_declaration(alloc, fuel - 1, mods, terminals)
}
