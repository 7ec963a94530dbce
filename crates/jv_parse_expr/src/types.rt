//! Types as they are written (JLS 4).

ghost use Rattle.std.specs.Prelude.{◌≡◌, ◌≤◌, Ok, Err, option_map};
ghost use Rattle.jv_tree.specs.TypeTree.{base_tree, type_tree};
ghost use Rattle.jv_grammar.specs.TypeReader.{prim_of, base_of, pairs_of, ty_of, is_bare, reference_of, declares, is_prim};
ghost use Rattle.jv_grammar.specs.ExprReader.{cast_ahead};
ghost use Rattle.jv_parse_expr.specs.View.{Gives};

use crate::fault::{Fault, refused};
use crate::marks::{
    BRACKET_CLOSE, BRACKET_OPEN, PAREN_CLOSE, WORD_BOOLEAN, WORD_CHAR, WORD_INT, WORD_LONG,
};
use crate::names::{behind_name, name};
use crate::terminals::{begins_plain, behind, rest, split, starts, starts_ident, starts_pair};
use jv_grammar::Terminal;
use jv_tree::{Base, TypeRef, nodes};
use std::alloc::Global;

/// The primitive type of a keyword, if it is one.
pub fn primitive(word: u8) -> Option<Base>
    ensures { option_map base_tree result ≡ prim_of word }
{
    match word {
        WORD_BOOLEAN => Some(Base::Boolean),
        WORD_CHAR => Some(Base::Char),
        WORD_INT => Some(Base::Int),
        WORD_LONG => Some(Base::Long),
        _ => None,
    }
}

/// Whether the keyword is that of a primitive type.
pub fn is_primitive(word: u8) -> bool
    ensures { result ≡ is_prim (prim_of word) }
{
    word == WORD_BOOLEAN || word == WORD_CHAR || word == WORD_INT || word == WORD_LONG
}

/// A primitive type or a name, with its place and the terminals behind it.
#[tactic(auto, using(crate::proofs::Faults::fails_bind), unfolding(jv_grammar::specs::TypeReader::base_of))]
pub fn base<'a>(
    alloc: Global,
    terminals: &'a [Terminal],
) -> Result<(u32, Base, &'a [Terminal]), Fault>
    ensures { Gives (λ r. ((r.0, base_tree r.1), r.2.now)) result (base_of terminals.now) }
{
    match split(terminals) {
        Some((Terminal::Keyword(at, word), after)) => match primitive(word) {
            Some(base) => Ok((at, base, after)),
            None => Err(refused(terminals)),
        },
        Some((Terminal::Ident(first), _)) => {
            let (ids, after) = name(alloc, terminals)?;
            Ok((first.at, Base::Named(ids), after))
        }
        _ => Err(refused(terminals)),
    }
}

/// How many pairs of brackets stand first, for which there is this much room, and the terminals behind them.
pub fn pairs(room: u8, terminals: &[Terminal]) -> Result<(u8, &[Terminal]), Fault>
    ensures { Gives (λ r. (r.0, r.1.now)) result (pairs_of room terminals.now) }
{
    let mut rest = terminals;
    for dims in 0..room {
        let Some(open) = behind(BRACKET_OPEN, rest) else {
            return Ok((dims, rest));
        };
        let Some(after) = behind(BRACKET_CLOSE, open) else {
            return Err(refused(open));
        };
        rest = after;
    }
    if starts(BRACKET_OPEN, rest) {
        return Err(refused(rest));
    }
    Ok((room, rest))
}

/// A type with at most 200 pairs of brackets, and the terminals behind it.
#[tactic(auto, using(crate::proofs::Faults::fails_bind), unfolding(jv_grammar::specs::TypeReader::ty_of))]
pub fn ty<'a>(alloc: Global, terminals: &'a [Terminal]) -> Result<(TypeRef, &'a [Terminal]), Fault>
    ensures { Gives (λ r. (type_tree r.0, r.1.now)) result (ty_of terminals.now) }
{
    let (at, base, after) = base(alloc, terminals)?;
    let (dims, after) = pairs(200, after)?;
    Ok((TypeRef { at, base, dims }, after))
}

/// Whether a type is a primitive type without brackets.
pub fn is_bare(ty: &TypeRef) -> bool
    ensures { result ≡ is_bare (type_tree ty.now) }
{
    match &ty.base {
        Base::Named(_) => false,
        _ => ty.dims == 0,
    }
}

/// A type that is no bare primitive type, and the terminals behind it.
#[tactic(auto, using(crate::proofs::Faults::fails_bind), unfolding(jv_grammar::specs::TypeReader::reference_of))]
pub fn reference<'a>(
    alloc: Global,
    terminals: &'a [Terminal],
) -> Result<(TypeRef, &'a [Terminal]), Fault>
    ensures { Gives (λ r. (type_tree r.0, r.1.now)) result (reference_of terminals.now) }
{
    let (ty, after) = ty(alloc, terminals)?;
    if is_bare(&ty) {
        return Err(refused(after));
    }
    Ok((ty, after))
}

/// Whether the terminals begin a declaration of local variables.
#[tactic(auto, unfolding(jv_grammar::specs::TypeReader::declares))]
pub fn declares(terminals: &[Terminal]) -> bool
    ensures { result ≡ declares terminals.now }
{
    match split(terminals) {
        Some((Terminal::Keyword(_, word), _)) => is_primitive(word),
        Some((Terminal::Ident(_), _)) => match behind_name(terminals) {
            Some(after) => starts_ident(after) || starts_pair(after),
            None => false,
        },
        _ => false,
    }
}

/// Whether a cast stands behind a `(`.
#[tactic(auto, unfolding(jv_grammar::specs::ExprReader::cast_ahead))]
pub fn cast_ahead(terminals: &[Terminal]) -> bool
    ensures { result ≡ cast_ahead terminals.now }
{
    match split(terminals) {
        Some((Terminal::Keyword(_, word), _)) => is_primitive(word),
        Some((Terminal::Ident(_), _)) => match behind_name(terminals) {
            Some(after) => {
                starts_pair(after) || (starts(PAREN_CLOSE, after) && begins_plain(rest(after)))
            }
            None => false,
        },
        _ => false,
    }
}
