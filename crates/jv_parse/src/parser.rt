//! From the tokens of a source to its tree.

ghost use Rattle.std.specs.Prelude.{◌≡◌, ℕ, ◌+◌, ◌<◌, ◌≤◌, ◌↔◌, ◌^◌, All, length, IfOk, Err};
ghost use Rattle.jv_lex.specs.Source.{IsPlaced};
ghost use Rattle.jv_tree.specs.DeclTree.{tree_of};
ghost use Rattle.jv_tree.specs.Identifiers.{idents_unit};
ghost use Rattle.jv_tree.specs.Numbered.{IsNumbered};
ghost use Rattle.jv_grammar.specs.Load.{IsFirstDeep};
ghost use Rattle.jv_parse.specs.declared.parse_fault.ParseFault.TheVariants.{TooDeep, NotInGrammar};
ghost use Rattle.jv_parse.specs.Naming.{names_with};
ghost use Rattle.jv_parse.specs.Parse.{terminals_of, IsTreeOf, HasNoTreeAt, Says, IsAnswered, AddsNames};

use crate::declarations::files::file;
use crate::naming::name_tokens;
use crate::parse_fault::ParseFault;
use jv_grammar::laws::{
    readers_find_trees, readers_need_few_levels, refused_files_are_refused_there,
    shallow_files_derive_once,
};
use jv_grammar::{Terminal, first_deep};
use jv_lex::Token;
use jv_parse_expr::fault::Fault;
use jv_tree::{Names, Unit};
use std::alloc::Global;

/// How many levels the readers need for terminals whose load stays below 201. Fields, calls and indexes behind one
/// another are no levels.
const LEVELS: u32 = 400;

/// How many bytes of stack a thread needs at most that calls `parse` and lets go of the tree, with room to spare: 8 MiB.
/// Tested with the deepest sources of each kind and with the longest spines, not proved.
pub const PARSE_STACK: usize = 1 << 23;

/// The tree of a source of these tokens, as `lex` gives them (JLS 7.3, in the profile of `docs/JAVA-PROFILE.md`).
///
/// A source is `TooDeep` exactly where its load reaches 201, at the first token behind which it does, whatever else is
/// wrong with it. Otherwise it is `NotInGrammar` exactly where no tree derives from its tokens. The token is the first one
/// with which they no longer begin a file, or their number, where all of them begin one. `OutOfMemory` comes only where
/// memory runs out, which may be before or after the others are known.
///
/// The texts of identifiers become names. The names that were there keep their numbers, with or without a fault, and
/// each new one is the text of an identifier of the source. Without a fault of memory all its identifiers are named.
/// The numbers in the tree are those of names.
///
/// It takes time and memory linear in the source, as is expected of a hash. Its readers nest at most 400 levels deep.
/// Fields, calls and indexes behind one another are no levels, and are as many as the source has room for: they are read,
/// and let go, in a loop.
pub fn parse(
    alloc: Global,
    source: &str,
    tokens: &[Token],
    names: &mut Names,
) -> Result<Unit, ParseFault>
    requires placed { All (IsPlaced source.now) tokens.now }
    requires room { length names.old + length tokens.now < u32.MAX }
    ensures tree { IfOk result (λ u. IsTreeOf (terminals_of source.now names.new tokens.now) (tree_of u)) }
    ensures too_deep { IsAnswered result → (i : ℕ) →
        (result ≡ Err (TooDeep i)) ↔ IsFirstDeep (terminals_of source.now names.new tokens.now) i }
    ensures not_in_grammar { IsAnswered result → (i : ℕ) →
        (result ≡ Err (NotInGrammar i)) ↔ HasNoTreeAt (terminals_of source.now names.new tokens.now) i }
    ensures count { IfOk result (λ u. idents_unit (tree_of u) ≤ length tokens.now) }
    ensures numbered { IfOk result (λ u. IsNumbered (length names.new) (tree_of u)) }
    ensures named { IsAnswered result → names.new ≡ names_with source.now names.old tokens.now }
    ensures names { AddsNames source.now tokens.now names.old names.new }
{
    let terminals = name_tokens(alloc, source, tokens, names)?;
    parse_terminals(alloc, &terminals)
}

/// The tree of terminals, as `parse` says, for who has named the tokens by `name_tokens`.
pub fn parse_terminals(alloc: Global, terminals: &[Terminal]) -> Result<Unit, ParseFault>
    requires { length terminals.now < 2 ^ 32 }
    ensures { Says terminals.now result }
{
    if let Some(token) = first_deep(terminals) {
        return Err(ParseFault::TooDeep { token });
    }
    shallow_files_derive_once();
    readers_find_trees();
    readers_need_few_levels();
    refused_files_are_refused_there();
    match file(alloc, LEVELS, terminals) {
        Ok(unit) => Ok(unit),
        Err(Fault::OutOfMemory) => Err(ParseFault::OutOfMemory),
        Err(Fault::Refused(left)) => Err(ParseFault::NotInGrammar {
            token: (terminals.len() - left) as u32,
        }),
    }
}
