//! From tokens to the terminals of the grammar: each identifier gets the number of its text.

ghost use Rattle.std.specs.Prelude.{◌≡◌, ℕ, ◌+◌, ◌<◌, List, [], ◌∷◌, ◌++◌, All, length, map, IfOk, OnOk, OnErr};
ghost use Rattle.jv_lex.specs.Source.{IsPlaced};
ghost use Rattle.jv_lex.specs.declared.token.Token.{Token as TokenOf};
ghost use Rattle.jv_parse.specs.Naming.{names_with, terminal_at, terminal_of, IsNamed};

use jv_grammar::{LiteralKind, Terminal};
use jv_lex::{Token, TokenKind};
use jv_tree::{Ident, NameId, Names};
use std::alloc::{AllocError, Global};

/// The numbers of the keywords that are literals.
const TRUE: u8 = 50;

const FALSE: u8 = 51;

const NULL: u8 = 52;

/// The tokens of a source as terminals. The texts of its identifiers become names, and the names that were there keep
/// their numbers, with or without an error. It takes time in the source.
pub fn name_tokens(
    alloc: Global,
    source: &str,
    tokens: &[Token],
    names: &mut Names,
) -> Result<Vec<Terminal>, AllocError>
    requires placed { All (IsPlaced source.now) tokens.now }
    requires room { length names.old + length tokens.now < u32.MAX }
    ensures named { OnOk result (names.new ≡ names_with source.now names.old tokens.now) }
    ensures known { OnOk result (All (IsNamed source.now names.new) tokens.now) }
    ensures terminals { IfOk result (λ v. v.items ≡ map (terminal_of source.now names.new) tokens.now) }
    ensures err { OnErr result ((front back : List TokenOf) × (tokens.now ≡ front ++ back) × (names.new ≡ names_with source.now names.old front)) }
{
    let mut terminals = Vec::new(alloc);
    for token in tokens {
        let terminal = match name_token(source, token, names) {
            Ok(terminal) => terminal,
            Err(fault) => return Err(fault),
        };
        terminals.push(terminal)?;
    }
    Ok(terminals)
}

/// A token as a terminal; the text of an identifier becomes a name.
fn name_token(source: &str, token: &Token, names: &mut Names) -> Result<Terminal, AllocError>
    requires placed { IsPlaced source.now token.now }
    requires room { length names.old < u32.MAX }
    ensures named { OnOk result (names.new ≡ names_with source.now names.old (token.now ∷ [])) }
    ensures known { OnOk result (IsNamed source.now names.new token.now) }
    ensures terminal { IfOk result (λ t. t ≡ terminal_of source.now names.new token.now) }
    ensures err { OnErr result (names.new ≡ names.old) }
{
    let id = match token.kind {
        TokenKind::Ident => names.intern(&source[token.start as usize..token.end as usize])?,
        _ => NameId(0),
    };
    Ok(terminal_at(token.kind, token.start, id))
}

/// The terminal of a kind at a place, an identifier with this number.
fn terminal_at(kind: TokenKind, at: u32, id: NameId) -> Terminal
    ensures { result ≡ terminal_at kind at id.0 }
{
    match kind {
        TokenKind::Ident => Terminal::Ident(Ident { at, id }),
        TokenKind::Keyword(TRUE) => Terminal::Literal(at, LiteralKind::Bool(true)),
        TokenKind::Keyword(FALSE) => Terminal::Literal(at, LiteralKind::Bool(false)),
        TokenKind::Keyword(NULL) => Terminal::Literal(at, LiteralKind::Null),
        TokenKind::Keyword(number) => Terminal::Keyword(at, number),
        TokenKind::Int => Terminal::Literal(at, LiteralKind::Int),
        TokenKind::Long => Terminal::Literal(at, LiteralKind::Long),
        TokenKind::Minimum => Terminal::Minimum(at),
        TokenKind::MinimumLong => Terminal::MinimumLong(at),
        TokenKind::Char => Terminal::Literal(at, LiteralKind::Char),
        TokenKind::Str => Terminal::Literal(at, LiteralKind::Str),
        TokenKind::Punct(number) => Terminal::Punct(at, number),
    }
}
