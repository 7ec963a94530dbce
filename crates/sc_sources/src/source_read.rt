//! One source: its tokens, and then its tree, or its first fault.

ghost use Rattle.std.specs.Prelude.{◌≡◌, ℕ, ◌+◌, ◌<◌, ◌≤◌, ◌^◌, List, All, length, slice_get, IfOk};
ghost use Rattle.jv_lex.specs.Source.{IsPlaced, Tokenizes, IsFaultOf};
ghost use Rattle.sc_sources.specs.Sources.{start_of, Reads};
ghost use Rattle.sc_sources.specs.Reading.{outcome_of, IsPlain};

use jv_lex::{LexFault, Token, lex};
use jv_parse::{ParseFault, parse};
use jv_tree::{Names, Unit};
use std::alloc::{AllocError, Global};

/// What a source was read as.
#[derive(Drop)]
pub(crate) enum SourceRead {
    Tree(Unit),
    /// The offset of the byte at which the source is wrong, from 0, and the code of what is wrong there.
    Fault { at: u32, code: u8 },
}

/// The codes of what may be wrong with a source.
const NOT_UTF8: u8 = 1;

pub(crate) const NO_TREE: u8 = 2;

const BAD_LITERAL: u8 = 3;

pub(crate) const TOO_DEEP: u8 = 4;

const BAD_TOKEN: u8 = 5;

/// Reads a source of at most 1 MiB with the names of those before it. It takes time and memory linear in the source, as is
/// expected of a hash.
pub(crate) fn read_source(
    alloc: Global,
    source: &[u8],
    names: &mut Names,
) -> Result<SourceRead, AllocError>
    requires size { length source.now ≤ 1048576 }
    requires room { length names.old + length source.now < u32.MAX }
    ensures reads { IfOk result (λ r. Reads source.now names.old names.new (outcome_of r)) }
    ensures plain { IfOk result IsPlain }
{
    let tokens = match lex(alloc, source) {
        Ok(tokens) => tokens,
        Err(fault) => return without_tokens(fault),
    };
    match str::from_utf8(source) {
        Ok(text) => read_tokens(alloc, text, &tokens, names),
        Err(_) => unreachable!(),
    }
}

/// What a source without tokens was read as.
pub(crate) fn without_tokens(fault: LexFault) -> Result<SourceRead, AllocError>
    ensures reads { IfOk result (λ r. (bytes : List ℕ) (names : List (List ℕ)) → IsFaultOf bytes fault → Reads bytes names names (outcome_of r)) }
    ensures plain { IfOk result IsPlain }
{
    match fault {
        LexFault::NotUtf8 { at } => Ok(SourceRead::Fault { at, code: NOT_UTF8 }),
        LexFault::BadLiteral { at } => Ok(SourceRead::Fault {
            at,
            code: BAD_LITERAL,
        }),
        LexFault::BadToken { at } => Ok(SourceRead::Fault {
            at,
            code: BAD_TOKEN,
        }),
        LexFault::OutOfMemory => Err(AllocError),
    }
}

/// What a source of these tokens was read as.
fn read_tokens(
    alloc: Global,
    source: &str,
    tokens: &[Token],
    names: &mut Names,
) -> Result<SourceRead, AllocError>
    requires size { length source.now ≤ 1048576 }
    requires tokens { Tokenizes source.now tokens.now }
    requires placed { All (IsPlaced source.now) tokens.now }
    requires room { length names.old + length tokens.now < u32.MAX }
    ensures reads { IfOk result (λ r. Reads source.now names.old names.new (outcome_of r)) }
    ensures plain { IfOk result IsPlain }
{
    match parse(alloc, source, tokens, names) {
        Ok(unit) => Ok(SourceRead::Tree(unit)),
        Err(ParseFault::TooDeep { token }) => Ok(SourceRead::Fault {
            at: tokens[token as usize].start,
            code: TOO_DEEP,
        }),
        Err(ParseFault::NotInGrammar { token }) => Ok(SourceRead::Fault {
            at: start_of(source, tokens, token),
            code: NO_TREE,
        }),
        Err(ParseFault::OutOfMemory) => Err(AllocError),
    }
}

/// Where the token of a number starts, or where there is none the end of the source.
fn start_of(source: &str, tokens: &[Token], number: u32) -> u32
    requires { length source.now < 2 ^ 32 }
    ensures { result ≡ start_of source.now (slice_get tokens.now number) }
{
    match tokens.get(number as usize) {
        Some(token) => token.start,
        None => source.len() as u32,
    }
}
