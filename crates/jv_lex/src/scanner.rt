//! From bytes to tokens.

ghost use Rattle.std.specs.Prelude.{◌≡◌, ℕ, ◌<◌, ◌≤◌, ◌↔◌, List, All, length, MatchOption, IfOk, IfErr, IsTrue};
ghost use Rattle.std.specs.Str.{chars};
ghost use Rattle.jv_lex.specs.Text.{begins_fraction, begins_literal, IsFirstToken, HasToken, HasNoToken, MayFollow};
ghost use Rattle.jv_lex.specs.Source.{HasNoNext, Tokenizes, IsFaultOf, IsPlaced, fault_at};

use crate::characters::{begins_word, behind_word, front, split_char};
use crate::fault::LexFault;
use crate::gaps::{begins_gap, behind_gap};
use crate::numbers::{begins_digit, behind_number, number_kind};
use crate::punctuation::longest_mark;
use crate::quotes::{behind_character, behind_string};
use crate::token::{Token, TokenKind};
use crate::words::word_kind;
use std::alloc::Global;

/// The number of the mark `-`.
const MINUS: u8 = 29;

/// The tokens of a source of at most 1 MiB, in order; blanks and comments leave none (JLS 3.5). Where the bytes are
/// not UTF-8, or a place is bad, the fault names the first such place. It takes time and memory in the bytes.
pub fn lex(alloc: Global, source: &[u8]) -> Result<Vec<Token>, LexFault>
    requires { length source.now ≤ 1048576 }
    ensures tokens { IfOk result (λ v. Tokenizes source.now v.items) }
    ensures placed { IfOk result (λ v. All (IsPlaced source.now) v.items) }
    ensures fault { IfErr result (IsFaultOf source.now) }
{
    let text = match str::from_utf8(source) {
        Ok(text) => text,
        Err(error) => {
            return Err(LexFault::NotUtf8 {
                at: error.valid_up_to() as u32,
            });
        }
    };
    let mut tokens = Vec::new(alloc);
    let mut before = None;
    let mut rest = text;
    while !rest.is_empty() {
        if let Some(behind) = behind_gap(rest) {
            rest = behind;
            continue;
        }
        let start = (text.len() - rest.len()) as u32;
        let Some((kind, behind)) = next_token(before, rest) else {
            return Err(fault_at(start, rest));
        };
        let end = (text.len() - behind.len()) as u32;
        if tokens.push(Token { kind, start, end }).is_err() {
            return Err(LexFault::OutOfMemory);
        }
        before = Some(kind);
        rest = behind;
    }
    Ok(tokens)
}

/// The fault at a bad place, from which on `rest` is left.
fn fault_at(at: u32, rest: &str) -> LexFault
    ensures { result ≡ fault_at at (begins_literal (chars rest.now)) }
{
    if begins_literal(rest) {
        LexFault::BadLiteral { at }
    } else {
        LexFault::BadToken { at }
    }
}

/// The first token of a text, where it may stand behind the token before, and what stands behind it.
fn next_token(before: Option<TokenKind>, text: &str) -> Option<(TokenKind, &str)>
    ensures { MatchOption result
        (HasNoNext before (chars text.now))
        (λ p. HasToken (chars text.now) p.0 (chars p.1.now) × MayFollow before p.0) }
{
    let (kind, rest) = first_token(text)?;
    if may_follow(before, kind) {
        return Some((kind, rest));
    }
    None
}

/// Whether a token may stand behind another one: a minimum literal stands behind `-` alone.
fn may_follow(before: Option<TokenKind>, kind: TokenKind) -> bool
    ensures { IsTrue result ↔ MayFollow before kind }
{
    match kind {
        TokenKind::Minimum | TokenKind::MinimumLong => before == Some(TokenKind::Punct(MINUS)),
        _ => true,
    }
}

/// The first token of a text, and what stands behind it.
fn first_token(text: &str) -> Option<(TokenKind, &str)>
    ensures { MatchOption result
        (HasNoToken (chars text.now))
        (λ p. HasToken (chars text.now) p.0 (chars p.1.now)) }
{
    if begins_gap(text) || begins_fraction(text) {
        return None;
    }
    let (first, behind) = split_char(text)?;
    if begins_word(first) {
        let rest = behind_word(behind);
        return Some((word_kind(front(text, rest)), rest));
    }
    if first.is_digit(10) {
        let rest = behind_number(behind);
        let kind = number_kind(front(text, rest))?;
        return Some((kind, rest));
    }
    if first == '\'' {
        let rest = behind_character(behind)?;
        return Some((TokenKind::Char, rest));
    }
    if first == '"' {
        let rest = behind_string(behind)?;
        return Some((TokenKind::Str, rest));
    }
    let (number, rest) = longest_mark(text)?;
    Some((TokenKind::Punct(number), rest))
}

/// Whether a text begins with a point and a digit.
fn begins_fraction(text: &str) -> bool
    ensures { result ≡ begins_fraction (chars text.now) }
{
    match split_char(text) {
        Some((first, behind)) => first == '.' && begins_digit(behind),
        None => false,
    }
}

/// Whether a text begins as a number, a character or a string, or with a point and a digit.
fn begins_literal(text: &str) -> bool
    ensures { result ≡ begins_literal (chars text.now) }
{
    match split_char(text) {
        Some((first, _)) => {
            first.is_digit(10) || first == '\'' || first == '"' || begins_fraction(text)
        }
        None => false,
    }
}
