//! Numbers (JLS 3.10.1).

ghost use Rattle.std.specs.Prelude.{◌≡◌, ◌<◌, ◌≤◌, ◌+◌, ◌*◌, ◌^◌, ℕ, false, true, drop, MatchOption};
ghost use Rattle.std.specs.Option.{SomeIff};
ghost use Rattle.std.specs.Str.{chars};
ghost use Rattle.jv_lex.specs.Number.{begins_digit, behind_number, begins_hexadecimal, value, digits, behind_digits, is_decimal, is_nothing, is_long_mark, decimal_kind, hexadecimal_kind, number_kind, up_to, below};

use crate::characters::{behind_word, split_char};
use crate::token::TokenKind;

/// Whether a text begins with a decimal digit.
pub(crate) fn begins_digit(text: &str) -> bool
    ensures { result ≡ begins_digit (chars text.now) }
{
    match split_char(text) {
        Some((first, _)) => first.is_digit(10),
        None => false,
    }
}

/// What stands behind the number whose first digit was taken away, be it a number or not.
pub(crate) fn behind_number(text: &str) -> &str
    ensures { chars result.now ≡ behind_number (chars text.now) }
{
    let rest = behind_word(text);
    if let Some((next, behind)) = split_char(rest) {
        if next == '.' {
            return behind;
        }
    }
    rest
}

/// The kind of a whole text that is a number.
pub(crate) fn number_kind(word: &str) -> Option<TokenKind>
    ensures { result ≡ number_kind (chars word.now) }
{
    match behind_hexadecimal_mark(word) {
        Some(digits) => hexadecimal_kind(digits),
        None => decimal_kind(word),
    }
}

/// What stands behind `0x` or `0X`.
fn behind_hexadecimal_mark(word: &str) -> Option<&str>
    ensures { MatchOption result
        (begins_hexadecimal (chars word.now) ≡ false)
        (λ rest. (begins_hexadecimal (chars word.now) ≡ true) × (chars rest.now ≡ drop 2 (chars word.now))) }
{
    let (first, behind) = split_char(word)?;
    let (second, digits) = split_char(behind)?;
    if first == '0' && (second == 'x' || second == 'X') {
        return Some(digits);
    }
    None
}

/// The kind of decimal digits and what stands behind them.
fn decimal_kind(word: &str) -> Option<TokenKind>
    ensures { result
        ≡ decimal_kind (digits 10 (chars word.now)) (behind_digits 10 (chars word.now)) }
{
    if !begins_decimal(word) {
        return None;
    }
    let (value, behind) = read_digits(10, word);
    if is_nothing(behind) {
        return up_to(1 << 31, TokenKind::Int, TokenKind::Minimum, value);
    }
    if is_long_mark(behind) {
        return up_to(1 << 63, TokenKind::Long, TokenKind::MinimumLong, value);
    }
    None
}

/// The kind of hexadecimal digits and what stands behind them.
fn hexadecimal_kind(word: &str) -> Option<TokenKind>
    ensures { result
        ≡ hexadecimal_kind (digits 16 (chars word.now)) (behind_digits 16 (chars word.now)) }
{
    let (first, _) = split_char(word)?;
    if !first.is_digit(16) {
        return None;
    }
    let (value, behind) = read_digits(16, word);
    if is_nothing(behind) {
        return at_most(0xffff_ffff, TokenKind::Int, value);
    }
    if is_long_mark(behind) {
        return at_most(0xffff_ffff_ffff_ffff, TokenKind::Long, value);
    }
    None
}

/// Whether the decimal digits that a text begins with are `0`, or begin with another digit.
fn begins_decimal(word: &str) -> bool
    ensures { result ≡ is_decimal (digits 10 (chars word.now)) }
{
    match split_char(word) {
        Some((first, others)) => first.is_digit(10) && (first != '0' || !begins_digit(others)),
        None => false,
    }
}

/// Whether a text is the mark of a long.
fn is_long_mark(text: &str) -> bool
    ensures { result ≡ is_long_mark (chars text.now) }
{
    match split_char(text) {
        Some((first, behind)) => (first == 'l' || first == 'L') && is_nothing(behind),
        None => false,
    }
}

/// Whether nothing is left of a text.
fn is_nothing(text: &str) -> bool
    ensures { result ≡ is_nothing (chars text.now) }
{
    match split_char(text) {
        Some(_) => false,
        None => true,
    }
}

/// The kind of a decimal value below a limit, or at it.
fn up_to(limit: u64, kind: TokenKind, minimum: TokenKind, value: Option<u64>) -> Option<TokenKind>
    ensures { (n : ℕ) → SomeIff value (n < 2 ^ 64) n → result ≡ up_to limit kind minimum n }
{
    let value = value?;
    if value < limit {
        return Some(kind);
    }
    if value == limit {
        return Some(minimum);
    }
    None
}

/// The kind of a hexadecimal value up to `last`.
fn at_most(last: u64, kind: TokenKind, value: Option<u64>) -> Option<TokenKind>
    ensures { (n : ℕ) → SomeIff value (n < 2 ^ 64) n → result ≡ below (last + 1) kind n }
{
    let value = value?;
    if value <= last {
        return Some(kind);
    }
    None
}

/// The value of the digits that a text begins with, where it has at most 64 bits, and what stands behind them.
fn read_digits(radix: u32, text: &str) -> (Option<u64>, &str)
    requires low { 2 ≤ radix }
    requires high { radix ≤ 36 }
    ensures value { let n = value radix (digits radix (chars text.now)) in SomeIff result.0 (n < 2 ^ 64) n }
    ensures behind { chars result.1.now ≡ behind_digits radix (chars text.now) }
{
    let mut value = Some(0u64);
    let mut rest = text;
    while let Some((ch, behind)) = split_char(rest) {
        let Some(digit) = ch.to_digit(radix) else {
            return (value, rest);
        };
        value = with_digit(value, radix, digit);
        rest = behind;
    }
    (value, rest)
}

/// A value with one more digit behind it.
fn with_digit(value: Option<u64>, radix: u32, digit: u32) -> Option<u64>
    requires { 2 ≤ radix }
    ensures { (n : ℕ) → SomeIff value (n < 2 ^ 64) n
        → SomeIff result (n * radix + digit < 2 ^ 64) (n * radix + digit) }
{
    value?
        .checked_mul(u64::from(radix))?
        .checked_add(u64::from(digit))
}
