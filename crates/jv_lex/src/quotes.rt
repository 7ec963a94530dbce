//! Character and string literals (JLS 3.10.4 to 3.10.6).

ghost use Rattle.std.specs.Prelude.{◌≡◌, ℕ, None, Some, MatchOption};
ghost use Rattle.std.specs.Str.{chars};
ghost use Rattle.jv_lex.specs.Quoted.{is_octal, is_escape_letter, behind_quote, behind_octals, behind_escape, behind_character, behind_string};

use crate::characters::{is_line_end, split_char};

/// What stands behind the character literal whose opening quote was taken away.
pub(crate) fn behind_character(text: &str) -> Option<&str>
    ensures { MatchOption result
        (behind_character (chars text.now) ≡ None)
        (λ rest. behind_character (chars text.now) ≡ Some (chars rest.now)) }
{
    let (first, behind) = split_char(text)?;
    if first == '\\' {
        return behind_escape(behind);
    }
    if first == '\'' || is_line_end(first) || first > '\u{ffff}' {
        return None;
    }
    behind_quote(behind)
}

/// What stands behind the string literal whose opening quote was taken away.
pub(crate) fn behind_string(text: &str) -> Option<&str>
    ensures { MatchOption result
        (behind_string (chars text.now) ≡ None)
        (λ rest. behind_string (chars text.now) ≡ Some (chars rest.now)) }
{
    let mut rest = text;
    while let Some((ch, behind)) = split_char(rest) {
        if ch == '"' {
            return Some(behind);
        }
        if is_line_end(ch) {
            return None;
        }
        if ch == '\\' {
            let (escaped, end) = split_char(behind)?;
            if !is_escape_letter(escaped) && !escaped.is_digit(8) {
                return None;
            }
            rest = end;
        } else {
            rest = behind;
        }
    }
    None
}

/// What stands behind an escape whose backslash was taken away, and behind the closing quote that follows.
fn behind_escape(text: &str) -> Option<&str>
    ensures { MatchOption result
        (behind_escape (chars text.now) ≡ None)
        (λ rest. behind_escape (chars text.now) ≡ Some (chars rest.now)) }
{
    let (first, behind) = split_char(text)?;
    if first.is_digit(8) {
        let most = if first <= '3' { 2 } else { 1 };
        return behind_quote(behind_octals(most, behind));
    }
    if is_escape_letter(first) {
        return behind_quote(behind);
    }
    None
}

/// What stands behind octal digits, of which `most` at most are taken.
fn behind_octals(most: u32, text: &str) -> &str
    ensures { chars result.now ≡ behind_octals most (chars text.now) }
{
    let mut rest = text;
    for _i in 0..most {
        match split_char(rest) {
            Some((digit, behind)) => {
                if !digit.is_digit(8) {
                    return rest;
                }
                rest = behind;
            }
            None => return rest,
        }
    }
    rest
}

/// What stands behind the closing quote of a character literal.
fn behind_quote(text: &str) -> Option<&str>
    ensures { MatchOption result
        (behind_quote (chars text.now) ≡ None)
        (λ rest. behind_quote (chars text.now) ≡ Some (chars rest.now)) }
{
    let (first, behind) = split_char(text)?;
    if first == '\'' {
        return Some(behind);
    }
    None
}

/// Whether a character stands behind the backslash of an escape, other than an octal digit.
fn is_escape_letter(ch: char) -> bool
    ensures { result ≡ is_escape_letter ch }
{
    matches!(ch, 'b' | 't' | 'n' | 'f' | 'r' | '"' | '\'' | '\\')
}
