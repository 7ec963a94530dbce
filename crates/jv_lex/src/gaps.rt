//! Blanks and comments.

ghost use Rattle.std.specs.Prelude.{◌≡◌, ℕ, MatchOption, None, Some};
ghost use Rattle.std.specs.Str.{chars};
ghost use Rattle.jv_lex.specs.Gap.{begins_with, begins_gap, from_line_end, behind_star_slash, behind_comment, behind_gap};

use crate::characters::{is_blank, is_line_end, split_char};

/// What stands behind the blank or the whole comment that a text begins with.
pub(crate) fn behind_gap(text: &str) -> Option<&str>
    ensures { MatchOption result
        (behind_gap (chars text.now) ≡ None)
        (λ rest. behind_gap (chars text.now) ≡ Some (chars rest.now)) }
{
    let (first, behind) = split_char(text)?;
    if is_blank(first) {
        return Some(behind);
    }
    if first == '/' {
        return behind_comment(behind);
    }
    None
}

/// Whether a text begins with a blank, or with what begins a comment.
pub(crate) fn begins_gap(text: &str) -> bool
    ensures { result ≡ begins_gap (chars text.now) }
{
    match split_char(text) {
        Some((first, behind)) => {
            is_blank(first)
                || (first == '/' && (begins_with(behind, '/') || begins_with(behind, '*')))
        }
        None => false,
    }
}

/// Whether a text begins with a character.
fn begins_with(text: &str, ch: char) -> bool
    ensures { result ≡ begins_with ch (chars text.now) }
{
    match split_char(text) {
        Some((first, _)) => first == ch,
        None => false,
    }
}

/// What stands behind the comment whose first slash was taken away.
fn behind_comment(text: &str) -> Option<&str>
    ensures { MatchOption result
        (behind_comment (chars text.now) ≡ None)
        (λ rest. behind_comment (chars text.now) ≡ Some (chars rest.now)) }
{
    let (second, behind) = split_char(text)?;
    if second == '/' {
        return Some(from_line_end(behind));
    }
    if second == '*' {
        return behind_star_slash(behind);
    }
    None
}

/// What is left from the first end of a line on.
fn from_line_end(text: &str) -> &str
    ensures { chars result.now ≡ from_line_end (chars text.now) }
{
    let mut rest = text;
    while let Some((ch, behind)) = split_char(rest) {
        if is_line_end(ch) {
            return rest;
        }
        rest = behind;
    }
    rest
}

/// What stands behind the first `*/`.
fn behind_star_slash(text: &str) -> Option<&str>
    ensures { MatchOption result
        (behind_star_slash (chars text.now) ≡ None)
        (λ rest. behind_star_slash (chars text.now) ≡ Some (chars rest.now)) }
{
    let mut rest = text;
    while let Some((ch, behind)) = split_char(rest) {
        if ch == '*' {
            if let Some(('/', end)) = split_char(behind) {
                return Some(end);
            }
        }
        rest = behind;
    }
    None
}
