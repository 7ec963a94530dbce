//! Characters: the first of a text, and the classes that they fall into.

ghost use Rattle.std.specs.Prelude.{◌≡◌, ℕ, ◌<◌, List, [], ◌∷◌, ◌++◌, length, drop, MatchOption, IfSome};
ghost use Rattle.std.specs.List.{prefix_len};
ghost use Rattle.std.specs.Str.{chars};
ghost use Rattle.jv_lex.specs.Character.{is_line_end, is_blank, begins_word, continues_word};

/// The first character of a text, and what stands behind it.
pub(crate) fn split_char(text: &str) -> Option<(char, &str)>
    ensures cases { MatchOption result
        (chars text.now ≡ [])
        (λ p. chars text.now ≡ p.0 ∷ chars p.1.now) }
    ensures shorter { IfSome result (λ p. length p.1.now < length text.now) }
{
    let mut characters = text.chars();
    match characters.next() {
        Some(first) => Some((first, characters.as_str())),
        None => None,
    }
}

pub(crate) fn is_line_end(ch: char) -> bool
    ensures { result ≡ is_line_end ch }
{
    ch == '\n' || ch == '\r'
}

pub(crate) fn is_blank(ch: char) -> bool
    ensures { result ≡ is_blank ch }
{
    ch == ' ' || ch == '\t' || ch == '\x0c' || is_line_end(ch)
}

pub(crate) fn begins_word(ch: char) -> bool
    ensures { result ≡ begins_word ch }
{
    unicode_ident::is_xid_start(ch) || ch == '_' || ch == '$'
}

pub(crate) fn continues_word(ch: char) -> bool
    ensures { result ≡ continues_word ch }
{
    unicode_ident::is_xid_continue(ch) || ch == '$'
}

/// What stands behind the characters that continue a word.
pub(crate) fn behind_word(text: &str) -> &str
    ensures { chars result.now
        ≡ drop (prefix_len continues_word (chars text.now)) (chars text.now) }
{
    let mut rest = text;
    while let Some((ch, behind)) = split_char(rest) {
        if !continues_word(ch) {
            return rest;
        }
        rest = behind;
    }
    rest
}

/// The front of a text, up to where what is left of it begins.
pub(crate) fn front<'a>(text: &'a str, rest: &str) -> &'a str
    requires { (w : List ℕ) × (chars text.now ≡ w ++ chars rest.now) }
    ensures { (w : List ℕ) → chars text.now ≡ w ++ chars rest.now → chars result.now ≡ w }
{
    let width = text.len() - rest.len();
    &text[..width]
}
