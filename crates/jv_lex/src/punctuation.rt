//! Separators and operators (JLS 3.11, 3.12).

ghost use Rattle.std.specs.Prelude.{◌≡◌, ℕ, ◌<◌, List, [], ◌++◌, slice_index_or, MatchOption};
ghost use Rattle.std.specs.Str.{chars};
ghost use Rattle.jv_lex.specs.Punctuation.{marks, HasNoMark, IsLongestMark};
ghost use Rattle.jv_lex.specs.declared.punctuation.TheConstants.{LONGER_FIRST};

use crate::characters::split_char;

/// The marks in the order of their numbers.
const MARKS: [&str; 50] = [
    "(", ")", "{", "}", "[", "]", ";", ",", ".", "...", "@", "::", "=", ">", "<", "!", "~", "?",
    ":", "->", "==", ">=", "<=", "!=", "&&", "||", "++", "--", "+", "-", "*", "/", "&", "|", "^",
    "%", "<<", ">>", ">>>", "+=", "-=", "*=", "/=", "&=", "|=", "^=", "%=", "<<=", ">>=", ">>>=",
];

/// Their numbers in an order in which no mark stands behind one that it begins with, and the marks of one first character
/// stand together.
const LONGER_FIRST: [u8; 50] = [
    0, 1, 2, 3, 6, 7, 9, 8, 4, 5, 20, 12, 49, 38, 48, 37, 21, 13, 47, 36, 22, 14, 23, 15, 26, 39,
    28, 19, 27, 40, 29, 24, 43, 32, 25, 44, 33, 41, 30, 42, 31, 11, 18, 17, 16, 45, 34, 46, 35, 10,
];

/// Where in that order the marks of each ASCII character begin, by its code; 50 where no mark begins with it.
const FIRST_PLACES: [u8; 128] = [
    50, 50, 50, 50, 50, 50, 50, 50, 50, 50, 50, 50, 50, 50, 50, 50, 50, 50, 50, 50, 50, 50, 50, 50,
    50, 50, 50, 50, 50, 50, 50, 50, 50, 22, 50, 50, 50, 47, 31, 50, 0, 1, 37, 24, 5, 27, 6, 39, 50,
    50, 50, 50, 50, 50, 50, 50, 50, 50, 41, 4, 18, 10, 12, 43, 49, 50, 50, 50, 50, 50, 50, 50, 50,
    50, 50, 50, 50, 50, 50, 50, 50, 50, 50, 50, 50, 50, 50, 50, 50, 50, 50, 8, 50, 9, 45, 50, 50,
    50, 50, 50, 50, 50, 50, 50, 50, 50, 50, 50, 50, 50, 50, 50, 50, 50, 50, 50, 50, 50, 50, 50, 50,
    50, 50, 2, 34, 3, 44, 50,
];

/// The longest mark that a text begins with, by its number, and what stands behind it.
pub(crate) fn longest_mark(text: &str) -> Option<(u8, &str)>
    ensures { MatchOption result
        (HasNoMark (chars text.now))
        (λ p. IsLongestMark (chars text.now) p.0 (chars p.1.now)) }
{
    for i in first_place(text)..50 {
        let number = LONGER_FIRST[i];
        if let Some(rest) = text.strip_prefix(mark(number)) {
            return Some((number, rest));
        }
    }
    None
}

/// Where in the order the marks of a text's first character begin: the text begins with none of the marks before.
fn first_place(text: &str) -> usize
    ensures { (k : ℕ) → k < result → (rest : List ℕ)
        → chars text.now ≡ slice_index_or marks (slice_index_or LONGER_FIRST k 0) [] ++ rest → ⊥ }
{
    if let Some((first, _)) = split_char(text) {
        let code = first as usize;
        if code < 128 {
            return FIRST_PLACES[code] as usize;
        }
    }
    50
}

/// The mark of a number.
fn mark(number: u8) -> &'static str
    requires { number < 50 }
    ensures { result.now ≡ slice_index_or marks number [] }
{
    MARKS[number as usize]
}
