//! Identifiers and keywords (JLS 3.8, 3.9).

ghost use Rattle.std.specs.Prelude.{◌≡◌, ◌<◌, [], slice_index_or};
ghost use Rattle.std.specs.Str.{chars};
ghost use Rattle.jv_lex.specs.Word.{keywords, word_kind};

use crate::characters::split_char;
use crate::token::TokenKind;

/// The keywords in the order of their numbers.
const KEYWORDS: [&str; 53] = [
    "abstract",
    "assert",
    "boolean",
    "break",
    "byte",
    "case",
    "catch",
    "char",
    "class",
    "const",
    "continue",
    "default",
    "do",
    "double",
    "else",
    "enum",
    "extends",
    "final",
    "finally",
    "float",
    "for",
    "goto",
    "if",
    "implements",
    "import",
    "instanceof",
    "int",
    "interface",
    "long",
    "native",
    "new",
    "package",
    "private",
    "protected",
    "public",
    "return",
    "short",
    "static",
    "strictfp",
    "super",
    "switch",
    "synchronized",
    "this",
    "throw",
    "throws",
    "transient",
    "try",
    "void",
    "volatile",
    "while",
    "true",
    "false",
    "null",
];

/// Their numbers in the order of their first letters.
const BY_LETTER: [u8; 53] = [
    0, 1, 2, 3, 4, 5, 6, 7, 8, 9, 10, 11, 12, 13, 14, 15, 16, 17, 18, 19, 20, 51, 21, 22, 23, 24,
    25, 26, 27, 28, 29, 30, 52, 31, 32, 33, 34, 35, 36, 37, 38, 39, 40, 41, 42, 43, 44, 45, 46, 50,
    47, 48, 49,
];

/// Where in that order the keywords of each letter from `a` to `z` begin; at the end, where those of `z` end.
const LETTER_PLACES: [u8; 27] = [
    0, 2, 5, 11, 14, 17, 22, 23, 23, 29, 29, 29, 30, 30, 33, 33, 37, 37, 38, 44, 50, 50, 52, 53,
    53, 53, 53,
];

/// The kind of a whole word: a keyword or an identifier.
pub(crate) fn word_kind(word: &str) -> TokenKind
    ensures { result ≡ word_kind (chars word.now) }
{
    let Some((first, _)) = split_char(word) else {
        return TokenKind::Ident;
    };
    if !first.is_ascii_lowercase() {
        return TokenKind::Ident;
    }
    let letter = first as usize - 'a' as usize;
    for i in LETTER_PLACES[letter] as usize..LETTER_PLACES[letter + 1] as usize {
        let number = BY_LETTER[i];
        if word == keyword(number) {
            return TokenKind::Keyword(number);
        }
    }
    TokenKind::Ident
}

/// The keyword of a number.
fn keyword(number: u8) -> &'static str
    requires { number < 53 }
    ensures { result.now ≡ slice_index_or keywords number [] }
{
    KEYWORDS[number as usize]
}
