//! The words of modifiers at a declaration, by the numbers of their keywords (JLS 8.1.1, 8.3.1, 8.4.3, 8.8.3, 9.4).

ghost use Rattle.std.specs.Prelude.{◌≡◌};
ghost use Rattle.jv_layout.specs.Folder.{is_written};
ghost use Rattle.jv_layout.specs.Words.{has_repeat, has_two_accesses, has_other};

/// The number of `abstract`.
pub const ABSTRACT: u8 = 0;

/// The number of `default`.
pub const DEFAULT: u8 = 11;

/// The number of `final`.
pub const FINAL: u8 = 17;

/// The number of `private`.
pub const PRIVATE: u8 = 32;

/// The number of `protected`.
pub const PROTECTED: u8 = 33;

/// The number of `public`.
pub const PUBLIC: u8 = 34;

/// The number of `static`.
pub const STATIC: u8 = 37;

/// Whether a word stands among others. It takes time in their number.
pub fn is_written(word: u8, words: &[u8]) -> bool
    ensures { result ≡ is_written word words.now }
{
    words.contains(&word)
}

/// Whether a word stands twice. It takes time in their number squared; a declaration has at most as many different ones as there
/// are modifiers.
pub fn has_repeat(words: &[u8]) -> bool
    ensures { result ≡ has_repeat words.now }
{
    let mut rest = words;
    while let [word, more @ ..] = rest {
        if is_written(*word, more) {
            return true;
        }
        rest = more;
    }
    false
}

/// Whether two of public, protected and private stand. It takes time in the number of words.
pub fn has_two_accesses(words: &[u8]) -> bool
    ensures { result ≡ has_two_accesses words.now }
{
    is_written(PUBLIC, words) && is_written(PROTECTED, words)
        || (is_written(PUBLIC, words) && is_written(PRIVATE, words)
            || is_written(PROTECTED, words) && is_written(PRIVATE, words))
}

/// Whether a word stands that is none of those which may. It takes time in the number of both.
pub fn has_other(allowed: &[u8], words: &[u8]) -> bool
    ensures { result ≡ has_other allowed.now words.now }
{
    words.iter().any(|word| !is_written(*word, allowed))
}
