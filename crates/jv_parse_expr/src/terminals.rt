//! The first of a list of terminals, and what stands behind it.

ghost use Rattle.std.specs.Prelude.{◌≡◌, ◌<◌, [], ◌∷◌, Ok, Err, false, MatchOption};
ghost use Rattle.jv_grammar.specs.TypeGrammar.{starts, starts_word};
ghost use Rattle.jv_grammar.specs.ExprGrammar.{begins_plain, goes_on};
ghost use Rattle.jv_grammar.specs.Reader.{rest_of, starts_ident};
ghost use Rattle.jv_grammar.specs.TypeReader.{starts_pair};
ghost use Rattle.jv_grammar.specs.declared.terminal.Terminal.TheVariants.{Ident as IdentifierOf};
ghost use Rattle.jv_parse_expr.specs.View.{StandsBehind};

use crate::marks::{BRACKET_CLOSE, BRACKET_OPEN, PAREN_OPEN, WORD_NEW, WORD_SUPER, WORD_THIS};
use jv_grammar::Terminal;
use jv_tree::Ident;

/// The first terminal and those behind it.
pub fn split(terminals: &[Terminal]) -> Option<(Terminal, &[Terminal])>
    ensures { MatchOption result (terminals.now ≡ []) (λ p. terminals.now ≡ p.0 ∷ p.1.now) }
{
    match terminals.split_first() {
        Some((first, behind)) => Some((*first, behind)),
        None => None,
    }
}

/// The terminals behind the first.
pub fn rest(terminals: &[Terminal]) -> &[Terminal]
    ensures { result.now ≡ rest_of terminals.now }
{
    match split(terminals) {
        Some((_, behind)) => behind,
        None => terminals,
    }
}

/// Whether the first terminal is the mark.
pub fn starts(mark: u8, terminals: &[Terminal]) -> bool
    ensures { result ≡ starts mark terminals.now }
{
    match split(terminals) {
        Some((Terminal::Punct(_, number), _)) => number == mark,
        _ => false,
    }
}

/// The terminals behind the mark, where it stands first.
pub fn behind(mark: u8, terminals: &[Terminal]) -> Option<&[Terminal]>
    ensures { MatchOption result (starts mark terminals.now ≡ false)
        (λ r. StandsBehind (starts mark terminals.now) terminals.now r.now) }
{
    match split(terminals) {
        Some((Terminal::Punct(_, number), behind)) => {
            if number == mark { Some(behind) } else { None }
        }
        _ => None,
    }
}

/// Whether the first terminal is the keyword.
pub fn starts_word(word: u8, terminals: &[Terminal]) -> bool
    ensures { result ≡ starts_word word terminals.now }
{
    match split(terminals) {
        Some((Terminal::Keyword(_, number), _)) => number == word,
        _ => false,
    }
}

/// The terminals behind the keyword, where it stands first.
pub fn behind_word(word: u8, terminals: &[Terminal]) -> Option<&[Terminal]>
    ensures { MatchOption result (starts_word word terminals.now ≡ false)
        (λ r. StandsBehind (starts_word word terminals.now) terminals.now r.now) }
{
    match split(terminals) {
        Some((Terminal::Keyword(_, number), behind)) => {
            if number == word { Some(behind) } else { None }
        }
        _ => None,
    }
}

/// The identifier that stands first, and the terminals behind it.
pub fn identifier(terminals: &[Terminal]) -> Option<(Ident, &[Terminal])>
    ensures { MatchOption result (starts_ident terminals.now ≡ false) (λ p. terminals.now ≡ IdentifierOf p.0 ∷ p.1.now) }
{
    match split(terminals) {
        Some((Terminal::Ident(name), behind)) => Some((name, behind)),
        _ => None,
    }
}

/// Whether the first terminal is an identifier.
pub fn starts_ident(terminals: &[Terminal]) -> bool
    ensures { result ≡ starts_ident terminals.now }
{
    match split(terminals) {
        Some((Terminal::Ident(_), _)) => true,
        _ => false,
    }
}

/// Whether the terminals begin with a pair of brackets.
pub fn starts_pair(terminals: &[Terminal]) -> bool
    ensures { result ≡ starts_pair terminals.now }
{
    starts(BRACKET_OPEN, terminals) && starts(BRACKET_CLOSE, rest(terminals))
}

/// Whether the first terminal begins what a cast by a name takes.
pub fn begins_plain(terminals: &[Terminal]) -> bool
    ensures { result ≡ begins_plain terminals.now }
{
    match split(terminals) {
        Some((Terminal::Ident(_), _)) => true,
        Some((Terminal::Literal(_, _), _)) => true,
        Some((Terminal::Keyword(_, number), _)) => {
            number == WORD_THIS || number == WORD_SUPER || number == WORD_NEW
        }
        Some((Terminal::Punct(_, number), _)) => {
            number == PAREN_OPEN || number == 15 || number == 16
        }
        _ => false,
    }
}

/// Whether an identifier stands first with no `(` behind it.
pub fn goes_on(terminals: &[Terminal]) -> bool
    ensures { result ≡ goes_on terminals.now }
{
    match split(terminals) {
        Some((Terminal::Ident(_), behind)) => !starts(PAREN_OPEN, behind),
        _ => false,
    }
}
