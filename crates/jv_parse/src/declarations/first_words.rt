//! What begins with a keyword or an identifier.

ghost use Rattle.std.specs.Prelude.{◌≡◌, Ok, Err};
ghost use Rattle.jv_grammar.specs.DeclReader.{begins_type, calls, ident_of};
ghost use Rattle.jv_parse_expr.specs.View.{Gives};

use jv_grammar::Terminal;
use jv_parse_expr::fault::{Fault, refused};
use jv_parse_expr::marks::{PAREN_OPEN, WORD_CLASS, WORD_INTERFACE};
use jv_parse_expr::terminals::{split, starts, starts_word};
use jv_tree::Ident;

/// An identifier and the terminals behind it.
pub(crate) fn ident(terminals: &[Terminal]) -> Result<(Ident, &[Terminal]), Fault>
    ensures { Gives (λ r. (r.0, r.1.now)) result (ident_of terminals.now) }
{
    match split(terminals) {
        Some((Terminal::Ident(name), after)) => Ok((name, after)),
        _ => Err(refused(terminals)),
    }
}

/// Whether an identifier with a `(` behind it stands first.
pub(crate) fn calls(terminals: &[Terminal]) -> bool
    ensures { result ≡ calls terminals.now }
{
    match split(terminals) {
        Some((Terminal::Ident(_), after)) => starts(PAREN_OPEN, after),
        _ => false,
    }
}

/// Whether a class or an interface stands first, behind its modifiers.
pub(crate) fn begins_type(terminals: &[Terminal]) -> bool
    ensures { result ≡ begins_type terminals.now }
{
    starts_word(WORD_CLASS, terminals) || starts_word(WORD_INTERFACE, terminals)
}
