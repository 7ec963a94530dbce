//! Modifiers (JLS 8.1.1, 8.3.1, 8.4.3, 9.4).

ghost use Rattle.std.specs.Prelude.{◌≡◌, [], Ok, Err, nat_eq, MatchOption};
ghost use Rattle.std.specs.List.{list_any};
ghost use Rattle.jv_grammar.specs.Marks.{modifiers};
ghost use Rattle.jv_grammar.specs.DeclReader.{mods_of};
ghost use Rattle.jv_parse_expr.specs.View.{Gives};
ghost use Rattle.jv_parse.specs.DeclView.{StartsModifiers, modifiers_of};

use jv_grammar::Terminal;
use jv_parse_expr::fault::Fault;
use jv_parse_expr::marks::{
    WORD_ABSTRACT, WORD_DEFAULT, WORD_FINAL, WORD_PRIVATE, WORD_PROTECTED, WORD_PUBLIC, WORD_STATIC,
};
use jv_parse_expr::terminals::split;
use jv_tree::Mods;
use std::alloc::Global;

/// Whether the keyword is a modifier.
fn is_modifier(word: u8) -> bool
    ensures { result ≡ list_any (nat_eq word) modifiers }
{
    word == WORD_PUBLIC
        || word == WORD_PROTECTED
        || word == WORD_PRIVATE
        || word == WORD_STATIC
        || word == WORD_ABSTRACT
        || word == WORD_FINAL
        || word == WORD_DEFAULT
}

/// The modifier that stands first, and the terminals behind it.
#[tactic(auto, unfolding(jv_grammar::specs::DeclReader::mods_of))]
fn modifier(terminals: &[Terminal]) -> Option<(u8, &[Terminal])>
    ensures { MatchOption result (mods_of terminals.now ≡ ([], terminals.now))
        (λ p. StartsModifiers terminals.now p.0 p.1.now) }
{
    match split(terminals) {
        Some((Terminal::Keyword(_, word), after)) => {
            if is_modifier(word) {
                Some((word, after))
            } else {
                None
            }
        }
        _ => None,
    }
}

/// The modifiers that stand first, and the terminals behind them.
pub(crate) fn modifiers<'a>(
    alloc: Global,
    terminals: &'a [Terminal],
) -> Result<(Mods, &'a [Terminal]), Fault>
    ensures { Gives (λ r. (r.0.words.items, r.1.now)) result (modifiers_of terminals.now) }
{
    let mut words = Vec::new(alloc);
    let mut rest = terminals;
    while let Some((word, after)) = modifier(rest) {
        words.push(word)?;
        rest = after;
    }
    Ok((Mods { words }, rest))
}
