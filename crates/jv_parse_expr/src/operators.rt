//! The operators of expressions (JLS 15), by the numbers of their marks.

ghost use Rattle.std.specs.Prelude.{◌≡◌, ℕ, ◌+◌, ◌<◌, ◌≤◌, false, nat_eq, MatchOption};
ghost use Rattle.std.specs.List.{list_any};
ghost use Rattle.jv_tree.specs.Shaped.{postfix_operators, assignment_operators};
ghost use Rattle.jv_grammar.specs.Marks.{signs};
ghost use Rattle.jv_grammar.specs.ExprReader.{is_mark_of};
ghost use Rattle.jv_parse_expr.specs.View.{level_at, HasNoLink, HasNoLinks};

use crate::marks::{INSTANCE_OF, WORD_INSTANCEOF};
use crate::terminals::split;
use jv_grammar::Terminal;

/// Whether the mark is `++` or `--`.
pub fn is_step(mark: u8) -> bool
    ensures { result ≡ list_any (nat_eq mark) postfix_operators }
{
    mark == 26 || mark == 27
}

/// Whether the mark is `+`, `-`, `!` or `~`.
pub fn is_sign(mark: u8) -> bool
    ensures { result ≡ list_any (nat_eq mark) signs }
{
    mark == 28 || mark == 29 || mark == 15 || mark == 16
}

/// Whether the mark is `=` or an operator that ends with it.
pub fn is_assignment(mark: u8) -> bool
    ensures { result ≡ list_any (nat_eq mark) assignment_operators }
{
    mark == 12 || (mark >= 39 && mark <= 49)
}

/// The level of which the mark is an operator, from 0 for `||`, the loosest, to 9 for `* / %`, or 10 where it is of none.
pub fn level_of(mark: u8) -> u8
    ensures most { result ≤ 10 }
    ensures only { (k : ℕ) → k < 10 → is_mark_of (level_at k) mark ≡ nat_eq k result }
{
    match mark {
        25 => 0,
        24 => 1,
        33 => 2,
        34 => 3,
        32 => 4,
        20 | 23 => 5,
        13 | 14 | 21 | 22 => 6,
        36 | 37 | 38 => 7,
        28 | 29 => 8,
        30 | 31 | 35 => 9,
        _ => 10,
    }
}

/// The level of which `instanceof` is an operator.
fn level_of_instanceof() -> u8
    ensures most { result < 10 }
    ensures only { (k : ℕ) → k < 10 → list_any (nat_eq INSTANCE_OF) (level_at k) ≡ nat_eq k result }
{
    6
}

/// The level of the operator that stands first, or 10 where none does.
fn first_level(terminals: &[Terminal]) -> u8
    ensures most { result ≤ 10 }
    ensures only { (k : ℕ) → k < 10 → nat_eq k result ≡ false → HasNoLink k terminals.now }
{
    match split(terminals) {
        Some((Terminal::Punct(_, mark), _)) => level_of(mark),
        Some((Terminal::Keyword(_, WORD_INSTANCEOF), _)) => level_of_instanceof(),
        _ => 10,
    }
}

/// The level of the operator that stands first, where it is from the one to below the other.
pub fn level_ahead(low: u8, high: u8, terminals: &[Terminal]) -> Option<u8>
    requires { high ≤ 10 }
    ensures { MatchOption result (HasNoLinks low high terminals.now)
        (λ l. (low ≤ l) × (l < high) × HasNoLinks (l + 1) high terminals.now) }
{
    let level = first_level(terminals);
    if low <= level && level < high {
        Some(level)
    } else {
        None
    }
}

/// Whether the mark is an operator of the level, from 0 for `||`, the loosest, to 9 for `* / %`.
pub fn is_operator(level: u8, mark: u8) -> bool
    requires { level < 10 }
    ensures { result ≡ is_mark_of (level_at level) mark }
{
    mark != INSTANCE_OF
        && match level {
            0 => mark == 25,
            1 => mark == 24,
            2 => mark == 33,
            3 => mark == 34,
            4 => mark == 32,
            5 => mark == 20 || mark == 23,
            6 => mark == 14 || mark == 13 || mark == 22 || mark == 21,
            7 => mark == 36 || mark == 37 || mark == 38,
            8 => mark == 28 || mark == 29,
            _ => mark == 30 || mark == 31 || mark == 35,
        }
}

/// Whether `instanceof` is an operator of the level.
pub fn has_instanceof(level: u8) -> bool
    requires { level < 10 }
    ensures { result ≡ list_any (nat_eq INSTANCE_OF) (level_at level) }
{
    level == 6
}
