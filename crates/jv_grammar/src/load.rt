//! How deep a list of terminals is nested.

ghost use Rattle.std.specs.Prelude.{◌≡◌, ◌<◌, ◌≤◌, ◌^◌, ◌↔◌, ℕ, Bool, length, slice_get, Some, None};
ghost use Rattle.jv_grammar.specs.Load.{
  is_keyword,
  is_mark,
  is_word_or_literal,
  is_there,
  is_opening,
  is_closing,
  goes_on,
  is_primitive,
  ends_operand,
  follows_cast,
  is_chain_mark,
  is_chain_keyword,
  is_chain,
  base,
  begins_list,
  opens,
  closes,
  ends_part,
  moves,
  is_empty,
  is_unmatched,
  after,
  outside,
  IsFirstDeep,
  IsShallow,
};
ghost use Rattle.jv_grammar.specs.Nesting.{nesting_of, IsSound};

use crate::Terminal;

/// An open bracket: the load before it, and whether it is a `{` directly behind `]`.
#[derive(Clone, Copy)]
pub(crate) struct Opening {
    pub(crate) load: u8,
    pub(crate) is_list: bool,
}

/// The load, and the open brackets, of which there are at most as many as the load says.
#[derive(Drop)]
pub(crate) struct OpenBrackets {
    pub(crate) load: u8,
    pub(crate) depth: usize,
    pub(crate) stack: [Opening; 201],
}

/// The number of the first terminal, from 0, behind which the load is 201, where there is one. It takes time in the
/// number of terminals, and no memory.
pub fn first_deep(terminals: &[Terminal]) -> Option<u32>
    requires { length terminals.now < 2 ^ 32 }
    ensures deep { (i : ℕ) → result ≡ Some i ↔ IsFirstDeep terminals.now i }
    ensures shallow { result ≡ None ↔ IsShallow terminals.now }
{
    let mut nesting = outside();
    let mut before = None;
    for i in 0..terminals.len() {
        let terminal = terminals[i];
        let behind = terminal_at(terminals, i + 1);
        step(&mut nesting, before, terminal, behind);
        if nesting.load == 201 {
            return Some(i as u32);
        }
        before = Some(terminal);
    }
    None
}

/// The terminal of a number, where there is one.
pub(crate) fn terminal_at(terminals: &[Terminal], index: usize) -> Option<Terminal>
    ensures { result ≡ slice_get terminals.now index }
{
    terminals.get(index).copied()
}

/// No open bracket.
pub(crate) fn outside() -> OpenBrackets
    ensures { nesting_of result ≡ outside }
{
    OpenBrackets {
        load: 0,
        depth: 0,
        stack: [Opening {
            load: 0,
            is_list: false,
        }; 201],
    }
}

/// What a terminal between its neighbours does.
pub(crate) fn step(
    nesting: &mut OpenBrackets,
    before: Option<Terminal>,
    terminal: Terminal,
    behind: Option<Terminal>,
)
    requires low { nesting.old.load ≤ 200 }
    requires sound { IsSound (nesting_of nesting.old) }
    ensures { nesting_of nesting.new ≡ after before terminal behind (nesting_of nesting.old) }
{
    if is_unmatched(nesting, terminal) {
        return;
    }
    if is_opening(terminal) {
        open(nesting, before, terminal);
    } else if is_closing(terminal) {
        close(nesting, terminal, behind);
    } else if ends_part(terminal, behind) {
        nesting.load = base(nesting);
    }
    if is_chain(before, terminal, behind) {
        nesting.load += 1;
    }
}

/// A closing bracket where no bracket is open.
fn is_unmatched(nesting: &OpenBrackets, terminal: Terminal) -> bool
    ensures { result ≡ is_unmatched terminal (nesting_of nesting.now).stack }
{
    is_closing(terminal) && nesting.depth == 0
}

/// What an opening bracket does.
fn open(nesting: &mut OpenBrackets, before: Option<Terminal>, terminal: Terminal)
    requires low { nesting.old.load ≤ 200 }
    requires sound { IsSound (nesting_of nesting.old) }
    ensures { nesting_of nesting.new ≡ opens before terminal (nesting_of nesting.old) }
{
    let is_list = begins_list(before, terminal);
    nesting.stack[nesting.depth] = Opening {
        load: nesting.load,
        is_list,
    };
    nesting.depth += 1;
    nesting.load += 1;
}

/// What a closing bracket does.
fn close(nesting: &mut OpenBrackets, terminal: Terminal, behind: Option<Terminal>)
    requires low { nesting.old.load ≤ 200 }
    requires sound { IsSound (nesting_of nesting.old) }
    ensures { nesting_of nesting.new ≡ closes terminal behind (nesting_of nesting.old).load (nesting_of nesting.old).stack }
{
    if nesting.depth > 0 {
        nesting.depth -= 1;
        let opening = nesting.stack[nesting.depth];
        nesting.load = opening.load;
        if is_mark(3, terminal) && !(opening.is_list || goes_on(behind)) {
            nesting.load = base(nesting);
        }
    }
}

/// 0 outside of all brackets, and else one more than the load before the innermost one.
fn base(nesting: &OpenBrackets) -> u8
    requires low { nesting.now.load ≤ 200 }
    requires sound { IsSound (nesting_of nesting.now) }
    ensures { result ≡ base (nesting_of nesting.now).stack }
{
    if nesting.depth == 0 {
        0
    } else {
        nesting.stack[nesting.depth - 1].load + 1
    }
}

/// `(`, `[` or `{`.
fn is_opening(terminal: Terminal) -> bool
    ensures { result ≡ is_opening terminal }
{
    is_mark(0, terminal) || is_mark(4, terminal) || is_mark(2, terminal)
}

/// `)`, `]` or `}`.
fn is_closing(terminal: Terminal) -> bool
    ensures { result ≡ is_closing terminal }
{
    is_mark(1, terminal) || is_mark(5, terminal) || is_mark(3, terminal)
}

/// A `{` directly behind `]`.
fn begins_list(before: Option<Terminal>, terminal: Terminal) -> bool
    ensures { result ≡ begins_list before terminal }
{
    is_mark(2, terminal) && is_some_mark(5, before)
}

/// Whether a `,` or a `;` ends a part: a `;` does not before `else` and `while`.
fn ends_part(terminal: Terminal, behind: Option<Terminal>) -> bool
    ensures { result ≡ ends_part terminal behind }
{
    is_mark(7, terminal) || (is_mark(6, terminal) && !goes_on(behind))
}

/// The chain tokens, of which each adds one.
fn is_chain(before: Option<Terminal>, terminal: Terminal, behind: Option<Terminal>) -> bool
    ensures { result ≡ is_chain before terminal behind }
{
    match terminal {
        // `if`
        Terminal::Keyword(_, 22) => !is_else(before),
        // `+` and `-`
        Terminal::Punct(_, 28 | 29) => !ends_operand(before),
        // `)`
        Terminal::Punct(_, 1) => is_primitive(before) || follows_cast(behind),
        // `]`
        Terminal::Punct(_, 5) => is_some_mark(4, behind),
        // `else`, `while`, `for` and `do`
        Terminal::Keyword(_, keyword) => matches!(keyword, 14 | 49 | 20 | 12),
        // `!`, `~`, `?`, `++`, `--`, `=` and `+=` to `>>>=`
        Terminal::Punct(_, mark) => matches!(mark, 15 | 16 | 17 | 26 | 27 | 12 | 39..=49),
        _ => false,
    }
}

/// `else` or `while`.
fn goes_on(terminal: Option<Terminal>) -> bool
    ensures { result ≡ is_there goes_on terminal }
{
    matches!(terminal, Some(Terminal::Keyword(_, 14 | 49)))
}

/// `else`.
fn is_else(terminal: Option<Terminal>) -> bool
    ensures { result ≡ is_there (is_keyword 14) terminal }
{
    matches!(terminal, Some(Terminal::Keyword(_, 14)))
}

/// `boolean`, `char`, `int` or `long`.
fn is_primitive(terminal: Option<Terminal>) -> bool
    ensures { result ≡ is_there is_primitive terminal }
{
    matches!(terminal, Some(Terminal::Keyword(_, 2 | 7 | 26 | 28)))
}

/// An identifier, a literal, `this`, `)` or `]`.
fn ends_operand(terminal: Option<Terminal>) -> bool
    ensures { result ≡ is_there ends_operand terminal }
{
    match terminal {
        Some(Terminal::Ident(_)) => true,
        Some(Terminal::Literal(..) | Terminal::Minimum(_) | Terminal::MinimumLong(_)) => true,
        Some(Terminal::Keyword(_, keyword)) => keyword == 42,
        Some(Terminal::Punct(_, mark)) => mark == 1 || mark == 5,
        None => false,
    }
}

/// An identifier, a literal, `(`, `!`, `~`, `this`, `super` or `new`.
fn follows_cast(terminal: Option<Terminal>) -> bool
    ensures { result ≡ is_there follows_cast terminal }
{
    match terminal {
        Some(Terminal::Ident(_)) => true,
        Some(Terminal::Literal(..) | Terminal::Minimum(_) | Terminal::MinimumLong(_)) => true,
        Some(Terminal::Keyword(_, keyword)) => keyword == 42 || keyword == 39 || keyword == 30,
        Some(Terminal::Punct(_, mark)) => mark == 0 || mark == 15 || mark == 16,
        None => false,
    }
}

/// The mark of a number.
fn is_mark(number: u8, terminal: Terminal) -> bool
    ensures { result ≡ is_mark number terminal }
{
    match terminal {
        Terminal::Punct(_, mark) => mark == number,
        _ => false,
    }
}

/// A neighbour that is the mark of a number.
fn is_some_mark(number: u8, terminal: Option<Terminal>) -> bool
    ensures { result ≡ is_there (is_mark number) terminal }
{
    match terminal {
        Some(terminal) => is_mark(number, terminal),
        None => false,
    }
}
