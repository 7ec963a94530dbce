//! Loads, worked out by hand from the rules.

ghost use Rattle.std.specs.Prelude.{◌≤◌, ◌<◌, ◌^◌, length};

use crate::load::{outside, step, terminal_at};
use crate::{LiteralKind, Terminal, first_deep};
use jv_lex::{Token, TokenKind, lex};
use jv_tree::{Ident, NameId};
use std::alloc::Global;
use std::fmt::Write;
use std::test::Fail;

fn terminal_of(token: Token) -> Terminal {
    let at = token.start;
    match token.kind {
        TokenKind::Ident => Terminal::Ident(Ident { at, id: NameId(0) }),
        TokenKind::Keyword(50) => Terminal::Literal(at, LiteralKind::Bool(true)),
        TokenKind::Keyword(51) => Terminal::Literal(at, LiteralKind::Bool(false)),
        TokenKind::Keyword(52) => Terminal::Literal(at, LiteralKind::Null),
        TokenKind::Keyword(number) => Terminal::Keyword(at, number),
        TokenKind::Int => Terminal::Literal(at, LiteralKind::Int),
        TokenKind::Long => Terminal::Literal(at, LiteralKind::Long),
        TokenKind::Minimum => Terminal::Minimum(at),
        TokenKind::MinimumLong => Terminal::MinimumLong(at),
        TokenKind::Char => Terminal::Literal(at, LiteralKind::Char),
        TokenKind::Str => Terminal::Literal(at, LiteralKind::Str),
        TokenKind::Punct(number) => Terminal::Punct(at, number),
    }
}

fn terminals_of(alloc: Global, source: &[u8]) -> Result<Vec<Terminal>, Fail>
    requires { length source.now ≤ 1048576 }
{
    let mut terminals = Vec::new(alloc);
    for token in &lex(alloc, source)? {
        terminals.push(terminal_of(*token))?;
    }
    Ok(terminals)
}

/// The offset of a terminal.
fn at_of(terminal: Option<Terminal>) -> u32 {
    match terminal {
        Some(Terminal::Ident(ident)) => ident.at,
        Some(
            Terminal::Keyword(at, _)
            | Terminal::Literal(at, _)
            | Terminal::Minimum(at)
            | Terminal::MinimumLong(at)
            | Terminal::Punct(at, _),
        ) => at,
        None => 0,
    }
}

/// The load after each terminal of a source.
fn loads(alloc: Global, source: &[u8]) -> Result<String, Fail>
    requires { length source.now ≤ 1048576 }
{
    let terminals = terminals_of(alloc, source)?;
    let mut text = String::new(alloc);
    let mut nesting = outside();
    let mut before = None;
    for i in 0..terminals.len() {
        if nesting.load > 200 {
            break;
        }
        step(
            &mut nesting,
            before,
            terminals[i],
            terminal_at(&terminals, i + 1),
        );
        write!(text, "{} ", nesting.load)?;
        before = Some(terminals[i]);
    }
    Ok(text)
}

const BRACKETS: [(&str, &str); 22] = [
    ("", ""),
    ("class A { int a = 1 ; }", "0 0 1 1 1 2 2 1 0 "),
    ("( ( 1 ) )", "1 2 2 1 0 "),
    ("{ { } { } }", "1 2 1 2 1 0 "),
    ("= { } x", "1 2 0 0 "),
    ("f ( a = b , c = d )", "0 1 1 2 2 1 1 2 2 0 "),
    ("= , else", "1 0 1 "),
    ("a [ 1 ] [ 2 ]", "0 1 1 1 2 2 1 "),
    ("int [ ] [ ] a ;", "0 1 1 2 1 1 0 "),
    ("a [ 0 ] = b", "0 1 1 0 1 1 "),
    ("= [ ] { } x", "1 2 1 2 1 1 "),
    ("a = new int [ ] { 1 , 2 } ;", "0 1 1 1 2 1 2 2 2 2 1 0 "),
    ("[ ] { { } }", "1 0 1 2 1 0 "),
    // where no bracket is open
    (") ] } x", "0 0 0 0 "),
    ("= ) x", "1 1 1 "),
    ("= }", "1 1 "),
    ("= ] [ ]", "1 1 2 1 "),
    ("int ) a", "0 0 0 "),
    // casts
    ("( int ) - x", "1 1 1 1 1 "),
    ("( a ) b", "1 1 1 1 "),
    ("( int ) x", "1 1 1 1 "),
    ("( a ) + b", "1 1 0 0 0 "),
];

const CASTS: [(&str, &str); 14] = [
    ("( a ) ( b )", "1 1 1 2 2 1 "),
    ("( a ) ! b", "1 1 1 2 2 "),
    ("( a ) ~ b", "1 1 1 2 2 "),
    ("( a ) this", "1 1 1 1 "),
    ("( a ) super", "1 1 1 1 "),
    ("( a ) new", "1 1 1 1 "),
    ("( a ) true", "1 1 1 1 "),
    ("( a ) null", "1 1 1 1 "),
    ("( a ) 'b'", "1 1 1 1 "),
    ("( a ) { }", "1 1 0 1 0 "),
    ("( a ) ++ b", "1 1 0 1 1 "),
    ("( boolean ) ( char ) ( long ) +", "1 1 1 2 2 2 3 3 3 3 "),
    ("( byte ) - x", "1 1 0 0 0 "),
    ("( void ) . x", "1 1 0 0 0 "),
];

const CHAINS: [(&str, &str); 17] = [
    ("- - + x", "1 2 3 3 "),
    ("a - b", "0 0 0 "),
    ("1 + this - x", "0 0 0 0 0 "),
    ("true - null - 1", "0 0 0 0 0 "),
    ("'a' + \"b\" + 2L", "0 0 0 0 0 "),
    ("- 2147483648 - x", "1 1 1 1 "),
    ("- 9223372036854775808L + x", "1 1 1 1 "),
    ("super - a", "0 1 1 "),
    ("return - a", "0 1 1 "),
    ("a [ 0 ] - b", "0 1 1 0 0 0 "),
    ("! ~ ++ -- x", "1 2 3 4 4 "),
    ("a ++ + ++ b", "0 1 2 3 3 "),
    ("a ? b : c ? d : e", "0 1 1 1 1 2 2 2 2 "),
    ("a = b += c >>>= d ;", "0 1 1 2 2 3 3 0 "),
    ("-= *= /= &= |= ^= %= <<= >>=", "1 2 3 4 5 6 7 8 9 "),
    ("a == b != c >= d <= e -> f", "0 0 0 0 0 0 0 0 0 0 0 "),
    ("a << b >> c >>> d && e || f", "0 0 0 0 0 0 0 0 0 0 0 "),
];

const STATEMENTS: [(&str, &str); 11] = [
    (
        "if ( a ) b ; else if ( c ) d ; else e ;",
        "1 2 2 2 2 2 3 3 4 4 4 4 4 5 5 0 ",
    ),
    ("if ( a ) { } else { }", "1 2 2 1 2 1 2 3 0 "),
    ("if if else else if", "1 2 3 4 4 "),
    ("do ; while ( a ) ;", "1 1 2 3 3 2 0 "),
    ("do { } while ( a ) ;", "1 2 1 2 3 3 2 0 "),
    ("while ( a ) { b ; }", "1 2 2 1 2 2 2 0 "),
    ("for ( ; ; ) x ;", "1 2 2 2 2 2 0 "),
    (
        "for ( int i = 0 ; a ; i ++ ) ;",
        "1 2 2 2 3 3 2 2 2 2 3 1 0 ",
    ),
    ("a = b ; while", "0 1 1 1 2 "),
    ("= ; do", "1 0 1 "),
    ("{ = { } if", "1 2 3 1 2 "),
];

#[test]
fn tables_of_loads(rt: HostRuntime) -> Result<(), Fail> {
    for table in [
        BRACKETS.as_slice(),
        CASTS.as_slice(),
        CHAINS.as_slice(),
        STATEMENTS.as_slice(),
    ] {
        for (source, wanted) in table {
            assert!(rt; source.len() < 100);
            let found = loads(rt.alloc(), source.as_bytes())?;
            assert_eq!(rt; found.as_str(), *wanted, "{source}");
        }
    }
    Ok(())
}

/// A front, a text so many times, a middle, another text as many times, and a rest.
fn repeated(alloc: Global, parts: [&str; 5], times: usize) -> Result<String, Fail> {
    let [front, left, middle, right, rest] = parts;
    let mut source = String::new(alloc);
    source.push_str(front)?;
    for _time in 0..times {
        source.push_str(left)?;
    }
    source.push_str(middle)?;
    for _time in 0..times {
        source.push_str(right)?;
    }
    source.push_str(rest)?;
    Ok(source)
}

/// In place of the number and the offset of a deep terminal, where there is none.
const SHALLOW: (u32, u32) = (9999, 9999);

#[test]
fn first_deep_terminals(rt: HostRuntime) -> Result<(), Fail> {
    for (parts, times, wanted) in [
        (["", "", "", "", ""], 0usize, SHALLOW),
        (["class A { int a = ", "(", "1", ")", "; }"], 198, SHALLOW),
        (
            ["class A { int a = ", "(", "1", ")", "; }"],
            199,
            (204, 216),
        ),
        (
            ["class A { int a = ", "(", "1", ")", "; }"],
            300,
            (204, 216),
        ),
        (["", "!", "a", "", ""], 200, SHALLOW),
        (["", "!", "a", "", ""], 201, (200, 200)),
        (["int", "[]", "a;", "", ""], 200, SHALLOW),
        (["int", "[]", "a;", "", ""], 201, (401, 403)),
        (["new int", "[1]", "", "", ""], 200, SHALLOW),
        (["new int", "[1]", "", "", ""], 201, (602, 607)),
        (["", "{", "", "}", ""], 200, SHALLOW),
        (["", "{", "", "}", ""], 201, (200, 200)),
        (["", "{}", "", "", ""], 1000, SHALLOW),
        (["", "(int)", "", "", ""], 200, SHALLOW),
        (["", "(int)", "a", "", ""], 201, (600, 1000)),
        (["", "a=b;", "", "", ""], 1000, SHALLOW),
        (["", "a=", "b", "", ""], 201, (401, 401)),
        (["", "else ", "", "", ""], 201, (200, 1000)),
        (["", ")a", "", "", ""], 300, SHALLOW),
    ] {
        let source = repeated(rt.alloc(), parts, times)?;
        assert!(rt; source.len() < 9999);
        let terminals = terminals_of(rt.alloc(), source.as_bytes())?;
        assert!(rt; terminals.len() < 9999);
        let found = match first_deep(&terminals) {
            Some(number) => (number, at_of(terminal_at(&terminals, number as usize))),
            None => SHALLOW,
        };
        assert_eq!(rt; found, wanted, "{times} {source}");
    }
    Ok(())
}
