//! Tokens and places, written by hand from the rules.

ghost use Rattle.std.specs.Prelude.{◌≤◌, length};

use jv_lex::{LexFault, lex, place};
use std::alloc::Global;
use std::fmt::Write;
use std::test::Fail;

/// Each token as its kind and the bytes that it takes, or the fault.
fn shown(alloc: Global, source: &[u8]) -> Result<String, Fail>
    requires { length source.now ≤ 1048576 }
{
    let mut text = String::new(alloc);
    match lex(alloc, source) {
        Ok(tokens) => {
            for token in &tokens {
                write!(text, "{:?} {}..{} ", token.kind, token.start, token.end)?;
            }
        }
        Err(LexFault::NotUtf8 { at }) => write!(text, "not UTF-8 {at} ")?,
        Err(LexFault::BadToken { at }) => write!(text, "token {at} ")?,
        Err(LexFault::BadLiteral { at }) => write!(text, "literal {at} ")?,
        Err(LexFault::OutOfMemory) => write!(text, "memory ")?,
    }
    Ok(text)
}

const WORDS: [(&str, &str); 16] = [
    ("", ""),
    ("x", "Ident 0..1 "),
    ("_ $ _9$", "Ident 0..1 Ident 2..3 Ident 4..7 "),
    ("abstract assert", "Keyword(0) 0..8 Keyword(1) 9..15 "),
    ("class classy", "Keyword(8) 0..5 Ident 6..12 "),
    (
        "instanceof int interface",
        "Keyword(25) 0..10 Keyword(26) 11..14 Keyword(27) 15..24 ",
    ),
    ("this while", "Keyword(42) 0..4 Keyword(49) 5..10 "),
    (
        "true false null nulls",
        "Keyword(50) 0..4 Keyword(51) 5..10 Keyword(52) 11..15 Ident 16..21 ",
    ),
    ("Class", "Ident 0..5 "),
    ("é", "Ident 0..2 "),
    ("größe=1", "Ident 0..7 Punct(12) 7..8 Int 8..9 "),
    ("名前 x", "Ident 0..6 Ident 7..8 "),
    ("a\u{300}b", "Ident 0..4 "),
    ("\u{300}b", "token 0 "),
    ("x\u{660}", "Ident 0..3 "),
    ("a\u{a0}b", "token 1 "),
];

const GAPS: [(&str, &str); 14] = [
    (" \t\u{c}\n\r ", ""),
    ("\u{b}", "token 0 "),
    ("a//b\nc", "Ident 0..1 Ident 5..6 "),
    ("a//b\rc", "Ident 0..1 Ident 5..6 "),
    ("a//b", "Ident 0..1 "),
    ("//", ""),
    ("a/*b*/c", "Ident 0..1 Ident 6..7 "),
    ("a/**/c", "Ident 0..1 Ident 5..6 "),
    ("a/***/c", "Ident 0..1 Ident 6..7 "),
    ("a/*/c", "token 1 "),
    ("a/* *", "token 1 "),
    ("/*a//*/b", "Ident 7..8 "),
    ("/*\u{ff}'\"\n*/;", "Punct(6) 9..10 "),
    ("#", "token 0 "),
];

const MARKS: [(&str, &str); 20] = [
    (
        "(){}[];,.",
        "Punct(0) 0..1 Punct(1) 1..2 Punct(2) 2..3 Punct(3) 3..4 Punct(4) 4..5 Punct(5) 5..6 Punct(6) 6..7 Punct(7) 7..8 Punct(8) 8..9 ",
    ),
    ("....", "Punct(9) 0..3 Punct(8) 3..4 "),
    ("..", "Punct(8) 0..1 Punct(8) 1..2 "),
    ("@:: :", "Punct(10) 0..1 Punct(11) 1..3 Punct(18) 4..5 "),
    (
        "= == ===",
        "Punct(12) 0..1 Punct(20) 2..4 Punct(20) 5..7 Punct(12) 7..8 ",
    ),
    (">>>>=", "Punct(38) 0..3 Punct(21) 3..5 "),
    (">>>=", "Punct(49) 0..4 "),
    (">> >", "Punct(37) 0..2 Punct(13) 3..4 "),
    (">>=>=", "Punct(48) 0..3 Punct(21) 3..5 "),
    ("<<<=", "Punct(36) 0..2 Punct(22) 2..4 "),
    ("<<=<", "Punct(47) 0..3 Punct(14) 3..4 "),
    (
        "!!=~?",
        "Punct(15) 0..1 Punct(23) 1..3 Punct(16) 3..4 Punct(17) 4..5 ",
    ),
    ("->-->", "Punct(19) 0..2 Punct(27) 2..4 Punct(13) 4..5 "),
    ("&&&", "Punct(24) 0..2 Punct(32) 2..3 "),
    ("|||", "Punct(25) 0..2 Punct(33) 2..3 "),
    ("+++", "Punct(26) 0..2 Punct(28) 2..3 "),
    ("*/", "Punct(30) 0..1 Punct(31) 1..2 "),
    ("^%", "Punct(34) 0..1 Punct(35) 1..2 "),
    (
        "+=-=*=/=",
        "Punct(39) 0..2 Punct(40) 2..4 Punct(41) 4..6 Punct(42) 6..8 ",
    ),
    (
        "&=|=^=%=",
        "Punct(43) 0..2 Punct(44) 2..4 Punct(45) 4..6 Punct(46) 6..8 ",
    ),
];

const NUMBERS: [(&str, &str); 30] = [
    ("0", "Int 0..1 "),
    ("0L 7l", "Long 0..2 Long 3..5 "),
    ("2147483647", "Int 0..10 "),
    ("2147483648", "literal 0 "),
    ("-2147483648", "Punct(29) 0..1 Minimum 1..11 "),
    ("- /**/ 2147483648", "Punct(29) 0..1 Minimum 7..17 "),
    ("+2147483648", "literal 1 "),
    ("2147483649", "literal 0 "),
    ("2147483648L", "Long 0..11 "),
    ("9223372036854775807L", "Long 0..20 "),
    ("9223372036854775808L", "literal 0 "),
    ("-9223372036854775808L", "Punct(29) 0..1 MinimumLong 1..21 "),
    ("-9223372036854775808l", "Punct(29) 0..1 MinimumLong 1..21 "),
    ("9223372036854775808", "literal 0 "),
    ("18446744073709551616L", "literal 0 "),
    ("00", "literal 0 "),
    ("07", "literal 0 "),
    ("0xFf 0X1", "Int 0..4 Int 5..8 "),
    ("0xffffffff", "Int 0..10 "),
    ("0x100000000", "literal 0 "),
    ("0x00000000000000000001", "Int 0..22 "),
    ("0xffffffffffffffffL", "Long 0..19 "),
    ("0x10000000000000000L", "literal 0 "),
    ("0x", "literal 0 "),
    ("0xg", "literal 0 "),
    ("1_0", "literal 0 "),
    ("1.x", "literal 0 "),
    ("a .5", "literal 2 "),
    ("...5", "Punct(9) 0..3 Int 3..4 "),
    ("1é", "literal 0 "),
];

const QUOTES: [(&str, &str); 32] = [
    ("'a'", "Char 0..3 "),
    ("'é''\u{ffff}'", "Char 0..4 Char 4..9 "),
    ("'\u{10000}'", "literal 0 "),
    ("''", "literal 0 "),
    ("'''", "literal 0 "),
    ("'ab'", "literal 0 "),
    ("'a", "literal 0 "),
    ("'\n'", "literal 0 "),
    ("'\r'", "literal 0 "),
    ("'\"'", "Char 0..3 "),
    (
        r"'\b''\t''\n''\f'",
        "Char 0..4 Char 4..8 Char 8..12 Char 12..16 ",
    ),
    (
        r"'\r''\\''\'''\''",
        "Char 0..4 Char 4..8 Char 8..12 Char 12..16 ",
    ),
    (r"'\0'", "Char 0..4 "),
    (r"'\77'", "Char 0..5 "),
    (r"'\377'", "Char 0..6 "),
    (r"'\400'", "literal 0 "),
    (r"'\47'", "Char 0..5 "),
    (r"'\1234'", "literal 0 "),
    (r"'\8'", "literal 0 "),
    (r"'\u0041'", "literal 0 "),
    (r"'\", "literal 0 "),
    ("\"\"", "Str 0..2 "),
    ("\"a'b\"x", "Str 0..5 Ident 5..6 "),
    ("\"名\u{10000}\"", "Str 0..9 "),
    (r#""\"\\""#, "Str 0..6 "),
    (r#""\400\18""#, "Str 0..9 "),
    (r#""\9""#, "literal 0 "),
    ("\"a", "literal 0 "),
    ("\"a\nb\"", "literal 0 "),
    ("\"a\\\"", "literal 0 "),
    ("\"//\"/**/\"\"", "Str 0..4 Str 8..10 "),
    ("x = \"", "literal 4 "),
];

/// Whether a source has these tokens, or this fault.
fn is_shown(alloc: Global, source: &[u8], wanted: &str) -> Result<bool, Fail> {
    if source.len() > 100 {
        return Err(Fail::new("a source is too long"));
    }
    Ok(shown(alloc, source)?.as_str() == wanted)
}

/// The sources and their tokens.
const TABLES: [&[(&str, &str)]; 5] = [&WORDS, &GAPS, &MARKS, &NUMBERS, &QUOTES];

/// The first of the sources that has others.
fn wrong_source(alloc: Global) -> Result<Option<&'static str>, Fail> {
    for table in &TABLES {
        for (source, tokens) in *table {
            if !is_shown(alloc, source.as_bytes(), tokens)? {
                return Ok(Some(*source));
            }
        }
    }
    Ok(None)
}

#[test]
fn tables_of_tokens(rt: HostRuntime) -> Result<(), Fail> {
    assert_eq!(rt; wrong_source(rt.alloc())?, None);
    Ok(())
}

/// A class with a field.
const FIELD: &str =
    "Keyword(8) 0..5 Ident 6..7 Punct(2) 8..9 Keyword(26) 10..13 Ident 14..15 Punct(12) 16..17 Punct(29) 18..19 Minimum 19..29 Punct(6) 29..30 Punct(3) 31..32 ";

#[test]
fn first_bad_places(rt: HostRuntime) -> Result<(), Fail> {
    let alloc = rt.alloc();
    assert!(rt; is_shown(alloc, b"class A { int a = -2147483648; }", FIELD)?);
    assert!(rt; is_shown(alloc, b"class A { int a = 2147483648; }", "literal 18 ")?);
    assert!(rt; is_shown(alloc, b"class A {} \xff", "not UTF-8 11 ")?);
    assert!(rt; is_shown(alloc, b"' \xe5\x90", "not UTF-8 2 ")?);
    Ok(())
}

/// A source with each end of a line.
const LINES: &[u8] = b"a\xc3\xa9b\ncd\r\nef\rg\n\nh";

/// Its offsets, each with its line and its column.
const PLACES: [(u32, u32, u32); 13] = [
    (0, 1, 1),
    (1, 1, 2),
    (3, 1, 3),
    (4, 1, 4),
    (5, 2, 1),
    (7, 2, 3),
    (8, 2, 4),
    (9, 3, 1),
    (11, 3, 3),
    (12, 4, 1),
    (14, 5, 1),
    (15, 6, 1),
    (16, 6, 2),
];

/// The first of the offsets that has another line or column.
fn wrong_place() -> Option<u32> {
    for (at, line, column) in &PLACES {
        if *at as usize > LINES.len() || place(LINES, *at) != (*line, *column) {
            return Some(*at);
        }
    }
    None
}

#[test]
fn lines_and_columns(rt: HostRuntime) {
    assert_eq!(rt; wrong_place(), None);
}
