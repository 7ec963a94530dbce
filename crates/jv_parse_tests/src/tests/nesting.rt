//! Sources as deep as the load allows and one level deeper, and sources with as many fields, calls and indexes behind
//! one another as 1 MiB has room for, each on a thread of its own. `rt try`, whose frames are larger than those of a
//! compiler, has no answer for the deepest.

ghost use Rattle.std.specs.Prelude.{All};
ghost use Rattle.jv_lex.specs.Source.{IsPlaced};

use jv_lex::{Token, lex};
use jv_parse::{PARSE_STACK, ParseFault, parse};
use jv_tree::Names;
use std::alloc::{AllocError, Global};
use std::test::Fail;
use std::thread;

/// How a source ended: the number of the token that is too deep, or one of these.
const PARSED: u32 = 1_000_000;

const REFUSED: u32 = 1_000_001;

const OTHER: u32 = 1_000_002;

fn outcome_of_fault(fault: ParseFault) -> u32 {
    match fault {
        ParseFault::TooDeep { token } => token,
        ParseFault::NotInGrammar { .. } => REFUSED,
        ParseFault::OutOfMemory => OTHER,
    }
}

fn outcome_of_tokens(alloc: Global, source: &str, tokens: &[Token]) -> u32
    requires placed { All (IsPlaced source.now) tokens.now }
{
    if tokens.len() > 1_048_576 {
        return OTHER;
    }
    match parse(alloc, source, tokens, &mut Names::new(alloc)) {
        Ok(_) => PARSED,
        Err(fault) => outcome_of_fault(fault),
    }
}

fn outcome(alloc: Global, source: &str) -> u32 {
    if source.len() > 1_048_576 {
        return OTHER;
    }
    match lex(alloc, source.as_bytes()) {
        Ok(tokens) => outcome_of_tokens(alloc, source, &tokens),
        Err(_) => OTHER,
    }
}

/// The parts of a text, which are cut at `@`: the second and the fourth so many times, the others once.
fn repeated(alloc: Global, parts: &str, times: u32) -> Result<String, AllocError> {
    let mut source = String::new(alloc);
    for (number, part) in parts.split('@').enumerate() {
        let count = if number == 1 || number == 3 { times } else { 1 };
        for _time in 0..count {
            source.push_str(part)?;
        }
    }
    Ok(source)
}

/// Parts of a source, how often the second and the fourth stand at most, and the first deep token where they stand once
/// more.
const DEEPEST: [(&str, u32, u32); 23] = [
    (
        "class A { int a = @b||b&&b|b^b&b==b<b<<b+b*(@1@)@; }",
        198,
        4184,
    ),
    ("class A { int a = @(@1@)@; }", 198, 204),
    ("class A { int a = @b(@@)@; }", 198, 403),
    ("class A { int a = @b[@0@]@; }", 198, 403),
    ("class A { int a = @- @1@@; }", 198, 204),
    ("class A { int a = @!@b@@; }", 198, 204),
    ("class A { int a = @(int)@b@@; }", 198, 600),
    ("class A { int a = @(int)-@b@@; }", 198, 798),
    ("class A { int a = @(B)@b@@; }", 198, 600),
    ("class A { int a = @b=@b@@; }", 198, 403),
    ("class A { int a = @b?b:@b@@; }", 198, 799),
    ("class A { int a = @b?@b@:b@; }", 198, 403),
    ("class A { int[] a = @{@@}@; }", 198, 206),
    ("class A { int a = @new A(@@)@; }", 198, 602),
    ("@class A {@@}@", 200, 602),
    ("class A { void f() @{@@}@ }", 199, 206),
    ("interface A { default void f() @{@@}@ }", 199, 207),
    (
        "interface A { static void f() { @while (b) @;@@} }",
        197,
        798,
    ),
    ("class A { void f() { @if (b) @@@; } }", 197, 797),
    ("class A { void f() { @if (b) ; else @;@@} }", 197, 1191),
    ("class A { void f() { @while (b) @;@@} }", 197, 797),
    ("class A { void f() { @for (;;) @;@@} }", 197, 994),
    ("class A { void f() { @do { @@} while (b);@} }", 98, 208),
];

/// The outcome of a source, on a thread with the stack that is said to be enough.
fn outcome_apart<R: thread::Threads>(rt: &R, alloc: Global, source: String) -> Result<u32, Fail> {
    let child = thread::Builder::new()
        .stack_size(PARSE_STACK)
        .spawn(rt, move || outcome(alloc, &source))?;
    Ok(child.join(rt))
}

/// The outcome of a source of parts, the second and the fourth so many times.
fn outcome_of_parts<R: thread::Threads>(
    rt: &R,
    alloc: Global,
    parts: &str,
    times: u32,
) -> Result<u32, Fail> {
    let source = repeated(alloc, parts, times)?;
    outcome_apart(rt, alloc, source)
}

#[test]
fn deepest_sources(rt: HostRuntime) -> Result<(), Fail> {
    for (parts, times, token) in &DEEPEST {
        let found = outcome_of_parts(&rt, rt.alloc(), parts, *times)?;
        assert_eq!(rt; found, PARSED, "{times}");
        let found = outcome_of_parts(&rt, rt.alloc(), parts, times.wrapping_add(1))?;
        assert_eq!(rt; found, *token, "{times}");
    }
    Ok(())
}

/// What stands in front of a spine, a link of it and what stands behind it, how many links 1 MiB has room for, and how
/// the source ends.
const SPINES: [(&str, u32, u32); 6] = [
    ("class A { int a = this@.a@; }", 524_200, PARSED),
    ("class A { int a = this@.a@", 524_200, REFUSED),
    ("class A { int a = a()@.a()@; }", 262_100, PARSED),
    ("class A { int a = a()@.a()@ 1; }", 262_100, REFUSED),
    ("class A { int a = this@[0].a@; }", 209_700, PARSED),
    ("class A { int a = super.a@[0].a@.; }", 209_700, REFUSED),
];

#[test]
fn longest_spines(rt: HostRuntime) -> Result<(), Fail> {
    for (parts, times, want) in &SPINES {
        let found = outcome_of_parts(&rt, rt.alloc(), parts, *times)?;
        assert_eq!(rt; found, *want, "{parts}");
    }
    Ok(())
}
