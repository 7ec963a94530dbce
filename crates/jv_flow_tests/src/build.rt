//! Bodies that are built from a short text.
//!
//! `;` is empty, `r` returns, `b` breaks, `c` continues, `{}` is a block. `w`, `f`, `i` and `e` are a `while`, a `for`, an `if`
//! and one with `else`, with a condition and statements; `j` is an `if` with `else if` and `else`. `d` is a `do`, whose condition
//! stands behind. A condition is `t` for `true`, `n` for `false`, `x` for another, and `-` for none. A statement starts where its
//! letter stands.

use jv_tree::nodes::{
    block, bool_literal, break_loop, continue_loop, do_loop, empty, for_loop, if_else, return_from,
    this, while_loop,
};
use jv_tree::{Expr, Stmt};
use std::alloc::{AllocError, Global};

/// An offset.
fn place(at: usize) -> u32 {
    (at % 1000) as u32
}

/// The next letter, which is passed.
fn letter(text: &[u8], at: &mut usize) -> u8 {
    if *at < text.len() {
        let found = text[*at];
        *at += 1;
        found
    } else {
        b';'
    }
}

/// A condition.
fn condition(text: &[u8], at: &mut usize) -> Expr {
    let start = place(*at);
    match letter(text, at) {
        b't' => bool_literal(start, true),
        b'n' => bool_literal(start, false),
        _ => this(start),
    }
}

/// The condition of a `for`.
fn optional_condition(text: &[u8], at: &mut usize) -> Option<Expr> {
    if *at < text.len() && text[*at] == b'-' {
        *at += 1;
        None
    } else {
        Some(condition(text, at))
    }
}

/// A statement, at most so deep.
#[cycle(build)]
fn statement(alloc: Global, text: &[u8], at: &mut usize, depth: u8) -> Result<Stmt, AllocError> {
    let start = place(*at);
    let first = letter(text, at);
    if depth == 0 {
        return Ok(empty(start));
    }
    match first {
        b'r' => Ok(return_from(start, None)),
        b'b' => Ok(break_loop(start)),
        b'c' => Ok(continue_loop(start)),
        b'{' => {
            let inner = statements(alloc, text, at, depth - 1)?;
            Ok(block(start, inner))
        }
        b'w' => {
            let test = condition(text, at);
            let body = statement(alloc, text, at, depth - 1)?;
            while_loop(alloc, start, test, body)
        }
        b'd' => {
            let body = statement(alloc, text, at, depth - 1)?;
            let test = condition(text, at);
            do_loop(alloc, start, body, test)
        }
        b'f' => {
            let test = optional_condition(text, at);
            let body = statement(alloc, text, at, depth - 1)?;
            for_loop(alloc, start, Vec::new(alloc), test, Vec::new(alloc), body)
        }
        b'i' => if_alone(alloc, start, text, at, depth - 1),
        b'e' => if_other(alloc, start, text, at, depth - 1),
        b'j' => if_chain(alloc, start, text, at, depth - 1),
        _ => Ok(empty(start)),
    }
}

/// An `if` without `else`.
#[cycle(build)]
fn if_alone(
    alloc: Global,
    start: u32,
    text: &[u8],
    at: &mut usize,
    depth: u8,
) -> Result<Stmt, AllocError> {
    let test = condition(text, at);
    let body = statement(alloc, text, at, depth)?;
    let branches = one_branch(alloc, test, body)?;
    if_else(alloc, start, branches, None)
}

/// An `if` with `else`.
#[cycle(build)]
fn if_other(
    alloc: Global,
    start: u32,
    text: &[u8],
    at: &mut usize,
    depth: u8,
) -> Result<Stmt, AllocError> {
    let test = condition(text, at);
    let body = statement(alloc, text, at, depth)?;
    let other = statement(alloc, text, at, depth)?;
    let branches = one_branch(alloc, test, body)?;
    if_else(alloc, start, branches, Some(other))
}

/// An `if` with `else if` and `else`.
#[cycle(build)]
fn if_chain(
    alloc: Global,
    start: u32,
    text: &[u8],
    at: &mut usize,
    depth: u8,
) -> Result<Stmt, AllocError> {
    let first = condition(text, at);
    let body = statement(alloc, text, at, depth)?;
    let second = condition(text, at);
    let more = statement(alloc, text, at, depth)?;
    let other = statement(alloc, text, at, depth)?;
    let branches = two_branches(alloc, first, body, second, more)?;
    if_else(alloc, start, branches, Some(other))
}

/// Statements up to the end of a block or of the text, each at most so deep.
#[cycle(build)]
fn statements(
    alloc: Global,
    text: &[u8],
    at: &mut usize,
    depth: u8,
) -> Result<Vec<Stmt>, AllocError> {
    let mut found = Vec::new(alloc);
    for _i in 0..text.len() {
        if *at >= text.len() {
            return Ok(found);
        }
        if text[*at] == b'}' {
            *at += 1;
            return Ok(found);
        }
        let next = statement(alloc, text, at, depth)?;
        found.push(next)?;
    }
    Ok(found)
}

/// One branch.
fn one_branch(alloc: Global, test: Expr, body: Stmt) -> Result<Vec<(Expr, Stmt)>, AllocError> {
    let mut found = Vec::new(alloc);
    found.push((test, body))?;
    Ok(found)
}

/// Two branches.
fn two_branches(
    alloc: Global,
    first: Expr,
    body: Stmt,
    second: Expr,
    more: Stmt,
) -> Result<Vec<(Expr, Stmt)>, AllocError> {
    let mut found = Vec::new(alloc);
    found.push((first, body))?;
    found.push((second, more))?;
    Ok(found)
}

/// The statements of a whole text.
pub fn body_of(alloc: Global, text: &str) -> Result<Vec<Stmt>, AllocError> {
    let mut at = 0;
    statements(alloc, text.as_bytes(), &mut at, 20)
}
