//! An expression over two labels, and what is left of it behind each.

use sg_base::{Label, LabelSet};
use sg_expr::Expr;
use std::alloc::{AllocError, Global};
use std::test::Fail;

/// Any number of labels 0, and then a label 1.
fn zeros_and_one(alloc: Global) -> Result<Expr, AllocError> {
    let zeros = Expr::Star(Box::new(alloc, Expr::One(Label::new(0)))?);
    let one = Expr::One(Label::new(1));
    Ok(Expr::Seq(Box::new(alloc, zeros)?, Box::new(alloc, one)?))
}

/// Numbers of labels, and whether words of the expression begin with them.
const HEADS: [(u8, bool); 4] = [(0, true), (1, true), (2, false), (15, false)];

/// The first of the labels of which it is otherwise.
pub(crate) fn wrong_head(heads: LabelSet) -> Option<u8> {
    for (number, is_head) in &HEADS {
        if *number < 16 && heads.has(Label::new(*number)) != *is_head {
            return Some(*number);
        }
    }
    None
}

#[test]
fn words_of_a_sequence(rt: HostRuntime) -> Result<(), Fail> {
    let expr = zeros_and_one(rt.alloc())?;
    assert_eq!(rt; wrong_head(expr.heads()), None);
    assert!(rt; expr.names_at_most(2) && !expr.names_at_most(1));
    Ok(())
}

/// What is left of a copy of the expression behind the labels of a word.
fn behind(alloc: Global, word: &[u8]) -> Result<Expr, AllocError> {
    let mut rest = zeros_and_one(alloc)?.copy(alloc)?;
    for number in word {
        rest = rest.after(alloc, Label::new(*number % 16))?;
    }
    Ok(rest)
}

/// Words, and of what is left behind each whether it has the empty word, any word, and one that is not empty.
const RESTS: [(&[u8], bool, bool, bool); 4] = [
    (&[], false, true, true),
    (&[0], false, true, true),
    (&[0, 1], true, true, false),
    (&[2], false, false, false),
];

/// Whether it is so of what is left behind a word.
fn is_rest(
    alloc: Global,
    word: &[u8],
    nullable: bool,
    live: bool,
    goes_on: bool,
) -> Result<bool, AllocError> {
    let rest = behind(alloc, word)?;
    Ok(rest.nullable() == nullable && rest.live() == live && rest.goes_on() == goes_on)
}

/// The first of the words of which it is otherwise.
fn wrong_rest(alloc: Global) -> Result<Option<usize>, AllocError> {
    for (at, (word, nullable, live, goes_on)) in RESTS.iter().enumerate() {
        if !is_rest(alloc, word, *nullable, *live, *goes_on)? {
            return Ok(Some(at));
        }
    }
    Ok(None)
}

#[test]
fn words_behind_a_label(rt: HostRuntime) -> Result<(), Fail> {
    assert_eq!(rt; wrong_rest(rt.alloc())?, None);
    Ok(())
}
