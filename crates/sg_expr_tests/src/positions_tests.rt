//! Positions beside derivatives, over the words of small expressions.

ghost use Rattle.std.specs.Prelude.{◌<◌};

use crate::tests::wrong_head;
use sg_base::Label;
use sg_expr::{Expr, Positions};
use std::alloc::{AllocError, Global};
use std::test::Fail;

fn one(number: u8) -> Expr
    requires { number < 16 }
{
    Expr::One(Label::new(number))
}

fn then(alloc: Global, first: Expr, second: Expr) -> Result<Expr, AllocError> {
    Ok(Expr::Seq(Box::new(alloc, first)?, Box::new(alloc, second)?))
}

fn either(alloc: Global, left: Expr, right: Expr) -> Result<Expr, AllocError> {
    Ok(Expr::Alt(Box::new(alloc, left)?, Box::new(alloc, right)?))
}

fn any(alloc: Global, inner: Expr) -> Result<Expr, AllocError> {
    Ok(Expr::Star(Box::new(alloc, inner)?))
}

/// Whether a set of positions and what is left of an expression say the same.
fn say_the_same(positions: &Positions, set: u64, rest: &Expr) -> bool {
    positions.ends(set) == rest.nullable()
        && positions.goes_on(set) == rest.goes_on()
        && positions.heads(set) == rest.heads()
}

/// Whether positions and derivatives say the same before and behind each label of a word.
fn agree_along(alloc: Global, expr: &Expr, word: &[u8]) -> Result<bool, AllocError> {
    if !expr.names_at_most(63) {
        return Ok(false);
    }
    let positions = Positions::build(alloc, expr)?;
    let mut set = positions.first();
    let mut rest = expr.copy(alloc)?;
    for number in word {
        if !say_the_same(&positions, set, &rest) {
            return Ok(false);
        }
        let label = Label::new(*number % 16);
        set = positions.step(set, label);
        rest = rest.after(alloc, label)?;
    }
    Ok(say_the_same(&positions, set, &rest))
}

/// Whether positions and derivatives agree along all words of at most five labels below 3.
fn agree(alloc: Global, expr: &Expr) -> Result<bool, AllocError> {
    for code in 0..243u8 {
        let word = [
            code % 3,
            code / 3 % 3,
            code / 9 % 3,
            code / 27 % 3,
            code / 81,
        ];
        if !agree_along(alloc, expr, &word)? {
            return Ok(false);
        }
    }
    Ok(true)
}

/// The last of these expressions, which is taken from them, or the empty word.
fn last(parts: &mut Vec<Expr>) -> Expr {
    match parts.pop() {
        Some(part) => part,
        None => Expr::Empty,
    }
}

/// Adds a part behind others, joins the last two or repeats the last.
fn put_part(alloc: Global, parts: &mut Vec<Expr>, part: u8) -> Result<(), AllocError> {
    let made = match part {
        b'0' => one(0),
        b'1' => one(1),
        b'2' => one(2),
        b'*' => any(alloc, last(parts))?,
        b'.' => {
            let second = last(parts);
            then(alloc, last(parts), second)?
        }
        b'|' => {
            let right = last(parts);
            either(alloc, last(parts), right)?
        }
        b'e' => Expr::Empty,
        _ => Expr::Nothing,
    };
    parts.push(made)?;
    Ok(())
}

/// The expression of a text: labels, `e` for the empty word and `n` for no word, each operator behind what it joins or repeats.
fn expr_of(alloc: Global, text: &str) -> Result<Expr, AllocError> {
    let mut parts = Vec::new(alloc);
    for part in text.as_bytes() {
        put_part(alloc, &mut parts, *part)?;
    }
    Ok(last(&mut parts))
}

/// The positions of any number of labels 0, and then a label 1.
fn positions_of_zeros_and_one(alloc: Global) -> Result<Positions, Fail> {
    let expr = expr_of(alloc, "0*1.")?;
    if !expr.names_at_most(63) {
        return Err(Fail::new("too many labels"));
    }
    Ok(Positions::build(alloc, &expr)?)
}

/// The positions behind the labels of a word.
fn behind(positions: &Positions, word: &[u8]) -> u64 {
    let mut set = positions.first();
    for number in word {
        set = positions.step(set, Label::new(*number % 16));
    }
    set
}

/// Words, and whether one may end behind each, and whether one goes on there.
const WORDS: [(&[u8], bool, bool); 4] = [
    (&[], false, true),
    (&[0], false, true),
    (&[0, 1], true, false),
    (&[2], false, false),
];

/// The first of the words of which it is otherwise.
fn wrong_word(positions: &Positions) -> Option<usize> {
    for (at, (word, ends, goes_on)) in WORDS.iter().enumerate() {
        let set = behind(positions, word);
        if positions.ends(set) != *ends || positions.goes_on(set) != *goes_on {
            return Some(at);
        }
    }
    None
}

#[test]
fn positions_of_a_sequence(rt: HostRuntime) -> Result<(), Fail> {
    let positions = positions_of_zeros_and_one(rt.alloc())?;
    assert_eq!(rt; wrong_word(&positions), None);
    assert_eq!(rt; wrong_head(positions.heads(positions.first())), None);
    assert!(rt; positions.first() != 0);
    assert_eq!(rt; behind(&positions, &[2]), 0);
    Ok(())
}

/// Expressions with nested stars, with a part that has no word, and with one that has the empty word.
const EXPRESSIONS: [&str; 5] = ["01*.*20.|*", "0*n.1*0.|e*.", "e00.|01|.", "n", "e"];

/// The first of the expressions where positions and derivatives differ.
fn differing(alloc: Global) -> Result<Option<&'static str>, AllocError> {
    for text in &EXPRESSIONS {
        if !agree(alloc, &expr_of(alloc, text)?)? {
            return Ok(Some(*text));
        }
    }
    Ok(None)
}

#[test]
fn positions_and_derivatives_agree(rt: HostRuntime) -> Result<(), Fail> {
    assert_eq!(rt; differing(rt.alloc())?, None);
    Ok(())
}

/// The parts that digits stand for.
const PARTS: &[u8; 8] = b"012*..|n";

/// All of these expressions, one behind another.
fn joined(alloc: Global, mut parts: Vec<Expr>) -> Result<Expr, AllocError> {
    let mut all = last(&mut parts);
    for part in parts {
        all = either(alloc, part, then(alloc, all, one(1))?)?;
    }
    Ok(all)
}

/// An expression by the digits of a number.
fn by_digits(alloc: Global, digits: u64) -> Result<Expr, AllocError> {
    let mut parts = Vec::new(alloc);
    let mut left = digits;
    for _ in 0..12 {
        put_part(alloc, &mut parts, PARTS[(left % 8) as usize])?;
        left /= 8;
    }
    joined(alloc, parts)
}

/// Whether positions and derivatives agree on the expression by the digits of a number.
fn agree_by(alloc: Global, digits: u64) -> Result<bool, AllocError> {
    agree(alloc, &by_digits(alloc, digits)?)
}

#[test]
fn positions_and_derivatives_agree_on_random_expressions(rt: HostRuntime) -> Result<(), Fail> {
    let mut seed: u64 = 20;
    for round in 0..60 {
        seed = seed
            .wrapping_mul(6_364_136_223_846_793_005)
            .wrapping_add(1_442_695_040_888_963_407);
        assert!(rt; agree_by(rt.alloc(), seed >> 20)?, "in round {round}");
    }
    Ok(())
}

/// What is left of a repeated repetition behind so many labels.
fn behind_zeros(alloc: Global, times: u32) -> Result<Expr, AllocError> {
    let mut rest = expr_of(alloc, "0**")?;
    for _ in 0..times {
        rest = rest.after(alloc, Label::new(0))?;
    }
    Ok(rest)
}

/// Whether an expression is the same as its copy.
fn is_copied(alloc: Global, expr: &Expr) -> Result<bool, AllocError> {
    Ok(expr.is_same(&expr.copy(alloc)?))
}

#[test]
fn derivatives_of_nested_stars_do_not_double(rt: HostRuntime) -> Result<(), Fail> {
    let rest = behind_zeros(rt.alloc(), 24)?;
    assert!(rt; rest.names_at_most(8) && is_copied(rt.alloc(), &rest)?);
    assert!(rt; !rest.is_same(&one(0)));
    Ok(())
}
