//! The order of dotted names.

ghost use Rattle.std.specs.Prelude.{◌≡◌, ℕ, ◌<◌, List, [], ◌∷◌, ◌++◌, length, map, MatchOption, if◌then◌else◌};
ghost use Rattle.std.specs.Cmp.Lexicographic.{slice_cmp};
ghost use Rattle.std.specs.Ordering.{nat_cmp};
ghost use Rattle.jv_layout.specs.Folder.{text_of, path_cmp, numbers_of, with_dot};

use jv_tree::{Ident, NameId, Names};
use std::cmp::Ordering;

/// The text of a number, and no text for a number that is none of the names.
pub fn text_of<'a>(names: &'a Names, id: NameId) -> &'a str
    ensures { result.now ≡ text_of names.now id.0 }
{
    if id.0 < names.len() {
        names.text(id)
    } else {
        ""
    }
}

/// The first byte of a text, or of a dot behind it, and what is left of the two.
fn first_byte<'a>(text: &'a [u8], dot: bool) -> Option<(u8, &'a [u8], bool)>
    ensures { MatchOption result (with_dot text.now dot ≡ []) (λ p. with_dot text.now dot ≡ p.0 ∷ with_dot p.1.now p.2) }
{
    match text {
        [first, rest @ ..] => Some((*first, rest, dot)),
        [] => { if dot { Some((b'.', text, false)) } else { None } }
    }
}

/// The order of two texts, with or without a dot behind each, by bytes. It takes time in what they share.
fn part_cmp(x: &[u8], x_dot: bool, y: &[u8], y_dot: bool) -> Ordering
    ensures { result ≡ slice_cmp nat_cmp (with_dot x.now x_dot) (with_dot y.now y_dot) }
{
    let mut left = x;
    let mut left_dot = x_dot;
    let mut right = y;
    let mut right_dot = y_dot;
    while let Some((a, left_rest, left_more)) = first_byte(left, left_dot) {
        match first_byte(right, right_dot) {
            None => return Ordering::Greater,
            Some((b, right_rest, right_more)) => {
                if a != b {
                    return a.cmp(&b);
                }
                left = left_rest;
                left_dot = left_more;
                right = right_rest;
                right_dot = right_more;
            }
        }
    }
    match first_byte(right, right_dot) {
        None => Ordering::Equal,
        Some(_) => Ordering::Less,
    }
}

/// The order of two dotted names. It takes time in what they share.
pub fn path_cmp(names: &Names, a: &[Ident], b: &[Ident]) -> Ordering
    ensures { result ≡ path_cmp names.now (numbers_of a.now) (numbers_of b.now) }
{
    let mut left = a;
    let mut right = b;
    while let [x, xs @ ..] = left {
        match right {
            [] => return Ordering::Greater,
            [y, ys @ ..] => {
                let order = part_cmp(
                    text_of(names, x.id).as_bytes(),
                    !xs.is_empty(),
                    text_of(names, y.id).as_bytes(),
                    !ys.is_empty(),
                );
                if order != Ordering::Equal {
                    return order;
                }
                left = xs;
                right = ys;
            }
        }
    }
    if right.is_empty() {
        Ordering::Equal
    } else {
        Ordering::Less
    }
}
