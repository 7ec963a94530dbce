//! Rows of the tables, with values by the rules of the language (JLS 4.10, 5, 15), over these types:
//!
//! ```java
//! class Animal {}                     interface Named {}
//! class Dog extends Animal implements Named {}
//! class Stone {}                      interface Titled extends Named {}
//! final class Coin implements Named {}
//! final class String {}               interface Round {}
//! ```
//!
//! A row is a line of a text, and a line that begins with a hash says what those behind it are about. A class is written in small letters, with its
//! brackets.

mod conversions;
mod operators;

use jv_instance::{Ty, TypeBase};
use jv_types::Side;
use sg_base::Scope;

pub(crate) const OBJECT: Scope = Scope { unit: 7, serial: 0 };

pub(crate) const STRING: Scope = Scope { unit: 7, serial: 1 };

const ANIMAL: Scope = Scope { unit: 7, serial: 2 };

const DOG: Scope = Scope { unit: 7, serial: 3 };

const STONE: Scope = Scope { unit: 7, serial: 4 };

const COIN: Scope = Scope { unit: 7, serial: 5 };

const NAMED: Scope = Scope { unit: 7, serial: 6 };

const TITLED: Scope = Scope { unit: 7, serial: 7 };

const ROUND: Scope = Scope { unit: 8, serial: 7 };

/// The first word of a text, and what follows it.
pub(crate) fn first_word(text: &str) -> (&str, &str) {
    match text.split_once(' ') {
        Some(parts) => parts,
        None => (text, ""),
    }
}

/// Whether a line is a row.
pub(crate) fn is_row(line: &str) -> bool {
    !line.starts_with('#')
}

/// A base that is no class.
fn plain(word: &str) -> Option<TypeBase> {
    match word {
        "boolean" => Some(TypeBase::Boolean),
        "char" => Some(TypeBase::Char),
        "int" => Some(TypeBase::Int),
        "long" => Some(TypeBase::Long),
        "null" => Some(TypeBase::Null),
        "void" => Some(TypeBase::Void),
        "bad" => Some(TypeBase::Bad),
        _ => None,
    }
}

/// The supertypes of a class or an interface, itself among them.
fn supertypes(word: &str) -> &'static [Scope] {
    match word {
        "object" => &[OBJECT],
        "string" => &[STRING, OBJECT],
        "animal" => &[ANIMAL, OBJECT],
        "dog" => &[DOG, ANIMAL, NAMED, OBJECT],
        "stone" => &[STONE, OBJECT],
        "coin" => &[COIN, NAMED, OBJECT],
        "named" => &[NAMED, OBJECT],
        "titled" => &[TITLED, NAMED, OBJECT],
        "round" => &[ROUND, OBJECT],
        _ => &[],
    }
}

/// What is known of a base.
fn with_base(word: &str, dims: u8) -> Option<Side<'static>> {
    let up = supertypes(word);
    let base = match up.first() {
        Some(class) => TypeBase::Class(*class),
        None => plain(word)?,
    };
    Some(Side {
        ty: Ty { base, dims },
        up,
        interface: matches!(word, "named" | "titled" | "round"),
        is_final: matches!(word, "string" | "coin"),
    })
}

/// How many pairs of brackets there are, behind the first of them.
fn dims_of(rest: &str) -> Option<u8> {
    match rest {
        "]" => Some(1),
        "][]" => Some(2),
        "][][]" => Some(3),
        _ => None,
    }
}

/// What is known of a type.
pub(crate) fn side(word: &str) -> Option<Side<'static>> {
    match word.split_once('[') {
        Some((base, rest)) => with_base(base, dims_of(rest)?),
        None => with_base(word, 0),
    }
}
