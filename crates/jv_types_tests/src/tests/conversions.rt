//! Which types may stand for which.

use super::{OBJECT, first_word, is_row, side};
use jv_types::{Side, assignable, castable, is_numeric, is_reference, promote, subtype};

/// A plus for what holds.
fn mark(holds: bool) -> u8 {
    if holds { b'+' } else { b'-' }
}

/// Two types, and whether the first may be assigned to the second, the second to the first, and each be cast to the other.
const CONVERSIONS: &str = "\
# numbers widen
char char ++++
char int +-++
char long +-++
int int ++++
int long +-++
long long ++++
# primitives have no boxes
boolean boolean ++++
boolean char ----
boolean int ----
boolean long ----
boolean object ----
int object ----
int string ----
char named ----
long object[] ----
# null fits references
null null ++++
null animal +-++
null string +-++
null named +-++
null int[] +-++
null animal[][] +-++
null int ----
null boolean ----
# classes go up
dog dog ++++
dog animal +-++
dog object +-++
animal object +-++
animal stone ----
dog stone ----
string animal ----
coin stone ----
# a class that is not final may meet an interface
dog named +-++
coin named +-++
animal named --++
dog round --++
coin round ----
coin titled ----
string named ----
# interfaces meet
named named ++++
named object +-++
titled named +-++
titled object +-++
named round --++
titled round --++
# arrays of primitives stay apart
int[] int[] ++++
int[] int ----
int[] int[][] ----
char[] int[] ----
int[][] long[][] ----
boolean[] int[] ----
int[] object +-++
int[][] object +-++
int[][] object[] +-++
int[] object[] ----
int[] string ----
int[] named ----
# arrays of classes follow their elements
dog[] animal[] +-++
dog[][] animal[][] +-++
dog[] object[] +-++
named[] object[] +-++
animal[] named[] --++
named[][][] round[][][] --++
coin[] round[] ----
animal[] stone[] ----
dog[] int[] ----
# arrays are below object alone
dog[] object +-++
dog[][] object[] +-++
dog[] dog ----
dog[] animal ----
animal[] named ----
dog[][] animal[] ----
animal[][] named[] ----
dog[] int[][] ----
# a bad type fits both ways
bad bad[][] ++++
bad boolean ++++
bad int ++++
bad null ++++
bad void ++++
bad dog ++++
bad named[] ++++
bad[][] bad[] ++++
boolean bad[] ++++
int bad[] ++++
null bad[] ++++
void bad[] ++++
dog bad[] ++++
named[] bad[] ++++
# void fits no value
void boolean ----
void int ----
void null ----
void object ----
void int[] ----
";

/// The marks of two types.
fn marks(a: Side<'_>, b: Side<'_>) -> [u8; 4] {
    [
        mark(assignable(a.ty, b.ty, a.up, OBJECT)),
        mark(assignable(b.ty, a.ty, b.up, OBJECT)),
        mark(castable(a, b, OBJECT)),
        mark(castable(b, a, OBJECT)),
    ]
}

/// Whether a row has the marks of its types.
fn is_converted(line: &str) -> bool {
    let (a, rest) = first_word(line);
    let (b, wanted) = first_word(rest);
    match (side(a), side(b)) {
        (Some(a), Some(b)) => wanted.as_bytes() == marks(a, b).as_slice(),
        _ => false,
    }
}

/// The first row that has other marks.
fn wrong_conversion() -> Option<&'static str> {
    for line in CONVERSIONS.lines() {
        if is_row(line) && !is_converted(line) {
            return Some(line);
        }
    }
    None
}

#[test]
fn types_stand_for_others(rt: HostRuntime) {
    assert_eq!(rt; wrong_conversion(), None);
}

/// Two types, and whether the first is a subtype of the second.
const SUBTYPES: &str = "\
dog animal +
animal dog -
titled object +
int[] object +
dog[] animal[] +
null object -
char int -
";

/// Whether a row has the mark of its types.
fn is_subtype_row(line: &str) -> bool {
    let (a, rest) = first_word(line);
    let (b, wanted) = first_word(rest);
    match (side(a), side(b)) {
        (Some(a), Some(b)) => wanted.as_bytes()
            == [mark(subtype(a.ty, b.ty, a.up, OBJECT))].as_slice(),
        _ => false,
    }
}

/// The first row that has another mark.
fn wrong_subtype() -> Option<&'static str> {
    for line in SUBTYPES.lines() {
        if !is_subtype_row(line) {
            return Some(line);
        }
    }
    None
}

#[test]
fn subtypes_are_references(rt: HostRuntime) {
    assert_eq!(rt; wrong_subtype(), None);
}

/// A type, and whether it is numeric and whether a reference.
const KINDS: &str = "\
char +-
int +-
long +-
boolean --
null --
void --
int[] -+
dog -+
";

/// Whether a row has the marks of its type.
fn is_kind_row(line: &str) -> bool {
    let (a, wanted) = first_word(line);
    match side(a) {
        Some(a) => wanted.as_bytes()
            == [mark(is_numeric(a.ty)), mark(is_reference(a.ty))].as_slice(),
        None => false,
    }
}

/// The first row that has other marks.
fn wrong_kind() -> Option<&'static str> {
    for line in KINDS.lines() {
        if !is_kind_row(line) {
            return Some(line);
        }
    }
    None
}

#[test]
fn types_are_numeric_or_references(rt: HostRuntime) {
    assert_eq!(rt; wrong_kind(), None);
}

/// Two types, and what they are promoted to.
const PROMOTIONS: &str = "\
char char int
char int int
int int int
int long long
long char long
";

/// Whether the types of a row are promoted so.
fn is_promoted(line: &str) -> bool {
    let (a, rest) = first_word(line);
    let (b, wanted) = first_word(rest);
    match (side(a), side(b), side(wanted)) {
        (Some(a), Some(b), Some(wanted)) => {
            is_numeric(a.ty) && is_numeric(b.ty) && promote(a.ty, b.ty) == wanted.ty
        }
        _ => false,
    }
}

/// The first row whose types are promoted otherwise.
fn wrong_promotion() -> Option<&'static str> {
    for line in PROMOTIONS.lines() {
        if !is_promoted(line) {
            return Some(line);
        }
    }
    None
}

#[test]
fn promotion_is_to_int_or_long(rt: HostRuntime) {
    assert_eq!(rt; wrong_promotion(), None);
}
