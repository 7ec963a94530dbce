//! The kinds of queries, and names in the small folder, worked out by hand.

use jv_instance::labels;
use jv_names::java_kinds;
use jv_names::kinds::{
    ABOVE, CTORS, FIELDS, FILETYPE, MEMTYPE, METHODS, OWNTYPE, SIG, SUBPKG, SUPERS,
};
use sg_base::{Label, Mark};
use sg_expr::Expr;
use sg_query::KindTable;
use std::alloc::Global;
use std::test::Fail;

/// Whether a word belongs to an expression.
fn has_word(alloc: Global, expr: &Expr, word: &[u8]) -> Result<bool, Fail> {
    let mut rest = expr.copy(alloc)?;
    for number in word {
        if *number < 16 {
            rest = rest.after(alloc, Label::new(*number))?;
        }
    }
    Ok(rest.nullable())
}

const WORDS: [(u8, &[u8], bool); 23] = [
    (SUBPKG, &[labels::PKG], true),
    (SUBPKG, &[labels::PKG, labels::PKG], false),
    (OWNTYPE, &[labels::TYPE], true),
    (OWNTYPE, &[labels::EXT, labels::TYPE], false),
    (MEMTYPE, &[labels::TYPE], true),
    (MEMTYPE, &[labels::EXT, labels::EXT, labels::TYPE], true),
    (MEMTYPE, &[labels::EXT], false),
    (FILETYPE, &[labels::SELF], true),
    (FILETYPE, &[labels::SIMP], true),
    (FILETYPE, &[labels::PKGOF, labels::TYPE], true),
    (FILETYPE, &[labels::ODI, labels::TYPE], true),
    (FILETYPE, &[labels::ODI], false),
    (FIELDS, &[labels::EXT, labels::FIELD], true),
    (FIELDS, &[labels::EXT, labels::METH], false),
    (METHODS, &[labels::METH], true),
    (ABOVE, &[labels::METH], false),
    (ABOVE, &[labels::EXT, labels::EXT, labels::METH], true),
    (CTORS, &[labels::CTOR], true),
    (CTORS, &[labels::EXT, labels::CTOR], false),
    (SIG, &[labels::SIG], true),
    (SUPERS, &[], true),
    (SUPERS, &[labels::EXT, labels::EXT], true),
    (SUPERS, &[labels::TYPE], false),
];

/// The kind of the first word where it is otherwise.
fn wrong_word(alloc: Global, table: &KindTable) -> Result<Option<u8>, Fail> {
    for (kind, word, wanted) in WORDS {
        if kind >= table.len() || has_word(alloc, &table.kind(kind).expr, word)? != wanted {
            return Ok(Some(kind));
        }
    }
    Ok(None)
}

#[test]
fn kinds_follow_their_words(rt: HostRuntime) -> Result<(), Fail> {
    let table = java_kinds(rt.alloc())?;
    assert_eq!(rt; table.len(), 10);
    assert_eq!(rt; wrong_word(rt.alloc(), &table)?, None);
    Ok(())
}

const ORDERS: [(u8, u8, u8, bool); 12] = [
    (SUBPKG, labels::PKG, labels::TYPE, false),
    (MEMTYPE, labels::TYPE, labels::EXT, true),
    (MEMTYPE, labels::EXT, labels::TYPE, false),
    (FILETYPE, labels::SELF, labels::SIMP, true),
    (FILETYPE, labels::SIMP, labels::PKGOF, true),
    (FILETYPE, labels::SELF, labels::ODI, true),
    (FILETYPE, labels::ODI, labels::PKGOF, false),
    (FIELDS, labels::FIELD, labels::EXT, true),
    (METHODS, labels::METH, labels::EXT, true),
    (METHODS, labels::FIELD, labels::EXT, false),
    (ABOVE, labels::METH, labels::EXT, true),
    (SUPERS, labels::EXT, labels::EXT, false),
];

/// Whether a label is before another one in the order of a kind, if they are all there.
fn is_before(table: &KindTable, kind: u8, first: u8, second: u8) -> Option<bool> {
    if kind < table.len() && first < 16 && second < 16 {
        let order = &table.kind(kind).order;
        Some(order.before(Mark::Of(Label::new(first)), Mark::Of(Label::new(second))))
    } else {
        None
    }
}

/// The kind and the labels of the first order where it is otherwise.
fn wrong_order(table: &KindTable) -> Option<(u8, u8, u8)> {
    for (kind, first, second, wanted) in ORDERS {
        if is_before(table, kind, first, second) != Some(wanted) {
            return Some((kind, first, second));
        }
    }
    None
}

#[test]
fn kinds_order_their_labels(rt: HostRuntime) -> Result<(), Fail> {
    let wrong = wrong_order(&java_kinds(rt.alloc())?);
    assert_eq!(rt; wrong, None);
    Ok(())
}
