//! A folder for tests: its trees and its layout.

ghost use Rattle.std.specs.Prelude.{◌≡◌, ◌≤◌, length, map, IfOk, OnOk};
ghost use Rattle.jv_layout.specs.Folder.{layout_of};
ghost use Rattle.jv_layout.specs.Sizes.{IsFolder};
ghost use Rattle.jv_tree.specs.DeclTree.{tree_of};
ghost use Rattle.jv_tree.specs.Numbered.{AreNumbered, IsNumbered};

use jv_layout::{Layout, is_folder, layout, prelude};
use jv_lex::lex;
use jv_parse::parse;
use jv_tree::{Names, Unit};
use std::alloc::Global;
use std::test::Fail;

/// The tree of a source, whose identifiers have numbers of names.
fn parsed(alloc: Global, source: &str, names: &mut Names) -> Result<Unit, Fail>
    ensures numbered { IfOk result (λ u. IsNumbered (length names.new) (tree_of u)) }
    ensures more { OnOk result (length names.old ≤ length names.new) }
{
    if source.len() > 1_048_576 {
        return Err(Fail::new("a source is too long"));
    }
    let tokens = lex(alloc, source.as_bytes())?;
    if tokens.len() > 1_048_576 || names.len() > 1_048_576 {
        return Err(Fail::new("too many names"));
    }
    Ok(parse(alloc, source, &tokens, names)?)
}

/// Adds the tree of a source behind others.
fn add_parsed(
    alloc: Global,
    source: &str,
    names: &mut Names,
    units: &mut Vec<Unit>,
) -> Result<(), Fail>
    requires { AreNumbered (length names.old) (map tree_of units.old.items) }
    ensures { OnOk result (AreNumbered (length names.new) (map tree_of units.new.items)) }
{
    let unit = parsed(alloc, source, names)?;
    units.push(unit)?;
    Ok(())
}

/// The trees of the prelude's files, and then of a source.
pub fn trees(alloc: Global, source: &str, names: &mut Names) -> Result<Vec<Unit>, Fail>
    ensures { IfOk result (λ us. AreNumbered (length names.new) (map tree_of us.items)) }
{
    let mut units = Vec::new(alloc);
    add_parsed(alloc, prelude::OBJECT, names, &mut units)?;
    add_parsed(alloc, prelude::STRING, names, &mut units)?;
    add_parsed(alloc, source, names, &mut units)?;
    Ok(units)
}

/// The layout of the files whose trees these are.
pub fn laid_out(alloc: Global, names: &Names, units: &[Unit]) -> Result<Layout, Fail>
    ensures layout { IfOk result (λ l. l ≡ layout_of names.now (map tree_of units.now)) }
    ensures folder { OnOk result (IsFolder (map tree_of units.now)) }
{
    if !is_folder(units) {
        return Err(Fail::new("too many names are declared"));
    }
    Ok(layout(alloc, names, units)?)
}
