//! The table of the kinds of queries.

ghost use Rattle.std.specs.Prelude.{◌≡◌, ◌≢◌, ◌<◌, [], ◌∷◌, map, take, IfOk, OnOk};
ghost use Rattle.sg_expr.specs.Tree.{one_label, in_turn, repeated};
ghost use Rattle.sg_query.specs.Query.{value_of_kind};
ghost use Rattle.jv_instance.specs.declared.labels.TheConstants.{SELF, SIMP, PKGOF, ODI, EXT, METH};
ghost use Rattle.jv_names.specs.Kinds.{AllAre, AreKinds, IsKind, above_or_own, kinds, of_file};

use crate::orders::{file_order, in_order, no_order};
use crate::words::{above_or_own, in_turn, of_file, one_label, repeated};
use jv_instance::labels;
use sg_query::{Kind, KindTable};
use std::alloc::{AllocError, Global};

/// What one label leads to.
fn direct(label: u8) -> Kind
    requires { label < 16 }
    ensures { IsKind (record { words = one_label label; labels = [] }) (value_of_kind result) }
{
    Kind {
        expr: one_label(label),
        order: no_order(),
    }
}

/// What a label leads to from a type and from its supertypes, from a type before its supertypes.
fn own_first(alloc: Global, label: u8) -> Result<Kind, AllocError>
    requires label { label < 16 }
    requires apart { label ≢ EXT }
    ensures { IfOk result (λ k. IsKind (record { words = above_or_own label; labels = label ∷ EXT ∷ [] }) (value_of_kind k)) }
{
    Ok(Kind {
        expr: above_or_own(alloc, label)?,
        order: in_order(label, labels::EXT),
    })
}

/// The types that a file sees by their simple names.
fn seen_by_file(alloc: Global) -> Result<Kind, AllocError>
    ensures { IfOk result (λ k. IsKind (record { words = of_file; labels = SELF ∷ SIMP ∷ PKGOF ∷ ODI ∷ [] }) (value_of_kind k)) }
{
    Ok(Kind {
        expr: of_file(alloc)?,
        order: file_order(),
    })
}

/// The methods of proper supertypes, from each type before its supertypes.
fn methods_above(alloc: Global) -> Result<Kind, AllocError>
    ensures { IfOk result (λ k. IsKind (record { words = in_turn (one_label EXT) (above_or_own METH); labels = METH ∷ EXT ∷ [] }) (value_of_kind k)) }
{
    let methods = above_or_own(alloc, labels::METH)?;
    Ok(Kind {
        expr: in_turn(alloc, one_label(labels::EXT), methods)?,
        order: in_order(labels::METH, labels::EXT),
    })
}

/// A type and all its supertypes.
fn all_supertypes(alloc: Global) -> Result<Kind, AllocError>
    ensures { IfOk result (λ k. IsKind (record { words = repeated (one_label EXT); labels = [] }) (value_of_kind k)) }
{
    Ok(Kind {
        expr: repeated(alloc, one_label(labels::EXT))?,
        order: no_order(),
    })
}

/// Adds the kinds that lead to packages and types, which are the first four.
fn add_first_kinds(alloc: Global, found: &mut Vec<Kind>) -> Result<(), AllocError>
    requires { found.old.items ≡ [] }
    ensures { OnOk result (AllAre (take 4 kinds) (map value_of_kind found.new.items)) }
{
    found.push(direct(labels::PKG))?;
    found.push(direct(labels::TYPE))?;
    found.push(own_first(alloc, labels::TYPE)?)?;
    found.push(seen_by_file(alloc)?)?;
    Ok(())
}

/// Adds the kinds that lead to members, signatures and supertypes, which are those behind the first four.
fn add_further_kinds(alloc: Global, found: &mut Vec<Kind>) -> Result<(), AllocError>
    requires { AllAre (take 4 kinds) (map value_of_kind found.old.items) }
    ensures { OnOk result (AllAre kinds (map value_of_kind found.new.items)) }
{
    found.push(own_first(alloc, labels::FIELD)?)?;
    found.push(own_first(alloc, labels::METH)?)?;
    found.push(methods_above(alloc)?)?;
    found.push(direct(labels::CTOR))?;
    found.push(direct(labels::SIG))?;
    found.push(all_supertypes(alloc)?)?;
    Ok(())
}

/// The table of all kinds, by their numbers. It takes a bounded time and amount of memory.
pub fn java_kinds(alloc: Global) -> Result<KindTable, AllocError>
    ensures { IfOk result AreKinds }
{
    let mut found = Vec::new(alloc);
    add_first_kinds(alloc, &mut found)?;
    add_further_kinds(alloc, &mut found)?;
    KindTable::new(alloc, found)
}
