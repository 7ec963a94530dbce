//! The meaning of imports.

ghost use Rattle.std.specs.Prelude.{◌≡◌, IfOk};
ghost use Rattle.sg_reading.specs.Stop.{Reads, IsKnown};
ghost use Rattle.jv_tree.specs.DeclTree.{import_tree};
ghost use Rattle.jv_names.specs.Names.{import_context, import_name, import_rule, sought_ids, takes_packages};
ghost use Rattle.jv_names.specs.Replies.{reply_to};

use crate::context::Context;
use crate::meaning::Meaning;
use crate::oracle::Oracle;
use crate::parts::from_root;
use crate::resolved::Resolved;
use crate::scope_list::ScopeList;
use crate::writing::without_last;
use jv_instance::JavaPred;
use jv_layout::Layout;
use jv_tree::{Ident, Import};
use sg_query::Query;
use sg_reading::{Known, Stop};
use std::alloc::{AllocError, Global};

/// What kind of import it is.
fn import_context(all: bool) -> Context
    ensures { result ≡ import_context all }
{
    if all {
        Context::OnDemandImport
    } else {
        Context::SingleImport
    }
}

/// The name that an import looks up: of a single static one without what it brings.
fn sought_ids(import: &Import) -> &[Ident]
    ensures { result.now ≡ sought_ids (import_tree import.now) }
{
    let ids = import.name.ids.as_slice();
    if import.is_static && !import.all {
        without_last(ids)
    } else {
        ids
    }
}

/// Whether an import may name a package: one on demand that is not static.
fn takes_packages(import: &Import) -> bool
    ensures { result ≡ takes_packages (import_tree import.now) }
{
    !import.is_static && import.all
}

/// The meaning of the name of an import.
#[tactic(auto, using(crate::proofs::Steps::name_steps))]
fn read_import_name(
    alloc: Global,
    l: &Layout,
    o: &Oracle,
    all: bool,
    ids: &[Ident],
) -> Result<Resolved, Stop<Query<JavaPred>>>
    ensures { Reads (reply_to o.now) (import_name l.now all ids.now) result }
{
    match ids.split_first() {
        None => Ok(Resolved {
            meaning: Meaning::Nothing,
            types: ScopeList::empty(alloc),
        }),
        Some((first, rest)) => from_root(alloc, l, o, import_context(all), *first, rest),
    }
}

/// The meaning of an import as far as the replies tell it, or the first query that has no reply.
pub fn read_import(
    alloc: Global,
    l: &Layout,
    o: &Oracle,
    import: &Import,
) -> Result<Resolved, Stop<Query<JavaPred>>>
    ensures { Reads (reply_to o.now) (import_rule l.now (import_tree import.now)) result }
{
    read_import_name(alloc, l, o, takes_packages(import), sought_ids(import))
}

/// The meaning of an import (JLS 7.5): its name starts at the root and goes by declared types, else by subpackages. A single
/// import means a type, an import on demand a type or a package; a static one means the type whose members it brings, which a
/// single one names without its last identifier. It takes the time of the ends that its answers give.
#[tactic(auto, using(crate::proofs::Steps::name_steps))]
pub fn resolve_import(
    alloc: Global,
    l: &Layout,
    o: &Oracle,
    import: &Import,
) -> Result<Known<Resolved, Query<JavaPred>>, AllocError>
    ensures { IfOk result (IsKnown (reply_to o.now) (import_rule l.now (import_tree import.now))) }
{
    Known::from_found(read_import(alloc, l, o, import))
}
