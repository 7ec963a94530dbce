//! The header of a type.

ghost use Rattle.std.specs.Prelude.{◌≡◌, [], ◌∷◌, ◌++◌, map, IfOk, OnOk};
ghost use Rattle.sg_reading.specs.Stop.{Reads, IsKnown};
ghost use Rattle.jv_tree.specs.TypeTree.{ids_of};
ghost use Rattle.jv_names.specs.Replies.{reply_to};
ghost use Rattle.jv_header.specs.Header.{one_of, found_types, or_object, supertypes, header_by, header_rule};
ghost use Rattle.jv_header.specs.Progress.{IsHeaderSoFar};
ghost use Rattle.jv_header.specs.Results.{GivesOrLacksMemory};

use crate::clauses::{add_extends, add_interface_clause};
use crate::header_progress::HeaderProgress;
use crate::references::read_references;
use jv_diag::DiagList;
use jv_instance::JavaPred;
use jv_layout::Layout;
use jv_names::{Meaning, Oracle, Reference, ScopeList, Spot};
use jv_tree::{Name, Names, TypeDecl};
use sg_base::Scope;
use sg_query::Query;
use sg_reading::{Known, Stop};
use std::alloc::{AllocError, Global};

/// What the header of a type gives: its supertypes, in the order of its references, and the diagnostics there.
#[derive(Debug, Drop)]
pub struct Header {
    pub row: ScopeList,
    pub diags: DiagList,
}

/// Adds the types that references mean.
fn add_found(row: &mut ScopeList, found: &[Reference]) -> Result<(), AllocError>
    ensures { OnOk result (row.new ≡ row.old ++ found_types found.now) }
{
    for reference in found {
        if let Meaning::One(s) = reference.meaning {
            row.push(s)?;
        }
    }
    Ok(())
}

/// The supertypes of a type.
fn supertypes(
    alloc: Global,
    l: &Layout,
    ty: Scope,
    extended: &[Reference],
    implemented: &[Reference],
) -> Result<ScopeList, AllocError>
    ensures { IfOk result (λ row. row ≡ supertypes l.now ty extended.now implemented.now) }
{
    let mut row = ScopeList::empty(alloc);
    if ty == l.object() {
        return Ok(row);
    }
    add_found(&mut row, extended)?;
    if !l.is_interface(ty) && row.as_slice().is_empty() {
        row.push(l.object())?;
    }
    add_found(&mut row, implemented)?;
    Ok(row)
}

/// The header by what its references mean.
fn header_by(
    alloc: Global,
    l: &Layout,
    names: &Names,
    ty: Scope,
    extends: &[Name],
    implements: &[Name],
    extended: &[Reference],
    implemented: &[Reference],
) -> Result<Header, Stop<Query<JavaPred>>>
    ensures { GivesOrLacksMemory result (header_by l.now names.now ty (map ids_of extends.now) (map ids_of implements.now) extended.now implemented.now) }
{
    let row = supertypes(alloc, l, ty, extended, implemented)?;
    let mut diags = DiagList::empty(alloc);
    add_extends(alloc, &mut diags, l, names, ty, extends, extended)?;
    add_interface_clause(
        alloc,
        &mut diags,
        l,
        names,
        l.file_of(ty),
        implements,
        implemented,
    )?;
    Ok(Header { row, diags })
}

/// The header of a type as far as the replies tell it, or the first query that has no reply. It goes on with the first reference
/// that was not read so far, and the progress keeps how far it came, whatever the result. All calls with one progress take the time
/// of the references, each of which starts again alone where a reply is missing, and of the texts; each call takes besides the time
/// of how deep the type is nested.
#[tactic(auto, using(crate::proofs::Progress::progress_steps))]
pub fn read_header(
    alloc: Global,
    l: &Layout,
    names: &Names,
    o: &Oracle,
    decl: &TypeDecl,
    ty: Scope,
    progress: &mut HeaderProgress,
) -> Result<Header, Stop<Query<JavaPred>>>
    requires so_far { IsHeaderSoFar (reply_to o.now) l.now ty (map ids_of decl.now.extends.items) (map ids_of decl.now.implements.items) progress.old }
    ensures reads { Reads (reply_to o.now) (header_rule l.now names.now ty (map ids_of decl.now.extends.items) (map ids_of decl.now.implements.items)) result }
    ensures so_far { IsHeaderSoFar (reply_to o.now) l.now ty (map ids_of decl.now.extends.items) (map ids_of decl.now.implements.items) progress.new }
{
    let extends = decl.extends.as_slice();
    let implements = decl.implements.as_slice();
    let spot = Spot::of_header(alloc, l, ty)?;
    read_references(alloc, l, o, ty, &spot, extends, &mut progress.extended)?;
    read_references(
        alloc,
        l,
        o,
        ty,
        &spot,
        implements,
        &mut progress.implemented,
    )?;
    header_by(
        alloc,
        l,
        names,
        ty,
        extends,
        implements,
        progress.extended.as_slice(),
        progress.implemented.as_slice(),
    )
}

/// The header of a type (JLS 8.1.4, 8.1.5, 9.1.3), by its declaration: its supertypes are what its references mean, for a class with
/// `Object` in place of a missing superclass; each reference has its diagnostics. It takes the time of the ends that its answers
/// give, and of the texts.
#[tactic(auto, using(crate::proofs::Progress::progress_steps))]
pub fn resolve_header(
    alloc: Global,
    l: &Layout,
    names: &Names,
    o: &Oracle,
    decl: &TypeDecl,
    ty: Scope,
) -> Result<Known<Header, Query<JavaPred>>, AllocError>
    ensures { IfOk result (IsKnown (reply_to o.now) (header_rule l.now names.now ty (map ids_of decl.now.extends.items) (map ids_of decl.now.implements.items))) }
{
    let mut progress = HeaderProgress::new(alloc);
    Known::from_found(read_header(alloc, l, names, o, decl, ty, &mut progress))
}
