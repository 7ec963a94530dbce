//! What is said of a type itself, whose header was read: of its dependence on itself, and of its declaration.

ghost use Rattle.std.specs.Prelude.{◌≡◌, ◌<◌, ◌++◌, length, MatchResult};
ghost use Rattle.sg_reading.specs.Stop.{Reads};
ghost use Rattle.sg_reading.specs.declared.stop.Stop.TheVariants.{OutOfMemory};
ghost use Rattle.jv_header.specs.Declaration.{declared_diags};
ghost use Rattle.jv_names.specs.Replies.{reply_to};
ghost use Rattle.jv_unit.specs.Kept.{folder_of, IsWhole};
ghost use Rattle.jv_unit.specs.Plans.{type_dependence, type_part};
ghost use Rattle.jv_unit.specs.Progress.{IsHeadSoFar};

use crate::begun_head::BegunHead;
use crate::folder::Folder;
use jv_diag::DiagList;
use jv_header::{Header, declared_diags, read_depends};
use jv_instance::JavaPred;
use jv_names::Oracle;
use jv_tree::TypeDecl;
use sg_base::Scope;
use sg_query::Query;
use sg_reading::Stop;
use std::alloc::Global;

/// Three lists of diagnostics, one behind the other.
fn joined(
    first: DiagList,
    second: DiagList,
    third: DiagList,
) -> Result<DiagList, Stop<Query<JavaPred>>>
    ensures { MatchResult result (λ ds. ds ≡ (first ++ second) ++ third) (λ stop. stop ≡ OutOfMemory) }
{
    let mut diags = first;
    diags.append(second)?;
    diags.append(third)?;
    Ok(diags)
}

/// The diagnostics of a declaration itself.
fn declared(
    alloc: Global,
    w: &Folder,
    decl: &TypeDecl,
    ty: Scope,
) -> Result<DiagList, Stop<Query<JavaPred>>>
    requires { IsWhole w.now }
    ensures { MatchResult result (λ ds. ds ≡ declared_diags w.now.layout w.now.names ty decl.now.name decl.now.mods.words.items) (λ stop. stop ≡ OutOfMemory) }
{
    let diags = declared_diags(alloc, w.layout(), w.declarations(), w.names(), decl, ty)?;
    Ok(diags)
}

/// The diagnostics of a type itself, by its header and those of its dependence on itself.
pub(crate) fn head_diags(
    alloc: Global,
    w: &Folder,
    t: u32,
    header: Header,
    dependence: DiagList,
) -> Result<DiagList, Stop<Query<JavaPred>>>
    requires whole { IsWhole w.now }
    requires within { t < length w.now.layout.types }
    ensures { MatchResult result (λ ds. ds ≡ type_part (folder_of w.now) t header dependence) (λ stop. stop ≡ OutOfMemory) }
{
    let own = declared(alloc, w, w.decl(t), w.ty(t))?;
    joined(header.diags, dependence, own)
}

/// The diagnostics of the dependence of a type on itself, as far as the replies tell them, or the first query that has no reply. It
/// goes on with the first type of the row that was not read so far.
pub(crate) fn read_type_dependence(
    alloc: Global,
    w: &Folder,
    o: &Oracle,
    t: u32,
    head: &mut BegunHead,
) -> Result<DiagList, Stop<Query<JavaPred>>>
    requires whole { IsWhole w.now }
    requires within { t < length w.now.layout.types }
    requires so_far { IsHeadSoFar (reply_to o.now) (folder_of w.now) t head.old }
    ensures reads { Reads (reply_to o.now) (type_dependence (folder_of w.now) t head.old.header.row) result }
    ensures so_far { IsHeadSoFar (reply_to o.now) (folder_of w.now) t head.new }
    ensures header { head.new.header ≡ head.old.header }
{
    read_depends(
        alloc,
        w.layout(),
        w.names(),
        o,
        w.decl(t).name,
        w.ty(t),
        head.header.row.as_slice(),
        &mut head.dependence,
    )
}
