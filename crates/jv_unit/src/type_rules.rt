//! What the unit of a type reads and writes.

ghost use Rattle.std.specs.Prelude.{◌≡◌, ◌<◌, ◌++◌, length, map, MatchResult, OnOk};
ghost use Rattle.sg_reading.specs.Stop.{Reads};
ghost use Rattle.sg_reading.specs.declared.stop.Stop.TheVariants.{OutOfMemory};
ghost use Rattle.sg_script.specs.Script.{row_writes};
ghost use Rattle.sg_script.specs.declared.write.Write.TheVariants.{AddEdge};
ghost use Rattle.jv_names.specs.Replies.{reply_to};
ghost use Rattle.jv_unit.specs.Kept.{folder_of, IsWhole};
ghost use Rattle.jv_unit.specs.Plans.{type_header, type_stage};
ghost use Rattle.jv_unit.specs.Progress.{IsReadSoFar};

use crate::folder::Folder;
use jv_header::{Header, HeaderProgress, read_header};
use jv_instance::{JavaDatum, JavaPred, labels};
use jv_names::Oracle;
use sg_base::{Label, Scope};
use sg_query::Query;
use sg_reading::Stop;
use sg_script::{Write, Writes};
use std::alloc::{AllocError, Global};

/// Adds edges to some scopes.
fn add_edges(
    writes: &mut Writes<JavaDatum>,
    from: Scope,
    label: Label,
    targets: &[Scope],
) -> Result<(), AllocError>
    ensures { OnOk result (writes.new ≡ writes.old ++ map (AddEdge from label) targets.now) }
{
    for to in targets {
        writes.push(Write::AddEdge {
            from,
            label,
            to: *to,
        })?;
    }
    Ok(())
}

/// The writes of a row, by its targets.
fn row_writes(
    alloc: Global,
    from: Scope,
    label: Label,
    targets: &[Scope],
) -> Result<Writes<JavaDatum>, Stop<Query<JavaPred>>>
    ensures { MatchResult result (λ ws. ws ≡ row_writes from label targets.now) (λ stop. stop ≡ OutOfMemory) }
{
    let mut writes = Writes::new(alloc);
    add_edges(&mut writes, from, label, targets)?;
    writes.push(Write::CloseRow { scope: from, label })?;
    Ok(writes)
}

/// The header of a type as far as the replies tell it, or the first query that has no reply. It goes on with the first reference
/// that was not read so far.
#[tactic(auto, using(crate::proofs::Folders::folder_facts))]
pub(crate) fn read_type_header(
    alloc: Global,
    w: &Folder,
    o: &Oracle,
    t: u32,
    progress: &mut HeaderProgress,
) -> Result<Header, Stop<Query<JavaPred>>>
    requires whole { IsWhole w.now }
    requires within { t < length w.now.layout.types }
    requires so_far { IsReadSoFar (reply_to o.now) (folder_of w.now) t progress.old }
    ensures reads { Reads (reply_to o.now) (type_header (folder_of w.now) t) result }
    ensures so_far { IsReadSoFar (reply_to o.now) (folder_of w.now) t progress.new }
{
    read_header(
        alloc,
        w.layout(),
        w.names(),
        o,
        w.decl(t),
        w.ty(t),
        progress,
    )
}

/// The writes of the unit of a type as far as the replies tell them, or the first query that has no reply. It goes on with the first
/// reference that was not read so far.
#[tactic(auto, using(crate::proofs::Folders::folder_facts))]
pub(crate) fn read_type(
    alloc: Global,
    w: &Folder,
    o: &Oracle,
    t: u32,
    progress: &mut HeaderProgress,
) -> Result<Writes<JavaDatum>, Stop<Query<JavaPred>>>
    requires whole { IsWhole w.now }
    requires within { t < length w.now.layout.types }
    requires so_far { IsReadSoFar (reply_to o.now) (folder_of w.now) t progress.old }
    ensures reads { Reads (reply_to o.now) (type_stage (folder_of w.now) t).rule result }
    ensures so_far { IsReadSoFar (reply_to o.now) (folder_of w.now) t progress.new }
{
    let header = read_type_header(alloc, w, o, t, progress)?;
    row_writes(
        alloc,
        w.ty(t),
        Label::new(labels::EXT),
        header.row.as_slice(),
    )
}
