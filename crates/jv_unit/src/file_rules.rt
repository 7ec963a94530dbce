//! What the unit of a file reads and writes.

ghost use Rattle.std.specs.Prelude.{◌≡◌, ◌<◌, ◌^◌, ◌++◌, length, map, OnOk, MatchResult};
ghost use Rattle.sg_reading.specs.Stop.{Reads};
ghost use Rattle.sg_reading.specs.declared.stop.Stop.TheVariants.{OutOfMemory};
ghost use Rattle.sg_script.specs.Script.{edge_writes};
ghost use Rattle.sg_script.specs.declared.write.Write.TheVariants.{AddEdge};
ghost use Rattle.jv_instance.specs.declared.labels.TheConstants.{SIMP, ODI};
ghost use Rattle.jv_header.specs.Imports.{import_edges};
ghost use Rattle.jv_header.specs.ImportsProgress.{ReadsMeanings};
ghost use Rattle.jv_header.specs.StaticImports.{statics_rule};
ghost use Rattle.jv_names.specs.Replies.{reply_to};
ghost use Rattle.jv_unit.specs.Kept.{folder_of, IsWhole};
ghost use Rattle.jv_unit.specs.Plans.{file_rows, file_stage, file_ending};
ghost use Rattle.jv_unit.specs.Progress.{AreFileImportsSoFar, AreFileStaticsSoFar};
ghost use Rattle.jv_unit.specs.Trees.{unit_at};

use crate::folder::Folder;
use jv_diag::DiagList;
use jv_header::{
    FileImports, ImportsProgress, StaticsProgress, read_imports, read_meanings, read_statics,
};
use jv_instance::{JavaDatum, JavaPred, labels};
use jv_layout::Layout;
use jv_names::Oracle;
use jv_tree::NameId;
use sg_base::{Label, Scope};
use sg_query::Query;
use sg_reading::Stop;
use sg_script::{Write, Writes};
use std::alloc::{AllocError, Global};

/// Adds the edges of single imports.
fn add_singles(
    writes: &mut Writes<JavaDatum>,
    from: Scope,
    singles: &[(NameId, Scope)],
) -> Result<(), AllocError>
    ensures { OnOk result (writes.new ≡ writes.old ++ map (λ p. AddEdge from SIMP p.1) singles.now) }
{
    for (_, to) in singles {
        writes.push(Write::AddEdge {
            from,
            label: Label::new(labels::SIMP),
            to: *to,
        })?;
    }
    Ok(())
}

/// Adds the edges of imports on demand.
fn add_on_demand(
    writes: &mut Writes<JavaDatum>,
    from: Scope,
    on_demand: &[Scope],
) -> Result<(), AllocError>
    ensures { OnOk result (writes.new ≡ writes.old ++ map (λ s. AddEdge from ODI s) on_demand.now) }
{
    for to in on_demand {
        writes.push(Write::AddEdge {
            from,
            label: Label::new(labels::ODI),
            to: *to,
        })?;
    }
    Ok(())
}

/// The writes of a file, by what its imports give.
fn import_writes(
    alloc: Global,
    l: &Layout,
    file: u32,
    imports: &FileImports,
) -> Result<Writes<JavaDatum>, Stop<Query<JavaPred>>>
    requires { file < 2 ^ 31 }
    ensures { MatchResult result
        (λ ws. ws ≡ edge_writes (file_rows l.now file) (import_edges l.now file imports.now))
        (λ stop. stop ≡ OutOfMemory) }
{
    let from = l.file_scope(file);
    let mut writes = Writes::new(alloc);
    add_singles(&mut writes, from, imports.singles())?;
    add_on_demand(&mut writes, from, imports.on_demand())?;
    writes.push(Write::CloseRow {
        scope: from,
        label: Label::new(labels::SIMP),
    })?;
    writes.push(Write::CloseRow {
        scope: from,
        label: Label::new(labels::ODI),
    })?;
    Ok(writes)
}

/// The writes of the unit of a file as far as the replies tell them, or the first query that has no reply. It goes on with the first
/// import that was not read so far.
#[tactic(auto, using(crate::proofs::Folders::folder_facts))]
pub(crate) fn read_file(
    alloc: Global,
    w: &Folder,
    o: &Oracle,
    file: u32,
    imports: &mut ImportsProgress,
) -> Result<Writes<JavaDatum>, Stop<Query<JavaPred>>>
    requires whole { IsWhole w.now }
    requires within { file < length w.now.layout.files }
    requires so_far { AreFileImportsSoFar (reply_to o.now) (folder_of w.now) file imports.old }
    ensures reads { Reads (reply_to o.now) (file_stage (folder_of w.now) file).rule result }
    ensures so_far { AreFileImportsSoFar (reply_to o.now) (folder_of w.now) file imports.new }
{
    let given = read_imports(alloc, w.layout(), w.names(), o, file, w.file(file), imports)?;
    import_writes(alloc, w.layout(), file, &given)
}

/// Reads what the imports of a file mean, as far as the replies tell it, or gives the first query that has no reply. It goes on with the
/// first import that was not read so far; where all were, it takes constant time.
#[tactic(auto, using(crate::proofs::Folders::folder_facts))]
fn read_file_meanings(
    alloc: Global,
    w: &Folder,
    o: &Oracle,
    file: u32,
    imports: &mut ImportsProgress,
) -> Result<(), Stop<Query<JavaPred>>>
    requires whole { IsWhole w.now }
    requires within { file < length w.now.layout.files }
    requires so_far { AreFileImportsSoFar (reply_to o.now) (folder_of w.now) file imports.old }
    ensures reads { ReadsMeanings (reply_to o.now) w.now.layout file (unit_at (folder_of w.now).files file).imports result imports.new }
    ensures so_far { AreFileImportsSoFar (reply_to o.now) (folder_of w.now) file imports.new }
{
    read_meanings(alloc, w.layout(), o, file, w.file(file), imports)
}

/// What is said of the single static imports of a file by the members that they bring, as far as the replies tell it, or the first query
/// that has no reply. It goes on with the first import that was not read so far.
#[tactic(auto, using(crate::proofs::Folders::folder_facts))]
fn read_file_statics(
    alloc: Global,
    w: &Folder,
    o: &Oracle,
    file: u32,
    statics: &mut StaticsProgress,
) -> Result<DiagList, Stop<Query<JavaPred>>>
    requires whole { IsWhole w.now }
    requires within { file < length w.now.layout.files }
    requires so_far { AreFileStaticsSoFar (reply_to o.now) (folder_of w.now) file statics.old }
    ensures reads { Reads (reply_to o.now) (statics_rule w.now.layout w.now.names file (unit_at (folder_of w.now).files file).imports) result }
    ensures so_far { AreFileStaticsSoFar (reply_to o.now) (folder_of w.now) file statics.new }
{
    read_statics(
        alloc,
        w.layout(),
        w.names(),
        o,
        file,
        w.imports(file),
        statics,
    )
}

/// The diagnostics of a file by what its imports mean, and behind them those by what its single static imports bring.
fn with_statics(given: DiagList, checked: DiagList) -> Result<DiagList, Stop<Query<JavaPred>>>
    ensures { MatchResult result (λ ds. ds ≡ given ++ checked) (λ stop. stop ≡ OutOfMemory) }
{
    let mut diags = given;
    diags.append(checked)?;
    Ok(diags)
}

/// The diagnostics of a file as far as the replies tell them, or the first query that has no reply: first what its imports mean, which
/// was read before its rows were closed, and then what its single static imports bring, for which it may wait. It goes on with the
/// first import that was not read so far, and makes the diagnostics of what imports mean once all are read.
#[tactic(auto, using(crate::proofs::Folders::folder_facts))]
pub(crate) fn finish_file(
    alloc: Global,
    w: &Folder,
    o: &Oracle,
    file: u32,
    imports: &mut ImportsProgress,
    statics: &mut StaticsProgress,
) -> Result<DiagList, Stop<Query<JavaPred>>>
    requires whole { IsWhole w.now }
    requires within { file < length w.now.layout.files }
    requires so_far { AreFileImportsSoFar (reply_to o.now) (folder_of w.now) file imports.old }
    requires statics { AreFileStaticsSoFar (reply_to o.now) (folder_of w.now) file statics.old }
    ensures reads { Reads (reply_to o.now) (file_ending (folder_of w.now) file) result }
    ensures so_far { AreFileImportsSoFar (reply_to o.now) (folder_of w.now) file imports.new }
    ensures statics { AreFileStaticsSoFar (reply_to o.now) (folder_of w.now) file statics.new }
{
    read_file_meanings(alloc, w, o, file, imports)?;
    let checked = read_file_statics(alloc, w, o, file, statics)?;
    let given = read_imports(alloc, w.layout(), w.names(), o, file, w.file(file), imports)?;
    with_statics(given.into_diags(), checked)
}
