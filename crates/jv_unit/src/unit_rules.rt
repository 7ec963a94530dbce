//! What the unit with a number reads and writes: of a file, or behind the files of a type.

ghost use Rattle.std.specs.Prelude.{◌≡◌, ◌+◌, ◌-◌, ◌<◌, length};
ghost use Rattle.std.specs.List.{slice_get};
ghost use Rattle.sg_reading.specs.Stop.{Reads};
ghost use Rattle.jv_names.specs.Replies.{reply_to};
ghost use Rattle.jv_unit.specs.Kept.{folder_of, IsWhole};
ghost use Rattle.jv_unit.specs.Plans.{own_file_ending, own_type_ending, type_stages, unit_ending, unit_stages};
ghost use Rattle.jv_unit.specs.Progress.{AreFileImportsSoFar, AreFileStaticsSoFar, IsReadSoFar, IsSoFar};
ghost use Rattle.jv_unit.specs.Scripts.{ReadsStageOf};

use crate::check_rules::finish_whole;
use crate::file_rules::{finish_file, read_file};
use crate::folder::Folder;
use crate::member_rules::{member_count, read_datum};
use crate::type_progress::TypeProgress;
use crate::type_rules::read_type;
use jv_diag::DiagList;
use jv_header::{HeaderProgress, ImportsProgress, StaticsProgress};
use jv_instance::{JavaDatum, JavaPred};
use jv_names::Oracle;
use sg_query::Query;
use sg_reading::Stop;
use sg_script::Writes;
use std::alloc::Global;

/// How many stages the unit with a number has.
pub(crate) fn stage_count(w: &Folder, unit: u32) -> usize
    requires whole { IsWhole w.now }
    requires within { unit < length w.now.layout.files + length w.now.layout.types }
    ensures { result ≡ length (unit_stages (folder_of w.now) unit) }
{
    let files = w.file_count();
    if unit < files {
        1
    } else {
        member_count(w, unit - files) + 1
    }
}

/// The writes of a stage of the unit of a type: of its supertypes, or of the signature of a member.
fn read_type_stage(
    alloc: Global,
    w: &Folder,
    o: &Oracle,
    t: u32,
    stage: usize,
    progress: &mut HeaderProgress,
) -> Result<Writes<JavaDatum>, Stop<Query<JavaPred>>>
    requires whole { IsWhole w.now }
    requires within { t < length w.now.layout.types }
    requires stage { stage < length (type_stages (folder_of w.now) t) }
    requires so_far { IsReadSoFar (reply_to o.now) (folder_of w.now) t progress.old }
    ensures reads { ReadsStageOf (reply_to o.now) (type_stages (folder_of w.now) t) stage result }
    ensures so_far { IsReadSoFar (reply_to o.now) (folder_of w.now) t progress.new }
{
    if stage == 0 {
        read_type(alloc, w, o, t, progress)
    } else {
        read_datum(alloc, w, o, t, stage - 1)
    }
}

/// The writes of a stage of a unit as far as the replies tell them, or the first query that has no reply. That of a file goes on with
/// the first import that was not read so far, and that of a type with the first reference.
pub(crate) fn read_unit(
    alloc: Global,
    w: &Folder,
    o: &Oracle,
    unit: u32,
    stage: usize,
    progress: &mut HeaderProgress,
    imports: &mut ImportsProgress,
) -> Result<Writes<JavaDatum>, Stop<Query<JavaPred>>>
    requires whole { IsWhole w.now }
    requires within { unit < length w.now.layout.files + length w.now.layout.types }
    requires stage { stage < length (unit_stages (folder_of w.now) unit) }
    requires so_far { IsReadSoFar (reply_to o.now) (folder_of w.now) (unit - length w.now.layout.files) progress.old }
    requires imports { AreFileImportsSoFar (reply_to o.now) (folder_of w.now) unit imports.old }
    ensures reads { ReadsStageOf (reply_to o.now) (unit_stages (folder_of w.now) unit) stage result }
    ensures so_far { IsReadSoFar (reply_to o.now) (folder_of w.now) (unit - length w.now.layout.files) progress.new }
    ensures imports { AreFileImportsSoFar (reply_to o.now) (folder_of w.now) unit imports.new }
{
    let files = w.file_count();
    if unit < files {
        read_file(alloc, w, o, unit, imports)
    } else {
        read_type_stage(alloc, w, o, unit - files, stage, progress)
    }
}

/// The diagnostics of a file, unless it is one of the prelude's, which come first.
#[tactic(auto, using(crate::proofs::MemberBodies::prelude_steps))]
fn finish_own_file(
    alloc: Global,
    w: &Folder,
    o: &Oracle,
    file: u32,
    imports: &mut ImportsProgress,
    statics: &mut StaticsProgress,
) -> Result<DiagList, Stop<Query<JavaPred>>>
    requires whole { IsWhole w.now }
    requires within { file < length w.now.layout.files }
    requires so_far { AreFileImportsSoFar (reply_to o.now) (folder_of w.now) file imports.old }
    requires statics { AreFileStaticsSoFar (reply_to o.now) (folder_of w.now) file statics.old }
    ensures reads { Reads (reply_to o.now) (own_file_ending (folder_of w.now) file) result }
    ensures so_far { AreFileImportsSoFar (reply_to o.now) (folder_of w.now) file imports.new }
    ensures statics { AreFileStaticsSoFar (reply_to o.now) (folder_of w.now) file statics.new }
{
    if file < 2 {
        return Ok(DiagList::empty(alloc));
    }
    finish_file(alloc, w, o, file, imports, statics)
}

/// The diagnostics of a type, unless it stands in a file of the prelude.
#[tactic(auto, using(crate::proofs::MemberBodies::prelude_steps, crate::proofs::CheckRules::whole_read))]
fn finish_own_type(
    alloc: Global,
    w: &Folder,
    o: &Oracle,
    t: u32,
    header: &mut HeaderProgress,
    progress: &mut TypeProgress,
) -> Result<DiagList, Stop<Query<JavaPred>>>
    requires whole { IsWhole w.now }
    requires within { t < length w.now.layout.types }
    requires read { IsReadSoFar (reply_to o.now) (folder_of w.now) t header.old }
    requires so_far { IsSoFar (reply_to o.now) (folder_of w.now) t progress.old.begun }
    ensures reads { Reads (reply_to o.now) (own_type_ending (folder_of w.now) t) result }
    ensures read { IsReadSoFar (reply_to o.now) (folder_of w.now) t header.new }
    ensures so_far { IsSoFar (reply_to o.now) (folder_of w.now) t progress.new.begun }
{
    if w.layout().file_of(w.ty(t)) < 2 {
        return Ok(DiagList::empty(alloc));
    }
    finish_whole(alloc, w, o, t, header, progress)
}

/// The diagnostics of a unit as far as the replies tell them, or the first query that has no reply. That of a file goes on with the
/// first import that was not read so far, and behind all of them with the first static one, and that of a type from where the progress
/// says that it came to.
pub(crate) fn finish_unit(
    alloc: Global,
    w: &Folder,
    o: &Oracle,
    unit: u32,
    header: &mut HeaderProgress,
    progress: &mut TypeProgress,
    imports: &mut ImportsProgress,
    statics: &mut StaticsProgress,
) -> Result<DiagList, Stop<Query<JavaPred>>>
    requires whole { IsWhole w.now }
    requires within { unit < length w.now.layout.files + length w.now.layout.types }
    requires read { IsReadSoFar (reply_to o.now) (folder_of w.now) (unit - length w.now.layout.files) header.old }
    requires so_far { IsSoFar (reply_to o.now) (folder_of w.now) (unit - length w.now.layout.files) progress.old.begun }
    requires imports { AreFileImportsSoFar (reply_to o.now) (folder_of w.now) unit imports.old }
    requires statics { AreFileStaticsSoFar (reply_to o.now) (folder_of w.now) unit statics.old }
    ensures reads { Reads (reply_to o.now) (unit_ending (folder_of w.now) unit) result }
    ensures read { IsReadSoFar (reply_to o.now) (folder_of w.now) (unit - length w.now.layout.files) header.new }
    ensures so_far { IsSoFar (reply_to o.now) (folder_of w.now) (unit - length w.now.layout.files) progress.new.begun }
    ensures imports { AreFileImportsSoFar (reply_to o.now) (folder_of w.now) unit imports.new }
    ensures statics { AreFileStaticsSoFar (reply_to o.now) (folder_of w.now) unit statics.new }
{
    let files = w.file_count();
    if unit < files {
        finish_own_file(alloc, w, o, unit, imports, statics)
    } else {
        finish_own_type(alloc, w, o, unit - files, header, progress)
    }
}
