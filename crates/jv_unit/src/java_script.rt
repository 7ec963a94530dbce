use crate::folder::Folder;
use crate::type_progress::TypeProgress;
use crate::unit_rules::{finish_unit, read_unit, stage_count};
use jv_diag::DiagList;
use jv_header::{HeaderProgress, ImportsProgress, StaticsProgress};
use jv_instance::{Java, JavaDatum, JavaPred};
use jv_names::Oracle;
use sg_query::{Answer, Query, copy_query};
use sg_reading::Known;
use sg_script::{Script, Writes};
use std::alloc::{AllocError, Global};
use std::marker::Model;
use std::sync::Arc;

/// So many stages write the imports of a file or the header of a type. They are a group of their own, and the signatures of a
/// type's members the other.
const HEADER_STAGES: usize = 1;

/// What the unit with a number does, over the folder that all units share, and the replies that have come to it. Units come in
/// the order of files, and behind them in the order of types. Contracts see these (`ScriptOf`), and not how far the imports of a file
/// or the header and the checks of a type came: where a reply is missing, it goes on with the import or the reference that asked for
/// it, with the check of the member that did, and in a body with the statement at its top. That goes for what imports mean, and again
/// for what single static ones bring.
#[derive(Drop)]
pub struct JavaScript {
    alloc: Global,
    folder: Arc<Folder, Global>,
    unit: u32,
    replies: Oracle,
    header: HeaderProgress,
    progress: TypeProgress,
    imports: ImportsProgress,
    statics: StaticsProgress,
}

impl Model for JavaScript {
    ghost use Rattle.std.specs.Prelude.{◌-◌, length};
    ghost use Rattle.std.specs.Arc.{arc_value};
    ghost use Rattle.std.specs.Coded.{codes};
    ghost use Rattle.jv_names.specs.Replies.{reply_to};
    ghost use Rattle.jv_unit.specs.contracts.folder.Folder.{the_row};
    ghost use Rattle.jv_unit.specs.Kept.{folder_of};
    ghost use Rattle.jv_unit.specs.Progress.{AreFileImportsSoFar, AreFileStaticsSoFar, IsReadSoFar, IsSoFar};
    ghost use Rattle.jv_unit.specs.Script.{ScriptOf};

    ghost Value = { ScriptOf };

    ghost coded = { Prim.hlevel (codes, the_row.coded) };

    ghost view = { λ s. record { alloc = s.alloc; folder = s.folder; unit = s.unit; replies = s.replies } };

    ghost invariant = { λ s. IsReadSoFar (reply_to s.replies) (folder_of (arc_value s.folder)) (s.unit - length (arc_value s.folder).layout.files) s.header
        × IsSoFar (reply_to s.replies) (folder_of (arc_value s.folder)) (s.unit - length (arc_value s.folder).layout.files) s.progress.begun
        × AreFileImportsSoFar (reply_to s.replies) (folder_of (arc_value s.folder)) s.unit s.imports
        × AreFileStaticsSoFar (reply_to s.replies) (folder_of (arc_value s.folder)) s.unit s.statics };
}

impl JavaScript {
    ghost use Rattle.std.specs.Prelude.{◌≡◌, []};

    /// The script of the unit with a number, to which no reply has come. It takes no memory.
    pub fn new(alloc: Global, folder: Arc<Folder, Global>, unit: u32) -> JavaScript
        ensures { result ≡ record { alloc = alloc; folder = folder; unit = unit; replies = [] } }
    {
        JavaScript {
            alloc,
            folder,
            unit,
            replies: Oracle::new(alloc),
            header: HeaderProgress::new(alloc),
            progress: TypeProgress::new(),
            imports: ImportsProgress::new(alloc),
            statics: StaticsProgress::new(alloc),
        }
    }
}

impl Script for JavaScript {
    ghost use Rattle.std.specs.Prelude.{◌≡◌, None, IfOk, OnErr};
    ghost use Rattle.sg_reading.specs.Replies.{AddsReply};
    ghost use Rattle.jv_names.specs.Replies.{reply_to};
    ghost use Rattle.jv_unit.specs.Scripts.{plan_of, IsUnit, PutsReply};

    type Inst = Java;

    type Outcome = DiagList;

    ghost plan = { λ s. plan_of s };

    ghost reply = { λ s. reply_to s.replies };

    ghost is_ready = { λ s. IsUnit s };

    ghost is_put = { λ b q a s. PutsReply b q a s };

    fn id(&self) -> u32 {
        self.unit
    }

    fn stage_count(&self) -> usize {
        stage_count(&self.folder, self.unit)
    }

    fn ends_group(&self, stage: usize) -> bool {
        stage == HEADER_STAGES || stage == self.stage_count()
    }

    fn put(&mut self, query: &Query<JavaPred>, answer: Answer<JavaDatum>) -> Result<(), AllocError>
        requires ready { IsUnit self.old }
        requires first { reply_to self.old.replies query.now ≡ None }
        ensures put { IfOk result (λ _. PutsReply self.old query.now answer self.new) }
        ensures reply { IfOk result (λ _. AddsReply (reply_to self.old.replies) (reply_to self.new.replies) query.now answer) }
        ensures ready { IfOk result (λ _. IsUnit self.new × (plan_of self.new ≡ plan_of self.old)) }
        ensures same { OnErr result (self.new ≡ self.old) }
    {
        let copy = copy_query::<Java>(self.alloc, query)?;
        self.replies.put(copy, answer)
    }

    fn take_back(&mut self) {
        self.header = HeaderProgress::new(self.alloc);
        self.progress = TypeProgress::new();
        self.imports = ImportsProgress::new(self.alloc);
        self.statics = StaticsProgress::new(self.alloc);
        let _last = self.replies.take_back();
    }

    fn read(
        &mut self,
        stage: usize,
    ) -> Result<Known<Writes<JavaDatum>, Query<JavaPred>>, AllocError> {
        Known::from_found(read_unit(
            self.alloc,
            &self.folder,
            &self.replies,
            self.unit,
            stage,
            &mut self.header,
            &mut self.imports,
        ))
    }

    fn finish(&mut self) -> Result<Known<DiagList, Query<JavaPred>>, AllocError> {
        Known::from_found(finish_unit(
            self.alloc,
            &self.folder,
            &self.replies,
            self.unit,
            &mut self.header,
            &mut self.progress,
            &mut self.imports,
            &mut self.statics,
        ))
    }
}
