ghost use Rattle.std.specs.Prelude.{◌≡◌, ◌<◌, ◌↔◌, [], false, Option, Some, None, List, IfOk, OnErr};
ghost use Rattle.sg_query.specs.declared.query.Query.{Query as QueryOf};
ghost use Rattle.sg_script.specs.Following.{op_of, FollowsPlan};
ghost use Rattle.sg_script.specs.Script.{IsSound};
ghost use Rattle.sg_script.specs.Standing.{Follows, operations_left};
ghost use Rattle.sg_unit.specs.declared.op.Op.TheVariants.{Ask};
ghost use Rattle.sg_unit.specs.Trace.{Past};

use crate::script::Script;
use crate::write::Write;
use crate::writes::Writes;
use sg_base::Instance;
use sg_query::{Query, copy_query};
use sg_reading::Known;
use sg_unit::{Op, Reply, Unit};
use std::alloc::{AllocError, Global};

/// A unit that follows a script: it asks the queries that the script's rules read, gives the writes of one stage after
/// another, and ends.
///
/// A call that gives a write of the stage at hand takes constant time. Each other call reads that stage again: it costs
/// what `Script::read` costs over the replies so far, once for each stage that gives nothing, and a copy of the query that
/// is asked.
#[derive(Drop)]
pub struct Follower<S: Script> {
    alloc: Global,
    script: S,
    asked: Option<Query<<S::Inst as Instance>::Pred>>,
    pending: Writes<<S::Inst as Instance>::Datum>,
    stage: usize,
    ended: bool,
    /// Whether the last call gave the last write of a group.
    written: bool,
}

/// The operation that does a write.
fn op_of<I: Instance, R>(write: Write<I::Datum>) -> Op<I, R>
    ensures { result ≡ op_of write }
{
    match write {
        Write::AddEdge { from, label, to } => Op::AddEdge { from, label, to },
        Write::SetDatum { scope, datum } => Op::SetDatum { scope, datum },
        Write::CloseRow { scope, label } => Op::CloseRow { scope, label },
    }
}

/// Whether a group ends where these writes are left of the last of so many stages.
fn ends_group<S: Script>(
    script: &S,
    pending: &Writes<<S::Inst as Instance>::Datum>,
    stage: usize,
) -> bool
    requires { S.is_ready script.now }
{
    pending.len() == 0 && script.ends_group(stage)
}

impl<S: Script> Follower<S> {
    /// A unit that follows a script to which no reply has come.
    pub fn new(alloc: Global, script: S) -> Follower<S>
        requires sound { IsSound (S.plan script) }
        requires ready { S.is_ready script }
        requires empty { (q : QueryOf S.Inst.Pred) → S.reply script q ≡ None }
        ensures { (result.script ≡ script) × FollowsPlan {I = S.Inst} (S.plan result.script) (S.reply result.script) result.asked result.pending result.stage result.ended [] None }
    {
        Follower {
            alloc,
            script,
            asked: None,
            pending: Writes::new(alloc),
            stage: 0,
            ended: false,
            written: false,
        }
    }

    /// Asks a query that a rule needs.
    fn ask(
        &mut self,
        query: Query<<S::Inst as Instance>::Pred>,
        stage: usize,
    ) -> Result<Op<S::Inst, S::Outcome>, AllocError>
        ensures ok { IfOk result (λ op. (op ≡ Ask query) × (self.new.asked ≡ Some query) × (self.new.stage ≡ stage)) }
        ensures rest { (self.new.script ≡ self.old.script) × (self.new.pending ≡ self.old.pending) × (self.new.ended ≡ self.old.ended) }
        ensures err { OnErr result (self.new ≡ self.old) }
    {
        let copy = copy_query::<S::Inst>(self.alloc, &query)?;
        self.asked = Some(query);
        self.stage = stage;
        self.written = false;
        Ok(Op::Ask(copy))
    }

    /// The next operation of a unit that has given all that its stages so far give.
    fn read_on(&mut self) -> Result<Op<S::Inst, S::Outcome>, AllocError>
        requires ready { S.is_ready self.old.script }
        requires idle { (self.old.pending ≡ []) × (self.old.asked ≡ None) × (self.old.ended ≡ false) }
        ensures goes { (past : Past S.Inst S.Outcome S.Inst.Datum S.Inst.Pred) → Follows S.Script self.old past None → IfOk result (λ op. Follows S.Script self.new past (Some op)) }
        ensures falls { IfOk result (λ _. operations_left S.Script self.new < operations_left S.Script self.old) }
        ensures script { self.new.script ≡ self.old.script }
        ensures same { OnErr result (self.new ≡ self.old) }
    {
        let count = self.script.stage_count();
        for stage in self.stage..count {
            match self.script.read(stage)? {
                Known::Need(query) => return self.ask(query, stage),
                Known::Is(mut writes) => {
                    // For the proof alone, which takes from this call that the number of writes fits its type.
                    let _count = writes.len();
                    if let Some(write) = writes.take_first() {
                        self.stage = stage + 1;
                        self.pending = writes;
                        self.written = ends_group(&self.script, &self.pending, self.stage);
                        return Ok(op_of::<S::Inst, S::Outcome>(write));
                    }
                }
            }
        }
        let stage = if self.stage < count {
            count
        } else {
            self.stage
        };
        match self.script.finish()? {
            Known::Need(query) => self.ask(query, stage),
            Known::Is(outcome) => {
                self.stage = stage;
                self.ended = true;
                self.written = false;
                Ok(Op::End(outcome))
            }
        }
    }

    /// The next operation of a unit that was handed all replies.
    fn step(&mut self) -> Result<Op<S::Inst, S::Outcome>, AllocError>
        requires ready { S.is_ready self.old.script }
        requires stands { (past : Past S.Inst S.Outcome S.Inst.Datum S.Inst.Pred) × Follows S.Script self.old past None }
        ensures goes { (past : Past S.Inst S.Outcome S.Inst.Datum S.Inst.Pred) → Follows S.Script self.old past None → IfOk result (λ op. Follows S.Script self.new past (Some op)) }
        ensures falls { IfOk result (λ _. operations_left S.Script self.new < operations_left S.Script self.old) }
        ensures script { self.new.script ≡ self.old.script }
        ensures same { OnErr result (self.new ≡ self.old) }
    {
        match self.pending.take_first() {
            Some(write) => {
                self.written = ends_group(&self.script, &self.pending, self.stage);
                Ok(op_of::<S::Inst, S::Outcome>(write))
            }
            None => self.read_on(),
        }
    }
}

impl<S: Script> Unit for Follower<S> {
    ghost use Rattle.std.specs.Prelude.{length};
    ghost use Rattle.sg_script.specs.Following.{FollowsPlan, steps_left};
    ghost use Rattle.sg_script.specs.Owing.{OwesEdge, OwesDatum, AsksIn, ComesTo};
    ghost use Rattle.sg_script.specs.Script.{Plan, setting_by};
    ghost use Rattle.sg_script.specs.Standing.{FollowsReady, operations_left, GoesOnByPlan, GivesOwedByPlan};
    ghost use Rattle.sg_unit.specs.Unit.{CanBeHanded};
    ghost use Rattle.std.specs.Prelude.{◌≡◌, ◌<◌, IfOk, OnErr};

    type Inst = S::Inst;

    type Outcome = S::Outcome;

    ghost Fixed = { Plan S.Outcome S.Inst.Datum S.Inst.Pred };

    ghost fixed = { λ f. S.plan f.script };

    ghost number = { λ f. (S.plan f.script).unit };

    ghost opening = { λ p. p.opening };

    ghost kinds = { λ p. p.kinds };

    ghost owes_edge = { λ p. OwesEdge (setting_by S.Inst.wants S.Inst.same_datum p) p.stages };

    ghost owes_datum = { λ p. OwesDatum (setting_by S.Inst.wants S.Inst.same_datum p) p.stages };

    ghost may_ask = { λ p. AsksIn (setting_by S.Inst.wants S.Inst.same_datum p) p.stages p.ending };

    ghost comes_to = { λ p. ComesTo (setting_by S.Inst.wants S.Inst.same_datum p) p.ending };

    ghost stands = { λ f past last. FollowsPlan (S.plan f.script) (S.reply f.script) f.asked f.pending f.stage f.ended past last × S.is_ready f.script };

    ghost measure = { λ f. steps_left (S.plan f.script) (S.reply f.script) f.asked (length f.pending) f.stage f.ended };

    fn id(&self) -> u32 {
        self.script.id()
    }

    fn has_written(&self) -> bool {
        self.written
    }

    fn next(&mut self, last: Option<Reply<S::Inst>>) -> Result<Op<S::Inst, S::Outcome>, AllocError>
        requires { CanBeHanded (setting_by S.Inst.wants S.Inst.same_datum (S.plan self.old.script)) (S.plan self.old.script).unit (FollowsReady S.Script self.old) last }
        ensures gives { IfOk result (GoesOnByPlan S.Inst.wants S.Inst.same_datum (S.plan self.old.script) (FollowsReady S.Script self.old) (FollowsReady S.Script self.new) last) }
        ensures owed { IfOk result (GivesOwedByPlan S.Inst.wants S.Inst.same_datum (S.plan self.old.script) (FollowsReady S.Script self.old) last) }
        ensures falls { IfOk result (λ _. operations_left S.Script self.new < operations_left S.Script self.old) }
        ensures same { OnErr result (self.new ≡ self.old) }
        ensures fixed { (S.plan self.new.script ≡ S.plan self.old.script) × ((S.plan self.new.script).unit ≡ (S.plan self.old.script).unit) }
    {
        let Some(query) = self.asked.take() else {
            return self.step();
        };
        let Some(Reply::Answer(answer)) = last else {
            unreachable!()
        };
        match self.script.put(&query, answer) {
            Err(error) => {
                self.asked = Some(query);
                Err(error)
            }
            Ok(()) => match self.step() {
                Ok(op) => Ok(op),
                Err(error) => {
                    self.script.take_back();
                    self.asked = Some(query);
                    Err(error)
                }
            },
        }
    }
}
