//! A small script, followed by hand.

ghost use Rattle.std.specs.Prelude.{◌≡◌, ◌∷◌, [], IfOk};
ghost use Rattle.sg_script.specs.Example.{is_query, first_query, here, targets};
ghost use Rattle.sg_script.specs.Script.{row_writes};
ghost use Rattle.sg_script.specs.declared.write.Write.TheVariants.{SetDatum};

use crate::{Follower, Script, Write, Writes};
use sg_base::Label;
use sg_numbers::{FIRST, Numbers, SECOND};
use sg_query::{Answer, Query};
use sg_reading::Known;
use sg_unit::{Op, Reply, Unit};
use std::alloc::{AllocError, Global};
use std::marker::Model;
use std::test::Fail;

fn is_query(p: &Query<u64>, q: &Query<u64>) -> bool
    ensures { result ≡ is_query p.now q.now }
{
    p.start.unit == q.start.unit
        && p.start.serial == q.start.serial
        && p.kind == q.kind
        && p.pred == q.pred
}

/// The script with its replies, which contracts see as their list; and whether the row was read, which they do not see.
#[derive(Drop)]
struct Small {
    alloc: Global,
    replies: Vec<(Query<u64>, Answer<u64>)>,
    found: bool,
}

impl Model for Small {
    ghost use Rattle.std.specs.Prelude.{List};
    ghost use Rattle.sg_query.specs.declared.answer.Answer.{Answer as AnswerOf};
    ghost use Rattle.sg_query.specs.declared.query.Query.{Query as QueryOf};
    ghost use Rattle.std.specs.Prelude.{ℕ};
    ghost use Rattle.sg_script.specs.Example.{HasFound};

    ghost Value = { List (QueryOf ℕ × AnswerOf ℕ) };

    ghost view = { λ s. s.replies.items };

    ghost invariant = { λ s. HasFound s.replies.items s.found };
}

impl Small {
    ghost use Rattle.std.specs.Prelude.{◌≡◌, ◌<◌, option_copied, is_some, IfOk};
    ghost use Rattle.sg_reading.specs.Stop.{IsKnown};
    ghost use Rattle.sg_script.specs.Example.{first_query, here, reply_to, row_rule, datum_rule, number_rule, small_plan};
    ghost use Rattle.sg_script.specs.Script.{ReadsStage, row_stage, datum_stage};

    fn has_row(&self) -> bool
        ensures { result ≡ is_some (reply_to self.now first_query) }
    {
        match self.find(&first_query()) {
            Some(_) => true,
            None => false,
        }
    }

    fn row_or_datum(&self, stage: usize) -> Result<Known<Writes<u64>, Query<u64>>, AllocError>
        requires { stage < 2 }
        ensures { IfOk result (ReadsStage (reply_to self.now) small_plan.stages stage) }
    {
        if stage == 0 { self.row() } else { self.datum() }
    }

    #[tactic(auto, using(crate::proofs::Examples::row_is))]
    fn row(&self) -> Result<Known<Writes<u64>, Query<u64>>, AllocError>
        ensures { IfOk result (IsKnown (reply_to self.now) (row_stage here 1 row_rule).rule) }
    {
        let query = first_query();
        match self.find(&query) {
            None => Ok(Known::Need(query)),
            Some(answer) => Ok(Known::Is(row_writes(self.alloc, answer)?)),
        }
    }

    fn datum(&self) -> Result<Known<Writes<u64>, Query<u64>>, AllocError>
        ensures { IfOk result (IsKnown (reply_to self.now) (datum_stage here datum_rule).rule) }
    {
        Ok(Known::Is(datum_writes(self.alloc)?))
    }

    #[tactic(auto, using(crate::proofs::Examples::number_is))]
    fn number(&self) -> Result<Known<u64, Query<u64>>, AllocError>
        ensures { IfOk result (IsKnown (reply_to self.now) number_rule) }
    {
        let query = first_query();
        match self.find(&query) {
            None => Ok(Known::Need(query)),
            Some(_) => Ok(Known::Is(7)),
        }
    }

    fn find(&self, query: &Query<u64>) -> Option<&Answer<u64>>
        ensures { option_copied result ≡ reply_to self.now query.now }
    {
        for pair in &self.replies {
            if is_query(query, &pair.0) {
                return Some(&pair.1);
            }
        }
        None
    }
}

fn first_query() -> Query<u64>
    ensures { result ≡ first_query }
{
    Query {
        start: SECOND,
        kind: 0,
        pred: 5,
    }
}

fn row_writes(alloc: Global, answer: &Answer<u64>) -> Result<Writes<u64>, AllocError>
    ensures { IfOk result (λ ws. ws ≡ row_writes here 1 (targets answer.now)) }
{
    let mut writes = Writes::new(alloc);
    match answer {
        Answer::Paths(_) => writes.push(Write::AddEdge {
            from: FIRST,
            label: Label::new(1),
            to: SECOND,
        })?,
        Answer::TooMany => {}
    }
    writes.push(Write::CloseRow {
        scope: FIRST,
        label: Label::new(1),
    })?;
    Ok(writes)
}

fn datum_writes(alloc: Global) -> Result<Writes<u64>, AllocError>
    ensures { IfOk result (λ ws. ws ≡ SetDatum here 9 ∷ []) }
{
    let mut writes = Writes::new(alloc);
    writes.push(Write::SetDatum {
        scope: FIRST,
        datum: 9,
    })?;
    Ok(writes)
}

impl Script for Small {
    ghost use Rattle.std.specs.Prelude.{◌≡◌, ◌++◌, ◌∷◌, [], None, IfOk, OnErr};
    ghost use Rattle.sg_script.specs.Example.{reply_to, small_plan};
    ghost use Rattle.sg_reading.specs.Replies.{AddsReply};

    type Inst = Numbers;

    type Outcome = u64;

    ghost plan = { λ _. small_plan };

    ghost reply = { λ s. reply_to s };

    ghost is_ready = { λ _. Unit {0} };

    ghost is_put = { λ b q a s. s ≡ b ++ (q, a) ∷ [] };

    fn id(&self) -> u32 {
        0
    }

    fn stage_count(&self) -> usize {
        2
    }

    fn put(&mut self, query: &Query<u64>, answer: Answer<u64>) -> Result<(), AllocError>
        requires { reply_to self.old query.now ≡ None }
        ensures put { IfOk result (λ _. self.new ≡ self.old ++ (query.now, answer) ∷ []) }
        ensures reply { IfOk result (λ _. AddsReply (reply_to self.old) (reply_to self.new) query.now answer) }
        ensures same { OnErr result (self.new ≡ self.old) }
    {
        let copy = Query {
            start: query.start,
            kind: query.kind,
            pred: query.pred,
        };
        self.replies.push((copy, answer))?;
        Ok(())
    }

    fn take_back(&mut self) {
        self.found = false;
        let _last = self.replies.pop();
    }

    fn read(&mut self, stage: usize) -> Result<Known<Writes<u64>, Query<u64>>, AllocError> {
        let found = self.has_row();
        self.found = found;
        self.row_or_datum(stage)
    }

    fn finish(&mut self) -> Result<Known<u64, Query<u64>>, AllocError> {
        self.number()
    }
}

#[test]
fn a_script_is_followed(rt: HostRuntime) -> Result<(), Fail> {
    let script = Small {
        alloc: rt.alloc(),
        replies: Vec::new(rt.alloc()),
        found: false,
    };
    let mut unit = Follower::new(rt.alloc(), script);
    assert_eq!(rt; unit.id(), 0);
    let first = unit.next(None)?;
    assert!(rt; matches!(&first, Op::Ask(q) if q.start == SECOND && q.kind == 0 && q.pred == 5));
    Ok(())
}
