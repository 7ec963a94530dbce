ghost use Rattle.std.specs.Prelude.{◌≡◌, ◌<◌, Option, None, IfOk, OnErr, length};
ghost use Rattle.sg_query.specs.declared.answer.Answer.{Answer as AnswerOf};
ghost use Rattle.sg_query.specs.declared.query.Query.{Query as QueryOf};
ghost use Rattle.sg_reading.specs.Stop.{IsKnown};
ghost use Rattle.sg_reading.specs.Replies.{AddsReply};
ghost use Rattle.sg_script.specs.Script.{Plan, ReadsStage};

use crate::writes::Writes;
use sg_base::Instance;
use sg_query::{Answer, Query};
use sg_reading::Known;
use std::alloc::AllocError;

/// What a unit writes in stages and what it comes to, each a rule over answers, with the replies that have come so far.
///
/// The script owns its replies and may keep between reads how far it came, behind its model: `read` and `finish` leave
/// what contracts see as it was.
pub trait Script: Drop {
    /// What the graph's data and the queries' predicates are.
    type Inst: Instance;

    /// What a unit comes to.
    type Outcome: Drop;

    /// What the unit does, which stays while replies come.
    ghost plan: { Self → Plan Self.Outcome Self.Inst.Datum Self.Inst.Pred };

    /// The reply to a query, where one has come.
    ghost reply: { Self → QueryOf Self.Inst.Pred → Option (AnswerOf Self.Inst.Datum) };

    /// What the script needs to be read.
    ghost is_ready: { Self → Type 0 };

    /// One script is another with one reply more.
    ghost is_put: { Self → QueryOf Self.Inst.Pred → AnswerOf Self.Inst.Datum → Self → Type 0 };

    /// The unit's number.
    fn id(&self) -> u32
        ensures { result ≡ (plan self.now).unit };

    /// How many stages there are.
    fn stage_count(&self) -> usize
        requires { is_ready self.now }
        ensures { result ≡ length (plan self.now).stages };

    /// Whether a group of writes ends with the first `stage` stages, so that other units may go on first, once these are
    /// given: all stages are one group. It changes nothing of what the unit writes. Takes no memory.
    fn ends_group(&self, stage: usize) -> bool
        requires { is_ready self.now }
    {
        stage == self.stage_count()
    }

    /// Adds the reply to a query that has none.
    fn put(
        &mut self,
        query: &Query<<Self::Inst as Instance>::Pred>,
        answer: Answer<<Self::Inst as Instance>::Datum>,
    ) -> Result<(), AllocError>
        requires ready { is_ready self.old }
        requires first { reply self.old query.now ≡ None }
        ensures put { IfOk result (λ _. is_put self.old query.now answer self.new) }
        ensures reply { IfOk result (λ _. AddsReply (reply self.old) (reply self.new) query.now answer) }
        ensures ready { IfOk result (λ _. is_ready self.new × (plan self.new ≡ plan self.old)) }
        ensures same { OnErr result (self.new ≡ self.old) };

    /// Takes the last reply back.
    fn take_back(&mut self)
        requires { (before : Self) × (q : QueryOf Self.Inst.Pred) × (a : AnswerOf Self.Inst.Datum) × is_put before q a self.old }
        ensures { (before : Self) (q : QueryOf Self.Inst.Pred) (a : AnswerOf Self.Inst.Datum) → is_put before q a self.old → self.new ≡ before };

    /// What a stage gives over the replies so far, or the first query that has none.
    fn read(
        &mut self,
        stage: usize,
    ) -> Result<
        Known<Writes<<Self::Inst as Instance>::Datum>, Query<<Self::Inst as Instance>::Pred>>,
        AllocError,
    >
        requires ready { is_ready self.old }
        requires within { stage < length (plan self.old).stages }
        ensures reads { IfOk result (ReadsStage (reply self.old) (plan self.old).stages stage) }
        ensures same { self.new ≡ self.old };

    /// What the unit comes to over the replies so far, or the first query that has none.
    fn finish(
        &mut self,
    ) -> Result<Known<Self::Outcome, Query<<Self::Inst as Instance>::Pred>>, AllocError>
        requires ready { is_ready self.old }
        ensures reads { IfOk result (IsKnown (reply self.old) (plan self.old).ending) }
        ensures same { self.new ≡ self.old };
}
