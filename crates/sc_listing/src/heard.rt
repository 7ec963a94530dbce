//! What a checker was told, by its own entries.

ghost use Rattle.std.specs.Prelude.{◌≡◌, None, IfOk, map};
ghost use Rattle.std.specs.String.{string_bytes};
ghost use Rattle.sg_unit.specs.Trace.{handed, told_after, untold};
ghost use Rattle.sc_listing.specs.Heard.{answer_in, with_answer, AreTold, Hears, JavaTrace};
ghost use Rattle.sc_listing.specs.Listed.{listed_of};
ghost use Rattle.sc_listing.specs.Titles.{ListedOf};

use crate::listed::Listed;
use crate::questions::question_line;
use jv_diag::DiagList;
use jv_instance::{Java, JavaDatum, JavaPred};
use sg_query::{Answer, Query, copy_query};
use sg_unit::{Op, Reply};
use std::alloc::{AllocError, Global};

/// What a checker heard: the query that it asked last, where it gave nothing since, the answer to it that has come, and a line
/// for each answer that it was handed. The answer is handed to the checker when it goes on.
#[derive(Drop)]
pub(crate) struct Heard {
    asked: Option<Query<JavaPred>>,
    answer: Option<Answer<JavaDatum>>,
    lines: Vec<String>,
}

/// The answer that a reply is, where it is one. It costs a count.
fn answer_in(reply: &Reply<Java>) -> Result<Option<Answer<JavaDatum>>, AllocError>
    ensures { IfOk result (λ a. a ≡ answer_in reply.now) }
{
    match reply {
        Reply::Answer(answer) => Ok(Some(answer.share()?)),
        Reply::Made(_) => Ok(None),
        Reply::Done { .. } => Ok(None),
        Reply::Moved => Ok(None),
        Reply::Ready => Ok(None),
        Reply::Suspended => Ok(None),
        Reply::Stuck => Ok(None),
    }
}

/// The lines with that of a question, where its answer has come.
fn put_answer(
    alloc: Global,
    w: &Listed<'_>,
    mut lines: Vec<String>,
    query: &Query<JavaPred>,
    answer: Option<Answer<JavaDatum>>,
) -> Result<Vec<String>, AllocError>
    ensures { IfOk result (λ v. map string_bytes v.items ≡ with_answer (listed_of w.now) (map string_bytes lines.items) query.now answer) }
{
    match answer {
        Some(answer) => {
            lines.push(question_line(alloc, w, query, &answer)?)?;
            Ok(lines)
        }
        None => Ok(lines),
    }
}

impl Heard {
    /// What a checker heard that gave nothing yet.
    pub(crate) fn nothing(alloc: Global) -> Heard
        ensures { (w : ListedOf) → Hears w result untold }
    {
        Heard {
            asked: None,
            answer: None,
            lines: Vec::new(alloc),
        }
    }

    /// The lines, once the answer that waits is handed to the checker.
    pub(crate) fn handed(self, alloc: Global, w: &Listed<'_>) -> Result<Vec<String>, AllocError>
        ensures { IfOk result (λ v. (t : JavaTrace) → Hears (listed_of w.now) self t → AreTold (listed_of w.now) (handed t) (map string_bytes v.items)) }
    {
        match self.asked {
            Some(query) => put_answer(alloc, w, self.lines, &query, self.answer),
            None => Ok(self.lines),
        }
    }

    /// What a checker heard that went on, and asks nothing.
    fn silent(self, alloc: Global, w: &Listed<'_>) -> Result<Heard, AllocError>
        ensures asked { IfOk result (λ h. h.asked ≡ None) }
        ensures lines { IfOk result (λ h. (t : JavaTrace) → Hears (listed_of w.now) self t → AreTold (listed_of w.now) (handed t) (map string_bytes h.lines.items)) }
    {
        Ok(Heard {
            asked: None,
            answer: None,
            lines: self.handed(alloc, w)?,
        })
    }

    /// What a checker heard after an operation of its own with its reply.
    pub(crate) fn after(
        self,
        alloc: Global,
        w: &Listed<'_>,
        op: &Op<Java, DiagList>,
        reply: &Reply<Java>,
    ) -> Result<Heard, AllocError>
        ensures { IfOk result (λ h. (t : JavaTrace) → Hears (listed_of w.now) self t → Hears (listed_of w.now) h (told_after t op.now reply.now)) }
    {
        match op {
            Op::Fresh { .. } => self.silent(alloc, w),
            Op::AddEdge { .. } => self.silent(alloc, w),
            Op::SetDatum { .. } => self.silent(alloc, w),
            Op::CloseRow { .. } => self.silent(alloc, w),
            Op::Ask(query) => Ok(Heard {
                asked: Some(copy_query::<Java>(alloc, query)?),
                answer: None,
                lines: self.handed(alloc, w)?,
            }),
            Op::Advance => Ok(self),
            Op::Take => Ok(Heard {
                asked: self.asked,
                answer: answer_in(reply)?,
                lines: self.lines,
            }),
            Op::End(_) => self.silent(alloc, w),
        }
    }
}
