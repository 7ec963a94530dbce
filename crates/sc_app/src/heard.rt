//! What a unit was told, by the log of a run.

ghost use Rattle.std.specs.Prelude.{◌≡◌, ◌∷◌, ◌++◌, [], List, None, IfOk};
ghost use Rattle.sg_query.specs.declared.query.Query.{Query as QueryOf};
ghost use Rattle.sg_unit.specs.Own.{own};
ghost use Rattle.sg_unit.specs.Trace.{handed, told, told_after};
ghost use Rattle.jv_instance.specs.declared.pred.JavaPred.{JavaPred as JavaPredOf};
ghost use Rattle.jv_names.specs.Replies.{reply_to};
ghost use Rattle.sc_app.specs.Heard.{answer_in, with_waiting, Collects, Hears, JavaEntry, JavaTrace};

use jv_diag::DiagList;
use jv_instance::{Java, JavaDatum, JavaPred};
use jv_names::Oracle;
use sg_query::{Answer, Query, copy_query};
use sg_unit::{Entry, Op, Reply};
use std::alloc::{AllocError, Global};

/// What a unit heard: the query that it asked last, where it gave nothing since, the answer to it that has come, and the replies
/// that it was handed. The answer is handed to the unit when it goes on.
#[derive(Drop)]
struct Heard {
    asked: Option<Query<JavaPred>>,
    answer: Option<Answer<JavaDatum>>,
    replies: Oracle,
}

/// The answer that a reply is, where it is one. It costs a count.
fn answer_in(reply: &Reply<Java>) -> Result<Option<Answer<JavaDatum>>, AllocError>
    ensures { IfOk result (λ a. a ≡ answer_in reply.now) }
{
    match reply {
        Reply::Answer(answer) => Ok(Some(answer.share()?)),
        Reply::Made(_) => Ok(None),
        Reply::Done { .. } => Ok(None),
        Reply::Moved => Ok(None),
        Reply::Ready => Ok(None),
        Reply::Suspended => Ok(None),
        Reply::Stuck => Ok(None),
    }
}

/// The replies with the answer to a query, where it has come.
fn put_waiting(
    mut replies: Oracle,
    query: Query<JavaPred>,
    answer: Option<Answer<JavaDatum>>,
) -> Result<Oracle, AllocError>
    ensures { IfOk result (λ rs. (p : QueryOf JavaPredOf) → reply_to rs p ≡ with_waiting query answer (reply_to replies) p) }
{
    match answer {
        Some(answer) => {
            replies.put(query, answer)?;
            Ok(replies)
        }
        None => Ok(replies),
    }
}

/// The replies, once the answer that waits is handed to the unit.
fn handed(heard: Heard) -> Result<Oracle, AllocError>
    ensures { IfOk result (λ rs. (t : JavaTrace) → Hears heard t → Collects (handed t) rs) }
{
    match heard.asked {
        Some(query) => put_waiting(heard.replies, query, heard.answer),
        None => Ok(heard.replies),
    }
}

/// What a unit heard that went on, and asks nothing.
fn silent(heard: Heard) -> Result<Heard, AllocError>
    ensures asked { IfOk result (λ h. h.asked ≡ None) }
    ensures replies { IfOk result (λ h. (t : JavaTrace) → Hears heard t → Collects (handed t) h.replies) }
{
    Ok(Heard {
        asked: None,
        answer: None,
        replies: handed(heard)?,
    })
}

/// What a unit heard after an operation of its own with its reply.
fn heard_after(
    alloc: Global,
    heard: Heard,
    op: &Op<Java, DiagList>,
    reply: &Reply<Java>,
) -> Result<Heard, AllocError>
    ensures { IfOk result (λ h. (t : JavaTrace) → Hears heard t → Hears h (told_after t op.now reply.now)) }
{
    match op {
        Op::Fresh { .. } => silent(heard),
        Op::AddEdge { .. } => silent(heard),
        Op::SetDatum { .. } => silent(heard),
        Op::CloseRow { .. } => silent(heard),
        Op::Ask(query) => Ok(Heard {
            asked: Some(copy_query::<Java>(alloc, query)?),
            answer: None,
            replies: handed(heard)?,
        }),
        Op::Advance => Ok(heard),
        Op::Take => Ok(Heard {
            asked: heard.asked,
            answer: answer_in(reply)?,
            replies: heard.replies,
        }),
        Op::End(_) => silent(heard),
    }
}

/// What a unit heard after one more entry of the log.
fn heard_more(
    alloc: Global,
    heard: Heard,
    unit: u32,
    entry: &Entry<Java, DiagList>,
) -> Result<Heard, AllocError>
    ensures { IfOk result (λ h. (mine : List JavaEntry) → Hears heard (told mine) → Hears h (told (mine ++ own unit (entry.now ∷ [])))) }
{
    if entry.unit != unit {
        return Ok(heard);
    }
    heard_after(alloc, heard, &entry.op, &entry.reply)
}

/// The replies that a unit was handed, by the log of a run. It takes time in the log, and a copy of each query of the unit.
pub(crate) fn replies_of(
    alloc: Global,
    log: &[Entry<Java, DiagList>],
    unit: u32,
) -> Result<Oracle, AllocError>
    ensures { IfOk result (Collects (told (own unit log.now)).past) }
{
    let mut heard = Heard {
        asked: None,
        answer: None,
        replies: Oracle::new(alloc),
    };
    for entry in log {
        heard = heard_more(alloc, heard, unit, entry)?;
    }
    Ok(heard.replies)
}
