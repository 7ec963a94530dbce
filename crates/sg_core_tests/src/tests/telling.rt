//! Operations and replies in words.

use crate::tests::doing::name_of;
use sg_numbers::Numbers;
use sg_query::{Answer, FoundPaths};
use sg_unit::{Entry, Op, Reply};
use std::fmt::Write;
use std::test::Fail;

/// Writes the units that go on.
fn put_done(text: &mut String, woken: &[u32]) -> Result<(), Fail> {
    text.push_str("done")?;
    for unit in woken {
        write!(text, " {unit}")?;
    }
    Ok(())
}

/// Writes for each path how many steps it has, and its datum.
fn put_paths(text: &mut String, found: &FoundPaths<u64>) -> Result<(), Fail> {
    text.push_str("paths")?;
    for place in 0..found.len() {
        let path = found.at(place);
        write!(text, " {}-{}", path.path.len(), *path.datum)?;
    }
    Ok(())
}

/// Writes an answer.
pub(crate) fn put_answer(text: &mut String, answer: &Answer<u64>) -> Result<(), Fail> {
    match answer {
        Answer::Paths(found) => put_paths(text, found),
        Answer::TooMany => Ok(text.push_str("too many")?),
    }
}

/// Writes a reply.
pub(crate) fn put_reply(text: &mut String, reply: &Reply<Numbers>) -> Result<(), Fail> {
    match reply {
        Reply::Made(scope) => write!(text, "made {}", name_of(*scope))?,
        Reply::Done { woken } => put_done(text, woken.as_slice())?,
        Reply::Moved => text.push_str("moved")?,
        Reply::Ready => text.push_str("ready")?,
        Reply::Suspended => text.push_str("suspended")?,
        Reply::Answer(answer) => put_answer(text, answer)?,
        Reply::Stuck => text.push_str("stuck")?,
    }
    Ok(())
}

/// Writes an operation.
fn put_op(text: &mut String, op: &Op<Numbers, u64>) -> Result<(), Fail> {
    match op {
        Op::Fresh { .. } => text.push_str("make")?,
        Op::AddEdge { from, to, .. } => write!(text, "link {} {}", name_of(*from), name_of(*to))?,
        Op::SetDatum { scope, datum } => write!(text, "set {} {}", name_of(*scope), *datum)?,
        Op::CloseRow { scope, .. } => write!(text, "close {}", name_of(*scope))?,
        Op::Ask(query) => write!(text, "ask {}", name_of(query.start))?,
        Op::Advance => text.push_str("advance")?,
        Op::Take => text.push_str("take")?,
        Op::End(outcome) => write!(text, "end {}", *outcome)?,
    }
    Ok(())
}

/// Writes a log, with a line for each entry.
pub(crate) fn put_log(text: &mut String, log: &[Entry<Numbers, u64>]) -> Result<(), Fail> {
    for entry in log {
        write!(text, "{} ", entry.unit)?;
        put_op(text, &entry.op)?;
        text.push_str(": ")?;
        put_reply(text, &entry.reply)?;
        text.push('\n')?;
    }
    Ok(())
}
