ghost use Rattle.std.specs.Prelude.{◌<◌, length, IfOk};
ghost use Rattle.sg_base.specs.Graph.{HasScope};
ghost use Rattle.sg_query.specs.Answer.{IsAnswer};
ghost use Rattle.sg_query.specs.Query.{asked};

use crate::answer::Answer;
use crate::found_paths::FoundPaths;
use crate::kind_table::KindTable;
use crate::laid_out::laid_out;
use crate::query::Query;
use crate::shadow::visible_of;
use crate::walk::Walk;
use sg_base::{Graph, Instance};
use std::alloc::{AllocError, Global};

/// The answer of a query, by all paths of the graph that its words follow.
///
/// Looks at 4,096 paths that go on at most. Where the kind's order has a pair, found paths are compared with their neighbours,
/// and of those that are left each two whose data have one key; and the paths are sorted.
pub fn ans_plain<I: Instance>(
    alloc: Global,
    g: &Graph<I::Datum>,
    t: &KindTable,
    q: &Query<I::Pred>,
) -> Result<Answer<I::Datum>, AllocError>
    requires kind { q.now.kind < length t.now }
    requires start { HasScope g.now q.now.start }
    ensures { IfOk result (IsAnswer g.now (asked I.wants I.same_datum t.now q.now)) }
{
    // For the proof alone, which takes from this call that the graph is sound.
    let _scopes = g.scopes();
    let kind = t.kind(q.kind);
    let walk = Walk::<I> {
        alloc,
        graph: g,
        expr: &kind.expr,
        pred: &q.pred,
        start: q.start,
    };
    match walk.arrived()? {
        None => Ok(Answer::TooMany),
        Some(all) => {
            let tree = laid_out(alloc, q.start, all)?;
            Ok(Answer::Paths(visible_of::<I>(alloc, &kind.order, tree)?))
        }
    }
}
