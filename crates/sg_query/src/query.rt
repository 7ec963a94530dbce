ghost use Rattle.std.specs.Prelude.{◌≡◌, IfOk};

use sg_base::{Instance, Scope};
use std::alloc::{AllocError, Global};

/// A query: the scope that it starts from, the number of its kind, and the data that it wants.
#[derive(Debug, Drop, PartialEq, Eq, Hash)]
pub struct Query<P> {
    pub start: Scope,
    pub kind: u8,
    pub pred: P,
}

/// A copy of a query, in the time and memory of a copy of its predicate.
pub fn copy_query<I: Instance>(
    alloc: Global,
    q: &Query<I::Pred>,
) -> Result<Query<I::Pred>, AllocError>
    ensures { IfOk result (λ c. c ≡ q.now) }
{
    let pred = I::copy_pred(alloc, &q.pred)?;
    Ok(Query {
        start: q.start,
        kind: q.kind,
        pred,
    })
}
