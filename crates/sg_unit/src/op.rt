ghost use Rattle.std.specs.Prelude.{◌≡◌};
ghost use Rattle.sg_unit.specs.Operation.{is_ask};

use sg_base::{Instance, Label, LabelSet, Scope};
use sg_query::Query;

/// What a unit does. `Fresh` makes a scope whose rows with these labels, and whose datum where that is wanted, the unit
/// holds. `AddEdge`, `SetDatum` and `CloseRow` add to the graph and give up a hold. `Ask` starts a query, `Advance` lets it
/// search on, and `Take` takes its answer. `End` gives up all holds, with what the unit came to.
#[derive(Drop)]
pub enum Op<I: Instance, R> {
    Fresh {
        labels: LabelSet,
        datum: bool,
    },
    AddEdge {
        from: Scope,
        label: Label,
        to: Scope,
    },
    SetDatum {
        scope: Scope,
        datum: I::Datum,
    },
    CloseRow {
        scope: Scope,
        label: Label,
    },
    Ask(Query<I::Pred>),
    Advance,
    Take,
    End(R),
}

impl<I: Instance, R> Op<I, R> {
    /// Whether the operation is an ask, whose reply is not handed to its unit, but the answer that is taken later.
    pub fn is_ask(&self) -> bool
        ensures { result ≡ is_ask self.now }
    {
        match self {
            Op::Fresh { .. } => false,
            Op::AddEdge { .. } => false,
            Op::SetDatum { .. } => false,
            Op::CloseRow { .. } => false,
            Op::Ask(_) => true,
            Op::Advance => false,
            Op::Take => false,
            Op::End(_) => false,
        }
    }
}
