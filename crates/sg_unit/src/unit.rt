ghost use Rattle.std.specs.Prelude.{◌≡◌, ◌<◌, ℕ, List, Option, IfOk, OnErr};
ghost use Rattle.sg_base.specs.declared.scope.Scope.{Scope as ScopeOf};
ghost use Rattle.sg_base.specs.Graph.{GraphOf};
ghost use Rattle.sg_query.specs.Query.{KindOf};
ghost use Rattle.sg_query.specs.declared.query.Query.{Query as QueryOf};
ghost use Rattle.sg_state.specs.Held.{HeldOf};
ghost use Rattle.sg_unit.specs.declared.op.Op.{Op as OpOf};
ghost use Rattle.sg_unit.specs.Trace.{Past};
ghost use Rattle.sg_unit.specs.Unit.{setting_at, CanBeHanded, GoesOn, UnitGivesOwed};

use crate::op::Op;
use crate::reply::Reply;
use sg_base::Instance;
use std::alloc::AllocError;

/// A unit of work on the shared graph. It gives one operation at each call: writes, asks and at last its end. A driver applies
/// them, advances and takes its asks, and hands it each reply.
pub trait Unit: Drop {
    /// What the graph's data and the queries' predicates are.
    type Inst: Instance;

    /// What a unit comes to.
    type Outcome: Drop;

    /// What stays of a unit while it runs, beside its number.
    ghost Fixed: { Type 0 };

    /// What stays of this unit.
    ghost fixed: { Self → Fixed };

    /// The unit's number.
    ghost number: { Self → ℕ };

    /// The held graph that its run begins with.
    ghost opening: { Fixed → HeldOf Self.Inst.Datum };

    /// The kinds of its queries.
    ghost kinds: { Fixed → List KindOf };

    /// The edges that the unit owes in a graph to the rows that it holds at the opening.
    ghost owes_edge: { Fixed → GraphOf Self.Inst.Datum → ScopeOf → ℕ → ScopeOf → Type 0 };

    /// The data that it owes there to the scopes whose data it holds at the opening.
    ghost owes_datum: { Fixed → GraphOf Self.Inst.Datum → ScopeOf → Self.Inst.Datum → Type 0 };

    /// The queries that it may ask there.
    ghost may_ask: { Fixed → GraphOf Self.Inst.Datum → QueryOf Self.Inst.Pred → Type 0 };

    /// What it comes to there.
    ghost comes_to: { Fixed → GraphOf Self.Inst.Datum → Self.Outcome → Type 0 };

    /// For which traces the unit stands: the operations that it gave, each with the reply that it was handed, and the last one,
    /// where it was handed none yet.
    ghost stands: { Self → Past Self.Inst Self.Outcome Self.Inst.Datum Self.Inst.Pred → Option (OpOf Self.Inst Self.Outcome Self.Inst.Datum Self.Inst.Pred) → Type 0 };

    /// How many more operations it gives at most.
    ghost measure: { Self → ℕ };

    /// The unit's number.
    fn id(&self) -> u32
        ensures { result ≡ number self.now };

    /// Whether the last call gave the last write of a group, so that other units may go on first. It changes nothing of what
    /// the unit gives. Takes no memory and constant time.
    fn has_written(&self) -> bool {
        false
    }

    /// The next operation, where `last` is the reply to the one before: none at the first call, and an ask's answer. After want
    /// of memory the unit is unchanged.
    fn next(
        &mut self,
        last: Option<Reply<Self::Inst>>,
    ) -> Result<Op<Self::Inst, Self::Outcome>, AllocError>
        requires { CanBeHanded (setting_at Self.Inst.wants Self.Inst.same_datum opening kinds (fixed self.old)) (number self.old) (stands self.old) last }
        ensures gives { IfOk result (GoesOn (setting_at Self.Inst.wants Self.Inst.same_datum opening kinds (fixed self.old)) (number self.old) (stands self.old) (stands self.new) last) }
        ensures owed { IfOk result (UnitGivesOwed Self.Inst.wants Self.Inst.same_datum opening kinds owes_edge owes_datum may_ask comes_to number fixed stands self.old last) }
        ensures falls { IfOk result (λ _. measure self.new < measure self.old) }
        ensures same { OnErr result (self.new ≡ self.old) }
        ensures fixed { (fixed self.new ≡ fixed self.old) × (number self.new ≡ number self.old) };
}
