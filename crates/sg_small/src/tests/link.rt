ghost use Rattle.std.specs.Prelude.{◌≡◌, ◌<◌, ◌+◌, ◌-◌, [], length, IfOk, IfSome, OnErr};
ghost use Rattle.sg_small.specs.Link.{CanAsk, LinkCanBeHanded, LinkSteps, LinkGivesOwed, LinkStays, link_op};

use sg_base::{Graph, Scope};
use sg_core::Core;
use sg_numbers::Numbers;
use sg_query::Query;
use sg_unit::{Op, Reply, Unit};
use std::alloc::AllocError;
use std::snapshot::Snapshot;

/// A unit that asks along the row of one scope, by a query of kind 0 that wants 5, and then ends with its number.
#[derive(Drop)]
pub(crate) struct Link {
    number: u32,
    looks: Scope,
    given: u8,
    core: Snapshot<Core<Numbers, u64>>,
}

impl Link {
    /// The link with this number, which asks along the row of a scope, at a core at its opening whose graph this is. None where
    /// the core has no such unit, or the graph no such scope.
    ///
    /// Takes a look-up of the scope.
    pub(crate) fn new(
        core: &Core<Numbers, u64>,
        graph: &Graph<u64>,
        number: u32,
        looks: Scope,
    ) -> Option<Link>
        requires opening { core.now.log ≡ [] }
        requires graph { graph.now ≡ core.now.opening.graph }
        requires kinds { 0 < length core.now.kinds }
        ensures number { IfSome result (λ l. l.number ≡ number) }
        ensures core { IfSome result (λ l. l.core.value ≡ core.now) }
        ensures given { IfSome result (λ l. l.given ≡ 0) }
        ensures can { IfSome result (λ l. CanAsk core.now.opening core.now.kinds number l.looks) }
    {
        if number >= core.units() || !graph.has_scope(looks) {
            return None;
        }
        Some(Link {
            number,
            looks,
            given: 0,
            core: Snapshot::of(core),
        })
    }
}

/// What a link gives after so many operations.
fn op_at(looks: Scope, number: u32, given: u8) -> Op<Numbers, u64>
    ensures { result ≡ link_op looks 5 number given }
{
    match given {
        0 => Op::Ask(Query {
            start: looks,
            kind: 0,
            pred: 5,
        }),
        _ => Op::End(number as u64),
    }
}

/// One operation more, of at most two.
fn one_more(given: u8) -> u8
    requires { given < 2 }
    ensures { result ≡ given + 1 }
{
    given + 1
}

impl Unit for Link {
    ghost use Rattle.std.specs.Prelude.{◌≡◌, ◌-◌, ℕ, List};
    ghost use Rattle.sg_base.specs.declared.scope.Scope.{Scope as ScopeOf};
    ghost use Rattle.sg_query.specs.Query.{KindOf};
    ghost use Rattle.sg_small.specs.Link.{LinkStands, along, link_part};
    ghost use Rattle.sg_state.specs.Held.{HeldOf};

    type Inst = Numbers;

    type Outcome = u64;

    ghost Fixed = { ℕ × ScopeOf × HeldOf ℕ × List KindOf };

    ghost fixed = { λ l. link_part l.number l.looks l.core.value.opening l.core.value.kinds };

    ghost number = { λ l. l.number };

    ghost opening = { λ f. f.2 };

    ghost kinds = { λ f. f.3 };

    ghost owes_edge = { λ _ _ _ _ _. ⊥ };

    ghost owes_datum = { λ _ _ _ _. ⊥ };

    ghost may_ask = { λ f _ q. q ≡ along f.1 5 };

    ghost comes_to = { λ f _ x. x ≡ f.0 };

    ghost stands = { λ l. LinkStands l.core.value.opening l.core.value.kinds l.number l.looks 5 l.number l.given };

    ghost measure = { λ l. 2 - l.given };

    fn id(&self) -> u32 {
        self.number
    }

    fn next(&mut self, last: Option<Reply<Numbers>>) -> Result<Op<Numbers, u64>, AllocError>
        requires { LinkCanBeHanded self.old.core.value self.old.number self.old.looks self.old.given last }
        ensures gives { IfOk result (LinkSteps self.old.core.value self.old.number self.old.looks self.old.given self.new.core.value self.new.number self.new.looks self.new.given last) }
        ensures owed { IfOk result (LinkGivesOwed self.old.core.value self.old.number self.old.looks self.old.given last) }
        ensures falls { IfOk result (λ _. 2 - self.new.given < 2 - self.old.given) }
        ensures same { OnErr result (self.new ≡ self.old) }
        ensures fixed { LinkStays self.old.core.value self.old.number self.old.looks self.new.core.value self.new.number self.new.looks }
    {
        let _handed = last;
        let op = op_at(self.looks, self.number, self.given);
        self.given = one_more(self.given);
        Ok(op)
    }
}
