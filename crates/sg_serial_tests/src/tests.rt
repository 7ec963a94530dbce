//! Two units that are served one operation at a time, in orders that are given.

ghost use Rattle.std.specs.Prelude.{◌≡◌, ◌<◌, ◌+◌, ◌-◌, ◌∷◌, [], length, IfOk, IfSome, OnErr};
ghost use Rattle.sg_serial.specs.Example.{crossed, own_scope, other_scope, worker_op, WorkerCanBeHanded, WorkerSteps, WorkerGivesOwed, WorkerStays};
ghost use Rattle.sg_state.specs.Opening.{opened_of, opening_of};

use sg_base::{Graph, Label, Scope};
use sg_core::{Core, Phase};
use sg_expr::Expr;
use sg_numbers::{FIRST, Numbers, SECOND};
use sg_order::Order;
use sg_query::{Kind, KindTable, Query};
use sg_serial::run_serial;
use sg_state::{Need, Opening};
use sg_unit::{Op, Reply, Unit};
use sg_waits::ShownItem;
use std::alloc::{AllocError, Global};
use std::snapshot::Snapshot;
use std::test::Fail;

/// Unit 0 or 1 of two. It asks along the other's row, or adds an edge to its own row and closes that; then it ends with 7.
#[derive(Drop)]
struct Worker {
    second: bool,
    asks: bool,
    given: u8,
    kinds: Snapshot<KindTable>,
}

/// The scope whose row a unit holds.
fn own(second: bool) -> Scope
    ensures { result ≡ own_scope second }
{
    if second { SECOND } else { FIRST }
}

/// The scope whose row the other unit holds.
fn other(second: bool) -> Scope
    ensures { result ≡ other_scope second }
{
    if second { FIRST } else { SECOND }
}

/// What a unit gives after so many operations.
fn op_at(second: bool, asks: bool, given: u8) -> Op<Numbers, u64>
    ensures { result ≡ worker_op second asks 5 7 given }
{
    match given {
        0 => {
            if asks {
                Op::Ask(Query {
                    start: other(second),
                    kind: 0,
                    pred: 5,
                })
            } else {
                Op::AddEdge {
                    from: own(second),
                    label: Label::new(0),
                    to: other(second),
                }
            }
        }
        1 => {
            if asks {
                Op::End(7)
            } else {
                Op::CloseRow {
                    scope: own(second),
                    label: Label::new(0),
                }
            }
        }
        _ => Op::End(7),
    }
}

/// One operation more, of at most three.
fn one_more(given: u8) -> u8
    requires { given < 3 }
    ensures { result ≡ given + 1 }
{
    given + 1
}

impl Unit for Worker {
    ghost use Rattle.std.specs.Prelude.{◌≡◌, ◌-◌, Bool, List};
    ghost use Rattle.sg_query.specs.Query.{KindOf};
    ghost use Rattle.sg_serial.specs.Example.{crossed, number_of, fixed_part, WorkerStands, IsWorkersEdge, IsWorkersQuery};

    type Inst = Numbers;

    type Outcome = u64;

    ghost Fixed = { Bool × Bool × List KindOf };

    ghost fixed = { λ w. fixed_part w.second w.asks w.kinds.value };

    ghost number = { λ w. number_of w.second };

    ghost opening = { λ _. crossed };

    ghost kinds = { λ f. f.2 };

    ghost owes_edge = { λ f _. IsWorkersEdge f.0 f.1 };

    ghost owes_datum = { λ _ _ _ _. ⊥ };

    ghost may_ask = { λ f _ q. IsWorkersQuery f.0 f.1 5 q };

    ghost comes_to = { λ _ _ x. x ≡ 7 };

    ghost stands = { λ w. WorkerStands w.kinds.value w.second w.asks 5 7 w.given };

    ghost measure = { λ w. 3 - w.given };

    fn id(&self) -> u32 {
        if self.second { 1 } else { 0 }
    }

    fn next(&mut self, last: Option<Reply<Numbers>>) -> Result<Op<Numbers, u64>, AllocError>
        requires { WorkerCanBeHanded self.old.kinds.value self.old.second self.old.asks self.old.given last }
        ensures gives { IfOk result (WorkerSteps self.old.kinds.value self.old.second self.old.asks self.old.given self.new.kinds.value self.new.second self.new.asks self.new.given last) }
        ensures owed { IfOk result (WorkerGivesOwed self.old.kinds.value self.old.second self.old.asks self.old.given last) }
        ensures falls { IfOk result (λ _. 3 - self.new.given < 3 - self.old.given) }
        ensures same { OnErr result (self.new ≡ self.old) }
        ensures fixed { WorkerStays self.old.kinds.value self.old.second self.old.asks self.new.kinds.value self.new.second self.new.asks }
    {
        let _handed = last;
        let op = op_at(self.second, self.asks, self.given);
        self.given = one_more(self.given);
        Ok(op)
    }
}

/// A new unit, which knows the table.
fn new(second: bool, asks: bool, table: &KindTable) -> Worker
    ensures second { result.second ≡ second }
    ensures asks { result.asks ≡ asks }
    ensures given { result.given ≡ 0 }
    ensures kinds { result.kinds.value ≡ table.now }
{
    Worker {
        second,
        asks,
        given: 0,
        kinds: Snapshot::of(table),
    }
}

/// The table of one kind, whose queries take one step with label 0.
fn one_step(alloc: Global) -> Result<Option<KindTable>, AllocError>
    ensures { IfOk result (λ o. IfSome o (λ t. length t ≡ 1)) }
{
    let Ok(order) = Order::new(&[]) else {
        return Ok(None);
    };
    let expr = Expr::One(Label::new(0));
    if !expr.names_at_most(63) {
        return Ok(None);
    }
    let mut kinds = Vec::new(alloc);
    kinds.push(Kind { expr, order })?;
    let table = KindTable::new(alloc, kinds)?;
    Ok(Some(table))
}

/// Two scopes, of which each unit holds one's row with label 0.
fn opening(alloc: Global) -> Result<Opening<u64>, AllocError>
    ensures { IfOk result (λ o. opened_of (opening_of o) ≡ crossed) }
{
    Ok(Opening {
        scopes: vec![in alloc; FIRST, SECOND]?,
        edges: Vec::new(alloc),
        given: Vec::new(alloc),
        row_holds: vec![in alloc; (0, FIRST, Label::new(0)), (1, SECOND, Label::new(0))]?,
        datum_holds: Vec::new(alloc),
        units: 2,
    })
}

/// Two units in a vector.
fn pair(alloc: Global, first: Worker, second: Worker) -> Result<Vec<Worker>, AllocError>
    ensures { IfOk result (λ v. v.items ≡ first ∷ second ∷ []) }
{
    let mut units = Vec::new(alloc);
    units.push(first)?;
    units.push(second)?;
    Ok(units)
}

/// The core of a run of both units with a table of one kind.
fn serve(
    alloc: Global,
    table: KindTable,
    first_asks: bool,
    second_asks: bool,
    order: &[u32],
) -> Result<Option<Core<Numbers, u64>>, AllocError>
    requires { length table ≡ 1 }
{
    let o = opening(alloc)?;
    if !o.is_sound() {
        return Ok(None);
    }
    let first = new(false, first_asks, &table);
    let second = new(true, second_asks, &table);
    let units = pair(alloc, first, second)?;
    let core = Core::<Numbers, u64>::open(alloc, o, table)?;
    let run = run_serial::<Worker>(alloc, core, units, order)?;
    Ok(Some(run))
}

/// The core of a run of both units, of which each asks or does not, in this order.
fn served(
    alloc: Global,
    first_asks: bool,
    second_asks: bool,
    order: &[u32],
) -> Result<Option<Core<Numbers, u64>>, AllocError> {
    match one_step(alloc)? {
        Some(table) => serve(alloc, table, first_asks, second_asks, order),
        None => Ok(None),
    }
}

/// Whether a graph has both scopes, and of the edges with the label one alone, from the second scope to the first.
fn has_one_edge(graph: &Graph<u64>, label: Label) -> bool {
    graph.scopes() == [FIRST, SECOND].as_slice()
        && graph.edges_of(FIRST, label).is_empty()
        && graph.edges_of(SECOND, label) == [FIRST].as_slice()
}

/// Whether both units have ended with 7, and the second has added its edge.
fn has_ended(core: &Core<Numbers, u64>) -> Result<bool, AllocError> {
    if core.phase() != Phase::Ended || core.shown().is_some() {
        return Ok(false);
    }
    let graph = core.graph()?;
    Ok(
        has_one_edge(&graph, Label::new(0))
            && core.result(0) == Some(&7)
            && core.result(1) == Some(&7),
    )
}

/// Whether the first unit asks, the second adds an edge, and both end, in an order.
fn ends_in(alloc: Global, order: &[u32]) -> Result<bool, AllocError> {
    match served(alloc, true, false, order)? {
        Some(core) => has_ended(&core),
        None => Ok(false),
    }
}

#[test]
fn an_asker_ends_in_each_order(rt: HostRuntime) -> Result<(), Fail> {
    assert!(rt; ends_in(rt.alloc(), &[0, 1, 0])?);
    assert!(rt; ends_in(rt.alloc(), &[1, 0])?);
    assert!(rt; ends_in(rt.alloc(), &[])?);
    Ok(())
}

/// Whether neither unit has a result, and these items are shown.
fn is_stuck(core: &Core<Numbers, u64>, items: &[ShownItem]) -> bool {
    let is_shown = match core.shown() {
        Some(shown) => shown.items.as_slice() == items,
        None => false,
    };
    is_shown && core.phase() == Phase::Stuck && core.result(0).is_none() && core.result(1).is_none()
}

/// Whether both units ask, and then wait for one another as these items say.
fn get_stuck(alloc: Global, items: &[ShownItem]) -> Result<bool, AllocError> {
    match served(alloc, true, true, &[1, 1, 0])? {
        Some(core) => Ok(is_stuck(&core, items)),
        None => Ok(false),
    }
}

#[test]
fn askers_of_one_another_are_stuck(rt: HostRuntime) -> Result<(), Fail> {
    let label = Label::new(0);
    let stuck = [
        ShownItem {
            unit: 0,
            need: Need::Row(SECOND, label),
            holder: 1,
        },
        ShownItem {
            unit: 1,
            need: Need::Row(FIRST, label),
            holder: 0,
        },
    ];
    assert!(rt; get_stuck(rt.alloc(), &stuck)?);
    Ok(())
}
