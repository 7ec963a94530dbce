//! The five small programs, each run on one thread in orders that are given, with what comes of it worked out by hand.

ghost use Rattle.std.specs.Prelude.{◌≡◌, ◌<◌, ◌∷◌, [], length, map, IfOk, IfSome};
ghost use Rattle.sg_headers.specs.Small.{first, second, third, three, pick};
ghost use Rattle.sg_script.specs.Example.{reply_to};
ghost use Rattle.sg_script.specs.Following.{FollowsPlan};
ghost use Rattle.sg_small.specs.Reader.{IsNewReader, reader_plan};
ghost use Rattle.sg_state.specs.Opening.{opened_of, opening_of};

mod link;
mod linked;

use crate::Reader;
use sg_base::{Graph, Label, Scope};
use sg_core::{Core, Phase};
use sg_expr::Expr;
use sg_numbers::{FIRST, Numbers, SECOND, THIRD};
use sg_order::Order;
use sg_query::{Kind, KindTable};
use sg_script::Follower;
use sg_serial::run_serial;
use sg_state::{Need, Opening};
use sg_unit::{Entry, Op};
use sg_waits::ShownItem;
use std::alloc::{AllocError, Global};
use std::test::Fail;

/// The header of a type: the numbers of the types whose supertypes it looks at, and those of the supertypes that it gives.
#[derive(Clone, Copy)]
struct Header<'a> {
    looks: &'a [u32],
    gives: &'a [u32],
}

/// The header that looks at the supertypes of these types, and gives those.
fn looking<'a>(looks: &'a [u32], gives: &'a [u32]) -> Header<'a> {
    Header { looks, gives }
}

/// What came of a type's row: whether it was closed, how many targets it has, and the least of them.
#[derive(Clone, Copy, PartialEq)]
struct Row {
    closed: bool,
    targets: usize,
    least: Option<Scope>,
}

/// What came of a run: its phase, the rows of the three types, and the items that it shows, which are three at most.
#[derive(Clone, Copy, PartialEq)]
struct Outcome {
    phase: Phase,
    rows: (Row, Row, Row),
    shown: (Option<ShownItem>, Option<ShownItem>, Option<ShownItem>),
}

/// A row that is open, and has no target.
const OPEN: Row = Row {
    closed: false,
    targets: 0,
    least: None,
};

/// A row that is closed, and has no target.
const EMPTY: Row = Row {
    closed: true,
    targets: 0,
    least: None,
};

/// A row that is closed, and has this target alone.
fn closed(target: Scope) -> Row {
    Row {
        closed: true,
        targets: 1,
        least: Some(target),
    }
}

/// A unit that waits for the row of a type, which another unit holds or itself.
fn waits(unit: u32, row: Scope, holder: u32) -> ShownItem {
    ShownItem {
        unit,
        need: Need::Row(row, Label::new(0)),
        holder,
    }
}

/// The type with number 0 or 1, or else the third.
fn type_at(number: u32) -> Scope
    ensures { result ≡ pick first second third number }
{
    match number {
        0 => FIRST,
        1 => SECOND,
        _ => THIRD,
    }
}

/// The types with these numbers.
fn types(alloc: Global, numbers: &[u32]) -> Result<Vec<Scope>, AllocError>
    ensures { IfOk result (λ v. v.items ≡ map (pick first second third) numbers.now) }
{
    let mut list = Vec::new(alloc);
    for number in numbers {
        list.push(type_at(*number))?;
    }
    Ok(list)
}

/// A unit that reads the header of the type with its number.
fn reader(
    alloc: Global,
    number: u32,
    table: &KindTable,
    header: Header<'_>,
) -> Result<Follower<Reader>, AllocError>
    requires number { number < 3 }
    requires table { length table.now ≡ 1 }
    ensures reader { IfOk result (λ f. IsNewReader number table.now f.script) }
    ensures follows { IfOk result (λ f. FollowsPlan {I = Numbers} (reader_plan f.script) (reply_to f.script.replies) f.asked f.pending f.stage f.ended [] None) }
{
    let looks = types(alloc, header.looks)?;
    let gives = types(alloc, header.gives)?;
    let script = Reader::new(alloc, number, table, looks, gives);
    let unit = Follower::new(alloc, script);
    Ok(unit)
}

/// The table of one kind, whose queries take one step with label 0.
fn one_step(alloc: Global) -> Result<Option<KindTable>, AllocError>
    ensures { IfOk result (λ o. IfSome o (λ t. length t ≡ 1)) }
{
    let Ok(order) = Order::new(&[]) else {
        return Ok(None);
    };
    let expr = Expr::One(Label::new(0));
    if !expr.names_at_most(63) {
        return Ok(None);
    }
    let mut kinds = Vec::new(alloc);
    kinds.push(Kind { expr, order })?;
    let table = KindTable::new(alloc, kinds)?;
    Ok(Some(table))
}

/// Three types, of which each unit holds one's row with label 0.
fn opening(alloc: Global) -> Result<Opening<u64>, AllocError>
    ensures { IfOk result (λ o. opened_of (opening_of o) ≡ three) }
{
    let label = Label::new(0);
    Ok(Opening {
        scopes: vec![in alloc; FIRST, SECOND, THIRD]?,
        edges: Vec::new(alloc),
        given: Vec::new(alloc),
        row_holds: vec![in alloc; (0, FIRST, label), (1, SECOND, label), (2, THIRD, label)]?,
        datum_holds: Vec::new(alloc),
        units: 3,
    })
}

/// Three units in a vector.
fn list(
    alloc: Global,
    a: Follower<Reader>,
    b: Follower<Reader>,
    c: Follower<Reader>,
) -> Result<Vec<Follower<Reader>>, AllocError>
    ensures { IfOk result (λ v. v.items ≡ a ∷ b ∷ c ∷ []) }
{
    let mut units = Vec::new(alloc);
    units.push(a)?;
    units.push(b)?;
    units.push(c)?;
    Ok(units)
}

/// A core of the three types with a table, on which nothing is done yet.
fn opened(alloc: Global, table: KindTable) -> Result<Option<Core<Numbers, u64>>, AllocError>
    ensures { IfOk result (λ o. IfSome o (λ c. c ≡ record { opening = three; kinds = table; log = [] })) }
{
    let o = opening(alloc)?;
    if !o.is_sound() {
        return Ok(None);
    }
    let core = Core::open(alloc, o, table)?;
    Ok(Some(core))
}

/// The core of a run of three readers with a table of one kind.
fn serve(
    alloc: Global,
    table: KindTable,
    headers: [Header<'_>; 3],
    order: &[u32],
) -> Result<Option<Core<Numbers, u64>>, AllocError>
    requires { length table ≡ 1 }
{
    let a = reader(alloc, 0, &table, headers[0])?;
    let b = reader(alloc, 1, &table, headers[1])?;
    let c = reader(alloc, 2, &table, headers[2])?;
    let units = list(alloc, a, b, c)?;
    match opened(alloc, table)? {
        Some(core) => {
            let run = run_serial::<Follower<Reader>>(alloc, core, units, order)?;
            Ok(Some(run))
        }
        None => Ok(None),
    }
}

/// The core of a run of the readers of these headers, in this order.
fn served(
    alloc: Global,
    headers: [Header<'_>; 3],
    order: &[u32],
) -> Result<Option<Core<Numbers, u64>>, AllocError> {
    match one_step(alloc)? {
        Some(table) => serve(alloc, table, headers, order),
        None => Ok(None),
    }
}

/// Whether an entry closes the row of a type.
fn closes(entry: &Entry<Numbers, u64>, own: Scope) -> bool {
    match &entry.op {
        Op::CloseRow { scope, label } => *scope == own && *label == Label::new(0),
        _ => false,
    }
}

/// Whether the row of a type, which one unit alone holds, was closed.
fn is_closed(log: &[Entry<Numbers, u64>], own: Scope) -> bool {
    for entry in log {
        if closes(entry, own) {
            return true;
        }
    }
    false
}

/// What came of the row of a type.
fn row_of(core: &Core<Numbers, u64>, graph: &Graph<u64>, own: Scope) -> Row {
    let targets = graph.edges_of(own, Label::new(0));
    Row {
        closed: is_closed(core.log(), own),
        targets: targets.len(),
        least: match targets {
            [least, ..] => Some(*least),
            [] => None,
        },
    }
}

/// The item at a place of those that a run shows.
fn item_at(core: &Core<Numbers, u64>, place: usize) -> Option<ShownItem> {
    match core.shown() {
        Some(shown) => shown.items.as_slice().get(place).copied(),
        None => None,
    }
}

/// What came of a run.
fn outcome_of(core: &Core<Numbers, u64>) -> Result<Outcome, AllocError> {
    let graph = core.graph()?;
    Ok(Outcome {
        phase: core.phase(),
        rows: (
            row_of(core, &graph, FIRST),
            row_of(core, &graph, SECOND),
            row_of(core, &graph, THIRD),
        ),
        shown: (item_at(core, 0), item_at(core, 1), item_at(core, 2)),
    })
}

/// What came of a run, if there was one.
fn outcome_in(ran: &Option<Core<Numbers, u64>>) -> Result<Option<Outcome>, AllocError> {
    match ran {
        Some(core) => Ok(Some(outcome_of(core)?)),
        None => Ok(None),
    }
}

/// What comes of a run of the readers of these headers, in this order.
fn ending(
    alloc: Global,
    headers: [Header<'_>; 3],
    order: &[u32],
) -> Result<Option<Outcome>, AllocError> {
    let ran = served(alloc, headers, order)?;
    outcome_in(&ran)
}

/// Whether this is what comes of each run of the readers of these headers, in each of these orders.
fn ends_so(
    alloc: Global,
    headers: [Header<'_>; 3],
    orders: &[&[u32]],
    want: Outcome,
) -> Result<bool, AllocError> {
    for order in orders {
        if ending(alloc, headers, order)? != Some(want) {
            return Ok(false);
        }
    }
    Ok(true)
}

#[test]
fn two_types_above_one_another_are_closed(rt: HostRuntime) -> Result<(), Fail> {
    let headers = [looking(&[], &[1]), looking(&[], &[0]), looking(&[], &[])];
    let want = Outcome {
        phase: Phase::Ended,
        rows: (closed(SECOND), closed(FIRST), EMPTY),
        shown: (None, None, None),
    };
    let orders: [&[u32]; 3] = [&[], &[1, 0, 2, 1, 0], &[2, 2, 1, 1, 1]];
    assert!(rt; ends_so(rt.alloc(), headers, &orders, want)?);
    Ok(())
}

#[test]
fn a_header_waits_for_its_own_row_through_another(rt: HostRuntime) -> Result<(), Fail> {
    let headers = [
        looking(&[1, 0], &[2]),
        looking(&[], &[0]),
        looking(&[], &[]),
    ];
    let want = Outcome {
        phase: Phase::Stuck,
        rows: (OPEN, closed(FIRST), EMPTY),
        shown: (Some(waits(0, FIRST, 0)), None, None),
    };
    let orders: [&[u32]; 3] = [&[], &[0, 0, 1, 1, 0, 0], &[2, 1, 0, 2, 1, 0, 2, 1, 0]];
    assert!(rt; ends_so(rt.alloc(), headers, &orders, want)?);
    Ok(())
}

#[test]
fn headers_in_ranks_are_closed(rt: HostRuntime) -> Result<(), Fail> {
    let headers = [
        looking(&[1, 2], &[2]),
        looking(&[2], &[2]),
        looking(&[], &[]),
    ];
    let want = Outcome {
        phase: Phase::Ended,
        rows: (closed(THIRD), closed(THIRD), EMPTY),
        shown: (None, None, None),
    };
    let orders: [&[u32]; 3] = [&[], &[0, 0, 1, 1, 2, 2, 9], &[2, 2, 1, 0, 1, 0, 1, 0]];
    assert!(rt; ends_so(rt.alloc(), headers, &orders, want)?);
    Ok(())
}

#[test]
fn headers_that_look_at_one_another_are_stuck(rt: HostRuntime) -> Result<(), Fail> {
    let headers = [looking(&[1], &[2]), looking(&[0], &[2]), looking(&[], &[])];
    let want = Outcome {
        phase: Phase::Stuck,
        rows: (OPEN, OPEN, EMPTY),
        shown: (Some(waits(0, SECOND, 1)), Some(waits(1, FIRST, 0)), None),
    };
    let orders: [&[u32]; 3] = [&[], &[1, 1, 0, 0, 2], &[2, 2, 0, 1, 0, 1]];
    assert!(rt; ends_so(rt.alloc(), headers, &orders, want)?);
    Ok(())
}

#[test]
fn a_header_that_looks_at_its_own_row_waits(rt: HostRuntime) -> Result<(), Fail> {
    let headers = [looking(&[0], &[1]), looking(&[], &[2]), looking(&[], &[])];
    let want = Outcome {
        phase: Phase::Stuck,
        rows: (OPEN, closed(THIRD), EMPTY),
        shown: (Some(waits(0, FIRST, 0)), None, None),
    };
    let orders: [&[u32]; 3] = [&[], &[0, 0, 2, 1], &[2, 1, 2, 1, 1, 0]];
    assert!(rt; ends_so(rt.alloc(), headers, &orders, want)?);
    Ok(())
}
