//! Searches in small held graphs, with answers worked out by hand.

ghost use Rattle.std.specs.Prelude.{◌≡◌, IsSome, IfOk, IfSome};
ghost use Rattle.sg_base.specs.Graph.{HasScope};
ghost use Rattle.sg_base.specs.State.{Follows};
ghost use Rattle.sg_query.specs.Query.{asked};
ghost use Rattle.sg_state.specs.Held.{HoldsRow, IsHeld, state_of};
ghost use Rattle.sg_engine.specs.declared.progress.Progress.TheVariants.{Ready};
ghost use Rattle.sg_engine.specs.Front.{Stands};
ghost use Rattle.sg_engine.specs.Search.{IsOfTable};

use sg_base::laws::extensions_chain;
use sg_base::{Instance, Label, Scope, Step};
use sg_engine::laws::stands_later;
use sg_engine::{Progress, Search};
use sg_expr::Expr;
use sg_numbers::{Numbers, scope};
use sg_order::Order;
use sg_query::{Answer, FoundPaths, Kind, KindTable, Query};
use sg_state::laws::writes_extend;
use sg_state::{Held, Need, Opening};
use std::alloc::{AllocError, Global};
use std::marker::Model;
use std::sync::Arc;
use std::sync::atomic::{AtomicU64, Ordering};
use std::test::Fail;

/// A predicate that wants each datum, and counts how often it is asked.
#[derive(Drop)]
struct Counter {
    asked: Arc<AtomicU64, Global>,
}

impl Model for Counter {
    ghost use Rattle.std.specs.Prelude.{ℕ};

    ghost Value = { ℕ };

    ghost view = { λ c. 0 };
}

/// Data that are numbers, each its own key, and predicates that have no key.
struct Counted;

impl Instance for Counted {
    ghost use Rattle.std.specs.Prelude.{◌≡◌, ◌==◌, true, IsTrue, None};
    ghost use Rattle.std.proofs.Common.{arith};
    ghost use Rattle.std.proofs.lemmas.Bool.Decides.{nat_tests};

    type Datum = u64;

    type Pred = Counter;

    ghost wants = { λ p d. true };

    ghost same_datum = { λ a b. a == b };

    ghost pred_key = { λ p. None };

    ghost datum_key = { λ d. d };

    fn matches(p: &Counter, _d: &u64) -> bool {
        p.asked.fetch_add(1, Ordering::SeqCst);
        true
    }

    fn same(a: &u64, b: &u64) -> bool {
        *a == *b
    }

    fn key_of_pred(_p: &Counter) -> Option<u64> {
        None
    }

    fn key_of_datum(d: &u64) -> u64 {
        *d
    }

    fn copy_datum(_alloc: Global, d: &u64) -> Result<u64, AllocError> {
        Ok(*d)
    }

    fn copy_pred(_alloc: Global, p: &Counter) -> Result<Counter, AllocError> {
        Ok(Counter {
            asked: Arc::clone(&p.asked)?,
        })
    }

    ghost sameness = { record {
      reflexive = λ a. Prim.grind (arith, nat_tests);
      symmetric = λ a b h. Prim.grind (arith, nat_tests);
      transitive = λ a b c h k. Prim.grind (arith, nat_tests);
    } };

    ghost keyed = { λ p d k e t. absurd (cc) };

    ghost one_key = { λ a b h. Prim.grind (arith, nat_tests) };
}

/// The first unit that holds a row.
fn first_holder<I: Instance>(held: &Held<I>, s: Scope, l: Label) -> Option<u32>
    ensures { IfSome result (λ u. HoldsRow held.now u s l) }
{
    match held.holders(s, l) {
        [unit, ..] => Some(*unit),
        [] => None,
    }
}

/// Sets the datum of a scope, if it is unset.
fn give<I: Instance>(held: &mut Held<I>, s: Scope, d: I::Datum)
    requires held { IsHeld held.old }
    ensures { Follows (state_of held.old) (state_of held.new) }
{
    writes_extend::<I>();
    match held.datum_holder(s) {
        Some(unit) => held.set_datum(unit, s, d),
        None => {}
    }
}

/// Adds an edge, if the row is open.
fn link<I: Instance>(held: &mut Held<I>, from: Scope, l: Label, to: Scope) -> Result<(), AllocError>
    requires held { IsHeld held.old }
    ensures follows { Follows (state_of held.old) (state_of held.new) }
    ensures sound { IsHeld held.new }
{
    writes_extend::<I>();
    match first_holder(held, from, l) {
        Some(unit) => {
            if held.has_scope(to) {
                held.add_edge(unit, from, l, to)?;
            }
            Ok(())
        }
        None => Ok(()),
    }
}

/// Closes a row that one unit holds.
fn close<I: Instance>(held: &mut Held<I>, s: Scope, l: Label)
    requires held { IsHeld held.old }
    ensures { Follows (state_of held.old) (state_of held.new) }
{
    writes_extend::<I>();
    match first_holder(held, s, l) {
        Some(unit) => held.close_row(unit, s, l),
        None => {}
    }
}

/// What is written between two advances.
#[derive(Clone, Copy)]
enum Change {
    Nothing,
    Given(Scope, u64),
    Closed(Scope, Label),
    Linked(Scope, Label, Scope),
    Ended(u32),
}

/// Writes a change. A row that gets an edge is then closed.
fn make<I: Instance<Datum = u64>>(held: &mut Held<I>, change: Change) -> Result<(), AllocError>
    requires held { IsHeld held.old }
    ensures { Follows (state_of held.old) (state_of held.new) }
{
    writes_extend::<I>();
    extensions_chain::<I>();
    match change {
        Change::Nothing => {}
        Change::Given(s, d) => give(held, s, d),
        Change::Closed(s, l) => close(held, s, l),
        Change::Linked(s, l, to) => {
            link(held, s, l, to)?;
            close(held, s, l);
        }
        Change::Ended(unit) => held.end_unit(unit),
    }
    Ok(())
}

/// The table of one kind that follows these words.
fn table_of(alloc: Global, expr: Expr) -> Result<Option<KindTable>, AllocError> {
    let Ok(order) = Order::new(&[]) else {
        return Ok(None);
    };
    if !expr.names_at_most(63) {
        return Ok(None);
    }
    let mut kinds = Vec::new(alloc);
    kinds.push(Kind { expr, order })?;
    Ok(Some(KindTable::new(alloc, kinds)?))
}

/// Advances a search while it moves, up to 200 times: how often it moved, and what it answered then.
fn advance_on<I: Instance>(
    search: &mut Search<I>,
    held: &Held<I>,
    table: &KindTable,
) -> Result<(u32, Progress), AllocError>
    requires table { IsOfTable table.now search.old }
    requires start { HasScope held.now.graph search.old.query.start }
    requires stands { Stands (state_of held.now) (asked I.wants I.same_datum table.now search.old.query) search.old.front }
    ensures query { search.new.query ≡ search.old.query }
    ensures table { IsOfTable table.now search.new }
    ensures stands { Stands (state_of held.now) (asked I.wants I.same_datum table.now search.new.query) search.new.front }
    ensures ready { IfOk result (λ r. r.1 ≡ Ready → IsSome search.new.answer) }
{
    let mut moved = 0;
    for _n in 0..200u32 {
        match search.advance(held, table)? {
            Progress::Moved => moved += 1,
            Progress::Blocked => return Ok((moved, Progress::Blocked)),
            Progress::Ready => return Ok((moved, Progress::Ready)),
        }
    }
    Ok((moved, Progress::Moved))
}

/// How many paths the answer of a search has, and how many steps and which datum the first.
fn paths<I: Instance<Datum = u64>>(
    search: Search<I>,
    progress: Progress,
) -> Option<(usize, Option<(usize, u64)>)>
    requires { progress ≡ Ready → IsSome search.answer }
{
    match progress {
        Progress::Ready => match search.into_answer() {
            Answer::Paths(found) => {
                if found.len() == 0 {
                    return Some((0, None));
                }
                let first = found.at(0);
                Some((found.len(), Some((first.path.len(), *first.datum))))
            }
            Answer::TooMany => None,
        },
        Progress::Moved => None,
        Progress::Blocked => None,
    }
}

/// What a search does before and after a change, and how often it asks the predicate.
#[derive(Drop)]
struct Seen {
    moved: u32,
    progress: Progress,
    needed: bool,
    moved_then: u32,
    found: Option<(usize, Option<(usize, u64)>)>,
    asked: u64,
}

/// The graph that an opening holds, if it is sound.
fn held_of<I: Instance>(alloc: Global, o: Opening<I::Datum>) -> Result<Option<Held<I>>, AllocError>
    ensures { IfOk result (λ r. IfSome r IsHeld) }
{
    if !o.is_sound() {
        return Ok(None);
    }
    let held = Held::open(alloc, o)?;
    Ok(Some(held))
}

/// A search by the first kind of a table that has explored nothing, if there are the kind and the scope.
fn begun<I: Instance>(
    alloc: Global,
    table: &KindTable,
    held: &Held<I>,
    start: Scope,
    pred: I::Pred,
) -> Result<Option<Search<I>>, AllocError>
    ensures table { IfOk result (λ r. IfSome r (IsOfTable table.now)) }
    ensures start { IfOk result (λ r. IfSome r (λ s. HasScope held.now.graph s.query.start)) }
    ensures stands { IfOk result (λ r. IfSome r (λ s. Stands (state_of held.now) (asked I.wants I.same_datum table.now s.query) s.front)) }
{
    if table.is_empty() || !held.has_scope(start) {
        return Ok(None);
    }
    let query = Query {
        start,
        kind: 0,
        pred,
    };
    let search = Search::start(alloc, table, query)?;
    Ok(Some(search))
}

/// Advances a search, with this need where it is blocked, and again after a change. How often it asks is not counted here.
fn advanced<I: Instance<Datum = u64>>(
    search: Search<I>,
    table: &KindTable,
    held: &mut Held<I>,
    needs: &[Need],
    change: Change,
) -> Result<Seen, AllocError>
    requires held { IsHeld held.old }
    requires table { IsOfTable table.now search }
    requires start { HasScope held.old.graph search.query.start }
    requires stands { Stands (state_of held.old) (asked I.wants I.same_datum table.now search.query) search.front }
{
    stands_later::<I>();
    let mut search = search;
    let (moved, progress) = advance_on(&mut search, held, table)?;
    let needed = search.needs() == needs;
    make(held, change)?;
    let (moved_then, then) = advance_on(&mut search, held, table)?;
    Ok(Seen {
        moved,
        progress,
        needed,
        moved_then,
        found: paths(search, then),
        asked: 0,
    })
}

/// What a search from a scope of a held graph does before and after a change, if there are the kind and the scope.
fn seen_in(
    alloc: Global,
    table: &KindTable,
    held: &mut Held<Counted>,
    start: Scope,
    needs: &[Need],
    change: Change,
) -> Result<Option<Seen>, AllocError>
    requires held { IsHeld held.old }
{
    let count = Arc::new(alloc, AtomicU64::new(0))?;
    let pred = Counter {
        asked: Arc::clone(&count)?,
    };
    match begun(alloc, table, held, start, pred)? {
        Some(search) => {
            let mut seen = advanced(search, table, held, needs, change)?;
            seen.asked = count.load(Ordering::SeqCst);
            Ok(Some(seen))
        }
        None => Ok(None),
    }
}

/// Advances a search in an opening, with this need where it is blocked, and again after a change.
fn run(
    alloc: Global,
    o: Opening<u64>,
    start: Scope,
    expr: Expr,
    needs: &[Need],
    change: Change,
) -> Result<Option<Seen>, Fail> {
    let Some(table) = table_of(alloc, expr)? else {
        return Ok(None);
    };
    match held_of(alloc, o)? {
        Some(mut held) => Ok(seen_in(alloc, &table, &mut held, start, needs, change)?),
        None => Ok(None),
    }
}

/// An opening of a scope with this many targets that have data, and of one more that has, with no holders.
fn star(alloc: Global, targets: u32) -> Result<Opening<u64>, AllocError> {
    let mut o = Opening {
        scopes: vec![in alloc; scope(0)]?,
        edges: Vec::new(alloc),
        given: Vec::new(alloc),
        row_holds: Vec::new(alloc),
        datum_holds: Vec::new(alloc),
        units: 2,
    };
    for n in 0..targets {
        let to = scope(n.saturating_add(1));
        o.scopes.push(to)?;
        o.edges.push((scope(0), Label::new(0), to))?;
        o.given.push((to, u64::from(n)))?;
    }
    Ok(o)
}

/// What a search finds behind a closed row with this many targets.
fn seen_behind(alloc: Global, targets: u32) -> Result<Option<Seen>, Fail> {
    let o = star(alloc, targets)?;
    run(
        alloc,
        o,
        scope(0),
        Expr::One(Label::new(0)),
        &[],
        Change::Nothing,
    )
}

#[test]
fn closed_rows_are_explored_in_steps(rt: HostRuntime) -> Result<(), Fail> {
    for (targets, moves) in [(63, 0), (65, 1), (640, 10)] {
        let Some(seen) = seen_behind(rt.alloc(), targets)? else {
            return Err("not sound".into());
        };
        assert!(rt; seen.needed && seen.progress == Progress::Ready);
        assert_eq!(rt; (seen.moved, seen.moved_then), (moves, 0));
        assert_eq!(rt; seen.found, Some((targets as usize, Some((1, 0)))));
        assert!(rt; seen.asked <= 1280);
    }
    Ok(())
}

/// Either of two labels.
fn either(alloc: Global, a: Label, b: Label) -> Result<Expr, AllocError> {
    Ok(Expr::Alt(
        Box::new(alloc, Expr::One(a))?,
        Box::new(alloc, Expr::One(b))?,
    ))
}

/// What a search does that is blocked by a row, behind 63 targets of another one, until the row gets a target.
fn seen_of_blocked(alloc: Global) -> Result<Option<Seen>, Fail> {
    let (a, b, last) = (Label::new(0), Label::new(1), scope(100));
    let mut o = star(alloc, 63)?;
    o.scopes.push(last)?;
    o.given.push((last, 100))?;
    o.row_holds.push((0, scope(0), b))?;
    let both = either(alloc, a, b)?;
    let change = Change::Linked(scope(0), b, last);
    run(alloc, o, scope(0), both, &[Need::Row(scope(0), b)], change)
}

#[test]
fn a_search_goes_on_where_it_was_blocked(rt: HostRuntime) -> Result<(), Fail> {
    let Some(seen) = seen_of_blocked(rt.alloc())? else {
        return Err("not sound".into());
    };
    assert!(rt; seen.needed && seen.progress == Progress::Blocked);
    assert_eq!(rt; (seen.moved, seen.moved_then), (0, 0));
    assert_eq!(rt; seen.found, Some((64, Some((1, 0)))));
    assert!(rt; seen.asked <= 100);
    Ok(())
}

/// What a search from one of two scopes, of which each has a row that a unit holds, finds after a change.
fn seen_of_two(alloc: Global, start: Scope, change: Change) -> Result<Option<Seen>, Fail> {
    let a = Label::new(0);
    let mut o = star(alloc, 0)?;
    o.scopes.push(scope(1))?;
    o.row_holds.push((0, scope(0), a))?;
    o.row_holds.push((1, scope(1), a))?;
    run(
        alloc,
        o,
        start,
        Expr::One(a),
        &[Need::Row(start, a)],
        change,
    )
}

/// What a search for a datum that a unit holds finds after a change.
fn seen_of_datum(alloc: Global, change: Change) -> Result<Option<Seen>, Fail> {
    let mut o = star(alloc, 0)?;
    o.datum_holds.push((1, scope(0)))?;
    run(
        alloc,
        o,
        scope(0),
        Expr::Empty,
        &[Need::Datum(scope(0))],
        change,
    )
}

/// Whether a search was blocked by its need alone, and what it found then.
fn found_then(seen: Option<Seen>) -> Option<Option<(usize, Option<(usize, u64)>)>> {
    match seen {
        Some(s) => {
            if s.needed && s.progress == Progress::Blocked {
                Some(s.found)
            } else {
                None
            }
        }
        None => None,
    }
}

#[test]
fn open_rows_and_unset_data_block(rt: HostRuntime) -> Result<(), Fail> {
    let alloc = rt.alloc();
    let (first, second, a) = (scope(0), scope(1), Label::new(0));
    let none = Some(Some((0, None)));
    assert_eq!(rt;
        found_then(seen_of_two(alloc, first, Change::Nothing)?),
        Some(None)
    );
    assert_eq!(rt;
        found_then(seen_of_two(alloc, second, Change::Nothing)?),
        Some(None)
    );
    assert_eq!(rt;
        found_then(seen_of_two(alloc, second, Change::Closed(second, a))?),
        none
    );
    assert_eq!(rt;
        found_then(seen_of_datum(alloc, Change::Given(first, 7))?),
        Some(Some((1, Some((0, 7)))))
    );
    assert_eq!(rt; found_then(seen_of_datum(alloc, Change::Ended(1))?), none);
    Ok(())
}

/// The answer of a search for a number from the first scope of a held graph, if 200 advances find it, and how often it moved.
fn answer_in(
    alloc: Global,
    table: &KindTable,
    held: &Held<Numbers>,
    wanted: u64,
) -> Result<Option<(u32, Answer<u64>)>, AllocError> {
    match begun(alloc, table, held, scope(0), wanted)? {
        Some(mut search) => {
            let (moved, progress) = advance_on(&mut search, held, table)?;
            match progress {
                Progress::Ready => Ok(Some((moved, search.into_answer()))),
                Progress::Moved | Progress::Blocked => Ok(None),
            }
        }
        None => Ok(None),
    }
}

/// The answer of a search for a number from the first scope of an opening, if 200 advances find it, and how often it moved.
fn answer_of(
    alloc: Global,
    o: Opening<u64>,
    expr: Expr,
    wanted: u64,
) -> Result<Option<(u32, Answer<u64>)>, Fail> {
    let Some(table) = table_of(alloc, expr)? else {
        return Ok(None);
    };
    match held_of(alloc, o)? {
        Some(held) => Ok(answer_in(alloc, &table, &held, wanted)?),
        None => Ok(None),
    }
}

/// Whether these are one path, of one step from the first scope to scope 42, to the datum 41.
fn has_one_step(alloc: Global, found: &FoundPaths<u64>) -> Result<bool, AllocError> {
    if found.len() != 1 {
        return Ok(false);
    }
    let only = found.at(0);
    let path = only.path.path(alloc)?;
    let step = Step {
        label: Label::new(0),
        to: scope(42),
    };
    Ok(*only.datum == 41 && path.start() == scope(0) && path.steps() == [step].as_slice())
}

/// Whether one advance of a search finds the datum 41 behind a closed row with 65 targets.
fn is_found_at_once(alloc: Global) -> Result<bool, Fail> {
    let o = star(alloc, 65)?;
    match answer_of(alloc, o, Expr::One(Label::new(0)), 41)? {
        Some((0, Answer::Paths(found))) => Ok(has_one_step(alloc, &found)?),
        _ => Ok(false),
    }
}

#[test]
fn a_key_in_a_long_row_is_found_at_once(rt: HostRuntime) -> Result<(), Fail> {
    assert!(rt; is_found_at_once(rt.alloc())?);
    Ok(())
}

/// A chain of 40 scopes, with two branches: from scope 19 to scope 100, and from the end to scope 101. Both have the datum 7.
fn branched(alloc: Global) -> Result<Opening<u64>, AllocError> {
    let a = Label::new(0);
    let mut o = star(alloc, 0)?;
    for n in 0..39u32 {
        let to = scope(n.saturating_add(1));
        o.scopes.push(to)?;
        o.edges.push((scope(n), a, to))?;
    }
    for (from, to) in [(19, 100), (39, 101)] {
        o.scopes.push(scope(to))?;
        o.edges.push((scope(from), a, scope(to)))?;
        o.given.push((scope(to), 7))?;
    }
    Ok(o)
}

/// Whether a path has so many steps from the first scope, the last of them from one scope to another, and its datum is 7.
fn is_branch(found: &FoundPaths<u64>, place: usize, len: usize, last: (u32, u32)) -> bool {
    if place >= found.len() {
        return false;
    }
    let branch = found.at(place);
    match branch.path.split_last() {
        Some((before, step)) => {
            *branch.datum == 7
                && branch.path.start() == scope(0)
                && branch.path.len() == len
                && (before.end(), step.to) == (scope(last.0), scope(last.1))
        }
        None => false,
    }
}

/// Whether a search along the chain finds its two branches alone, the longer one first.
fn has_both_branches(alloc: Global) -> Result<bool, Fail> {
    let o = branched(alloc)?;
    let zeros = Expr::Star(Box::new(alloc, Expr::One(Label::new(0)))?);
    match answer_of(alloc, o, zeros, 7)? {
        Some((_, Answer::Paths(found))) => Ok(
            found.len() == 2
                && is_branch(&found, 0, 40, (39, 101))
                && is_branch(&found, 1, 20, (19, 100)),
        ),
        _ => Ok(false),
    }
}

#[test]
fn an_answer_has_each_branch_of_a_chain(rt: HostRuntime) -> Result<(), Fail> {
    assert!(rt; has_both_branches(rt.alloc())?);
    Ok(())
}

/// Ten diamonds in a row, each from scope 3 k over two to scope 3 k + 3, and further edges from scope 0. Scope 28 has the
/// datum 7.
fn diamonds(alloc: Global, further: u32) -> Result<Opening<u64>, AllocError> {
    let a = Label::new(0);
    let mut o = star(alloc, 0)?;
    for n in 1..31u32 {
        o.scopes.push(scope(n))?;
    }
    for k in 0..10u32 {
        for side in [1, 2] {
            o.edges.push((scope(3 * k), a, scope(3 * k + side)))?;
            o.edges.push((scope(3 * k + side), a, scope(3 * k + 3)))?;
        }
    }
    for k in 0..further {
        let to = scope(k.saturating_add(100));
        o.scopes.push(to)?;
        o.edges.push((scope(0), a, to))?;
    }
    o.given.push((scope(28), 7))?;
    Ok(o)
}

/// How many paths a search through the diamonds finds, unless too many go on.
fn found_in_diamonds(alloc: Global, further: u32) -> Result<Option<Option<usize>>, Fail> {
    let o = diamonds(alloc, further)?;
    let zeros = Expr::Star(Box::new(alloc, Expr::One(Label::new(0)))?);
    match answer_of(alloc, o, zeros, 7)? {
        Some((_, Answer::Paths(found))) => Ok(Some(Some(found.len()))),
        Some((_, Answer::TooMany)) => Ok(Some(None)),
        None => Ok(None),
    }
}

#[test]
fn a_search_looks_at_4096_paths_that_go_on(rt: HostRuntime) -> Result<(), Fail> {
    let alloc = rt.alloc();
    for (further, found) in [(0, Some(512)), (3, Some(512)), (4, None)] {
        assert_eq!(rt;
            found_in_diamonds(alloc, further)?,
            Some(found),
            "with {further} further edges"
        );
    }
    Ok(())
}
