//! Answers in small graphs, worked out by hand.

use sg_base::{Graph, Instance, Label, Mark, PathView, Scope};
use sg_expr::Expr;
use sg_order::Order;
use sg_query::{Answer, Kind, KindTable, Query, ans_plain, copy_query};
use std::alloc::{AllocError, Global};
use std::test::Fail;

/// A number that is wanted, or any.
#[derive(Drop)]
enum Wanted {
    Is(u64),
    Any,
}

/// Data that are numbers, each its own key.
struct Numbers;

impl Instance for Numbers {
    ghost use Rattle.std.specs.Prelude.{◌≡◌, ◌==◌, nat_eq, Bool, true, IsTrue, ℕ, Option, Some, None, refl};
    ghost use Rattle.std.proofs.Common.{sym, ◌∙◌, eq-eqb, eqb-true, arith};
    ghost use Rattle.std.proofs.lemmas.Bool.Decides.{nat_tests};
    ghost use Rattle.sg_query_tests.specs.declared.tests.Wanted.TheVariants.{Is, Any};

    type Datum = u64;

    type Pred = Wanted;

    ghost wants = { λ p d. elim p [ Is n ↦ n == d | Any ↦ true ] };

    ghost same_datum = { λ a b. a == b };

    ghost pred_key = { λ p. elim p [ Is n ↦ Some n | Any ↦ None ] };

    ghost datum_key = { λ d. d };

    fn matches(p: &Wanted, d: &u64) -> bool {
        match p {
            Wanted::Is(n) => *n == *d,
            Wanted::Any => true,
        }
    }

    fn same(a: &u64, b: &u64) -> bool {
        *a == *b
    }

    fn key_of_pred(p: &Wanted) -> Option<u64> {
        match p {
            Wanted::Is(n) => Some(*n),
            Wanted::Any => None,
        }
    }

    fn key_of_datum(d: &u64) -> u64 {
        *d
    }

    fn copy_datum(_alloc: Global, d: &u64) -> Result<u64, AllocError> {
        Ok(*d)
    }

    fn copy_pred(_alloc: Global, p: &Wanted) -> Result<Wanted, AllocError> {
        match p {
            Wanted::Is(n) => Ok(Wanted::Is(*n)),
            Wanted::Any => Ok(Wanted::Any),
        }
    }

    ghost sameness = { record {
      reflexive = λ a. Prim.grind (arith, nat_tests);
      symmetric = λ a b h. Prim.grind (arith, nat_tests);
      transitive = λ a b c h k. Prim.grind (arith, nat_tests);
    } };

    ghost one_key = { λ a b h. Prim.grind (arith, nat_tests) };

    ghost keyed = { λ p d k. elim p [ Is n ↦ λ e t. Prim.grind (arith, nat_tests) | Any ↦ λ e t. Prim.grind (arith, nat_tests) ] };
}

fn scope(serial: u32) -> Scope {
    Scope { unit: 0, serial }
}

/// A graph with these edges, each a source, a label and a target, and with these data.
fn graph_of(
    alloc: Global,
    edges: &[(u32, u8, u32)],
    data: &[(u32, u64)],
) -> Result<Graph<u64>, AllocError> {
    let mut graph = Graph::new(alloc);
    for (from, number, to) in edges {
        let (from, to) = (scope(*from), scope(*to));
        graph.add_scope(from)?;
        graph.add_scope(to)?;
        if *number < 16 && graph.has_scope(from) && graph.has_scope(to) {
            graph.add_edge(from, Label::new(*number), to)?;
        }
    }
    for (serial, datum) in data {
        let s = scope(*serial);
        if graph.has_scope(s) {
            match graph.datum(s) {
                None => graph.set_datum(s, *datum)?,
                Some(_) => {}
            }
        }
    }
    Ok(graph)
}

/// The answer from scope 0 by a table of one kind.
fn answer(
    alloc: Global,
    graph: &Graph<u64>,
    expr: Expr,
    order: &[(Mark, Mark)],
    pred: Wanted,
) -> Result<Answer<u64>, Fail> {
    if !expr.names_at_most(63) {
        return Err("the expression names too many labels".into());
    }
    let order = Order::new(order).ok().ok_or("the order is not strict")?;
    let mut kinds = Vec::new(alloc);
    kinds.push(Kind { expr, order })?;
    let table = KindTable::new(alloc, kinds)?;
    let start = scope(0);
    if table.is_empty() || !graph.has_scope(start) {
        return Err("scope 0 or kind 0 is not there".into());
    }
    let query = Query {
        start,
        kind: 0,
        pred,
    };
    Ok(ans_plain::<Numbers>(alloc, graph, &table, &query)?)
}

/// Whether these are the answer's paths, each with its steps and its datum.
fn has_paths(answer: &Answer<u64>, paths: &[(&[(u8, u32)], u64)]) -> bool {
    match answer {
        Answer::TooMany => false,
        Answer::Paths(found) => {
            if found.len() != paths.len() {
                return false;
            }
            for k in 0..found.len() {
                let f = found.at(k);
                let (steps, datum) = paths[k];
                if *f.datum != datum || !are_steps(&f.path, steps) {
                    return false;
                }
            }
            true
        }
    }
}

/// Whether a path has these steps.
fn are_steps(path: &PathView, wanted: &[(u8, u32)]) -> bool {
    let mut at = path.copy();
    for (number, serial) in wanted.iter().rev() {
        match at.split_last() {
            None => return false,
            Some((before, step)) => {
                if step.label.number() != *number || step.to != scope(*serial) {
                    return false;
                }
                at = before;
            }
        }
    }
    at.len() == 0
}

/// Any number of labels 1, and then a label 0.
fn ones_and_zero(alloc: Global) -> Result<Expr, AllocError> {
    let ones = Expr::Star(Box::new(alloc, Expr::One(Label::new(1)))?);
    let zero = Expr::One(Label::new(0));
    Ok(Expr::Seq(Box::new(alloc, ones)?, Box::new(alloc, zero)?))
}

/// Whether the answer in a graph of two ways, over label 0 to the datum 7 and over labels 1 and 0 to another one, is that of
/// these paths. Label 0 comes first, or there is no order.
fn shows(
    alloc: Global,
    other: u64,
    is_ordered: bool,
    pred: Wanted,
    paths: &[(&[(u8, u32)], u64)],
) -> Result<bool, Fail> {
    let zero_first = [(Mark::Of(Label::new(0)), Mark::Of(Label::new(1)))];
    let order: &[(Mark, Mark)] = if is_ordered { &zero_first } else { &[] };
    let graph = graph_of(
        alloc,
        &[(0, 1, 1), (0, 0, 2), (1, 0, 3)],
        &[(2, 7), (3, other)],
    )?;
    let found = answer(alloc, &graph, ones_and_zero(alloc)?, order, pred)?;
    Ok(has_paths(&found, paths))
}

#[test]
fn the_nearest_of_equal_data_is_visible(rt: HostRuntime) -> Result<(), Fail> {
    let alloc = rt.alloc();
    let near: (&[(u8, u32)], u64) = (&[(0, 2)], 7);
    let far: &[(u8, u32)] = &[(1, 1), (0, 3)];
    assert!(rt; shows(alloc, 7, true, Wanted::Is(7), &[near])?);
    assert!(rt; shows(alloc, 7, false, Wanted::Is(7), &[near, (far, 7)])?);
    assert!(rt; shows(alloc, 8, true, Wanted::Any, &[near, (far, 8)])?);
    assert!(rt; shows(alloc, 8, true, Wanted::Is(8), &[(far, 8)])?);
    Ok(())
}

/// The answer along a chain of 40 scopes over label 1, each of which has an edge over label 0 to a scope with the datum 7, where
/// the one label or the other comes first.
fn chain(alloc: Global, zero_first: bool) -> Result<Answer<u64>, Fail> {
    let mut edges = Vec::new(alloc);
    let mut given = Vec::new(alloc);
    for k in 0..40u32 {
        edges.push((k, 1, k.saturating_add(1)))?;
        edges.push((k, 0, k.saturating_add(100)))?;
        given.push((k.saturating_add(100), 7))?;
    }
    let graph = graph_of(alloc, edges.as_slice(), given.as_slice())?;
    let (zero, one) = (Mark::Of(Label::new(0)), Mark::Of(Label::new(1)));
    let order = if zero_first {
        [(zero, one)]
    } else {
        [(one, zero)]
    };
    answer(alloc, &graph, ones_and_zero(alloc)?, &order, Wanted::Is(7))
}

/// How many steps the only path of an answer has.
fn len_of_only(all: &Answer<u64>) -> Option<usize> {
    match all {
        Answer::TooMany => None,
        Answer::Paths(found) => {
            if found.len() == 1 {
                Some(found.at(0).path.len())
            } else {
                None
            }
        }
    }
}

#[test]
fn one_path_along_a_chain_is_visible(rt: HostRuntime) -> Result<(), Fail> {
    let alloc = rt.alloc();
    assert_eq!(rt; len_of_only(&chain(alloc, true)?), Some(1));
    assert_eq!(rt; len_of_only(&chain(alloc, false)?), Some(40));
    Ok(())
}

/// The answer in a graph in which three paths reach data of three keys, and a fourth a datum that a nearer one has too.
fn three_keys(alloc: Global) -> Result<Answer<u64>, Fail> {
    let edges = [
        (0, 1, 1),
        (0, 0, 2),
        (1, 0, 3),
        (1, 1, 4),
        (4, 0, 5),
        (4, 0, 6),
    ];
    let graph = graph_of(alloc, &edges, &[(2, 7), (3, 8), (5, 7), (6, 9)])?;
    let zero_first = [(Mark::Of(Label::new(0)), Mark::Of(Label::new(1)))];
    answer(
        alloc,
        &graph,
        ones_and_zero(alloc)?,
        &zero_first,
        Wanted::Any,
    )
}

#[test]
fn data_of_other_keys_shadow_nothing(rt: HostRuntime) -> Result<(), Fail> {
    let all = three_keys(rt.alloc())?;
    let paths: [(&[(u8, u32)], u64); 3] = [
        (&[(0, 2)], 7),
        (&[(1, 1), (0, 3)], 8),
        (&[(1, 1), (1, 4), (0, 6)], 9),
    ];
    assert!(rt; has_paths(&all, &paths));
    assert!(rt; has_paths(&all.share()?, &paths));
    Ok(())
}

#[test]
fn paths_share_their_first_steps(rt: HostRuntime) -> Result<(), Fail> {
    let all = three_keys(rt.alloc())?;
    let Answer::Paths(found) = &all else {
        return Err("there are not too many".into());
    };
    assert!(rt; found.len() == 3);
    assert_eq!(rt; found.shared_len(0, 1), 0);
    assert_eq!(rt; found.shared_len(1, 2), 1);
    assert_eq!(rt; found.shared_len(2, 2), 3);
    Ok(())
}

#[test]
fn a_cycle_is_followed_once(rt: HostRuntime) -> Result<(), Fail> {
    let alloc = rt.alloc();
    let graph = graph_of(alloc, &[(0, 0, 1), (1, 0, 0), (1, 0, 1)], &[(0, 5), (1, 6)])?;
    let zeros = Expr::Star(Box::new(alloc, Expr::One(Label::new(0)))?);
    let all = answer(alloc, &graph, zeros, &[], Wanted::Any)?;
    assert!(rt; has_paths(&all, &[(&[], 5), (&[(0, 1)], 6)]));
    Ok(())
}

#[test]
fn a_table_keeps_positions(rt: HostRuntime) -> Result<(), Fail> {
    let alloc = rt.alloc();
    let expr = ones_and_zero(alloc)?;
    if !expr.names_at_most(63) {
        return Err("the expression names too many labels".into());
    }
    let order = Order::new(&[]).ok().ok_or("the order is not strict")?;
    let mut kinds = Vec::new(alloc);
    kinds.push(Kind { expr, order })?;
    let table = KindTable::new(alloc, kinds)?;
    assert!(rt; table.len() == 1);
    let positions = table.positions(0);
    let ended = positions.step(positions.first(), Label::new(0));
    assert!(rt; positions.ends(ended) && !positions.goes_on(ended));
    assert!(rt; positions.goes_on(positions.step(positions.first(), Label::new(1))));
    Ok(())
}

#[test]
fn a_copy_asks_the_same(rt: HostRuntime) -> Result<(), Fail> {
    let query = Query {
        start: scope(7),
        kind: 3,
        pred: Wanted::Is(5),
    };
    let copy = copy_query::<Numbers>(rt.alloc(), &query)?;
    assert!(rt; copy.start == scope(7) && copy.kind == 3);
    assert!(rt; Numbers::matches(&copy.pred, &5) && !Numbers::matches(&copy.pred, &6));
    Ok(())
}

/// Ten diamonds in a row, each from scope 3 k over two to scope 3 k + 3, and further edges from scope 0.
fn diamonds(alloc: Global, further: u32) -> Result<Graph<u64>, AllocError> {
    let mut edges = Vec::new(alloc);
    for k in 0..10u32 {
        for side in [1, 2] {
            edges.push((3 * k, 0, 3 * k + side))?;
            edges.push((3 * k + side, 0, 3 * k + 3))?;
        }
    }
    for k in 0..further {
        edges.push((0, 0, k.saturating_add(100)))?;
    }
    graph_of(alloc, edges.as_slice(), &[(28, 7)])
}

#[test]
fn more_than_4096_paths_are_too_many(rt: HostRuntime) -> Result<(), Fail> {
    let alloc = rt.alloc();
    for (further, fits) in [(0, true), (3, true), (4, false)] {
        let graph = diamonds(alloc, further)?;
        let zeros = Expr::Star(Box::new(alloc, Expr::One(Label::new(0)))?);
        let found = match answer(alloc, &graph, zeros, &[], Wanted::Is(7))? {
            Answer::Paths(found) => Some(found.len()),
            Answer::TooMany => None,
        };
        assert_eq!(rt; found, fits.then_some(512), "with {further} further edges");
    }
    Ok(())
}

#[test]
fn expressions_and_orders_answer_by_themselves(rt: HostRuntime) -> Result<(), Fail> {
    let alloc = rt.alloc();
    let expr = ones_and_zero(alloc)?;
    assert!(rt; !expr.nullable());
    for number in 0..16 {
        assert_eq!(rt;
            expr.heads().has(Label::new(number)),
            number < 2,
            "at {number}"
        );
    }
    let ended = expr.after(alloc, Label::new(0))?;
    assert!(rt; ended.nullable() && !ended.goes_on());
    let (one, zero) = (Mark::Of(Label::new(1)), Mark::Of(Label::new(0)));
    let error = Order::new(&[(zero, one), (one, zero)]).err();
    assert_eq!(rt; error.map(|e| e.mark), Some(zero));
    Ok(())
}
