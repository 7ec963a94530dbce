//! Small orders, and paths that they compare.

ghost use Rattle.std.specs.Prelude.{◌≡◌, ◌<◌};

use crate::Order;
use sg_base::{Label, Mark, Path, PathTree, Scope, Step};
use std::alloc::{AllocError, Global};
use std::test::Fail;

fn of(number: u8) -> Mark
    requires { number < 16 }
{
    Mark::Of(Label::new(number))
}

/// The path from one scope over a label to a target, and from there over a second label.
fn path(alloc: Global, first: (u8, u32), second: Option<u8>) -> Result<Path, AllocError> {
    let to = Scope {
        unit: 0,
        serial: first.1,
    };
    let mut steps = Vec::new(alloc);
    steps.push(Step {
        label: Label::new(first.0 % 16),
        to,
    })?;
    if let Some(number) = second {
        if number < 16 {
            steps.push(Step {
                label: Label::new(number),
                to: Scope { unit: 9, serial: 9 },
            })?;
        }
    }
    Ok(Path::new(Scope { unit: 0, serial: 0 }, steps))
}

/// The order of these pairs.
fn order_of(pairs: &[(Mark, Mark)]) -> Result<Order, Fail> {
    match Order::new(pairs) {
        Ok(order) => Ok(order),
        Err(_) => Err(Fail::new("not strict")),
    }
}

/// The mark that comes before itself, where pairs make no order.
fn mark_of_loop(pairs: &[(Mark, Mark)]) -> Option<Mark> {
    match Order::new(pairs) {
        Ok(_) => None,
        Err(error) => Some(error.mark),
    }
}

/// Whether an order has what follows from 1 before 2 and the end before 1, and nothing else that is looked at.
fn is_closed(order: &Order) -> bool {
    !order.is_empty()
        && order.before(Mark::End, of(2))
        && order.before(of(1), of(2))
        && !order.before(of(2), Mark::End)
        && !order.before(of(0), of(1))
}

#[test]
fn an_order_is_closed_and_strict(rt: HostRuntime) -> Result<(), Fail> {
    assert_eq!(rt;
        mark_of_loop(&[(of(0), of(1)), (of(1), of(0))]),
        Some(of(0))
    );
    assert!(rt; is_closed(&order_of(&[(of(1), of(2)), (Mark::End, of(1))])?));
    assert!(rt; order_of(&[])?.is_empty());
    Ok(())
}

/// The order in which the end is before 0, and 0 before 1.
fn end_zero_one() -> Result<Order, Fail> {
    order_of(&[(of(0), of(1)), (Mark::End, of(0))])
}

/// The first step of a path, its second label, the same of another path, and whether the first path is before the other.
type Paths = ((u8, u32), Option<u8>, (u8, u32), Option<u8>, bool);

const PATHS: [Paths; 6] = [
    ((0, 5), None, (1, 6), None, true),
    ((1, 6), None, (0, 5), None, false),
    ((0, 5), None, (0, 6), None, false),
    ((0, 5), None, (0, 5), Some(1), true),
    ((0, 5), Some(0), (0, 5), Some(1), true),
    ((0, 5), Some(1), (0, 6), Some(0), false),
];

/// Whether a path is before another, where both have one start.
fn is_before(order: &Order, p: &Path, q: &Path) -> bool {
    p.start() == q.start() && order.path_before(p, q)
}

/// The first of the paths that stand otherwise.
fn wrong_paths(alloc: Global, order: &Order) -> Result<Option<usize>, AllocError> {
    for (at, (first, then, other, other_then, before)) in PATHS.iter().enumerate() {
        let p = path(alloc, *first, *then)?;
        let q = path(alloc, *other, *other_then)?;
        if is_before(order, &p, &q) != *before {
            return Ok(Some(at));
        }
    }
    Ok(None)
}

#[test]
fn paths_are_compared_where_they_part(rt: HostRuntime) -> Result<(), Fail> {
    let order = end_zero_one()?;
    assert_eq!(rt; wrong_paths(rt.alloc(), &order)?, None);
    Ok(())
}

/// The paths of a tree: where each goes on, its last label and its last scope.
const NODES: [(usize, u8, u32); 7] = [
    (0, 0, 1),
    (0, 1, 2),
    (0, 0, 3),
    (1, 0, 4),
    (1, 1, 5),
    (3, 1, 6),
    (2, 0, 7),
];

/// Adds paths to a tree.
fn grow(tree: &mut PathTree) -> Result<(), AllocError> {
    for (parent, number, serial) in &NODES {
        if *parent < tree.len() {
            let label = Label::new(*number % 16);
            let to = Scope {
                unit: 0,
                serial: *serial,
            };
            tree.push(*parent, Step { label, to })?;
        }
    }
    Ok(())
}

/// Two paths of the tree, and whether the first is before the second.
const PLACES: [(usize, usize, bool); 13] = [
    (1, 2, true),
    (2, 1, false),
    (1, 3, false),
    (0, 1, true),
    (1, 0, false),
    (1, 5, true),
    (5, 1, false),
    (4, 5, true),
    (4, 6, false),
    (5, 7, true),
    (7, 5, false),
    (4, 2, true),
    (4, 4, false),
];

/// The first of the paths that stand otherwise.
fn wrong_places(order: &Order, tree: &PathTree) -> Option<(usize, usize)> {
    for (p, q, before) in &PLACES {
        if *p >= tree.len() || *q >= tree.len() || order.place_before(tree, *p, *q) != *before {
            return Some((*p, *q));
        }
    }
    None
}

#[test]
fn places_are_compared_where_they_part(rt: HostRuntime) -> Result<(), Fail> {
    let order = end_zero_one()?;
    let mut tree = PathTree::new(rt.alloc(), Scope { unit: 0, serial: 0 });
    grow(&mut tree)?;
    assert_eq!(rt; wrong_places(&order, &tree), None);
    Ok(())
}
