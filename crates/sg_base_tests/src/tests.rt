//! Small graphs, paths and sets of labels, with answers worked out by hand.

ghost use Rattle.std.specs.Prelude.{◌<◌};

use sg_base::{Graph, Instance, Label, LabelSet, Mark, Path, PathTree, Scope, Step};
use std::alloc::{AllocError, Global};
use std::cmp::Ordering;
use std::test::Fail;

fn scope(serial: u32) -> Scope {
    Scope { unit: 0, serial }
}

/// Adds an edge by label 3 from scope 0, where both scopes are there.
fn put_edge(graph: &mut Graph<u64>, to: u32) -> Result<(), AllocError> {
    let (from, to) = (scope(0), scope(to));
    if graph.has_scope(from) && graph.has_scope(to) {
        graph.add_edge(from, Label::new(3), to)?;
    }
    Ok(())
}

/// Adds three scopes and two edges, one of each twice.
fn fill(graph: &mut Graph<u64>) -> Result<(), AllocError> {
    for serial in &[2, 0, 1, 2] {
        graph.add_scope(scope(*serial))?;
    }
    for to in &[2, 1, 2] {
        put_edge(graph, *to)?;
    }
    Ok(())
}

/// Whether a graph has these scopes and edges.
fn is_filled(graph: &Graph<u64>) -> bool {
    graph.scopes() == [scope(0), scope(1), scope(2)].as_slice()
        && graph.edges_of(scope(0), Label::new(3)) == [scope(1), scope(2)].as_slice()
        && graph.edges_of(scope(0), Label::new(4)).is_empty()
        && graph.edges_of(scope(1), Label::new(3)).is_empty()
}

#[test]
fn a_graph_is_a_set_of_scopes_and_edges(rt: HostRuntime) -> Result<(), Fail> {
    let mut graph = Graph::<u64>::new(rt.alloc());
    fill(&mut graph)?;
    assert!(rt; is_filled(&graph));
    Ok(())
}

/// Gives a scope a datum, where it is there and has none, and tells whether it did.
fn put_datum(graph: &mut Graph<u64>, s: Scope, datum: u64) -> Result<bool, AllocError> {
    if graph.has_scope(s) {
        match graph.datum(s) {
            None => {
                graph.set_datum(s, datum)?;
                return Ok(true);
            }
            Some(_) => {}
        }
    }
    Ok(false)
}

/// The datum of a scope.
fn datum_of(graph: &Graph<u64>, s: Scope) -> Option<u64> {
    if graph.has_scope(s) {
        graph.datum(s).copied()
    } else {
        None
    }
}

#[test]
fn a_scope_keeps_its_datum(rt: HostRuntime) -> Result<(), Fail> {
    let mut graph = Graph::<u64>::new(rt.alloc());
    graph.add_scope(scope(0))?;
    graph.add_scope(scope(1))?;
    assert!(rt; put_datum(&mut graph, scope(1), 7)?);
    assert_eq!(rt; datum_of(&graph, scope(1)), Some(7));
    assert_eq!(rt; datum_of(&graph, scope(0)), None);
    Ok(())
}

/// The labels and ends of a path's steps.
type Steps = &'static [(u8, u32)];

const SHORT: Steps = &[(1, 5)];

const LONG: Steps = &[(1, 5), (0, 0)];

const OTHER: Steps = &[(1, 6)];

/// A path with these steps.
fn path(alloc: Global, start: u32, steps: Steps) -> Result<Path, AllocError> {
    let mut made = Vec::new(alloc);
    for (label, to) in steps {
        if *label < 16 {
            made.push(Step {
                label: Label::new(*label),
                to: scope(*to),
            })?;
        }
    }
    Ok(Path::new(scope(start), made))
}

/// Two paths from one scope, and how the first stands to the second.
const ORDERS: [(Steps, Steps, Ordering); 4] = [
    (SHORT, LONG, Ordering::Less),
    (OTHER, LONG, Ordering::Greater),
    (SHORT, SHORT, Ordering::Equal),
    (SHORT, OTHER, Ordering::Less),
];

/// Whether a path stands so to another.
fn stands(p: &Path, q: &Path, order: Ordering) -> bool {
    p.cmp(q) == order
        && (p == q) == (order == Ordering::Equal)
        && (p < q) == (order == Ordering::Less)
}

/// The first of the paths that stands otherwise.
fn wrong_order(alloc: Global) -> Result<Option<usize>, AllocError> {
    for (at, (p, q, order)) in ORDERS.iter().enumerate() {
        if !stands(&path(alloc, 0, p)?, &path(alloc, 0, q)?, *order) {
            return Ok(Some(at));
        }
    }
    Ok(None)
}

/// The starts and steps of paths, and where each ends.
const ENDS: [(u32, Steps, u32); 3] = [(0, LONG, 0), (0, OTHER, 6), (4, &[], 4)];

/// The first of the paths that ends elsewhere.
fn wrong_end(alloc: Global) -> Result<Option<usize>, AllocError> {
    for (at, (start, steps, end)) in ENDS.iter().enumerate() {
        if path(alloc, *start, steps)?.end() != scope(*end) {
            return Ok(Some(at));
        }
    }
    Ok(None)
}

#[test]
fn paths_are_ordered_step_by_step(rt: HostRuntime) -> Result<(), Fail> {
    assert_eq!(rt; wrong_order(rt.alloc())?, None);
    assert_eq!(rt; wrong_end(rt.alloc())?, None);
    Ok(())
}

/// The paths of a tree: where each goes on, and its last scope.
const NODES: [(usize, u32); 7] = [(0, 1), (1, 2), (0, 3), (2, 4), (1, 5), (0, 1), (6, 2)];

/// Adds paths to a tree.
fn grow(tree: &mut PathTree) -> Result<(), AllocError> {
    for (parent, to) in &NODES {
        if *parent < tree.len() {
            let label = Label::new(1);
            let to = scope(*to);
            tree.push(*parent, Step { label, to })?;
        }
    }
    Ok(())
}

/// Two paths of the tree, how the first stands to the second, and how many steps they share.
const PAIRS: [(usize, usize, Ordering, usize); 8] = [
    (4, 5, Ordering::Less, 1),
    (3, 4, Ordering::Greater, 0),
    (2, 4, Ordering::Less, 2),
    (4, 0, Ordering::Greater, 0),
    (2, 2, Ordering::Equal, 2),
    (7, 4, Ordering::Less, 2),
    (7, 5, Ordering::Less, 1),
    (2, 7, Ordering::Equal, 2),
];

/// Whether two paths of a tree stand so to each other.
fn is_pair(tree: &PathTree, p: usize, q: usize, order: Ordering, shared: usize) -> bool {
    p < tree.len()
        && q < tree.len()
        && tree.compare(p, q) == order
        && tree.shared_len(p, q) == shared
}

/// The first of the pairs that stand otherwise.
fn wrong_pair(tree: &PathTree) -> Option<(usize, usize)> {
    for (p, q, order, shared) in &PAIRS {
        if !is_pair(tree, *p, *q, *order, *shared) {
            return Some((*p, *q));
        }
    }
    None
}

/// Whether the steps of a path end so.
fn end_at(steps: &[Step], ends: &[u32]) -> bool {
    if steps.len() != ends.len() {
        return false;
    }
    for i in 0..ends.len() {
        if steps[i].to != scope(ends[i]) {
            return false;
        }
    }
    true
}

/// Whether a path of a tree starts at scope 0, and its steps end so.
fn is_path(alloc: Global, tree: &PathTree, p: usize, ends: &[u32]) -> Result<bool, AllocError> {
    if p >= tree.len() {
        return Ok(false);
    }
    let path = tree.path(p).path(alloc)?;
    Ok(path.start() == scope(0) && end_at(path.steps(), ends))
}

#[test]
fn paths_of_a_tree_share_their_fronts(rt: HostRuntime) -> Result<(), Fail> {
    let mut tree = PathTree::new(rt.alloc(), scope(0));
    grow(&mut tree)?;
    assert_eq!(rt; wrong_pair(&tree), None);
    assert!(rt; is_path(rt.alloc(), &tree, 4, &[1, 2, 4])?);
    Ok(())
}

/// Numbers of labels, and whether each is in the one set and in the other.
const LABELS: [(u8, bool, bool); 4] = [
    (0, false, true),
    (2, true, true),
    (3, false, false),
    (15, true, true),
];

/// The first of the labels of which it is otherwise.
fn wrong_label(set: LabelSet, both: LabelSet) -> Option<u8> {
    for (number, in_set, in_both) in &LABELS {
        if *number < 16 {
            let label = Label::new(*number);
            if set.has(label) != *in_set || both.has(label) != *in_both {
                return Some(*number);
            }
        }
    }
    None
}

#[test]
fn a_set_has_the_labels_put_in(rt: HostRuntime) {
    let set = LabelSet::none().with(Label::new(15)).with(Label::new(2));
    let both = set.union(LabelSet::none().with(Label::new(0)));
    assert_eq!(rt; wrong_label(set, both), None);
    assert!(rt; Mark::End < Mark::Of(Label::new(0)));
}

/// A number that is wanted, or any.
#[derive(Drop)]
enum Wanted {
    Is(u64),
    Any,
}

/// Data that are numbers, each its own key.
struct Numbers;

impl Instance for Numbers {
    ghost use Rattle.std.specs.Prelude.{◌≡◌, ◌==◌, nat_eq, Bool, true, IsTrue, ℕ, Option, Some, None, refl};
    ghost use Rattle.std.proofs.Common.{sym, ◌∙◌, eq-eqb, eqb-true, arith};
    ghost use Rattle.std.proofs.lemmas.Bool.Decides.{nat_tests};
    ghost use Rattle.sg_base_tests.specs.declared.tests.Wanted.TheVariants.{Is, Any};

    type Datum = u64;

    type Pred = Wanted;

    ghost wants = { λ p d. elim p [ Is n ↦ n == d | Any ↦ true ] };

    ghost same_datum = { λ a b. a == b };

    ghost pred_key = { λ p. elim p [ Is n ↦ Some n | Any ↦ None ] };

    ghost datum_key = { λ d. d };

    fn matches(p: &Wanted, d: &u64) -> bool {
        match p {
            Wanted::Is(n) => *n == *d,
            Wanted::Any => true,
        }
    }

    fn same(a: &u64, b: &u64) -> bool {
        *a == *b
    }

    fn key_of_pred(p: &Wanted) -> Option<u64> {
        match p {
            Wanted::Is(n) => Some(*n),
            Wanted::Any => None,
        }
    }

    fn key_of_datum(d: &u64) -> u64 {
        *d
    }

    fn copy_datum(_alloc: Global, d: &u64) -> Result<u64, AllocError> {
        Ok(*d)
    }

    fn copy_pred(_alloc: Global, p: &Wanted) -> Result<Wanted, AllocError> {
        match p {
            Wanted::Is(n) => Ok(Wanted::Is(*n)),
            Wanted::Any => Ok(Wanted::Any),
        }
    }

    ghost sameness = { record {
      reflexive = λ a. Prim.grind (arith, nat_tests);
      symmetric = λ a b h. Prim.grind (arith, nat_tests);
      transitive = λ a b c h k. Prim.grind (arith, nat_tests);
    } };

    ghost one_key = { λ a b h. Prim.grind (arith, nat_tests) };

    ghost keyed = { λ p d k. elim p [ Is n ↦ λ e t. Prim.grind (arith, nat_tests) | Any ↦ λ e t. Prim.grind (arith, nat_tests) ] };
}

/// How many of the data a predicate wants.
fn count_wanted<I: Instance>(p: &I::Pred, data: &[I::Datum]) -> usize {
    data.iter().filter(|d| I::matches(p, d)).count()
}

const DATA: [u64; 3] = [7, 8, 7];

/// Whether this is the predicate that wants a 7.
fn is_seven(p: &Wanted) -> bool {
    count_wanted::<Numbers>(p, &DATA) == 2 && Numbers::key_of_pred(p) == Some(7)
}

/// The key of a datum's copy.
fn key_of_copy(alloc: Global, d: u64) -> Result<u64, AllocError> {
    Ok(Numbers::key_of_datum(&Numbers::copy_datum(alloc, &d)?))
}

#[test]
fn numbers_are_an_instance(rt: HostRuntime) -> Result<(), Fail> {
    let seven = Numbers::copy_pred(rt.alloc(), &Wanted::Is(7))?;
    assert!(rt; is_seven(&seven));
    assert_eq!(rt; count_wanted::<Numbers>(&Wanted::Any, &DATA), 3);
    assert_eq!(rt; key_of_copy(rt.alloc(), 8)?, 8);
    assert!(rt; Numbers::same(&7, &7) && !Numbers::same(&7, &8));
    Ok(())
}
