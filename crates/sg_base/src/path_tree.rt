ghost use Rattle.std.specs.Prelude.{◌≡◌, ◌<◌, ◌≤◌, ◌^◌, [], ◌∷◌, ◌++◌, List, length, slice_index_or, IfOk, OnOk, OnErr, MatchOption};
ghost use Rattle.std.specs.Cmp.Lexicographic.{slice_cmp};
ghost use Rattle.sg_base.specs.declared.step.Step.{Step as StepOf};
ghost use Rattle.sg_base.specs.Path.{end_of, shared_len, step_cmp};
ghost use Rattle.sg_base.specs.PathTree.{path_at, path_in, BeginsWith};

use crate::path_node::PathNode;
use crate::path_view::PathView;
use crate::scope::Scope;
use crate::step::Step;
use std::alloc::{AllocError, Global};
use std::cmp::Ordering;
use std::marker::Model;

/// Paths that start at one scope and share their fronts: each but the first is another one with one more step. A path is
/// named by its place, and the first, at place 0, has no step.
#[derive(Debug, Drop)]
pub struct PathTree {
    start: Scope,
    nodes: Vec<PathNode>,
}

impl Model for PathTree {
    ghost use Rattle.sg_base.specs.PathTree.{PathTreeOf, tree_of, AreLaid};

    ghost Value = { PathTreeOf };

    ghost view = { λ t. tree_of t.start t.nodes.items };

    ghost invariant = { λ t. AreLaid t.nodes.items };
}

/// The node at a place of a list of nodes.
fn node_at(nodes: &[PathNode], k: usize) -> PathNode
    requires { k < length nodes.now }
    ensures { result ≡ slice_index_or nodes.now k result }
{
    nodes[k]
}

impl PathTree {
    /// The path with no step alone. Takes no memory.
    pub fn new(alloc: Global, start: Scope) -> PathTree
        ensures { result ≡ record { start = start; paths = [] ∷ [] } }
    {
        PathTree {
            start,
            nodes: Vec::new(alloc),
        }
    }

    /// The scope where the paths start.
    pub fn start(&self) -> Scope
        ensures { result ≡ self.now.start }
    {
        self.start
    }

    /// How many paths there are.
    pub fn len(&self) -> usize
        ensures len { result ≡ length self.now.paths }
        ensures fits { result ≤ 2 ^ 63 }
    {
        self.nodes.len() + 1
    }

    /// The place of the path with no step.
    pub fn first(&self) -> usize
        ensures there { result < length self.now.paths }
        ensures none { path_at self.now.paths result ≡ [] }
    {
        // For the proof alone, which takes from the nodes that the first path is there.
        let _ = &self.nodes;
        0
    }

    /// How many steps the path at a place has.
    pub fn steps_len(&self, place: usize) -> usize
        requires { place < length self.now.paths }
        ensures { result ≡ length (path_at self.now.paths place) }
    {
        if place == 0 {
            0
        } else {
            node_at(self.nodes.as_slice(), place - 1).len
        }
    }

    /// Adds the path at a place with one more step behind the others, and answers its place.
    pub fn push(&mut self, parent: usize, step: Step) -> Result<usize, AllocError>
        requires { parent < length self.old.paths }
        ensures start { self.new.start ≡ self.old.start }
        ensures place { IfOk result (λ place. place ≡ length self.old.paths) }
        ensures ok { OnOk result (self.new.paths ≡ self.old.paths ++ (path_at self.old.paths parent ++ step ∷ []) ∷ []) }
        ensures err { OnErr result (self.new.paths ≡ self.old.paths) }
    {
        let place = self.len();
        let len = self.steps_len(parent) + 1;
        self.nodes.push(PathNode { parent, step, len })?;
        Ok(place)
    }

    /// The last step of the path at a place, and the place of the path in front of it; none where the path has no step.
    pub fn last(&self, place: usize) -> Option<(usize, Step)>
        requires { place < length self.now.paths }
        ensures { MatchOption result (path_at self.now.paths place ≡ []) (λ p. (p.0 < place) × (path_at self.now.paths place ≡ path_at self.now.paths p.0 ++ p.1 ∷ [])) }
    {
        if place == 0 {
            None
        } else {
            let node = node_at(self.nodes.as_slice(), place - 1);
            Some((node.parent, node.step))
        }
    }

    /// The scope where the path at a place ends.
    pub fn end(&self, place: usize) -> Scope
        requires { place < length self.now.paths }
        ensures { result ≡ end_of self.now.start (path_at self.now.paths place) }
    {
        match self.last(place) {
            None => self.start,
            Some((_, step)) => step.to,
        }
    }

    /// The path at a place, which is read where it stands.
    pub fn path(&self, place: usize) -> PathView<'_>
        requires { place < length self.now.paths }
        ensures { result ≡ path_in self.now place }
    {
        PathView::new(self, place)
    }

    /// The place of the front of the path at a place that has so many steps, and the first step behind that front. It
    /// takes the time of the steps behind.
    pub fn front(&self, place: usize, len: usize) -> (usize, Option<Step>)
        requires there { place < length self.now.paths }
        requires within { len ≤ length (path_at self.now.paths place) }
        ensures place { result.0 ≤ place }
        ensures len { length (path_at self.now.paths result.0) ≡ len }
        ensures rest { (rest : List StepOf) × (path_at self.now.paths place ≡ path_at self.now.paths result.0 ++ rest) × BeginsWith rest result.1 }
    {
        let mut at = place;
        let mut next = None;
        while self.steps_len(at) > len {
            if let Some((before, step)) = self.last(at) {
                at = before;
                next = Some(step);
            }
        }
        (at, next)
    }

    /// The order of the steps of two paths of the tree: step by step by label number and target, and a front comes first.
    /// It takes the time of the steps behind their common front.
    pub fn compare(&self, p: usize, q: usize) -> Ordering
        requires first { p < length self.now.paths }
        requires second { q < length self.now.paths }
        ensures { result ≡ slice_cmp step_cmp (path_at self.now.paths p) (path_at self.now.paths q) }
    {
        let m = self.steps_len(p);
        let n = self.steps_len(q);
        let shared = m.min(n);
        let (mut i, _) = self.front(p, shared);
        let (mut j, _) = self.front(q, shared);
        let mut rest = m.cmp(&n);
        while i != j {
            match self.last(i) {
                None => return rest,
                Some((a, x)) => match self.last(j) {
                    None => return rest,
                    Some((b, y)) => {
                        rest = x.cmp(&y).then(rest);
                        i = a;
                        j = b;
                    }
                },
            }
        }
        rest
    }

    /// How many steps are the same at the beginning of two paths of the tree. It takes the time of the steps behind the place
    /// where the paths part in the tree.
    pub fn shared_len(&self, p: usize, q: usize) -> usize
        requires first { p < length self.now.paths }
        requires second { q < length self.now.paths }
        ensures { result ≡ shared_len (path_at self.now.paths p) (path_at self.now.paths q) }
    {
        let len = self.steps_len(p).min(self.steps_len(q));
        let (mut i, _) = self.front(p, len);
        let (mut j, _) = self.front(q, len);
        let mut same = len;
        while i != j {
            match self.last(i) {
                None => return same,
                Some((a, x)) => match self.last(j) {
                    None => return same,
                    Some((b, y)) => {
                        if x != y {
                            same = self.steps_len(a);
                        }
                        i = a;
                        j = b;
                    }
                },
            }
        }
        same
    }
}
