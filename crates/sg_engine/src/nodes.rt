ghost use Rattle.std.specs.Prelude.{false, ◌≡◌, ◌<◌, ◌^◌, ◌⊎◌, [], ◌∷◌, ◌++◌, length, map, take, slice_index_or, IfOk, OnOk, OnErr};
ghost use Rattle.std.specs.Arc.{arc_value};
ghost use Rattle.sg_expr.specs.Positions.{PositionsOf, first_of};
ghost use Rattle.sg_engine.specs.Nodes.{NodeOf, node_by, IsRestAfter, AreFew, IsPassed, StayPassed, EndsPass, HasPassed, EndElsewhere};

use sg_base::{Label, Scope, Step};
use sg_expr::Positions;
use std::alloc::{AllocError, Global};
use std::collections::HashSet;
use std::marker::Model;
use std::sync::Arc;

/// Up to how many paths there is no set of passed scopes, since a walk up a path costs less.
const FEW_NODES: usize = 32;

/// A path as another path with one more step, by the place of that path's node, and the set of positions whose words may
/// follow its word.
#[derive(Clone, Copy, Debug)]
pub struct Node {
    pub parent: usize,
    pub step: Step,
    pub set: u64,
}

/// Paths that share their fronts, each with the words that may follow its word. The first node stands for the path with no
/// step, and its step ends at the start. Once there are more than a few, each scope that a path goes on from is `passed`, and
/// `last` was put there last; until then no set is made.
#[derive(Drop)]
pub struct Nodes {
    words: Arc<Positions, Global>,
    nodes: Vec<Node>,
    passed: HashSet<Scope>,
    last: Scope,
}

impl Model for Nodes {
    ghost use Rattle.std.specs.Prelude.{map};
    ghost use Rattle.std.specs.Arc.{arc_value};
    ghost use Rattle.sg_engine.specs.Nodes.{NodesOf, node_by, ArePassed};

    ghost Value = { NodesOf };

    ghost view = { λ n. record { words = arc_value n.words; items = map (node_by (arc_value n.words)) n.nodes.items } };

    ghost invariant = { λ n. ArePassed n.passed.keys n.last (map (node_by (arc_value n.words)) n.nodes.items) };
}

/// Puts a scope among those that are passed, unless it was put there last. After want of memory they are what they were.
fn pass_one(passed: &mut HashSet<Scope>, last: &mut Scope, from: Scope) -> Result<(), AllocError>
    requires { IsPassed passed.old.keys last.old }
    ensures stay { StayPassed passed.old.keys passed.new.keys }
    ensures last { IsPassed passed.new.keys last.new }
    ensures ok { OnOk result (IsPassed passed.new.keys from) }
{
    if from != *last {
        passed.insert(from)?;
        *last = from;
    }
    Ok(())
}

/// Puts the scopes where nodes end among those that are passed, and a scope last.
fn pass_all(
    passed: &mut HashSet<Scope>,
    last: &mut Scope,
    nodes: &[Node],
    from: Scope,
) -> Result<(), AllocError>
    ensures stay { StayPassed passed.old.keys passed.new.keys }
    ensures last { OnOk result (IsPassed passed.new.keys last.new) }
    ensures from { OnOk result (IsPassed passed.new.keys from) }
    ensures ends { OnOk result (EndsPass passed.new.keys nodes.now) }
{
    for node in nodes {
        passed.insert(node.step.to)?;
    }
    passed.insert(from)?;
    *last = from;
    Ok(())
}

/// Puts a scope from which a path goes on among those that are passed, before that path is added to these nodes: none while
/// there are few, and the ends of all of them with the first that is no longer one of a few.
fn pass(
    passed: &mut HashSet<Scope>,
    last: &mut Scope,
    nodes: &[Node],
    from: Scope,
) -> Result<(), AllocError>
    requires { AreFew nodes.now ⊎ IsPassed passed.old.keys last.old }
    ensures stay { StayPassed passed.old.keys passed.new.keys }
    ensures last { AreFew nodes.now ⊎ IsPassed passed.new.keys last.new }
    ensures ok { (words : PositionsOf) → OnOk result (HasPassed passed.new.keys last.new from (map (node_by words) nodes.now)) }
{
    if nodes.len() > FEW_NODES {
        return pass_one(passed, last, from);
    }
    if nodes.len() == FEW_NODES {
        return pass_all(passed, last, nodes, from);
    }
    Ok(())
}

impl Nodes {
    /// The path with no step, by a step that ends at the start, and the words that follow it: all words of the positions.
    pub fn root(
        alloc: Global,
        step: Step,
        words: Arc<Positions, Global>,
    ) -> Result<Nodes, AllocError>
        ensures words { IfOk result (λ n. n.words ≡ arc_value words) }
        ensures items { IfOk result (λ n. n.items ≡ record { parent = 0; step = step; rest = record { words = arc_value words; set = first_of (arc_value words) } } ∷ []) }
    {
        let last = step.to;
        let set = words.first();
        let mut nodes = Vec::new(alloc);
        nodes.push(Node {
            parent: 0,
            step,
            set,
        })?;
        Ok(Nodes {
            words,
            nodes,
            passed: HashSet::new(alloc),
            last,
        })
    }

    /// How many paths there are.
    pub fn len(&self) -> usize
        ensures len { result ≡ length self.now.items }
        ensures fits { result < 2 ^ 63 }
    {
        self.nodes.len()
    }

    /// The node at a place.
    pub fn at(&self, place: usize) -> &Node
        requires { place < length self.now.items }
        ensures { (n : NodeOf) × (n ≡ slice_index_or self.now.items place n) × (result.now.parent ≡ n.parent) × (result.now.step ≡ n.step) }
    {
        &self.nodes[place]
    }

    /// Whether the node at a place ends at the scope, or the scope was passed; always where there are few nodes. Takes
    /// constant time, as is expected of a hash.
    pub fn may_pass(&self, place: usize, t: Scope) -> bool
        requires { place < length self.now.items }
        ensures { result ≡ false → EndElsewhere self.now.items place t }
    {
        if self.nodes.len() <= FEW_NODES {
            return true;
        }
        self.nodes[place].step.to == t || self.passed.contains(&t)
    }

    /// The positions of the words that are followed.
    pub fn words(&self) -> &Positions
        ensures { result.now ≡ self.now.words }
    {
        &self.words
    }

    /// The set of positions whose words follow a path over a label, in the time of the path's own set.
    pub fn set_after(&self, place: usize, l: Label) -> u64
        requires { place < length self.now.items }
        ensures { IsRestAfter self.now place l result }
    {
        self.words.step(self.nodes[place].set, l)
    }

    /// Adds a path with one more step, which the words of this set follow. Unless there are few, the scope that it goes on
    /// from is passed then.
    pub fn push(&mut self, parent: usize, step: Step, set: u64) -> Result<(), AllocError>
        requires { parent < length self.old.items }
        ensures words { self.new.words ≡ self.old.words }
        ensures ok { OnOk result (self.new.items ≡ self.old.items ++ record { parent = parent; step = step; rest = record { words = self.old.words; set = set } } ∷ []) }
        ensures err { OnErr result (self.new.items ≡ self.old.items) }
    {
        let from = self.nodes[parent].step.to;
        let nodes = self.nodes.as_slice();
        pass(&mut self.passed, &mut self.last, nodes, from)?;
        self.nodes.push(Node { parent, step, set })?;
        Ok(())
    }

    /// Takes back all paths but the first ones. Scopes that were passed stay.
    pub fn truncate(&mut self, len: usize)
        ensures words { self.new.words ≡ self.old.words }
        ensures items { self.new.items ≡ take len self.old.items }
    {
        self.nodes.truncate(len);
    }
}
