ghost use Rattle.std.specs.Prelude.{ℕ, ◌≡◌, ◌+◌, ◌≤◌, ◌<◌, [], ◌∷◌, ◌++◌, ◌↔◌, IfOk, OnOk, length};
ghost use Rattle.std.specs.Arc.{arc_value};
ghost use Rattle.sg_base.specs.Label.{Has, Word};
ghost use Rattle.sg_base.specs.PathTree.{path_at};
ghost use Rattle.sg_expr.specs.Positions.{Accepts, first_of};
ghost use Rattle.sg_expr.specs.Tree.{ExprOf};
ghost use Rattle.sg_expr.specs.Word.{In};
ghost use Rattle.sg_query.specs.Steps.{is_fresh};
ghost use Rattle.sg_engine.specs.Front.{step_to};
ghost use Rattle.sg_engine.specs.Growth.{into_targets};
ghost use Rattle.sg_engine.specs.Nodes.{IsRestAfter};
ghost use Rattle.sg_engine.specs.Tree.{paths_of, OffersOn, IsTree, IsRootOf, GrowsBy, IsFrontOf, ListsOn};

use crate::nodes::Nodes;
use crate::work::Work;
use sg_base::{Label, LabelSet, Scope, Step};
use sg_expr::Positions;
use sg_query::FoundAt;
use std::alloc::{AllocError, Global};
use std::sync::Arc;

/// The paths that a search found, and what it has left: the work that was put aside, and the queue from `next` on.
#[derive(Drop)]
pub struct Tree<D> {
    pub start: Scope,
    pub nodes: Nodes,
    pub blocked: Vec<Work>,
    pub queue: Vec<Work>,
    pub next: usize,
    pub found: Vec<FoundAt<D>>,
    pub explored: u128,
    pub going: usize,
}

/// The first labels of the words of a set, which are looked for only where the words go on.
fn heads_of(words: &Positions, set: u64) -> LabelSet
    ensures { (l : ℕ) → (Has result l) ↔ ((w : Word) × Accepts words.now set (l ∷ w)) }
{
    if words.goes_on(set) {
        words.heads(set)
    } else {
        LabelSet::none()
    }
}

/// Adds what the path of a node offers. Looks at the labels only where the words go on.
fn push_offers(
    words: &Positions,
    set: u64,
    place: usize,
    queue: &mut Vec<Work>,
) -> Result<(), AllocError>
    ensures offers { OnOk result (OffersOn (record { words = words.now; set = set }) place queue.old.items queue.new.items) }
    ensures lists { IsFrontOf queue.old.items queue.new.items }
{
    let heads = heads_of(words, set);
    if words.goes_on(set) {
        for n in 0..16 {
            let l = Label::new(n);
            if heads.has(l) {
                queue.push(Work::Next(place, l))?;
            }
        }
    }
    if words.ends(set) {
        queue.push(Work::Whole(place))?;
    }
    Ok(())
}

impl<D> Tree<D> {
    /// The tree of the path with no step, which all words of the positions follow.
    pub fn root(
        alloc: Global,
        start: Scope,
        words: Arc<Positions, Global>,
    ) -> Result<Tree<D>, AllocError>
        ensures start { IfOk result (λ t. t.start ≡ start) }
        ensures tree { (e : ExprOf) → ((w : Word) → (Accepts (arc_value words) (first_of (arc_value words)) w) ↔ (In e w)) → IfOk result (IsRootOf e) }
    {
        let label = Label::new(0);
        let set = words.first();
        let mut queue = Vec::new(alloc);
        push_offers(&words, set, 0, &mut queue)?;
        let going = if words.goes_on(set) { 1 } else { 0 };
        let nodes = Nodes::root(alloc, Step { label, to: start }, words)?;
        Ok(Tree {
            start,
            nodes,
            blocked: Vec::new(alloc),
            queue,
            next: 0,
            found: Vec::new(alloc),
            explored: 0,
            going,
        })
    }

    /// Adds a path with one more step, which the words of this set follow, and what it offers.
    pub fn push_node(
        &mut self,
        parent: usize,
        l: Label,
        to: Scope,
        set: u64,
    ) -> Result<(), AllocError>
        requires there { parent < length self.old.nodes.items }
        requires few { self.old.going ≤ length self.old.nodes.items }
        requires after { IsRestAfter self.old.nodes parent l set }
        ensures tree { GrowsBy self.old self.new ((path_at (paths_of self.old.nodes.items) parent ++ step_to l to ∷ []) ∷ []) result }
        ensures next { self.new.next ≡ self.old.next }
        ensures explored { self.new.explored ≡ self.old.explored }
        ensures blocked { self.new.blocked ≡ self.old.blocked }
        ensures words { self.new.nodes.words ≡ self.old.nodes.words }
        ensures lists { ListsOn self.old self.new }
        ensures more { OnOk result ((length self.old.nodes.items < length self.new.nodes.items) × (self.new.going ≤ length self.new.nodes.items)) }
    {
        let words = self.nodes.words();
        push_offers(words, set, self.nodes.len(), &mut self.queue)?;
        if words.goes_on(set) {
            self.going += 1;
        }
        self.nodes.push(parent, Step { label: l, to }, set)?;
        Ok(())
    }

    /// Whether the path of a node passes by the scope nowhere. A look-up where no path goes on from the scope; otherwise, and
    /// where there are few paths, a walk up the node's parents, which takes the time of the path's length.
    pub fn is_fresh_at(&self, place: usize, t: Scope) -> bool
        requires tree { (e : ExprOf) × IsTree e self.now }
        requires there { place < length self.now.nodes.items }
        ensures { result ≡ is_fresh self.now.start (path_at (paths_of self.now.nodes.items) place) t }
    {
        if !self.nodes.may_pass(place, t) {
            return t != self.start;
        }
        let mut k = place;
        while k != 0 {
            let node = self.nodes.at(k);
            if node.step.to == t {
                return false;
            }
            k = node.parent;
        }
        t != self.start
    }

    /// Adds the paths of a node with one more step to scopes, which the words of this set follow.
    pub fn push_targets(
        &mut self,
        row: &[Scope],
        place: usize,
        l: Label,
        set: u64,
    ) -> Result<(), AllocError>
        requires tree { (e : ExprOf) × IsTree e self.old }
        requires there { place < length self.old.nodes.items }
        requires after { IsRestAfter self.old.nodes place l set }
        ensures tree { GrowsBy self.old self.new (into_targets self.old.start (path_at (paths_of self.old.nodes.items) place) l row.now) result }
        ensures next { self.new.next ≡ self.old.next }
        ensures explored { self.new.explored ≡ self.old.explored }
        ensures blocked { self.new.blocked ≡ self.old.blocked }
        ensures words { self.new.nodes.words ≡ self.old.nodes.words }
        ensures lists { ListsOn self.old self.new }
    {
        for t in row {
            if self.is_fresh_at(place, *t) {
                self.push_node(place, l, *t, set)?;
            }
        }
        Ok(())
    }
}
