ghost use Rattle.std.specs.Prelude.{◌≡◌, ◌≤◌, ◌<◌, [], Some, None, IsSome, IfOk, OnErr, length};
ghost use Rattle.sg_base.specs.Graph.{HasScope};
ghost use Rattle.sg_base.specs.State.{State};
ghost use Rattle.sg_query.specs.Query.{asked};
ghost use Rattle.sg_state.specs.Held.{HeldOf, state_of};
ghost use Rattle.sg_engine.specs.Front.{Stands};
ghost use Rattle.sg_engine.specs.Keyed.{PassesOver, wanting_by};
ghost use Rattle.sg_engine.specs.Search.{IsOfTable, IsProgress, SearchKeepsPassing, ExploresFewer};

use crate::outcome::try_advance;
use crate::progress::Progress;
use crate::tree::Tree;
use sg_base::Instance;
use sg_expr::Expr;
use sg_query::{Answer, KindTable, Query};
use sg_state::{Held, Need};
use std::alloc::{AllocError, Global};
use std::marker::Model;
use std::snapshot::Snapshot;

/// A search for the answer of a query in a held graph, which keeps what it has explored from one advance to the next.
///
/// The paths that it found share their fronts, and each has the set of positions at which its words may go on. An item costs
/// a look-up and what it adds: a node for each new path, and a look-up for each target, with a walk up the path where there
/// are few or some path went on from the target. After want of memory the search is what it was.
#[derive(Drop)]
pub struct Search<I: Instance> {
    alloc: Global,
    query: Query<I::Pred>,
    expr: Snapshot<Expr>,
    tree: Tree<I::Datum>,
    needs: Vec<Need>,
    answer: Option<Answer<I::Datum>>,
}

impl<I: Instance> Model for Search<I> {
    ghost use Rattle.std.specs.Prelude.{◌≡◌};
    ghost use Rattle.std.specs.Coded.{codes};
    ghost use Rattle.sg_expr.specs.Code.{coded_expr};
    ghost use Rattle.sg_expr.specs.Tree.{expr_of};
    ghost use Rattle.sg_engine.specs.Search.{SearchOf};
    ghost use Rattle.sg_engine.specs.Tree.{front_of, IsTree};

    ghost Value = { SearchOf I.Pred I.Datum };

    ghost coded = { Prim.hlevel (codes, coded_expr) };

    ghost view = { λ s. record { query = s.query; expr = expr_of s.expr.value; front = front_of s.tree; needs = s.needs.items; answer = s.answer } };

    ghost invariant = { λ s. IsTree (expr_of s.expr.value) s.tree × (s.query.start ≡ s.tree.start) };
}

impl<I: Instance> Search<I> {
    /// A search that has explored nothing. It stands in each state.
    pub fn start(alloc: Global, t: &KindTable, q: Query<I::Pred>) -> Result<Search<I>, AllocError>
        requires kind { q.kind < length t.now }
        ensures query { IfOk result (λ s. s.query ≡ q) }
        ensures table { IfOk result (IsOfTable t.now) }
        ensures stands { (h : State I.Datum) → IfOk result (λ s. Stands h (asked I.wants I.same_datum t.now q) s.front) }
        ensures keyed { (h : HeldOf I.Datum) → IfOk result (λ s. PassesOver h (wanting_by I.wants I.datum_key I.pred_key q.pred) (asked I.wants I.same_datum t.now q) s.front.paths) }
        ensures none { IfOk result (λ s. (s.front.explored ≡ 0) × (s.needs ≡ []) × (s.answer ≡ None)) }
    {
        let kind = t.kind(q.kind);
        let words = t.share_positions(q.kind)?;
        let tree = Tree::root(alloc, q.start, words)?;
        Ok(Search {
            alloc,
            query: q,
            expr: Snapshot::of(&kind.expr),
            tree,
            needs: Vec::new(alloc),
            answer: None,
        })
    }

    /// Explores up to 64 items in a held graph, by the table of the start.
    ///
    /// Ready where no item is left, or more than 4,096 paths that go on were found: the answer is then built. Otherwise
    /// Moved where 64 items were explored and one is left that is not blocked, and Blocked where each item left is. Where
    /// an earlier advance succeeded, the held graph is what writes made of the one of that advance, and the search still
    /// stands there (`laws::stands_later`, `laws::passes_over_later`).
    ///
    /// Where the predicate has a key and no word goes on behind a label, only the targets under that key and those without a
    /// key are looked at, so that a name in a row of many costs one look-up.
    ///
    /// Costs what each explored item costs, a look-up for each item that is found to be blocked, for Blocked the sorting of
    /// the needs, and for Ready the sorting of the found paths; where the kind's order has a pair, also a comparison of each
    /// found path with its neighbours, and of each two that are left and whose data have one key.
    pub fn advance(&mut self, h: &Held<I>, t: &KindTable) -> Result<Progress, AllocError>
        requires table { IsOfTable t.now self.old }
        requires start { HasScope h.now.graph self.old.query.start }
        requires stands { Stands (state_of h.now) (asked I.wants I.same_datum t.now self.old.query) self.old.front }
        ensures query { self.new.query ≡ self.old.query }
        ensures table { IsOfTable t.now self.new }
        ensures stands { Stands (state_of h.now) (asked I.wants I.same_datum t.now self.old.query) self.new.front }
        ensures progress { IfOk result (IsProgress (state_of h.now) (asked I.wants I.same_datum t.now self.old.query) self.old self.new) }
        ensures keyed { SearchKeepsPassing h.now (wanting_by I.wants I.datum_key I.pred_key) (asked I.wants I.same_datum t.now) self.old self.new }
        ensures fewer { ExploresFewer h.now (wanting_by I.wants I.datum_key I.pred_key) (asked I.wants I.same_datum t.now) self.old self.new result }
        ensures more { self.old.front.explored ≤ self.new.front.explored }
        ensures err { OnErr result (self.new ≡ self.old) }
    {
        // For the proof alone, which takes from this call what holds of each held graph.
        let _holder = h.datum_holder(self.query.start);
        let kind = t.kind(self.query.kind);
        let mark = self.tree.mark();
        let mut spent = None;
        match try_advance::<I>(
            self.alloc,
            &mut self.tree,
            h,
            &self.query.pred,
            &kind.order,
            &mut spent,
        ) {
            Ok(outcome) => {
                self.needs = outcome.needs;
                self.answer = outcome.answer;
                Ok(outcome.progress)
            }
            Err(e) => {
                self.tree.go_back(spent, &mark);
                Err(e)
            }
        }
    }

    /// After an advance that was blocked, the rising list of what blocks the search.
    pub fn needs(&self) -> &[Need]
        ensures { result.now ≡ self.now.needs }
    {
        self.needs.as_slice()
    }

    /// The answer that the advance built which was ready. Takes no memory.
    pub fn into_answer(self) -> Answer<I::Datum>
        requires ready { IsSome self.answer }
        ensures { self.answer ≡ Some result }
    {
        self.answer.unwrap()
    }
}
