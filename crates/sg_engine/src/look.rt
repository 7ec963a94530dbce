ghost use Rattle.std.specs.Prelude.{◌≡◌, ◌<◌, IsTrue, IsFalse, IfOk, length};
ghost use Rattle.sg_base.specs.declared.scope.Scope.{Scope as ScopeOf};
ghost use Rattle.sg_expr.specs.Tree.{ExprOf};
ghost use Rattle.sg_state.specs.Held.{state_of};
ghost use Rattle.sg_engine.specs.Tree.{place_of, IsTree, AreNodes, BlocksWork, ListsOn};
ghost use Rattle.sg_engine.specs.Run.{HasLooked};

use crate::nodes::Nodes;
use crate::tree::Tree;
use crate::work::Work;
use sg_base::Instance;
use sg_query::MOST_PATHS;
use sg_state::Held;
use std::alloc::AllocError;

/// What a search sees next: that too many of its paths go on, that nothing free is left, or work whose item is not blocked.
#[derive(Clone, Copy, Debug)]
pub enum Look {
    Many,
    Over,
    Free(Work),
}

/// Whether an item's row is open or its datum unset.
fn is_blocked<I: Instance>(nodes: &Nodes, h: &Held<I>, w: &Work) -> bool
    requires there { place_of w.now < length nodes.now.items }
    ensures blocked { (e : ExprOf) (start : ScopeOf) → AreNodes e start nodes.now.items → IsTrue result → BlocksWork (state_of h.now) start nodes.now.items w.now }
    ensures free { (e : ExprOf) (start : ScopeOf) → AreNodes e start nodes.now.items → IsFalse result → BlocksWork (state_of h.now) start nodes.now.items w.now → ⊥ }
{
    match *w {
        Work::Next(k, l) => !h.is_closed(nodes.at(k).step.to, l),
        Work::Whole(k) => h.datum_holder(nodes.at(k).step.to).is_some(),
    }
}

/// Puts aside the work whose items are blocked, up to the first that is not.
pub fn look_on<I: Instance>(tree: &mut Tree<I::Datum>, h: &Held<I>) -> Result<Look, AllocError>
    requires tree { (e : ExprOf) × IsTree e tree.old }
    ensures nodes { tree.new.nodes ≡ tree.old.nodes }
    ensures queue { tree.new.queue ≡ tree.old.queue }
    ensures found { tree.new.found ≡ tree.old.found }
    ensures explored { tree.new.explored ≡ tree.old.explored }
    ensures going { tree.new.going ≡ tree.old.going }
    ensures lists { ListsOn tree.old tree.new }
    ensures looked { IfOk result (HasLooked (state_of h.now) tree.old tree.new) }
{
    if tree.going > MOST_PATHS {
        return Ok(Look::Many);
    }
    while tree.next < tree.queue.len() {
        let w = tree.queue[tree.next];
        if !is_blocked(&tree.nodes, h, &w) {
            return Ok(Look::Free(w));
        }
        tree.blocked.push(w)?;
        tree.next += 1;
    }
    Ok(Look::Over)
}
