//! Whether nobody holds anything of a held graph.

ghost use Rattle.std.specs.Prelude.{◌≡◌, IsTrue};
ghost use Rattle.std.specs.List.{Contains};
ghost use Rattle.sg_base.specs.declared.scope.Scope.{Scope as ScopeOf};
ghost use Rattle.sg_core.specs.Keep.{IsIdleAt, IsIdle};

use sg_base::{Instance, Label, Scope};
use sg_state::Held;
use std::alloc::Global;

/// Whether nobody holds a row or the datum of a scope, by at most seventeen look-ups.
pub(crate) fn is_idle_at<I: Instance>(held: &Held<I>, s: Scope) -> bool
    ensures { IsTrue result → IsIdleAt held.now s }
{
    for label in 0..16u8 {
        if !held.holders(s, Label::new(label)).is_empty() {
            return false;
        }
    }
    held.datum_holder(s).is_none()
}

/// Whether nobody holds a row or the datum of one of these scopes.
fn are_idle<I: Instance>(held: &Held<I>, scopes: &[Scope]) -> bool
    ensures { IsTrue result → (s : ScopeOf) → Contains scopes.now s → IsIdleAt held.now s }
{
    for s in scopes {
        if !is_idle_at(held, *s) {
            return false;
        }
    }
    true
}

/// Whether nobody holds anything. Costs a copy of the graph, and look-ups at each scope. False where memory is wanting.
pub(crate) fn is_idle<I: Instance>(alloc: Global, held: &Held<I>) -> bool
    ensures { IsTrue result → IsIdle held.now }
{
    let _holder = held.datum_holder(Scope { unit: 0, serial: 0 });
    match held.graph(alloc) {
        Ok(graph) => are_idle(held, graph.scopes()),
        Err(_) => false,
    }
}
