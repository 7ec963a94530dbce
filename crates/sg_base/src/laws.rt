//! Laws of scope states, each the contract of a function that does nothing.

ghost use Rattle.sg_base.specs.State.{ExtendsChains, FollowsChains};

use crate::instance::Instance;

/// What extends or follows a later state extends or follows each state before it.
pub fn extensions_chain<I: Instance>()
    ensures graph { ExtendsChains I.Datum }
    ensures state { FollowsChains I.Datum }
{}
