//! For each unit the scopes at which it has been given a hold.

ghost use Rattle.std.specs.Prelude.{◌≡◌, ℕ, map, IfOk, OnOk};
ghost use Rattle.std.specs.List.{Contains};
ghost use Rattle.std.specs.Ordering.{nat_cmp};
ghost use Rattle.sg_base.specs.declared.scope.Scope.{Scope as ScopeOf};
ghost use Rattle.sg_base.specs.List.{IsRising};
ghost use Rattle.sg_base.specs.Scope.{scope_cmp};
ghost use Rattle.sg_state.specs.View.{IsListed, KeepsLists};

use crate::scope_list::ScopeList;
use sg_base::Scope;
use std::alloc::{AllocError, Global};
use std::collections::BTreeMap;

/// Notes that a unit has been given a hold at a scope, by a look-up.
pub fn note(
    alloc: Global,
    lists: &mut BTreeMap<u32, ScopeList>,
    unit: u32,
    s: Scope,
) -> Result<(), AllocError>
    requires rising { IsRising nat_cmp (map (λ p. p.0) lists.old.entries) }
    ensures ok { OnOk result (IsListed lists.new.entries unit s) }
    ensures kept { KeepsLists lists.old.entries lists.new.entries }
    ensures rising { IsRising nat_cmp (map (λ p. p.0) lists.new.entries) }
{
    match lists.get_mut(&unit) {
        Some(list) => list.push(s)?,
        None => {
            let mut list = ScopeList::new(alloc);
            list.push(s)?;
            lists.insert(unit, list)?;
        }
    }
    Ok(())
}

/// The scopes at which a unit has been given a hold, by a look-up.
pub fn listed(lists: &BTreeMap<u32, ScopeList>, unit: u32) -> &[Scope]
    requires rising { IsRising nat_cmp (map (λ p. p.0) lists.now.entries) }
    ensures { (s : ScopeOf) → IsListed lists.now.entries unit s → Contains result.now s }
{
    match lists.get(&unit) {
        Some(list) => list.as_slice(),
        None => &[],
    }
}

/// The scopes at which a unit has been given a hold in rising order, each once, by a look-up and a sort.
pub fn rising(
    alloc: Global,
    lists: &BTreeMap<u32, ScopeList>,
    unit: u32,
) -> Result<Vec<Scope>, AllocError>
    requires rising { IsRising nat_cmp (map (λ p. p.0) lists.now.entries) }
    ensures exact { IfOk result (λ v. (s : ScopeOf) → IsListed lists.now.entries unit s → Contains v.items s) }
    ensures rising { IfOk result (λ v. IsRising scope_cmp v.items) }
{
    match lists.get(&unit) {
        Some(list) => {
            let scopes = list.rising(alloc)?;
            Ok(scopes)
        }
        None => Ok(Vec::new(alloc)),
    }
}
