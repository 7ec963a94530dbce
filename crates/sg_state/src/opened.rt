//! The scopes of an opening with what they have, list by list.

ghost use Rattle.std.specs.Prelude.{◌≡◌, ◌<◌, [], map, IfOk, OnOk};
ghost use Rattle.std.specs.List.{Contains};
ghost use Rattle.std.specs.Ordering.{nat_cmp};
ghost use Rattle.sg_base.specs.declared.scope.Scope.{Scope as ScopeOf};
ghost use Rattle.sg_base.specs.Graph.{Edge};
ghost use Rattle.sg_base.specs.List.{IsDistinct, IsRising};
ghost use Rattle.sg_state.specs.declared.slot.Slot.TheVariants.{Empty};
ghost use Rattle.sg_state.specs.Held.{RowHold, DatumHold};
ghost use Rattle.sg_state.specs.Opening.{edge_of, row_hold_of, held_datum_of};
ghost use Rattle.sg_state.specs.View.{ArePlaces, AreBare, Gives, HasKey, SlotAt, IsListed, KeepsLists};

use crate::lists;
use crate::place::Place;
use crate::places::Places;
use crate::scope_list::ScopeList;
use crate::slot::Slot;
use sg_base::{Label, Scope};
use std::alloc::{AllocError, Global};
use std::collections::BTreeMap;

/// The scopes of a list without repetition, with nothing yet. Room for them is reserved once.
pub fn bare<D: Drop>(alloc: Global, list: &[Scope]) -> Result<Places<D>, AllocError>
    requires distinct { IsDistinct list.now }
    ensures { IfOk result (λ m. AreBare m.entries list.now) }
{
    let mut places = Places::with_room(alloc, list.len())?;
    for s in list {
        places.insert(*s, Place::new())?;
    }
    Ok(places)
}

/// Adds edges. Each edge may be there already.
pub fn add_edges<D>(
    alloc: Global,
    places: &mut Places<D>,
    list: &[(Scope, Label, Scope)],
) -> Result<(), AllocError>
    requires places { ArePlaces places.old.entries }
    requires there { (e : Edge) → Contains (map edge_of list.now) e → HasKey places.old.entries e.from × (e.label < 16) }
    ensures ok { OnOk result (Gives places.old.entries places.new.entries (map edge_of list.now) [] [] []) }
{
    for (from, l, to) in list {
        places.put_target(alloc, *from, l.number(), *to)?;
    }
    Ok(())
}

/// Gives rows to their holders.
pub fn add_row_holds<D>(
    alloc: Global,
    places: &mut Places<D>,
    units: &mut BTreeMap<u32, ScopeList>,
    list: &[(u32, Scope, Label)],
) -> Result<(), AllocError>
    requires places { ArePlaces places.old.entries }
    requires units { IsRising nat_cmp (map (λ p. p.0) units.old.entries) }
    requires there { (k : RowHold) → Contains (map row_hold_of list.now) k → HasKey places.old.entries k.scope × (k.label < 16) }
    ensures ok { OnOk result (Gives places.old.entries places.new.entries [] (map row_hold_of list.now) [] []) }
    ensures listed { OnOk result ((k : RowHold) → Contains (map row_hold_of list.now) k → IsListed units.new.entries k.unit k.scope) }
    ensures kept { KeepsLists units.old.entries units.new.entries }
    ensures rising { IsRising nat_cmp (map (λ p. p.0) units.new.entries) }
{
    for (unit, s, l) in list {
        places.put_holder(alloc, *s, l.number(), *unit)?;
        lists::note(alloc, units, *unit, *s)?;
    }
    Ok(())
}

/// Gives unset data to their holders, each at a scope without a datum.
pub fn add_datum_holds<D: Drop>(
    alloc: Global,
    places: &mut Places<D>,
    units: &mut BTreeMap<u32, ScopeList>,
    list: &[(u32, Scope)],
) -> Result<(), AllocError>
    requires places { ArePlaces places.old.entries }
    requires units { IsRising nat_cmp (map (λ p. p.0) units.old.entries) }
    requires empty { (k : DatumHold) → Contains (map held_datum_of list.now) k → SlotAt places.old.entries k.scope Empty }
    requires distinct { IsDistinct (map (λ k. k.1) list.now) }
    ensures ok { OnOk result (Gives places.old.entries places.new.entries [] [] [] (map held_datum_of list.now)) }
    ensures listed { OnOk result ((k : DatumHold) → Contains (map held_datum_of list.now) k → IsListed units.new.entries k.unit k.scope) }
    ensures kept { KeepsLists units.old.entries units.new.entries }
    ensures rising { IsRising nat_cmp (map (λ p. p.0) units.new.entries) }
{
    for (unit, s) in list {
        places.set_slot(*s, Slot::Waits(*unit));
        lists::note(alloc, units, *unit, *s)?;
    }
    Ok(())
}

/// Gives scopes their data, each at a scope without a datum.
pub fn add_given<D: Drop>(places: &mut Places<D>, list: Vec<(Scope, D)>)
    requires places { ArePlaces places.old.entries }
    requires empty { (q : ScopeOf × D) → Contains list.items q → SlotAt places.old.entries q.0 Empty }
    requires distinct { IsDistinct (map (λ p. p.0) list.items) }
    ensures { Gives places.old.entries places.new.entries [] [] list.items [] }
{
    for (s, d) in list {
        places.set_slot(s, Slot::Given(d));
    }
}
