//! What a unit alone holds.

ghost use Rattle.std.specs.Prelude.{◌≡◌, ℕ, [], ◌∷◌, ◌↔◌, IsTrue, IfOk, OnOk};
ghost use Rattle.std.specs.List.{Contains};
ghost use Rattle.std.specs.declared.cmp.Ordering.TheVariants.{Less};
ghost use Rattle.sg_base.specs.List.{IsRising};
ghost use Rattle.sg_base.specs.Scope.{scope_cmp};
ghost use Rattle.sg_state.specs.declared.need.Need.{Need as NeedOf};
ghost use Rattle.sg_state.specs.declared.need.Need.TheVariants.{Row, Datum};
ghost use Rattle.sg_state.specs.Freed.{Adds, HoldsRowAlone, IsFree, IsFreeBelow, IsFreeSlot, IsFreeRow, IsFreeDatum, holds_of};
ghost use Rattle.sg_state.specs.Need.{need_cmp};
ghost use Rattle.sg_state.specs.Place.{IsPlace};
ghost use Rattle.sg_state.specs.View.{ArePlaces};

use crate::need::Need;
use crate::place::Place;
use crate::places::Places;
use sg_base::{Label, Scope};
use std::alloc::{AllocError, Global};

/// Whether the unit alone holds the row of a label.
fn is_row_alone<D>(place: &Place<D>, unit: u32, label: u8) -> bool
    requires place { IsPlace place.now }
    ensures { IsTrue result ↔ HoldsRowAlone place.now unit label }
{
    match place.holders(label) {
        [only] => *only == unit,
        _ => false,
    }
}

/// Lists the rows of a scope that the unit alone holds, after those that come before them.
fn add_rows<D>(
    place: &Place<D>,
    unit: u32,
    s: Scope,
    needs: &mut Vec<Need>,
) -> Result<(), AllocError>
    requires place { IsPlace place.now }
    requires rising { IsRising need_cmp needs.old.items }
    requires before { (n : NeedOf) → Contains needs.old.items n → (l : ℕ) → need_cmp n (Row s l) ≡ Less }
    ensures ok { OnOk result (Adds needs.old.items needs.new.items (IsFreeBelow place.now unit s 16)) }
{
    for label in 0..16u8 {
        let l = Label::new(label);
        if is_row_alone(place, unit, label) {
            needs.push(Need::Row(s, l))?;
        }
    }
    Ok(())
}

/// Lists the datum of a scope if the unit holds it, after those that come before it.
fn add_datum<D>(
    place: &Place<D>,
    unit: u32,
    s: Scope,
    needs: &mut Vec<Need>,
) -> Result<(), AllocError>
    requires rising { IsRising need_cmp needs.old.items }
    requires before { (n : NeedOf) → Contains needs.old.items n → need_cmp n (Datum s) ≡ Less }
    ensures ok { OnOk result (Adds needs.old.items needs.new.items (IsFreeSlot place.now unit s)) }
{
    if place.slot().waits_for(unit) {
        needs.push(Need::Datum(s))?;
    }
    Ok(())
}

/// Lists the rows of a scope that the unit alone holds, and its datum if the unit holds it, each after those that come
/// before them, by a look-up.
fn add_at<D>(
    places: &Places<D>,
    unit: u32,
    s: Scope,
    rows: &mut Vec<Need>,
    unset: &mut Vec<Need>,
) -> Result<(), AllocError>
    requires places { ArePlaces places.now.entries }
    requires rows_rise { IsRising need_cmp rows.old.items }
    requires rows_before { (n : NeedOf) → Contains rows.old.items n → (l : ℕ) → need_cmp n (Row s l) ≡ Less }
    requires unset_rise { IsRising need_cmp unset.old.items }
    requires unset_before { (n : NeedOf) → Contains unset.old.items n → need_cmp n (Datum s) ≡ Less }
    ensures rows { OnOk result (Adds rows.old.items rows.new.items (IsFreeRow (holds_of places.now.entries) unit (s ∷ []))) }
    ensures unset { OnOk result (Adds unset.old.items unset.new.items (IsFreeDatum (holds_of places.now.entries) unit (s ∷ []))) }
{
    match places.place(s) {
        Some(place) => {
            add_rows(place, unit, s, rows)?;
            add_datum(place, unit, s, unset)?;
            Ok(())
        }
        None => Ok(()),
    }
}

/// The rising list of what the unit alone holds at the scopes of a rising list, rows and then data, by a look-up for each
/// scope.
pub fn needs<D>(
    alloc: Global,
    places: &Places<D>,
    list: &[Scope],
    unit: u32,
) -> Result<Vec<Need>, AllocError>
    requires places { ArePlaces places.now.entries }
    requires rising { IsRising scope_cmp list.now }
    ensures { IfOk result (λ ns. Adds [] ns.items (IsFree (holds_of places.now.entries) unit list.now)) }
{
    let mut rows = Vec::new(alloc);
    let mut unset = Vec::new(alloc);
    for s in list {
        add_at(places, unit, *s, &mut rows, &mut unset)?;
    }
    rows.extend_from_slice(&unset)?;
    Ok(rows)
}
