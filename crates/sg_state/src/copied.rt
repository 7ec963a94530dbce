//! A graph gets what the scopes of a held graph have.

ghost use Rattle.std.specs.Prelude.{◌≡◌, ◌<◌, [], map, ◌↔◌, IfOk, OnOk};
ghost use Rattle.std.specs.List.{Contains, AllByRecursion, flat_map};
ghost use Rattle.sg_base.specs.declared.scope.Scope.{Scope as ScopeOf};
ghost use Rattle.sg_base.specs.Graph.{Edge, HasScope, HasNoDatum};
ghost use Rattle.sg_base.specs.List.{IsDistinct};
ghost use Rattle.sg_state.specs.Gains.{GainsScopes, GainsEdges, GainsData};
ghost use Rattle.sg_state.specs.Place.{IsPlace};
ghost use Rattle.sg_state.specs.View.{edges_at, given_of};

use crate::place::Place;
use crate::row::Row;
use crate::slot::Slot;
use sg_base::{Graph, Instance, Label, Scope};
use std::alloc::{AllocError, Global};

/// The scopes, in the order of the list.
fn keys<D>(alloc: Global, places: &[(Scope, Place<D>)]) -> Result<Vec<Scope>, AllocError>
    ensures { IfOk result (λ v. v.items ≡ map (λ p. p.0) places.now) }
{
    let mut scopes = Vec::new(alloc);
    for (s, _place) in places {
        scopes.push(*s)?;
    }
    Ok(scopes)
}

/// The scopes in rising order, by one sort.
pub fn rising_scopes<D>(
    alloc: Global,
    places: &[(Scope, Place<D>)],
) -> Result<Vec<Scope>, AllocError>
    ensures { IfOk result (λ v. (s : ScopeOf) → (Contains v.items s) ↔ (Contains (map (λ p. p.0) places.now) s)) }
{
    let mut scopes = keys(alloc, places)?;
    scopes.sort_unstable();
    Ok(scopes)
}

/// Adds scopes. Where they are in rising order and above those that are there, none is moved.
pub fn add_scopes<D>(graph: &mut Graph<D>, scopes: &[Scope]) -> Result<(), AllocError>
    ensures ok { OnOk result (GainsScopes graph.old graph.new scopes.now) }
{
    for s in scopes {
        graph.add_scope(*s)?;
    }
    Ok(())
}

/// Adds the edges of a row, by the number of its label.
fn add_row<D>(
    graph: &mut Graph<D>,
    s: Scope,
    label: u8,
    targets: &[Scope],
) -> Result<(), AllocError>
    requires labelled { label < 16 }
    requires there { (t : ScopeOf) → Contains targets.now t → HasScope graph.old s × HasScope graph.old t }
    ensures ok { OnOk result (GainsEdges graph.old graph.new (map (λ t. record { from = s; label = label; to = t }) targets.now)) }
{
    for t in targets {
        graph.add_edge(s, Label::new(label), *t)?;
    }
    Ok(())
}

/// Adds the edges from a scope.
fn add_rows<D>(graph: &mut Graph<D>, s: Scope, place: &Place<D>) -> Result<(), AllocError>
    requires place { IsPlace place.now }
    requires there { (e : Edge) → Contains (edges_at (s, place.now)) e → HasScope graph.old e.from × HasScope graph.old e.to }
    ensures ok { OnOk result (GainsEdges graph.old graph.new (edges_at (s, place.now))) }
{
    for (label, row) in place.rows() {
        add_row(graph, s, *label, row.targets.as_slice())?;
    }
    Ok(())
}

/// Adds the edges.
pub fn add_edges<D>(places: &[(Scope, Place<D>)], graph: &mut Graph<D>) -> Result<(), AllocError>
    requires places { AllByRecursion (λ p. IsPlace p.1) places.now }
    requires there { (e : Edge) → Contains (flat_map edges_at places.now) e → HasScope graph.old e.from × HasScope graph.old e.to }
    ensures ok { OnOk result (GainsEdges graph.old graph.new (flat_map edges_at places.now)) }
{
    for (s, place) in places {
        add_rows(graph, *s, place)?;
    }
    Ok(())
}

/// Adds a copy of the datum of a scope, if it is given.
fn add_datum<I: Instance>(
    alloc: Global,
    graph: &mut Graph<I::Datum>,
    s: Scope,
    slot: &Slot<I::Datum>,
) -> Result<(), AllocError>
    requires there { HasScope graph.old s }
    requires none { HasNoDatum graph.old s }
    ensures ok { OnOk result (GainsData graph.old graph.new (given_of s slot.now)) }
{
    match slot {
        Slot::Given(datum) => {
            let copy = I::copy_datum(alloc, datum)?;
            graph.set_datum(s, copy)?;
            Ok(())
        }
        Slot::Waits(_) => Ok(()),
        Slot::Empty => Ok(()),
    }
}

/// Adds copies of the data to a graph that has none.
pub fn add_data<I: Instance>(
    alloc: Global,
    places: &[(Scope, Place<I::Datum>)],
    graph: &mut Graph<I::Datum>,
) -> Result<(), AllocError>
    requires distinct { IsDistinct (map (λ p. p.0) places.now) }
    requires there { (s : ScopeOf) → Contains (map (λ p. p.0) places.now) s → HasScope graph.old s }
    requires none { graph.old.given ≡ [] }
    ensures ok { OnOk result (GainsData graph.old graph.new (flat_map (λ p. given_of p.0 (p.1).slot) places.now)) }
{
    for (s, place) in places {
        add_datum::<I>(alloc, graph, *s, place.slot())?;
    }
    Ok(())
}
