ghost use Rattle.std.specs.Prelude.{◌≡◌, ◌<◌, ℕ, [], ◌↔◌, IsTrue, IfNone, IfSome, OnOk, OnErr};
ghost use Rattle.std.specs.List.{Contains};
ghost use Rattle.sg_base.specs.declared.scope.Scope.{Scope as ScopeOf};
ghost use Rattle.sg_base.specs.Graph.{HasScope, HasEdge, HasDatum, HasNoDatum, IsGraph, AddsScope, AddsEdge, AddsDatum, row_of};
ghost use Rattle.sg_base.specs.List.{IsRising};
ghost use Rattle.sg_base.specs.Row.{AreRows, AddsTarget, edge_to, edges_in};
ghost use Rattle.sg_base.specs.Scope.{scope_cmp};

use crate::label::Label;
use crate::row::Row;
use crate::scope::Scope;
use crate::scope_set::ScopeSet;
use std::alloc::{AllocError, Global};
use std::collections::BTreeMap;
use std::marker::Model;

/// A finished scope graph: its scopes, its edges, and the data of some of its scopes. Scopes and edges are sets:
/// adding what is there changes nothing. After want of memory the graph is unchanged.
#[derive(Drop)]
pub struct Graph<D> {
    alloc: Global,
    scopes: ScopeSet,
    rows: BTreeMap<Row, ScopeSet>,
    given: BTreeMap<Scope, D>,
}

impl<D> Model for Graph<D> {
    ghost use Rattle.sg_base.specs.Graph.{GraphOf, IsGraph};

    ghost Value = { GraphOf D };

    ghost use Rattle.sg_base.specs.Row.{edges_in, AreRows};

    ghost view = { λ g. record { scopes = g.scopes; edges = edges_in g.rows.entries; given = g.given.entries } };

    ghost invariant = { λ g. AreRows g.rows.entries × IsGraph (record { scopes = g.scopes; edges = edges_in g.rows.entries; given = g.given.entries }) };
}

impl<D> Graph<D> {
    /// The graph with no scope.
    pub fn new(alloc: Global) -> Graph<D>
        ensures { result ≡ record { scopes = []; edges = []; given = [] } }
    {
        Graph {
            alloc,
            scopes: ScopeSet::new(alloc),
            rows: BTreeMap::new(alloc),
            given: BTreeMap::new(alloc),
        }
    }

    /// Adds a scope, in the time of a binary search and of moving the scopes above it.
    pub fn add_scope(&mut self, s: Scope) -> Result<(), AllocError>
        ensures ok { OnOk result (AddsScope self.old self.new s) }
        ensures sound { IsGraph self.new }
        ensures again { HasScope self.old s → self.new ≡ self.old }
        ensures err { OnErr result (self.new ≡ self.old) }
    {
        self.scopes.insert(s)?;
        Ok(())
    }

    /// Adds an edge between two scopes of the graph, in the time of a look-up among the rows, of a binary search in
    /// the row and of moving its targets above the new one.
    pub fn add_edge(&mut self, from: Scope, l: Label, to: Scope) -> Result<(), AllocError>
        requires source { HasScope self.old from }
        requires target { HasScope self.old to }
        ensures ok { OnOk result (AddsEdge self.old self.new from l to) }
        ensures sound { IsGraph self.new }
        ensures again { HasEdge self.old from l to → self.new ≡ self.old }
        ensures err { OnErr result (self.new ≡ self.old) }
    {
        let label = l.number();
        add_target(self.alloc, &mut self.rows, Row { from, label }, to)?;
        Ok(())
    }

    /// Gives a datum to a scope of the graph that has none, in the time of a look-up.
    pub fn set_datum(&mut self, s: Scope, d: D) -> Result<(), AllocError>
    where
        D: Drop,
        requires there { HasScope self.old s }
        requires fresh { HasNoDatum self.old s }
        ensures ok { OnOk result (AddsDatum self.old self.new s d) }
        ensures sound { IsGraph self.new }
        ensures err { OnErr result (self.new ≡ self.old) }
    {
        self.given.insert(s, d)?;
        Ok(())
    }

    /// The scopes of the graph in rising order, each once.
    pub fn scopes(&self) -> &[Scope]
        ensures all { result.now ≡ self.now.scopes }
        ensures rising { IsRising scope_cmp result.now }
        ensures sound { IsGraph self.now }
    {
        self.scopes.as_slice()
    }

    /// Whether a scope is one of the graph, by a binary search.
    pub fn has_scope(&self, s: Scope) -> bool
        ensures { IsTrue result ↔ HasScope self.now s }
    {
        self.scopes.contains(s)
    }

    /// The targets of the row of a scope and a label in rising order, each once, by a look-up among the rows. Empty
    /// where the scope is not one of the graph.
    pub fn edges_of(&self, s: Scope, l: Label) -> &[Scope]
        ensures row { result.now ≡ row_of self.now s l }
        ensures exact { (t : ScopeOf) → (Contains result.now t) ↔ (HasEdge self.now s l t) }
        ensures rising { IsRising scope_cmp result.now }
    {
        let label = l.number();
        match self.rows.get(&Row { from: s, label }) {
            Some(targets) => targets.as_slice(),
            None => &[],
        }
    }

    /// The datum of a scope, if it has one, by a look-up.
    pub fn datum(&self, s: Scope) -> Option<&D>
        ensures found { IfSome result (λ d. HasDatum self.now s d.now) }
        ensures none { IfNone result (HasNoDatum self.now s) }
        ensures sound { IsGraph self.now }
    {
        self.given.get(&s)
    }
}

/// Adds a target to its row.
fn add_target(
    alloc: Global,
    rows: &mut BTreeMap<Row, ScopeSet>,
    row: Row,
    to: Scope,
) -> Result<(), AllocError>
    requires { AreRows rows.old.entries }
    ensures ok { OnOk result (AddsTarget rows.old.entries rows.new.entries row to) }
    ensures rows { AreRows rows.new.entries }
    ensures again { Contains (edges_in rows.old.entries) (edge_to row to) → rows.new.entries ≡ rows.old.entries }
    ensures err { OnErr result (rows.new.entries ≡ rows.old.entries) }
{
    match rows.get_mut(&row) {
        Some(targets) => targets.insert(to)?,
        None => {
            let mut targets = ScopeSet::new(alloc);
            targets.insert(to)?;
            rows.insert(row, targets)?;
        }
    }
    Ok(())
}
