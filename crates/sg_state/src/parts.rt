//! The parts of rows with their targets, and to which part a target belongs.

ghost use Rattle.std.specs.Prelude.{◌≡◌, ◌↔◌, [], map, IfOk, OnOk, OnErr};
ghost use Rattle.std.specs.List.{Contains};
ghost use Rattle.sg_base.specs.declared.scope.Scope.{Scope as ScopeOf};
ghost use Rattle.sg_base.specs.Graph.{Edge};
ghost use Rattle.sg_base.specs.List.{IsRising};
ghost use Rattle.sg_base.specs.Scope.{scope_cmp};
ghost use Rattle.sg_state.specs.Opening.{edge_of};
ghost use Rattle.sg_state.specs.Part.{HasIn, KeepsParts, AddsIn, LosesIn, IsPartOf, ArePartsOf};
ghost use Rattle.sg_state.specs.View.{ArePlaces};

use crate::by_scope::ByScope;
use crate::part::Part;
use crate::places::Places;
use crate::scope_parts::ScopeParts;
use crate::slot::Slot;
use sg_base::{Instance, Label, Scope};
use std::alloc::{AllocError, Global};
use std::marker::Model;

/// The parts of rows with their targets, by the scopes of the rows.
#[derive(Drop)]
pub struct Parts {
    found: ByScope<ScopeParts>,
}

impl Model for Parts {
    ghost use Rattle.std.specs.List.{flat_map};
    ghost use Rattle.sg_state.specs.ByScope.{IsIndexed};
    ghost use Rattle.sg_state.specs.Part.{PartsOf};
    ghost use Rattle.sg_state.specs.ScopeParts.{AreOwn, parts_at};

    ghost Value = { PartsOf };

    ghost view = { λ p. record { entries = flat_map parts_at p.found.all.items } };

    ghost invariant = { λ p. AreOwn p.found.all.items × IsIndexed p.found.index p.found.all.items };
}

impl Parts {
    /// No part.
    pub fn new(alloc: Global) -> Parts
        ensures { result.entries ≡ [] }
    {
        Parts {
            found: ByScope::new(alloc),
        }
    }

    /// No part, with a table of the places of nobody's scopes with serials below this one.
    pub fn with_table(alloc: Global, serials: usize) -> Result<Parts, AllocError>
        ensures { IfOk result (λ p. p.entries ≡ []) }
    {
        let found = ByScope::with_table(alloc, serials)?;
        Ok(Parts { found })
    }

    /// Adds a target to a part, by look-ups, a binary search in the part and moving its targets above the new one.
    pub fn put(&mut self, alloc: Global, part: Part, to: Scope) -> Result<(), AllocError>
        ensures ok { OnOk result (AddsIn self.old.entries self.new.entries part to) }
        ensures err { OnErr result (KeepsParts self.old.entries self.new.entries) }
    {
        let s = part.scope();
        match self.found.find(s) {
            Some(at) => {
                self.found.all[at].1.put(alloc, part, to)?;
                Ok(())
            }
            None => {
                let mut parts = ScopeParts::new(alloc);
                parts.put(alloc, part, to)?;
                self.found.insert(s, parts)?;
                Ok(())
            }
        }
    }

    /// Takes a target out of a part, if it is there, by look-ups, a binary search in the part and moving its targets above
    /// that one.
    pub fn take(&mut self, part: Part, to: Scope)
        ensures { LosesIn self.old.entries self.new.entries part to }
    {
        match self.found.find(part.scope()) {
            Some(at) => self.found.all[at].1.take(part, to),
            None => {}
        }
    }

    /// The targets of a part in rising order, by look-ups.
    pub fn targets(&self, part: Part) -> &[Scope]
        ensures exact { (t : ScopeOf) → (Contains result.now t) ↔ (HasIn self.now.entries part t) }
        ensures rising { IsRising scope_cmp result.now }
    {
        match self.found.find(part.scope()) {
            Some(at) => self.found.all[at].1.targets(part),
            None => &[],
        }
    }
}

/// The part to which a target of a row belongs, by a look-up of its datum.
pub fn part_of<I: Instance>(places: &Places<I::Datum>, from: Scope, label: u8, to: Scope) -> Part
    requires places { ArePlaces places.now.entries }
    ensures { IsPartOf I.datum_key places.now.entries from label to result }
{
    match places.slot(to) {
        Some(Slot::Given(datum)) => Part::Keyed(from, label, I::key_of_datum(datum)),
        Some(Slot::Waits(_)) => Part::Rest(from, label),
        Some(Slot::Empty) => Part::Rest(from, label),
        None => Part::Rest(from, label),
    }
}

/// The parts of the rows of a list of edges.
pub fn parts_of<I: Instance>(
    alloc: Global,
    places: &Places<I::Datum>,
    list: &[(Scope, Label, Scope)],
) -> Result<Parts, AllocError>
    requires places { ArePlaces places.now.entries }
    ensures { IfOk result (λ ps. ArePartsOf I.datum_key places.now.entries (map edge_of list.now) ps.entries) }
{
    let mut parts = Parts::with_table(alloc, places.all().len())?;
    for (from, l, to) in list {
        let part = part_of::<I>(places, *from, l.number(), *to);
        parts.put(alloc, part, *to)?;
    }
    Ok(parts)
}
