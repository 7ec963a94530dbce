ghost use Rattle.std.specs.Prelude.{◌≡◌, ◌↔◌, [], ◌∷◌, ◌++◌, None, take, IfSome, IfNone, OnOk, OnErr};
ghost use Rattle.std.specs.List.{Contains, position};
ghost use Rattle.std.specs.Map.{lookup};
ghost use Rattle.sg_base.specs.declared.scope.Scope.{Scope as ScopeOf};
ghost use Rattle.sg_base.specs.List.{IsRising};
ghost use Rattle.sg_base.specs.Scope.{scope_cmp};
ghost use Rattle.sg_state.specs.Part.{HasIn, KeepsParts, AddsIn, LosesIn};
ghost use Rattle.sg_state.specs.SamePart.{is_part};

use crate::part::Part;
use sg_base::{Scope, ScopeSet};
use std::alloc::{AllocError, Global};
use std::collections::HashMap;

/// The parts of a scope's rows with their targets. The first sixteen are found by a look at each, and those behind them by
/// hash.
#[derive(Drop)]
pub struct ScopeParts {
    pub all: Vec<(Part, ScopeSet)>,
    pub behind: HashMap<Part, usize>,
}

/// How many parts are found by a look at each.
const FEW: usize = 16;

/// The parts that are found by a look at each.
fn first_few(all: &[(Part, ScopeSet)]) -> &[(Part, ScopeSet)]
    ensures { result.now ≡ take 16 all.now }
{
    if all.len() <= FEW { all } else { &all[..FEW] }
}

/// Where a part lies among others, by a look at each.
fn position_of(parts: &[(Part, ScopeSet)], part: Part) -> Option<usize>
    ensures { result ≡ position (λ p. is_part part p.0) parts.now }
{
    parts.iter().position(|p| part == p.0)
}

impl ScopeParts {
    ghost use Rattle.sg_state.specs.ByScope.{LiesAt};
    ghost use Rattle.sg_state.specs.ScopeParts.{AreScopeParts};

    /// No part.
    pub fn new(alloc: Global) -> ScopeParts
        ensures none { result.all.items ≡ [] }
        ensures parts { AreScopeParts result }
    {
        ScopeParts {
            all: Vec::new(alloc),
            behind: HashMap::new(alloc),
        }
    }

    /// Where a part lies behind the first sixteen, if it does, by a look-up.
    fn find_behind(&self, part: Part) -> Option<usize>
        requires parts { AreScopeParts self.now }
        ensures { result ≡ lookup (is_part part) self.now.behind.entries }
    {
        if self.all.len() <= FEW {
            return None;
        }
        match self.behind.get(&part) {
            Some(at) => Some(*at),
            None => None,
        }
    }

    /// Where a part lies, if it is there, by a look at each of at most sixteen parts, and a look-up where there are more.
    fn find(&self, part: Part) -> Option<usize>
        requires parts { AreScopeParts self.now }
        ensures found { IfSome result (LiesAt (is_part part) self.now.all.items) }
        ensures none { IfNone result (lookup (is_part part) self.now.all.items ≡ None) }
    {
        match position_of(first_few(self.all.as_slice()), part) {
            Some(at) => Some(at),
            None => self.find_behind(part),
        }
    }

    /// Adds a part that is not there, with its targets, in constant time on average.
    fn push(&mut self, part: Part, targets: ScopeSet) -> Result<(), AllocError>
        requires parts { AreScopeParts self.old }
        requires new { lookup (is_part part) self.old.all.items ≡ None }
        ensures ok { OnOk result (self.new.all.items ≡ self.old.all.items ++ (part, targets) ∷ []) }
        ensures err { OnErr result (self.new.all.items ≡ self.old.all.items) }
        ensures parts { AreScopeParts self.new }
    {
        if self.all.len() < FEW {
            self.all.reserve_exact(1)?;
            self.all.push_reserved((part, targets));
            return Ok(());
        }
        self.all.reserve(1)?;
        self.behind.insert(part, self.all.len())?;
        self.all.push_reserved((part, targets));
        Ok(())
    }

    /// Adds a target to a part, by a look-up, a binary search in the part and moving its targets above the new one.
    pub fn put(&mut self, alloc: Global, part: Part, to: Scope) -> Result<(), AllocError>
        requires parts { AreScopeParts self.old }
        ensures ok { OnOk result (AddsIn self.old.all.items self.new.all.items part to) }
        ensures err { OnErr result (KeepsParts self.old.all.items self.new.all.items) }
        ensures parts { AreScopeParts self.new }
    {
        match self.find(part) {
            Some(at) => {
                self.all[at].1.insert(to)?;
                Ok(())
            }
            None => {
                let mut targets = ScopeSet::new(alloc);
                targets.insert(to)?;
                self.push(part, targets)?;
                Ok(())
            }
        }
    }

    /// Takes a target out of a part, if it is there, by a look-up, a binary search in the part and moving its targets
    /// above that one.
    pub fn take(&mut self, part: Part, to: Scope)
        requires parts { AreScopeParts self.old }
        ensures loses { LosesIn self.old.all.items self.new.all.items part to }
        ensures parts { AreScopeParts self.new }
    {
        match self.find(part) {
            Some(at) => self.all[at].1.remove(to),
            None => {}
        }
    }

    /// The targets of a part in rising order, by a look-up.
    pub fn targets(&self, part: Part) -> &[Scope]
        requires parts { AreScopeParts self.now }
        ensures exact { (t : ScopeOf) → (Contains result.now t) ↔ (HasIn self.now.all.items part t) }
        ensures rising { IsRising scope_cmp result.now }
    {
        match self.find(part) {
            Some(at) => self.all[at].1.as_slice(),
            None => &[],
        }
    }
}
