ghost use Rattle.std.specs.Prelude.{◌≡◌, [], ◌⊎◌, ◌↔◌, IsTrue, OnOk, OnErr};
ghost use Rattle.std.specs.List.{Contains};
ghost use Rattle.sg_base.specs.declared.scope.Scope.{Scope as ScopeOf};
ghost use Rattle.sg_base.specs.List.{IsRising};
ghost use Rattle.sg_base.specs.Scope.{scope_cmp};

use crate::scope::Scope;
use std::alloc::{AllocError, Global};
use std::marker::Model;

/// A set of scopes, which contracts see as their rising list.
#[derive(Debug, Drop)]
pub struct ScopeSet {
    scopes: Vec<Scope>,
}

impl Model for ScopeSet {
    ghost use Rattle.std.specs.Prelude.{List};
    ghost use Rattle.sg_base.specs.declared.scope.Scope.{Scope};
    ghost use Rattle.sg_base.specs.List.{IsRising};
    ghost use Rattle.sg_base.specs.Scope.{scope_cmp};

    ghost Value = { List Scope };

    ghost view = { λ s. s.scopes.items };

    ghost invariant = { λ s. IsRising scope_cmp s.scopes.items };
}

impl ScopeSet {
    /// The set of no scope.
    pub fn new(alloc: Global) -> ScopeSet
        ensures { result ≡ [] }
    {
        ScopeSet {
            scopes: Vec::new(alloc),
        }
    }

    /// The scopes in rising order.
    pub fn as_slice(&self) -> &[Scope]
        ensures all { result.now ≡ self.now }
        ensures rising { IsRising scope_cmp self.now }
    {
        self.scopes.as_slice()
    }

    /// Whether a scope is in the set, by a binary search.
    pub fn contains(&self, s: Scope) -> bool
        ensures { IsTrue result ↔ Contains self.now s }
    {
        self.scopes.binary_search(&s).is_ok()
    }

    /// Adds a scope to the set, which may have it already. Finding its place takes a binary search, and the scopes
    /// above it are moved by one place.
    pub fn insert(&mut self, s: Scope) -> Result<(), AllocError>
        ensures ok { OnOk result ((t : ScopeOf) → (Contains self.new t) ↔ (Contains self.old t ⊎ (t ≡ s))) }
        ensures rising { IsRising scope_cmp self.new }
        ensures again { Contains self.old s → self.new ≡ self.old }
        ensures err { OnErr result (self.new ≡ self.old) }
    {
        match self.scopes.binary_search(&s) {
            Ok(_) => Ok(()),
            Err(at) => Ok(self.scopes.insert(at, s)?),
        }
    }

    /// Takes a scope out of the set, if it is there. Finding it takes a binary search, and the scopes above it are moved
    /// by one place.
    pub fn remove(&mut self, s: Scope)
        ensures left { (t : ScopeOf) → (Contains self.new t) ↔ (Contains self.old t × (t ≡ s → ⊥)) }
        ensures rising { IsRising scope_cmp self.new }
    {
        match self.scopes.binary_search(&s) {
            Ok(at) => {
                self.scopes.remove(at);
            }
            Err(_) => {}
        }
    }
}
