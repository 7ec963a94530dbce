ghost use Rattle.std.specs.Prelude.{◌≡◌, [], ◌⊎◌, ◌↔◌, IfOk, OnOk, OnErr};
ghost use Rattle.std.specs.List.{Contains};
ghost use Rattle.sg_base.specs.declared.scope.Scope.{Scope as ScopeOf};
ghost use Rattle.sg_base.specs.List.{IsRising};
ghost use Rattle.sg_base.specs.Scope.{scope_cmp};

use sg_base::Scope;
use std::alloc::{AllocError, Global};
use std::marker::Model;

/// Scopes in the order in which they were noted, any of them more than once.
#[derive(Debug, Drop)]
pub struct ScopeList {
    scopes: Vec<Scope>,
}

impl Model for ScopeList {
    ghost use Rattle.std.specs.Prelude.{List};
    ghost use Rattle.sg_base.specs.declared.scope.Scope.{Scope};

    ghost Value = { List Scope };

    ghost view = { λ s. s.scopes.items };
}

impl ScopeList {
    /// The list of no scope.
    pub fn new(alloc: Global) -> ScopeList
        ensures { result ≡ [] }
    {
        ScopeList {
            scopes: Vec::new(alloc),
        }
    }

    /// The scopes as they were noted.
    pub fn as_slice(&self) -> &[Scope]
        ensures { result.now ≡ self.now }
    {
        self.scopes.as_slice()
    }

    /// Notes a scope, in constant time.
    pub fn push(&mut self, s: Scope) -> Result<(), AllocError>
        ensures ok { OnOk result ((t : ScopeOf) → (Contains self.new t) ↔ (Contains self.old t ⊎ (t ≡ s))) }
        ensures err { OnErr result (self.new ≡ self.old) }
    {
        self.scopes.push(s)?;
        Ok(())
    }

    /// The scopes in rising order, each once, by one sort.
    pub fn rising(&self, alloc: Global) -> Result<Vec<Scope>, AllocError>
        ensures exact { IfOk result (λ v. (t : ScopeOf) → (Contains v.items t) ↔ (Contains self.now t)) }
        ensures rising { IfOk result (λ v. IsRising scope_cmp v.items) }
    {
        let mut scopes = Vec::from_slice(alloc, self.scopes.as_slice())?;
        scopes.sort_unstable();
        scopes.dedup();
        Ok(scopes)
    }
}
