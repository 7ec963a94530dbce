use sg_base::Scope;
use std::alloc::{AllocError, Global};
use std::marker::Model;

/// Some scopes, which contracts see as their list.
#[derive(Debug, Drop)]
pub struct ScopeList {
    scopes: Vec<Scope>,
}

impl Model for ScopeList {
    ghost use Rattle.std.specs.Prelude.{List};
    ghost use Rattle.sg_base.specs.declared.scope.Scope.{Scope};

    ghost Value = { List Scope };

    ghost view = { λ l. l.scopes.items };
}

impl ScopeList {
    ghost use Rattle.std.specs.Prelude.{◌≡◌, [], ◌∷◌, ◌++◌, OnOk, OnErr};

    /// No scope. It takes no memory.
    pub fn empty(alloc: Global) -> ScopeList
        ensures { result ≡ [] }
    {
        ScopeList {
            scopes: Vec::new(alloc),
        }
    }

    /// These scopes, which are moved.
    pub fn new(scopes: Vec<Scope>) -> ScopeList
        ensures { result ≡ scopes.items }
    {
        ScopeList { scopes }
    }

    /// The scopes, first to last.
    pub fn as_slice(&self) -> &[Scope]
        ensures { result.now ≡ self.now }
    {
        self.scopes.as_slice()
    }

    /// Adds a scope behind the others. After want of memory they are what they were.
    pub fn push(&mut self, scope: Scope) -> Result<(), AllocError>
        ensures ok { OnOk result (self.new ≡ self.old ++ scope ∷ []) }
        ensures err { OnErr result (self.new ≡ self.old) }
    {
        self.scopes.push(scope)?;
        Ok(())
    }
}
