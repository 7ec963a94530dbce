ghost use Rattle.std.specs.Prelude.{◌≡◌, [], ◌∷◌, ◌++◌, None, IfSome, IfNone, IfOk, OnOk, OnErr};
ghost use Rattle.std.specs.Map.{lookup};
ghost use Rattle.sg_base.specs.Scope.{is_scope};

use crate::scope_index::ScopeIndex;
use sg_base::Scope;
use std::alloc::{AllocError, Global};

/// A list of scopes, each once and with a value, and where in it each scope lies.
#[derive(Drop)]
pub struct ByScope<V> {
    pub index: ScopeIndex,
    pub all: Vec<(Scope, V)>,
}

impl<V> ByScope<V> {
    ghost use Rattle.sg_state.specs.ByScope.{IsIndexed, LiesAt};

    /// No scope.
    pub fn new(alloc: Global) -> ByScope<V>
        ensures empty { result.all.items ≡ [] }
        ensures indexed { IsIndexed result.index result.all.items }
    {
        ByScope {
            index: ScopeIndex::new(alloc),
            all: Vec::new(alloc),
        }
    }

    /// No scope, with room for a list of this length.
    pub fn with_room(alloc: Global, scopes: usize) -> Result<ByScope<V>, AllocError>
        ensures empty { IfOk result (λ b. b.all.items ≡ []) }
        ensures indexed { IfOk result (λ b. IsIndexed b.index b.all.items) }
    {
        let index = ScopeIndex::with_table(alloc, scopes)?;
        let all = Vec::with_capacity(alloc, scopes)?;
        Ok(ByScope { index, all })
    }

    /// No scope, with a table of the places of nobody's scopes with serials below this one.
    pub fn with_table(alloc: Global, serials: usize) -> Result<ByScope<V>, AllocError>
        ensures empty { IfOk result (λ b. b.all.items ≡ []) }
        ensures indexed { IfOk result (λ b. IsIndexed b.index b.all.items) }
    {
        let index = ScopeIndex::with_table(alloc, serials)?;
        Ok(ByScope {
            index,
            all: Vec::new(alloc),
        })
    }

    /// Where a scope lies, if it is there, by a look-up.
    pub fn find(&self, s: Scope) -> Option<usize>
        requires indexed { IsIndexed self.now.index self.now.all.items }
        ensures found { IfSome result (LiesAt (is_scope s) self.now.all.items) }
        ensures none { IfNone result (lookup (is_scope s) self.now.all.items ≡ None) }
    {
        self.index.find(s)
    }

    /// Adds a scope that is not there, with its value, in constant time on average.
    pub fn insert(&mut self, s: Scope, value: V) -> Result<(), AllocError>
    where
        V: Drop,
        requires indexed { IsIndexed self.old.index self.old.all.items }
        requires new { lookup (is_scope s) self.old.all.items ≡ None }
        ensures ok { OnOk result (self.new.all.items ≡ self.old.all.items ++ (s, value) ∷ []) }
        ensures err { OnErr result (self.new.all.items ≡ self.old.all.items) }
        ensures indexed { IsIndexed self.new.index self.new.all.items }
    {
        self.all.reserve(1)?;
        self.index.note(s, self.all.len())?;
        self.all.push_reserved((s, value));
        Ok(())
    }
}
