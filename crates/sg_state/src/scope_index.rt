ghost use Rattle.std.specs.Prelude.{◌≡◌, ◌<◌, ◌^◌, None, IfOk, OnOk, OnErr};
ghost use Rattle.sg_base.specs.declared.scope.Scope.{Scope as ScopeOf};
ghost use Rattle.sg_state.specs.ByScope.{place_in, Notes, KeepsNotes};

use sg_base::Scope;
use std::alloc::{AllocError, Global};
use std::collections::HashMap;

/// Where scopes lie in a list. Those of nobody, whose unit is `u32::MAX`, with serials below the length of a table are found
/// by their serials, and all others by hash. The table has for each serial the place in the list and one more, or 0 where
/// the scope is not there.
#[derive(Drop)]
pub struct ScopeIndex {
    pub table: Vec<usize>,
    pub others: HashMap<Scope, usize>,
}

impl ScopeIndex {
    /// No scope, and no table.
    pub fn new(alloc: Global) -> ScopeIndex
        ensures { (s : ScopeOf) → place_in result s ≡ None }
    {
        ScopeIndex {
            table: Vec::new(alloc),
            others: HashMap::new(alloc),
        }
    }

    /// No scope, and a table for serials below this one.
    pub fn with_table(alloc: Global, serials: usize) -> Result<ScopeIndex, AllocError>
        ensures { IfOk result (λ i. (s : ScopeOf) → place_in i s ≡ None) }
    {
        let table = vec![in alloc; 0usize; serials]?;
        Ok(ScopeIndex {
            table,
            others: HashMap::new(alloc),
        })
    }

    /// Where a scope lies, if it is there: in constant time where it is in the table, and else in constant time on average.
    pub fn find(&self, s: Scope) -> Option<usize>
        ensures { result ≡ place_in self.now s }
    {
        let serial = s.serial as usize;
        if serial < self.table.len() && s.unit == u32::MAX {
            let entry = self.table[serial];
            if entry == 0 {
                return None;
            }
            return Some(entry - 1);
        }
        match self.others.get(&s) {
            Some(at) => Some(*at),
            None => None,
        }
    }

    /// Notes where a scope lies that is not there yet, in constant time on average.
    pub fn note(&mut self, s: Scope, at: usize) -> Result<(), AllocError>
        requires new { place_in self.old s ≡ None }
        requires small { at < 2 ^ 63 }
        ensures ok { OnOk result (Notes self.old self.new s at) }
        ensures err { OnErr result (KeepsNotes self.old self.new) }
    {
        let serial = s.serial as usize;
        if s.unit == u32::MAX && serial < self.table.len() {
            self.table[serial] = at + 1;
            return Ok(());
        }
        self.others.insert(s, at)?;
        Ok(())
    }
}
