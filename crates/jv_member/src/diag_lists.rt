use jv_diag::DiagList;
use jv_instance::JavaPred;
use sg_query::Query;
use sg_reading::Stop;
use std::alloc::Global;
use std::marker::Model;

/// The diagnostics of several things, in their order. Contracts see the list of their diagnostics.
#[derive(Debug, Drop)]
pub struct DiagLists {
    lists: Vec<DiagList>,
}

impl Model for DiagLists {
    ghost use Rattle.std.specs.Prelude.{List};
    ghost use Rattle.jv_diag.specs.Plain.{DiagOf};

    ghost Value = { List (List DiagOf) };

    ghost view = { λ d. d.lists.items };
}

impl DiagLists {
    ghost use Rattle.std.specs.Prelude.{◌≡◌, [], ◌∷◌, ◌++◌, MatchResult};
    ghost use Rattle.sg_reading.specs.declared.stop.Stop.TheVariants.{OutOfMemory};
    ghost use Rattle.jv_member.specs.Declaration.{joined};

    /// Nothing.
    pub fn empty(alloc: Global) -> DiagLists
        ensures { result ≡ [] }
    {
        DiagLists {
            lists: Vec::new(alloc),
        }
    }

    /// The diagnostics of these things and of one more.
    pub fn with(mut self, diags: DiagList) -> Result<DiagLists, Stop<Query<JavaPred>>>
        ensures { MatchResult result (λ lists. lists ≡ self ++ diags ∷ []) (λ stop. stop ≡ OutOfMemory) }
    {
        self.lists.push(diags)?;
        Ok(self)
    }

    /// All diagnostics, one thing's after another's. It takes time in their number.
    pub fn joined(self, alloc: Global) -> Result<DiagList, Stop<Query<JavaPred>>>
        ensures { MatchResult result (λ diags. diags ≡ joined self) (λ stop. stop ≡ OutOfMemory) }
    {
        let mut all = DiagList::empty(alloc);
        for diags in self.lists {
            all.append(diags)?;
        }
        Ok(all)
    }
}
