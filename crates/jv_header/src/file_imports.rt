use jv_diag::DiagList;
use jv_names::ScopeList;
use jv_tree::NameId;
use sg_base::Scope;
use std::alloc::Global;
use std::marker::Model;

/// What the imports of a file give: the types that its single imports bring, each under its name, in their order, those that
/// clash left out; the types and packages that are imported on demand; and the diagnostics.
#[derive(Debug, Drop)]
pub struct FileImports {
    pub singles: Vec<(NameId, Scope)>,
    pub on_demand: ScopeList,
    pub diags: DiagList,
}

impl Model for FileImports {
    ghost use Rattle.jv_header.specs.Imports.{ImportsOf};

    ghost Value = { ImportsOf };

    ghost view = { λ w. record { singles = w.singles.items; on_demand = w.on_demand; diags = w.diags } };
}

impl FileImports {
    ghost use Rattle.std.specs.Prelude.{◌≡◌};
    ghost use Rattle.jv_header.specs.Imports.{no_imports};

    /// No import. It takes no memory.
    pub fn empty(alloc: Global) -> FileImports
        ensures { result ≡ no_imports }
    {
        FileImports {
            singles: Vec::new(alloc),
            on_demand: ScopeList::empty(alloc),
            diags: DiagList::empty(alloc),
        }
    }

    /// The single imports that stand, in their order: each with the name under which it brings a type.
    pub fn singles(&self) -> &[(NameId, Scope)]
        ensures { result.now ≡ self.now.singles }
    {
        self.singles.as_slice()
    }

    /// The types and packages that are imported on demand, in their order.
    pub fn on_demand(&self) -> &[Scope]
        ensures { result.now ≡ self.now.on_demand }
    {
        self.on_demand.as_slice()
    }

    /// The diagnostics, which are moved out.
    pub fn into_diags(self) -> DiagList
        ensures { result ≡ self.diags }
    {
        self.diags
    }
}
