//! Types that are written one after another.

use jv_diag::DiagList;
use jv_instance::{JavaPred, Ty};
use jv_names::WrittenType;
use sg_query::Query;
use sg_reading::Stop;
use std::alloc::{AllocError, Global};
use std::marker::Model;

/// Types that are written, in their order. Contracts see their list.
#[derive(Debug, Drop)]
pub struct WrittenTypes {
    found: Vec<WrittenType>,
}

impl Model for WrittenTypes {
    ghost use Rattle.std.specs.Prelude.{List};
    ghost use Rattle.jv_names.specs.declared.written_type.WrittenType.{WrittenType};

    ghost Value = { List WrittenType };

    ghost view = { λ w. w.found.items };
}

impl WrittenTypes {
    ghost use Rattle.std.specs.Prelude.{◌≡◌, [], ◌∷◌, ◌++◌, MatchResult, OnOk};
    ghost use Rattle.sg_reading.specs.declared.stop.Stop.TheVariants.{OutOfMemory};
    ghost use Rattle.jv_member.specs.Signatures.{types_of, diags_of};

    /// No type.
    pub fn empty(alloc: Global) -> WrittenTypes
        ensures { result ≡ [] }
    {
        WrittenTypes {
            found: Vec::new(alloc),
        }
    }

    /// These types and one more.
    pub fn with(mut self, written: WrittenType) -> Result<WrittenTypes, Stop<Query<JavaPred>>>
        ensures { MatchResult result (λ types. types ≡ self ++ written ∷ []) (λ stop. stop ≡ OutOfMemory) }
    {
        self.found.push(written)?;
        Ok(self)
    }

    /// Puts what the types mean behind other types, and their diagnostics behind others. It takes time in their number and in
    /// that of their diagnostics.
    pub fn put_behind(self, types: &mut Vec<Ty>, diags: &mut DiagList) -> Result<(), AllocError>
        ensures types { OnOk result (types.new.items ≡ types.old.items ++ types_of self) }
        ensures diags { OnOk result (diags.new ≡ diags.old ++ diags_of self) }
    {
        for written in self.found {
            types.push(written.ty)?;
            diags.append(written.diags)?;
        }
        Ok(())
    }
}
