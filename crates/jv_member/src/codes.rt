//! What is wrong with pairs of methods, one after another.

ghost use Rattle.std.specs.Prelude.{◌≡◌, ◌++◌, OnOk};
ghost use Rattle.jv_member.specs.Overriding.{code_diags};

use crate::clash::Clash;
use jv_diag::DiagList;
use jv_instance::JavaPred;
use jv_layout::{Layout, text_of};
use jv_tree::{Ident, NameId, Names};
use sg_base::Scope;
use sg_query::Query;
use sg_reading::Stop;
use std::alloc::{AllocError, Global};
use std::marker::Model;

/// What is wrong with each of some pairs of methods. Contracts see the list of codes.
#[derive(Debug, Drop)]
pub struct Codes {
    found: Vec<Option<Clash>>,
}

impl Model for Codes {
    ghost use Rattle.std.specs.Prelude.{ℕ, List, Option};

    ghost Value = { List (Option ℕ) };

    ghost view = { λ c. c.found.items };
}

impl Codes {
    ghost use Rattle.std.specs.Prelude.{◌≡◌, [], ◌∷◌, ◌++◌, MatchResult};
    ghost use Rattle.sg_reading.specs.declared.stop.Stop.TheVariants.{OutOfMemory};

    /// No pair.
    pub fn empty(alloc: Global) -> Codes
        ensures { result ≡ [] }
    {
        Codes {
            found: Vec::new(alloc),
        }
    }

    /// The pairs, first to last.
    pub fn as_slice(&self) -> &[Option<Clash>]
        ensures { result.now ≡ self.now }
    {
        self.found.as_slice()
    }

    /// These pairs and one more.
    pub fn with(mut self, clash: Option<Clash>) -> Result<Codes, Stop<Query<JavaPred>>>
        ensures { MatchResult result (λ codes. codes ≡ self ++ clash ∷ []) (λ stop. stop ≡ OutOfMemory) }
    {
        self.found.push(clash)?;
        Ok(self)
    }
}

/// Adds the diagnostics of codes at a place of a type's file, all with one name.
pub fn add_codes(
    alloc: Global,
    diags: &mut DiagList,
    l: &Layout,
    names: &Names,
    ty: Scope,
    place: Ident,
    name: NameId,
    codes: &[Option<Clash>],
) -> Result<(), AllocError>
    ensures { OnOk result (diags.new ≡ diags.old ++ code_diags l.now names.now ty place name codes.now) }
{
    for code in codes {
        if let Some(clash) = code {
            diags.add(
                alloc,
                l.file_of(ty),
                place.at,
                clash.code(),
                &[text_of(names, name)],
            )?;
        }
    }
    Ok(())
}
