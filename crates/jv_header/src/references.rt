//! References in the header of a type.

ghost use Rattle.std.specs.Prelude.{◌≡◌, ◌<◌, ◌^◌, map};
ghost use Rattle.sg_reading.specs.Reading.{each};
ghost use Rattle.sg_reading.specs.Stop.{Reads};
ghost use Rattle.jv_layout.specs.Readers.{file_of};
ghost use Rattle.jv_tree.specs.TypeTree.{ids_of};
ghost use Rattle.jv_names.specs.Bodies.{header_bodies};
ghost use Rattle.jv_names.specs.Replies.{reply_to};
ghost use Rattle.jv_header.specs.Header.{header_reference};
ghost use Rattle.jv_header.specs.Progress.{IsClauseSoFar, with_found};

use jv_instance::JavaPred;
use jv_layout::Layout;
use jv_names::{Oracle, Reference, Spot, read_reference};
use jv_tree::Name;
use sg_base::Scope;
use sg_query::Query;
use sg_reading::Stop;
use std::alloc::{AllocError, Global};
use std::marker::Model;

/// What references mean, in the order of their names. Contracts see their list.
#[derive(Debug, Drop)]
pub struct References {
    found: Vec<Reference>,
}

impl Model for References {
    ghost use Rattle.std.specs.Prelude.{List};
    ghost use Rattle.jv_names.specs.declared.reference.Reference.{Reference};

    ghost Value = { List Reference };

    ghost view = { λ r. r.found.items };
}

impl References {
    ghost use Rattle.std.specs.Prelude.{◌≡◌, [], ◌∷◌, ◌++◌, length, MatchResult, OnOk, OnErr};
    ghost use Rattle.sg_reading.specs.declared.stop.Stop.TheVariants.{OutOfMemory};

    /// No reference.
    pub fn empty(alloc: Global) -> References
        ensures { result ≡ [] }
    {
        References {
            found: Vec::new(alloc),
        }
    }

    /// The references, first to last.
    pub fn as_slice(&self) -> &[Reference]
        ensures { result.now ≡ self.now }
    {
        self.found.as_slice()
    }

    /// How many there are.
    pub(crate) fn len(&self) -> usize
        ensures { result ≡ length self.now }
    {
        self.found.len()
    }

    /// Adds a reference behind the others. After want of memory they are what they were.
    pub(crate) fn push(&mut self, reference: Reference) -> Result<(), AllocError>
        ensures ok { OnOk result (self.new ≡ self.old ++ reference ∷ []) }
        ensures err { OnErr result (self.new ≡ self.old) }
    {
        self.found.push(reference)?;
        Ok(())
    }

    /// These references and one more.
    pub fn with(mut self, reference: Reference) -> Result<References, Stop<Query<JavaPred>>>
        ensures { MatchResult result (λ references. references ≡ self ++ reference ∷ []) (λ stop. stop ≡ OutOfMemory) }
    {
        self.found.push(reference)?;
        Ok(self)
    }
}

/// What the references of a clause mean in the header of a type, behind those found so far, or the first query that has no
/// reply. Where it stops, those before the reference at which it stopped stay found.
#[tactic(auto, using(crate::proofs::Progress::clause_steps))]
pub(crate) fn read_references(
    alloc: Global,
    l: &Layout,
    o: &Oracle,
    ty: Scope,
    spot: &Spot,
    clause: &[Name],
    found: &mut References,
) -> Result<(), Stop<Query<JavaPred>>>
    requires few { spot.now.file < 2 ^ 31 }
    requires file { spot.now.file ≡ file_of l.now ty }
    requires inside { spot.now.inside.items ≡ header_bodies l.now ty }
    requires so_far { IsClauseSoFar (reply_to o.now) l.now ty (map ids_of clause.now) found.old }
    ensures reads { Reads (reply_to o.now) (each (header_reference l.now ty) (map ids_of clause.now)) (with_found result found.new) }
    ensures so_far { IsClauseSoFar (reply_to o.now) l.now ty (map ids_of clause.now) found.new }
{
    while found.len() < clause.len() {
        let name = &clause[found.len()];
        let reference = read_reference(alloc, l, o, spot, name)?;
        found.push(reference)?;
    }
    Ok(())
}
