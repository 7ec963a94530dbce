//! The opening of a layout, the graph with which a run begins.

ghost use Rattle.std.specs.Prelude.{◌≡◌, ◌++◌, map, IfOk, OnOk};
ghost use Rattle.sg_state.specs.Opening.{row_hold_of, held_datum_of, opening_of};
ghost use Rattle.jv_layout.specs.Skeleton.{skeleton_of, type_data, member_data, type_holds};

use crate::tables::{Layout, scope_at, scopes_from};
use jv_instance::{JavaDatum, labels};
use sg_base::{Label, Scope};
use sg_state::Opening;
use std::alloc::{AllocError, Global};

impl Layout {
    /// The data of packages, types and members.
    fn given(&self, alloc: Global) -> Result<Vec<(Scope, JavaDatum)>, AllocError>
        ensures { IfOk result (λ v. v.items ≡ (skeleton_of self.now).given) }
    {
        let mut given = Vec::new(alloc);
        for p in 0..self.packages.len() {
            let name = self.package_row(p as u32).name;
            given.push((scope_at(2 + p as u32), JavaDatum::Package { name }))?;
        }
        self.add_type_data(&mut given)?;
        self.add_member_data(&mut given)?;
        Ok(given)
    }

    /// The data of types.
    fn add_type_data(&self, given: &mut Vec<(Scope, JavaDatum)>) -> Result<(), AllocError>
        ensures { OnOk result (given.new.items ≡ given.old.items ++ type_data self.now) }
    {
        for t in 0..self.types.len() {
            let name = self.type_row(t as u32).name;
            given.push((self.type_scope(t as u32), JavaDatum::TypeName { name }))?;
        }
        Ok(())
    }

    /// The data of members.
    fn add_member_data(&self, given: &mut Vec<(Scope, JavaDatum)>) -> Result<(), AllocError>
        ensures { OnOk result (given.new.items ≡ given.old.items ++ member_data self.now) }
    {
        for m in 0..self.members.len() {
            let name = self.member_row(m as u32).name;
            given.push((self.member_scope(m as u32), JavaDatum::Member { name }))?;
        }
        Ok(())
    }

    /// The rows that units hold.
    fn row_holds(&self, alloc: Global) -> Result<Vec<(u32, Scope, Label)>, AllocError>
        ensures { IfOk result (λ v. map row_hold_of v.items ≡ (skeleton_of self.now).row_holds) }
    {
        let mut holds = Vec::new(alloc);
        let single = Label::new(labels::SIMP);
        let on_demand = Label::new(labels::ODI);
        for f in 0..self.files.len() {
            let scope = self.file_scope(f as u32);
            holds.push((f as u32, scope, single))?;
            holds.push((f as u32, scope, on_demand))?;
        }
        self.add_type_holds(&mut holds)?;
        Ok(holds)
    }

    /// The rows that the units of types hold.
    fn add_type_holds(&self, holds: &mut Vec<(u32, Scope, Label)>) -> Result<(), AllocError>
        ensures { OnOk result (map row_hold_of holds.new.items ≡ map row_hold_of holds.old.items ++ type_holds self.now) }
    {
        let label = Label::new(labels::EXT);
        let files = self.files.len() as u32;
        for t in 0..self.types.len() {
            holds.push((files + t as u32, self.type_scope(t as u32), label))?;
        }
        Ok(())
    }

    /// The data that units hold.
    fn datum_holds(&self, alloc: Global) -> Result<Vec<(u32, Scope)>, AllocError>
        ensures { IfOk result (λ v. map held_datum_of v.items ≡ (skeleton_of self.now).datum_holds) }
    {
        let mut holds = Vec::new(alloc);
        let files = self.files.len() as u32;
        for m in 0..self.members.len() {
            let owner = self.member_row(m as u32).owner;
            holds.push((files + owner, self.signature_of_member(m as u32)))?;
        }
        Ok(holds)
    }

    /// The graph with which a run begins, and who holds what there: a unit for each file, and then one for each type. No
    /// edge goes to a type with the name of an earlier one of its package or type, nor to a member with the kind and the
    /// name of an earlier one of its type. It takes time in the number of scopes, with one look-up by hash for each type
    /// and member.
    pub fn opening(&self, alloc: Global) -> Result<Opening<JavaDatum>, AllocError>
        ensures { IfOk result (λ o. opening_of o ≡ skeleton_of self.now) }
    {
        Ok(Opening {
            scopes: scopes_from(alloc, 0, self.scope_count())?,
            edges: self.edges(alloc)?,
            given: self.given(alloc)?,
            row_holds: self.row_holds(alloc)?,
            datum_holds: self.datum_holds(alloc)?,
            units: self.files.len() as u32 + self.types.len() as u32,
        })
    }
}
