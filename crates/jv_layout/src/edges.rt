//! The edges of a layout's opening.

ghost use Rattle.std.specs.Prelude.{◌≡◌, ◌<◌, ◌^◌, ◌++◌, length, map, All, IfOk, OnOk};
ghost use Rattle.std.specs.List.{filter};
ghost use Rattle.sg_state.specs.Opening.{edge_of};
ghost use Rattle.jv_layout.specs.Readers.{type_at};
ghost use Rattle.jv_layout.specs.Scopes.{file_scope, scope_count};
ghost use Rattle.jv_layout.specs.Skeleton.{skeleton_of, package_edges, file_edges, lang_edges, type_edge, self_edge, is_top, member_edge, signature_edges, parent_scope, package_row_at, home_of};

use crate::tables::{Layout, label_of, scope_at};
use jv_instance::labels;
use sg_base::{Label, Scope};
use std::alloc::{AllocError, Global};

impl Layout {
    /// The scope that encloses a package.
    pub(crate) fn parent_scope(&self, p: usize) -> Scope
        requires { p < length self.now.packages }
        ensures { result ≡ parent_scope (package_row_at self.now p).parent }
    {
        match self.packages[p].parent {
            None => scope_at(0),
            Some(outer) => scope_at(2 + outer),
        }
    }

    /// The scope that declares a type. There are fewer than 2^31 scopes.
    pub(crate) fn home(&self, t: usize) -> Scope
        requires { t < length self.now.types }
        ensures value { result ≡ home_of self.now (type_at self.now t) }
        ensures few { scope_count self.now < 2 ^ 31 }
    {
        let row = self.types[t];
        match row.owner {
            Some(owner) => scope_at(self.first_type() + owner),
            None => self.file_package(row.file as usize),
        }
    }

    /// The scope of a type's file. There are fewer than 2^31 scopes.
    fn file_of_type(&self, t: u32) -> Scope
        requires { t < length self.now.types }
        ensures value { result ≡ file_scope self.now (type_at self.now t).file }
        ensures few { scope_count self.now < 2 ^ 31 }
    {
        self.file_scope(self.types[t as usize].file)
    }

    /// The edges between packages.
    fn add_package_edges(&self, edges: &mut Vec<(Scope, Label, Scope)>) -> Result<(), AllocError>
        ensures { OnOk result (map edge_of edges.new.items ≡ map edge_of edges.old.items ++ package_edges self.now) }
    {
        let label = Label::new(labels::PKG);
        for p in 0..self.packages.len() {
            edges.push((self.parent_scope(p), label, scope_at(2 + p as u32)))?;
        }
        Ok(())
    }

    /// The edges from files to their packages.
    fn add_file_edges(&self, edges: &mut Vec<(Scope, Label, Scope)>) -> Result<(), AllocError>
        ensures { OnOk result (map edge_of edges.new.items ≡ map edge_of edges.old.items ++ file_edges self.now) }
    {
        let label = Label::new(labels::PKGOF);
        for f in 0..self.files.len() {
            edges.push((self.file_scope(f as u32), label, self.file_package(f)))?;
        }
        Ok(())
    }

    /// The edges from files to `java.lang`.
    fn add_lang_edges(&self, edges: &mut Vec<(Scope, Label, Scope)>) -> Result<(), AllocError>
        ensures { OnOk result (map edge_of edges.new.items ≡ map edge_of edges.old.items ++ lang_edges self.now) }
    {
        let label = Label::new(labels::ODI);
        let lang = self.file_package(0);
        for f in 0..self.files.len() {
            edges.push((self.file_scope(f as u32), label, lang))?;
        }
        Ok(())
    }

    /// The edges to types, duplicates excepted.
    fn add_type_edges(
        &self,
        edges: &mut Vec<(Scope, Label, Scope)>,
        firsts: &[u32],
    ) -> Result<(), AllocError>
        requires { All (λ t. t < length self.now.types) firsts.now }
        ensures { OnOk result (map edge_of edges.new.items ≡ map edge_of edges.old.items ++ map (type_edge self.now) firsts.now) }
    {
        let label = Label::new(labels::TYPE);
        for t in firsts {
            edges.push((self.home(*t as usize), label, self.type_scope(*t)))?;
        }
        Ok(())
    }

    /// The edges from files to their top-level types, duplicates excepted.
    fn add_self_edges(
        &self,
        edges: &mut Vec<(Scope, Label, Scope)>,
        firsts: &[u32],
    ) -> Result<(), AllocError>
        requires { All (λ t. t < length self.now.types) firsts.now }
        ensures { OnOk result (map edge_of edges.new.items
            ≡ map edge_of edges.old.items ++ map (self_edge self.now) (filter (is_top self.now) firsts.now)) }
    {
        let label = Label::new(labels::SELF);
        for t in firsts {
            let row = self.type_row(*t);
            if row.owner.is_none() {
                edges.push((self.file_of_type(*t), label, self.type_scope(*t)))?;
            }
        }
        Ok(())
    }

    /// The edges from types to their members, duplicates excepted.
    fn add_member_edges(
        &self,
        edges: &mut Vec<(Scope, Label, Scope)>,
        firsts: &[u32],
    ) -> Result<(), AllocError>
        requires { All (λ m. m < length self.now.members) firsts.now }
        ensures { OnOk result (map edge_of edges.new.items ≡ map edge_of edges.old.items ++ map (member_edge self.now) firsts.now) }
    {
        for m in firsts {
            let label = label_of(self.member_row(*m).kind);
            edges.push((self.type_of_member(*m), label, self.member_scope(*m)))?;
        }
        Ok(())
    }

    /// The edges from members to the scopes of their signatures.
    fn add_signature_edges(&self, edges: &mut Vec<(Scope, Label, Scope)>) -> Result<(), AllocError>
        ensures { OnOk result (map edge_of edges.new.items ≡ map edge_of edges.old.items ++ signature_edges self.now) }
    {
        let label = Label::new(labels::SIG);
        for m in 0..self.members.len() {
            edges.push((
                self.member_scope(m as u32),
                label,
                self.signature_of_member(m as u32),
            ))?;
        }
        Ok(())
    }

    /// All edges, in the order of the opening.
    pub(crate) fn edges(&self, alloc: Global) -> Result<Vec<(Scope, Label, Scope)>, AllocError>
        ensures { IfOk result (λ v. map edge_of v.items ≡ (skeleton_of self.now).edges) }
    {
        let types = self.first_types(alloc)?;
        let members = self.first_members(alloc)?;
        let mut edges = Vec::new(alloc);
        self.add_package_edges(&mut edges)?;
        self.add_file_edges(&mut edges)?;
        self.add_lang_edges(&mut edges)?;
        self.add_type_edges(&mut edges, &types)?;
        self.add_self_edges(&mut edges, &types)?;
        self.add_member_edges(&mut edges, &members)?;
        self.add_signature_edges(&mut edges)?;
        Ok(edges)
    }
}
