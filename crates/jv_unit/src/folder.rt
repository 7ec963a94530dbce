//! What the units of a folder share.

ghost use Rattle.std.specs.Prelude.{◌≡◌, ◌+◌, ◌<◌, ◌^◌, length, map, IfOk};
ghost use Rattle.jv_layout.specs.Scopes.{type_scope};
ghost use Rattle.jv_member.specs.MemberDecls.{own_of};
ghost use Rattle.jv_tree.specs.DeclTree.{import_tree, tree_of, type_decl_tree};
ghost use Rattle.jv_unit.specs.Folder.{IsFolderOf};
ghost use Rattle.jv_unit.specs.Kept.{folder_of, IsWhole};
ghost use Rattle.jv_unit.specs.Owns.{own_at};
ghost use Rattle.jv_unit.specs.Trees.{decl_at, unit_at};

use crate::decl_paths::DeclPaths;
use crate::member_places::{MemberPlaces, member_at};
use jv_layout::{Declarations, Layout};
use jv_member::MemberDecl;
use jv_tree::{Import, Names, TypeDecl, Unit};
use sg_base::Scope;
use sg_query::KindTable;
use std::alloc::{AllocError, Global};
use std::snapshot::Snapshot;

/// What the units of a folder share: the layout of its files, their trees, the texts of the names, and what is looked up of
/// declarations. Contracts see the layout, the names, the pure trees and the table of kinds by `folder_of`.
#[derive(Drop)]
pub struct Folder {
    layout: Layout,
    declarations: Declarations,
    names: Names,
    files: Vec<Unit>,
    paths: DeclPaths,
    members: MemberPlaces,
    kinds: Snapshot<KindTable>,
}

impl Folder {
    /// The folder of a layout, with the names and the files that it was made of, and a table of Java's kinds. It takes time in the
    /// number of declarations and how deep they nest, and in the members.
    pub fn new(
        alloc: Global,
        layout: Layout,
        names: Names,
        files: Vec<Unit>,
        kinds: &KindTable,
    ) -> Result<Folder, AllocError>
        requires { IsFolderOf (record { layout = layout; names = names; files = map tree_of files.items; kinds = kinds.now }) }
        ensures folder { IfOk result (λ w. folder_of w ≡ record { layout = layout; names = names; files = map tree_of files.items; kinds = kinds.now }) }
        ensures whole { IfOk result IsWhole }
    {
        let declarations = layout.declarations(alloc)?;
        let paths = DeclPaths::of(alloc, &files)?;
        let members = MemberPlaces::of(alloc, &files)?;
        Ok(Folder {
            layout,
            declarations,
            names,
            files,
            paths,
            members,
            kinds: Snapshot::of(kinds),
        })
    }

    /// The layout.
    pub fn layout(&self) -> &Layout
        ensures { result.now ≡ self.now.layout }
    {
        &self.layout
    }

    /// The names.
    pub fn names(&self) -> &Names
        ensures { result.now ≡ self.now.names }
    {
        &self.names
    }

    /// The table of duplicates and packages.
    pub(crate) fn declarations(&self) -> &Declarations
        requires { IsWhole self.now }
        ensures { result.now ≡ self.now.layout }
    {
        &self.declarations
    }

    /// How many files there are.
    #[tactic(auto, using(crate::proofs::Folders::folder_facts))]
    pub fn file_count(&self) -> u32
        requires { IsWhole self.now }
        ensures { result ≡ length self.now.layout.files }
    {
        self.files.len() as u32
    }

    /// How many types there are.
    #[tactic(auto, using(crate::proofs::Folders::folder_facts))]
    pub fn type_count(&self) -> u32
        requires { IsWhole self.now }
        ensures count { result ≡ length self.now.layout.types }
        ensures few { length self.now.layout.files + length self.now.layout.types < 2 ^ 31 }
    {
        self.layout.types().len() as u32
    }

    /// The file with a number.
    #[tactic(auto, using(crate::proofs::Folders::folder_facts))]
    pub(crate) fn file(&self, f: u32) -> &Unit
        requires whole { IsWhole self.now }
        requires within { f < length self.now.layout.files }
        ensures { tree_of result.now ≡ unit_at (folder_of self.now).files f }
    {
        &self.files[f as usize]
    }

    /// The imports of the file with a number, as the text has them.
    pub(crate) fn imports(&self, f: u32) -> &[Import]
        requires whole { IsWhole self.now }
        requires within { f < length self.now.layout.files }
        ensures { map import_tree result.now ≡ (unit_at (folder_of self.now).files f).imports }
    {
        self.file(f).imports.as_slice()
    }

    /// The scope of the type with a number.
    #[tactic(auto, using(crate::proofs::Folders::folder_facts))]
    pub fn ty(&self, t: u32) -> Scope
        requires whole { IsWhole self.now }
        requires within { t < length self.now.layout.types }
        ensures { result ≡ type_scope self.now.layout t }
    {
        self.layout.types()[t as usize]
    }

    /// The declaration of the type with a number, in the time of how deep it nests.
    #[tactic(auto, using(crate::proofs::Folders::folder_facts))]
    pub fn decl(&self, t: u32) -> &TypeDecl
        requires whole { IsWhole self.now }
        requires within { t < length self.now.layout.types }
        ensures { type_decl_tree result.now ≡ decl_at (folder_of self.now).files t }
    {
        self.paths.decl(&self.files, t)
    }

    /// The declaration of the member with a number, in the time of how deep its type nests.
    pub(crate) fn member(&self, m: u32) -> MemberDecl<'_>
        requires whole { IsWhole self.now }
        requires within { m < length self.now.layout.members }
        ensures { own_of result ≡ own_at (folder_of self.now).files m }
    {
        let place = self.members.at(m);
        member_at(self.decl(place.owner), place.place)
    }
}
