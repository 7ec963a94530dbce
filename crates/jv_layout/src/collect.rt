//! The types and members of a folder, as the text has them.

ghost use Rattle.std.specs.Prelude.{◌≡◌, ◌+◌, ◌<◌, ◌^◌, [], ◌++◌, length, map, IfOk, IfErr, OnOk};
ghost use Rattle.jv_tree.specs.StmtTree.{var_trees};
ghost use Rattle.jv_tree.specs.DeclTree.{type_decl_tree, member_trees, tree_of};
ghost use Rattle.jv_layout.specs.Folder.{decl_types, body_types, decl_members, body_members, has_ctor, modifiers_of, field_row, file_types, file_members, types_from, members_from};

use crate::fault::LayoutFault;
use crate::rows::{MemberKind, MemberRow, Modifiers, TypeRow};
use jv_tree::{Member, NameId, TypeDecl, Unit, Var};
use std::alloc::Global;

/// What was collected so far.
#[derive(Drop)]
pub struct Collected {
    pub types: Vec<TypeRow>,
    pub members: Vec<MemberRow>,
}

/// Whether a constructor stands among members. It takes time in their number.
fn has_ctor(body: &[Member]) -> bool
    ensures { result ≡ has_ctor (member_trees body.now) }
{
    for member in body {
        if let Member::Ctor(_) = member {
            return true;
        }
    }
    false
}

impl Collected {
    /// Nothing so far.
    pub fn new(alloc: Global) -> Collected
        ensures types { result.types.items ≡ [] }
        ensures members { result.members.items ≡ [] }
    {
        Collected {
            types: Vec::new(alloc),
            members: Vec::new(alloc),
        }
    }

    /// The number of the type that comes next. A folder with more types than there are numbers finds no memory.
    fn next(&self) -> Result<u32, LayoutFault>
        ensures number { IfOk result (λ n. n ≡ length self.now.types.items) }
        ensures err { IfErr result (λ e. e ≡ LayoutFault.OutOfMemory) }
    {
        if self.types.len() > u32::MAX as usize {
            return Err(LayoutFault::OutOfMemory);
        }
        Ok(self.types.len() as u32)
    }

    /// Adds the fields of one declaration.
    fn add_fields(
        &mut self,
        owner: u32,
        modifiers: Modifiers,
        variables: &[Var],
    ) -> Result<(), LayoutFault>
        ensures types { OnOk result (self.new.types ≡ self.old.types) }
        ensures members { OnOk result (self.new.members.items
            ≡ self.old.members.items
            ++ map (field_row owner modifiers) (var_trees variables.now)) }
        ensures err { IfErr result (λ e. e ≡ LayoutFault.OutOfMemory) }
    {
        for variable in variables {
            self.members.push(MemberRow {
                owner,
                kind: MemberKind::Field,
                name: variable.name.id,
                modifiers,
            })?;
        }
        Ok(())
    }

    /// Adds a declaration with the types and members in its body.
    #[cycle(collect)]
    fn add_decl(
        &mut self,
        file: u32,
        owner: Option<u32>,
        top: u32,
        decl: &TypeDecl,
    ) -> Result<(), LayoutFault>
        ensures types { OnOk result (self.new.types.items
            ≡ self.old.types.items ++ decl_types file owner top (length self.old.types.items) (type_decl_tree decl.now)) }
        ensures members { OnOk result (self.new.members.items
            ≡ self.old.members.items ++ decl_members (length self.old.types.items) (type_decl_tree decl.now)) }
        ensures err { IfErr result (λ e. e ≡ LayoutFault.OutOfMemory) }
    {
        let number = self.next()?;
        let name = decl.name.id;
        let modifiers = Modifiers::of(&decl.mods);
        self.types.push(TypeRow {
            file,
            owner,
            top,
            name,
            modifiers,
            interface: decl.interface,
        })?;
        if !decl.interface && !has_ctor(&decl.members) {
            self.members.push(MemberRow {
                owner: number,
                kind: MemberKind::DefaultCtor,
                name,
                modifiers: Modifiers::none(),
            })?;
        }
        self.add_body(file, number, top, name, &decl.members)
    }

    /// Adds what stands in the body of a type.
    #[cycle(collect)]
    fn add_body(
        &mut self,
        file: u32,
        owner: u32,
        top: u32,
        class: NameId,
        body: &Vec<Member>,
    ) -> Result<(), LayoutFault>
        ensures types { OnOk result (self.new.types.items
            ≡ self.old.types.items ++ body_types file owner top (length self.old.types.items) (member_trees body.now.items)) }
        ensures members { OnOk result (self.new.members.items
            ≡ self.old.members.items ++ body_members owner class (length self.old.types.items) (member_trees body.now.items)) }
        ensures err { IfErr result (λ e. e ≡ LayoutFault.OutOfMemory) }
    {
        for member in body {
            match member {
                Member::Nested(decl) => self.add_decl(file, Some(owner), top, decl)?,
                Member::Field(mods, _, variables) => {
                    self.add_fields(owner, Modifiers::of(mods), variables)?
                }
                Member::Method(method) => self.members.push(MemberRow {
                    owner,
                    kind: MemberKind::Method,
                    name: method.name.id,
                    modifiers: Modifiers::of(&method.mods),
                })?,
                Member::Ctor(ctor) => self.members.push(MemberRow {
                    owner,
                    kind: MemberKind::Ctor,
                    name: class,
                    modifiers: Modifiers::of(&ctor.mods),
                })?,
            }
        }
        Ok(())
    }

    /// Adds the declarations of a file.
    fn add_file(&mut self, file: u32, decls: &[TypeDecl]) -> Result<(), LayoutFault>
        ensures types { OnOk result (self.new.types.items
            ≡ self.old.types.items ++ file_types file (length self.old.types.items) (map type_decl_tree decls.now)) }
        ensures members { OnOk result (self.new.members.items
            ≡ self.old.members.items ++ file_members (length self.old.types.items) (map type_decl_tree decls.now)) }
        ensures err { IfErr result (λ e. e ≡ LayoutFault.OutOfMemory) }
    {
        for decl in decls {
            let number = self.next()?;
            self.add_decl(file, None, number, decl)?;
        }
        Ok(())
    }

    /// Adds the declarations of all files.
    pub fn add_files(&mut self, files: &[Unit]) -> Result<(), LayoutFault>
        requires files { length files.now < 2 ^ 32 }
        requires none { self.old.types.items ≡ [] }
        requires no_members { self.old.members.items ≡ [] }
        ensures types { OnOk result (self.new.types.items ≡ types_from 0 0 (map tree_of files.now)) }
        ensures members { OnOk result (self.new.members.items ≡ members_from 0 (map tree_of files.now)) }
        ensures err { IfErr result (λ e. e ≡ LayoutFault.OutOfMemory) }
    {
        for (file, unit) in files.iter().enumerate() {
            self.add_file(file as u32, &unit.types)?;
        }
        Ok(())
    }
}
