//! Where the members of a folder stand in the trees of its files.

ghost use Rattle.std.specs.Prelude.{◌≡◌, ◌+◌, ◌<◌, [], ◌∷◌, ◌++◌, length, map, Some, IsSome, IfOk, OnOk};
ghost use Rattle.std.specs.List.{slice_get};
ghost use Rattle.jv_layout.specs.Folder.{has_ctor, decl_count, body_count, file_count};
ghost use Rattle.jv_member.specs.MemberDecls.{own_of};
ghost use Rattle.jv_tree.specs.StmtTree.{var_trees};
ghost use Rattle.jv_tree.specs.DeclTree.{type_decl_tree, member_trees, tree_of};
ghost use Rattle.jv_unit.specs.MemberPlaces.{in_body, variable_places, decl_places, body_places, file_places, places_from, own_placed};

use crate::decl_paths::step;
use jv_member::MemberDecl;
use jv_tree::{Member, TypeDecl, Unit, Var};
use std::alloc::{AllocError, Global};

/// A place in the body of a type, and in a declaration of fields the number of the variable there; 0 in other members.
#[derive(Clone, Copy)]
pub(crate) struct BodyPlace {
    pub member: u32,
    pub variable: u32,
}

/// Where a member stands: the number of its type, and its place in the body there. A default constructor has none.
#[derive(Clone, Copy)]
pub(crate) struct MemberPlace {
    pub owner: u32,
    pub place: Option<BodyPlace>,
}

/// The places of members in the order of the layout, and how many types they are of.
#[derive(Drop)]
pub(crate) struct MemberPlaces {
    places: Vec<MemberPlace>,
    types: u32,
}

/// Whether a constructor stands among members. It takes time in their number.
fn has_ctor(body: &[Member]) -> bool
    ensures { result ≡ has_ctor (member_trees body.now) }
{
    for member in body {
        if let Member::Ctor(_) = member {
            return true;
        }
    }
    false
}

/// The number that comes next. Behind the last one there is no memory.
fn next(number: u32) -> Result<u32, AllocError>
    ensures { IfOk result (λ n. n ≡ number + 1) }
{
    if number == u32::MAX {
        return Err(AllocError);
    }
    Ok(number + 1)
}

/// The member at a place of a declaration. It takes the same time for each.
pub(crate) fn member_at<'a>(decl: &'a TypeDecl, place: Option<BodyPlace>) -> MemberDecl<'a>
    requires stands { IsSome (own_placed (type_decl_tree decl.now) place) }
    ensures { Some (own_of result) ≡ own_placed (type_decl_tree decl.now) place }
{
    let Some(at) = place else {
        return MemberDecl::DefaultCtor(decl.name);
    };
    match &decl.members[at.member as usize] {
        Member::Nested(_) => unreachable!(),
        Member::Field(mods, ty, variables) => {
            MemberDecl::Field(mods, ty, &variables[at.variable as usize])
        }
        Member::Method(method) => MemberDecl::Method(method),
        Member::Ctor(ctor) => MemberDecl::Ctor(ctor),
    }
}

impl MemberPlaces {
    /// The places of all members of files. It takes time in the types and the members. Files with more types, or a body
    /// with more places, than there are numbers find no memory.
    pub(crate) fn of(alloc: Global, files: &[Unit]) -> Result<MemberPlaces, AllocError>
        ensures { IfOk result (λ p. p.places.items ≡ places_from 0 (map tree_of files.now)) }
    {
        let mut places = MemberPlaces {
            places: Vec::new(alloc),
            types: 0,
        };
        for unit in files {
            places.add_file(&unit.types)?;
        }
        Ok(places)
    }

    /// The place of the member with a number.
    pub(crate) fn at(&self, m: u32) -> MemberPlace
        requires within { m < length self.now.places.items }
        ensures { Some result ≡ slice_get self.now.places.items m }
    {
        self.places[m as usize]
    }

    /// Adds the members of the declarations of a file.
    fn add_file(&mut self, decls: &[TypeDecl]) -> Result<(), AllocError>
        ensures places { OnOk result (self.new.places.items ≡ self.old.places.items ++ file_places self.old.types (map type_decl_tree decls.now)) }
        ensures types { OnOk result (self.new.types ≡ self.old.types + file_count (map type_decl_tree decls.now)) }
    {
        for decl in decls {
            self.add_decl(decl)?;
        }
        Ok(())
    }

    /// Adds the members of a declaration and of those that nest in it.
    #[cycle(places)]
    fn add_decl(&mut self, decl: &TypeDecl) -> Result<(), AllocError>
        ensures places { OnOk result (self.new.places.items ≡ self.old.places.items ++ decl_places self.old.types (type_decl_tree decl.now)) }
        ensures types { OnOk result (self.new.types ≡ self.old.types + decl_count (type_decl_tree decl.now)) }
    {
        let owner = self.types;
        self.types = next(owner)?;
        if !decl.interface && !has_ctor(&decl.members) {
            self.places.push(MemberPlace { owner, place: None })?;
        }
        self.add_body(owner, &decl.members)
    }

    /// Adds the members of the body of a type and of the types that nest there.
    #[cycle(places)]
    fn add_body(&mut self, owner: u32, body: &Vec<Member>) -> Result<(), AllocError>
        ensures places { OnOk result (self.new.places.items
            ≡ self.old.places.items ++ body_places owner 0 self.old.types (member_trees body.now.items)) }
        ensures types { OnOk result (self.new.types ≡ self.old.types + body_count (member_trees body.now.items)) }
    {
        for (place, member) in body.iter().enumerate() {
            match member {
                Member::Nested(decl) => self.add_decl(decl)?,
                Member::Field(_, _, variables) => self.add_fields(owner, step(place)?, variables)?,
                Member::Method(_) | Member::Ctor(_) => self.add(owner, step(place)?, 0)?,
            }
        }
        Ok(())
    }

    /// Adds the fields of one declaration.
    fn add_fields(&mut self, owner: u32, place: u32, variables: &[Var]) -> Result<(), AllocError>
        ensures places { OnOk result (self.new.places.items ≡ self.old.places.items ++ variable_places owner place (var_trees variables.now)) }
        ensures types { OnOk result (self.new.types ≡ self.old.types) }
    {
        for variable in 0..variables.len() {
            self.add(owner, place, step(variable)?)?;
        }
        Ok(())
    }

    /// Adds a member at a place.
    fn add(&mut self, owner: u32, member: u32, variable: u32) -> Result<(), AllocError>
        ensures places { OnOk result (self.new.places.items ≡ self.old.places.items ++ in_body owner member variable ∷ []) }
        ensures types { OnOk result (self.new.types ≡ self.old.types) }
    {
        self.places.push(MemberPlace {
            owner,
            place: Some(BodyPlace { member, variable }),
        })?;
        Ok(())
    }
}
