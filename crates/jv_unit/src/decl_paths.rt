//! Where the declarations of a folder stand in the trees of its files.

ghost use Rattle.std.specs.Prelude.{◌≡◌, ◌+◌, ◌<◌, [], ◌∷◌, ◌++◌, length, map, None, Some, IsSome, MatchOption, IfOk, OnOk};
ghost use Rattle.jv_tree.specs.DeclTree.{type_decl_tree, member_tree, member_trees, tree_of};
ghost use Rattle.jv_unit.specs.Paths.{paths_in, body_paths, file_paths, ArePathsOf, decl_of, decl_along, decl_by};
ghost use Rattle.jv_unit.specs.Trees.{all_decls, decl_at};

use jv_tree::{Member, TypeDecl, Unit};
use std::alloc::{AllocError, Global};
use std::marker::Model;

/// The path to the declaration of each type, in the order of types: the number of its file, the place of its top-level
/// declaration there, and then in each body the place of the member that leads on.
#[derive(Drop)]
pub(crate) struct DeclPaths {
    paths: Vec<Vec<u32>>,
}

impl Model for DeclPaths {
    ghost use Rattle.std.specs.Prelude.{List, ℕ, map};

    ghost Value = { List (List ℕ) };

    ghost view = { λ d. map (λ p. p.items) d.paths.items };
}

/// A place as a step of a path. One that is past all numbers finds no memory.
pub(crate) fn step(place: usize) -> Result<u32, AllocError>
    ensures { IfOk result (λ n. n ≡ place) }
{
    if place > u32::MAX as usize {
        return Err(AllocError);
    }
    Ok(place as u32)
}

/// The declaration that a member is, where it is one.
fn nested(member: &Member) -> Option<&TypeDecl>
    ensures { MatchOption result (decl_of (member_tree member.now) ≡ None) (λ d. member.now ≡ Member.Nested d.now) }
{
    match member {
        Member::Nested(decl) => Some(decl),
        Member::Field(..) | Member::Method(_) | Member::Ctor(_) => None,
    }
}

/// The declaration to which a path leads from this one, in each body by the place of a type that nests there. It takes
/// time in the length of the path.
fn inner<'a>(decl: &'a TypeDecl, path: &[u32]) -> &'a TypeDecl
    requires leads { IsSome (decl_along (Some (type_decl_tree decl.now)) path.now) }
    ensures { Some (type_decl_tree result.now) ≡ decl_along (Some (type_decl_tree decl.now)) path.now }
{
    let mut decl = decl;
    for place in path {
        let Some(next) = nested(&decl.members[*place as usize]) else {
            unreachable!()
        };
        decl = next;
    }
    decl
}

/// The declaration to which a path leads. It takes time in the length of the path.
fn find<'a>(files: &'a [Unit], path: &[u32]) -> &'a TypeDecl
    requires leads { IsSome (decl_by (map tree_of files.now) path.now) }
    ensures { Some (type_decl_tree result.now) ≡ decl_by (map tree_of files.now) path.now }
{
    let unit = &files[path[0] as usize];
    inner(&unit.types[path[1] as usize], &path[2..])
}

impl DeclPaths {
    /// The paths of all declarations of files. It takes time in the declarations times how deep they nest, and in the
    /// members among which they stand. A folder, a file or a body with more places than there are numbers finds no
    /// memory.
    pub(crate) fn of(alloc: Global, files: &[Unit]) -> Result<DeclPaths, AllocError>
        ensures { IfOk result (λ p. ArePathsOf (map tree_of files.now) p) }
    {
        let mut paths = DeclPaths {
            paths: Vec::new(alloc),
        };
        for (file, unit) in files.iter().enumerate() {
            paths.add_file(alloc, step(file)?, &unit.types)?;
        }
        Ok(paths)
    }

    /// The declaration of the type with a number, in the files whose paths these are. It takes time in how deep the type
    /// nests.
    pub(crate) fn decl<'a>(&self, files: &'a [Unit], t: u32) -> &'a TypeDecl
        requires paths { ArePathsOf (map tree_of files.now) self.now }
        requires within { t < length (all_decls (map tree_of files.now)) }
        ensures { type_decl_tree result.now ≡ decl_at (map tree_of files.now) t }
    {
        find(files, &self.paths[t as usize])
    }

    /// Adds the paths of the declarations of a file.
    fn add_file(&mut self, alloc: Global, file: u32, decls: &[TypeDecl]) -> Result<(), AllocError>
        ensures { OnOk result (self.new ≡ self.old ++ file_paths file 0 (map type_decl_tree decls.now)) }
    {
        let mut path = Vec::new(alloc);
        path.push(file)?;
        for (place, decl) in decls.iter().enumerate() {
            self.add_decl(&mut path, place, decl)?;
        }
        Ok(())
    }

    /// Adds the paths of a declaration that stands at a place, and of those that nest in it. The path is that of what
    /// the declaration stands in, and is so again.
    #[cycle(paths)]
    fn add_decl(
        &mut self,
        path: &mut Vec<u32>,
        place: usize,
        decl: &TypeDecl,
    ) -> Result<(), AllocError>
        ensures paths { OnOk result (self.new ≡ self.old ++ paths_in (path.old.items ++ place ∷ []) (type_decl_tree decl.now)) }
        ensures path { OnOk result (path.new.items ≡ path.old.items) }
    {
        path.push(step(place)?)?;
        self.paths.push(path.clone()?)?;
        self.add_body(path, &decl.members)?;
        path.pop();
        Ok(())
    }

    /// Adds the paths of the declarations that nest in a body. The path is that of the type, and is so again.
    #[cycle(paths)]
    fn add_body(&mut self, path: &mut Vec<u32>, body: &Vec<Member>) -> Result<(), AllocError>
        ensures paths { OnOk result (self.new ≡ self.old ++ body_paths path.old.items 0 (member_trees body.now.items)) }
        ensures path { OnOk result (path.new.items ≡ path.old.items) }
    {
        for (place, member) in body.iter().enumerate() {
            if let Some(decl) = nested(member) {
                self.add_decl(path, place, decl)?;
            }
        }
        Ok(())
    }
}
