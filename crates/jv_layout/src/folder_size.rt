//! Whether files may be a folder: there are not too many, and they do not declare too many names.

ghost use Rattle.std.specs.Prelude.{◌≡◌, ◌+◌, ◌<◌, ◌^◌, ◌↔◌, map, IsTrue};
ghost use Rattle.jv_tree.specs.DeclTree.{MemberTrees, members, member_tree, member_trees, type_decl_tree, tree_of};
ghost use Rattle.jv_layout.specs.Sizes.{IsFolder, decl_names, body_names, unit_names};

use jv_tree::{Member, TypeDecl, Unit};

/// How many files a folder has at most, with the prelude's two.
const MOST_FILES: usize = 4_098;

/// The names that the files of a folder declare are fewer than this.
const NAMES: u64 = 1 << 28;

/// How many names a declaration declares, where one of the two counts is below 2^28.
#[cycle(names)]
fn decl_names(decl: &TypeDecl) -> u64
    ensures low { result < 2 ^ 28 → result ≡ decl_names (type_decl_tree decl.now) }
    ensures high { decl_names (type_decl_tree decl.now) < 2 ^ 28 → result ≡ decl_names (type_decl_tree decl.now) }
{
    body_names(&decl.members).saturating_add(1)
}

/// How many names a member declares, where one of the two counts is below 2^28.
#[cycle(names)]
fn member_names(member: &Member) -> u64
    ensures low { result < 2 ^ 28 → (rest : MemberTrees)
        → body_names (members (member_tree member.now) rest) ≡ result + body_names rest }
    ensures high { (rest : MemberTrees) → body_names (members (member_tree member.now) rest) < 2 ^ 28
        → body_names (members (member_tree member.now) rest) ≡ result + body_names rest }
{
    match member {
        Member::Nested(decl) => decl_names(decl),
        Member::Field(_, _, variables) => variables.len() as u64,
        Member::Method(_) => 1,
        Member::Ctor(_) => 1,
    }
}

/// How many names a body declares, where one of the two counts is below 2^28.
#[cycle(names)]
fn body_names(body: &Vec<Member>) -> u64
    ensures low { result < 2 ^ 28 → result ≡ body_names (member_trees body.now.items) }
    ensures high { body_names (member_trees body.now.items) < 2 ^ 28 → result ≡ body_names (member_trees body.now.items) }
{
    let mut count = 0u64;
    for member in body {
        count = count.saturating_add(member_names(member));
    }
    count
}

/// How many names a file declares, where one of the two counts is below 2^28.
fn unit_names(file: &Unit) -> u64
    ensures low { result < 2 ^ 28 → result ≡ unit_names (tree_of file.now) }
    ensures high { unit_names (tree_of file.now) < 2 ^ 28 → result ≡ unit_names (tree_of file.now) }
{
    let mut count = match &file.package {
        Some(name) => name.ids.len() as u64,
        None => 0,
    };
    for decl in &file.types {
        count = count.saturating_add(decl_names(decl));
    }
    count
}

/// Whether files may be a folder, so that `layout` numbers its scopes: they are at most 4,098, and they declare fewer
/// than 2^28 names. What counts are types, fields, methods and constructors that are written, and the names of package
/// clauses.
///
/// It takes time linear in that count, and calls itself for types in types alone, as deep as these nest. No sum
/// overflows: a count stops at its largest number.
pub fn is_folder(files: &[Unit]) -> bool
    ensures { IsTrue result ↔ IsFolder (map tree_of files.now) }
{
    let mut count = 0u64;
    for file in files {
        count = count.saturating_add(unit_names(file));
    }
    files.len() <= MOST_FILES && count < NAMES
}
