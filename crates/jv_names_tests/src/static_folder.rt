//! A folder with static imports for tests. Its scopes, names and edges are those of the small folder, and so are its replies.
//!
//! `package java.lang; public class Object {}`, `package java.lang; public class String {}`,
//! `package p; import static p.A.*; public class A { public static int x; static int y; public int z; public static int m();
//! public static class M {} } class C {}` and
//! `package q; import static p.A.*; import static p.C.*; import static p.A.x; import static p.A.z; import static p.A.M;
//! class B {}`.

use crate::small_folder::{
    A, B, C, M, OBJECT, P, Q, STRING, X, Y, Z, empty_class, field_of, ident, lang_file,
    member_class, method_of, small_names, type_of,
};
use crate::small_replies::{SmallFolder, all_replies};
use jv_layout::words::{PUBLIC, STATIC};
use jv_layout::{Layout, is_folder, layout};
use jv_tree::nodes::{import, unit};
use jv_tree::{Import, Member, Name, TypeDecl, Unit};
use std::alloc::{AllocError, Global};
use std::test::Fail;

/// The dotted name of some identifiers.
pub fn name_of(alloc: Global, numbers: &[u32]) -> Result<Name, AllocError> {
    let mut ids = Vec::new(alloc);
    for number in numbers {
        ids.push(ident(*number))?;
    }
    Ok(Name { ids })
}

/// Static imports of these names, each with whether it is on demand.
fn static_imports(alloc: Global, names: &[(&[u32], bool)]) -> Result<Vec<Import>, AllocError> {
    let mut imports = Vec::new(alloc);
    for (numbers, all) in names {
        imports.push(import(name_of(alloc, *numbers)?, *all, true))?;
    }
    Ok(imports)
}

/// `public static int x; static int y; public int z; public static int m(); public static class M {}`
fn put_members_of_a(alloc: Global, members: &mut Vec<Member>) -> Result<(), AllocError> {
    members.push(field_of(alloc, &[PUBLIC, STATIC], X)?)?;
    members.push(field_of(alloc, &[STATIC], Y)?)?;
    members.push(field_of(alloc, &[PUBLIC], Z)?)?;
    members.push(method_of(alloc, &[PUBLIC, STATIC], M)?)?;
    members.push(member_class(alloc, &[PUBLIC, STATIC], M)?)?;
    Ok(())
}

/// `public class A { .. }`
fn class_a(alloc: Global) -> Result<TypeDecl, AllocError> {
    let mut members = Vec::new(alloc);
    put_members_of_a(alloc, &mut members)?;
    type_of(alloc, &[PUBLIC], A, false, members)
}

/// A file of a package, with static imports.
fn file_with(
    alloc: Global,
    package: u32,
    imports: &[(&[u32], bool)],
    types: Vec<TypeDecl>,
) -> Result<Unit, AllocError> {
    let clause = name_of(alloc, &[package])?;
    Ok(unit(Some(clause), static_imports(alloc, imports)?, types))
}

/// The static imports of the file of `p`.
const IMPORTS_OF_P: [(&[u32], bool); 1] = [(&[P, A], true)];

/// The static imports of the file of `q`.
const IMPORTS_OF_Q: [(&[u32], bool); 5] = [
    (&[P, A], true),
    (&[P, C], true),
    (&[P, A, X], false),
    (&[P, A, Z], false),
    (&[P, A, M], false),
];

/// `package p;` with the classes `A` and `C`
fn file_p(alloc: Global) -> Result<Unit, AllocError> {
    let types = vec![in alloc; class_a(alloc)?, empty_class(alloc, &[], C)?]?;
    file_with(alloc, P, &IMPORTS_OF_P, types)
}

/// `package q;` with the class `B`
fn file_q(alloc: Global) -> Result<Unit, AllocError> {
    let types = vec![in alloc; empty_class(alloc, &[], B)?]?;
    file_with(alloc, Q, &IMPORTS_OF_Q, types)
}

fn static_files(alloc: Global) -> Result<Vec<Unit>, AllocError> {
    let files = vec![in alloc;
        lang_file(alloc, OBJECT)?,
        lang_file(alloc, STRING)?,
        file_p(alloc)?,
        file_q(alloc)?,
    ]?;
    Ok(files)
}

/// The layout of the folder.
pub fn static_layout(alloc: Global) -> Result<Layout, Fail> {
    let names = small_names(alloc)?;
    let files = static_files(alloc)?;
    if !is_folder(&files) {
        return Err("too many names".into());
    }
    Ok(layout(alloc, &names, &files)?)
}

/// The folder with its replies, as one value for a test to hold.
pub fn static_folder(alloc: Global) -> Result<Box<SmallFolder>, Fail> {
    let layout = static_layout(alloc)?;
    let oracle = all_replies(alloc)?;
    Ok(Box::new(alloc, SmallFolder { layout, oracle })?)
}
