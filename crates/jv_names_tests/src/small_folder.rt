//! A small folder for tests: its trees, and the graph that its checked headers make.
//!
//! `package java.lang; public class Object {}`, `package java.lang; public class String {}`,
//! `package p; public class A { private int x; int y; protected int z; public int m(); protected class M {} } class C {}` and
//! `package q; import p.*; class B extends A {}`.
//!
//! Its scopes are the root 0, the unnamed package 1, the packages 2 `java`, 3 `java.lang`, 4 `p` and 5 `q`, the files 6 to 9,
//! the types 10 `Object`, 11 `String`, 12 `A`, 13 `A.M`, 14 `C` and 15 `B`, and from 16 on members: 18 is the constructor of
//! `A`, 19 to 21 are its fields `x`, `y` and `z`, and 22 is its method `m`.

ghost use Rattle.std.specs.Prelude.{◌≡◌, ◌+◌, ◌<◌, [], length, map, sum_by, IfOk, OnOk};
ghost use Rattle.jv_tree.specs.DeclTree.{MemberTrees, members, member_tree, member_trees, type_decl_tree, tree_of};
ghost use Rattle.jv_layout.specs.Sizes.{IsFolder, decl_names, body_names, unit_names};

use jv_instance::{JavaDatum, labels};
use jv_layout::{Layout, layout};
use jv_tree::nodes::{
    class_or_interface, field_member, method, method_member, nested, type_ref, unit, variable,
};
use jv_tree::{Base, Ident, Member, Mods, Name, NameId, Names, TypeDecl, Unit};
use sg_base::{Graph, Label, Scope};
use std::alloc::{AllocError, Global};
use std::test::Fail;

/// The texts of the names, by their numbers.
const TEXTS: [&str; 19] = [
    "java", "lang", "Object", "String", "p", "q", "A", "B", "C", "M", "x", "y", "z", "D", "I", "J",
    "K", "f", "g",
];

pub const JAVA: u32 = 0;

pub const LANG: u32 = 1;

pub const OBJECT: u32 = 2;

pub const STRING: u32 = 3;

pub const P: u32 = 4;

pub const Q: u32 = 5;

pub const A: u32 = 6;

pub const B: u32 = 7;

pub const C: u32 = 8;

/// The name of the member type and of the method.
pub const M: u32 = 9;

pub const X: u32 = 10;

pub const Y: u32 = 11;

pub const Z: u32 = 12;

/// The first of the names that `default_folder` alone has.
pub const D: u32 = 13;

pub const I: u32 = 14;

pub const J: u32 = 15;

pub const K: u32 = 16;

pub const F: u32 = 17;

pub const G: u32 = 18;

/// The scope with a serial.
pub fn scope(serial: u32) -> Scope {
    Scope {
        unit: u32::MAX,
        serial,
    }
}

/// The identifier of a name.
pub fn ident(number: u32) -> Ident {
    Ident {
        at: 0,
        id: NameId(number),
    }
}

fn mods(alloc: Global, words: &[u8]) -> Result<Mods, AllocError> {
    Ok(Mods {
        words: Vec::from_slice(alloc, words)?,
    })
}

/// A field of the type `int`.
pub fn field_of(alloc: Global, words: &[u8], number: u32) -> Result<Member, AllocError>
    ensures { IfOk result (λ m. (rest : MemberTrees) → body_names (members (member_tree m) rest) ≡ 1 + body_names rest) }
{
    let variables = vec![in alloc; variable(ident(number), None)]?;
    Ok(field_member(mods(alloc, words)?, type_ref(0, Base::Int, 0), variables))
}

/// A method without parameters and body whose result is `int`.
pub fn method_of(alloc: Global, words: &[u8], number: u32) -> Result<Member, AllocError>
    ensures { IfOk result (λ m. (rest : MemberTrees) → body_names (members (member_tree m) rest) ≡ 1 + body_names rest) }
{
    let ty = type_ref(0, Base::Int, 0);
    let of = method(
        mods(alloc, words)?,
        ty,
        ident(number),
        vec![in alloc]?,
        None,
    );
    Ok(method_member(of))
}

/// A class or an interface, whose tree names no supertypes.
pub fn type_of(
    alloc: Global,
    words: &[u8],
    number: u32,
    interface: bool,
    members: Vec<Member>,
) -> Result<TypeDecl, AllocError>
    ensures { IfOk result (λ d. decl_names (type_decl_tree d) ≡ 1 + body_names (member_trees members.items)) }
{
    let mods = mods(alloc, words)?;
    let extends = vec![in alloc]?;
    let implements = vec![in alloc]?;
    Ok(class_or_interface(ident(number), mods, interface, extends, implements, members))
}

fn class_of(
    alloc: Global,
    words: &[u8],
    number: u32,
    members: Vec<Member>,
) -> Result<TypeDecl, AllocError>
    ensures { IfOk result (λ d. decl_names (type_decl_tree d) ≡ 1 + body_names (member_trees members.items)) }
{
    type_of(alloc, words, number, false, members)
}

/// A member class without members.
pub fn member_class(alloc: Global, words: &[u8], number: u32) -> Result<Member, AllocError>
    ensures { IfOk result (λ m. (rest : MemberTrees) → body_names (members (member_tree m) rest) ≡ 1 + body_names rest) }
{
    let decl = class_of(alloc, words, number, Vec::new(alloc))?;
    Ok(nested(decl))
}

/// `private int x; int y; protected int z; public int m(); protected class M {}`
fn put_members_of_a(alloc: Global, members: &mut Vec<Member>) -> Result<(), AllocError>
    ensures { members.old.items ≡ [] → OnOk result (body_names (member_trees members.new.items) ≡ 5) }
{
    members.push(field_of(alloc, &[32], X)?)?;
    members.push(field_of(alloc, &[], Y)?)?;
    members.push(field_of(alloc, &[33], Z)?)?;
    members.push(method_of(alloc, &[34], M)?)?;
    members.push(member_class(alloc, &[33], M)?)?;
    Ok(())
}

fn members_of_a(alloc: Global) -> Result<Vec<Member>, AllocError>
    ensures { IfOk result (λ ms. body_names (member_trees ms.items) ≡ 5) }
{
    let mut members = Vec::new(alloc);
    put_members_of_a(alloc, &mut members)?;
    Ok(members)
}

/// `public class A { .. }`
fn class_a(alloc: Global) -> Result<TypeDecl, AllocError>
    ensures { IfOk result (λ d. decl_names (type_decl_tree d) < 100) }
{
    let members = members_of_a(alloc)?;
    let class = class_of(alloc, &[34], A, members)?;
    Ok(class)
}

/// A class without members.
pub fn empty_class(alloc: Global, words: &[u8], number: u32) -> Result<TypeDecl, AllocError>
    ensures { IfOk result (λ d. decl_names (type_decl_tree d) < 100) }
{
    let class = class_of(alloc, words, number, Vec::new(alloc))?;
    Ok(class)
}

/// A file of a package without imports.
pub fn file_of(alloc: Global, clause: Name, types: Vec<TypeDecl>) -> Unit
    ensures { unit_names (tree_of result) ≡ length clause.ids.items + sum_by decl_names (map type_decl_tree types.items) }
{
    unit(Some(clause), Vec::new(alloc), types)
}

/// A file of `java.lang` with a public class.
pub fn lang_file(alloc: Global, number: u32) -> Result<Unit, AllocError>
    ensures { IfOk result (λ u. unit_names (tree_of u) < 1000) }
{
    let ids = vec![in alloc; ident(JAVA), ident(LANG)]?;
    let types = vec![in alloc; empty_class(alloc, &[34], number)?]?;
    Ok(file_of(alloc, Name { ids }, types))
}

/// `package p;` with the classes `A` and `C`
fn file_p(alloc: Global) -> Result<Unit, AllocError>
    ensures { IfOk result (λ u. unit_names (tree_of u) < 1000) }
{
    let ids = vec![in alloc; ident(P)]?;
    let types = vec![in alloc; class_a(alloc)?, empty_class(alloc, &[], C)?]?;
    Ok(file_of(alloc, Name { ids }, types))
}

/// `package q;` with the class `B`
fn file_q(alloc: Global) -> Result<Unit, AllocError>
    ensures { IfOk result (λ u. unit_names (tree_of u) < 1000) }
{
    let ids = vec![in alloc; ident(Q)]?;
    let types = vec![in alloc; empty_class(alloc, &[], B)?]?;
    Ok(file_of(alloc, Name { ids }, types))
}

fn small_files(alloc: Global) -> Result<Vec<Unit>, AllocError>
    ensures { IfOk result (λ fs. IsFolder (map tree_of fs.items)) }
{
    let files = vec![in alloc;
        lang_file(alloc, OBJECT)?,
        lang_file(alloc, STRING)?,
        file_p(alloc)?,
        file_q(alloc)?,
    ]?;
    Ok(files)
}

/// The names of the small folder.
pub fn small_names(alloc: Global) -> Result<Names, AllocError> {
    let mut names = Names::new(alloc);
    for text in TEXTS {
        if names.len() < 100 {
            names.intern(text)?;
        }
    }
    Ok(names)
}

/// The layout of the small folder.
pub fn small_layout(alloc: Global) -> Result<Layout, Fail> {
    let names = small_names(alloc)?;
    let files = small_files(alloc)?;
    Ok(layout(alloc, &names, &files)?)
}

/// The edges of the small folder, each as the serial that it leaves, its label, and the serial that it goes to.
const EDGES: [(u32, u8, u32); 27] = [
    (0, labels::PKG, 2),
    (2, labels::PKG, 3),
    (0, labels::PKG, 4),
    (0, labels::PKG, 5),
    (6, labels::PKGOF, 3),
    (7, labels::PKGOF, 3),
    (8, labels::PKGOF, 4),
    (9, labels::PKGOF, 5),
    (8, labels::ODI, 3),
    (9, labels::ODI, 3),
    (9, labels::ODI, 4),
    (3, labels::TYPE, 10),
    (3, labels::TYPE, 11),
    (4, labels::TYPE, 12),
    (12, labels::TYPE, 13),
    (4, labels::TYPE, 14),
    (5, labels::TYPE, 15),
    (8, labels::SELF, 12),
    (8, labels::SELF, 14),
    (9, labels::SELF, 15),
    (12, labels::EXT, 10),
    (13, labels::EXT, 10),
    (15, labels::EXT, 12),
    (12, labels::FIELD, 19),
    (12, labels::FIELD, 20),
    (12, labels::FIELD, 21),
    (12, labels::METH, 22),
];

/// The names that stand at scopes: those of packages, types and members.
const PACKAGES: [(u32, u32); 4] = [(2, JAVA), (3, LANG), (4, P), (5, Q)];

const TYPES: [(u32, u32); 6] = [
    (10, OBJECT),
    (11, STRING),
    (12, A),
    (13, M),
    (14, C),
    (15, B),
];

const MEMBERS: [(u32, u32); 4] = [(19, X), (20, Y), (21, Z), (22, M)];

/// Sets the datum of a scope, where the scope is there and has none.
pub fn set_datum(
    graph: &mut Graph<JavaDatum>,
    serial: u32,
    datum: JavaDatum,
) -> Result<(), AllocError> {
    let s = scope(serial);
    if graph.has_scope(s) {
        match graph.datum(s) {
            None => graph.set_datum(s, datum)?,
            Some(_) => {}
        }
    }
    Ok(())
}

fn set_data(graph: &mut Graph<JavaDatum>) -> Result<(), AllocError> {
    for (serial, number) in PACKAGES {
        set_datum(
            graph,
            serial,
            JavaDatum::Package {
                name: NameId(number),
            },
        )?;
    }
    for (serial, number) in TYPES {
        set_datum(
            graph,
            serial,
            JavaDatum::TypeName {
                name: NameId(number),
            },
        )?;
    }
    for (serial, number) in MEMBERS {
        set_datum(
            graph,
            serial,
            JavaDatum::Member {
                name: NameId(number),
            },
        )?;
    }
    Ok(())
}

/// Adds an edge, where its label and its scopes are there.
pub fn add_edge(
    graph: &mut Graph<JavaDatum>,
    from: Scope,
    label: u8,
    to: Scope,
) -> Result<(), AllocError> {
    if label < 16 && graph.has_scope(from) && graph.has_scope(to) {
        graph.add_edge(from, Label::new(label), to)?;
    }
    Ok(())
}

/// The graph of the small folder.
pub fn small_graph(alloc: Global) -> Result<Graph<JavaDatum>, AllocError> {
    let mut graph = Graph::new(alloc);
    for serial in 0..26 {
        graph.add_scope(scope(serial))?;
    }
    for (from, label, to) in EDGES {
        add_edge(&mut graph, scope(from), label, scope(to))?;
    }
    set_data(&mut graph)?;
    Ok(graph)
}
