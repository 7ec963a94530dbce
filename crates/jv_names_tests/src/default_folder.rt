//! A folder with default methods for tests: its trees, and the replies by the edges to supertypes and methods that its checked
//! headers make.
//!
//! `package java.lang; public class Object {}`, `package java.lang; public class String {}` and `package p;` with
//! `interface I { default int f(); static int g(); } interface J extends I { default int f(); } interface K { default int f(); }`
//! and `class A implements I, J {} class B implements I, K {} class C { int f(); } class D extends C implements I {}`. Which
//! methods a type has does not depend on bodies, and these have none.
//!
//! Its scopes are the root 0, the unnamed package 1, the packages 2 `java`, 3 `java.lang` and 4 `p`, the files 5 to 7, the types
//! 8 `Object`, 9 `String`, 10 `I`, 11 `J`, 12 `K`, 13 `A`, 14 `B`, 15 `C` and 16 `D`, and from 17 on members: 19 is `I.f`,
//! 20 `I.g`, 21 `J.f`, 22 `K.f` and 26 `C.f`.

use crate::small_folder::{
    A, B, C, D, F, G, I, J, K, OBJECT, P, STRING, add_edge, empty_class, file_of, ident, lang_file,
    method_of, scope, set_datum, small_names, type_of,
};
use crate::small_replies::{SmallFolder, put_reply};
use jv_instance::{JavaDatum, labels};
use jv_layout::words::{DEFAULT, STATIC};
use jv_layout::{Layout, is_folder, layout};
use jv_names::kinds::{METHODS, SUPERS};
use jv_names::{Oracle, for_any, for_name, java_kinds};
use jv_tree::{Name, NameId, TypeDecl, Unit};
use sg_base::Graph;
use sg_query::KindTable;
use std::alloc::{AllocError, Global};
use std::test::Fail;

/// `interface I { default int f(); static int g(); }`
fn interface_i(alloc: Global) -> Result<TypeDecl, AllocError> {
    let members = vec![in alloc;
        method_of(alloc, &[DEFAULT], F)?,
        method_of(alloc, &[STATIC], G)?,
    ]?;
    type_of(alloc, &[], I, true, members)
}

/// An interface with `default int f();`, or a class with `int f();`.
fn type_with_f(
    alloc: Global,
    number: u32,
    interface: bool,
    words: &[u8],
) -> Result<TypeDecl, AllocError> {
    let method = method_of(alloc, words, F)?;
    type_of(alloc, &[], number, interface, vec![in alloc; method]?)
}

fn put_interfaces(alloc: Global, types: &mut Vec<TypeDecl>) -> Result<(), AllocError> {
    types.push(interface_i(alloc)?)?;
    types.push(type_with_f(alloc, J, true, &[DEFAULT])?)?;
    types.push(type_with_f(alloc, K, true, &[DEFAULT])?)?;
    Ok(())
}

fn put_classes(alloc: Global, types: &mut Vec<TypeDecl>) -> Result<(), AllocError> {
    types.push(empty_class(alloc, &[], A)?)?;
    types.push(empty_class(alloc, &[], B)?)?;
    types.push(type_with_f(alloc, C, false, &[])?)?;
    types.push(empty_class(alloc, &[], D)?)?;
    Ok(())
}

/// `package p;` with the interfaces and the classes
fn file_p(alloc: Global) -> Result<Unit, AllocError> {
    let mut types = Vec::new(alloc);
    put_interfaces(alloc, &mut types)?;
    put_classes(alloc, &mut types)?;
    let ids = vec![in alloc; ident(P)]?;
    Ok(file_of(alloc, Name { ids }, types))
}

fn default_files(alloc: Global) -> Result<Vec<Unit>, AllocError> {
    let files = vec![in alloc;
        lang_file(alloc, OBJECT)?,
        lang_file(alloc, STRING)?,
        file_p(alloc)?,
    ]?;
    Ok(files)
}

/// The layout of the folder.
pub fn default_layout(alloc: Global) -> Result<Layout, Fail> {
    let names = small_names(alloc)?;
    let files = default_files(alloc)?;
    if !is_folder(&files) {
        return Err("too many names".into());
    }
    Ok(layout(alloc, &names, &files)?)
}

/// The edges to supertypes and methods, each as the serial that it leaves, its label, and the serial that it goes to.
const EDGES: [(u32, u8, u32); 15] = [
    (11, labels::EXT, 10),
    (13, labels::EXT, 8),
    (13, labels::EXT, 10),
    (13, labels::EXT, 11),
    (14, labels::EXT, 8),
    (14, labels::EXT, 10),
    (14, labels::EXT, 12),
    (15, labels::EXT, 8),
    (16, labels::EXT, 15),
    (16, labels::EXT, 10),
    (10, labels::METH, 19),
    (10, labels::METH, 20),
    (11, labels::METH, 21),
    (12, labels::METH, 22),
    (15, labels::METH, 26),
];

/// The names that stand at types and at methods.
const TYPES: [(u32, u32); 9] = [
    (8, OBJECT),
    (9, STRING),
    (10, I),
    (11, J),
    (12, K),
    (13, A),
    (14, B),
    (15, C),
    (16, D),
];

const MEMBERS: [(u32, u32); 5] = [(19, F), (20, G), (21, F), (22, F), (26, F)];

fn set_data(graph: &mut Graph<JavaDatum>) -> Result<(), AllocError> {
    for (serial, number) in TYPES {
        let name = NameId(number);
        set_datum(graph, serial, JavaDatum::TypeName { name })?;
    }
    for (serial, number) in MEMBERS {
        let name = NameId(number);
        set_datum(graph, serial, JavaDatum::Member { name })?;
    }
    Ok(())
}

/// The graph of the folder's supertypes and methods.
pub fn default_graph(alloc: Global) -> Result<Graph<JavaDatum>, AllocError> {
    let mut graph = Graph::new(alloc);
    for serial in 0..28 {
        graph.add_scope(scope(serial))?;
    }
    for (from, label, to) in EDGES {
        add_edge(&mut graph, scope(from), label, scope(to))?;
    }
    set_data(&mut graph)?;
    Ok(graph)
}

/// Puts the replies to the queries for the methods and the supertypes of a type.
fn put_replies_at(
    alloc: Global,
    graph: &Graph<JavaDatum>,
    table: &KindTable,
    oracle: &mut Oracle,
    serial: u32,
) -> Result<(), AllocError> {
    for number in [F, G] {
        let query = for_name(METHODS, scope(serial), NameId(number));
        put_reply(alloc, graph, table, oracle, query)?;
    }
    put_reply(alloc, graph, table, oracle, for_any(SUPERS, scope(serial)))
}

/// The replies to the queries for the methods and the supertypes of all types.
fn default_replies(alloc: Global) -> Result<Oracle, AllocError> {
    let graph = default_graph(alloc)?;
    let table = java_kinds(alloc)?;
    let mut oracle = Oracle::new(alloc);
    for (serial, _) in TYPES {
        put_replies_at(alloc, &graph, &table, &mut oracle, serial)?;
    }
    Ok(oracle)
}

/// The folder with its replies, as one value for a test to hold.
pub fn default_folder(alloc: Global) -> Result<Box<SmallFolder>, Fail> {
    let layout = default_layout(alloc)?;
    let oracle = default_replies(alloc)?;
    Ok(Box::new(alloc, SmallFolder { layout, oracle })?)
}
