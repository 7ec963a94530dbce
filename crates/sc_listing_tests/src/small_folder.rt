//! A small folder for tests: its trees, and the graph that its checkers could have made.
//!
//! `package java.lang; class Object { int m(); }`, `package java.lang; class String {}`,
//! `package p; class A { int x; class B { B() {} } int x; int x(); int m(); } class A {}` at `p/A.java`, and
//! `interface I { int x; class B {} }` at `r/I.java`.
//!
//! Its scopes are the root 0, the unnamed package 1, the packages 2 `java`, 3 `java.lang` and 4 `p`, the files 5 to 8, the
//! types 9 `Object`, 10 `String`, 11 `A`, 12 `A.B`, 13 `A` again, 14 `I` and 15 `I.B`; the members 16 and 17 of `Object`, 18 of
//! `String`, 19 the constructor of `A`, 20 its field `x`, 21 the constructor of `A.B`, 22 the field `x` again, 23 the method
//! `x`, 24 the method `m`, 25 the constructor of the second `A`, 26 the field of `I` and 27 the constructor of `I.B`; and their
//! signatures from 28 on.

ghost use Rattle.std.specs.Prelude.{◌≡◌, length, IfOk};

use jv_instance::{JavaDatum, Ty, TypeBase, TypeList, labels};
use jv_layout::{Layout, is_folder, layout};
use jv_tree::nodes::{
    class_or_interface, constructor, constructor_member, field_member, method, method_member,
    nested, type_ref, unit, variable,
};
use jv_tree::{Base, Ident, Member, Mods, Name, NameId, Names, TypeDecl, Unit};
use sc_io::SourceFile;
use sg_base::{Graph, Label, Scope};
use std::alloc::{AllocError, Global};
use std::test::Fail;

/// The texts of the names, by their numbers.
const TEXTS: [&str; 10] = [
    "java", "lang", "Object", "String", "p", "A", "B", "x", "m", "I",
];

const JAVA: u32 = 0;

const LANG: u32 = 1;

const OBJECT: u32 = 2;

const STRING: u32 = 3;

pub const P: u32 = 4;

pub const A: u32 = 5;

pub const B: u32 = 6;

pub const X: u32 = 7;

pub const M: u32 = 8;

pub const I: u32 = 9;

/// The scope with a serial.
pub fn scope(serial: u32) -> Scope {
    Scope {
        unit: u32::MAX,
        serial,
    }
}

/// The names of the small folder.
pub fn small_names(alloc: Global) -> Result<Names, AllocError> {
    let mut names = Names::new(alloc);
    for text in TEXTS {
        if names.len() < 100 {
            names.intern(text)?;
        }
    }
    Ok(names)
}

/// A file without bytes, by its path.
fn source_at(alloc: Global, path: &str) -> Result<SourceFile, AllocError> {
    Ok(SourceFile {
        path: String::from_str(alloc, path)?,
        bytes: Vec::new(alloc),
    })
}

/// The files of the small folder.
pub fn small_sources(alloc: Global) -> Result<Vec<SourceFile>, AllocError>
    ensures { IfOk result (λ v. length v.items ≡ 2) }
{
    let files = vec![in alloc;
        source_at(alloc, "p/A.java")?,
        source_at(alloc, "r/I.java")?,
    ]?;
    Ok(files)
}

fn ident(number: u32) -> Ident {
    Ident {
        at: 0,
        id: NameId(number),
    }
}

fn no_mods(alloc: Global) -> Mods {
    Mods {
        words: Vec::new(alloc),
    }
}

fn field_of(alloc: Global, number: u32) -> Result<Member, AllocError> {
    let variables = vec![in alloc; variable(ident(number), None)]?;
    Ok(field_member(no_mods(alloc), type_ref(0, Base::Int, 0), variables))
}

fn method_of(alloc: Global, number: u32) -> Member {
    let ty = type_ref(0, Base::Int, 0);
    method_member(method(no_mods(alloc), ty, ident(number), Vec::new(alloc), None))
}

fn constructor_of(alloc: Global, number: u32) -> Member {
    constructor_member(constructor(
        no_mods(alloc),
        ident(number),
        Vec::new(alloc),
        None,
        Vec::new(alloc),
    ))
}

fn type_of(alloc: Global, number: u32, interface: bool, members: Vec<Member>) -> TypeDecl {
    class_or_interface(
        ident(number),
        no_mods(alloc),
        interface,
        Vec::new(alloc),
        Vec::new(alloc),
        members,
    )
}

fn empty_class(alloc: Global, number: u32) -> TypeDecl {
    type_of(alloc, number, false, Vec::new(alloc))
}

/// `class B { B() {} }`
fn inner_class(alloc: Global) -> Result<TypeDecl, AllocError> {
    let members = vec![in alloc; constructor_of(alloc, B)]?;
    Ok(type_of(alloc, B, false, members))
}

/// `int x; class B { B() {} }`
fn first_members(alloc: Global) -> Result<Vec<Member>, AllocError> {
    let members = vec![in alloc; field_of(alloc, X)?, nested(inner_class(alloc)?)]?;
    Ok(members)
}

/// Adds `int x; int x(); int m();`.
fn add_last_members(alloc: Global, members: &mut Vec<Member>) -> Result<(), AllocError> {
    members.push(field_of(alloc, X)?)?;
    members.push(method_of(alloc, X))?;
    members.push(method_of(alloc, M))?;
    Ok(())
}

/// `class A { int x; class B { B() {} } int x; int x(); int m(); }`
fn outer_class(alloc: Global) -> Result<TypeDecl, AllocError> {
    let mut members = first_members(alloc)?;
    add_last_members(alloc, &mut members)?;
    Ok(type_of(alloc, A, false, members))
}

/// `interface I { int x; class B {} }`
fn outer_interface(alloc: Global) -> Result<TypeDecl, AllocError> {
    let members = vec![in alloc; field_of(alloc, X)?, nested(empty_class(alloc, B))]?;
    Ok(type_of(alloc, I, true, members))
}

/// A file of `java.lang` with one type.
fn lang_file(alloc: Global, of: TypeDecl) -> Result<Unit, AllocError> {
    let types = vec![in alloc; of]?;
    let ids = vec![in alloc; ident(JAVA), ident(LANG)]?;
    Ok(unit(Some(Name { ids }), Vec::new(alloc), types))
}

/// `package java.lang; class Object { int m(); }`
fn file_of_object(alloc: Global) -> Result<Unit, AllocError> {
    let members = vec![in alloc; method_of(alloc, M)]?;
    lang_file(alloc, type_of(alloc, OBJECT, false, members))
}

/// The file `p/A.java`.
fn file_of_a(alloc: Global) -> Result<Unit, AllocError> {
    let types = vec![in alloc; outer_class(alloc)?, empty_class(alloc, A)]?;
    let ids = vec![in alloc; ident(P)]?;
    Ok(unit(Some(Name { ids }), Vec::new(alloc), types))
}

/// The file `r/I.java`.
fn file_of_i(alloc: Global) -> Result<Unit, AllocError> {
    let types = vec![in alloc; outer_interface(alloc)?]?;
    Ok(unit(None, Vec::new(alloc), types))
}

fn small_files(alloc: Global) -> Result<Vec<Unit>, AllocError> {
    let files = vec![in alloc;
        file_of_object(alloc)?,
        lang_file(alloc, empty_class(alloc, STRING))?,
        file_of_a(alloc)?,
        file_of_i(alloc)?,
    ]?;
    Ok(files)
}

/// The layout of the small folder.
pub fn small_layout(alloc: Global, names: &Names) -> Result<Layout, Fail> {
    let files = small_files(alloc)?;
    if !is_folder(&files) {
        return Err(Fail::new("too many names"));
    }
    Ok(layout(alloc, names, &files)?)
}

fn add_edge(
    graph: &mut Graph<JavaDatum>,
    from: Scope,
    label: Label,
    to: Scope,
) -> Result<(), AllocError> {
    if graph.has_scope(from) && graph.has_scope(to) {
        graph.add_edge(from, label, to)?;
    }
    Ok(())
}

fn set_datum(graph: &mut Graph<JavaDatum>, s: Scope, datum: JavaDatum) -> Result<(), AllocError> {
    if graph.has_scope(s) {
        match graph.datum(s) {
            None => graph.set_datum(s, datum)?,
            Some(_) => {}
        }
    }
    Ok(())
}

fn add_scopes(graph: &mut Graph<JavaDatum>, scopes: &[Scope]) -> Result<(), AllocError> {
    for s in scopes {
        graph.add_scope(*s)?;
    }
    Ok(())
}

fn add_edges(
    graph: &mut Graph<JavaDatum>,
    edges: &[(Scope, Label, Scope)],
) -> Result<(), AllocError> {
    for (from, label, to) in edges {
        add_edge(graph, *from, *label, *to)?;
    }
    Ok(())
}

fn set_data(graph: &mut Graph<JavaDatum>, data: Vec<(Scope, JavaDatum)>) -> Result<(), AllocError> {
    for (s, datum) in data {
        set_datum(graph, s, datum)?;
    }
    Ok(())
}

/// The graph at the opening of the small folder.
pub fn small_skeleton(alloc: Global, layout: &Layout) -> Result<Graph<JavaDatum>, AllocError> {
    let opening = layout.opening(alloc)?;
    let mut graph = Graph::new(alloc);
    add_scopes(&mut graph, &opening.scopes)?;
    add_edges(&mut graph, &opening.edges)?;
    set_data(&mut graph, opening.given)?;
    Ok(graph)
}

/// The imports and supertypes that are added, each as a serial, a label and a serial.
const ADDED: [(u32, u8, u32); 7] = [
    (7, labels::SIMP, 14),
    (8, labels::ODI, 11),
    (8, labels::ODI, 4),
    (11, labels::EXT, 9),
    (12, labels::EXT, 11),
    (13, labels::EXT, 9),
    (15, labels::EXT, 9),
];

const VOID: Ty = Ty {
    base: TypeBase::Void,
    dims: 0,
};

const INT: Ty = Ty {
    base: TypeBase::Int,
    dims: 0,
};

const CHAR: Ty = Ty {
    base: TypeBase::Char,
    dims: 0,
};

const BAD: Ty = Ty {
    base: TypeBase::Bad,
    dims: 2,
};

/// A type by the serial of its scope.
fn class(serial: u32, dims: u8) -> Ty {
    Ty {
        base: TypeBase::Class(scope(serial)),
        dims,
    }
}

/// Sets the types of a signature, by the serial of its scope.
fn set_signature(
    alloc: Global,
    graph: &mut Graph<JavaDatum>,
    serial: u32,
    number: u32,
    ty: Ty,
    params: &[Ty],
) -> Result<(), AllocError> {
    let datum = JavaDatum::Signature {
        name: NameId(number),
        result: ty,
        params: TypeList::new(Vec::from_slice(alloc, params)?),
    };
    set_datum(graph, scope(serial), datum)
}

/// Sets the signatures of all members of the folder's own types but that of the last one.
fn set_signatures(alloc: Global, graph: &mut Graph<JavaDatum>) -> Result<(), AllocError> {
    let signatures: [(u32, u32, Ty, &[Ty]); 8] = [
        (31, A, VOID, &[]),
        (32, X, INT, &[]),
        (33, B, VOID, &[class(11, 0)]),
        (34, X, INT, &[]),
        (35, X, class(12, 1), &[INT, class(9, 0)]),
        (36, M, VOID, &[BAD, CHAR, class(10, 2)]),
        (37, A, VOID, &[]),
        (38, X, class(10, 0), &[]),
    ];
    for (serial, number, ty, params) in signatures {
        set_signature(alloc, graph, serial, number, ty, params)?;
    }
    Ok(())
}

/// The graph of the small folder with imports, supertypes and signatures.
pub fn small_graph(alloc: Global, layout: &Layout) -> Result<Graph<JavaDatum>, AllocError> {
    let mut graph = small_skeleton(alloc, layout)?;
    for (from, label, to) in ADDED {
        if label < 16 {
            add_edge(&mut graph, scope(from), Label::new(label), scope(to))?;
        }
    }
    set_signatures(alloc, &mut graph)?;
    Ok(graph)
}
