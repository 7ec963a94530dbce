//! A small folder by its trees.

use jv_layout::words::{ABSTRACT, DEFAULT, STATIC};
use jv_tree::nodes::{
    class_or_interface, constructor, constructor_member, field_member, import, method,
    method_member, nested, type_ref, unit, variable,
};
use jv_tree::{Base, Ident, Import, Member, Mods, Name, NameId, Names, TypeDecl, Unit};
use sg_base::Scope;
use std::alloc::Global;
use std::test::Fail;

/// The texts of the names, by their numbers.
const TEXTS: [&str; 11] = [
    "java", "lang", "Object", "String", "p", "A", "B", "x", "m", "I", "p$",
];

const JAVA: u32 = 0;

const LANG: u32 = 1;

const OBJECT: u32 = 2;

const STRING: u32 = 3;

const P: u32 = 4;

const A: u32 = 5;

const B: u32 = 6;

const X: u32 = 7;

const M: u32 = 8;

const I: u32 = 9;

const P_DOLLAR: u32 = 10;

/// The names of the small folder.
pub fn small_names(alloc: Global) -> Result<Names, Fail> {
    let mut names = Names::new(alloc);
    for text in TEXTS {
        if names.len() < 100 {
            names.intern(text)?;
        }
    }
    Ok(names)
}

fn ident(number: u32) -> Ident {
    Ident {
        at: 0,
        id: NameId(number),
    }
}

fn mods(alloc: Global, words: &[u8]) -> Result<Mods, Fail> {
    Ok(Mods {
        words: Vec::from_slice(alloc, words)?,
    })
}

fn field_of(alloc: Global, number: u32) -> Result<Member, Fail> {
    let variables = vec![in alloc; variable(ident(number), None)]?;
    Ok(field_member(mods(alloc, &[])?, type_ref(0, Base::Int, 0), variables))
}

/// A method with these modifiers.
fn method_with(alloc: Global, words: &[u8], number: u32) -> Result<Member, Fail> {
    let ty = type_ref(0, Base::Int, 0);
    let of = method(
        mods(alloc, words)?,
        ty,
        ident(number),
        vec![in alloc]?,
        None,
    );
    Ok(method_member(of))
}

fn method_of(alloc: Global, number: u32) -> Result<Member, Fail> {
    method_with(alloc, &[], number)
}

fn constructor_of(alloc: Global, number: u32) -> Result<Member, Fail> {
    let of = constructor(
        mods(alloc, &[])?,
        ident(number),
        vec![in alloc]?,
        None,
        vec![in alloc]?,
    );
    Ok(constructor_member(of))
}

fn type_of(
    alloc: Global,
    number: u32,
    interface: bool,
    members: Vec<Member>,
) -> Result<TypeDecl, Fail> {
    Ok(class_or_interface(
        ident(number),
        mods(alloc, &[])?,
        interface,
        vec![in alloc]?,
        vec![in alloc]?,
        members,
    ))
}

/// `class B { B() {} }`
fn inner_class(alloc: Global) -> Result<Member, Fail> {
    let members = vec![in alloc; constructor_of(alloc, B)?]?;
    Ok(nested(type_of(alloc, B, false, members)?))
}

/// `int x; class B { B() {} } int x; int x(); int m();`
fn put_members_of_a(alloc: Global, members: &mut Vec<Member>) -> Result<(), Fail> {
    members.push(field_of(alloc, X)?)?;
    members.push(inner_class(alloc)?)?;
    members.push(field_of(alloc, X)?)?;
    members.push(method_of(alloc, X)?)?;
    members.push(method_of(alloc, M)?)?;
    Ok(())
}

/// `class A { int x; class B { B() {} } int x; int x(); int m(); }`
fn outer_class(alloc: Global) -> Result<TypeDecl, Fail> {
    let mut members = Vec::new(alloc);
    put_members_of_a(alloc, &mut members)?;
    type_of(alloc, A, false, members)
}

/// `interface I { int x; class B {} }`
fn outer_interface(alloc: Global) -> Result<TypeDecl, Fail> {
    let inner = type_of(alloc, B, false, vec![in alloc]?)?;
    let members = vec![in alloc; field_of(alloc, X)?, nested(inner)]?;
    type_of(alloc, I, true, members)
}

fn file_in(alloc: Global, package: &[u32], types: Vec<TypeDecl>) -> Result<Unit, Fail> {
    let mut ids = Vec::new(alloc);
    for number in package {
        ids.push(ident(*number))?;
    }
    Ok(unit(Some(Name { ids }), vec![in alloc]?, types))
}

/// `package java.lang; class Object { int m(); }`
fn object_file(alloc: Global) -> Result<Unit, Fail> {
    let members = vec![in alloc; method_of(alloc, M)?]?;
    let types = vec![in alloc; type_of(alloc, OBJECT, false, members)?]?;
    file_in(alloc, &[JAVA, LANG], types)
}

/// `package java.lang; class String {}`
fn string_file(alloc: Global) -> Result<Unit, Fail> {
    let types = vec![in alloc; type_of(alloc, STRING, false, Vec::new(alloc))?]?;
    file_in(alloc, &[JAVA, LANG], types)
}

/// `package p; class A { int x; class B { B() {} } int x; int x(); int m(); } class A {}`
fn file_p(alloc: Global) -> Result<Unit, Fail> {
    let mut types = vec![in alloc; outer_class(alloc)?]?;
    types.push(type_of(alloc, A, false, Vec::new(alloc))?)?;
    file_in(alloc, &[P], types)
}

/// `interface I { int x; class B {} }`
fn unnamed_file(alloc: Global) -> Result<Unit, Fail> {
    let types = vec![in alloc; outer_interface(alloc)?]?;
    Ok(unit(None, Vec::new(alloc), types))
}

fn put_small_files(alloc: Global, files: &mut Vec<Unit>) -> Result<(), Fail> {
    files.push(object_file(alloc)?)?;
    files.push(string_file(alloc)?)?;
    files.push(file_p(alloc)?)?;
    files.push(unnamed_file(alloc)?)?;
    Ok(())
}

/// Four files: `package java.lang; class Object { int m(); }`, `package java.lang; class String {}`,
/// `package p; class A { int x; class B { B() {} } int x; int x(); int m(); } class A {}` and
/// `interface I { int x; class B {} }`.
pub fn small_files(alloc: Global) -> Result<Vec<Unit>, Fail> {
    let mut files = Vec::new(alloc);
    put_small_files(alloc, &mut files)?;
    Ok(files)
}

/// The names of packages.
const PACKAGES: [&[u32]; 6] = [
    &[P, X, M],
    &[P_DOLLAR, X],
    &[P, A],
    &[P],
    &[P_DOLLAR],
    &[P, X, M],
];

/// Files without types, of the packages `p.x.m`, `p$.x`, `p.A`, `p`, `p$` and again `p.x.m`.
pub fn files_of_packages(alloc: Global) -> Result<Vec<Unit>, Fail> {
    let mut files = Vec::new(alloc);
    for package in PACKAGES {
        files.push(file_in(alloc, package, Vec::new(alloc))?)?;
    }
    Ok(files)
}

/// The modifiers of the methods of an interface.
const OF_INTERFACE: [&[u8]; 6] = [
    &[],
    &[STATIC],
    &[DEFAULT],
    &[ABSTRACT],
    &[STATIC, DEFAULT],
    &[ABSTRACT, DEFAULT],
];

/// The modifiers of the methods of a class.
const OF_CLASS: [&[u8]; 3] = [&[], &[ABSTRACT], &[STATIC]];

/// Methods `m` with these modifiers.
fn methods_with(alloc: Global, words: &[&[u8]]) -> Result<Vec<Member>, Fail> {
    let mut methods = Vec::new(alloc);
    for of_one in words {
        methods.push(method_with(alloc, *of_one, M)?)?;
    }
    Ok(methods)
}

/// One file of `p` with an interface `I` and a class `A`, whose methods have no modifier, `static`, `default`, `abstract`,
/// `static default` and `abstract default`, and in the class no modifier, `abstract` and `static`.
pub fn files_of_methods(alloc: Global) -> Result<Vec<Unit>, Fail> {
    let mut types = Vec::new(alloc);
    types.push(type_of(alloc, I, true, methods_with(alloc, &OF_INTERFACE)?)?)?;
    types.push(type_of(alloc, A, false, methods_with(alloc, &OF_CLASS)?)?)?;
    Ok(vec![in alloc; file_in(alloc, &[P], types)?]?)
}

fn name_of(alloc: Global, numbers: &[u32]) -> Result<Name, Fail> {
    let mut ids = Vec::new(alloc);
    for number in numbers {
        ids.push(ident(*number))?;
    }
    Ok(Name { ids })
}

/// Imports, each by its name, whether it is on demand, and whether it is static.
const IMPORTS: [(&[u32], bool, bool); 4] = [
    (&[P, A], false, false),
    (&[P, A, X], false, true),
    (&[P], true, false),
    (&[P, A], true, true),
];

fn imports_of_file(alloc: Global) -> Result<Vec<Import>, Fail> {
    let mut imports = Vec::new(alloc);
    for (numbers, all, is_static) in IMPORTS {
        imports.push(import(name_of(alloc, numbers)?, all, is_static))?;
    }
    Ok(imports)
}

/// A file without types and imports, and the file `import p.A; import static p.A.x; import p.*; import static p.A.*;`.
pub fn files_of_imports(alloc: Global) -> Result<Vec<Unit>, Fail> {
    let mut files = Vec::new(alloc);
    files.push(unit(None, Vec::new(alloc), Vec::new(alloc)))?;
    files.push(unit(None, imports_of_file(alloc)?, Vec::new(alloc)))?;
    Ok(files)
}

/// The scope with a serial.
pub fn scope_at(serial: u32) -> Scope {
    Scope {
        unit: u32::MAX,
        serial,
    }
}
