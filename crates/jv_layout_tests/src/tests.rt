//! A small folder, whose scopes, edges and titles are worked out by hand.
//!
//! Its scopes are the root 0, the unnamed package 1, the packages 2 `java`, 3 `java.lang` and 4 `p`, the files 5 to 8, the
//! types 9 `Object`, 10 `String`, 11 `A`, 12 `A.B`, 13 `A` again, 14 `I` and 15 `I.B`, twelve members from 16 on, and
//! their signatures from 28 on.

use crate::small_folder::{
    files_of_imports, files_of_methods, files_of_packages, scope_at, small_files, small_names,
};
use jv_instance::{JavaDatum, Ty, TypeBase, labels};
use jv_layout::{Declarations, Layout, LayoutFault, Place, is_folder, layout};
use jv_tree::{Import, NameId, Names, Unit};
use sg_base::Scope;
use sg_state::Opening;
use std::alloc::Global;
use std::fmt::Write;
use std::test::Fail;

#[test]
fn faults_differ(rt: HostRuntime) {
    assert!(rt; LayoutFault::TooManyTypes != LayoutFault::OutOfMemory);
}

fn small_layout(alloc: Global) -> Result<Layout, Fail> {
    layout_of(alloc, small_files(alloc)?)
}

fn layout_of(alloc: Global, files: Vec<Unit>) -> Result<Layout, Fail> {
    let names = small_names(alloc)?;
    layout_by(alloc, &names, &files)
}

fn layout_by(alloc: Global, names: &Names, files: &[Unit]) -> Result<Layout, Fail> {
    if !is_folder(files) {
        return Err(Fail::new("too many names"));
    }
    Ok(layout(alloc, names, files)?)
}

/// The layout of the files of packages.
fn packages_layout(alloc: Global) -> Result<Layout, Fail> {
    layout_of(alloc, files_of_packages(alloc)?)
}

/// The serials of scopes.
fn serials(alloc: Global, scopes: &[Scope]) -> Result<String, Fail> {
    let mut text = String::new(alloc);
    for scope in scopes {
        write!(text, "{} ", scope.serial)?;
    }
    Ok(text)
}

const PLACES: [(u32, Place); 13] = [
    (0, Place::Root),
    (1, Place::Unnamed),
    (2, Place::Package(0)),
    (4, Place::Package(2)),
    (5, Place::File(0)),
    (8, Place::File(3)),
    (9, Place::Ty(0)),
    (15, Place::Ty(6)),
    (16, Place::Member(0)),
    (27, Place::Member(11)),
    (28, Place::Signature(0)),
    (39, Place::Signature(11)),
    (40, Place::Outside),
];

/// The first of the scopes that are another place.
fn wrong_place(layout: &Layout) -> Option<u32> {
    for (serial, wanted) in PLACES {
        if layout.place(scope_at(serial)) != wanted {
            return Some(serial);
        }
    }
    None
}

#[test]
fn scopes_stand_in_order(rt: HostRuntime) -> Result<(), Fail> {
    let wrong = wrong_place(&small_layout(rt.alloc())?);
    assert_eq!(rt; wrong, None);
    Ok(())
}

fn types_told(alloc: Global) -> Result<String, Fail> {
    let layout = small_layout(alloc)?;
    serials(alloc, layout.types())
}

#[test]
fn types_stand_in_order(rt: HostRuntime) -> Result<(), Fail> {
    let types = types_told(rt.alloc())?;
    assert_eq!(rt; types.as_str(), "9 10 11 12 13 14 15 ");
    Ok(())
}

/// The members of each type, and of scopes that are none.
const MEMBERS: [(u32, &str); 10] = [
    (0, ""),
    (7, ""),
    (9, "16 17 "),
    (10, "18 "),
    (11, "19 20 22 23 24 "),
    (12, "21 "),
    (13, "25 "),
    (14, "26 "),
    (15, "27 "),
    (16, ""),
];

fn has_members(alloc: Global, layout: &Layout, serial: u32, wanted: &str) -> Result<bool, Fail> {
    let found = serials(alloc, layout.members(scope_at(serial)))?;
    Ok(found.as_str() == wanted)
}

/// The first of the scopes that have other members.
fn wrong_members(alloc: Global, layout: &Layout) -> Result<Option<u32>, Fail> {
    for (serial, wanted) in MEMBERS {
        if !has_members(alloc, layout, serial, wanted)? {
            return Ok(Some(serial));
        }
    }
    Ok(None)
}

#[test]
fn types_have_their_members(rt: HostRuntime) -> Result<(), Fail> {
    let wrong = wrong_members(rt.alloc(), &small_layout(rt.alloc())?)?;
    assert_eq!(rt; wrong, None);
    Ok(())
}

const TITLES: [(u32, &str); 16] = [
    (0, "(root)"),
    (1, "(unnamed)"),
    (2, "java"),
    (3, "java.lang"),
    (5, ""),
    (9, "java.lang.Object"),
    (12, "p.A.B"),
    (13, "p.A"),
    (15, "I.B"),
    (16, "java.lang.Object#new"),
    (17, "java.lang.Object#m()"),
    (21, "p.A.B#new"),
    (22, "p.A#x"),
    (23, "p.A#x()"),
    (38, "I#x!"),
    (40, ""),
];

fn has_title(alloc: Global, layout: &Layout, serial: u32, wanted: &str) -> Result<bool, Fail> {
    let names = small_names(alloc)?;
    let found = layout.title(alloc, &names, scope_at(serial))?;
    Ok(found.as_str() == wanted)
}

/// The first of the scopes that have another title.
fn wrong_title(
    alloc: Global,
    layout: &Layout,
    titles: &[(u32, &str)],
) -> Result<Option<u32>, Fail> {
    for (serial, wanted) in titles {
        if !has_title(alloc, layout, *serial, *wanted)? {
            return Ok(Some(*serial));
        }
    }
    Ok(None)
}

#[test]
fn scopes_have_titles(rt: HostRuntime) -> Result<(), Fail> {
    let wrong = wrong_title(rt.alloc(), &small_layout(rt.alloc())?, &TITLES)?;
    assert_eq!(rt; wrong, None);
    Ok(())
}

/// A class by its serial and its brackets, and its text.
const CLASS_TEXTS: [(u32, u8, &str); 5] = [
    (9, 0, "java.lang.Object"),
    (12, 0, "p.A.B"),
    (13, 1, "p.A[]"),
    (15, 2, "I.B[][]"),
    (40, 1, "[]"),
];

fn has_text(alloc: Global, layout: &Layout, ty: Ty, wanted: &str) -> Result<bool, Fail> {
    let names = small_names(alloc)?;
    let found = layout.type_text(alloc, &names, ty)?;
    Ok(found.as_str() == wanted)
}

fn class_type(serial: u32, dims: u8) -> Ty {
    Ty {
        base: TypeBase::Class(scope_at(serial)),
        dims,
    }
}

/// The first of the classes that have another text.
fn wrong_class(alloc: Global, layout: &Layout) -> Result<Option<u32>, Fail> {
    for (serial, dims, wanted) in CLASS_TEXTS {
        if !has_text(alloc, layout, class_type(serial, dims), wanted)? {
            return Ok(Some(serial));
        }
    }
    Ok(None)
}

#[test]
fn classes_have_texts(rt: HostRuntime) -> Result<(), Fail> {
    let wrong = wrong_class(rt.alloc(), &small_layout(rt.alloc())?)?;
    assert_eq!(rt; wrong, None);
    Ok(())
}

/// A base that is no class and its brackets, and its text.
const PLAIN_TEXTS: [(TypeBase, u8, &str); 8] = [
    (TypeBase::Boolean, 0, "boolean"),
    (TypeBase::Char, 1, "char[]"),
    (TypeBase::Int, 0, "int"),
    (TypeBase::Long, 3, "long[][][]"),
    (TypeBase::Null, 0, "null"),
    (TypeBase::Void, 0, "void"),
    (TypeBase::Bad, 0, "?"),
    (TypeBase::Bad, 2, "?"),
];

/// The first of the texts that are not those of their types.
fn wrong_plain_text(alloc: Global, layout: &Layout) -> Result<Option<&'static str>, Fail> {
    for (base, dims, wanted) in PLAIN_TEXTS {
        if !has_text(alloc, layout, Ty { base, dims }, wanted)? {
            return Ok(Some(wanted));
        }
    }
    Ok(None)
}

#[test]
fn plain_types_have_texts(rt: HostRuntime) -> Result<(), Fail> {
    let wrong = wrong_plain_text(rt.alloc(), &small_layout(rt.alloc())?)?;
    assert_eq!(rt; wrong, None);
    Ok(())
}

/// The numbers of simple names.
const SIMPLE_NAMES: [(u32, Option<u32>); 13] = [
    (0, None),
    (1, None),
    (2, Some(0)),
    (3, Some(1)),
    (5, None),
    (9, Some(2)),
    (12, Some(6)),
    (13, Some(5)),
    (17, Some(8)),
    (21, Some(6)),
    (22, Some(7)),
    (28, None),
    (40, None),
];

/// The first of the scopes that have another simple name.
fn wrong_simple_name(layout: &Layout) -> Option<u32> {
    for (serial, wanted) in SIMPLE_NAMES {
        let found = layout.simple_name(scope_at(serial));
        if found.map(|name| name.0) != wanted {
            return Some(serial);
        }
    }
    None
}

#[test]
fn scopes_have_simple_names(rt: HostRuntime) -> Result<(), Fail> {
    let wrong = wrong_simple_name(&small_layout(rt.alloc())?);
    assert_eq!(rt; wrong, None);
    Ok(())
}

/// The serials of duplicates.
fn put_duplicates(alloc: Global, layout: &Layout, text: &mut String) -> Result<(), Fail> {
    let declarations = layout.declarations(alloc)?;
    for serial in 0..41 {
        if declarations.is_duplicate(layout, scope_at(serial)) {
            write!(text, "{} ", serial)?;
        }
    }
    Ok(())
}

#[test]
fn a_second_class_and_a_second_field_are_duplicates(rt: HostRuntime) -> Result<(), Fail> {
    let layout = small_layout(rt.alloc())?;
    let mut text = String::new(rt.alloc());
    put_duplicates(rt.alloc(), &layout, &mut text)?;
    assert_eq!(rt; text.as_str(), "13 22 ");
    Ok(())
}

/// Scopes and numbers of names, and whether a package stands there.
const SUBPACKAGES: [(u32, u32, bool); 8] = [
    (0, 0, true),
    (0, 1, false),
    (0, 4, true),
    (1, 4, false),
    (2, 0, false),
    (2, 1, true),
    (3, 1, false),
    (40, 0, false),
];

fn small_declarations(alloc: Global) -> Result<Declarations, Fail> {
    let layout = small_layout(alloc)?;
    Ok(layout.declarations(alloc)?)
}

/// The first of the scopes and names where it is otherwise.
fn wrong_subpackage(declarations: &Declarations) -> Option<(u32, u32)> {
    for (serial, name, wanted) in SUBPACKAGES {
        if declarations.has_subpackage(scope_at(serial), NameId(name)) != wanted {
            return Some((serial, name));
        }
    }
    None
}

#[test]
fn packages_have_their_subpackages(rt: HostRuntime) -> Result<(), Fail> {
    let wrong = wrong_subpackage(&small_declarations(rt.alloc())?);
    assert_eq!(rt; wrong, None);
    Ok(())
}

/// The edges with a label, each as the serials of its scopes.
fn edges_by(alloc: Global, opening: &Opening<JavaDatum>, label: u8) -> Result<String, Fail> {
    let mut text = String::new(alloc);
    for (from, by, to) in &opening.edges {
        if by.number() == label {
            write!(text, "{}-{} ", from.serial, to.serial)?;
        }
    }
    Ok(text)
}

/// A second class `A` and a second field `x` have no edge.
const EDGES: [(u8, &str); 11] = [
    (labels::PKG, "0-2 2-3 0-4 "),
    (labels::PKGOF, "5-3 6-3 7-4 8-1 "),
    (labels::ODI, "5-3 6-3 7-3 8-3 "),
    (labels::TYPE, "3-9 3-10 4-11 11-12 1-14 14-15 "),
    (labels::SELF, "5-9 6-10 7-11 8-14 "),
    (labels::FIELD, "11-20 14-26 "),
    (labels::METH, "9-17 11-23 11-24 "),
    (labels::CTOR, "9-16 10-18 11-19 12-21 13-25 15-27 "),
    (
        labels::SIG,
        "16-28 17-29 18-30 19-31 20-32 21-33 22-34 23-35 24-36 25-37 26-38 27-39 ",
    ),
    (labels::EXT, ""),
    (labels::SIMP, ""),
];

fn has_edges(
    alloc: Global,
    opening: &Opening<JavaDatum>,
    label: u8,
    wanted: &str,
) -> Result<bool, Fail> {
    let found = edges_by(alloc, opening, label)?;
    Ok(found.as_str() == wanted)
}

fn small_opening(alloc: Global) -> Result<Opening<JavaDatum>, Fail> {
    let layout = small_layout(alloc)?;
    Ok(layout.opening(alloc)?)
}

/// The first of the labels that have other edges.
fn wrong_edges(alloc: Global, opening: &Opening<JavaDatum>) -> Result<Option<u8>, Fail> {
    for (label, wanted) in EDGES {
        if !has_edges(alloc, opening, label, wanted)? {
            return Ok(Some(label));
        }
    }
    Ok(None)
}

#[test]
fn an_opening_has_its_edges(rt: HostRuntime) -> Result<(), Fail> {
    let opening = small_opening(rt.alloc())?;
    assert_eq!(rt; opening.scopes.len(), 40);
    assert_eq!(rt; wrong_edges(rt.alloc(), &opening)?, None);
    Ok(())
}

/// The rows that units hold, each as the unit, the scope's serial and the label.
fn rows_held(alloc: Global, opening: &Opening<JavaDatum>) -> Result<String, Fail> {
    let mut text = String::new(alloc);
    for (unit, scope, label) in &opening.row_holds {
        write!(text, "{}:{}-{} ", *unit, scope.serial, label.number())?;
    }
    Ok(text)
}

/// The data that units hold, each as the unit and the scope's serial.
fn data_held(alloc: Global, opening: &Opening<JavaDatum>) -> Result<String, Fail> {
    let mut text = String::new(alloc);
    for (unit, scope) in &opening.datum_holds {
        write!(text, "{}:{} ", *unit, scope.serial)?;
    }
    Ok(text)
}

const ROWS: &str =
    "0:5-3 0:5-5 1:6-3 1:6-5 2:7-3 2:7-5 3:8-3 3:8-5 4:9-6 5:10-6 6:11-6 7:12-6 8:13-6 9:14-6 10:15-6 ";

const DATA: &str = "4:28 4:29 5:30 6:31 6:32 7:33 6:34 6:35 6:36 8:37 9:38 10:39 ";

fn has_rows(alloc: Global, opening: &Opening<JavaDatum>) -> Result<bool, Fail> {
    let rows = rows_held(alloc, opening)?;
    Ok(rows.as_str() == ROWS)
}

fn has_data(alloc: Global, opening: &Opening<JavaDatum>) -> Result<bool, Fail> {
    let data = data_held(alloc, opening)?;
    Ok(data.as_str() == DATA)
}

#[test]
fn units_hold_rows_and_data(rt: HostRuntime) -> Result<(), Fail> {
    let opening = small_opening(rt.alloc())?;
    assert_eq!(rt; opening.units, 11);
    assert_eq!(rt; opening.given.len(), 22);
    assert!(rt; has_rows(rt.alloc(), &opening)?);
    assert!(rt; has_data(rt.alloc(), &opening)?);
    Ok(())
}

/// The packages stand by dotted name, byte by byte, and a dollar sign is before a dot.
const DOTTED_NAMES: [(u32, &str); 6] = [
    (2, "p"),
    (3, "p$"),
    (4, "p$.x"),
    (5, "p.A"),
    (6, "p.x"),
    (7, "p.x.m"),
];

#[test]
fn packages_stand_by_dotted_name(rt: HostRuntime) -> Result<(), Fail> {
    let wrong = wrong_title(rt.alloc(), &packages_layout(rt.alloc())?, &DOTTED_NAMES)?;
    assert_eq!(rt; wrong, None);
    Ok(())
}

fn packages_opening(alloc: Global) -> Result<Opening<JavaDatum>, Fail> {
    let layout = packages_layout(alloc)?;
    Ok(layout.opening(alloc)?)
}

#[test]
fn packages_have_edges_in_their_order(rt: HostRuntime) -> Result<(), Fail> {
    let opening = packages_opening(rt.alloc())?;
    assert!(rt;
        has_edges(
            rt.alloc(),
            &opening,
            labels::PKG,
            "0-2 0-3 3-4 2-5 2-6 6-7 "
        )?
    );
    assert!(rt;
        has_edges(
            rt.alloc(),
            &opening,
            labels::PKGOF,
            "8-7 9-4 10-5 11-2 12-3 13-7 "
        )?
    );
    Ok(())
}

fn methods_layout(alloc: Global) -> Result<Layout, Fail> {
    layout_of(alloc, files_of_methods(alloc)?)
}

/// What a member is: `a` where it is abstract, `s` where it is static, `d` where it is a default method, `i` where it is a
/// method of an interface, and a bar at the end.
fn put_letters(layout: &Layout, member: Scope, text: &mut String) -> Result<(), Fail> {
    let letters = [
        (layout.is_abstract(member), 'a'),
        (layout.is_static(member), 's'),
        (layout.is_default(member), 'd'),
        (layout.is_interface_method(member), 'i'),
        (true, '|'),
    ];
    for (holds, letter) in letters {
        if holds {
            text.push(letter)?;
        }
    }
    Ok(())
}

fn put_letters_of(layout: &Layout, ty: Scope, text: &mut String) -> Result<(), Fail> {
    for member in layout.members(ty) {
        put_letters(layout, *member, text)?;
    }
    Ok(())
}

/// What the members of all types are.
fn letters_told(alloc: Global) -> Result<String, Fail> {
    let layout = methods_layout(alloc)?;
    let mut text = String::new(alloc);
    for ty in layout.types() {
        put_letters_of(&layout, *ty, &mut text)?;
    }
    Ok(text)
}

/// A method of an interface is abstract where neither `static` nor `default` is written, and a default method where `default`
/// and not `static` is (JLS 9.4). The first member of the class is its constructor.
const METHOD_LETTERS: &str = "ai|si|di|ai|si|di|||a|s|";

#[test]
fn methods_of_interfaces_are_default_static_or_abstract(rt: HostRuntime) -> Result<(), Fail> {
    let letters = letters_told(rt.alloc())?;
    assert_eq!(rt; letters.as_str(), METHOD_LETTERS);
    Ok(())
}

/// An import by the numbers of its name, with a star where it is on demand.
fn put_import(text: &mut String, import: &Import) -> Result<(), Fail> {
    for ident in &import.name.ids {
        write!(text, "{}.", ident.id.0)?;
    }
    write!(text, "{}", if import.all { "* " } else { " " })?;
    Ok(())
}

/// The static imports of a file.
fn static_imports_told(alloc: Global, layout: &Layout, file: u32) -> Result<String, Fail> {
    let mut text = String::new(alloc);
    for import in layout.static_imports(file) {
        put_import(&mut text, import)?;
    }
    Ok(text)
}

/// The static imports of each file, and of one that is none.
const STATIC_IMPORTS: [(u32, &str); 3] = [(0, ""), (1, "4.5.7. 4.5.* "), (2, "")];

/// The first of the files that have other static imports.
fn wrong_imports(alloc: Global, layout: &Layout) -> Result<Option<u32>, Fail> {
    for (file, wanted) in STATIC_IMPORTS {
        if static_imports_told(alloc, layout, file)?.as_str() != wanted {
            return Ok(Some(file));
        }
    }
    Ok(None)
}

#[test]
fn files_keep_their_static_imports(rt: HostRuntime) -> Result<(), Fail> {
    let layout = layout_of(rt.alloc(), files_of_imports(rt.alloc())?)?;
    assert_eq!(rt; wrong_imports(rt.alloc(), &layout)?, None);
    Ok(())
}
