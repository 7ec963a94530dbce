//! Static imports in a small folder, worked out by hand: which members of each kind they bring, which queries they ask, and what
//! names mean by them.

use crate::small_folder::{A, C, M, P, X, Y, Z, scope, small_graph};
use crate::small_replies::{SmallFolder, put_reply};
use crate::static_folder::{name_of, static_folder, static_layout};
use jv_instance::JavaPred;
use jv_layout::Layout;
use jv_names::kinds::{FIELDS, OWNTYPE, SUBPKG};
use jv_names::{
    Ends, Meaning, Oracle, Resolved, Spot, StaticKind, for_name, java_kinds, resolve_import,
    resolve_type, static_members,
};
use jv_tree::{Import, NameId};
use sg_base::Scope;
use sg_query::{Answer, Query};
use sg_reading::Known;
use std::alloc::Global;
use std::fmt::Write;
use std::test::Fail;

/// What was found, where no reply is missing.
fn known<T>(found: Known<T, Query<JavaPred>>) -> Result<T, Fail> {
    match found {
        Known::Is(value) => Ok(value),
        Known::Need(_) => Err("a reply is missing".into()),
    }
}

/// The serials of members.
fn put_members(text: &mut String, members: &[Scope]) -> Result<(), Fail> {
    for member in members {
        write!(text, "{} ", member.serial)?;
    }
    Ok(())
}

/// The serials of members that were found.
fn ends_told(alloc: Global, ends: &Ends) -> Result<String, Fail> {
    let mut text = String::new(alloc);
    match ends {
        Ends::Scopes(members) => put_members(&mut text, members.as_slice())?,
        Ends::TooMany => write!(text, "too many")?,
    }
    Ok(text)
}

/// A file, whether its imports on demand are asked, and the kind and the name of what they bring.
type AskedOf = (u32, bool, StaticKind, u32);

/// What the static imports of a file bring.
fn brought(alloc: Global, small: &SmallFolder, of: AskedOf) -> Result<String, Fail> {
    let (file, all, which, number) = of;
    if file >= 4 {
        return Err("no such file".into());
    }
    let name = NameId(number);
    let found = static_members(alloc, &small.layout, &small.oracle, file, all, which, name)?;
    ends_told(alloc, &known(found)?)
}

/// What is asked, and the serials of what it brings: of `y` only in its package, of `z` nothing, since it is not static.
const BROUGHT: [(AskedOf, &str); 12] = [
    ((3, true, StaticKind::Types, M), "13 "),
    ((3, true, StaticKind::Fields, X), "19 "),
    ((3, true, StaticKind::Fields, Y), ""),
    ((3, true, StaticKind::Fields, Z), ""),
    ((3, true, StaticKind::Methods, M), "22 "),
    ((3, false, StaticKind::Types, M), "13 "),
    ((3, false, StaticKind::Fields, X), "19 "),
    ((3, false, StaticKind::Fields, Y), ""),
    ((3, false, StaticKind::Fields, Z), ""),
    ((3, false, StaticKind::Methods, M), "22 "),
    ((2, true, StaticKind::Fields, Y), "20 "),
    ((2, false, StaticKind::Fields, X), ""),
];

/// The first that brings something else.
fn wrong_brought(alloc: Global, small: &SmallFolder) -> Result<Option<AskedOf>, Fail> {
    for (of, wanted) in BROUGHT {
        if brought(alloc, small, of)?.as_str() != wanted {
            return Ok(Some(of));
        }
    }
    Ok(None)
}

#[test]
fn static_imports_bring_static_members(rt: HostRuntime) -> Result<(), Fail> {
    let wrong = wrong_brought(rt.alloc(), &*static_folder(rt.alloc())?)?;
    assert!(rt; wrong.is_none());
    Ok(())
}

/// Whether the fields `x` that imports on demand bring come to this query.
fn fields_ask_for(
    alloc: Global,
    layout: &Layout,
    oracle: &Oracle,
    wanted: &Query<JavaPred>,
) -> Result<bool, Fail> {
    match static_members(
        alloc,
        layout,
        oracle,
        3,
        true,
        StaticKind::Fields,
        NameId(X),
    )? {
        Known::Is(_) => Ok(false),
        Known::Need(query) => Ok(query == *wanted),
    }
}

/// Puts the reply to a query; that for the fields of `A` is that there are too many paths.
fn put_answer(alloc: Global, oracle: &mut Oracle, query: Query<JavaPred>) -> Result<(), Fail> {
    if query.kind == FIELDS && query.start == scope(12) {
        oracle.put(query, Answer::TooMany)?;
        return Ok(());
    }
    let graph = small_graph(alloc)?;
    let table = java_kinds(alloc)?;
    put_reply(alloc, &graph, &table, oracle, query)?;
    Ok(())
}

/// The queries for the fields `x` that the imports on demand of `q` bring, in turn, by kind, start and name: those behind the one
/// with too many paths are asked all the same.
const ASKED: [(u8, u32, u32); 5] = [
    (SUBPKG, 0, P),
    (OWNTYPE, 4, A),
    (FIELDS, 12, X),
    (OWNTYPE, 4, C),
    (FIELDS, 14, X),
];

/// The kind and the start of the first query that is not asked in its turn.
fn wrong_turn(
    alloc: Global,
    layout: &Layout,
    oracle: &mut Oracle,
) -> Result<Option<(u8, u32)>, Fail> {
    for (kind, start, number) in ASKED {
        let query = for_name(kind, scope(start), NameId(number));
        if !fields_ask_for(alloc, layout, oracle, &query)? {
            return Ok(Some((kind, start)));
        }
        put_answer(alloc, oracle, query)?;
    }
    Ok(None)
}

/// What the fields `x` come to once all queries have their replies; where one is not asked in its turn, that it is wrong.
fn fields_in_turn(alloc: Global) -> Result<String, Fail> {
    let layout = static_layout(alloc)?;
    let mut oracle = Oracle::new(alloc);
    if wrong_turn(alloc, &layout, &mut oracle)?.is_some() {
        return Err("a query is asked out of turn".into());
    }
    let small = SmallFolder { layout, oracle };
    brought(alloc, &small, (3, true, StaticKind::Fields, X))
}

#[test]
fn too_many_paths_end_no_static_imports(rt: HostRuntime) -> Result<(), Fail> {
    assert_eq!(rt; fields_in_turn(rt.alloc())?.as_str(), "too many");
    Ok(())
}

/// What a static import means.
fn import_means(
    alloc: Global,
    small: &SmallFolder,
    numbers: &[u32],
    all: bool,
) -> Result<Resolved, Fail> {
    let import = Import {
        name: name_of(alloc, numbers)?,
        all,
        is_static: true,
    };
    let found = resolve_import(alloc, &small.layout, &small.oracle, &import)?;
    known(found)
}

/// Whether a static import means `A`.
fn imports_a(alloc: Global, small: &SmallFolder, numbers: &[u32], all: bool) -> Result<bool, Fail> {
    let resolved = import_means(alloc, small, numbers, all)?;
    let types = resolved.types.as_slice();
    Ok(resolved.meaning == Meaning::One(scope(12)) && types == [scope(12)].as_slice())
}

/// Whether a static import of a package means nothing.
fn imports_no_package(alloc: Global, small: &SmallFolder) -> Result<bool, Fail> {
    let resolved = import_means(alloc, small, &[P], true)?;
    Ok(resolved.meaning == Meaning::Nothing)
}

#[test]
fn static_imports_mean_types(rt: HostRuntime) -> Result<(), Fail> {
    let small = static_folder(rt.alloc())?;
    assert!(rt; imports_a(rt.alloc(), &*small, &[P, A, X], false)?);
    assert!(rt; imports_a(rt.alloc(), &*small, &[P, A], true)?);
    assert!(rt; imports_no_package(rt.alloc(), &*small)?);
    Ok(())
}

/// Whether the simple name `M` means the member type of `A` in a file.
fn means_member_type(alloc: Global, small: &SmallFolder, file: u32) -> Result<bool, Fail> {
    if file >= 4 {
        return Ok(false);
    }
    let inside = Vec::new(alloc);
    let name = name_of(alloc, &[M])?;
    let spot = Spot { file, inside };
    let found = resolve_type(alloc, &small.layout, &small.oracle, &spot, &name)?;
    Ok(known(found)?.meaning == Meaning::One(scope(13)))
}

#[test]
fn static_imports_bring_types(rt: HostRuntime) -> Result<(), Fail> {
    let small = static_folder(rt.alloc())?;
    assert!(rt; means_member_type(rt.alloc(), &*small, 2)?);
    assert!(rt; means_member_type(rt.alloc(), &*small, 3)?);
    Ok(())
}
