//! Names in the small folder, worked out by hand: one of each call, replies that no graph gives, and replies that are missing. What names
//! mean stands in `tests/bodies`.

use crate::default_folder::{default_folder, default_graph, default_layout};
use crate::small_folder::{A, F, G, M, P, X, ident, scope, small_graph, small_layout, small_names};
use crate::small_replies::{SmallFolder, put_reply, small_folder};
use jv_instance::{JavaDatum, JavaPred, Ty, TypeBase, labels};
use jv_layout::Layout;
use jv_names::kinds::{self, FILETYPE, MEMTYPE, METHODS, OWNTYPE, SUBPKG, SUPERS};
use jv_names::{
    Ends, Meaning, Oracle, Resolved, Spot, WrittenType, accessible, all_methods, find_field,
    find_methods, for_any, for_name, java_kinds, read_members_among, resolve_import, resolve_type,
    resolve_written_type, type_accessible,
};
use jv_tree::{Base, Import, Name, NameId, Names, TypeRef};
use sg_base::{Label, Scope, Step};
use sg_query::{Answer, FoundPaths, FoundTree, Query};
use sg_reading::Known;
use std::alloc::Global;
use std::fmt::Write;
use std::test::Fail;

fn name_of(alloc: Global, numbers: &[u32]) -> Result<Name, Fail> {
    let mut ids = Vec::new(alloc);
    for number in numbers {
        ids.push(ident(*number))?;
    }
    Ok(Name { ids })
}

/// The bodies around a place in that of `B`.
fn body_of_b(alloc: Global) -> Result<Vec<Scope>, Fail> {
    Ok(vec![in alloc; scope(15)]?)
}

/// What was found, where no reply is missing.
fn known<T>(found: Known<T, Query<JavaPred>>) -> Result<T, Fail> {
    match found {
        Known::Is(value) => Ok(value),
        Known::Need(_) => Err("a reply is missing".into()),
    }
}

/// A meaning as a serial or a word.
fn put_meaning(text: &mut String, meaning: Meaning) -> Result<(), Fail> {
    match meaning {
        Meaning::One(s) => write!(text, "{}", s.serial)?,
        Meaning::Nothing => write!(text, "nothing")?,
        Meaning::Ambiguous => write!(text, "ambiguous")?,
        Meaning::TooMany => write!(text, "too many")?,
    }
    Ok(())
}

/// Whether a name means the member type of `A`, and its last two parts `A` and this type.
fn is_member_type(resolved: &Resolved) -> bool {
    resolved.meaning == Meaning::One(scope(13))
        && resolved.types.as_slice() == [scope(12), scope(13)].as_slice()
}

/// Whether `p.A.M` means the member type of `A` in its file.
fn means_member_type(alloc: Global, small: &SmallFolder) -> Result<bool, Fail> {
    let inside = Vec::new(alloc);
    let spot = Spot { file: 2, inside };
    let name = name_of(alloc, &[P, A, M])?;
    let found = resolve_type(alloc, &small.layout, &small.oracle, &spot, &name)?;
    Ok(is_member_type(&known(found)?))
}

#[test]
fn names_of_types_mean_types(rt: HostRuntime) -> Result<(), Fail> {
    let holds = means_member_type(rt.alloc(), &*small_folder(rt.alloc())?)?;
    assert!(rt; holds);
    Ok(())
}

/// Whether `import p.A.M;` means the member type of `A`.
fn imports_member_type(alloc: Global, small: &SmallFolder) -> Result<bool, Fail> {
    let import = Import {
        name: name_of(alloc, &[P, A, M])?,
        all: false,
        is_static: false,
    };
    let found = resolve_import(alloc, &small.layout, &small.oracle, &import)?;
    Ok(is_member_type(&known(found)?))
}

#[test]
fn imports_start_at_the_root(rt: HostRuntime) -> Result<(), Fail> {
    let holds = imports_member_type(rt.alloc(), &*small_folder(rt.alloc())?)?;
    assert!(rt; holds);
    Ok(())
}

/// Whether a type that is written means `A[]`, and nothing is wrong.
fn is_array_of_a(meant: &WrittenType) -> bool {
    let base = TypeBase::Class(scope(12));
    meant.ty == Ty { base, dims: 1 } && meant.diags.as_slice().is_empty()
}

/// What a type means that is written in the file of `B`.
fn written_type(
    alloc: Global,
    small: &SmallFolder,
    names: &Names,
    ty: &TypeRef,
) -> Result<WrittenType, Fail> {
    let inside = Vec::new(alloc);
    let spot = Spot { file: 3, inside };
    let found = resolve_written_type(alloc, &small.layout, names, &small.oracle, &spot, ty)?;
    known(found)
}

/// Whether a type that is written in the file of `B` means `A[]`.
fn means_array_of_a(alloc: Global, small: &SmallFolder, ty: &TypeRef) -> Result<bool, Fail> {
    let names = small_names(alloc)?;
    let meant = written_type(alloc, small, &names, ty)?;
    Ok(is_array_of_a(&meant))
}

/// Whether `A[]` has its meaning in the file of `B`.
fn array_is_written(alloc: Global, small: &SmallFolder) -> Result<bool, Fail> {
    let base = Base::Named(name_of(alloc, &[A])?);
    let ty = TypeRef {
        at: 0,
        base,
        dims: 1,
    };
    means_array_of_a(alloc, small, &ty)
}

#[test]
fn types_are_written(rt: HostRuntime) -> Result<(), Fail> {
    let holds = array_is_written(rt.alloc(), &*small_folder(rt.alloc())?)?;
    assert!(rt; holds);
    Ok(())
}

/// Whether the member type of `A` is accessible in the body of `B`.
fn sees_member_type(alloc: Global, small: &SmallFolder) -> Result<bool, Fail> {
    let inside = body_of_b(alloc)?;
    let spot = Spot { file: 3, inside };
    let found = type_accessible(&small.layout, &small.oracle, &spot, scope(13))?;
    known(found)
}

#[test]
fn types_are_accessible(rt: HostRuntime) -> Result<(), Fail> {
    let holds = sees_member_type(rt.alloc(), &*small_folder(rt.alloc())?)?;
    assert!(rt; holds);
    Ok(())
}

/// Whether the field `z` of `A` is accessible in the body of `B` through a receiver of `B`.
fn reaches_protected_field(alloc: Global, small: &SmallFolder) -> Result<bool, Fail> {
    let inside = body_of_b(alloc)?;
    let spot = Spot { file: 3, inside };
    let receiver = Some(scope(15));
    let found = accessible(&small.layout, &small.oracle, &spot, scope(21), receiver)?;
    known(found)
}

#[test]
fn members_are_accessible(rt: HostRuntime) -> Result<(), Fail> {
    let holds = reaches_protected_field(rt.alloc(), &*small_folder(rt.alloc())?)?;
    assert!(rt; holds);
    Ok(())
}

fn field_at(small: &SmallFolder, class: u32, number: u32) -> Result<Meaning, Fail> {
    let found = find_field(&small.layout, &small.oracle, scope(class), NameId(number))?;
    known(found)
}

/// Whether a name means this as a field of a type.
fn field_means(
    alloc: Global,
    small: &SmallFolder,
    class: u32,
    number: u32,
    wanted: &str,
) -> Result<bool, Fail> {
    let meaning = field_at(small, class, number)?;
    let mut text = String::new(alloc);
    put_meaning(&mut text, meaning)?;
    Ok(text.as_str() == wanted)
}

/// The step to a field.
fn field_step(serial: u32) -> Step {
    Step {
        label: Label::new(labels::FIELD),
        to: scope(serial),
    }
}

/// Paths from `A` by a field's label.
fn answer_of(alloc: Global, ends: &[u32]) -> Result<Answer<JavaDatum>, Fail> {
    let mut found = FoundTree::new(alloc, scope(12));
    for serial in ends {
        let datum = JavaDatum::Member { name: NameId(X) };
        found.add(&[field_step(*serial)], datum)?;
    }
    Ok(Answer::Paths(FoundPaths::new(alloc, found)?))
}

/// The answer to the query for `x` as a field of `A`.
fn field_oracle(alloc: Global, answer: Answer<JavaDatum>) -> Result<Oracle, Fail> {
    let query = Query {
        start: scope(12),
        kind: kinds::FIELDS,
        pred: JavaPred::Named(NameId(X)),
    };
    let mut oracle = Oracle::new(alloc);
    oracle.put(query, answer)?;
    Ok(oracle)
}

/// Whether `x` means this as a field of `A` where this is the answer.
fn field_means_by(alloc: Global, answer: Answer<JavaDatum>, wanted: &str) -> Result<bool, Fail> {
    let oracle = field_oracle(alloc, answer)?;
    let layout = small_layout(alloc)?;
    field_means(alloc, &SmallFolder { layout, oracle }, 12, X, wanted)
}

/// Whether `x` means this as a field of `A` where its query has paths to these ends.
fn field_means_at(alloc: Global, ends: &[u32], wanted: &str) -> Result<bool, Fail> {
    let answer = answer_of(alloc, ends)?;
    field_means_by(alloc, answer, wanted)
}

/// Ends of paths by a field's label from `A`, of which 22 is a method and 40 is nowhere: what the field means.
const ENDS: [(&[u32], &str); 5] = [
    (&[], "nothing"),
    (&[19], "19"),
    (&[20, 20], "20"),
    (&[19, 20], "ambiguous"),
    (&[22, 40], "nothing"),
];

/// The first of the meanings that ends of paths have not.
fn wrong_ends(alloc: Global) -> Result<Option<&'static str>, Fail> {
    for (ends, wanted) in ENDS {
        if !field_means_at(alloc, ends, wanted)? {
            return Ok(Some(wanted));
        }
    }
    Ok(None)
}

#[test]
fn answers_that_are_made_up_have_a_meaning(rt: HostRuntime) -> Result<(), Fail> {
    assert_eq!(rt; wrong_ends(rt.alloc())?, None);
    assert!(rt; field_means_by(rt.alloc(), Answer::TooMany, "too many")?);
    Ok(())
}

/// Whether there is one method, `m` of `A`.
fn is_method(ends: &Ends) -> bool {
    match ends {
        Ends::Scopes(ends) => ends.as_slice() == [scope(22)].as_slice(),
        Ends::TooMany => false,
    }
}

/// Whether `B` inherits the method `m` of `A`.
fn inherits_method(alloc: Global, small: &SmallFolder) -> Result<bool, Fail> {
    let found = find_methods(alloc, &small.layout, &small.oracle, scope(15), NameId(M))?;
    Ok(is_method(&known(found)?))
}

#[test]
fn methods_are_inherited(rt: HostRuntime) -> Result<(), Fail> {
    let holds = inherits_method(rt.alloc(), &*small_folder(rt.alloc())?)?;
    assert!(rt; holds);
    Ok(())
}

/// Whether `p.A` in the body of `B` comes to a query, and it is the wanted one.
fn asks_for(
    alloc: Global,
    layout: &Layout,
    oracle: &Oracle,
    wanted: &Query<JavaPred>,
) -> Result<bool, Fail> {
    let inside = body_of_b(alloc)?;
    let spot = Spot { file: 3, inside };
    let name = name_of(alloc, &[P, A])?;
    match resolve_type(alloc, layout, oracle, &spot, &name)? {
        Known::Is(_) => Ok(false),
        Known::Need(query) => Ok(query == *wanted),
    }
}

/// Whether `p.A` asks for this query in the body of `B`, whose reply is put then.
fn asks_in_turn(
    alloc: Global,
    layout: &Layout,
    oracle: &mut Oracle,
    query: Query<JavaPred>,
) -> Result<bool, Fail> {
    let asks = asks_for(alloc, layout, oracle, &query)?;
    let graph = small_graph(alloc)?;
    let table = java_kinds(alloc)?;
    put_reply(alloc, &graph, &table, oracle, query)?;
    Ok(asks)
}

/// The queries that `p.A` asks in the body of `B`, in turn, by kind, start and name.
const ASKED: [(u8, u32, u32); 4] = [
    (MEMTYPE, 15, P),
    (FILETYPE, 9, P),
    (SUBPKG, 0, P),
    (OWNTYPE, 4, A),
];

fn named(kind: u8, start: u32, number: u32) -> Query<JavaPred> {
    Query {
        start: scope(start),
        kind,
        pred: JavaPred::Named(NameId(number)),
    }
}

/// The kind of the first query that is not asked in its turn.
fn wrong_turn(alloc: Global, layout: &Layout) -> Result<Option<u8>, Fail> {
    let mut oracle = Oracle::new(alloc);
    for (kind, start, number) in ASKED {
        if !asks_in_turn(alloc, layout, &mut oracle, named(kind, start, number))? {
            return Ok(Some(kind));
        }
    }
    Ok(None)
}

#[test]
fn missing_replies_are_named_in_turn(rt: HostRuntime) -> Result<(), Fail> {
    let wrong = wrong_turn(rt.alloc(), &small_layout(rt.alloc())?)?;
    assert_eq!(rt; wrong, None);
    Ok(())
}

/// The serials of methods.
fn put_methods(text: &mut String, methods: &[Scope]) -> Result<(), Fail> {
    for method in methods {
        write!(text, "{} ", method.serial)?;
    }
    Ok(())
}

/// The serials of methods that were found.
fn ends_told(alloc: Global, ends: &Ends) -> Result<String, Fail> {
    let mut text = String::new(alloc);
    match ends {
        Ends::Scopes(methods) => put_methods(&mut text, methods.as_slice())?,
        Ends::TooMany => write!(text, "too many")?,
    }
    Ok(text)
}

/// Whether a type declares or inherits these methods of a name.
fn has_all_methods(
    alloc: Global,
    small: &SmallFolder,
    class: u32,
    number: u32,
    wanted: &str,
) -> Result<bool, Fail> {
    let name = NameId(number);
    let found = all_methods(alloc, &small.layout, &small.oracle, scope(class), name)?;
    let text = ends_told(alloc, &known(found)?)?;
    Ok(text.as_str() == wanted)
}

/// Whether a type has these methods of a name as members.
fn has_members(
    alloc: Global,
    small: &SmallFolder,
    class: u32,
    number: u32,
    wanted: &str,
) -> Result<bool, Fail> {
    let name = NameId(number);
    let found = find_methods(alloc, &small.layout, &small.oracle, scope(class), name)?;
    let text = ends_told(alloc, &known(found)?)?;
    Ok(text.as_str() == wanted)
}

/// A type, a name, the methods of that name that the type declares or inherits, and its members among them.
type MethodsOfName = (u32, u32, &'static str, &'static str);

/// The first of the types and names whose methods or members are others.
fn wrong_methods(
    alloc: Global,
    small: &SmallFolder,
    cases: &[MethodsOfName],
) -> Result<Option<(u32, u32)>, Fail> {
    for (class, number, all, members) in cases {
        if !has_all_methods(alloc, small, *class, *number, *all)?
            || !has_members(alloc, small, *class, *number, *members)?
        {
            return Ok(Some((*class, *number)));
        }
    }
    Ok(None)
}

/// `J.f` stands for `I.f` in `A` and hides it in `J`, `C.f` stands for it in `D`, and in `B` it stays beside `K.f`.
const DEFAULTS: [MethodsOfName; 4] = [
    (13, F, "19 21 ", "21 "),
    (14, F, "19 22 ", "19 22 "),
    (16, F, "19 26 ", "26 "),
    (11, F, "21 ", "21 "),
];

/// The members among methods of one name.
fn members_told(alloc: Global, small: &SmallFolder, methods: &[Scope]) -> Result<String, Fail> {
    let mut text = String::new(alloc);
    match read_members_among(alloc, &small.layout, &small.oracle, methods) {
        Ok(members) => put_methods(&mut text, members.as_slice())?,
        Err(_) => write!(text, "a reply is missing")?,
    }
    Ok(text)
}

#[test]
fn replaced_defaults_are_no_members(rt: HostRuntime) -> Result<(), Fail> {
    let small = default_folder(rt.alloc())?;
    assert_eq!(rt; wrong_methods(rt.alloc(), &*small, &DEFAULTS)?, None);
    let members = members_told(rt.alloc(), &*small, &[scope(19), scope(21), scope(22)])?;
    assert_eq!(rt; members.as_str(), "21 22 ");
    Ok(())
}

/// `I.g` is a member of `I` alone.
const STATIC_METHODS: [MethodsOfName; 3] = [
    (10, G, "20 ", "20 "),
    (11, G, "", ""),
    (13, G, "", ""),
];

#[test]
fn static_methods_of_interfaces_are_not_inherited(rt: HostRuntime) -> Result<(), Fail> {
    let wrong = wrong_methods(rt.alloc(), &*default_folder(rt.alloc())?, &STATIC_METHODS)?;
    assert_eq!(rt; wrong, None);
    Ok(())
}

/// Whether the members `f` of `A` come to a query, and it is the wanted one.
fn members_ask_for(
    alloc: Global,
    layout: &Layout,
    oracle: &Oracle,
    wanted: &Query<JavaPred>,
) -> Result<bool, Fail> {
    match find_methods(alloc, layout, oracle, scope(13), NameId(F))? {
        Known::Is(_) => Ok(false),
        Known::Need(query) => Ok(query == *wanted),
    }
}

/// Whether the members `f` of `A` ask for this query, whose reply is put then.
fn members_ask_in_turn(
    alloc: Global,
    layout: &Layout,
    oracle: &mut Oracle,
    query: Query<JavaPred>,
) -> Result<bool, Fail> {
    let asks = members_ask_for(alloc, layout, oracle, &query)?;
    let graph = default_graph(alloc)?;
    let table = java_kinds(alloc)?;
    put_reply(alloc, &graph, &table, oracle, query)?;
    Ok(asks)
}

/// The queries that the members `f` of `A` ask, in turn: for `I.f` and `J.f`, and for the supertypes of the other one's type.
fn member_queries(alloc: Global) -> Result<Vec<Query<JavaPred>>, Fail> {
    Ok(vec![in alloc;
        for_name(METHODS, scope(13), NameId(F)),
        for_any(SUPERS, scope(11)),
        for_any(SUPERS, scope(10)),
    ]?)
}

/// The kind and the start of the first query that is not asked in its turn.
fn wrong_member_query(alloc: Global, layout: &Layout) -> Result<Option<(u8, u32)>, Fail> {
    let mut oracle = Oracle::new(alloc);
    for query in member_queries(alloc)? {
        let asked = (query.kind, query.start.serial);
        if !members_ask_in_turn(alloc, layout, &mut oracle, query)? {
            return Ok(Some(asked));
        }
    }
    Ok(None)
}

#[test]
fn members_ask_for_supertypes(rt: HostRuntime) -> Result<(), Fail> {
    let wrong = wrong_member_query(rt.alloc(), &default_layout(rt.alloc())?)?;
    assert_eq!(rt; wrong, None);
    Ok(())
}
