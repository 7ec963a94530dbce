//! Bodies in short, with their faults, and whether they complete (JLS 14.21); methods and constructors with what is wrong (JLS 8.4.7).

use crate::build::body_of;
use jv_diag::{Diag, DiagList};
use jv_flow::{check_ctor_flow, check_flow, check_method_flow, flow};
use jv_tree::nodes::{
    class_or_interface, constructor, constructor_member, empty, field_member, method,
    method_member, nested, return_from, this, type_ref,
};
use jv_tree::{Base, Ctor, Ident, Member, Method, Mods, NameId, Names, Stmt, StmtKind};
use std::alloc::{AllocError, Global};
use std::test::Fail;

/// Bodies, whether they complete, and where their faults are.
const BODIES: [(&str, bool, &[u32]); 36] = [
    ("", true, &[]),
    (";", true, &[]),
    ("r", false, &[]),
    ("r;", false, &[1]),
    ("r;;", false, &[1]),
    ("r{;;}", false, &[1]),
    ("{r};", false, &[3]),
    ("{r;}r", false, &[2, 4]),
    ("b;", false, &[1]),
    ("ixr;", true, &[]),
    ("itr;", true, &[]),
    ("inr;", true, &[]),
    ("exrr;", false, &[4]),
    ("exr;;", true, &[]),
    ("jxrxrr;", false, &[6]),
    ("jxrx;r;", true, &[]),
    ("wt;", false, &[]),
    ("wt;;", false, &[3]),
    ("wtb;", true, &[]),
    ("wtr", false, &[]),
    ("wt{ixb}", true, &[]),
    ("wt{ixr}", false, &[]),
    ("wt{c;}", false, &[4]),
    ("wn;", true, &[2]),
    ("wn{;}", true, &[2]),
    ("wxr;", true, &[]),
    ("wtwtb;", false, &[5]),
    ("wt{dcnb};", true, &[]),
    ("d;t;", false, &[3]),
    ("dct;", false, &[3]),
    ("dcx;", true, &[]),
    ("dbt;", true, &[]),
    ("drx;", false, &[3]),
    ("f-;;", false, &[3]),
    ("f-b;", true, &[]),
    ("fn;;", true, &[2]),
];

#[test]
fn bodies_flow_as_they_should(rt: HostRuntime) -> Result<(), Fail> {
    for (text, completes, unreachable) in &BODIES {
        let body = body_of(rt.alloc(), text)?;
        let found = flow(rt.alloc(), body.as_slice())?;
        assert_eq!(rt; found.completes, *completes, "{text}");
        assert_eq!(rt; found.unreachable.as_slice(), *unreachable, "{text}");
    }
    Ok(())
}

/// Where the name of a method stands in these tests.
const NAME_AT: u32 = 900;

/// Bodies of methods, whether these return a value, and where they have which code.
const METHODS: [(&str, bool, &[(u32, u8)]); 9] = [
    ("wt{ixb}", true, &[(NAME_AT, 61)]),
    ("wt{ixr}", true, &[]),
    ("wt{ixb}", false, &[]),
    ("r;", false, &[(1, 60)]),
    ("", true, &[(NAME_AT, 61)]),
    ("", false, &[]),
    ("exrr", true, &[]),
    ("wn;", true, &[(2, 60), (NAME_AT, 61)]),
    ("{r;}r;;", true, &[(2, 60), (4, 60)]),
];

/// The number of the file in these tests.
const FILE: u32 = 2;

/// A name that stands there.
fn name() -> Ident {
    Ident {
        at: NAME_AT,
        id: NameId(0),
    }
}

/// No modifiers.
fn no_words(alloc: Global) -> Mods {
    Mods {
        words: Vec::new(alloc),
    }
}

/// A method of that name, with a value of type `int` or without one.
fn method_with(alloc: Global, value: bool, body: Option<Vec<Stmt>>) -> Method {
    let base = if value { Base::Int } else { Base::Void };
    method(
        no_words(alloc),
        type_ref(0, base, 0),
        name(),
        Vec::new(alloc),
        body,
    )
}

/// Whether diagnostics stand at these places of the file with these codes, and no others.
fn are_at(diags: &[Diag], wanted: &[(u32, u8)]) -> bool {
    let mut equal = diags.len() == wanted.len();
    for i in 0..diags.len() {
        if i < wanted.len() {
            let (at, code) = wanted[i];
            equal &= diags[i].file == FILE && diags[i].at == at && diags[i].code == code;
        }
    }
    equal
}

/// What is wrong with a method that has this body, or none.
fn of_method(alloc: Global, value: bool, text: Option<&str>) -> Result<DiagList, AllocError> {
    let mut names = Names::new(alloc);
    let _id = names.intern("f")?;
    let body = match text {
        None => None,
        Some(text) => Some(body_of(alloc, text)?),
    };
    let declared = method_with(alloc, value, body);
    check_method_flow(alloc, &names, FILE, &declared)
}

#[test]
fn methods_are_checked(rt: HostRuntime) -> Result<(), Fail> {
    for (text, value, wanted) in &METHODS {
        let found = of_method(rt.alloc(), *value, Some(text))?;
        assert!(rt; are_at(found.as_slice(), wanted), "{text}");
    }
    let none = of_method(rt.alloc(), true, None)?;
    assert!(rt; are_at(none.as_slice(), &[]));
    Ok(())
}

#[test]
fn texts_name_the_method(rt: HostRuntime) -> Result<(), Fail> {
    let found = of_method(rt.alloc(), true, Some("wn;"))?;
    match found.as_slice() {
        [first, second] => {
            assert_eq!(rt; first.text.as_str(), "unreachable statement");
            assert_eq!(rt; second.text.as_str(), "missing return in f");
        }
        _ => assert!(rt; false),
    }
    Ok(())
}

/// A constructor of that name with this body.
fn ctor_with(alloc: Global, body: Vec<Stmt>) -> Ctor {
    constructor(no_words(alloc), name(), Vec::new(alloc), None, body)
}

/// What is wrong with a constructor that has this body.
fn of_ctor(alloc: Global, text: &str) -> Result<DiagList, AllocError> {
    let body = body_of(alloc, text)?;
    let declared = ctor_with(alloc, body);
    let names = Names::new(alloc);
    check_ctor_flow(alloc, &names, FILE, &declared)
}

#[test]
fn constructors_are_checked(rt: HostRuntime) -> Result<(), Fail> {
    let whole = of_ctor(rt.alloc(), "ixr;")?;
    assert!(rt; are_at(whole.as_slice(), &[]));
    let broken = of_ctor(rt.alloc(), "r;")?;
    assert!(rt; are_at(broken.as_slice(), &[(1, 60)]));
    Ok(())
}

/// A body with an unreachable statement, which completes.
const BROKEN: &str = "wn;";

/// A method with that body that has to give a value.
fn broken_method(alloc: Global) -> Result<Member, AllocError> {
    let body = body_of(alloc, BROKEN)?;
    Ok(method_member(method_with(alloc, true, Some(body))))
}

/// A constructor with that body.
fn broken_ctor(alloc: Global) -> Result<Member, AllocError> {
    let body = body_of(alloc, BROKEN)?;
    Ok(constructor_member(ctor_with(alloc, body)))
}

/// A class with that method.
fn broken_class(alloc: Global) -> Result<Member, AllocError> {
    let mut members = Vec::new(alloc);
    members.push(broken_method(alloc)?)?;
    Ok(nested(class_or_interface(
        name(),
        no_words(alloc),
        false,
        Vec::new(alloc),
        Vec::new(alloc),
        members,
    )))
}

/// Whether a member of a file has these diagnostics, and no others.
fn shows(alloc: Global, member: Member, wanted: &[(u32, u8)]) -> Result<bool, AllocError> {
    let names = Names::new(alloc);
    let found = check_flow(alloc, &names, FILE, &member)?;
    Ok(are_at(found.as_slice(), wanted))
}

#[test]
fn members_of_each_kind_are_checked(rt: HostRuntime) -> Result<(), Fail> {
    let alloc = rt.alloc();
    assert!(rt; shows(alloc, broken_method(alloc)?, &[(2, 60), (NAME_AT, 61)])?);
    assert!(rt; shows(alloc, method_member(method_with(alloc, true, None)), &[])?);
    assert!(rt; shows(alloc, broken_ctor(alloc)?, &[(2, 60)])?);
    assert!(rt; shows(alloc, broken_class(alloc)?, &[])?);
    let field = field_member(no_words(alloc), type_ref(0, Base::Int, 0), Vec::new(alloc));
    assert!(rt; shows(alloc, field, &[])?);
    Ok(())
}

/// How many statements, or branches, a long body has.
const MANY: u32 = 100_000;

/// A long body of empty statements.
fn long_body(alloc: Global) -> Result<Vec<Stmt>, AllocError> {
    let mut body = Vec::new(alloc);
    for at in 0..MANY {
        body.push(empty(at))?;
    }
    Ok(body)
}

/// An `if` with a long chain of `else if`s, each of which returns, and one `else` that does not.
fn long_chain(alloc: Global) -> Result<Vec<Stmt>, AllocError> {
    let mut branches = Vec::new(alloc);
    for at in 0..MANY {
        branches.push((this(at), return_from(at, None)))?;
    }
    let other = Box::new(alloc, empty(MANY))?;
    let kind = StmtKind::If(branches, Some(other));
    let mut body = Vec::new(alloc);
    body.push(Stmt { at: 0, kind })?;
    Ok(body)
}

#[test]
fn long_bodies_are_walked(rt: HostRuntime) -> Result<(), Fail> {
    let body = long_body(rt.alloc())?;
    let found = flow(rt.alloc(), body.as_slice())?;
    assert!(rt; found.completes && found.unreachable.as_slice().is_empty());
    let chain = long_chain(rt.alloc())?;
    let same = flow(rt.alloc(), chain.as_slice())?;
    assert!(rt; same.completes && same.unreachable.as_slice().is_empty());
    Ok(())
}
