//! A class against its superclass, by the replies to the queries of its members.
//!
//! The folder is `package java.lang; public class Object {}`, `package java.lang; public class String {}` and
//! `class A { public int m(); } class B { .. m(); }`, where the replies have `A` as the superclass of `B`. Its scopes are the root
//! 0, the unnamed package 1, the packages 2 and 3, the files 4 to 6, the types 7 `Object`, 8 `String`, 9 `A` and 10 `B`, and the
//! members: 11 to 13 are the constructors of `Object`, `String` and `A`, 14 is the method `m` of `A`, 15 is the constructor of `B`,
//! and 16 its method `m`. The signatures of 11, 14 and 16 are 17, 20 and 22.
//!
//! Where `A` is an interface, `String` inherits its method and that of `B` by the replies. No interface has a constructor, so 13 is the
//! method of `A`. Where `B` is an interface too, 14 is its method, and the signatures of 11, 13 and 14 are 15, 17 and 18. Where it is
//! a class, 15 is its method, and those of 11, 13 and 15 are 16, 18 and 20.

ghost use Rattle.std.specs.Prelude.{◌≡◌, ◌+◌, ◌<◌, length, map, sum_by, IfOk};
ghost use Rattle.jv_tree.specs.DeclTree.{MemberTrees, members, member_tree, member_trees, type_decl_tree, tree_of};
ghost use Rattle.jv_layout.specs.Sizes.{IsFolder, decl_names, body_names, unit_names};

use jv_diag::DiagList;
use jv_instance::{JavaDatum, JavaPred, Ty, TypeBase, TypeList, labels};
use jv_layout::words::{ABSTRACT, DEFAULT, FINAL, PRIVATE, PROTECTED, PUBLIC, STATIC};
use jv_layout::{Layout, layout};
use jv_member::{MemberDecl, Signature, check_members, resolve_signature};
use jv_names::{Oracle, for_any, for_name, kinds};
use jv_tree::nodes::{class_or_interface, method, method_member, type_ref, unit};
use jv_tree::{Base, Ident, Member, Method, Mods, Name, NameId, Names, Stmt, TypeDecl, Unit};
use sg_base::{Label, Scope, Step};
use sg_query::{Answer, FoundPaths, FoundTree, Query};
use sg_reading::Known;
use std::alloc::{AllocError, Global};
use std::fmt::Write;
use std::test::Fail;

/// The texts of the names, by their numbers.
const TEXTS: [&str; 7] = ["java", "lang", "Object", "String", "A", "B", "m"];

const JAVA: u32 = 0;

const LANG: u32 = 1;

const OBJECT: u32 = 2;

const STRING: u32 = 3;

const A: u32 = 4;

const B: u32 = 5;

const M: u32 = 6;

fn scope(serial: u32) -> Scope {
    Scope {
        unit: u32::MAX,
        serial,
    }
}

fn ident(at: u32, number: u32) -> Ident {
    Ident {
        at,
        id: NameId(number),
    }
}

fn mods(alloc: Global, words: &[u8]) -> Result<Mods, AllocError> {
    Ok(Mods {
        words: Vec::from_slice(alloc, words)?,
    })
}

/// How a type with one method is written: as an interface or a class, and its method with these modifiers, with an empty body or
/// none.
#[derive(Clone, Copy)]
struct OneMethod<'a> {
    interface: bool,
    words: &'a [u8],
    has_body: bool,
}

/// A class whose method has these modifiers and no body.
fn class(words: &[u8]) -> OneMethod<'_> {
    OneMethod {
        interface: false,
        words,
        has_body: false,
    }
}

fn body_of(alloc: Global, has_body: bool) -> Option<Vec<Stmt>> {
    if has_body {
        Some(Vec::new(alloc))
    } else {
        None
    }
}

/// A method at offset 5.
fn method_of(alloc: Global, ty: OneMethod<'_>) -> Result<Member, AllocError>
    ensures { IfOk result (λ m. (rest : MemberTrees) → body_names (members (member_tree m) rest) ≡ 1 + body_names rest) }
{
    let mods = mods(alloc, ty.words)?;
    let body = body_of(alloc, ty.has_body);
    let gives = type_ref(0, Base::Int, 0);
    let of = method(mods, gives, ident(5, M), Vec::new(alloc), body);
    Ok(method_member(of))
}

/// A class or an interface at offset 1.
fn type_of(
    alloc: Global,
    words: &[u8],
    number: u32,
    interface: bool,
    members: Vec<Member>,
) -> Result<TypeDecl, AllocError>
    ensures { IfOk result (λ d. decl_names (type_decl_tree d) ≡ 1 + body_names (member_trees members.items)) }
{
    let mods = mods(alloc, words)?;
    let extends = Vec::new(alloc);
    let implements = Vec::new(alloc);
    Ok(class_or_interface(
        ident(1, number),
        mods,
        interface,
        extends,
        implements,
        members,
    ))
}

fn empty_class(alloc: Global, number: u32) -> Result<TypeDecl, AllocError>
    ensures { IfOk result (λ d. decl_names (type_decl_tree d) < 100) }
{
    let class = type_of(alloc, &[34], number, false, Vec::new(alloc))?;
    Ok(class)
}

fn one_method(alloc: Global, ty: OneMethod<'_>) -> Result<Vec<Member>, AllocError>
    ensures { IfOk result (λ ms. body_names (member_trees ms.items) ≡ 1) }
{
    let members = vec![in alloc; method_of(alloc, ty)?]?;
    Ok(members)
}

fn type_with(alloc: Global, number: u32, ty: OneMethod<'_>) -> Result<TypeDecl, AllocError>
    ensures { IfOk result (λ d. decl_names (type_decl_tree d) < 100) }
{
    let members = one_method(alloc, ty)?;
    let declared = type_of(alloc, &[], number, ty.interface, members)?;
    Ok(declared)
}

/// A file of `java.lang` with a public class.
fn lang_file(alloc: Global, number: u32) -> Result<Unit, AllocError>
    ensures { IfOk result (λ u. unit_names (tree_of u) < 1000) }
{
    let ids = vec![in alloc; ident(0, JAVA), ident(0, LANG)]?;
    let types = vec![in alloc; empty_class(alloc, number)?]?;
    Ok(unit(Some(Name { ids }), Vec::new(alloc), types))
}

fn small_file(alloc: Global, a: OneMethod<'_>, b: OneMethod<'_>) -> Result<Unit, AllocError>
    ensures { IfOk result (λ u. unit_names (tree_of u) < 1000) }
{
    let types = vec![in alloc; type_with(alloc, A, a)?, type_with(alloc, B, b)?]?;
    Ok(unit(None, Vec::new(alloc), types))
}

fn small_files(alloc: Global, a: OneMethod<'_>, b: OneMethod<'_>) -> Result<Vec<Unit>, AllocError>
    ensures { IfOk result (λ fs. IsFolder (map tree_of fs.items)) }
{
    let files = vec![in alloc;
        lang_file(alloc, OBJECT)?,
        lang_file(alloc, STRING)?,
        small_file(alloc, a, b)?,
    ]?;
    Ok(files)
}

fn small_names(alloc: Global) -> Result<Names, AllocError> {
    let mut names = Names::new(alloc);
    for text in TEXTS {
        if names.len() < 100 {
            names.intern(text)?;
        }
    }
    Ok(names)
}

fn step(label: u8, to: u32) -> Step {
    Step {
        label: Label::new(label % 16),
        to: scope(to),
    }
}

fn one_path(
    alloc: Global,
    start: Scope,
    steps: &[Step],
    datum: JavaDatum,
) -> Result<Answer<JavaDatum>, AllocError> {
    let mut found = FoundTree::new(alloc, start);
    found.add(steps, datum)?;
    Ok(Answer::Paths(FoundPaths::new(alloc, found)?))
}

fn put_path(
    alloc: Global,
    o: &mut Oracle,
    query: Query<JavaPred>,
    steps: &[Step],
    datum: JavaDatum,
) -> Result<(), AllocError> {
    let answer = one_path(alloc, query.start, steps, datum)?;
    o.put(query, answer)
}

fn put_signature(
    alloc: Global,
    o: &mut Oracle,
    member: u32,
    signature: u32,
    base: TypeBase,
    params: &[Ty],
) -> Result<(), AllocError> {
    let datum = JavaDatum::Signature {
        name: NameId(M),
        result: Ty { base, dims: 0 },
        params: TypeList::new(Vec::from_slice(alloc, params)?),
    };
    let query = for_any(kinds::SIG, scope(member));
    put_path(alloc, o, query, &[step(labels::SIG, signature)], datum)
}

/// Puts the replies that name a member: the method above that of `B`, that of `B`, and the constructor of `Object`.
fn put_members(alloc: Global, o: &mut Oracle) -> Result<(), AllocError> {
    let m = NameId(M);
    put_path(
        alloc,
        o,
        for_name(kinds::ABOVE, scope(10), m),
        &[step(labels::EXT, 9), step(labels::METH, 14)],
        JavaDatum::Member { name: m },
    )?;
    put_path(
        alloc,
        o,
        for_any(kinds::METHODS, scope(10)),
        &[step(labels::METH, 16)],
        JavaDatum::Member { name: m },
    )?;
    put_ctor(alloc, o)
}

/// Puts the constructor of `Object`.
fn put_ctor(alloc: Global, o: &mut Oracle) -> Result<(), AllocError> {
    put_path(
        alloc,
        o,
        for_any(kinds::CTORS, scope(7)),
        &[step(labels::CTOR, 11)],
        JavaDatum::Member {
            name: NameId(OBJECT),
        },
    )
}

/// Puts the signatures of the method of `A`, of that of `B` and of the constructor of `Object`.
fn put_signatures(
    alloc: Global,
    o: &mut Oracle,
    base: TypeBase,
    params: &[Ty],
) -> Result<(), AllocError> {
    put_signature(alloc, o, 14, 20, TypeBase::Int, &[])?;
    put_signature(alloc, o, 16, 22, base, params)?;
    put_signature(alloc, o, 11, 17, TypeBase::Void, &[])
}

/// The replies to all queries of `B`, whose method has this result and these parameters.
fn replies(alloc: Global, base: TypeBase, params: &[Ty]) -> Result<Oracle, AllocError> {
    let mut o = Oracle::new(alloc);
    put_members(alloc, &mut o)?;
    put_signatures(alloc, &mut o, base, params)?;
    Ok(o)
}

/// The codes of diagnostics, each with its place.
fn told(alloc: Global, diags: &DiagList) -> Result<String, Fail> {
    let mut text = String::new(alloc);
    for d in diags.as_slice() {
        write!(text, "{}@{} ", d.code, d.at)?;
    }
    Ok(text)
}

fn needed(alloc: Global, query: &Query<JavaPred>) -> Result<String, Fail> {
    let mut text = String::new(alloc);
    write!(text, "needs {} of {}", query.kind, query.start.serial)?;
    Ok(text)
}

/// What is wrong with a type by these replies; or that a reply is missing.
fn checked(
    alloc: Global,
    l: &Layout,
    names: &Names,
    o: &Oracle,
    decl: &TypeDecl,
    ty: Scope,
) -> Result<String, Fail> {
    match check_members(alloc, l, names, o, decl, ty)? {
        Known::Is(diags) => told(alloc, &diags),
        Known::Need(query) => needed(alloc, &query),
    }
}

/// The layout of the folder in which `A` and `B` are written so.
fn small_layout(
    alloc: Global,
    names: &Names,
    a: OneMethod<'_>,
    b: OneMethod<'_>,
) -> Result<Layout, Fail> {
    let files = small_files(alloc, a, b)?;
    Ok(layout(alloc, names, &files)?)
}

/// What is wrong with a type of the folder in which `A` and `B` are written so.
fn checked_in(
    alloc: Global,
    a: OneMethod<'_>,
    b: OneMethod<'_>,
    o: &Oracle,
    decl: &TypeDecl,
    ty: Scope,
) -> Result<String, Fail> {
    let names = small_names(alloc)?;
    let l = small_layout(alloc, &names, a, b)?;
    checked(alloc, &l, &names, o, decl, ty)
}

/// What is wrong with `B` where it is written so, and the replies are these; or that a reply is missing.
fn checked_b(alloc: Global, b: OneMethod<'_>, o: &Oracle) -> Result<String, Fail> {
    let decl = type_with(alloc, B, b)?;
    checked_in(alloc, class(&[34]), b, o, &decl, scope(10))
}

/// What is wrong with `B` where its method has these modifiers, this result and these parameters.
fn overridden(alloc: Global, words: &[u8], base: TypeBase, params: &[Ty]) -> Result<String, Fail> {
    let o = replies(alloc, base, params)?;
    checked_b(alloc, class(words), &o)
}

const INT: Ty = Ty {
    base: TypeBase::Int,
    dims: 0,
};

/// The modifiers of the method of `B`, its result, and the codes with their places: the method stands at 5 and the class at 1. A
/// method without `abstract` has no body, which is 37.
const METHODS_OF_B: [(&[u8], TypeBase, &str); 7] = [
    (&[34], TypeBase::Int, "37@5 "),
    (&[], TypeBase::Int, "37@5 33@5 "),
    (&[33], TypeBase::Int, "37@5 33@5 "),
    (&[34, 37], TypeBase::Int, "37@5 31@5 "),
    (&[34], TypeBase::Long, "37@5 34@5 "),
    (&[34], TypeBase::Bad, "37@5 "),
    (&[34, 0], TypeBase::Int, "35@1 "),
];

#[test]
fn methods_override_those_above(rt: HostRuntime) -> Result<(), Fail> {
    for (words, base, wanted) in METHODS_OF_B {
        let text = overridden(rt.alloc(), words, base, &[])?;
        assert_eq!(rt; text.as_str(), wanted);
    }
    Ok(())
}

#[test]
fn other_parameters_are_overloading(rt: HostRuntime) -> Result<(), Fail> {
    let text = overridden(rt.alloc(), &[34], TypeBase::Int, &[INT])?;
    assert_eq!(rt; text.as_str(), "37@5 36@5 ");
    Ok(())
}

/// What is said of `B` where there are no replies.
fn unanswered(alloc: Global) -> Result<String, Fail> {
    let o = Oracle::new(alloc);
    checked_b(alloc, class(&[34]), &o)
}

#[test]
fn a_missing_reply_is_named(rt: HostRuntime) -> Result<(), Fail> {
    let text = unanswered(rt.alloc())?;
    assert_eq!(rt; text.as_str(), "needs 5 of 10");
    Ok(())
}

/// What is wrong with `B` where the constructor of `Object` takes an `int`.
fn constructed(alloc: Global) -> Result<String, Fail> {
    let mut o = replies(alloc, TypeBase::Int, &[])?;
    put_signature(alloc, &mut o, 11, 17, TypeBase::Void, &[INT])?;
    checked_b(alloc, class(&[34]), &o)
}

#[test]
fn superclass_constructor_takes_no_arguments(rt: HostRuntime) -> Result<(), Fail> {
    let text = constructed(rt.alloc())?;
    assert_eq!(rt; text.as_str(), "37@5 38@1 ");
    Ok(())
}

/// Adds the path from `String` through one of its supertypes to a method of that.
fn add_inherited(
    found: &mut FoundTree<JavaDatum>,
    above: u32,
    method: u32,
) -> Result<(), AllocError> {
    let steps = [step(labels::EXT, above), step(labels::METH, method)];
    found.add(&steps, JavaDatum::Member { name: NameId(M) })
}

/// The methods that `String` inherits, the first from `A` and the second from `B`.
fn inherited(alloc: Global, first: u32, second: u32) -> Result<Answer<JavaDatum>, AllocError> {
    let mut found = FoundTree::new(alloc, scope(8));
    add_inherited(&mut found, 9, first)?;
    add_inherited(&mut found, 10, second)?;
    Ok(Answer::Paths(FoundPaths::new(alloc, found)?))
}

fn put_inherited(alloc: Global, o: &mut Oracle, first: u32, second: u32) -> Result<(), AllocError> {
    let answer = inherited(alloc, first, second)?;
    o.put(for_any(kinds::METHODS, scope(8)), answer)
}

/// What is wrong with `String` where `A` and `B` are written so, and the replies are these; or that a reply is missing.
fn checked_string(
    alloc: Global,
    a: OneMethod<'_>,
    b: OneMethod<'_>,
    o: &Oracle,
) -> Result<String, Fail> {
    let decl = empty_class(alloc, STRING)?;
    checked_in(alloc, a, b, o, &decl, scope(8))
}

/// What is wrong with `String` where it inherits the methods of `A` and of `B`; or that a reply is missing.
fn met(alloc: Global, base: TypeBase, params: &[Ty]) -> Result<String, Fail> {
    let mut o = replies(alloc, base, params)?;
    put_inherited(alloc, &mut o, 14, 16)?;
    checked_string(alloc, class(&[34]), class(&[34]), &o)
}

/// The result and the parameters of the method of `B`, and the codes with their places.
const MEETINGS: [(TypeBase, &[Ty], &str); 3] = [
    (TypeBase::Int, &[], ""),
    (TypeBase::Long, &[], "34@1 "),
    (TypeBase::Int, &[INT], "36@1 "),
];

#[test]
fn inherited_methods_meet(rt: HostRuntime) -> Result<(), Fail> {
    for (base, params, wanted) in MEETINGS {
        let text = met(rt.alloc(), base, params)?;
        assert_eq!(rt; text.as_str(), wanted);
    }
    Ok(())
}

/// Puts the supertype of a type, or that it has none.
fn put_supers(
    alloc: Global,
    o: &mut Oracle,
    ty: u32,
    above: Option<u32>,
) -> Result<(), AllocError> {
    let mut found = FoundTree::new(alloc, scope(ty));
    if let Some(other) = above {
        let steps = [step(labels::EXT, other)];
        found.add(&steps, JavaDatum::TypeName { name: NameId(M) })?;
    }
    let answer = Answer::Paths(FoundPaths::new(alloc, found)?);
    o.put(for_any(kinds::SUPERS, scope(ty)), answer)
}

/// Puts that `String` inherits the method of the interface `A` and this one of `B`, with the signatures of the constructor of
/// `Object` and of both methods.
fn put_pair(
    alloc: Global,
    o: &mut Oracle,
    second: u32,
    signatures: [u32; 3],
) -> Result<(), AllocError> {
    let [of_ctor, of_first, of_second] = signatures;
    put_inherited(alloc, o, 13, second)?;
    put_ctor(alloc, o)?;
    put_signature(alloc, o, 11, of_ctor, TypeBase::Void, &[])?;
    put_signature(alloc, o, 13, of_first, TypeBase::Int, &[])?;
    put_signature(alloc, o, second, of_second, TypeBase::Int, &[])
}

/// The replies where `String` inherits the method of the interface `A` and that of `B`, an interface or a class.
fn paired(alloc: Global, interface: bool) -> Result<Oracle, AllocError> {
    let mut o = Oracle::new(alloc);
    if interface {
        put_pair(alloc, &mut o, 14, [15, 17, 18])?;
    } else {
        put_pair(alloc, &mut o, 15, [16, 18, 20])?;
    }
    Ok(o)
}

/// An interface whose method has these modifiers, with or without a body.
fn interface(words: &[u8], has_body: bool) -> OneMethod<'_> {
    OneMethod {
        interface: true,
        words,
        has_body,
    }
}

/// What is wrong with `String` where the method of the interface `A` is a default one, `B` is written so, and these are the types
/// right above the two.
fn met_default(
    alloc: Global,
    b: OneMethod<'_>,
    above_a: Option<u32>,
    above_b: Option<u32>,
) -> Result<String, Fail> {
    let mut o = paired(alloc, b.interface)?;
    put_supers(alloc, &mut o, 9, above_a)?;
    put_supers(alloc, &mut o, 10, above_b)?;
    checked_string(alloc, interface(&[DEFAULT], true), b, &o)
}

/// Whether `B` is an interface, the modifiers of its method, the types right above `A` and `B`, and the codes with their places.
const DEFAULTS: [(bool, &[u8], Option<u32>, Option<u32>, &str); 7] = [
    (true, &[], None, None, "58@1 "),
    (true, &[DEFAULT], None, None, "58@1 "),
    (true, &[], None, Some(9), "35@1 "),
    (true, &[DEFAULT], None, Some(9), ""),
    (true, &[DEFAULT], Some(10), Some(9), ""),
    (false, &[PUBLIC, ABSTRACT], None, None, "35@1 "),
    (false, &[PUBLIC], None, None, ""),
];

#[test]
fn default_methods_meet(rt: HostRuntime) -> Result<(), Fail> {
    for (interface, words, above_a, above_b, wanted) in DEFAULTS {
        let b = OneMethod {
            interface,
            words,
            has_body: false,
        };
        let text = met_default(rt.alloc(), b, above_a, above_b)?;
        assert_eq!(rt; text.as_str(), wanted);
    }
    Ok(())
}

/// What is said of `String` where it inherits methods of two interfaces whose supertypes have no reply.
fn met_without_supers(alloc: Global) -> Result<String, Fail> {
    let o = paired(alloc, true)?;
    checked_string(
        alloc,
        interface(&[DEFAULT], true),
        interface(&[], false),
        &o,
    )
}

#[test]
fn supertypes_of_interfaces_are_asked_for(rt: HostRuntime) -> Result<(), Fail> {
    let text = met_without_supers(rt.alloc())?;
    assert_eq!(rt; text.as_str(), "needs 9 of 10");
    Ok(())
}

/// The replies of `B` where it is an interface beside a class `A`, with its method alone: its scope is 15.
fn own_replies(alloc: Global) -> Result<Oracle, AllocError> {
    let mut o = Oracle::new(alloc);
    let m = NameId(M);
    put_path(
        alloc,
        &mut o,
        for_any(kinds::METHODS, scope(10)),
        &[step(labels::METH, 15)],
        JavaDatum::Member { name: m },
    )?;
    put_none(alloc, &mut o, for_name(kinds::ABOVE, scope(10), m))?;
    Ok(o)
}

/// What is wrong with the interface `B` where its method is written so.
fn checked_interface(alloc: Global, words: &[u8], has_body: bool) -> Result<String, Fail> {
    let o = own_replies(alloc)?;
    checked_b(alloc, interface(words, has_body), &o)
}

/// The modifiers of a method of an interface, whether it has a body, and the codes with their places.
const METHODS_OF_INTERFACES: [(&[u8], bool, &str); 10] = [
    (&[PUBLIC, DEFAULT], true, ""),
    (&[STATIC], true, ""),
    (&[], true, "37@5 "),
    (&[DEFAULT], false, "37@5 "),
    (&[PROTECTED, DEFAULT], true, "19@5 "),
    (&[FINAL, STATIC], true, "19@5 "),
    (&[DEFAULT, ABSTRACT], false, "19@5 37@5 "),
    (&[STATIC, ABSTRACT], false, "19@5 37@5 "),
    (&[STATIC, STATIC], true, "19@5 "),
    (&[PRIVATE, STATIC], true, "19@5 "),
];

#[test]
fn interfaces_have_abstract_default_and_static_methods(rt: HostRuntime) -> Result<(), Fail> {
    for (words, has_body, wanted) in METHODS_OF_INTERFACES {
        let text = checked_interface(rt.alloc(), words, has_body)?;
        assert_eq!(rt; text.as_str(), wanted);
    }
    Ok(())
}

/// A method without a body or parameters, at offset 5.
fn method_giving(alloc: Global, base: Base) -> Result<Method, AllocError> {
    let ty = type_ref(0, base, 0);
    let mods = mods(alloc, &[34])?;
    Ok(method(mods, ty, ident(5, M), Vec::new(alloc), None))
}

/// The type that is written `A`, at offset 2.
fn named_a(alloc: Global) -> Result<Base, AllocError> {
    let ids = vec![in alloc; ident(2, A)]?;
    Ok(Base::Named(Name { ids }))
}

fn word_of(base: TypeBase) -> &'static str {
    match base {
        TypeBase::Int => "int",
        TypeBase::Class(_) => "class",
        TypeBase::Bad => "bad",
        _ => "other",
    }
}

/// The name, the result and the number of parameters of a signature, and then its diagnostics.
fn signature_text(alloc: Global, signature: &Signature) -> Result<String, Fail> {
    let mut text = String::new(alloc);
    if let JavaDatum::Signature {
        name,
        result,
        params,
    } = &signature.datum
    {
        let count = params.as_slice().len();
        write!(text, "{} {} {} ", name.0, word_of(result.base), count)?;
    }
    let diags = told(alloc, &signature.diags)?;
    text.push_str(diags.as_str())?;
    Ok(text)
}

/// The signature of a method of `B` by these replies; or that a reply is missing.
fn resolved(
    alloc: Global,
    l: &Layout,
    names: &Names,
    o: &Oracle,
    method: &Method,
) -> Result<String, Fail> {
    let member = MemberDecl::Method(method);
    match resolve_signature(alloc, l, names, o, scope(10), NameId(B), &member)? {
        Known::Is(signature) => signature_text(alloc, &signature),
        Known::Need(query) => needed(alloc, &query),
    }
}

/// The signature of a method of `B` with this result; or that a reply is missing.
fn signature_giving(alloc: Global, base: Base, o: &Oracle) -> Result<String, Fail> {
    let names = small_names(alloc)?;
    let l = small_layout(alloc, &names, class(&[34]), class(&[34]))?;
    let method = method_giving(alloc, base)?;
    resolved(alloc, &l, &names, o, &method)
}

fn no_path(alloc: Global, start: Scope) -> Result<Answer<JavaDatum>, AllocError> {
    let found = FoundTree::new(alloc, start);
    Ok(Answer::Paths(FoundPaths::new(alloc, found)?))
}

/// Puts that a query finds nothing.
fn put_none(alloc: Global, o: &mut Oracle, query: Query<JavaPred>) -> Result<(), AllocError> {
    let answer = no_path(alloc, query.start)?;
    o.put(query, answer)
}

/// Puts that `B` has no member type with the name `A`.
fn put_no_member(alloc: Global, o: &mut Oracle) -> Result<(), AllocError> {
    put_none(alloc, o, for_name(kinds::MEMTYPE, scope(10), NameId(A)))
}

/// Puts what the file of `B` sees under the name `A`: that type, or nothing.
fn put_seen(alloc: Global, o: &mut Oracle, is_seen: bool) -> Result<(), AllocError> {
    let query = for_name(kinds::FILETYPE, scope(6), NameId(A));
    if is_seen {
        let steps = [step(labels::PKGOF, 1), step(labels::TYPE, 9)];
        let datum = JavaDatum::TypeName { name: NameId(A) };
        return put_path(alloc, o, query, &steps, datum);
    }
    put_none(alloc, o, query)
}

/// The signature of a method of `B` whose result is written `A`, where that is the type of this name, or nothing.
fn signature_giving_a(alloc: Global, is_seen: bool) -> Result<String, Fail> {
    let mut o = Oracle::new(alloc);
    put_no_member(alloc, &mut o)?;
    put_seen(alloc, &mut o, is_seen)?;
    signature_giving(alloc, named_a(alloc)?, &o)
}

#[test]
fn signatures_have_their_types_resolved(rt: HostRuntime) -> Result<(), Fail> {
    let alloc = rt.alloc();
    let o = Oracle::new(alloc);
    assert_eq!(rt;
        signature_giving(alloc, Base::Int, &o)?.as_str(),
        "6 int 0 "
    );
    assert_eq!(rt;
        signature_giving(alloc, named_a(alloc)?, &o)?.as_str(),
        "needs 2 of 10"
    );
    assert_eq!(rt; signature_giving_a(alloc, true)?.as_str(), "6 class 0 ");
    assert_eq!(rt; signature_giving_a(alloc, false)?.as_str(), "6 bad 0 20@2 ");
    Ok(())
}
