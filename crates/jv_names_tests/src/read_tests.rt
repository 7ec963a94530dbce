//! Signatures and constructors that are read in the small folder by replies that no graph gives, worked out by hand.
//!
//! 23 is the constructor of `A.M`, and the scopes from 26 on are signatures: 32 is that of the method `m` of `A`.

use crate::small_folder::{M, Y, scope, small_layout};
use jv_instance::{JavaDatum, JavaPred, Ty, TypeBase, TypeList, labels};
use jv_names::kinds::{CTORS, SIG};
use jv_names::{
    Oracle, ReadSignature, for_any, object_methods, read_ctor_of, read_signature_of, read_supers,
};
use jv_tree::NameId;
use sg_base::{Label, Scope, Step};
use sg_query::{Answer, FoundPaths, FoundTree, Query};
use sg_reading::Stop;
use std::alloc::Global;
use std::test::Fail;

/// What was read, where no reply is missing.
fn known<T>(found: Result<T, Stop<Query<JavaPred>>>) -> Result<T, Fail> {
    match found {
        Ok(value) => Ok(value),
        Err(_) => Err("a reply is missing".into()),
    }
}

#[test]
fn supertypes_need_replies(rt: HostRuntime) -> Result<(), Fail> {
    let layout = small_layout(rt.alloc())?;
    let none = Oracle::new(rt.alloc());
    let supers = read_supers(rt.alloc(), &layout, &none, scope(12));
    assert!(rt; supers.is_err());
    Ok(())
}

fn class_type(serial: u32, dims: u8) -> Ty {
    Ty {
        base: TypeBase::Class(scope(serial)),
        dims,
    }
}

/// A signature with these parameters.
fn signature_of(alloc: Global, params: &[Ty]) -> Result<JavaDatum, Fail> {
    Ok(JavaDatum::Signature {
        name: NameId(Y),
        result: class_type(12, 1),
        params: TypeList::new(Vec::from_slice(alloc, params)?),
    })
}

fn add_path(
    alloc: Global,
    found: &mut FoundTree<JavaDatum>,
    label: u8,
    end: u32,
    params: &[Ty],
) -> Result<(), Fail> {
    let step = Step {
        label: Label::new(label % 16),
        to: scope(end),
    };
    found.add(&[step], signature_of(alloc, params)?)?;
    Ok(())
}

/// An answer with one path for each end.
fn answer_of(
    alloc: Global,
    from: u32,
    label: u8,
    ends: &[u32],
    params: &[Ty],
) -> Result<Answer<JavaDatum>, Fail> {
    let mut found = FoundTree::new(alloc, scope(from));
    for serial in ends {
        add_path(alloc, &mut found, label, *serial, params)?;
    }
    Ok(Answer::Paths(FoundPaths::new(alloc, found)?))
}

/// The answer to a query.
fn oracle_of(
    alloc: Global,
    query: Query<JavaPred>,
    answer: Answer<JavaDatum>,
) -> Result<Oracle, Fail> {
    let mut oracle = Oracle::new(alloc);
    oracle.put(query, answer)?;
    Ok(oracle)
}

/// The signature of the method `m` of `A` where its query has paths to these ends.
fn signature_by(alloc: Global, ends: &[u32], params: &[Ty]) -> Result<Option<ReadSignature>, Fail> {
    let answer = answer_of(alloc, 22, labels::SIG, ends, params)?;
    let oracle = oracle_of(alloc, for_any(SIG, scope(22)), answer)?;
    let layout = small_layout(alloc)?;
    known(read_signature_of(alloc, &layout, &oracle, scope(22)))
}

/// The signature of the method `m` of `A` where it has these parameters.
fn signature_with(alloc: Global, params: &[Ty]) -> Result<ReadSignature, Fail> {
    match signature_by(alloc, &[32], params)? {
        Some(signature) => Ok(signature),
        None => Err("no signature".into()),
    }
}

#[test]
fn a_class_of_the_layout_leaves_a_signature_whole(rt: HostRuntime) -> Result<(), Fail> {
    let whole = signature_with(rt.alloc(), &[class_type(14, 0)])?;
    assert!(rt; whole.is_whole());
    assert!(rt; whole.result == class_type(12, 1));
    assert!(rt; whole.takes_arguments());
    assert!(rt; whole.has_params_of(&whole));
    Ok(())
}

#[test]
fn a_class_outside_the_layout_makes_a_signature_bad(rt: HostRuntime) -> Result<(), Fail> {
    let whole = signature_with(rt.alloc(), &[class_type(14, 0)])?;
    let other = signature_with(rt.alloc(), &[class_type(20, 0)])?;
    assert!(rt; !whole.has_params_of(&other));
    assert!(rt; !other.is_whole());
    Ok(())
}

#[test]
fn a_signature_without_parameters_takes_no_arguments(rt: HostRuntime) -> Result<(), Fail> {
    let empty = signature_with(rt.alloc(), &[])?;
    assert!(rt; !empty.takes_arguments());
    Ok(())
}

/// Whether the method `m` of `A` has a signature where its query has paths to these ends.
fn has_signature(alloc: Global, ends: &[u32]) -> Result<bool, Fail> {
    let found = signature_by(alloc, ends, &[])?;
    Ok(found.is_some())
}

#[test]
fn paths_that_do_not_fit_have_no_signature(rt: HostRuntime) -> Result<(), Fail> {
    assert!(rt; !has_signature(rt.alloc(), &[])?);
    assert!(rt; !has_signature(rt.alloc(), &[40])?);
    assert!(rt; !has_signature(rt.alloc(), &[32, 32])?);
    Ok(())
}

/// The constructor of `A` where its query has paths to these ends.
fn ctor_by(alloc: Global, ends: &[u32]) -> Result<Option<Scope>, Fail> {
    let answer = answer_of(alloc, 12, labels::CTOR, ends, &[])?;
    let oracle = oracle_of(alloc, for_any(CTORS, scope(12)), answer)?;
    let layout = small_layout(alloc)?;
    known(read_ctor_of(&layout, &oracle, scope(12)))
}

/// Ends of paths by a constructor's label from `A`, and its constructor.
const CTOR_ENDS: [(&[u32], Option<u32>); 5] = [
    (&[], None),
    (&[18], Some(18)),
    (&[22], None),
    (&[18, 22], Some(18)),
    (&[18, 18], None),
];

fn has_ctor(alloc: Global, ends: &[u32], wanted: Option<u32>) -> Result<bool, Fail> {
    let found = ctor_by(alloc, ends)?;
    Ok(found.map(|s| s.serial) == wanted)
}

#[test]
fn classes_have_a_constructor(rt: HostRuntime) -> Result<(), Fail> {
    for (ends, wanted) in CTOR_ENDS {
        assert!(rt; has_ctor(rt.alloc(), ends, wanted)?);
    }
    Ok(())
}

#[test]
fn an_empty_object_has_no_methods(rt: HostRuntime) -> Result<(), Fail> {
    let layout = small_layout(rt.alloc())?;
    let methods = object_methods(rt.alloc(), &layout, NameId(M))?;
    assert!(rt; methods.as_slice().is_empty());
    Ok(())
}
