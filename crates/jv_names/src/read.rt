//! Signatures, and the one constructor of a class, as they are read from answers.

ghost use Rattle.std.specs.Prelude.{◌≡◌, map, IfOk};
ghost use Rattle.std.specs.List.{filter};
ghost use Rattle.sg_reading.specs.Stop.{Reads};
ghost use Rattle.jv_layout.specs.Fits.{fits};
ghost use Rattle.jv_names.specs.declared.counts.Counts.TheVariants.{Constructors};
ghost use Rattle.jv_names.specs.Ends.{counted_ends};
ghost use Rattle.jv_names.specs.Replies.{reply_to};
ghost use Rattle.jv_names.specs.Read.{base_in, ty_in, signature_in, one_signature, answer_signature, signature_of, one_ctor, answer_ctor, ctor_of};

use crate::counted_ends::CountedEnds;
use crate::counts::Counts;
use crate::kinds;
use crate::oracle::Oracle;
use crate::queries::{ask, for_any};
use crate::signature_types::ReadSignature;
use jv_instance::{JavaDatum, JavaPred, Ty, TypeBase, TypeList};
use jv_layout::{Layout, Place};
use sg_base::Scope;
use sg_query::{Answer, FoundPaths, Query};
use sg_reading::Stop;
use std::alloc::{AllocError, Global};

/// A base with each class that is none of the layout's as a bad one.
fn base_in(l: &Layout, base: TypeBase) -> TypeBase
    ensures { result ≡ base_in l.now base }
{
    match base {
        TypeBase::Class(s) => {
            if matches!(l.place(s), Place::Ty(_)) {
                base
            } else {
                TypeBase::Bad
            }
        }
        _ => base,
    }
}

/// A type with such a base.
fn ty_in(l: &Layout, ty: Ty) -> Ty
    ensures { result ≡ ty_in l.now ty }
{
    Ty {
        base: base_in(l, ty.base),
        dims: ty.dims,
    }
}

/// Types with such bases.
fn types_in(alloc: Global, l: &Layout, types: &[Ty]) -> Result<TypeList, AllocError>
    ensures { IfOk result (λ found. found ≡ map (ty_in l.now) types.now) }
{
    let mut found = Vec::new(alloc);
    for ty in types {
        found.push(ty_in(l, *ty))?;
    }
    Ok(TypeList::new(found))
}

/// The signature that a datum is.
fn signature_in(
    alloc: Global,
    l: &Layout,
    datum: &JavaDatum,
) -> Result<Option<ReadSignature>, AllocError>
    ensures { IfOk result (λ found. found ≡ signature_in l.now datum.now) }
{
    match datum {
        JavaDatum::Signature { result, params, .. } => Ok(Some(ReadSignature {
            result: ty_in(l, *result),
            params: types_in(alloc, l, params.as_slice())?,
        })),
        _ => Ok(None),
    }
}

/// The signature by the paths that fit the layout, where that is one.
#[tactic(auto, using(crate::proofs::ReadSteps::first_signature))]
fn one_signature(
    alloc: Global,
    l: &Layout,
    paths: &FoundPaths<JavaDatum>,
) -> Result<Option<ReadSignature>, AllocError>
    ensures { IfOk result (λ found. found ≡ one_signature l.now (filter (λ f. fits l.now f.path) paths.now)) }
{
    let mut first = None;
    for k in 0..paths.len() {
        let found = paths.at(k);
        if l.fits(&found.path) {
            match first {
                None => first = Some(found.datum),
                Some(_) => return Ok(None),
            }
        }
    }
    match first {
        None => Ok(None),
        Some(datum) => signature_in(alloc, l, datum),
    }
}

/// The signature by an answer.
fn answer_signature(
    alloc: Global,
    l: &Layout,
    answer: &Answer<JavaDatum>,
) -> Result<Option<ReadSignature>, AllocError>
    ensures { IfOk result (λ found. found ≡ answer_signature l.now answer.now) }
{
    match answer {
        Answer::Paths(paths) => one_signature(alloc, l, paths),
        Answer::TooMany => Ok(None),
    }
}

/// The signature of a member as far as the replies tell it, or the query that has no reply; none where its answer is not one
/// signature. It takes the time of the paths of the answer.
#[tactic(auto, using(crate::proofs::ReadSteps::read_steps))]
pub fn read_signature_of(
    alloc: Global,
    l: &Layout,
    o: &Oracle,
    member: Scope,
) -> Result<Option<ReadSignature>, Stop<Query<JavaPred>>>
    ensures { Reads (reply_to o.now) (signature_of l.now member) result }
{
    let answer = ask(o, for_any(kinds::SIG, member))?;
    let found = answer_signature(alloc, l, answer)?;
    Ok(found)
}

/// The constructor by the paths to constructors, where that is one.
fn one_ctor(l: &Layout, paths: &FoundPaths<JavaDatum>) -> Option<Scope>
    ensures { result ≡ one_ctor l.now (counted_ends l.now Constructors paths.now) }
{
    let mut first = None;
    let mut ends = CountedEnds::new(l, Counts::Constructors, paths);
    while let Some(end) = ends.next() {
        match first {
            None => first = Some(end),
            Some(_) => return None,
        }
    }
    first
}

/// The constructor by an answer.
fn answer_ctor(l: &Layout, answer: &Answer<JavaDatum>) -> Option<Scope>
    ensures { result ≡ answer_ctor l.now answer.now }
{
    match answer {
        Answer::Paths(paths) => one_ctor(l, paths),
        Answer::TooMany => None,
    }
}

/// The constructor of a class as far as the replies tell it, or the query that has no reply; none where its answer is not one
/// constructor. It takes the time of the paths of the answer.
#[tactic(auto, using(crate::proofs::ReadSteps::read_steps))]
pub fn read_ctor_of(
    l: &Layout,
    o: &Oracle,
    class: Scope,
) -> Result<Option<Scope>, Stop<Query<JavaPred>>>
    ensures { Reads (reply_to o.now) (ctor_of l.now class) result }
{
    let answer = ask(o, for_any(kinds::CTORS, class))?;
    Ok(answer_ctor(l, answer))
}
