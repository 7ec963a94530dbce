ghost use Rattle.std.specs.Prelude.{◌≡◌, ◌<◌, ◌^◌, IfOk, MatchResult};
ghost use Rattle.sg_reading.specs.Stop.{Reads, IsKnown};
ghost use Rattle.sg_reading.specs.declared.stop.Stop.TheVariants.{OutOfMemory};
ghost use Rattle.jv_tree.specs.TypeTree.{ids_of, type_tree};
ghost use Rattle.jv_names.specs.Replies.{reply_to};
ghost use Rattle.jv_names.specs.WrittenTypes.{meant_base, named_written, plain_written, written_type};

use crate::meaning::Meaning;
use crate::oracle::Oracle;
use crate::reference::{Reference, add_reference, read_reference};
use crate::spot::Spot;
use jv_diag::DiagList;
use jv_instance::{JavaPred, Ty, TypeBase};
use jv_layout::Layout;
use jv_tree::{Base, Name, Names, TypeRef};
use sg_query::Query;
use sg_reading::{Known, Stop};
use std::alloc::{AllocError, Global};

/// A type that is written: what it means, a bad type where its name means none, and the diagnostics of its name.
#[derive(Debug, Drop)]
pub struct WrittenType {
    pub ty: Ty,
    pub diags: DiagList,
}

/// The base that a name means.
fn meant_base(meaning: Meaning) -> TypeBase
    ensures { result ≡ meant_base meaning }
{
    match meaning {
        Meaning::One(s) => TypeBase::Class(s),
        _ => TypeBase::Bad,
    }
}

/// A type without a name.
fn plain(alloc: Global, base: TypeBase, dims: u8) -> WrittenType
    ensures { result ≡ plain_written base dims }
{
    WrittenType {
        ty: Ty { base, dims },
        diags: DiagList::empty(alloc),
    }
}

/// A type with a name, by what that means.
fn named(
    alloc: Global,
    l: &Layout,
    names: &Names,
    file: u32,
    name: &Name,
    dims: u8,
    reference: &Reference,
) -> Result<WrittenType, Stop<Query<JavaPred>>>
    ensures { MatchResult result
        (λ w. w ≡ named_written l.now names.now file (ids_of name.now) dims reference.now)
        (λ stop. stop ≡ OutOfMemory) }
{
    let mut diags = DiagList::empty(alloc);
    add_reference(
        alloc,
        &mut diags,
        l,
        names,
        file,
        name.ids.as_slice(),
        reference,
    )?;
    let base = meant_base(reference.meaning);
    Ok(WrittenType {
        ty: Ty { base, dims },
        diags,
    })
}

/// What a type that is written means as far as the replies tell it, or the first query that has no reply.
#[tactic(auto, using(crate::proofs::WrittenTypes::written_type_steps))]
pub fn read_written_type(
    alloc: Global,
    l: &Layout,
    names: &Names,
    o: &Oracle,
    spot: &Spot,
    ty: &TypeRef,
) -> Result<WrittenType, Stop<Query<JavaPred>>>
    requires { spot.now.file < 2 ^ 31 }
    ensures { Reads (reply_to o.now) (written_type l.now names.now spot.now.file spot.now.inside.items (type_tree ty.now)) result }
{
    match &ty.base {
        Base::Boolean => Ok(plain(alloc, TypeBase::Boolean, ty.dims)),
        Base::Char => Ok(plain(alloc, TypeBase::Char, ty.dims)),
        Base::Int => Ok(plain(alloc, TypeBase::Int, ty.dims)),
        Base::Long => Ok(plain(alloc, TypeBase::Long, ty.dims)),
        Base::Void => Ok(plain(alloc, TypeBase::Void, ty.dims)),
        Base::Named(name) => {
            let reference = read_reference(alloc, l, o, spot, name)?;
            named(alloc, l, names, spot.file, name, ty.dims, &reference)
        }
    }
}

/// What a type that is written at a place means (JLS 4.3, 6.5.5, 10.1): a primitive type, a class or an interface with its
/// brackets, or a bad type with the diagnostics of its name. It takes the time of the ends that its answers give, and of the
/// texts.
#[tactic(auto, using(crate::proofs::WrittenTypes::written_type_steps))]
pub fn resolve_written_type(
    alloc: Global,
    l: &Layout,
    names: &Names,
    o: &Oracle,
    spot: &Spot,
    ty: &TypeRef,
) -> Result<Known<WrittenType, Query<JavaPred>>, AllocError>
    requires { spot.now.file < 2 ^ 31 }
    ensures { IfOk result (IsKnown (reply_to o.now) (written_type l.now names.now spot.now.file spot.now.inside.items (type_tree ty.now))) }
{
    Known::from_found(read_written_type(alloc, l, names, o, spot, ty))
}
