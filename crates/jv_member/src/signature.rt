//! The signature of a member.

ghost use Rattle.std.specs.Prelude.{◌≡◌, ◌<◌, ◌^◌, map, IfOk, MatchResult};
ghost use Rattle.sg_reading.specs.Stop.{Reads, IsKnown};
ghost use Rattle.sg_reading.specs.declared.stop.Stop.TheVariants.{OutOfMemory};
ghost use Rattle.jv_tree.specs.DeclTree.{param_tree, method_tree, ctor_tree};
ghost use Rattle.jv_names.specs.Replies.{reply_to};
ghost use Rattle.jv_member.specs.Own.{own_method, own_ctor};
ghost use Rattle.jv_member.specs.MemberDecls.{own_field_of, own_of};
ghost use Rattle.jv_member.specs.Signatures.{field_by, method_by, ctor_by, param_types, signature_at, signature_rule};

use crate::member_decl::MemberDecl;
use crate::written_types::WrittenTypes;
use jv_diag::DiagList;
use jv_instance::{JavaDatum, JavaPred, Ty, TypeBase, TypeList};
use jv_layout::Layout;
use jv_names::{Oracle, Spot, WrittenType, read_written_type};
use jv_tree::{Ctor, Method, Mods, NameId, Names, Param, TypeRef, Var};
use sg_base::Scope;
use sg_query::Query;
use sg_reading::{Known, Stop};
use std::alloc::{AllocError, Global};

/// The signature of a member: its name with its types, and the diagnostics of the names in those.
#[derive(Debug, Drop)]
pub struct Signature {
    pub datum: JavaDatum,
    pub diags: DiagList,
}

/// The signature of a field by its type.
fn field_by(alloc: Global, name: NameId, written: WrittenType) -> Signature
    ensures { result ≡ field_by name written }
{
    Signature {
        datum: JavaDatum::Signature {
            name,
            result: written.ty,
            params: TypeList::new(Vec::new(alloc)),
        },
        diags: written.diags,
    }
}

/// The signature of a method by its result and its parameters.
fn method_by(
    alloc: Global,
    name: NameId,
    returned: WrittenType,
    params: WrittenTypes,
) -> Result<Signature, Stop<Query<JavaPred>>>
    ensures { MatchResult result (λ s. s ≡ method_by name returned params) (λ stop. stop ≡ OutOfMemory) }
{
    let mut types = Vec::new(alloc);
    let mut diags = returned.diags;
    params.put_behind(&mut types, &mut diags)?;
    Ok(Signature {
        datum: JavaDatum::Signature {
            name,
            result: returned.ty,
            params: TypeList::new(types),
        },
        diags,
    })
}

/// The signature of a constructor by its parameters.
fn ctor_by(
    alloc: Global,
    class: NameId,
    params: WrittenTypes,
) -> Result<Signature, Stop<Query<JavaPred>>>
    ensures { MatchResult result (λ s. s ≡ ctor_by class params) (λ stop. stop ≡ OutOfMemory) }
{
    let ty = Ty {
        base: TypeBase::Void,
        dims: 0,
    };
    let diags = DiagList::empty(alloc);
    method_by(alloc, class, WrittenType { ty, diags }, params)
}

/// The types of parameters, or the first query that has no reply.
#[tactic(auto, using(crate::proofs::Steps::signature_steps))]
fn read_params(
    alloc: Global,
    l: &Layout,
    names: &Names,
    o: &Oracle,
    spot: &Spot,
    params: &[Param],
) -> Result<WrittenTypes, Stop<Query<JavaPred>>>
    requires { spot.now.file < 2 ^ 31 }
    ensures { Reads (reply_to o.now) (param_types l.now names.now spot.now.file spot.now.inside.items (map param_tree params.now)) result }
{
    let mut found = WrittenTypes::empty(alloc);
    for param in params {
        let written = read_written_type(alloc, l, names, o, spot, &param.ty)?;
        found = found.with(written)?;
    }
    Ok(found)
}

/// The signature of a variable of a declaration of fields.
#[tactic(auto, using(crate::proofs::Steps::signature_steps))]
fn read_field(
    alloc: Global,
    l: &Layout,
    names: &Names,
    o: &Oracle,
    spot: &Spot,
    class: NameId,
    mods: &Mods,
    ty: &TypeRef,
    variable: &Var,
) -> Result<Signature, Stop<Query<JavaPred>>>
    requires { spot.now.file < 2 ^ 31 }
    ensures { Reads (reply_to o.now) (signature_at l.now names.now spot.now.file spot.now.inside.items class (own_field_of mods.now ty.now variable.now)) result }
{
    let written = read_written_type(alloc, l, names, o, spot, ty)?;
    Ok(field_by(alloc, variable.name.id, written))
}

/// The signature of a method: first its result, and then its parameters.
#[tactic(auto, using(crate::proofs::Steps::signature_steps))]
fn read_method(
    alloc: Global,
    l: &Layout,
    names: &Names,
    o: &Oracle,
    spot: &Spot,
    class: NameId,
    method: &Method,
) -> Result<Signature, Stop<Query<JavaPred>>>
    requires { spot.now.file < 2 ^ 31 }
    ensures { Reads (reply_to o.now) (signature_at l.now names.now spot.now.file spot.now.inside.items class (own_method (method_tree method.now))) result }
{
    let returned = read_written_type(alloc, l, names, o, spot, &method.result)?;
    let params = read_params(alloc, l, names, o, spot, method.params.as_slice())?;
    method_by(alloc, method.name.id, returned, params)
}

/// The signature of a constructor of a class with this name.
#[tactic(auto, using(crate::proofs::Steps::signature_steps))]
fn read_ctor(
    alloc: Global,
    l: &Layout,
    names: &Names,
    o: &Oracle,
    spot: &Spot,
    class: NameId,
    ctor: &Ctor,
) -> Result<Signature, Stop<Query<JavaPred>>>
    requires { spot.now.file < 2 ^ 31 }
    ensures { Reads (reply_to o.now) (signature_at l.now names.now spot.now.file spot.now.inside.items class (own_ctor (ctor_tree ctor.now))) result }
{
    let params = read_params(alloc, l, names, o, spot, ctor.params.as_slice())?;
    ctor_by(alloc, class, params)
}

/// The signature of a member of a type as far as the replies tell it, or the first query that has no reply.
#[tactic(auto, using(crate::proofs::Steps::signature_steps))]
pub fn read_signature(
    alloc: Global,
    l: &Layout,
    names: &Names,
    o: &Oracle,
    ty: Scope,
    class: NameId,
    member: &MemberDecl,
) -> Result<Signature, Stop<Query<JavaPred>>>
    ensures { Reads (reply_to o.now) (signature_rule l.now names.now ty class (own_of member.now)) result }
{
    let spot = Spot::of_body(alloc, l, ty)?;
    match member {
        MemberDecl::Field(mods, written, variable) => read_field(
            alloc, l, names, o, &spot, class, mods, written, variable,
        ),
        MemberDecl::Method(method) => read_method(alloc, l, names, o, &spot, class, method),
        MemberDecl::Ctor(ctor) => read_ctor(alloc, l, names, o, &spot, class, ctor),
        MemberDecl::DefaultCtor(_) => ctor_by(alloc, class, WrittenTypes::empty(alloc)),
    }
}

/// The signature of a member of a type with this name (JLS 8.3, 8.4.2, 8.4.5, 8.8.2, 9.3, 9.4): the type of a field, the
/// result and the parameters of a method, or the parameters of a constructor, which has its class's name; with the diagnostics
/// of the names there. A default constructor has no parameters. It takes the time of the ends that its answers give, and of
/// the texts.
#[tactic(auto, using(crate::proofs::Steps::signature_steps))]
pub fn resolve_signature(
    alloc: Global,
    l: &Layout,
    names: &Names,
    o: &Oracle,
    ty: Scope,
    class: NameId,
    member: &MemberDecl,
) -> Result<Known<Signature, Query<JavaPred>>, AllocError>
    ensures { IfOk result (IsKnown (reply_to o.now) (signature_rule l.now names.now ty class (own_of member.now))) }
{
    Known::from_found(read_signature(alloc, l, names, o, ty, class, member))
}
