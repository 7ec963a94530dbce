//! What a method is declared over.

ghost use Rattle.std.specs.Prelude.{◌≡◌, [], ◌∷◌, fold, Some, OnOk, MatchResult};
ghost use Rattle.sg_base.specs.Scope.{scope_cmp};
ghost use Rattle.sg_reading.specs.Reading.{each};
ghost use Rattle.sg_reading.specs.Stop.{Reads};
ghost use Rattle.sg_reading.specs.declared.stop.Stop.TheVariants.{OutOfMemory};
ghost use Rattle.sg_state.specs.Held.{put};
ghost use Rattle.jv_diag.specs.Text.{takes};
ghost use Rattle.jv_names.specs.Replies.{reply_to};
ghost use Rattle.jv_member.specs.Overriding.{named_diag, code_diags, overriding, with_objects, against, method_rule};

use crate::clash::Clash;
use crate::codes::{Codes, add_codes};
use crate::pairs::read_overriding;
use jv_diag::{DiagList, codes};
use jv_instance::JavaPred;
use jv_layout::{Layout, text_of};
use jv_names::{Counts, Ends, Oracle, find_ends, for_name, kinds, object_methods};
use jv_tree::{Ident, NameId, Names};
use sg_base::{Scope, ScopeSet};
use sg_query::Query;
use sg_reading::Stop;
use std::alloc::{AllocError, Global};

/// One diagnostic at an identifier of a type's file, with the text of a name.
pub fn named_diag(
    alloc: Global,
    l: &Layout,
    names: &Names,
    ty: Scope,
    code: u8,
    place: Ident,
    name: NameId,
) -> Result<DiagList, Stop<Query<JavaPred>>>
    requires { takes code ≡ Some 1 }
    ensures { MatchResult result (λ diags. diags ≡ named_diag l.now names.now ty code place name ∷ []) (λ stop. stop ≡ OutOfMemory) }
{
    let mut diags = DiagList::empty(alloc);
    diags.add(
        alloc,
        l.file_of(ty),
        place.at,
        code,
        &[text_of(names, name)],
    )?;
    Ok(diags)
}

/// The diagnostics of codes at a place of a type's file, all with one name.
pub fn code_diags(
    alloc: Global,
    l: &Layout,
    names: &Names,
    ty: Scope,
    place: Ident,
    name: NameId,
    codes: &[Option<Clash>],
) -> Result<DiagList, Stop<Query<JavaPred>>>
    ensures { MatchResult result (λ diags. diags ≡ code_diags l.now names.now ty place name codes.now) (λ stop. stop ≡ OutOfMemory) }
{
    let mut diags = DiagList::empty(alloc);
    add_codes(alloc, &mut diags, l, names, ty, place, name, codes)?;
    Ok(diags)
}

/// Puts a scope to a set.
#[tactic(auto, using(crate::proofs::AboveSteps::put_steps))]
fn put(set: &mut ScopeSet, scope: Scope) -> Result<(), AllocError>
    ensures { OnOk result (set.new ≡ put scope_cmp set.old scope) }
{
    // For the proof alone, which takes from this call that the set rises.
    let _rising = set.as_slice();
    set.insert(scope)
}

/// Puts some methods to others.
fn put_all(methods: &mut ScopeSet, more: &[Scope]) -> Result<(), AllocError>
    ensures { OnOk result (methods.new ≡ fold (put scope_cmp) methods.old more.now) }
{
    for method in more {
        put(methods, *method)?;
    }
    Ok(())
}

/// What a method of a type is declared over: the methods above the type, and for an interface those of `Object` too (JLS 9.2).
fn with_objects(
    alloc: Global,
    l: &Layout,
    ty: Scope,
    name: NameId,
    above: ScopeSet,
) -> Result<ScopeSet, Stop<Query<JavaPred>>>
    ensures { MatchResult result (λ methods. methods ≡ with_objects l.now ty name above) (λ stop. stop ≡ OutOfMemory) }
{
    let mut methods = above;
    if l.is_interface(ty) {
        let own = object_methods(alloc, l, name)?;
        put_all(&mut methods, own.as_slice())?;
    }
    Ok(methods)
}

/// What is wrong with a method against each of some others.
#[tactic(auto, using(crate::proofs::AboveSteps::above_steps))]
fn read_each_overriding(
    alloc: Global,
    l: &Layout,
    o: &Oracle,
    method: Scope,
    others: &[Scope],
) -> Result<Codes, Stop<Query<JavaPred>>>
    ensures { Reads (reply_to o.now) (each (overriding l.now method) others.now) result }
{
    let mut codes = Codes::empty(alloc);
    for other in others {
        let code = read_overriding(alloc, l, o, method, *other)?;
        codes = codes.with(code)?;
    }
    Ok(codes)
}

/// The diagnostics of a method against what it is declared over.
#[tactic(auto, using(crate::proofs::AboveSteps::above_steps))]
fn read_against(
    alloc: Global,
    l: &Layout,
    names: &Names,
    o: &Oracle,
    ty: Scope,
    type_name: Ident,
    method: Scope,
    name: Ident,
    above: Ends,
) -> Result<DiagList, Stop<Query<JavaPred>>>
    ensures { Reads (reply_to o.now) (against l.now names.now ty type_name method name above) result }
{
    match above {
        Ends::TooMany => named_diag(
            alloc,
            l,
            names,
            ty,
            codes::TOO_MANY_PATHS,
            type_name,
            type_name.id,
        ),
        Ends::Scopes(above) => {
            let others = with_objects(alloc, l, ty, name.id, above)?;
            let codes = read_each_overriding(alloc, l, o, method, others.as_slice())?;
            code_diags(alloc, l, names, ty, name, name.id, codes.as_slice())
        }
    }
}

/// The diagnostics of a method of a type against what it is declared over (JLS 8.4.8, 9.4.1), as far as the replies tell them, or
/// the first query that has no reply. They stand at the method's name; where there are too many paths, one stands at the type's
/// name. It takes the time of the answers.
#[tactic(auto, using(crate::proofs::AboveSteps::above_steps), unfolding(crate::specs::Overriding::method_rule))]
pub fn read_method_rule(
    alloc: Global,
    l: &Layout,
    names: &Names,
    o: &Oracle,
    ty: Scope,
    type_name: Ident,
    method: Scope,
    name: Ident,
) -> Result<DiagList, Stop<Query<JavaPred>>>
    ensures { Reads (reply_to o.now) (method_rule l.now names.now ty type_name method name) result }
{
    let above = find_ends(
        alloc,
        l,
        o,
        Counts::Methods,
        for_name(kinds::ABOVE, ty, name.id),
    )?;
    read_against(alloc, l, names, o, ty, type_name, method, name, above)
}
