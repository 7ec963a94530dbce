//! What the unit of a type reads of the bodies and the initializers of its members.

ghost use Rattle.std.specs.Prelude.{◌≡◌, ◌<◌, ◌++◌, length, IfOk, MatchResult};
ghost use Rattle.sg_reading.specs.Progress.{HasResidual};
ghost use Rattle.sg_reading.specs.Stop.{Reads};
ghost use Rattle.sg_reading.specs.declared.stop.Stop.TheVariants.{OutOfMemory};
ghost use Rattle.jv_layout.specs.Scopes.{member_scope};
ghost use Rattle.jv_member.specs.MemberDecls.{own_of};
ghost use Rattle.jv_names.specs.Replies.{reply_to};
ghost use Rattle.jv_unit.specs.Kept.{folder_of, IsWhole};
ghost use Rattle.jv_unit.specs.MemberBodies.{is_blank, member_body, member_flow, type_blanks};
ghost use Rattle.jv_unit.specs.Progress.{member_left};

use crate::folder::Folder;
use crate::member_rules::{member_at, member_count, member_number};
use jv_diag::DiagList;
use jv_expr::{BodyProgress, read_ctor_body, read_field_init, read_method_body};
use jv_flow::{check_ctor_flow, check_method_flow};
use jv_instance::JavaPred;
use jv_layout::Layout;
use jv_member::MemberDecl;
use jv_names::{Oracle, ScopeList};
use sg_base::Scope;
use sg_query::Query;
use sg_reading::Stop;
use std::alloc::{AllocError, Global};

/// Whether a member is a final instance field without an initializer.
pub(crate) fn is_blank(l: &Layout, scope: Scope, member: &MemberDecl<'_>) -> bool
    ensures { result ≡ is_blank l.now scope (own_of member.now) }
{
    match member {
        MemberDecl::Field(_, _, variable) => {
            l.is_final(scope) && (!l.is_static(scope) && !variable.init.is_some())
        }
        MemberDecl::Method(_) => false,
        MemberDecl::Ctor(_) => false,
        MemberDecl::DefaultCtor(_) => false,
    }
}

/// The blank fields of a type, which its constructors assign. It takes time in the members of the type.
#[tactic(auto, using(crate::proofs::OwnMembers::member_facts, crate::proofs::MemberBodies::blank_steps))]
pub(crate) fn blanks(alloc: Global, w: &Folder, t: u32) -> Result<ScopeList, AllocError>
    requires whole { IsWhole w.now }
    requires within { t < length w.now.layout.types }
    ensures { IfOk result (λ bs. bs ≡ type_blanks (folder_of w.now) t) }
{
    let mut found = ScopeList::empty(alloc);
    for place in 0..member_count(w, t) {
        let scope = member_at(w, t, place);
        let member = w.member(member_number(w, t, place));
        if is_blank(w.layout(), scope, &member) {
            found.push(scope)?;
        }
    }
    Ok(found)
}

/// What is wrong in the body or the initializer of a member, as far as the replies tell it, or the first query that has no reply. It
/// goes on from where the progress says that it came to.
pub(crate) fn read_body(
    alloc: Global,
    w: &Folder,
    o: &Oracle,
    t: u32,
    blanks: &[Scope],
    scope: Scope,
    m: u32,
    progress: &mut BodyProgress,
) -> Result<DiagList, Stop<Query<JavaPred>>>
    requires whole { IsWhole w.now }
    requires within { t < length w.now.layout.types }
    requires member { m < length w.now.layout.members }
    requires scope { scope ≡ member_scope w.now.layout m }
    requires so_far { HasResidual (reply_to o.now) (member_body (folder_of w.now) t blanks.now m) (member_left (folder_of w.now) t blanks.now m progress.old) }
    ensures reads { Reads (reply_to o.now) (member_body (folder_of w.now) t blanks.now m) result }
    ensures so_far { HasResidual (reply_to o.now) (member_body (folder_of w.now) t blanks.now m) (member_left (folder_of w.now) t blanks.now m progress.new) }
{
    let (l, n, ty) = (w.layout(), w.names(), w.ty(t));
    let extends = w.decl(t).extends.as_slice();
    match w.member(m) {
        MemberDecl::Field(_, _, variable) => {
            read_field_init(alloc, l, n, o, ty, extends, scope, variable)
        }
        MemberDecl::Method(method) => {
            read_method_body(alloc, l, n, o, ty, extends, scope, method, progress)
        }
        MemberDecl::Ctor(ctor) => {
            read_ctor_body(alloc, l, n, o, ty, extends, blanks, scope, ctor, progress)
        }
        MemberDecl::DefaultCtor(_) => Ok(DiagList::empty(alloc)),
    }
}

/// Diagnostics, and behind them what is said of the flow through the body of a member.
pub(crate) fn with_flow(
    alloc: Global,
    w: &Folder,
    t: u32,
    m: u32,
    before: DiagList,
) -> Result<DiagList, Stop<Query<JavaPred>>>
    requires whole { IsWhole w.now }
    requires within { t < length w.now.layout.types }
    requires member { m < length w.now.layout.members }
    ensures { MatchResult result (λ ds. ds ≡ before ++ member_flow (folder_of w.now) t m) (λ stop. stop ≡ OutOfMemory) }
{
    let flow = own_flow(alloc, w, t, m)?;
    let mut diags = before;
    diags.append(flow)?;
    Ok(diags)
}

/// What is said of the flow through the body of a member.
fn own_flow(alloc: Global, w: &Folder, t: u32, m: u32) -> Result<DiagList, AllocError>
    requires whole { IsWhole w.now }
    requires within { t < length w.now.layout.types }
    requires member { m < length w.now.layout.members }
    ensures { IfOk result (λ ds. ds ≡ member_flow (folder_of w.now) t m) }
{
    let file = w.layout().file_of(w.ty(t));
    match w.member(m) {
        MemberDecl::Method(method) => check_method_flow(alloc, w.names(), file, method),
        MemberDecl::Ctor(ctor) => check_ctor_flow(alloc, w.names(), file, ctor),
        MemberDecl::Field(_, _, _) => Ok(DiagList::empty(alloc)),
        MemberDecl::DefaultCtor(_) => Ok(DiagList::empty(alloc)),
    }
}
