//! What the unit of a type reads behind its header: the checks of its members, one after another.

ghost use Rattle.std.specs.Prelude.{◌≡◌, ◌<◌, ◌^◌, ◌++◌, length, None, Some, MatchResult};
ghost use Rattle.sg_reading.specs.Progress.{HasResidual};
ghost use Rattle.sg_reading.specs.Stop.{Reads};
ghost use Rattle.sg_reading.specs.declared.stop.Stop.TheVariants.{NoReply, OutOfMemory};
ghost use Rattle.jv_expr.specs.Checking.{only_diags};
ghost use Rattle.jv_layout.specs.Readers.{members_of_type};
ghost use Rattle.jv_layout.specs.Scopes.{member_scope};
ghost use Rattle.jv_names.specs.declared.kinds.TheConstants.{METHODS};
ghost use Rattle.jv_names.specs.Replies.{for_any, reply_to};
ghost use Rattle.jv_unit.specs.Checks.{checks_of};
ghost use Rattle.jv_unit.specs.Kept.{folder_of, IsWhole};
ghost use Rattle.jv_unit.specs.MemberBodies.{member_body};
ghost use Rattle.jv_unit.specs.Plans.{all_checks, body_rule, calling_rule, check_rule, declaration_part, declaration_rule, meeting_rule, methods_rule, overriding_rule};
ghost use Rattle.jv_unit.specs.Progress.{AreSoFar, check_in, IsCheckSoFar, IsHeadSoFar, IsReadSoFar, IsSoFar, member_left, whole_rule};

use crate::begun_checks::BegunChecks;
use crate::begun_head::BegunHead;
use crate::begun_type::BegunType;
use crate::body_rules::{blanks, read_body, with_flow};
use crate::folder::Folder;
use crate::head_rules::{head_diags, read_type_dependence};
use crate::member_rules::{member_at, member_count, member_number, read_member};
use crate::type_progress::TypeProgress;
use crate::type_rules::read_type_header;
use jv_diag::DiagList;
use jv_expr::BodyProgress;
use jv_header::{DependenceProgress, HeaderProgress};
use jv_instance::{JavaDatum, JavaPred};
use jv_member::{member_diags, read_ctor_rule, read_inherited_rule, read_overrides};
use jv_names::{Oracle, for_any, kinds};
use sg_base::Scope;
use sg_query::{Answer, Query};
use sg_reading::Stop;
use std::alloc::{AllocError, Global};

/// How many checks a type has: four for each of its members, one of the methods that it has, and one of those that meet.
fn check_count(w: &Folder, t: u32) -> usize
    requires whole { IsWhole w.now }
    requires within { t < length w.now.layout.types }
    ensures count { result ≡ length (checks_of (members_of_type w.now.layout t)) }
    ensures few { result < 2 ^ 34 }
{
    4 * member_count(w, t) + 2
}

/// Diagnostics, and behind them those of the declaration of a member itself.
fn with_declaration(
    alloc: Global,
    w: &Folder,
    t: u32,
    scope: Scope,
    m: u32,
    before: DiagList,
) -> Result<DiagList, Stop<Query<JavaPred>>>
    requires whole { IsWhole w.now }
    requires within { t < length w.now.layout.types }
    requires member { m < length w.now.layout.members }
    requires scope { scope ≡ member_scope w.now.layout m }
    ensures { MatchResult result (λ ds. ds ≡ before ++ declaration_part (folder_of w.now) t m) (λ stop. stop ≡ OutOfMemory) }
{
    let class = w.decl(t).name.id;
    let member = w.member(m);
    let own = member_diags(
        alloc,
        w.layout(),
        w.declarations(),
        w.names(),
        w.ty(t),
        class,
        scope,
        &member,
    )?;
    let mut diags = before;
    diags.append(own)?;
    Ok(diags)
}

/// The diagnostics of the declaration of a member, with the types in its signature, as far as the replies tell them, or the first query
/// that has no reply.
fn read_declaration(
    alloc: Global,
    w: &Folder,
    o: &Oracle,
    t: u32,
    scope: Scope,
    m: u32,
) -> Result<DiagList, Stop<Query<JavaPred>>>
    requires whole { IsWhole w.now }
    requires within { t < length w.now.layout.types }
    requires member { m < length w.now.layout.members }
    requires scope { scope ≡ member_scope w.now.layout m }
    ensures { Reads (reply_to o.now) (declaration_rule (folder_of w.now) t m) result }
{
    let signature = read_member(alloc, w, o, t, m)?;
    with_declaration(alloc, w, t, scope, m, signature.diags)
}

/// The reply to the query for the methods of a type, or a stop that names it.
fn ask_methods(o: &Oracle, ty: Scope) -> Result<&Answer<JavaDatum>, Stop<Query<JavaPred>>>
    ensures { MatchResult result
        (λ answer. reply_to o.now (for_any METHODS ty) ≡ Some answer.now)
        (λ stop. (stop ≡ NoReply (for_any METHODS ty)) × (reply_to o.now (for_any METHODS ty) ≡ None)) }
{
    o.ask(for_any(kinds::METHODS, ty))
}

/// No diagnostics, once there is a reply to the query for the methods of a type, or that query. It is asked before what each method is
/// declared over.
fn read_methods(
    alloc: Global,
    w: &Folder,
    o: &Oracle,
    t: u32,
) -> Result<DiagList, Stop<Query<JavaPred>>>
    requires whole { IsWhole w.now }
    requires within { t < length w.now.layout.types }
    ensures { Reads (reply_to o.now) (methods_rule (folder_of w.now) t) result }
{
    ask_methods(o, w.ty(t))?;
    Ok(DiagList::empty(alloc))
}

/// The diagnostics of a method against what it is declared over, as far as the replies tell them, or the first query that has no reply.
fn read_overriding(
    alloc: Global,
    w: &Folder,
    o: &Oracle,
    t: u32,
    scope: Scope,
    m: u32,
) -> Result<DiagList, Stop<Query<JavaPred>>>
    requires whole { IsWhole w.now }
    requires within { t < length w.now.layout.types }
    requires member { m < length w.now.layout.members }
    requires scope { scope ≡ member_scope w.now.layout m }
    ensures { Reads (reply_to o.now) (overriding_rule (folder_of w.now) t m) result }
{
    let name = w.decl(t).name;
    let member = w.member(m);
    read_overrides(
        alloc,
        w.layout(),
        w.declarations(),
        w.names(),
        o,
        w.ty(t),
        name,
        scope,
        &member,
    )
}

/// The diagnostics of the methods that meet in a type, as far as the replies tell them, or the first query that has no reply.
fn read_meeting(
    alloc: Global,
    w: &Folder,
    o: &Oracle,
    t: u32,
) -> Result<DiagList, Stop<Query<JavaPred>>>
    requires whole { IsWhole w.now }
    requires within { t < length w.now.layout.types }
    ensures { Reads (reply_to o.now) (meeting_rule (folder_of w.now) t) result }
{
    let name = w.decl(t).name;
    read_inherited_rule(alloc, w.layout(), w.names(), o, w.ty(t), name)
}

/// The diagnostics of the constructor that a constructor calls without a super call, as far as the replies tell them, or the first query
/// that has no reply.
fn read_calling(
    alloc: Global,
    w: &Folder,
    o: &Oracle,
    t: u32,
    m: u32,
) -> Result<DiagList, Stop<Query<JavaPred>>>
    requires whole { IsWhole w.now }
    requires within { t < length w.now.layout.types }
    requires member { m < length w.now.layout.members }
    ensures { Reads (reply_to o.now) (calling_rule (folder_of w.now) t m) result }
{
    let extends = w.decl(t).extends.as_slice();
    let member = w.member(m);
    read_ctor_rule(alloc, w.layout(), w.names(), o, w.ty(t), extends, &member)
}

/// The diagnostics of the body or the initializer of a member, and of the flow through it, as far as the replies tell them, or the first
/// query that has no reply. It goes on from where the progress says that it came to.
fn read_whole_body(
    alloc: Global,
    w: &Folder,
    o: &Oracle,
    t: u32,
    blanks: &[Scope],
    scope: Scope,
    m: u32,
    progress: &mut BodyProgress,
) -> Result<DiagList, Stop<Query<JavaPred>>>
    requires whole { IsWhole w.now }
    requires within { t < length w.now.layout.types }
    requires member { m < length w.now.layout.members }
    requires scope { scope ≡ member_scope w.now.layout m }
    requires so_far { HasResidual (reply_to o.now) (member_body (folder_of w.now) t blanks.now m) (member_left (folder_of w.now) t blanks.now m progress.old) }
    ensures reads { Reads (reply_to o.now) (body_rule (folder_of w.now) t blanks.now m) result }
    ensures so_far { HasResidual (reply_to o.now) (member_body (folder_of w.now) t blanks.now m) (member_left (folder_of w.now) t blanks.now m progress.new) }
{
    let diags = read_body(alloc, w, o, t, blanks, scope, m, progress)?;
    with_flow(alloc, w, t, m, diags)
}

/// The diagnostics of the check at a place of those of a type, as far as the replies tell them, or the first query that has no reply. That
/// of a body goes on from where the progress says that it came to; each other one starts again.
fn read_check(
    alloc: Global,
    w: &Folder,
    o: &Oracle,
    t: u32,
    blanks: &[Scope],
    place: usize,
    progress: &mut BodyProgress,
) -> Result<DiagList, Stop<Query<JavaPred>>>
    requires whole { IsWhole w.now }
    requires within { t < length w.now.layout.types }
    requires place { place < length (checks_of (members_of_type w.now.layout t)) }
    requires so_far { IsCheckSoFar (reply_to o.now) (folder_of w.now) t blanks.now (check_in (folder_of w.now) t place) progress.old }
    ensures reads { Reads (reply_to o.now) (check_rule (folder_of w.now) t blanks.now (check_in (folder_of w.now) t place)) result }
    ensures so_far { IsCheckSoFar (reply_to o.now) (folder_of w.now) t blanks.now (check_in (folder_of w.now) t place) progress.new }
{
    let count = member_count(w, t);
    if place < count {
        let m = member_number(w, t, place);
        let scope = member_at(w, t, place);
        return read_declaration(alloc, w, o, t, scope, m);
    }
    if place == count {
        return read_methods(alloc, w, o, t);
    }
    if place <= 2 * count {
        let at = place - count - 1;
        let m = member_number(w, t, at);
        let scope = member_at(w, t, at);
        return read_overriding(alloc, w, o, t, scope, m);
    }
    if place == 2 * count + 1 {
        return read_meeting(alloc, w, o, t);
    }
    if place <= 3 * count + 1 {
        let at = place - 2 * count - 2;
        let m = member_number(w, t, at);
        return read_calling(alloc, w, o, t, m);
    }
    let at = place - 3 * count - 2;
    let m = member_number(w, t, at);
    let scope = member_at(w, t, at);
    read_whole_body(alloc, w, o, t, blanks, scope, m, progress)
}

/// The checks of a type that are left. Where a reply is missing, those before stay done. Only the check that asks for it is repeated, which
/// is of one member, or of the methods that meet; and of a body only the statement at its top that asks for it.
#[tactic(auto, using(crate::proofs::CheckRules::checks_steps))]
fn read_checks(
    alloc: Global,
    w: &Folder,
    o: &Oracle,
    t: u32,
    checks: &mut BegunChecks,
) -> Result<(), Stop<Query<JavaPred>>>
    requires whole { IsWhole w.now }
    requires within { t < length w.now.layout.types }
    requires so_far { AreSoFar (reply_to o.now) (folder_of w.now) t checks.old }
    ensures reads { Reads (reply_to o.now) (whole_rule (folder_of w.now) t) (only_diags result checks.new.diags) }
    ensures so_far { AreSoFar (reply_to o.now) (folder_of w.now) t checks.new }
{
    while checks.place < check_count(w, t) {
        let part = read_check(
            alloc,
            w,
            o,
            t,
            checks.blanks.as_slice(),
            checks.place,
            &mut checks.body,
        )?;
        checks.pass(part)?;
    }
    Ok(())
}

/// All that is wrong with a type, of whose checks some were done.
#[tactic(auto, using(crate::proofs::CheckRules::whole_steps))]
fn go_on(
    alloc: Global,
    w: &Folder,
    o: &Oracle,
    t: u32,
    checks: BegunChecks,
    progress: &mut TypeProgress,
) -> Result<DiagList, Stop<Query<JavaPred>>>
    requires whole { IsWhole w.now }
    requires within { t < length w.now.layout.types }
    requires new { progress.old.begun ≡ None }
    requires so_far { AreSoFar (reply_to o.now) (folder_of w.now) t checks }
    ensures reads { Reads (reply_to o.now) (whole_rule (folder_of w.now) t) result }
    ensures so_far { IsSoFar (reply_to o.now) (folder_of w.now) t progress.new.begun }
{
    let mut checks = checks;
    match read_checks(alloc, w, o, t, &mut checks) {
        Ok(()) => Ok(checks.diags),
        Err(stop) => {
            progress.keep(BegunType::Checks(checks));
            Err(stop)
        }
    }
}

/// All that is wrong with a type, behind the diagnostics of the type itself.
#[tactic(auto, using(crate::proofs::CheckRules::whole_steps))]
fn start_checks(
    alloc: Global,
    w: &Folder,
    o: &Oracle,
    t: u32,
    diags: DiagList,
    progress: &mut TypeProgress,
) -> Result<DiagList, Stop<Query<JavaPred>>>
    requires whole { IsWhole w.now }
    requires within { t < length w.now.layout.types }
    requires new { progress.old.begun ≡ None }
    requires head { HasResidual (reply_to o.now) (whole_rule (folder_of w.now) t) (all_checks (folder_of w.now) t diags) }
    ensures reads { Reads (reply_to o.now) (whole_rule (folder_of w.now) t) result }
    ensures so_far { IsSoFar (reply_to o.now) (folder_of w.now) t progress.new.begun }
{
    let blanks = blanks(alloc, w, t)?;
    let checks = BegunChecks {
        place: 0,
        blanks,
        diags,
        body: BodyProgress::new(),
    };
    go_on(alloc, w, o, t, checks, progress)
}

/// All that is wrong with a type, whose header was read.
#[tactic(auto, using(crate::proofs::CheckRules::whole_steps))]
fn go_on_with_head(
    alloc: Global,
    w: &Folder,
    o: &Oracle,
    t: u32,
    head: BegunHead,
    progress: &mut TypeProgress,
) -> Result<DiagList, Stop<Query<JavaPred>>>
    requires whole { IsWhole w.now }
    requires within { t < length w.now.layout.types }
    requires new { progress.old.begun ≡ None }
    requires so_far { IsHeadSoFar (reply_to o.now) (folder_of w.now) t head }
    ensures reads { Reads (reply_to o.now) (whole_rule (folder_of w.now) t) result }
    ensures so_far { IsSoFar (reply_to o.now) (folder_of w.now) t progress.new.begun }
{
    let mut head = head;
    match read_type_dependence(alloc, w, o, t, &mut head) {
        Ok(dependence) => {
            let diags = head_diags(alloc, w, t, head.header, dependence)?;
            start_checks(alloc, w, o, t, diags, progress)
        }
        Err(stop) => {
            progress.keep(BegunType::Head(head));
            Err(stop)
        }
    }
}

/// All that is wrong with a type, whose header was not kept.
#[tactic(auto, using(crate::proofs::CheckRules::whole_steps))]
fn start(
    alloc: Global,
    w: &Folder,
    o: &Oracle,
    t: u32,
    header: &mut HeaderProgress,
    progress: &mut TypeProgress,
) -> Result<DiagList, Stop<Query<JavaPred>>>
    requires whole { IsWhole w.now }
    requires within { t < length w.now.layout.types }
    requires read { IsReadSoFar (reply_to o.now) (folder_of w.now) t header.old }
    requires new { progress.old.begun ≡ None }
    ensures reads { Reads (reply_to o.now) (whole_rule (folder_of w.now) t) result }
    ensures so_far { IsSoFar (reply_to o.now) (folder_of w.now) t progress.new.begun }
    ensures read { IsReadSoFar (reply_to o.now) (folder_of w.now) t header.new }
{
    let head = BegunHead {
        header: read_type_header(alloc, w, o, t, header)?,
        dependence: DependenceProgress::new(),
    };
    go_on_with_head(alloc, w, o, t, head, progress)
}

/// All that is wrong with a type, as far as the replies tell it, or the first query that has no reply. It goes on from where the
/// progress says that it came to: a missing reply repeats at most one reference of its header, or one check, and of its dependence on
/// itself nothing.
#[tactic(auto, using(crate::proofs::CheckRules::whole_steps))]
pub(crate) fn finish_whole(
    alloc: Global,
    w: &Folder,
    o: &Oracle,
    t: u32,
    header: &mut HeaderProgress,
    progress: &mut TypeProgress,
) -> Result<DiagList, Stop<Query<JavaPred>>>
    requires whole { IsWhole w.now }
    requires within { t < length w.now.layout.types }
    requires read { IsReadSoFar (reply_to o.now) (folder_of w.now) t header.old }
    requires so_far { IsSoFar (reply_to o.now) (folder_of w.now) t progress.old.begun }
    ensures reads { Reads (reply_to o.now) (whole_rule (folder_of w.now) t) result }
    ensures so_far { IsSoFar (reply_to o.now) (folder_of w.now) t progress.new.begun }
    ensures read { IsReadSoFar (reply_to o.now) (folder_of w.now) t header.new }
{
    match progress.take() {
        None => start(alloc, w, o, t, header, progress),
        Some(BegunType::Head(head)) => go_on_with_head(alloc, w, o, t, head, progress),
        Some(BegunType::Checks(checks)) => go_on(alloc, w, o, t, checks, progress),
    }
}
