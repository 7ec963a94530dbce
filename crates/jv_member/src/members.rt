//! All that is checked of a type's members.

ghost use Rattle.std.specs.Prelude.{◌≡◌, ◌++◌, map, IfOk, MatchResult};
ghost use Rattle.sg_reading.specs.Reading.{each};
ghost use Rattle.sg_reading.specs.Stop.{Reads, IsKnown};
ghost use Rattle.sg_reading.specs.declared.stop.Stop.TheVariants.{OutOfMemory};
ghost use Rattle.jv_tree.specs.DeclTree.{type_decl_tree};
ghost use Rattle.jv_tree.specs.TypeTree.{ids_of};
ghost use Rattle.jv_names.specs.Replies.{reply_to};
ghost use Rattle.jv_member.specs.Declaration.{joined, member_diags};
ghost use Rattle.jv_member.specs.Members.{declarations_of, overrides, member_overrides, member_calls, check_by, members_rule};
ghost use Rattle.jv_member.specs.MemberDecls.{own_of};
ghost use Rattle.jv_member.specs.Placed.{placed_of};

use crate::above::read_method_rule;
use crate::constructors::read_ctor_rule;
use crate::declaring::member_diags;
use crate::diag_lists::DiagLists;
use crate::inherited::read_all_groups;
use crate::member_decl::{MemberDecl, own_members};
use crate::placed::{PlacedDecl, put_in_place};
use jv_diag::DiagList;
use jv_instance::JavaPred;
use jv_layout::{Declarations, Layout};
use jv_names::{Counts, Oracle, find_ends, for_any, kinds};
use jv_tree::{Ident, Name, Names, TypeDecl};
use sg_base::Scope;
use sg_query::Query;
use sg_reading::{Known, Stop};
use std::alloc::{AllocError, Global};

/// The diagnostics of the declaration of a member itself.
fn declared_diags(
    alloc: Global,
    l: &Layout,
    declarations: &Declarations,
    names: &Names,
    ty: Scope,
    type_name: Ident,
    placed: &PlacedDecl,
) -> Result<DiagList, AllocError>
    requires { declarations.now ≡ l.now }
    ensures { IfOk result (λ diags. diags ≡ member_diags l.now names.now ty type_name.id (placed_of placed.now).0 (placed_of placed.now).1) }
{
    member_diags(
        alloc,
        l,
        declarations,
        names,
        ty,
        type_name.id,
        placed.scope,
        &placed.member,
    )
}

/// The diagnostics of the declarations themselves.
fn placed_diags(
    alloc: Global,
    l: &Layout,
    declarations: &Declarations,
    names: &Names,
    ty: Scope,
    type_name: Ident,
    placed: &[PlacedDecl],
) -> Result<DiagList, Stop<Query<JavaPred>>>
    requires { declarations.now ≡ l.now }
    ensures { MatchResult result (λ diags. diags ≡ declarations_of l.now names.now ty type_name (map placed_of placed.now)) (λ stop. stop ≡ OutOfMemory) }
{
    let mut all = DiagList::empty(alloc);
    for member in placed {
        let diags = declared_diags(alloc, l, declarations, names, ty, type_name, member)?;
        all.append(diags)?;
    }
    Ok(all)
}

/// The diagnostics of a method that is no duplicate against what it is declared over (JLS 8.4.8, 9.4.1), as far as the replies tell
/// them, or the first query that has no reply. Other members have none. It takes the time of the answers.
#[tactic(auto, using(crate::proofs::MemberSteps::member_steps))]
pub fn read_overrides(
    alloc: Global,
    l: &Layout,
    declarations: &Declarations,
    names: &Names,
    o: &Oracle,
    ty: Scope,
    type_name: Ident,
    scope: Scope,
    member: &MemberDecl,
) -> Result<DiagList, Stop<Query<JavaPred>>>
    requires { declarations.now ≡ l.now }
    ensures { Reads (reply_to o.now) (overrides l.now names.now ty type_name scope (own_of member.now)) result }
{
    match member {
        MemberDecl::Method(method) => {
            if declarations.is_duplicate(l, scope) {
                return Ok(DiagList::empty(alloc));
            }
            read_method_rule(alloc, l, names, o, ty, type_name, scope, method.name)
        }
        _ => Ok(DiagList::empty(alloc)),
    }
}

/// The same of a member with its scope.
fn read_placed_overrides(
    alloc: Global,
    l: &Layout,
    declarations: &Declarations,
    names: &Names,
    o: &Oracle,
    ty: Scope,
    type_name: Ident,
    placed: &PlacedDecl,
) -> Result<DiagList, Stop<Query<JavaPred>>>
    requires { declarations.now ≡ l.now }
    ensures { Reads (reply_to o.now) (member_overrides l.now names.now ty type_name (placed_of placed.now)) result }
{
    read_overrides(
        alloc,
        l,
        declarations,
        names,
        o,
        ty,
        type_name,
        placed.scope,
        &placed.member,
    )
}

/// The diagnostics of each member against what it is declared over.
#[tactic(auto, using(crate::proofs::MemberSteps::member_steps))]
fn read_each_overrides(
    alloc: Global,
    l: &Layout,
    declarations: &Declarations,
    names: &Names,
    o: &Oracle,
    ty: Scope,
    type_name: Ident,
    placed: &[PlacedDecl],
) -> Result<DiagLists, Stop<Query<JavaPred>>>
    requires { declarations.now ≡ l.now }
    ensures { Reads (reply_to o.now) (each (member_overrides l.now names.now ty type_name) (map placed_of placed.now)) result }
{
    let mut found = DiagLists::empty(alloc);
    for member in placed {
        let diags = read_placed_overrides(alloc, l, declarations, names, o, ty, type_name, member)?;
        found = found.with(diags)?;
    }
    Ok(found)
}

/// The diagnostics of the constructor that a member calls without a super call.
fn read_calls(
    alloc: Global,
    l: &Layout,
    names: &Names,
    o: &Oracle,
    ty: Scope,
    extends: &[Name],
    placed: &PlacedDecl,
) -> Result<DiagList, Stop<Query<JavaPred>>>
    ensures { Reads (reply_to o.now) (member_calls l.now names.now ty (map ids_of extends.now) (placed_of placed.now)) result }
{
    read_ctor_rule(alloc, l, names, o, ty, extends, &placed.member)
}

/// The diagnostics of the constructor that each member calls without a super call.
#[tactic(auto, using(crate::proofs::MemberSteps::member_steps))]
fn read_each_calls(
    alloc: Global,
    l: &Layout,
    names: &Names,
    o: &Oracle,
    ty: Scope,
    extends: &[Name],
    placed: &[PlacedDecl],
) -> Result<DiagLists, Stop<Query<JavaPred>>>
    ensures { Reads (reply_to o.now) (each (member_calls l.now names.now ty (map ids_of extends.now)) (map placed_of placed.now)) result }
{
    let mut found = DiagLists::empty(alloc);
    for member in placed {
        let diags = read_calls(alloc, l, names, o, ty, extends, member)?;
        found = found.with(diags)?;
    }
    Ok(found)
}

/// All diagnostics in their order.
fn all_diags(
    alloc: Global,
    declared: DiagList,
    overs: DiagLists,
    meets: DiagList,
    calls: DiagLists,
) -> Result<DiagList, Stop<Query<JavaPred>>>
    ensures { MatchResult result (λ diags. diags ≡ (declared ++ joined overs) ++ (meets ++ joined calls)) (λ stop. stop ≡ OutOfMemory) }
{
    let mut all = declared;
    all.append(overs.joined(alloc)?)?;
    let mut more = meets;
    more.append(calls.joined(alloc)?)?;
    all.append(more)?;
    Ok(all)
}

/// The diagnostics of members with their scopes. All methods of the type are asked for first.
#[tactic(auto, using(crate::proofs::MemberSteps::member_steps))]
fn read_check_by(
    alloc: Global,
    l: &Layout,
    declarations: &Declarations,
    names: &Names,
    o: &Oracle,
    ty: Scope,
    type_name: Ident,
    extends: &[Name],
    placed: &[PlacedDecl],
) -> Result<DiagList, Stop<Query<JavaPred>>>
    requires { declarations.now ≡ l.now }
    ensures { Reads (reply_to o.now) (check_by l.now names.now ty type_name (map ids_of extends.now) (map placed_of placed.now)) result }
{
    let ends = find_ends(alloc, l, o, Counts::Methods, for_any(kinds::METHODS, ty))?;
    let overs = read_each_overrides(alloc, l, declarations, names, o, ty, type_name, placed)?;
    let meets = read_all_groups(alloc, l, names, o, ty, type_name, ends)?;
    let calls = read_each_calls(alloc, l, names, o, ty, extends, placed)?;
    let declared = placed_diags(alloc, l, declarations, names, ty, type_name, placed)?;
    all_diags(alloc, declared, overs, meets, calls)
}

/// The diagnostics of a type's members as far as the replies tell them, or the first query that has no reply.
#[tactic(auto, using(crate::proofs::MemberSteps::member_steps))]
pub fn read_members(
    alloc: Global,
    l: &Layout,
    declarations: &Declarations,
    names: &Names,
    o: &Oracle,
    decl: &TypeDecl,
    ty: Scope,
) -> Result<DiagList, Stop<Query<JavaPred>>>
    requires { declarations.now ≡ l.now }
    ensures { Reads (reply_to o.now) (members_rule l.now names.now ty (type_decl_tree decl.now)) result }
{
    let own = own_members(alloc, decl)?;
    let placed = put_in_place(alloc, l.members(ty), own.as_slice())?;
    read_check_by(
        alloc,
        l,
        declarations,
        names,
        o,
        ty,
        decl.name,
        decl.extends.as_slice(),
        placed.as_slice(),
    )
}

/// All that is checked of the members of a type (JLS 8.3, 8.4, 8.8, 9.3, 9.4), by its declaration: each declaration itself; each
/// method against those that it is declared over; the methods that meet in the type; and the constructors of the superclass that
/// its own call. It takes the time of the answers and of the texts, for each name of a method that of comparing each pair of
/// results, and that of the layout, for the table of its duplicates; who has that table calls `read_members`.
#[tactic(auto, using(crate::proofs::MemberSteps::member_steps))]
pub fn check_members(
    alloc: Global,
    l: &Layout,
    names: &Names,
    o: &Oracle,
    decl: &TypeDecl,
    ty: Scope,
) -> Result<Known<DiagList, Query<JavaPred>>, AllocError>
    ensures { IfOk result (IsKnown (reply_to o.now) (members_rule l.now names.now ty (type_decl_tree decl.now))) }
{
    let declarations = l.declarations(alloc)?;
    Known::from_found(read_members(alloc, l, &declarations, names, o, decl, ty))
}
