//! The methods that a type has, name by name.

ghost use Rattle.std.specs.Prelude.{◌≡◌, MatchResult};
ghost use Rattle.std.specs.List.{list_all};
ghost use Rattle.jv_layout.specs.Readers.{is_abstract_of};
ghost use Rattle.sg_reading.specs.Reading.{each};
ghost use Rattle.sg_reading.specs.Stop.{Reads};
ghost use Rattle.sg_reading.specs.declared.stop.Stop.TheVariants.{OutOfMemory};
ghost use Rattle.jv_names.specs.Replies.{reply_to};
ghost use Rattle.jv_member.specs.Overriding.{is_unimplemented, group_diags, group_rule, all_groups, inherited_rule};

use crate::above::{code_diags, named_diag};
use crate::clash::Clash;
use crate::diag_lists::DiagLists;
use crate::groups::{Groups, groups_of};
use crate::meeting::read_meeting;
use crate::of_class::has_abstract_of_class;
use jv_diag::{DiagList, codes};
use jv_instance::JavaPred;
use jv_layout::Layout;
use jv_names::{Counts, Ends, Oracle, find_ends, for_any, kinds, read_members_among};
use jv_tree::{Ident, NameId, Names};
use sg_base::Scope;
use sg_query::Query;
use sg_reading::Stop;
use std::alloc::Global;

/// Whether all methods are abstract.
fn are_abstract(l: &Layout, methods: &[Scope]) -> bool
    ensures { result ≡ list_all (is_abstract_of l.now) methods.now }
{
    methods.iter().all(|method| l.is_abstract(*method))
}

/// Whether a class that is not abstract leaves a name without an implementation (JLS 8.1.1.1, 8.4.8): all members of the name are
/// abstract, or one of them is an abstract one of a class.
fn is_unimplemented(l: &Layout, ty: Scope, members: &[Scope]) -> bool
    ensures { result ≡ is_unimplemented l.now ty members.now }
{
    (!l.is_interface(ty) && !l.is_abstract(ty))
        && (!members.is_empty() && (are_abstract(l, members) || has_abstract_of_class(l, members)))
}

/// The diagnostics of the methods of one name, by its members and by what is wrong where they meet.
fn group_diags(
    alloc: Global,
    l: &Layout,
    names: &Names,
    ty: Scope,
    type_name: Ident,
    name: NameId,
    members: &[Scope],
    clashes: &[Option<Clash>],
) -> Result<DiagList, Stop<Query<JavaPred>>>
    ensures { MatchResult result (λ diags. diags ≡ group_diags l.now names.now ty type_name name members.now clashes.now) (λ stop. stop ≡ OutOfMemory) }
{
    let mut diags = code_diags(alloc, l, names, ty, type_name, name, clashes)?;
    if is_unimplemented(l, ty, members) {
        let code = codes::UNIMPLEMENTED;
        diags.append(named_diag(alloc, l, names, ty, code, type_name, name)?)?;
    }
    Ok(diags)
}

/// The diagnostics of the methods of one name.
#[tactic(auto, using(crate::proofs::GroupSteps::group_steps), unfolding(crate::specs::Overriding::group_rule))]
fn read_group(
    alloc: Global,
    l: &Layout,
    names: &Names,
    o: &Oracle,
    ty: Scope,
    type_name: Ident,
    name: NameId,
    methods: &[Scope],
) -> Result<DiagList, Stop<Query<JavaPred>>>
    ensures { Reads (reply_to o.now) (group_rule l.now names.now ty type_name (name, methods.now)) result }
{
    let members = read_members_among(alloc, l, o, methods)?;
    let clashes = read_meeting(alloc, l, o, ty, methods, members.as_slice())?;
    group_diags(
        alloc,
        l,
        names,
        ty,
        type_name,
        name,
        members.as_slice(),
        clashes.as_slice(),
    )
}

/// The diagnostics of the methods of each name.
#[tactic(auto, using(crate::proofs::GroupSteps::group_steps))]
fn read_groups(
    alloc: Global,
    l: &Layout,
    names: &Names,
    o: &Oracle,
    ty: Scope,
    type_name: Ident,
    groups: &Groups,
) -> Result<DiagLists, Stop<Query<JavaPred>>>
    ensures { Reads (reply_to o.now) (each (group_rule l.now names.now ty type_name) groups.now) result }
{
    let mut lists = DiagLists::empty(alloc);
    for index in 0..groups.len() {
        match groups.get(index) {
            None => {}
            Some((name, methods)) => {
                let diags = read_group(alloc, l, names, o, ty, type_name, name, methods)?;
                lists = lists.with(diags)?;
            }
        }
    }
    Ok(lists)
}

/// The diagnostics of all methods that a type has, by the ends of their paths. It takes the time of the answers, and for each name
/// that of comparing each pair of its methods, also by the supertypes of the types that declare them.
#[tactic(auto, using(crate::proofs::GroupSteps::group_steps))]
pub fn read_all_groups(
    alloc: Global,
    l: &Layout,
    names: &Names,
    o: &Oracle,
    ty: Scope,
    type_name: Ident,
    ends: Ends,
) -> Result<DiagList, Stop<Query<JavaPred>>>
    ensures { Reads (reply_to o.now) (all_groups l.now names.now ty type_name ends) result }
{
    match ends {
        Ends::TooMany => named_diag(
            alloc,
            l,
            names,
            ty,
            codes::TOO_MANY_PATHS,
            type_name,
            type_name.id,
        ),
        Ends::Scopes(methods) => {
            let groups = groups_of(alloc, l, methods.as_slice())?;
            let lists = read_groups(alloc, l, names, o, ty, type_name, &groups)?;
            lists.joined(alloc)
        }
    }
}

/// The diagnostics of all methods that a type has (JLS 8.1.1.1, 8.4.8.4, 9.4.1.3), as far as the replies tell them, or the first
/// query that has no reply: what is wrong where methods of a name meet, and which name has no implementation in a class that is
/// not abstract. All stand at the type's name. It takes the time of the answers, and for each name that of comparing each pair
/// of its methods, also by the supertypes of the types that declare them.
#[tactic(auto, using(crate::proofs::GroupSteps::group_steps), unfolding(crate::specs::Overriding::inherited_rule))]
pub fn read_inherited_rule(
    alloc: Global,
    l: &Layout,
    names: &Names,
    o: &Oracle,
    ty: Scope,
    type_name: Ident,
) -> Result<DiagList, Stop<Query<JavaPred>>>
    ensures { Reads (reply_to o.now) (inherited_rule l.now names.now ty type_name) result }
{
    let ends = find_ends(alloc, l, o, Counts::Methods, for_any(kinds::METHODS, ty))?;
    read_all_groups(alloc, l, names, o, ty, type_name, ends)
}
