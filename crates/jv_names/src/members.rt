//! The fields and methods of a name that a type has.

ghost use Rattle.std.specs.Prelude.{◌≡◌, IfOk};
ghost use Rattle.sg_reading.specs.Stop.{Reads, IsKnown};
ghost use Rattle.jv_names.specs.Members.{find_ends, field, all_methods, with_members, methods, is_method_named, object_methods};
ghost use Rattle.jv_names.specs.Replies.{reply_to};

use crate::answers::answer_ends;
use crate::counts::Counts;
use crate::ends::Ends;
use crate::kinds;
use crate::meaning::Meaning;
use crate::oracle::Oracle;
use crate::queries::{ask, for_name, look_up};
use crate::replacing::read_members_among;
use crate::scope_list::ScopeList;
use jv_instance::{JavaPred, labels};
use jv_layout::Layout;
use jv_tree::NameId;
use sg_base::Scope;
use sg_query::Query;
use sg_reading::{Known, Stop};
use std::alloc::{AllocError, Global};

/// The distinct ends by one query.
#[tactic(auto, using(crate::proofs::Steps::name_steps))]
pub fn find_ends(
    alloc: Global,
    l: &Layout,
    o: &Oracle,
    counts: Counts,
    query: Query<JavaPred>,
) -> Result<Ends, Stop<Query<JavaPred>>>
    ensures { Reads (reply_to o.now) (find_ends l.now counts query) result }
{
    let answer = ask(o, query)?;
    let ends = answer_ends(alloc, l, counts, answer)?;
    Ok(ends)
}

/// The field of a name in a type as far as the replies tell it, or the query that has no reply.
pub fn read_field(
    l: &Layout,
    o: &Oracle,
    class: Scope,
    name: NameId,
) -> Result<Meaning, Stop<Query<JavaPred>>>
    ensures { Reads (reply_to o.now) (field l.now class name) result }
{
    look_up(l, o, Counts::Fields, for_name(kinds::FIELDS, class, name))
}

/// The methods of a name that a type declares or inherits as far as the replies tell it, or the query that has no reply.
pub fn read_all_methods(
    alloc: Global,
    l: &Layout,
    o: &Oracle,
    class: Scope,
    name: NameId,
) -> Result<Ends, Stop<Query<JavaPred>>>
    ensures { Reads (reply_to o.now) (all_methods l.now class name) result }
{
    find_ends(
        alloc,
        l,
        o,
        Counts::Methods,
        for_name(kinds::METHODS, class, name),
    )
}

/// The members among the methods, where there are not too many paths.
#[tactic(auto, using(crate::proofs::ReplacingSteps::replacing_steps))]
fn read_with_members(
    alloc: Global,
    l: &Layout,
    o: &Oracle,
    ends: Ends,
) -> Result<Ends, Stop<Query<JavaPred>>>
    ensures { Reads (reply_to o.now) (with_members l.now ends) result }
{
    match ends {
        Ends::TooMany => Ok(Ends::TooMany),
        Ends::Scopes(methods) => {
            let members = read_members_among(alloc, l, o, methods.as_slice())?;
            Ok(Ends::Scopes(members))
        }
    }
}

/// The methods of a name that are members of a type as far as the replies tell it, or the first query that has no reply.
#[tactic(auto, using(crate::proofs::ReplacingSteps::replacing_steps))]
pub fn read_methods(
    alloc: Global,
    l: &Layout,
    o: &Oracle,
    class: Scope,
    name: NameId,
) -> Result<Ends, Stop<Query<JavaPred>>>
    ensures { Reads (reply_to o.now) (methods l.now class name) result }
{
    let ends = read_all_methods(alloc, l, o, class, name)?;
    read_with_members(alloc, l, o, ends)
}

/// The field of a name that a type declares or inherits (JLS 8.3, 9.3): one, several, or none. It takes the time of the ends
/// that the answer gives.
#[tactic(auto, using(crate::proofs::Steps::name_steps))]
pub fn find_field(
    l: &Layout,
    o: &Oracle,
    class: Scope,
    name: NameId,
) -> Result<Known<Meaning, Query<JavaPred>>, AllocError>
    ensures { IfOk result (IsKnown (reply_to o.now) (field l.now class name)) }
{
    Known::from_found(read_field(l, o, class, name))
}

/// The methods of a name that a type declares or inherits (JLS 8.4.8, 9.4.1), in rising order, those with them for which others
/// stand. It takes the time of the ends that the answer gives.
#[tactic(auto, using(crate::proofs::Steps::name_steps))]
pub fn all_methods(
    alloc: Global,
    l: &Layout,
    o: &Oracle,
    class: Scope,
    name: NameId,
) -> Result<Known<Ends, Query<JavaPred>>, AllocError>
    ensures { IfOk result (IsKnown (reply_to o.now) (all_methods l.now class name)) }
{
    Known::from_found(read_all_methods(alloc, l, o, class, name))
}

/// The methods of a name that are members of a type (JLS 8.4.8, 9.4.1), in rising order: those that it declares or inherits, but
/// no method of an interface for which another one stands, that is no static one: one of a class that is not abstract, or one of
/// a subtype of the interface. It takes the time of the ends that the answer gives, and for each pair of methods of which one is
/// an interface's that of a look into the supertypes of the other's type.
#[tactic(auto, using(crate::proofs::Steps::name_steps))]
pub fn find_methods(
    alloc: Global,
    l: &Layout,
    o: &Oracle,
    class: Scope,
    name: NameId,
) -> Result<Known<Ends, Query<JavaPred>>, AllocError>
    ensures { IfOk result (IsKnown (reply_to o.now) (methods l.now class name)) }
{
    Known::from_found(read_methods(alloc, l, o, class, name))
}

/// Whether a member is a method with this name.
fn is_method_named(l: &Layout, name: NameId, member: Scope) -> bool
    ensures { result ≡ is_method_named l.now name member }
{
    l.is_member_by(labels::METH, l.place(member)) && l.is_named(name, member)
}

/// The methods of `Object` with a name, in the order of its members (JLS 9.2). It takes time in the number of those.
pub fn object_methods(alloc: Global, l: &Layout, name: NameId) -> Result<ScopeList, AllocError>
    ensures { IfOk result (λ methods. methods ≡ object_methods l.now name) }
{
    let mut methods = ScopeList::empty(alloc);
    for member in l.members(l.object()) {
        if is_method_named(l, name, *member) {
            methods.push(*member)?;
        }
    }
    Ok(methods)
}
