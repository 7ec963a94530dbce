//! The meaning of the names of types.

ghost use Rattle.std.specs.Prelude.{◌≡◌, ◌<◌, ◌^◌, IfOk};
ghost use Rattle.sg_reading.specs.Stop.{Reads, IsKnown};
ghost use Rattle.jv_tree.specs.TypeTree.{ids_of};
ghost use Rattle.jv_names.specs.Replies.{reply_to};
ghost use Rattle.jv_names.specs.TypeNames.{simple_type, not_a_type, type_name};

use crate::context::Context;
use crate::file_types::file_type;
use crate::meaning::Meaning;
use crate::oracle::Oracle;
use crate::parts::{from_root, further_parts, pushed};
use crate::qualifier::Qualifier;
use crate::queries::member_type;
use crate::resolved::Resolved;
use crate::scope_list::ScopeList;
use crate::spot::Spot;
use jv_instance::JavaPred;
use jv_layout::Layout;
use jv_tree::{Ident, Name, NameId};
use sg_query::Query;
use sg_reading::{Known, Stop};
use std::alloc::{AllocError, Global};

/// The meaning of a simple name at a place (JLS 6.5.5.1): a member type of the innermost enclosing body that has one of this
/// name, and else a type that the file sees.
#[tactic(auto, using(crate::proofs::Steps::name_steps))]
pub fn simple_type(
    alloc: Global,
    l: &Layout,
    o: &Oracle,
    spot: &Spot,
    name: NameId,
) -> Result<Meaning, Stop<Query<JavaPred>>>
    requires { spot.now.file < 2 ^ 31 }
    ensures { Reads (reply_to o.now) (simple_type l.now spot.now.file spot.now.inside.items name) result }
{
    for body in &spot.inside {
        let m = member_type(l, o, *body, name)?;
        if m != Meaning::Nothing {
            return Ok(m);
        }
    }
    file_type(alloc, l, o, spot.file, name)
}

/// What follows where the first part of a name means no type.
#[tactic(auto, using(crate::proofs::Steps::name_steps))]
fn not_a_type(
    alloc: Global,
    l: &Layout,
    o: &Oracle,
    first: Ident,
    rest: &[Ident],
) -> Result<Resolved, Stop<Query<JavaPred>>>
    ensures { Reads (reply_to o.now) (not_a_type l.now first rest.now) result }
{
    if rest.is_empty() {
        return Ok(Resolved {
            meaning: Meaning::Nothing,
            types: ScopeList::empty(alloc),
        });
    }
    from_root(alloc, l, o, Context::TypeName, first, rest)
}

/// The meaning of a name of a type as far as the replies tell it: what the name means with the types of its parts, or the
/// first query that has no reply. It takes the time of the ends that its answers give.
#[tactic(auto, using(crate::proofs::Steps::name_steps))]
pub fn read_type(
    alloc: Global,
    l: &Layout,
    o: &Oracle,
    spot: &Spot,
    name: &Name,
) -> Result<Resolved, Stop<Query<JavaPred>>>
    requires { spot.now.file < 2 ^ 31 }
    ensures { Reads (reply_to o.now) (type_name l.now spot.now.file spot.now.inside.items (ids_of name.now)) result }
{
    let types = ScopeList::empty(alloc);
    match name.ids.split_first() {
        None => Ok(Resolved {
            meaning: Meaning::Nothing,
            types,
        }),
        Some((first, rest)) => {
            let m = simple_type(alloc, l, o, spot, first.id)?;
            match m {
                Meaning::One(s) => further_parts(
                    l,
                    o,
                    Context::TypeName,
                    Qualifier::InType(s),
                    pushed(types, s)?,
                    rest,
                ),
                Meaning::Nothing => not_a_type(alloc, l, o, *first, rest),
                _ => Ok(Resolved { meaning: m, types }),
            }
        }
    }
}

/// The meaning of the name of a type at a place (JLS 6.5.5): its first part as a simple name, or else as a package of the
/// root, and then the further parts. The number of the file is one of the layout. It takes the time of the ends that its
/// answers give.
#[tactic(auto, using(crate::proofs::Steps::name_steps))]
pub fn resolve_type(
    alloc: Global,
    l: &Layout,
    o: &Oracle,
    spot: &Spot,
    name: &Name,
) -> Result<Known<Resolved, Query<JavaPred>>, AllocError>
    requires { spot.now.file < 2 ^ 31 }
    ensures { IfOk result (IsKnown (reply_to o.now) (type_name l.now spot.now.file spot.now.inside.items (ids_of name.now))) }
{
    Known::from_found(read_type(alloc, l, o, spot, name))
}
