//! The parts of a name with dots.

ghost use Rattle.std.specs.Prelude.{◌≡◌, [], ◌∷◌, ◌++◌, MatchResult};
ghost use Rattle.sg_reading.specs.Stop.{Reads};
ghost use Rattle.sg_reading.specs.declared.stop.Stop.TheVariants.{OutOfMemory};
ghost use Rattle.jv_names.specs.Names.{last_meaning, type_part, further_parts, from_root};
ghost use Rattle.jv_names.specs.Parts.{ReadsThrough, StopsThere};
ghost use Rattle.jv_names.specs.Replies.{reply_to};

use crate::context::Context;
use crate::counts::Counts;
use crate::kinds;
use crate::meaning::Meaning;
use crate::oracle::Oracle;
use crate::part::Part;
use crate::qualifier::Qualifier;
use crate::queries::{for_name, look_up, member_type, package_type, subpackage};
use crate::resolved::Resolved;
use crate::scope_list::ScopeList;
use jv_instance::JavaPred;
use jv_layout::Layout;
use jv_tree::{Ident, NameId};
use sg_base::Scope;
use sg_query::Query;
use sg_reading::Stop;
use std::alloc::Global;

/// What a name means that ends here.
fn last_meaning(context: Context, at: Qualifier) -> Meaning
    ensures { result ≡ last_meaning context at }
{
    match at {
        Qualifier::InType(t) => Meaning::One(t),
        Qualifier::InPackage(p) => match context {
            Context::OnDemandImport => Meaning::One(p),
            Context::TypeName => Meaning::Nothing,
            Context::SingleImport => Meaning::Nothing,
        },
    }
}

/// These scopes and one more.
pub fn pushed(mut types: ScopeList, scope: Scope) -> Result<ScopeList, Stop<Query<JavaPred>>>
    ensures { MatchResult result (λ r. r ≡ types ++ scope ∷ []) (λ e. e ≡ OutOfMemory) }
{
    types.push(scope)?;
    Ok(types)
}

/// A part of a name behind a type.
fn type_part(
    l: &Layout,
    o: &Oracle,
    context: Context,
    class: Scope,
    name: NameId,
) -> Result<Meaning, Stop<Query<JavaPred>>>
    ensures { Reads (reply_to o.now) (type_part l.now context class name) result }
{
    match context {
        Context::TypeName => member_type(l, o, class, name),
        Context::SingleImport => look_up(
            l,
            o,
            Counts::OwnTypes,
            for_name(kinds::OWNTYPE, class, name),
        ),
        Context::OnDemandImport => look_up(
            l,
            o,
            Counts::OwnTypes,
            for_name(kinds::OWNTYPE, class, name),
        ),
    }
}

/// A part of a name behind what the parts so far mean.
#[tactic(auto, using(crate::proofs::Walking::part_steps))]
fn next_part(
    l: &Layout,
    o: &Oracle,
    context: Context,
    at: Qualifier,
    part: Ident,
) -> Result<Part, Stop<Query<JavaPred>>>
    ensures { MatchResult result
        (λ found. ReadsThrough (reply_to o.now) l.now context at part found)
        (λ stop. StopsThere (reply_to o.now) l.now context at part stop) }
{
    match at {
        Qualifier::InType(t) => {
            let m = type_part(l, o, context, t, part.id)?;
            match m {
                Meaning::One(s) => Ok(Part::FoundType(s)),
                _ => Ok(Part::Ends(m)),
            }
        }
        Qualifier::InPackage(p) => {
            let m = package_type(l, o, p, part.id)?;
            match m {
                Meaning::One(s) => Ok(Part::FoundType(s)),
                Meaning::Nothing => {
                    let k = subpackage(l, o, p, part.id)?;
                    match k {
                        Meaning::One(q) => Ok(Part::FoundPackage(q)),
                        _ => Ok(Part::Ends(k)),
                    }
                }
                _ => Ok(Part::Ends(m)),
            }
        }
    }
}

/// The parts of a name behind what the parts so far mean.
pub fn further_parts(
    l: &Layout,
    o: &Oracle,
    context: Context,
    mut at: Qualifier,
    mut types: ScopeList,
    rest: &[Ident],
) -> Result<Resolved, Stop<Query<JavaPred>>>
    ensures { Reads (reply_to o.now) (further_parts l.now context at types rest.now) result }
{
    for part in rest {
        match next_part(l, o, context, at, *part)? {
            Part::FoundType(s) => {
                types.push(s)?;
                at = Qualifier::InType(s);
            }
            Part::FoundPackage(q) => at = Qualifier::InPackage(q),
            Part::Ends(meaning) => return Ok(Resolved { meaning, types }),
        }
    }
    Ok(Resolved {
        meaning: last_meaning(context, at),
        types,
    })
}

/// A name whose first part is a package directly in the root.
#[tactic(auto, using(crate::proofs::Steps::name_steps))]
pub fn from_root(
    alloc: Global,
    l: &Layout,
    o: &Oracle,
    context: Context,
    first: Ident,
    rest: &[Ident],
) -> Result<Resolved, Stop<Query<JavaPred>>>
    ensures { Reads (reply_to o.now) (from_root l.now context first rest.now) result }
{
    let types = ScopeList::empty(alloc);
    let k = subpackage(l, o, l.root(), first.id)?;
    match k {
        Meaning::One(q) => further_parts(l, o, context, Qualifier::InPackage(q), types, rest),
        _ => Ok(Resolved { meaning: k, types }),
    }
}
