//! The meaning by one query.

ghost use Rattle.std.specs.Prelude.{◌≡◌, Some, None, MatchResult};
ghost use Rattle.sg_reading.specs.declared.stop.Stop.TheVariants.{NoReply};
ghost use Rattle.sg_reading.specs.Stop.{Reads};
ghost use Rattle.jv_names.specs.Names.{look_up, member_type, package_type, subpackage};
ghost use Rattle.jv_names.specs.Replies.{reply_to, for_name, for_any};

use crate::answers::answer_meaning;
use crate::counts::Counts;
use crate::kinds;
use crate::meaning::Meaning;
use crate::oracle::Oracle;
use jv_instance::{JavaDatum, JavaPred};
use jv_layout::Layout;
use jv_tree::NameId;
use sg_base::Scope;
use sg_query::{Answer, Query};
use sg_reading::Stop;

/// The query of a kind from a scope for a name.
pub fn for_name(kind: u8, start: Scope, name: NameId) -> Query<JavaPred>
    ensures { result ≡ for_name kind start name }
{
    Query {
        start,
        kind,
        pred: JavaPred::Named(name),
    }
}

/// The query of a kind from a scope for any name.
pub fn for_any(kind: u8, start: Scope) -> Query<JavaPred>
    ensures { result ≡ for_any kind start }
{
    Query {
        start,
        kind,
        pred: JavaPred::Any,
    }
}

/// The reply to a query, or a stop that names it.
pub fn ask(o: &Oracle, query: Query<JavaPred>) -> Result<&Answer<JavaDatum>, Stop<Query<JavaPred>>>
    ensures { MatchResult result
        (λ answer. reply_to o.now query ≡ Some answer.now)
        (λ stop. (stop ≡ NoReply query) × (reply_to o.now query ≡ None)) }
{
    o.ask(query)
}

/// The meaning by one query.
#[tactic(auto, using(crate::proofs::Steps::name_steps))]
pub fn look_up(
    l: &Layout,
    o: &Oracle,
    counts: Counts,
    query: Query<JavaPred>,
) -> Result<Meaning, Stop<Query<JavaPred>>>
    ensures { Reads (reply_to o.now) (look_up l.now counts query) result }
{
    let answer = ask(o, query)?;
    Ok(answer_meaning(l, counts, answer))
}

/// A member type of a type.
pub fn member_type(
    l: &Layout,
    o: &Oracle,
    class: Scope,
    name: NameId,
) -> Result<Meaning, Stop<Query<JavaPred>>>
    ensures { Reads (reply_to o.now) (member_type l.now class name) result }
{
    look_up(
        l,
        o,
        Counts::MemberTypes,
        for_name(kinds::MEMTYPE, class, name),
    )
}

/// A type that a package declares.
pub fn package_type(
    l: &Layout,
    o: &Oracle,
    outer: Scope,
    name: NameId,
) -> Result<Meaning, Stop<Query<JavaPred>>>
    ensures { Reads (reply_to o.now) (package_type l.now outer name) result }
{
    look_up(
        l,
        o,
        Counts::OwnTypes,
        for_name(kinds::OWNTYPE, outer, name),
    )
}

/// A package that stands directly in the root or in a package.
pub fn subpackage(
    l: &Layout,
    o: &Oracle,
    outer: Scope,
    name: NameId,
) -> Result<Meaning, Stop<Query<JavaPred>>>
    ensures { Reads (reply_to o.now) (subpackage l.now outer name) result }
{
    look_up(
        l,
        o,
        Counts::OwnPackages,
        for_name(kinds::SUBPKG, outer, name),
    )
}
