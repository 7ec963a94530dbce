//! The supertypes of a class or an interface.

ghost use Rattle.std.specs.Prelude.{◌≡◌, IfOk};
ghost use Rattle.sg_reading.specs.Stop.{Reads};
ghost use Rattle.jv_names.specs.declared.counts.Counts.TheVariants.{Supertypes};
ghost use Rattle.jv_names.specs.Ends.{counted_ends};
ghost use Rattle.jv_names.specs.Read.{answer_supers, with_object, supers_of};
ghost use Rattle.jv_names.specs.Replies.{reply_to};

use crate::counted_ends::CountedEnds;
use crate::counts::Counts;
use crate::kinds;
use crate::oracle::Oracle;
use crate::queries::{ask, for_any};
use crate::scope_list::ScopeList;
use jv_instance::{JavaDatum, JavaPred};
use jv_layout::Layout;
use sg_base::Scope;
use sg_query::{Answer, FoundPaths, Query};
use sg_reading::Stop;
use std::alloc::{AllocError, Global};

/// The ends of the paths to supertypes.
fn path_supers(
    alloc: Global,
    l: &Layout,
    paths: &FoundPaths<JavaDatum>,
) -> Result<ScopeList, AllocError>
    ensures { IfOk result (λ supers. supers ≡ counted_ends l.now Supertypes paths.now) }
{
    let mut supers = ScopeList::empty(alloc);
    let mut ends = CountedEnds::new(l, Counts::Supertypes, paths);
    while let Some(end) = ends.next() {
        supers.push(end)?;
    }
    Ok(supers)
}

/// The supertypes of a class with itself by an answer.
fn answer_supers(
    alloc: Global,
    l: &Layout,
    answer: &Answer<JavaDatum>,
) -> Result<ScopeList, AllocError>
    ensures { IfOk result (λ supers. supers ≡ answer_supers l.now answer.now) }
{
    match answer {
        Answer::Paths(paths) => path_supers(alloc, l, paths),
        Answer::TooMany => Ok(ScopeList::empty(alloc)),
    }
}

/// The same with `Object` behind those of an interface.
fn with_object(l: &Layout, class: Scope, supers: ScopeList) -> Result<ScopeList, AllocError>
    ensures { IfOk result (λ all. all ≡ with_object l.now class supers) }
{
    let mut all = supers;
    if l.is_interface(class) {
        all.push(l.object())?;
    }
    Ok(all)
}

/// The supertypes of a class or an interface with itself, and `Object` for an interface (JLS 4.10.2), as far as the replies tell
/// them, or the query that has no reply; none where there are too many paths. It takes the time of the paths of the answer.
#[tactic(auto, using(crate::proofs::ReadSteps::read_steps))]
pub fn read_supers(
    alloc: Global,
    l: &Layout,
    o: &Oracle,
    class: Scope,
) -> Result<ScopeList, Stop<Query<JavaPred>>>
    ensures { Reads (reply_to o.now) (supers_of l.now class) result }
{
    let answer = ask(o, for_any(kinds::SUPERS, class))?;
    let above = answer_supers(alloc, l, answer)?;
    let supers = with_object(l, class, above)?;
    Ok(supers)
}
