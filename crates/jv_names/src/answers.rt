//! What is read from an answer.

ghost use Rattle.std.specs.Prelude.{◌≡◌, ◌&&◌, IfOk, [], fold};
ghost use Rattle.std.specs.List.{list_any};
ghost use Rattle.sg_base.specs.Scope.{is_scope, scope_cmp};
ghost use Rattle.sg_state.specs.Held.{put};
ghost use Rattle.jv_names.specs.Ends.{is_counted, path_end, counted_ends, meaning_of, answer_meaning, answer_ends, has_end};

use crate::counted_ends::CountedEnds;
use crate::counts::Counts;
use crate::ends::Ends;
use crate::meaning::Meaning;
use jv_instance::JavaDatum;
use jv_layout::Layout;
use sg_base::{Scope, ScopeSet};
use sg_query::{Answer, FoundPaths};
use std::alloc::{AllocError, Global};

/// The one end of the paths that count.
fn sole_end(l: &Layout, counts: Counts, paths: &FoundPaths<JavaDatum>) -> Meaning
    ensures { result ≡ meaning_of (counted_ends l.now counts paths.now) }
{
    let mut first = None;
    let mut ends = CountedEnds::new(l, counts, paths);
    while let Some(end) = ends.next() {
        match first {
            None => first = Some(end),
            Some(e) => {
                if e != end {
                    return Meaning::Ambiguous;
                }
            }
        }
    }
    match first {
        None => Meaning::Nothing,
        Some(e) => Meaning::One(e),
    }
}

/// The meaning by an answer. It takes time in the length of its paths.
pub fn answer_meaning(l: &Layout, counts: Counts, answer: &Answer<JavaDatum>) -> Meaning
    ensures { result ≡ answer_meaning l.now counts answer.now }
{
    match answer {
        Answer::Paths(paths) => sole_end(l, counts, paths),
        Answer::TooMany => Meaning::TooMany,
    }
}

/// The ends of the paths that count, in rising order, each once.
fn ends_of(
    alloc: Global,
    l: &Layout,
    counts: Counts,
    paths: &FoundPaths<JavaDatum>,
) -> Result<ScopeSet, AllocError>
    ensures { IfOk result (λ ends. ends ≡ fold (put scope_cmp) [] (counted_ends l.now counts paths.now)) }
{
    let mut found = ScopeSet::new(alloc);
    let mut ends = CountedEnds::new(l, counts, paths);
    while let Some(end) = ends.next() {
        found.insert(end)?;
    }
    Ok(found)
}

/// The distinct ends by an answer.
pub fn answer_ends(
    alloc: Global,
    l: &Layout,
    counts: Counts,
    answer: &Answer<JavaDatum>,
) -> Result<Ends, AllocError>
    ensures { IfOk result (λ ends. ends ≡ answer_ends l.now counts answer.now) }
{
    match answer {
        Answer::Paths(paths) => Ok(Ends::Scopes(ends_of(alloc, l, counts, paths)?)),
        Answer::TooMany => Ok(Ends::TooMany),
    }
}

/// Whether a scope is the end of a path that counts.
fn some_end(l: &Layout, counts: Counts, scope: Scope, paths: &FoundPaths<JavaDatum>) -> bool
    ensures { result ≡ list_any (λ f. is_counted l.now counts f && is_scope (path_end f.path) scope) paths.now }
{
    let mut ends = CountedEnds::new(l, counts, paths);
    while let Some(end) = ends.next() {
        if end == scope {
            return true;
        }
    }
    false
}

/// Whether a scope is one of the ends by an answer.
pub fn has_end(l: &Layout, counts: Counts, scope: Scope, answer: &Answer<JavaDatum>) -> bool
    ensures { result ≡ has_end l.now counts scope answer.now }
{
    match answer {
        Answer::Paths(paths) => some_end(l, counts, scope, paths),
        Answer::TooMany => false,
    }
}
