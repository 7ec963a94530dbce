//! The types that a file sees by their simple names.

ghost use Rattle.std.specs.Prelude.{◌≡◌, ◌&&◌, ◌+◌, ◌++◌, ◌<◌, ◌^◌, drop, length, slice_index_or, IfOk};
ghost use Rattle.std.specs.List.{list_all};
ghost use Rattle.sg_base.specs.Scope.{is_scope};
ghost use Rattle.sg_query.specs.declared.answer.Answer.TheVariants.{Paths};
ghost use Rattle.sg_query.specs.declared.found.Found.{Found as FoundOf};
ghost use Rattle.sg_reading.specs.Stop.{Reads};
ghost use Rattle.jv_instance.specs.declared.labels.TheConstants.{PKGOF};
ghost use Rattle.jv_layout.specs.Fits.{fits};
ghost use Rattle.jv_layout.specs.Scopes.{place_of};
ghost use Rattle.jv_names.specs.declared.counts.Counts.TheVariants.{FileTypes};
ghost use Rattle.jv_names.specs.Decided.{decided, decided_with};
ghost use Rattle.jv_names.specs.Ends.{begins_with, is_counted, is_sought, led_by, passes, path_end};
ghost use Rattle.jv_names.specs.Replies.{reply_to};
ghost use Rattle.jv_names.specs.TypeNames.{ends_by, decided_or, on_demand_type, single_type, file_answer, file_type};

use crate::counting::{begins_with, is_seen, is_sought};
use crate::counts::Counts;
use crate::ends::Ends;
use crate::kinds;
use crate::meaning::Meaning;
use crate::oracle::Oracle;
use crate::queries::{ask, for_name};
use crate::scope_list::ScopeList;
use crate::static_kind::StaticKind;
use crate::statics::read_static_members;
use jv_instance::{JavaDatum, JavaPred, labels};
use jv_layout::Layout;
use jv_tree::NameId;
use sg_base::{PathView, Scope};
use sg_query::{Answer, FoundPaths, Query};
use sg_reading::Stop;
use std::alloc::{AllocError, Global};

// ---- what is read from the paths

/// Whether a path to a type of a file counts. It has at most two steps.
fn is_of_file(l: &Layout, path: &PathView<'_>) -> bool
    ensures { result ≡ (fits l.now path.now && (is_sought l.now FileTypes (place_of l.now (path_end path.now)) && passes l.now FileTypes path.now)) }
{
    l.fits(path) && (is_sought(l, Counts::FileTypes, l.place(path.end())) && is_seen(l, path))
}

/// Whether the path at an index counts and begins with a label.
fn begins_at(l: &Layout, label: u8, paths: &FoundPaths<JavaDatum>, k: usize) -> bool
    requires { k < length paths.now }
    ensures { (f : FoundOf JavaDatum) → f ≡ slice_index_or paths.now k f
        → result ≡ (is_counted l.now FileTypes f && begins_with label f.path.steps) }
{
    is_of_file(l, &paths.at(k).path) && begins_with(label, &paths.at(k).path)
}

/// The end of the path at an index, where that path counts and begins with a label.
fn end_at(l: &Layout, label: u8, paths: &FoundPaths<JavaDatum>, k: usize) -> Option<Scope>
    requires { k < length paths.now }
    ensures { ends_by l.now label (drop k paths.now) ≡ led_by result (ends_by l.now label (drop (k + 1) paths.now)) }
{
    let found = paths.at(k);
    if begins_at(l, label, paths, k) {
        Some(found.path.end())
    } else {
        None
    }
}

/// The ends of the paths that count and begin with a label.
fn ends_by(
    alloc: Global,
    l: &Layout,
    label: u8,
    paths: &FoundPaths<JavaDatum>,
) -> Result<ScopeList, AllocError>
    ensures { IfOk result (λ ends. ends ≡ ends_by l.now label paths.now) }
{
    let mut ends = ScopeList::empty(alloc);
    for k in 0..paths.len() {
        if let Some(end) = end_at(l, label, paths, k) {
            ends.push(end)?;
        }
    }
    Ok(ends)
}

/// Whether all scopes are this one.
fn are_all(scope: Scope, scopes: &[Scope]) -> bool
    ensures { result ≡ list_all (is_scope scope) scopes.now }
{
    for other in scopes {
        if scope != *other {
            return false;
        }
    }
    true
}

/// The meaning by some ends, where there are some.
fn decided(ends: &[Scope]) -> Option<Meaning>
    ensures { result ≡ decided ends.now }
{
    match ends.split_first() {
        None => None,
        Some((first, rest)) => {
            if are_all(*first, rest) {
                Some(Meaning::One(*first))
            } else {
                Some(Meaning::Ambiguous)
            }
        }
    }
}

/// The meaning by the ends of a label, where there are some.
fn decided_by(
    alloc: Global,
    l: &Layout,
    label: u8,
    paths: &FoundPaths<JavaDatum>,
) -> Result<Option<Meaning>, AllocError>
    ensures { IfOk result (λ found. found ≡ decided (ends_by l.now label paths.now)) }
{
    let ends = ends_by(alloc, l, label, paths)?;
    Ok(decided(ends.as_slice()))
}

/// Some scopes and others behind them.
fn joined(alloc: Global, front: &[Scope], behind: &[Scope]) -> Result<ScopeList, AllocError>
    ensures { IfOk result (λ all. all ≡ front.now ++ behind.now) }
{
    let mut all = Vec::from_slice(alloc, front)?;
    all.extend_from_slice(behind)?;
    Ok(ScopeList::new(all))
}

/// The meaning by static types with the ends of a label, where there are some or too many paths.
fn decided_with(
    alloc: Global,
    l: &Layout,
    label: u8,
    paths: &FoundPaths<JavaDatum>,
    statics: Ends,
) -> Result<Option<Meaning>, AllocError>
    ensures { IfOk result (λ found. found ≡ decided_with (ends_by l.now label paths.now) statics) }
{
    match statics {
        Ends::TooMany => Ok(Some(Meaning::TooMany)),
        Ends::Scopes(types) => {
            let ends = ends_by(alloc, l, label, paths)?;
            let all = joined(alloc, types.as_slice(), ends.as_slice())?;
            Ok(decided(all.as_slice()))
        }
    }
}

// ---- in turn

/// A type that imports on demand bring.
#[tactic(auto, using(crate::proofs::FileSteps::file_steps))]
fn read_on_demand_type(
    alloc: Global,
    l: &Layout,
    o: &Oracle,
    file: u32,
    name: NameId,
    paths: &FoundPaths<JavaDatum>,
) -> Result<Meaning, Stop<Query<JavaPred>>>
    requires { file < 2 ^ 31 }
    ensures { Reads (reply_to o.now) (on_demand_type l.now file name paths.now) result }
{
    let statics = read_static_members(alloc, l, o, file, true, StaticKind::Types, name)?;
    let found = decided_with(alloc, l, labels::ODI, paths, statics)?;
    match found {
        Some(meaning) => Ok(meaning),
        None => Ok(Meaning::Nothing),
    }
}

/// A type of the file's package, or else one on demand.
#[tactic(auto, using(crate::proofs::FileSteps::file_steps))]
fn read_package_type(
    alloc: Global,
    l: &Layout,
    o: &Oracle,
    file: u32,
    name: NameId,
    paths: &FoundPaths<JavaDatum>,
) -> Result<Meaning, Stop<Query<JavaPred>>>
    requires { file < 2 ^ 31 }
    ensures { Reads (reply_to o.now) (decided_or (ends_by l.now PKGOF paths.now) (on_demand_type l.now file name paths.now)) result }
{
    let found = decided_by(alloc, l, labels::PKGOF, paths)?;
    match found {
        Some(meaning) => Ok(meaning),
        None => read_on_demand_type(alloc, l, o, file, name, paths),
    }
}

/// A type that single imports bring, or else one of the file's package, or else one on demand.
#[tactic(auto, using(crate::proofs::FileSteps::file_steps))]
fn read_single_type(
    alloc: Global,
    l: &Layout,
    o: &Oracle,
    file: u32,
    name: NameId,
    paths: &FoundPaths<JavaDatum>,
) -> Result<Meaning, Stop<Query<JavaPred>>>
    requires { file < 2 ^ 31 }
    ensures { Reads (reply_to o.now) (single_type l.now file name paths.now) result }
{
    let statics = read_static_members(alloc, l, o, file, false, StaticKind::Types, name)?;
    let found = decided_with(alloc, l, labels::SIMP, paths, statics)?;
    match found {
        Some(meaning) => Ok(meaning),
        None => read_package_type(alloc, l, o, file, name, paths),
    }
}

/// By the paths of the answer: the file's own types, single imports, its package, imports on demand.
#[tactic(auto, using(crate::proofs::FileSteps::file_steps))]
fn read_file_paths(
    alloc: Global,
    l: &Layout,
    o: &Oracle,
    file: u32,
    name: NameId,
    paths: &FoundPaths<JavaDatum>,
) -> Result<Meaning, Stop<Query<JavaPred>>>
    requires { file < 2 ^ 31 }
    ensures { Reads (reply_to o.now) (file_answer l.now file name (Paths paths.now)) result }
{
    let found = decided_by(alloc, l, labels::SELF, paths)?;
    match found {
        Some(meaning) => Ok(meaning),
        None => read_single_type(alloc, l, o, file, name, paths),
    }
}

/// By the answer.
#[tactic(auto, using(crate::proofs::FileSteps::file_steps))]
fn read_file_answer(
    alloc: Global,
    l: &Layout,
    o: &Oracle,
    file: u32,
    name: NameId,
    answer: &Answer<JavaDatum>,
) -> Result<Meaning, Stop<Query<JavaPred>>>
    requires { file < 2 ^ 31 }
    ensures { Reads (reply_to o.now) (file_answer l.now file name answer.now) result }
{
    match answer {
        Answer::Paths(paths) => read_file_paths(alloc, l, o, file, name, paths),
        Answer::TooMany => Ok(Meaning::TooMany),
    }
}

/// A type that a file sees by its simple name (JLS 6.4.1, 7.5): one of its own; or else one that its single imports bring; or else
/// one of its package; or else one that its imports on demand bring.
#[tactic(auto, using(crate::proofs::FileSteps::file_steps))]
pub fn file_type(
    alloc: Global,
    l: &Layout,
    o: &Oracle,
    file: u32,
    name: NameId,
) -> Result<Meaning, Stop<Query<JavaPred>>>
    requires { file < 2 ^ 31 }
    ensures { Reads (reply_to o.now) (file_type l.now file name) result }
{
    let answer = ask(o, for_name(kinds::FILETYPE, l.file_scope(file), name))?;
    read_file_answer(alloc, l, o, file, name, answer)
}
