//! Which paths of an answer count.

ghost use Rattle.std.specs.Prelude.{◌≡◌, ◌+◌, ◌<◌, drop, length, slice_index_or};
ghost use Rattle.sg_query.specs.declared.found.Found.{Found as FoundOf};
ghost use Rattle.jv_layout.specs.Fits.{fits};
ghost use Rattle.jv_names.specs.Ends.{opens_to, begins_with, is_seen, is_sought, passes, is_counted, counted_ends, led_by};
ghost use Rattle.jv_names.specs.Inherited.{IsStaying};
ghost use Rattle.jv_names.specs.Known.{IsFitting, AreKnown};

use crate::counts::Counts;
use crate::inheriting::inherited_along;
use crate::known_paths::KnownPaths;
use jv_instance::{Access, JavaDatum, labels};
use jv_layout::{Layout, Place};
use sg_base::{PathView, Scope};
use sg_query::FoundPaths;

/// Whether a type may be imported on demand into a package, by its access.
pub(crate) fn opens_to(l: &Layout, access: Access, outer: Scope, t: Scope) -> bool
    ensures { result ≡ opens_to l.now access outer t }
{
    match access {
        Access::Public => true,
        Access::Protected => l.package_of(t) == outer,
        Access::Package => l.package_of(t) == outer,
        Access::Private => false,
    }
}

/// Whether the first step has a label. It takes time in the number of steps.
pub(crate) fn begins_with(label: u8, path: &PathView<'_>) -> bool
    ensures { result ≡ begins_with label path.now.steps }
{
    let mut found = false;
    let mut at = path.copy();
    while let Some((before, step)) = at.split_last() {
        found = step.label.number() == label;
        at = before;
    }
    found
}

/// Whether a file sees the type at a path's end.
pub(crate) fn is_seen(l: &Layout, path: &PathView<'_>) -> bool
    ensures { result ≡ is_seen l.now path.now }
{
    if !begins_with(labels::ODI, path) {
        return true;
    }
    let end = path.end();
    opens_to(l, l.access(end), l.package_of(path.start()), end)
}

/// Whether what is looked for stands at a place.
pub(crate) fn is_sought(l: &Layout, counts: Counts, place: Place) -> bool
    ensures { result ≡ is_sought l.now counts place }
{
    match counts {
        Counts::OwnPackages => matches!(place, Place::Unnamed | Place::Package(_)),
        Counts::OwnTypes | Counts::MemberTypes | Counts::FileTypes | Counts::Supertypes => {
            matches!(place, Place::Ty(_))
        }
        Counts::Fields => l.is_member_by(labels::FIELD, place),
        Counts::Methods => l.is_member_by(labels::METH, place),
        Counts::Constructors => l.is_member_by(labels::CTOR, place),
    }
}

/// Whether the path at an index is inherited or seen, where that is asked, and an index of a path that stays in one package,
/// where one was given or this one does.
fn passes(
    l: &Layout,
    counts: Counts,
    paths: &FoundPaths<JavaDatum>,
    staying: Option<usize>,
    k: usize,
) -> (bool, Option<usize>)
    requires below { k < length paths.now }
    requires staying { IsStaying l.now paths.now staying }
    ensures passes { (f : FoundOf JavaDatum) → f ≡ slice_index_or paths.now k f → result.0 ≡ passes l.now counts f.path }
    ensures staying { IsStaying l.now paths.now result.1 }
{
    match counts {
        Counts::MemberTypes | Counts::Fields | Counts::Methods => {
            inherited_along(l, paths, staying, k)
        }
        Counts::FileTypes => (is_seen(l, &paths.at(k).path), staying),
        _ => (true, staying),
    }
}

/// Whether the path at an index fits the layout.
fn fits_along(l: &Layout, paths: &FoundPaths<JavaDatum>, fitting: Option<usize>, k: usize) -> bool
    requires below { k < length paths.now }
    requires fitting { IsFitting l.now paths.now fitting }
    ensures { (f : FoundOf JavaDatum) → f ≡ slice_index_or paths.now k f → result ≡ fits l.now f.path }
{
    let path = paths.at(k).path;
    match fitting {
        None => l.fits(&path),
        Some(j) => l.fits_behind(&path, paths.shared_len(j, k)),
    }
}

/// The end of the path at an index, where that path counts, and what is known of the paths to it. It takes time in the number
/// of its steps behind those that it shares with the paths that are known, and no memory.
pub(crate) fn counted_end(
    l: &Layout,
    counts: Counts,
    paths: &FoundPaths<JavaDatum>,
    known: KnownPaths,
    k: usize,
) -> (Option<Scope>, KnownPaths)
    requires below { k < length paths.now }
    requires known { AreKnown l.now paths.now known }
    ensures end { counted_ends l.now counts (drop k paths.now) ≡ led_by result.0 (counted_ends l.now counts (drop (k + 1) paths.now)) }
    ensures known { AreKnown l.now paths.now result.1 }
{
    let found = paths.at(k);
    if !fits_along(l, paths, known.fitting, k) {
        return (None, known);
    }
    let fitting = Some(k);
    let end = found.path.end();
    if !is_sought(l, counts, l.place(end)) {
        let staying = known.staying;
        return (None, KnownPaths { fitting, staying });
    }
    let (passes, staying) = passes(l, counts, paths, known.staying, k);
    let end = if passes { Some(end) } else { None };
    (end, KnownPaths { fitting, staying })
}
