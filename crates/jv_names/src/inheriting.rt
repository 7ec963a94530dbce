//! Which members a type inherits.

ghost use Rattle.std.specs.Prelude.{◌≡◌, ◌<◌, ◌≤◌, true, length, slice_index_or, take};
ghost use Rattle.sg_query.specs.declared.found.Found.{Found as FoundOf};
ghost use Rattle.jv_layout.specs.Readers.{package_of};
ghost use Rattle.jv_names.specs.Inherited.{declarer, has_no_super, lies_in, stays_in_package, inherited_by, is_stray, is_inherited, IsStaying, AreLeftInside};

use jv_instance::{Access, JavaDatum, labels};
use jv_layout::Layout;
use sg_base::{PathView, Scope};
use sg_query::FoundPaths;

/// The scope that the last step leaves.
fn declarer(path: &PathView<'_>) -> Scope
    ensures { result ≡ declarer path.now.start path.now.steps }
{
    match path.split_last() {
        None => path.start(),
        Some((before, _)) => before.end(),
    }
}

/// Whether no step goes to a supertype.
fn has_no_super(path: &PathView<'_>) -> bool
    ensures { result ≡ has_no_super path.now.steps }
{
    let mut at = path.copy();
    while let Some((before, step)) = at.split_last() {
        if step.label.number() == labels::EXT {
            return false;
        }
        at = before;
    }
    true
}

/// Whether each scope that the steps leave lies in the package of the one that declares the member, where the scopes that so
/// many steps at the beginning leave are known to.
fn stays_behind(l: &Layout, path: &PathView<'_>, known: usize) -> bool
    requires within { known ≤ length path.now.steps }
    requires front { lies_in l.now (package_of l.now (declarer path.now.start path.now.steps)) path.now.start (take known path.now.steps) ≡ true }
    ensures { result ≡ stays_in_package l.now path.now.start path.now.steps }
{
    let home = l.package_of(declarer(path));
    let mut at = path.copy();
    while at.len() > known {
        if let Some((before, _)) = at.split_last() {
            if l.package_of(before.end()) != home {
                return false;
            }
            at = before;
        }
    }
    true
}

/// Whether the path ends in a static method of an interface and goes to a supertype. Only where it ends in one the steps are
/// looked at.
fn is_stray(l: &Layout, path: &PathView<'_>) -> bool
    ensures { result ≡ is_stray l.now path.now }
{
    let end = path.end();
    l.is_interface_method(end) && l.is_static(end) && !has_no_super(path)
}

/// Whether the member at the path's end is a member of the type at its start (JLS 8.2): it is public or protected; or
/// private and declared in that type itself; or of package access, and each type on the path lies in the package of the one
/// that declares it. A static method of an interface is a member of that interface alone (JLS 8.4.8, 9.4.1). It takes time in
/// the length of the path, and no memory.
pub fn inherited(l: &Layout, path: &PathView<'_>) -> bool
    ensures { result ≡ is_inherited l.now path.now }
{
    if is_stray(l, path) {
        return false;
    }
    match l.access(path.end()) {
        Access::Public => true,
        Access::Protected => true,
        Access::Package => stays_behind(l, path, 0),
        Access::Private => has_no_super(path),
    }
}

/// How many steps at the beginning of the path at an index are known to leave scopes in the package of the one that declares
/// the member, since those of another path do.
fn known_to_stay(
    l: &Layout,
    paths: &FoundPaths<JavaDatum>,
    staying: Option<usize>,
    k: usize,
) -> usize
    requires below { k < length paths.now }
    requires staying { IsStaying l.now paths.now staying }
    ensures { AreLeftInside l.now paths.now k result }
{
    let Some(j) = staying else { return 0 };
    let path = paths.at(k).path;
    let other = paths.at(j).path;
    if l.package_of(declarer(&other)) == l.package_of(declarer(&path)) {
        paths.shared_len(j, k)
    } else {
        0
    }
}

/// Whether the path at an index is inherited, and an index of a path that stays in one package, where one was given or this
/// one does. It takes time in the number of its steps behind those that it shares with the given one, and in that of all its
/// steps where it ends in a private member or a static method of an interface, and no memory.
pub(crate) fn inherited_along(
    l: &Layout,
    paths: &FoundPaths<JavaDatum>,
    staying: Option<usize>,
    k: usize,
) -> (bool, Option<usize>)
    requires below { k < length paths.now }
    requires staying { IsStaying l.now paths.now staying }
    ensures inherited { (f : FoundOf JavaDatum) → f ≡ slice_index_or paths.now k f → result.0 ≡ is_inherited l.now f.path }
    ensures staying { IsStaying l.now paths.now result.1 }
{
    let path = paths.at(k).path;
    if is_stray(l, &path) {
        return (false, staying);
    }
    match l.access(path.end()) {
        Access::Package => {
            let known = known_to_stay(l, paths, staying, k);
            if stays_behind(l, &path, known) {
                (true, Some(k))
            } else {
                (false, staying)
            }
        }
        _ => (inherited(l, &path), staying),
    }
}
