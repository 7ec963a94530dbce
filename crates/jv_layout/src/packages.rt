//! The packages of a folder, by dotted name.

ghost use Rattle.std.specs.Prelude.{◌≡◌, ℕ, ◌-◌, ◌<◌, ◌^◌, true, [], length, map, take, fold, Err, IfOk, OnOk};
ghost use Rattle.std.specs.List.{slice_index_or};
ghost use Rattle.sg_base.specs.List.{IsRising};
ghost use Rattle.sg_state.specs.Held.{put};
ghost use Rattle.jv_tree.specs.DeclTree.{tree_of};
ghost use Rattle.jv_layout.specs.Folder.{path_cmp, paths_of, package_row, file_row, numbers_of, place_among};
ghost use Rattle.jv_layout.specs.declared.packages.Prefix.{Prefix as PrefixOf};
ghost use Rattle.jv_layout.specs.Paths.{clause_at, path_at, prefix_paths, IsSearched, AreFirstFiles};

use crate::clauses::{Clauses, read_clauses};
use crate::compare::compare;
use crate::rows::PackageRow;
use jv_tree::{Ident, NameId, Names, Unit};
use std::alloc::{AllocError, Global};
use std::cmp::Ordering;

/// The first names of a file's package clause.
#[derive(Clone, Copy, Debug, PartialEq, Eq)]
pub struct Prefix {
    pub file: u32,
    pub len: u32,
}

/// The packages of a folder.
#[derive(Drop)]
pub struct Packages {
    /// The packages by dotted name, each once.
    pub paths: Vec<Prefix>,
    /// For each file and each number of first names of its clause, the first file whose clause begins with the same.
    pub firsts: Vec<Vec<u32>>,
}

/// The names in the package clause of the file with a number.
pub(crate) fn clause<'a>(files: &'a [Unit], file: u32) -> &'a [Ident]
    ensures { numbers_of result.now ≡ clause_at (map tree_of files.now) file }
{
    match files.get(file as usize) {
        Some(unit) => match &unit.package {
            Some(name) => name.ids.as_slice(),
            None => &[],
        },
        None => &[],
    }
}

/// The names of a package.
pub(crate) fn path<'a>(files: &'a [Unit], p: Prefix) -> &'a [Ident]
    ensures { numbers_of result.now ≡ path_at (map tree_of files.now) p }
{
    let names = clause(files, p.file);
    if p.len as usize <= names.len() {
        &names[..p.len as usize]
    } else {
        names
    }
}

/// The package at a place.
fn prefix_at(paths: &[Prefix], i: usize) -> Prefix
    requires { i < length paths.now }
    ensures { (d : PrefixOf) → slice_index_or paths.now i d ≡ result }
{
    paths[i]
}

/// Where a package stands among packages by dotted name, or would stand. It takes a comparison for each halving.
fn search(
    names: &Names,
    files: &[Unit],
    firsts: &[Vec<u32>],
    paths: &[Prefix],
    wanted: Prefix,
) -> Result<usize, usize>
    requires firsts { AreFirstFiles (map tree_of files.now) (map (λ v. v.items) firsts.now) }
    requires rising { IsRising (path_cmp names.now) (map (path_at (map tree_of files.now)) paths.now) }
    ensures { IsSearched (path_cmp names.now) (map (path_at (map tree_of files.now)) paths.now) (path_at (map tree_of files.now) wanted) result }
{
    let mut low = 0;
    let mut high = paths.len();
    while low < high {
        let middle = low + (high - low) / 2;
        match compare(names, files, firsts, wanted, prefix_at(paths, middle)) {
            Ordering::Equal => return Ok(middle),
            Ordering::Less => high = middle,
            Ordering::Greater => low = middle + 1,
        }
    }
    Err(low)
}

/// Whether the name of a package is greater than those of all packages by dotted name.
fn is_behind(
    names: &Names,
    files: &[Unit],
    firsts: &[Vec<u32>],
    paths: &[Prefix],
    p: Prefix,
) -> bool
    requires firsts { AreFirstFiles (map tree_of files.now) (map (λ v. v.items) firsts.now) }
    requires rising { IsRising (path_cmp names.now) (map (path_at (map tree_of files.now)) paths.now) }
    ensures { result ≡ true → IsSearched (path_cmp names.now) (map (path_at (map tree_of files.now)) paths.now) (path_at (map tree_of files.now) p)
        (Err (length paths.now)) }
{
    match paths.len().checked_sub(1) {
        Some(last) => match compare(names, files, firsts, p, prefix_at(paths, last)) {
            Ordering::Greater => true,
            _ => false,
        },
        None => true,
    }
}

/// Where a package stands among packages by dotted name, or would stand. It takes one comparison where that is behind all.
fn place(
    names: &Names,
    files: &[Unit],
    firsts: &[Vec<u32>],
    paths: &[Prefix],
    p: Prefix,
) -> Result<usize, usize>
    requires firsts { AreFirstFiles (map tree_of files.now) (map (λ v. v.items) firsts.now) }
    requires rising { IsRising (path_cmp names.now) (map (path_at (map tree_of files.now)) paths.now) }
    ensures { IsSearched (path_cmp names.now) (map (path_at (map tree_of files.now)) paths.now) (path_at (map tree_of files.now) p) result }
{
    if is_behind(names, files, firsts, paths, p) {
        Err(paths.len())
    } else {
        search(names, files, firsts, paths, p)
    }
}

/// Puts a package where its name stands, if it is not there.
fn add(
    names: &Names,
    files: &[Unit],
    firsts: &[Vec<u32>],
    paths: &mut Vec<Prefix>,
    p: Prefix,
) -> Result<(), AllocError>
    requires firsts { AreFirstFiles (map tree_of files.now) (map (λ v. v.items) firsts.now) }
    requires rising { IsRising (path_cmp names.now) (map (path_at (map tree_of files.now)) paths.old.items) }
    ensures put { OnOk result (prefix_paths files.now paths.new.items
        ≡ put (path_cmp names.now) (prefix_paths files.now paths.old.items) (path_at (map tree_of files.now) p)) }
    ensures rising { OnOk result (IsRising (path_cmp names.now) (map (path_at (map tree_of files.now)) paths.new.items)) }
{
    match place(names, files, firsts, paths, p) {
        Ok(_) => Ok(()),
        Err(at) => Ok(paths.insert(at, p)?),
    }
}

/// The packages by dotted name, those with one name in the order in which they stand.
fn sorted(
    names: &Names,
    files: &[Unit],
    firsts: &[Vec<u32>],
    packages: Vec<Prefix>,
) -> Result<Vec<Prefix>, AllocError>
    requires { AreFirstFiles (map tree_of files.now) (map (λ v. v.items) firsts.now) }
    ensures { IfOk result (λ v. fold (put (path_cmp names.now)) [] (prefix_paths files.now v.items)
        ≡ fold (put (path_cmp names.now)) [] (prefix_paths files.now packages.items)) }
{
    let mut paths = packages;
    paths.sort_by(|a, b| compare(names, files, firsts, *a, *b))?;
    Ok(paths)
}

/// The packages by dotted name, each name once, where its first one stands. Each is put at the end where they are sorted.
fn each_once(
    alloc: Global,
    names: &Names,
    files: &[Unit],
    firsts: &[Vec<u32>],
    packages: &[Prefix],
) -> Result<Vec<Prefix>, AllocError>
    requires { AreFirstFiles (map tree_of files.now) (map (λ v. v.items) firsts.now) }
    ensures paths { IfOk result (λ v. map (path_at (map tree_of files.now)) v.items
        ≡ fold (put (path_cmp names.now)) [] (map (path_at (map tree_of files.now)) packages.now)) }
    ensures rising { IfOk result (λ v. IsRising (path_cmp names.now) (map (path_at (map tree_of files.now)) v.items)) }
{
    let mut paths = Vec::new(alloc);
    for p in packages {
        add(names, files, firsts, &mut paths, *p)?;
    }
    Ok(paths)
}

/// The packages that the clauses of files name, by dotted name, each once. Those of n names in clauses take n look-ups
/// and n log n comparisons.
pub fn paths(alloc: Global, names: &Names, files: &[Unit]) -> Result<Packages, AllocError>
    requires few { (f : ℕ) → length (clause_at (map tree_of files.now) f) < 2 ^ 28 }
    requires files { length files.now < 2 ^ 32 }
    ensures paths { IfOk result (λ p. map (path_at (map tree_of files.now)) p.paths.items ≡ paths_of names.now (map tree_of files.now)) }
    ensures rising { IfOk result (λ p. IsRising (path_cmp names.now) (map (path_at (map tree_of files.now)) p.paths.items)) }
    ensures firsts { IfOk result (λ p. AreFirstFiles (map tree_of files.now) (map (λ v. v.items) p.firsts.items)) }
{
    let Clauses { packages, firsts } = read_clauses(alloc, files)?;
    let sorted = sorted(names, files, &firsts, packages)?;
    let paths = each_once(alloc, names, files, &firsts, &sorted)?;
    Ok(Packages { paths, firsts })
}

/// The number of a package, where its dotted name is one of them.
fn number(
    names: &Names,
    files: &[Unit],
    firsts: &[Vec<u32>],
    paths: &[Prefix],
    wanted: Prefix,
) -> Option<u32>
    requires firsts { AreFirstFiles (map tree_of files.now) (map (λ v. v.items) firsts.now) }
    requires rising { IsRising (path_cmp names.now) (map (path_at (map tree_of files.now)) paths.now) }
    requires few { length paths.now < 2 ^ 32 }
    ensures { result ≡ place_among names.now (map (path_at (map tree_of files.now)) paths.now) (path_at (map tree_of files.now) wanted) }
{
    match search(names, files, firsts, paths, wanted) {
        Ok(at) => Some(at as u32),
        Err(_) => None,
    }
}

/// The package in which a package directly stands, and its simple name.
fn outer(files: &[Unit], p: Prefix) -> (Prefix, NameId)
    ensures outer { path_at (map tree_of files.now) result.0
        ≡ take (length (path_at (map tree_of files.now) p) - 1) (path_at (map tree_of files.now) p) }
    ensures name { result.1.0 ≡ slice_index_or (path_at (map tree_of files.now) p) (length (path_at (map tree_of files.now) p) - 1) 0 }
{
    let (len, name) = match path(files, p) {
        [] => (0, NameId(0)),
        [outer @ .., last] => (outer.len() as u32, last.id),
    };
    (Prefix { file: p.file, len }, name)
}

/// The row of a package.
fn row(
    names: &Names,
    files: &[Unit],
    firsts: &[Vec<u32>],
    paths: &[Prefix],
    p: Prefix,
) -> PackageRow
    requires firsts { AreFirstFiles (map tree_of files.now) (map (λ v. v.items) firsts.now) }
    requires rising { IsRising (path_cmp names.now) (map (path_at (map tree_of files.now)) paths.now) }
    requires few { length paths.now < 2 ^ 32 }
    ensures { result ≡ package_row names.now (map (path_at (map tree_of files.now)) paths.now) (path_at (map tree_of files.now) p) }
{
    let (outer, name) = outer(files, p);
    PackageRow {
        parent: number(names, files, firsts, paths, outer),
        name,
    }
}

/// The rows of the packages.
pub fn package_rows(
    alloc: Global,
    names: &Names,
    files: &[Unit],
    firsts: &[Vec<u32>],
    paths: &[Prefix],
) -> Result<Vec<PackageRow>, AllocError>
    requires firsts { AreFirstFiles (map tree_of files.now) (map (λ v. v.items) firsts.now) }
    requires rising { IsRising (path_cmp names.now) (map (path_at (map tree_of files.now)) paths.now) }
    requires few { length paths.now < 2 ^ 32 }
    ensures { IfOk result (λ v. v.items ≡ map (λ p. package_row names.now (map (path_at (map tree_of files.now)) paths.now)
        (path_at (map tree_of files.now) p)) paths.now) }
{
    let mut rows = Vec::new(alloc);
    for p in paths {
        rows.push(row(names, files, firsts, paths, *p))?;
    }
    Ok(rows)
}

/// The package that a file's whole clause names.
fn own(files: &[Unit], file: u32) -> Prefix
    requires { length (clause_at (map tree_of files.now) file) < 2 ^ 28 }
    ensures { path_at (map tree_of files.now) result ≡ clause_at (map tree_of files.now) file }
{
    Prefix {
        file,
        len: clause(files, file).len() as u32,
    }
}

/// The package of each file.
pub fn file_rows(
    alloc: Global,
    names: &Names,
    files: &[Unit],
    firsts: &[Vec<u32>],
    paths: &[Prefix],
) -> Result<Vec<Option<u32>>, AllocError>
    requires clauses { (f : ℕ) → length (clause_at (map tree_of files.now) f) < 2 ^ 28 }
    requires files { length files.now < 2 ^ 32 }
    requires firsts { AreFirstFiles (map tree_of files.now) (map (λ v. v.items) firsts.now) }
    requires rising { IsRising (path_cmp names.now) (map (path_at (map tree_of files.now)) paths.now) }
    requires few { length paths.now < 2 ^ 32 }
    ensures { IfOk result (λ v. v.items ≡ map (λ u. file_row names.now (map (path_at (map tree_of files.now)) paths.now)
        (tree_of u)) files.now) }
{
    let mut rows = Vec::new(alloc);
    for file in 0..files.len() {
        let own = own(files, file as u32);
        rows.push(number(names, files, firsts, paths, own))?;
    }
    Ok(rows)
}
