//! Packages compared by the first files that name them.

ghost use Rattle.std.specs.Prelude.{◌≡◌, ◌≤◌, true, List, map, take, drop};
ghost use Rattle.jv_tree.specs.DeclTree.{UnitTree, tree_of};
ghost use Rattle.jv_layout.specs.Folder.{path_cmp, numbers_of};
ghost use Rattle.jv_layout.specs.Paths.{clause_at, path_at, first_file, AreFirstFiles};

use crate::order::path_cmp;
use crate::packages::{Prefix, path};
use jv_tree::{Ident, Names, Unit};
use std::cmp::Ordering;

/// The first file whose clause begins with the first names of a file's clause, where the table has one.
fn first_file(firsts: &[Vec<u32>], file: u32, len: u32) -> Option<u32>
    ensures { result ≡ first_file (map (λ v. v.items) firsts.now) file len }
{
    if len == 0 {
        return None;
    }
    match firsts.get(file as usize) {
        Some(row) => row.get(len as usize - 1).copied(),
        None => None,
    }
}

/// Whether the clauses of two files begin with the same names, so many, as the table has it.
fn begin_alike(firsts: &[Vec<u32>], a: u32, b: u32, len: u32) -> bool
    ensures { result ≡ true → (units : List UnitTree) → AreFirstFiles units (map (λ v. v.items) firsts.now)
        → take len (clause_at units a) ≡ take len (clause_at units b) }
{
    match first_file(firsts, a, len) {
        Some(file) => match first_file(firsts, b, len) {
            Some(other) => file == other,
            None => false,
        },
        None => false,
    }
}

/// With how many same names two packages begin. It takes a step for each halving of their lengths, and one where they are
/// of one clause.
fn shared(firsts: &[Vec<u32>], a: Prefix, b: Prefix) -> u32
    ensures left { result ≤ a.len }
    ensures right { result ≤ b.len }
    ensures same { (units : List UnitTree) → AreFirstFiles units (map (λ v. v.items) firsts.now)
        → take result (clause_at units a.file) ≡ take result (clause_at units b.file) }
{
    let mut low = 0;
    let mut high = a.len.min(b.len);
    if a.file == b.file {
        return high;
    }
    while low < high {
        let middle = high - (high - low) / 2;
        if begin_alike(firsts, a.file, b.file, middle) {
            low = middle;
        } else {
            high = middle - 1;
        }
    }
    low
}

/// The names behind so many.
fn behind<'a>(names: &'a [Ident], count: u32) -> &'a [Ident]
    ensures { numbers_of result.now ≡ drop count (numbers_of names.now) }
{
    if count as usize <= names.len() {
        &names[count as usize..]
    } else {
        &[]
    }
}

/// The order of two packages by dotted name. It takes a step for each halving of their lengths, and time in the two
/// names in which they first differ.
pub fn compare(names: &Names, files: &[Unit], firsts: &[Vec<u32>], a: Prefix, b: Prefix) -> Ordering
    requires { AreFirstFiles (map tree_of files.now) (map (λ v. v.items) firsts.now) }
    ensures { result ≡ path_cmp names.now (path_at (map tree_of files.now) a) (path_at (map tree_of files.now) b) }
{
    let same = shared(firsts, a, b);
    path_cmp(
        names,
        behind(path(files, a), same),
        behind(path(files, b), same),
    )
}
