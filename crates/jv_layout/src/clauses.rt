//! The packages that clauses name, each once, in the order of the clauses.

ghost use Rattle.std.specs.Prelude.{◌≡◌, ℕ, ◌+◌, ◌<◌, ◌^◌, Some, [], ◌∷◌, length, map, take, IfOk, OnOk};
ghost use Rattle.std.specs.List.{slice_get, slice_index_or, flat_map};
ghost use Rattle.jv_tree.specs.DeclTree.{tree_of};
ghost use Rattle.jv_layout.specs.Folder.{prefixes, clause_of};
ghost use Rattle.jv_layout.specs.Paths.{clause_at, path_at, BeginAlike, AreFirstFiles};
ghost use Rattle.jv_layout.specs.Steps.{steps_in, AreSteps, FindsSame, FindsAdded};

use crate::packages::{Prefix, clause};
use jv_tree::{NameId, Unit};
use std::alloc::{AllocError, Global};
use std::collections::HashMap;

/// A package by that in which it directly stands, the first names of a file's clause, and its own name.
#[derive(Clone, Copy, Debug, PartialEq, Eq, Hash)]
struct Step {
    file: u32,
    len: u32,
    name: NameId,
}

/// What the clauses of files name.
#[derive(Drop)]
pub struct Clauses {
    /// Each package once, where a clause first names it.
    pub packages: Vec<Prefix>,
    /// For each file and each number of first names of its clause, the first file whose clause begins with the same.
    pub firsts: Vec<Vec<u32>>,
}

/// The name behind the first names of a file's clause.
fn next_name(files: &[Unit], p: Prefix) -> NameId
    requires { p.len < length (clause_at (map tree_of files.now) p.file) }
    ensures { result.0 ≡ slice_index_or (clause_at (map tree_of files.now) p.file) p.len 0 }
{
    clause(files, p.file)[p.len as usize].id
}

/// The first file whose clause names a package, given that which first names the one in which it stands. It adds the
/// package where none does yet.
fn first_naming(
    files: &[Unit],
    found: &mut HashMap<Step, u32>,
    packages: &mut Vec<Prefix>,
    outer: u32,
    p: Prefix,
) -> Result<u32, AllocError>
    requires within { p.len < length (clause_at (map tree_of files.now) p.file) }
    requires few { p.len + 1 < 2 ^ 32 }
    requires outer { take p.len (clause_at (map tree_of files.now) outer) ≡ take p.len (clause_at (map tree_of files.now) p.file) }
    requires steps { AreSteps (map tree_of files.now) (steps_in found.old.entries) packages.old.items }
    ensures first { IfOk result (λ f. take (p.len + 1) (clause_at (map tree_of files.now) f) ≡ take (p.len + 1) (clause_at (map tree_of files.now) p.file)) }
    ensures steps { OnOk result (AreSteps (map tree_of files.now) (steps_in found.new.entries) packages.new.items) }
    ensures packages { OnOk result (FindsAdded files.now packages.old.items packages.new.items (take (p.len + 1) (clause_at (map tree_of files.now) p.file) ∷ [])) }
{
    let step = Step {
        file: outer,
        len: p.len,
        name: next_name(files, p),
    };
    if let Some(first) = found.get(&step) {
        return Ok(*first);
    }
    packages.push(Prefix {
        file: p.file,
        len: p.len + 1,
    })?;
    found.insert(step, p.file)?;
    Ok(p.file)
}

/// For each number of first names of a file's clause, the first file whose clause begins with the same. It adds the
/// packages that no clause before names.
fn first_files(
    alloc: Global,
    files: &[Unit],
    found: &mut HashMap<Step, u32>,
    packages: &mut Vec<Prefix>,
    file: u32,
) -> Result<Vec<u32>, AllocError>
    requires few { length (clause_at (map tree_of files.now) file) < 2 ^ 28 }
    requires steps { AreSteps (map tree_of files.now) (steps_in found.old.entries) packages.old.items }
    ensures firsts { IfOk result (λ v. (k h : ℕ) → slice_get v.items k ≡ Some h
        → BeginAlike (map tree_of files.now) h file (k + 1)) }
    ensures steps { OnOk result (AreSteps (map tree_of files.now) (steps_in found.new.entries) packages.new.items) }
    ensures packages { OnOk result (FindsAdded files.now packages.old.items packages.new.items (prefixes (clause_at (map tree_of files.now) file))) }
{
    let count = clause(files, file).len() as u32;
    let mut firsts = Vec::new(alloc);
    let mut outer = 0;
    for len in 0..count {
        outer = first_naming(files, found, packages, outer, Prefix { file, len })?;
        firsts.push(outer)?;
    }
    Ok(firsts)
}

/// The packages that the clauses of files name, by a look-up for each name in a clause.
pub fn read_clauses(alloc: Global, files: &[Unit]) -> Result<Clauses, AllocError>
    requires few { (f : ℕ) → length (clause_at (map tree_of files.now) f) < 2 ^ 28 }
    requires files { length files.now < 2 ^ 32 }
    ensures packages { IfOk result (λ n. FindsSame (map (path_at (map tree_of files.now)) n.packages.items)
        (flat_map (λ u. prefixes (clause_of u)) (map tree_of files.now))) }
    ensures firsts { IfOk result (λ n. AreFirstFiles (map tree_of files.now) (map (λ v. v.items) n.firsts.items)) }
{
    let mut found = HashMap::new(alloc);
    let mut packages = Vec::new(alloc);
    let mut firsts = Vec::new(alloc);
    for file in 0..files.len() {
        firsts.push(first_files(alloc, files, &mut found, &mut packages, file as u32)?)?;
    }
    Ok(Clauses { packages, firsts })
}
