//! Which types and members are no duplicates.

ghost use Rattle.std.specs.Prelude.{◌≡◌, ◌<◌, ◌≤◌, ◌^◌, length, map, All, IfOk};
ghost use Rattle.jv_layout.specs.Keys.{firsts, repeats, type_key, member_key};
ghost use Rattle.jv_layout.specs.Duplicates.{repeated_types, repeated_members};
ghost use Rattle.jv_layout.specs.Scopes.{scope_count};
ghost use Rattle.jv_layout.specs.Skeleton.{first_types, first_members};

use crate::tables::{Layout, label_of};
use jv_instance::labels;
use jv_tree::NameId;
use sg_base::{Label, Scope};
use std::alloc::{AllocError, Global};
use std::collections::HashSet;

/// What a package or a type may declare only once: the scope that declares it, the label of the edge to it, and its
/// simple name.
#[derive(Clone, Copy, Debug, PartialEq, Eq, Hash)]
pub struct Key {
    pub home: Scope,
    pub label: Label,
    pub name: NameId,
}

/// At each place whether an earlier key is the one that stands there, by one look-up for each.
fn repeats(alloc: Global, keys: &[Key]) -> Result<Vec<bool>, AllocError>
    ensures { IfOk result (λ v. v.items ≡ repeats keys.now) }
{
    let mut seen = HashSet::new(alloc);
    let mut repeats = Vec::new(alloc);
    for key in keys {
        let is_new = seen.insert(*key)?;
        repeats.push(!is_new)?;
    }
    Ok(repeats)
}

/// The places of the keys that no earlier key is.
fn firsts(alloc: Global, keys: &[Key]) -> Result<Vec<u32>, AllocError>
    requires { length keys.now ≤ 2 ^ 32 }
    ensures value { IfOk result (λ v. v.items ≡ firsts keys.now) }
    ensures places { IfOk result (λ v. All (λ i. i < length keys.now) v.items) }
{
    let repeats = repeats(alloc, keys)?;
    let mut firsts = Vec::new(alloc);
    for (place, is_repeat) in repeats.iter().enumerate() {
        if !*is_repeat {
            firsts.push(place as u32)?;
        }
    }
    Ok(firsts)
}

impl Layout {
    /// The keys of types. There are fewer than 2^31 scopes.
    fn type_keys(&self, alloc: Global) -> Result<Vec<Key>, AllocError>
        ensures value { IfOk result (λ v. v.items ≡ map (type_key self.now) self.now.types) }
        ensures few { scope_count self.now < 2 ^ 31 }
    {
        let mut keys = Vec::new(alloc);
        let label = Label::new(labels::TYPE);
        for t in 0..self.types.len() {
            let name = self.types[t].name;
            let home = self.home(t);
            keys.push(Key { home, label, name })?;
        }
        Ok(keys)
    }

    /// The keys of members. There are fewer than 2^31 scopes.
    fn member_keys(&self, alloc: Global) -> Result<Vec<Key>, AllocError>
        ensures value { IfOk result (λ v. v.items ≡ map (member_key self.now) self.now.members) }
        ensures few { scope_count self.now < 2 ^ 31 }
    {
        let mut keys = Vec::new(alloc);
        for m in 0..self.members.len() {
            let row = self.members[m];
            let home = self.type_of_member(m as u32);
            let label = label_of(row.kind);
            keys.push(Key {
                home,
                label,
                name: row.name,
            })?;
        }
        Ok(keys)
    }

    /// The numbers of the types that are no duplicates: no earlier one has its name in its package or type (JLS 7.6, 8.5).
    pub(crate) fn first_types(&self, alloc: Global) -> Result<Vec<u32>, AllocError>
        ensures value { IfOk result (λ v. v.items ≡ first_types self.now) }
        ensures numbers { IfOk result (λ v. All (λ t. t < length self.now.types) v.items) }
    {
        let keys = self.type_keys(alloc)?;
        firsts(alloc, &keys)
    }

    /// The numbers of the members that are no duplicates: no earlier one is a field, a method or a constructor of its
    /// name in its type (JLS 8.3, 8.4, 8.8).
    pub(crate) fn first_members(&self, alloc: Global) -> Result<Vec<u32>, AllocError>
        ensures value { IfOk result (λ v. v.items ≡ first_members self.now) }
        ensures numbers { IfOk result (λ v. All (λ m. m < length self.now.members) v.items) }
    {
        let keys = self.member_keys(alloc)?;
        firsts(alloc, &keys)
    }

    /// For each type whether it is a duplicate (JLS 7.6, 8.5).
    pub(crate) fn repeated_types(&self, alloc: Global) -> Result<Vec<bool>, AllocError>
        ensures { IfOk result (λ v. v.items ≡ repeated_types self.now) }
    {
        let keys = self.type_keys(alloc)?;
        repeats(alloc, &keys)
    }

    /// For each member whether it is a duplicate (JLS 8.3, 8.4, 8.8).
    pub(crate) fn repeated_members(&self, alloc: Global) -> Result<Vec<bool>, AllocError>
        ensures { IfOk result (λ v. v.items ≡ repeated_members self.now) }
    {
        let keys = self.member_keys(alloc)?;
        repeats(alloc, &keys)
    }
}
