//! What a folder declares twice, and which packages it has, found once.

ghost use Rattle.std.specs.Prelude.{◌≡◌, IfOk};
ghost use Rattle.jv_layout.specs.Declarations.{IsPackages, package_key};
ghost use Rattle.jv_layout.specs.Duplicates.{is_duplicate, has_subpackage};

use crate::firsts::Key;
use crate::place::Place;
use crate::tables::Layout;
use jv_instance::labels;
use jv_tree::NameId;
use sg_base::{Label, Scope};
use std::alloc::{AllocError, Global};
use std::collections::HashSet;
use std::marker::Model;
use std::snapshot::Snapshot;

/// Which types and members of a layout are duplicates, and which packages it has. Contracts see the layout that this was
/// made of.
#[derive(Drop)]
pub struct Declarations {
    layout: Snapshot<Layout>,
    repeated_types: Vec<bool>,
    repeated_members: Vec<bool>,
    packages: HashSet<Key>,
}

impl Model for Declarations {
    ghost use Rattle.jv_layout.specs.Folder.{LayoutOf};
    ghost use Rattle.jv_layout.specs.Declarations.{IsDeclarations};

    ghost Value = { LayoutOf };

    ghost view = { λ a. a.layout.value };

    ghost invariant = { IsDeclarations };
}

/// The key of a package by its name and the scope directly in which it stands.
fn package_key(home: Scope, name: NameId) -> Key
    ensures { result ≡ package_key home name }
{
    Key {
        home,
        label: Label::new(labels::PKG),
        name,
    }
}

impl Layout {
    /// The packages by their keys.
    fn package_keys(&self, alloc: Global) -> Result<HashSet<Key>, AllocError>
        ensures { IfOk result (λ found. IsPackages self.now.packages found.keys) }
    {
        let mut found = HashSet::new(alloc);
        for p in 0..self.packages.len() {
            let key = package_key(self.parent_scope(p), self.packages[p].name);
            let _added = found.insert(key)?;
        }
        Ok(found)
    }

    /// Which types and members are duplicates, and which packages there are (JLS 7.1, 7.6, 8.3, 8.4, 8.5). It takes time
    /// in the rows of the layout.
    pub fn declarations(&self, alloc: Global) -> Result<Declarations, AllocError>
        ensures { IfOk result (λ d. d ≡ self.now) }
    {
        Ok(Declarations {
            layout: Snapshot::of(self),
            repeated_types: self.repeated_types(alloc)?,
            repeated_members: self.repeated_members(alloc)?,
            packages: self.package_keys(alloc)?,
        })
    }
}

impl Declarations {
    /// Whether a type has the name of an earlier one of its package or type, or a field, a method or a constructor that of
    /// an earlier one of its type (JLS 7.6, 8.3, 8.4, 8.5, 8.8). It takes constant time.
    pub fn is_duplicate(&self, l: &Layout, s: Scope) -> bool
        requires { self.now ≡ l.now }
        ensures { result ≡ is_duplicate l.now s }
    {
        match l.place(s) {
            Place::Ty(t) => self.repeated_types[t as usize],
            Place::Member(m) => self.repeated_members[m as usize],
            _ => false,
        }
    }

    /// Whether a package stands under a name directly in the root or in a package (JLS 7.1). It takes constant time.
    pub fn has_subpackage(&self, s: Scope, name: NameId) -> bool
        ensures { result ≡ has_subpackage self.now s name }
    {
        self.packages.contains(&package_key(s, name))
    }
}
