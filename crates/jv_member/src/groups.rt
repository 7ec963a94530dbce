//! The methods of a type by their names.

ghost use Rattle.std.specs.Prelude.{◌≡◌, [], fold, IfOk};
ghost use Rattle.jv_member.specs.Overriding.{name_or_none, method_name, groups_of, with_method};

use indexmap::IndexMap;
use jv_layout::Layout;
use jv_names::ScopeList;
use jv_tree::NameId;
use sg_base::Scope;
use std::alloc::{AllocError, Global};
use std::marker::Model;

/// Methods by their names, in the order of the first method of each name. Contracts see the list of names with their methods.
#[derive(Drop)]
pub struct Groups {
    by_name: IndexMap<NameId, ScopeList>,
}

impl Model for Groups {
    ghost use Rattle.std.specs.Prelude.{List};
    ghost use Rattle.sg_base.specs.declared.scope.Scope.{Scope};
    ghost use Rattle.jv_tree.specs.declared.names.NameId.{NameId};

    ghost Value = { List (NameId × List Scope) };

    ghost view = { λ g. g.by_name.entries };
}

/// The name of a method.
fn method_name(l: &Layout, method: Scope) -> NameId
    ensures { result ≡ method_name l.now method }
{
    match l.simple_name(method) {
        None => NameId(0),
        Some(name) => name,
    }
}

impl Groups {
    ghost use Rattle.std.specs.Prelude.{◌≡◌, [], ◌<◌, length, OnOk, Some, slice_get};
    ghost use Rattle.std.specs.Option.{option_map};
    ghost use Rattle.jv_member.specs.Groups.{copied_group};
    ghost use Rattle.jv_member.specs.Overriding.{with_method};

    /// No method.
    pub fn empty(alloc: Global) -> Groups
        ensures { result ≡ [] }
    {
        Groups {
            by_name: IndexMap::new(alloc),
        }
    }

    /// Adds a method to those of its name. It takes constant time on average.
    pub fn add(&mut self, alloc: Global, l: &Layout, method: Scope) -> Result<(), AllocError>
        ensures { OnOk result (self.new ≡ with_method l.now self.old method) }
    {
        let name = method_name(l, method);
        match self.by_name.get_mut(&name) {
            Some(methods) => methods.push(method)?,
            None => {
                let mut methods = ScopeList::empty(alloc);
                methods.push(method)?;
                self.by_name.insert(name, methods)?;
            }
        }
        Ok(())
    }

    /// How many names there are.
    pub fn len(&self) -> usize
        ensures { result ≡ length self.now }
    {
        self.by_name.len()
    }

    /// The name at a place, with its methods.
    pub fn get(&self, index: usize) -> Option<(NameId, &[Scope])>
        ensures { option_map copied_group result ≡ slice_get self.now index }
    {
        match self.by_name.get_index(index) {
            None => None,
            Some((name, methods)) => Some((*name, methods.as_slice())),
        }
    }
}

/// The methods by name.
pub fn groups_of(alloc: Global, l: &Layout, methods: &[Scope]) -> Result<Groups, AllocError>
    ensures { IfOk result (λ groups. groups ≡ groups_of l.now methods.now) }
{
    let mut groups = Groups::empty(alloc);
    for method in methods {
        groups.add(alloc, l, *method)?;
    }
    Ok(groups)
}
