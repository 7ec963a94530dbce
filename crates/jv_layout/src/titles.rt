//! The printed names of scopes.

ghost use Rattle.std.specs.Prelude.{◌≡◌, ◌++◌, length, IfOk, OnOk, Some, None};
ghost use Rattle.std.specs.List.{slice_index_or};
ghost use Rattle.std.specs.String.{string_bytes};
ghost use Rattle.jv_layout.specs.Titles.{outward, following, dotted, package_names, type_names, canonical_names, type_title, member_suffix, member_title, title_of};

use crate::order::text_of;
use crate::place::Place;
use crate::rows::MemberKind;
use crate::tables::Layout;
use jv_tree::{NameId, Names};
use sg_base::Scope;
use std::alloc::{AllocError, Global};

/// Adds a dot and a text for each name, the last name first.
fn add_following(text: &mut String, names: &Names, ids: Vec<NameId>) -> Result<(), AllocError>
    ensures { OnOk result (string_bytes text.new ≡ string_bytes text.old ++ following names.now (outward ids.items)) }
{
    let mut left = ids;
    while let Some(id) = left.pop() {
        text.push('.')?;
        text.push_str(text_of(names, id))?;
    }
    Ok(())
}

/// The texts of names with dots between them, the last name first.
fn dotted(alloc: Global, names: &Names, ids: Vec<NameId>) -> Result<String, AllocError>
    ensures { IfOk result (λ s. string_bytes s ≡ dotted names.now (outward ids.items)) }
{
    let mut left = ids;
    let mut text = String::new(alloc);
    match left.pop() {
        Some(first) => {
            text.push_str(text_of(names, first))?;
            add_following(&mut text, names, left)?;
            Ok(text)
        }
        None => Ok(text),
    }
}

/// Adds what stands behind the name of its type for a field, a method or a constructor.
fn add_suffix(
    text: &mut String,
    names: &Names,
    name: NameId,
    kind: MemberKind,
) -> Result<(), AllocError>
    ensures { OnOk result (string_bytes text.new ≡ string_bytes text.old ++ member_suffix names.now name.0 kind) }
{
    match kind {
        MemberKind::Field => {
            text.push('#')?;
            text.push_str(text_of(names, name))
        }
        MemberKind::Method => {
            text.push('#')?;
            text.push_str(text_of(names, name))?;
            text.push_str("()")
        }
        MemberKind::Ctor => text.push_str("#new"),
        MemberKind::DefaultCtor => text.push_str("#new"),
    }
}

impl Layout {
    /// Adds the simple names of a package and of those that enclose it, innermost first.
    fn add_package_names(
        &self,
        ids: &mut Vec<NameId>,
        package: Option<u32>,
    ) -> Result<(), AllocError>
        ensures { OnOk result (outward ids.new.items
            ≡ package_names self.now (length self.now.packages) «package» ++ outward ids.old.items) }
    {
        let mut at = package;
        let mut left = self.packages.len();
        while left > 0 {
            match at {
                Some(p) => {
                    let row = self.package_row(p);
                    ids.push(row.name)?;
                    at = row.parent;
                }
                None => return Ok(()),
            }
            left -= 1;
        }
        Ok(())
    }

    /// Adds the simple names of a type and of those that enclose it, innermost first.
    fn add_type_names(&self, ids: &mut Vec<NameId>, ty: Option<u32>) -> Result<(), AllocError>
        ensures { OnOk result (outward ids.new.items
            ≡ type_names self.now (length self.now.types) ty ++ outward ids.old.items) }
    {
        let mut at = ty;
        let mut left = self.types.len();
        while left > 0 {
            match at {
                Some(t) => {
                    let row = self.type_row(t);
                    ids.push(row.name)?;
                    at = row.owner;
                }
                None => return Ok(()),
            }
            left -= 1;
        }
        Ok(())
    }

    /// The number of a file's package, and none for the unnamed one.
    fn package_number(&self, f: u32) -> Option<u32>
        ensures { result ≡ slice_index_or self.now.files f None }
    {
        match self.files.get(f as usize) {
            Some(number) => *number,
            None => None,
        }
    }

    /// The canonical name of a type (JLS 6.7).
    fn type_title(&self, alloc: Global, names: &Names, t: u32) -> Result<String, AllocError>
        ensures { IfOk result (λ s. string_bytes s ≡ type_title self.now names.now t) }
    {
        let mut ids = Vec::new(alloc);
        self.add_type_names(&mut ids, Some(t))?;
        let row = self.type_row(t);
        let package = self.package_number(row.file);
        self.add_package_names(&mut ids, package)?;
        dotted(alloc, names, ids)
    }

    /// The title of a member: that of its type, and `#x`, `#m()` or `#new`.
    fn member_title(&self, alloc: Global, names: &Names, m: u32) -> Result<String, AllocError>
        ensures { IfOk result (λ s. string_bytes s ≡ member_title self.now names.now m) }
    {
        let row = self.member_row(m);
        let mut text = self.type_title(alloc, names, row.owner)?;
        add_suffix(&mut text, names, row.name, row.kind)?;
        Ok(text)
    }

    /// The dotted name of a package.
    fn package_title(&self, alloc: Global, names: &Names, p: u32) -> Result<String, AllocError>
        ensures { IfOk result (λ s. string_bytes s ≡ dotted names.now (package_names self.now (length self.now.packages) (Some p))) }
    {
        let mut ids = Vec::new(alloc);
        self.add_package_names(&mut ids, Some(p))?;
        dotted(alloc, names, ids)
    }

    /// The printed name of a scope: a package by its dotted name, a type by its canonical name (JLS 6.7), a signature as
    /// its member with a `!`. A file has none here. It takes time in the length of the title.
    pub fn title(&self, alloc: Global, names: &Names, s: Scope) -> Result<String, AllocError>
        ensures { IfOk result (λ t. string_bytes t ≡ title_of self.now names.now s) }
    {
        match self.place(s) {
            Place::Root => String::from_str(alloc, "(root)"),
            Place::Unnamed => String::from_str(alloc, "(unnamed)"),
            Place::Package(p) => self.package_title(alloc, names, p),
            Place::Ty(t) => self.type_title(alloc, names, t),
            Place::Member(m) => self.member_title(alloc, names, m),
            Place::Signature(m) => {
                let mut text = self.member_title(alloc, names, m)?;
                text.push('!')?;
                Ok(text)
            }
            Place::File(_) => Ok(String::new(alloc)),
            Place::Outside => Ok(String::new(alloc)),
        }
    }
}
