ghost use Rattle.std.specs.Prelude.{◌≡◌, ◌+◌, ◌-◌, ◌<◌, ◌≤◌, ◌^◌, length, map, IfOk, Option};
ghost use Rattle.std.specs.List.{range_with_len};
ghost use Rattle.jv_layout.specs.Folder.{LayoutOf};
ghost use Rattle.jv_layout.specs.Readers.{type_at, member_at, owner_of, file_package, lies_in_interface, is_static_type, type_access};
ghost use Rattle.jv_layout.specs.Skeleton.{label_of, package_row_at};
ghost use Rattle.jv_layout.specs.Scopes.{place_of, first_file, first_type, first_member, first_signature, scope_count, package_scope, file_scope, type_scope, member_scope, signature_of_member, unnamed_scope, root_scope, scope_at, place_at, IsPlace};

use crate::place::Place;
use crate::rows::{MemberKind, MemberRow, Modifiers, PackageRow, TypeRow};
use jv_instance::labels;
use jv_tree::{Import, NameId};
use sg_base::{Label, Scope};
use std::alloc::{AllocError, Global};
use std::marker::Model;

/// The scopes of a folder: what each is and where it stands. Contracts see the rows of packages, files, types and
/// members and the static imports of the files (`LayoutOf`), which are those that the trees of the files have.
///
/// Scopes have the unit `u32::MAX` and serials in this order: the root, the unnamed package, packages by dotted name,
/// files, types, members (fields, methods and constructors), and one signature scope for each member. Types and members
/// stand file by file as the text has them. A reader tells nothing of a scope that is not one of the layout, or not of
/// the kind it speaks of: it answers false, none, or the scope itself, as its definition says.
#[derive(Drop)]
pub struct Layout {
    pub(crate) packages: Vec<PackageRow>,
    pub(crate) files: Vec<Option<u32>>,
    pub(crate) types: Vec<TypeRow>,
    pub(crate) members: Vec<MemberRow>,
    pub(crate) statics: Vec<Vec<Import>>,
    pub(crate) type_scopes: Vec<Scope>,
    pub(crate) member_scopes: Vec<Vec<Scope>>,
}

impl Model for Layout {
    ghost use Rattle.std.specs.Prelude.{◌≡◌, ◌≤◌};
    ghost use Rattle.jv_layout.specs.Folder.{LayoutOf};

    ghost Value = { LayoutOf };

    ghost use Rattle.jv_layout.specs.Tables.{layout_in, IsTables};

    ghost view = { layout_in };

    ghost invariant = { IsTables };
}

/// The number of a scope's unit where no unit made it.
const NOBODY: u32 = u32::MAX;

/// The label of a member's edge.
pub fn label_of(kind: MemberKind) -> Label
    ensures { result ≡ label_of kind }
{
    match kind {
        MemberKind::Field => Label::new(labels::FIELD),
        MemberKind::Method => Label::new(labels::METH),
        MemberKind::Ctor => Label::new(labels::CTOR),
        MemberKind::DefaultCtor => Label::new(labels::CTOR),
    }
}

/// The scope with a number.
pub fn scope_at(serial: u32) -> Scope
    ensures { result ≡ scope_at serial }
{
    Scope {
        unit: NOBODY,
        serial,
    }
}

/// The scopes with so many numbers from this one on.
pub fn scopes_from(alloc: Global, first: u32, count: u32) -> Result<Vec<Scope>, AllocError>
    requires { first + count < 2 ^ 32 }
    ensures { IfOk result (λ v. v.items ≡ map (λ k. scope_at (first + k)) (range_with_len 0 count)) }
{
    let mut scopes = Vec::new(alloc);
    for k in 0..count {
        scopes.push(scope_at(first + k))?;
    }
    Ok(scopes)
}

impl Layout {
    /// The row of a type; for a number that is none, a row that stands for none.
    pub(crate) fn type_row(&self, t: u32) -> TypeRow
        ensures value { result ≡ type_at self.now t }
        ensures file { result.file < 2 ^ 31 }
    {
        match self.types.get(t as usize) {
            Some(row) => *row,
            None => TypeRow {
                file: 0,
                owner: None,
                top: 0,
                name: NameId(0),
                modifiers: Modifiers::none(),
                interface: false,
            },
        }
    }

    /// The row of a package; for a number that is none, a row that stands for none.
    pub(crate) fn package_row(&self, p: u32) -> PackageRow
        ensures { result ≡ package_row_at self.now p }
    {
        match self.packages.get(p as usize) {
            Some(row) => *row,
            None => PackageRow {
                parent: None,
                name: NameId(0),
            },
        }
    }

    /// The row of a member; for a number that is none, a row that stands for none.
    pub(crate) fn member_row(&self, m: u32) -> MemberRow
        ensures { result ≡ member_at self.now m }
    {
        match self.members.get(m as usize) {
            Some(row) => *row,
            None => MemberRow {
                owner: 0,
                kind: MemberKind::Field,
                name: NameId(0),
                modifiers: Modifiers::none(),
            },
        }
    }

    /// The number of the first file's scope, and how many scopes there are at most.
    pub(crate) fn first_file(&self) -> u32
        ensures value { result ≡ first_file self.now }
        ensures few { scope_count self.now < 2 ^ 31 }
    {
        2 + self.packages.len() as u32
    }

    /// The number of the first type's scope.
    pub(crate) fn first_type(&self) -> u32
        ensures value { result ≡ first_type self.now }
        ensures few { scope_count self.now < 2 ^ 31 }
    {
        self.first_file() + self.files.len() as u32
    }

    /// The number of the first member's scope.
    pub(crate) fn first_member(&self) -> u32
        ensures value { result ≡ first_member self.now }
        ensures few { scope_count self.now < 2 ^ 31 }
    {
        self.first_type() + self.types.len() as u32
    }

    /// The number of the first signature's scope.
    pub(crate) fn first_signature(&self) -> u32
        ensures value { result ≡ first_signature self.now }
        ensures few { scope_count self.now < 2 ^ 31 }
    {
        self.first_member() + self.members.len() as u32
    }

    /// How many scopes there are.
    pub(crate) fn scope_count(&self) -> u32
        ensures value { result ≡ scope_count self.now }
        ensures few { scope_count self.now < 2 ^ 31 }
    {
        self.first_signature() + self.members.len() as u32
    }

    /// The scope of a type.
    pub(crate) fn type_scope(&self, t: u32) -> Scope
        requires { t < 2 ^ 31 }
        ensures { result ≡ type_scope self.now t }
    {
        scope_at(self.first_type() + t)
    }

    /// The package of a file.
    pub(crate) fn file_package(&self, f: usize) -> Scope
        ensures { result ≡ file_package self.now f }
    {
        match self.files.get(f) {
            Some(Some(package)) => scope_at(2 + *package),
            _ => scope_at(1),
        }
    }

    /// The scope of a member.
    pub(crate) fn member_scope(&self, m: u32) -> Scope
        requires { m < 2 ^ 31 }
        ensures { result ≡ member_scope self.now m }
    {
        scope_at(self.first_member() + m)
    }

    /// The scope of a member's signature.
    pub(crate) fn signature_of_member(&self, m: u32) -> Scope
        requires { m < length self.now.members }
        ensures { result ≡ signature_of_member self.now m }
    {
        scope_at(self.first_signature() + m)
    }

    /// What a scope is, and how many scopes there are at most. It takes constant time.
    pub fn place(&self, s: Scope) -> Place
        ensures value { result ≡ place_of self.now s }
        ensures row { IsPlace self.now result }
        ensures few { scope_count self.now < 2 ^ 31 }
    {
        let place = self.place_at(s.serial);
        if s.unit == NOBODY {
            place
        } else {
            Place::Outside
        }
    }

    /// What the scope with a number is, and how many scopes there are at most.
    fn place_at(&self, n: u32) -> Place
        ensures value { result ≡ place_at self.now n }
        ensures row { IsPlace self.now result }
        ensures few { scope_count self.now < 2 ^ 31 }
    {
        let first_file = self.first_file();
        if n < 1 {
            Place::Root
        } else if n < 2 {
            Place::Unnamed
        } else if n < first_file {
            Place::Package(n - 2)
        } else {
            let first_type = first_file + self.files.len() as u32;
            if n < first_type {
                Place::File(n - first_file)
            } else {
                let first_member = first_type + self.types.len() as u32;
                if n < first_member {
                    Place::Ty(n - first_type)
                } else {
                    let first_signature = first_member + self.members.len() as u32;
                    if n < first_signature {
                        Place::Member(n - first_member)
                    } else if n < first_signature + self.members.len() as u32 {
                        Place::Signature(n - first_signature)
                    } else {
                        Place::Outside
                    }
                }
            }
        }
    }
}
