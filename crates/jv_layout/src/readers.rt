//! What a layout says of its scopes.

ghost use Rattle.std.specs.Prelude.{◌≡◌, ◌<◌, ◌^◌, ◌&&◌, length, map, option_map};
ghost use Rattle.jv_tree.specs.DeclTree.{import_tree};
ghost use Rattle.jv_layout.specs.Readers.{type_at, owner_of, file_package, is_interface_at, lies_in_interface, written_access, type_access, member_at, member_access_by, access_of, is_method, is_static_type, is_static_of, is_final_of, is_interface_method_of, is_abstract_of, is_default_of, is_interface_of, file_of, owner_scope, package_of, top_of, signature_scope, members_of, members_of_type, statics_of, types_of, object_scope, string_scope};
ghost use Rattle.jv_layout.specs.Duplicates.{simple_name, is_named};
ghost use Rattle.jv_layout.specs.Scopes.{root_scope, file_scope, type_scope, member_scope, scope_count};

use crate::place::Place;
use crate::rows::{MemberKind, Modifiers, TypeRow};
use crate::tables::{Layout, scope_at};
use jv_instance::Access;
use jv_tree::{Import, NameId};
use sg_base::Scope;

/// The access that is written; the strongest counts.
fn written_access(modifiers: Modifiers) -> Access
    ensures { result ≡ written_access modifiers }
{
    if modifiers.is_private {
        Access::Private
    } else if modifiers.is_protected {
        Access::Protected
    } else if modifiers.is_public {
        Access::Public
    } else {
        Access::Package
    }
}

impl Layout {
    /// The prelude's `Object`, which is the first type (JLS 4.3.2).
    pub fn object(&self) -> Scope
        ensures { result ≡ object_scope self.now }
    {
        self.type_scope(0)
    }

    /// The prelude's `String`, which is the second type (JLS 4.3.3).
    pub fn string(&self) -> Scope
        ensures { result ≡ string_scope self.now }
    {
        self.type_scope(1)
    }

    /// The root, whose packages are those that no package encloses.
    pub fn root(&self) -> Scope
        ensures { result ≡ root_scope }
    {
        scope_at(0)
    }

    /// The scope of a file, by its number.
    pub fn file_scope(&self, file: u32) -> Scope
        requires { file < 2 ^ 31 }
        ensures { result ≡ file_scope self.now file }
    {
        scope_at(self.first_file() + file)
    }

    /// All types, in the order of their scopes.
    pub fn types(&self) -> &[Scope]
        ensures { result.now ≡ types_of self.now }
    {
        self.type_scopes.as_slice()
    }

    /// The static imports of a file, as the text has them (JLS 7.5.3, 7.5.4); none where there is no such file. It takes no
    /// memory.
    pub fn static_imports(&self, file: u32) -> &[Import]
        ensures { map import_tree result.now ≡ statics_of self.now file }
    {
        match self.statics.get(file as usize) {
            Some(imports) => imports.as_slice(),
            None => &[],
        }
    }

    /// Whether a type is an interface.
    pub fn is_interface(&self, s: Scope) -> bool
        ensures { result ≡ is_interface_of self.now s }
    {
        match self.place(s) {
            Place::Ty(t) => self.type_row(t).interface,
            _ => false,
        }
    }

    /// Whether a type, where there is one, is an interface.
    fn is_interface_at(&self, owner: Option<u32>) -> bool
        ensures { result ≡ is_interface_at self.now owner }
    {
        match owner {
            Some(t) => self.type_row(t).interface,
            None => false,
        }
    }

    /// The row of a member's type.
    fn owner_row(&self, m: u32) -> TypeRow
        ensures value { result ≡ owner_of self.now m }
        ensures file { result.file < 2 ^ 31 }
    {
        let row = self.member_row(m);
        self.type_row(row.owner)
    }

    /// The access of a type by its row.
    fn type_access(&self, row: TypeRow) -> Access
        ensures { result ≡ type_access self.now row }
    {
        if self.is_interface_at(row.owner) {
            Access::Public
        } else {
            written_access(row.modifiers)
        }
    }

    /// The access of a type or a member (JLS 6.6); package access for other scopes.
    pub fn access(&self, s: Scope) -> Access
        ensures { result ≡ access_of self.now s }
    {
        match self.place(s) {
            Place::Ty(t) => self.type_access(self.type_row(t)),
            Place::Member(m) => self.member_access(m),
            _ => Access::Package,
        }
    }

    /// The access of a member.
    fn member_access(&self, m: u32) -> Access
        ensures { result ≡ member_access_by self.now (member_at self.now m) (owner_of self.now m) (member_at self.now m).kind }
    {
        let row = self.member_row(m);
        let owner = self.owner_row(m);
        match row.kind {
            MemberKind::DefaultCtor => self.type_access(owner),
            _ => {
                if owner.interface {
                    Access::Public
                } else {
                    written_access(row.modifiers)
                }
            }
        }
    }

    /// Whether a type or a member is static (JLS 8.3.1.1, 8.4.3.2, 8.5.1, 9.3, 9.5).
    pub fn is_static(&self, s: Scope) -> bool
        ensures { result ≡ is_static_of self.now s }
    {
        match self.place(s) {
            Place::Ty(t) => {
                let row = self.type_row(t);
                row.modifiers.is_static
                    || row.interface
                    || row.owner.is_none()
                    || self.is_interface_at(row.owner)
            }
            Place::Member(m) => {
                let row = self.member_row(m);
                row.modifiers.is_static
                    || matches!(row.kind, MemberKind::Field) && self.owner_row(m).interface
            }
            _ => false,
        }
    }

    /// Whether a type or a member is final (JLS 8.1.1.2, 8.3.1.2, 8.4.3.3, 9.3).
    pub fn is_final(&self, s: Scope) -> bool
        ensures { result ≡ is_final_of self.now s }
    {
        match self.place(s) {
            Place::Ty(t) => self.type_row(t).modifiers.is_final,
            Place::Member(m) => {
                let row = self.member_row(m);
                row.modifiers.is_final
                    || matches!(row.kind, MemberKind::Field) && self.owner_row(m).interface
            }
            _ => false,
        }
    }

    /// Whether a member is a method of an interface.
    fn is_method_of_interface(&self, m: u32) -> bool
        ensures { result ≡ (is_method (member_at self.now m).kind && (owner_of self.now m).interface) }
    {
        matches!(self.member_row(m).kind, MemberKind::Method) && self.owner_row(m).interface
    }

    /// Whether a scope is a method of an interface (JLS 9.4). It takes constant time.
    pub fn is_interface_method(&self, s: Scope) -> bool
        ensures { result ≡ is_interface_method_of self.now s }
    {
        match self.place(s) {
            Place::Member(m) => self.is_method_of_interface(m),
            _ => false,
        }
    }

    /// Whether a type or a member is abstract (JLS 8.1.1.1, 8.4.3.1, 9.4, 9.4.3): a method of an interface is where neither
    /// `static` nor `default` is written, and all else is where `abstract` is. It takes constant time.
    pub fn is_abstract(&self, s: Scope) -> bool
        ensures { result ≡ is_abstract_of self.now s }
    {
        match self.place(s) {
            Place::Ty(t) => self.type_row(t).modifiers.is_abstract,
            Place::Member(m) => {
                let modifiers = self.member_row(m).modifiers;
                if self.is_method_of_interface(m) {
                    !(modifiers.is_static || modifiers.is_default)
                } else {
                    modifiers.is_abstract
                }
            }
            _ => false,
        }
    }

    /// Whether a scope is a default method: a method of an interface where `default` and not `static` is written (JLS 9.4,
    /// 9.4.3). It takes constant time.
    pub fn is_default(&self, s: Scope) -> bool
        ensures { result ≡ is_default_of self.now s }
    {
        match self.place(s) {
            Place::Member(m) => {
                let modifiers = self.member_row(m).modifiers;
                self.is_method_of_interface(m) && (modifiers.is_default && !modifiers.is_static)
            }
            _ => false,
        }
    }

    /// The simple name of a package, a type or a member, which for a constructor is its class's (JLS 6.2); other scopes
    /// have none. It takes constant time.
    pub fn simple_name(&self, s: Scope) -> Option<NameId>
        ensures { result ≡ simple_name self.now s }
    {
        match self.place(s) {
            Place::Package(p) => Some(self.package_row(p).name),
            Place::Ty(t) => Some(self.type_row(t).name),
            Place::Member(m) => Some(self.member_row(m).name),
            _ => None,
        }
    }

    /// Whether a scope has this simple name. It takes constant time.
    pub fn is_named(&self, name: NameId, s: Scope) -> bool
        ensures { result ≡ is_named self.now name s }
    {
        match self.simple_name(s) {
            None => false,
            Some(found) => found == name,
        }
    }

    /// The number of the file in which a type or a member stands, or that a file has.
    pub fn file_of(&self, s: Scope) -> u32
        ensures value { result ≡ file_of self.now s }
        ensures small { result < 2 ^ 31 }
    {
        match self.place(s) {
            Place::File(f) => f,
            Place::Ty(t) => self.type_row(t).file,
            Place::Member(m) => self.owner_row(m).file,
            Place::Signature(m) => self.owner_row(m).file,
            _ => 0,
        }
    }

    /// The scope of a type's owner, by the type's number.
    fn owner_of_type(&self, t: u32) -> Option<Scope>
        ensures { result ≡ option_map (type_scope self.now) (type_at self.now t).owner }
    {
        match self.types.get(t as usize) {
            Some(row) => match row.owner {
                Some(owner) => Some(self.type_scope(owner)),
                None => None,
            },
            None => None,
        }
    }

    /// The scope of a type's outermost type, by the type's number; the first type for a number that is none.
    fn top_of_type(&self, t: u32) -> Scope
        ensures { result ≡ type_scope self.now (type_at self.now t).top }
    {
        match self.types.get(t as usize) {
            Some(row) => self.type_scope(row.top),
            None => self.type_scope(0),
        }
    }

    /// The scope of a member's type, by the member's number; the first type for a number that is none. There are
    /// fewer than 2^31 scopes.
    pub(crate) fn type_of_member(&self, m: u32) -> Scope
        ensures value { result ≡ type_scope self.now (member_at self.now m).owner }
        ensures few { scope_count self.now < 2 ^ 31 }
    {
        match self.members.get(m as usize) {
            Some(row) => self.type_scope(row.owner),
            None => self.type_scope(0),
        }
    }

    /// The type in whose body a type or a member stands, where it stands in one (JLS 8.5, 9.5).
    pub fn owner(&self, s: Scope) -> Option<Scope>
        ensures { result ≡ owner_scope self.now s }
    {
        match self.place(s) {
            Place::Ty(t) => self.owner_of_type(t),
            Place::Member(m) => Some(self.type_of_member(m)),
            Place::Signature(m) => Some(self.type_of_member(m)),
            _ => None,
        }
    }

    /// The package of a file, a type, a member or a signature; other scopes give themselves.
    pub fn package_of(&self, s: Scope) -> Scope
        ensures { result ≡ package_of self.now s }
    {
        match self.place(s) {
            Place::File(f) => self.file_package(f as usize),
            Place::Ty(t) => self.file_package(self.type_row(t).file as usize),
            Place::Member(m) => self.file_package(self.owner_row(m).file as usize),
            Place::Signature(m) => self.file_package(self.owner_row(m).file as usize),
            _ => s,
        }
    }

    /// The outermost type in which a type, a member or a signature stands; other scopes give themselves.
    pub fn top_of(&self, s: Scope) -> Scope
        ensures { result ≡ top_of self.now s }
    {
        match self.place(s) {
            Place::Ty(t) => self.top_of_type(t),
            Place::Member(m) => self.top_of_type(self.member_row(m).owner),
            Place::Signature(m) => self.top_of_type(self.member_row(m).owner),
            _ => s,
        }
    }

    /// The fields, methods and constructors of a type, as the text has them; none of other scopes. It takes constant time.
    pub fn members(&self, s: Scope) -> &[Scope]
        ensures { result.now ≡ members_of self.now s }
    {
        match self.place(s) {
            Place::Ty(t) => self.members_of_type(t),
            _ => &[],
        }
    }

    /// The members of a type, by its number.
    fn members_of_type(&self, t: u32) -> &[Scope]
        requires { t < length self.now.types }
        ensures { result.now ≡ map (member_scope self.now) (members_of_type self.now t) }
    {
        match self.member_scopes.get(t as usize) {
            Some(members) => members.as_slice(),
            None => &[],
        }
    }

    /// The scope of a member's signature; other scopes give themselves.
    pub fn signature_scope(&self, member: Scope) -> Scope
        ensures { result ≡ signature_scope self.now member }
    {
        match self.place(member) {
            Place::Member(m) => self.signature_of_member(m),
            _ => member,
        }
    }
}
