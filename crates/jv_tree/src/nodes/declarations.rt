//! Files, classes, interfaces and their members.

ghost use Rattle.std.specs.Prelude.{◌≡◌, map, IfOk};
ghost use Rattle.std.specs.Option.{option_map};
ghost use Rattle.jv_tree.specs.TypeTree.{ids_of, type_tree};
ghost use Rattle.jv_tree.specs.StmtTree.{stmt_trees, var_trees};
ghost use Rattle.jv_tree.specs.DeclTree as d;
ghost use Rattle.jv_tree.specs.DeclTree.{import_tree, param_tree, body_trees, call_tree, method_tree, ctor_tree, member_tree, member_trees, type_decl_tree, tree_of};

use crate::declaration::{Ctor, Import, Member, Method, Mods, Param, TypeDecl, Unit};
use crate::expression::Expr;
use crate::name::{Ident, Name};
use crate::statement::Stmt;
use crate::type_ref::{TypeRef, Var};

/// A file.
pub fn unit(package: Option<Name>, imports: Vec<Import>, types: Vec<TypeDecl>) -> Unit
    ensures { tree_of result ≡ record {
      package_name = option_map ids_of «package»;
      imports = map import_tree imports.items;
      types = map type_decl_tree types.items;
    } }
{
    Unit {
        package,
        imports,
        types,
    }
}

/// An import.
pub fn import(name: Name, all: bool, is_static: bool) -> Import
    ensures { import_tree result ≡ record { name = ids_of name; all = all; is_static = is_static } }
{
    Import {
        name,
        all,
        is_static,
    }
}

/// A class or an interface.
pub fn class_or_interface(
    name: Ident,
    mods: Mods,
    interface: bool,
    extends: Vec<Name>,
    implements: Vec<Name>,
    members: Vec<Member>,
) -> TypeDecl
    ensures { type_decl_tree result
        ≡ d.type_decl name mods.words.items interface (map ids_of extends.items)
        (map ids_of implements.items) (member_trees members.items) }
{
    TypeDecl {
        name,
        mods,
        interface,
        extends,
        implements,
        members,
    }
}

/// A class or an interface as a member.
pub fn nested(decl: TypeDecl) -> Member
    ensures { member_tree result ≡ d.nested (type_decl_tree decl) }
{
    Member::Nested(decl)
}

/// Fields as a member.
pub fn field_member(mods: Mods, ty: TypeRef, variables: Vec<Var>) -> Member
    ensures { member_tree result
        ≡ d.field mods.words.items (type_tree ty) (var_trees variables.items) }
{
    Member::Field(mods, ty, variables)
}

/// A method as a member.
pub fn method_member(of: Method) -> Member
    ensures { member_tree result ≡ d.method (method_tree of) }
{
    Member::Method(of)
}

/// A constructor as a member.
pub fn constructor_member(of: Ctor) -> Member
    ensures { member_tree result ≡ d.ctor (ctor_tree of) }
{
    Member::Ctor(of)
}

/// A parameter.
pub fn parameter(is_final: bool, ty: TypeRef, name: Ident) -> Param
    ensures { param_tree result ≡ record { is_final = is_final; ty = type_tree ty; name = name } }
{
    Param { is_final, ty, name }
}

/// A method.
pub fn method(
    mods: Mods,
    gives: TypeRef,
    name: Ident,
    params: Vec<Param>,
    body: Option<Vec<Stmt>>,
) -> Method
    ensures { method_tree result ≡ record {
      mods = mods.words.items;
      result = type_tree gives;
      name = name;
      params = map param_tree params.items;
      body = body_trees body;
    } }
{
    Method {
        mods,
        result: gives,
        name,
        params,
        body,
    }
}

/// A constructor.
pub fn constructor(
    mods: Mods,
    name: Ident,
    params: Vec<Param>,
    call: Option<(u32, Vec<Expr>)>,
    body: Vec<Stmt>,
) -> Ctor
    ensures { ctor_tree result ≡ record {
      mods = mods.words.items;
      name = name;
      params = map param_tree params.items;
      call = call_tree call;
      body = stmt_trees body.items;
    } }
{
    Ctor {
        mods,
        name,
        params,
        call,
        body,
    }
}
