//! What is wrong with the flow of control through the bodies of methods and constructors.

ghost use Rattle.std.specs.Prelude.{◌≡◌, [], ◌++◌, map, slice_index_or, true, IfOk, OnOk};
ghost use Rattle.jv_tree.specs.TypeTree.{base_tree};
ghost use Rattle.jv_tree.specs.StmtTree.{stmt_trees};
ghost use Rattle.jv_tree.specs.DeclTree.{ctor_tree, member_tree, method_tree};
ghost use Rattle.jv_flow.specs.FlowFaults.{ctor_flow, declared_flow, flow_faults, gives_value, method_flow, unreachable_at, unreachable_in};
ghost use Rattle.jv_flow.specs.Reachable.{all_complete};

use crate::flowing::flow;
use jv_diag::{DiagList, codes};
use jv_tree::{Base, Ctor, Ident, Member, Method, NameId, Names, Stmt};
use std::alloc::{AllocError, Global};

/// Whether a method whose result has this type, without its brackets, gives a value.
fn gives_value(base: &Base) -> bool
    ensures { result ≡ gives_value (base_tree base.now) }
{
    match base {
        Base::Void => false,
        _ => true,
    }
}

/// The text of a number, and no text for a number that is none of the names.
fn text_of<'a>(names: &'a Names, id: NameId) -> &'a str
    ensures { result.now ≡ slice_index_or names.now id.0 [] }
{
    if id.0 < names.len() {
        names.text(id)
    } else {
        ""
    }
}

/// Adds a diagnostic at each of these places of a file.
fn add_unreachable(
    alloc: Global,
    diags: &mut DiagList,
    file: u32,
    places: &[u32],
) -> Result<(), AllocError>
    ensures { OnOk result (diags.new ≡ diags.old ++ map (unreachable_at file) places.now) }
{
    for at in places {
        diags.add(alloc, file, *at, codes::UNREACHABLE, &[])?;
    }
    Ok(())
}

/// The diagnostics at the unreachable statements of a body in a file, and whether the body completes.
#[tactic(auto, using(crate::proofs::Telling::walked_steps))]
fn walked(alloc: Global, file: u32, body: &[Stmt]) -> Result<(DiagList, bool), AllocError>
    ensures diags { IfOk result (λ r. r.0 ≡ unreachable_in file (stmt_trees body.now)) }
    ensures completes { IfOk result (λ r. r.1 ≡ all_complete true (stmt_trees body.now)) }
{
    let found = flow(alloc, body)?;
    let mut diags = DiagList::empty(alloc);
    add_unreachable(alloc, &mut diags, file, found.unreachable.as_slice())?;
    Ok((diags, found.completes))
}

/// What is wrong with the flow of control through a body, which is to give a value where it must, as that of a method with this name.
fn check_body(
    alloc: Global,
    names: &Names,
    file: u32,
    body: &[Stmt],
    must: bool,
    name: Ident,
) -> Result<DiagList, AllocError>
    ensures { IfOk result (λ ds. ds ≡ flow_faults names.now file (stmt_trees body.now) must name) }
{
    let (mut diags, completes) = walked(alloc, file, body)?;
    if must && completes {
        diags.add(
            alloc,
            file,
            name.at,
            codes::MISSING_RETURN,
            &[text_of(names, name.id)],
        )?;
    }
    Ok(diags)
}

/// What is wrong with the flow of control through the body of a method in a file: at each unreachable statement whose enclosing
/// statements are reachable and before which its block has no unreachable one, and at the name of a method that has to give a value
/// but whose body completes (JLS 8.4.7, 14.21). Nothing is wrong with a method without a body. It takes time in the number of statements,
/// and stack in their nesting.
pub fn check_method_flow(
    alloc: Global,
    names: &Names,
    file: u32,
    method: &Method,
) -> Result<DiagList, AllocError>
    ensures { IfOk result (λ ds. ds ≡ method_flow names.now file (method_tree method.now)) }
{
    match &method.body {
        None => Ok(DiagList::empty(alloc)),
        Some(body) => {
            let must = gives_value(&method.result.base);
            check_body(alloc, names, file, body, must, method.name)
        }
    }
}

/// What is wrong with the flow of control through the body of a constructor in a file: at each unreachable statement whose
/// enclosing statements are reachable and before which its block has no unreachable one (JLS 14.21). It takes time in the number of
/// statements, and stack in their nesting.
pub fn check_ctor_flow(
    alloc: Global,
    names: &Names,
    file: u32,
    ctor: &Ctor,
) -> Result<DiagList, AllocError>
    ensures { IfOk result (λ ds. ds ≡ ctor_flow names.now file (ctor_tree ctor.now)) }
{
    check_body(alloc, names, file, &ctor.body, false, ctor.name)
}

/// What is wrong with the flow of control through the body of a member in a file, as `check_method_flow` and `check_ctor_flow`
/// give it (JLS 8.4.7, 14.21). Nothing is wrong with a member without a body: a nested type, whose own members are not
/// looked at, fields, and a method that ends with `;`. It takes time in the number of statements, and stack in their nesting.
pub fn check_flow(
    alloc: Global,
    names: &Names,
    file: u32,
    member: &Member,
) -> Result<DiagList, AllocError>
    ensures { IfOk result (λ ds. ds ≡ declared_flow names.now file (member_tree member.now)) }
{
    match member {
        Member::Nested(_) => Ok(DiagList::empty(alloc)),
        Member::Field(_, _, _) => Ok(DiagList::empty(alloc)),
        Member::Method(method) => check_method_flow(alloc, names, file, method),
        Member::Ctor(ctor) => check_ctor_flow(alloc, names, file, ctor),
    }
}
