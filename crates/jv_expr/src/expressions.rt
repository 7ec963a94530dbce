//! Expressions.

ghost use Rattle.std.specs.Prelude.{◌≡◌, ◌<◌, ◌^◌, [], IfOk, map};
ghost use Rattle.sg_reading.specs.Stop.{Reads};
ghost use Rattle.jv_tree.specs.ExprTree.{expr_tree, expr_trees, init_tree, init_trees, link_trees, operand_tree};
ghost use Rattle.jv_tree.specs.Spine.{IsHead, step_kind_tree, step_tree, stepped};
ghost use Rattle.jv_tree.specs.TypeTree.{ids_of, type_tree};
ghost use Rattle.jv_names.specs.Replies.{reply_to};
ghost use Rattle.jv_expr.specs.Behind.{array_made, assign_behind, bare_called, cast_behind, choice_behind, front_called, index_behind, linked, list_made, new_called, super_behind};
ghost use Rattle.jv_expr.specs.Checking.{only_diags, with_diags};
ghost use Rattle.jv_expr.specs.Sites.{site_of};
ghost use Rattle.jv_expr.specs.Steps.{step_typed, steps_typed};
ghost use Rattle.jv_expr.specs.Typed.{arguments_typed, init_typed, inits_typed, link_typed, links_typed, sizes_typed, typed};

use crate::argument::Argument;
use crate::argument_list::ArgumentList;
use crate::calls::{
    check_bare_call, check_front_call, check_new, check_super_call, check_super_field,
};
use crate::conversions::check_assigned;
use crate::faults::add_size;
use crate::fields::check_field;
use crate::forms::{is_this, is_variable, plain_name};
use crate::front::Front;
use crate::local::Local;
use crate::need::Need;
use crate::operators::{
    check_assign, check_binary, check_cast, check_choice, check_index, check_unary,
};
use crate::site::Site;
use crate::value::Value;
use crate::values::{
    add_list, array_type, check_named, check_written, element_needed, literal, string_type,
    this_value, value,
};
use crate::variables::{check_name, check_name_front};
use jv_diag::DiagList;
use jv_instance::{Ty, TypeBase};
use jv_names::{Oracle, start_of};
use jv_tree::{Expr, ExprKind, Ident, Init, Name, Operand, Step, StepKind, Target, TypeRef};
use std::alloc::Global;

/// The value of an expression (JLS 15).
///
/// It goes along the spine in a loop, since a spine is as long as a source. It takes memory in the number of steps.
#[tactic(auto, using(crate::proofs::SpineSteps::spine_steps))]
#[cycle(expressions)]
pub(crate) fn check_expr(
    alloc: Global,
    site: &Site<'_>,
    o: &Oracle,
    locals: &[Local],
    e: &Expr,
    ds: &mut DiagList,
) -> Result<Value, Need>
    requires { site.now.spot.now.file < 2 ^ 31 }
    ensures { Reads (reply_to o.now) (typed (site_of site.now) locals.now (expr_tree e.now) ds.old) (with_diags result ds.new) }
{
    let spine = e.spine(alloc)?;
    match spine.steps.as_slice().split_first() {
        None => check_head(alloc, site, o, locals, spine.head, ds),
        Some((first, others)) => {
            let v = check_first(alloc, site, o, locals, spine.head, first, ds)?;
            check_steps(alloc, site, o, locals, v, others, ds)
        }
    }
}

/// The value of an expression that goes on from no other.
#[tactic(auto, using(crate::proofs::ExpressionCases::expression_steps))]
#[cycle(expressions)]
fn check_head(
    alloc: Global,
    site: &Site<'_>,
    o: &Oracle,
    locals: &[Local],
    e: &Expr,
    ds: &mut DiagList,
) -> Result<Value, Need>
    requires place { site.now.spot.now.file < 2 ^ 31 }
    requires head { IsHead (expr_tree e.now) }
    ensures { Reads (reply_to o.now) (typed (site_of site.now) locals.now (expr_tree e.now) ds.old) (with_diags result ds.new) }
{
    match &e.kind {
        ExprKind::Int => Ok(literal(TypeBase::Int)),
        ExprKind::Long => Ok(literal(TypeBase::Long)),
        ExprKind::Char => Ok(literal(TypeBase::Char)),
        ExprKind::Str => Ok(value(string_type(site))),
        ExprKind::Bool(_) => Ok(literal(TypeBase::Boolean)),
        ExprKind::Null => Ok(literal(TypeBase::Null)),
        ExprKind::This => {
            let v = this_value(alloc, site, e.at, ds)?;
            Ok(v)
        }
        ExprKind::Name(name) => check_name(alloc, site, o, locals, name.ids.as_slice(), ds),
        ExprKind::Field(_, _) => unreachable!(),
        ExprKind::SuperField(i) => check_super_field(alloc, site, o, e.at, *i, ds),
        ExprKind::Call(target, i, es) => match target {
            Target::Bare => check_called_bare(alloc, site, o, locals, *i, es, ds),
            Target::On(_) => unreachable!(),
            Target::Super => { check_called_super(alloc, site, o, locals, e.at, *i, es, ds) }
        },
        ExprKind::Index(_, _) => unreachable!(),
        ExprKind::New(name, es) => { check_called_new(alloc, site, o, locals, name, es, ds) }
        ExprKind::NewArray(ty, es) => check_array(alloc, site, o, locals, ty, es, ds),
        ExprKind::NewList(ty, list) => check_list(alloc, site, o, locals, ty, list, ds),
        ExprKind::Pre(at, op, x) => {
            let v = check_expr(alloc, site, o, locals, x, ds)?;
            let ty = check_unary(alloc, site, *at, *op, x.at, is_variable(x), v, ds)?;
            Ok(value(ty))
        }
        ExprKind::Post(at, op, x) => {
            let v = check_expr(alloc, site, o, locals, x, ds)?;
            let ty = check_unary(alloc, site, *at, *op, x.at, is_variable(x), v, ds)?;
            Ok(value(ty))
        }
        ExprKind::Chain(x, links) => {
            let v = check_expr(alloc, site, o, locals, x, ds)?;
            check_linked(alloc, site, o, locals, v.ty, links, ds)
        }
        ExprKind::Cast(ty, x) => {
            let to = check_written(alloc, site, o, ty, ds)?;
            check_cast_behind(alloc, site, o, locals, e.at, to, x, ds)
        }
        ExprKind::Cond(x, y, z) => {
            let c = check_expr(alloc, site, o, locals, x, ds)?;
            let v = check_expr(alloc, site, o, locals, y, ds)?;
            check_choice_behind(alloc, site, o, locals, e.at, c.ty, v.ty, z, ds)
        }
        ExprKind::Assign(at, op, x, y) => {
            let v = check_expr(alloc, site, o, locals, x, ds)?;
            check_assign_behind(
                alloc,
                site,
                o,
                locals,
                *at,
                *op,
                x.at,
                is_variable(x),
                v,
                y,
                ds,
            )
        }
    }
}

/// The step behind the head of an expression. Here alone `this` or a name without parentheses may stand in front.
#[tactic(auto, using(crate::proofs::SpineSteps::first_steps))]
#[cycle(expressions)]
fn check_first(
    alloc: Global,
    site: &Site<'_>,
    o: &Oracle,
    locals: &[Local],
    head: &Expr,
    step: &Step<'_>,
    ds: &mut DiagList,
) -> Result<Value, Need>
    requires place { site.now.spot.now.file < 2 ^ 31 }
    requires head { IsHead (expr_tree head.now) }
    ensures { Reads (reply_to o.now) (typed (site_of site.now) locals.now (stepped (expr_tree head.now) step.now.at (step_kind_tree step.now.kind)) ds.old) (with_diags result ds.new) }
{
    match &step.kind {
        StepKind::Field(i) => {
            let v = check_head(alloc, site, o, locals, head, ds)?;
            check_field(alloc, site, o, is_this(head), v.ty, *i, ds)
        }
        StepKind::Call(i, es) => match plain_name(head) {
            Some(name) => {
                let f = check_name_front(alloc, site, o, locals, name.ids.as_slice(), ds)?;
                check_called(alloc, site, o, locals, f, *i, es, ds)
            }
            None => {
                let v = check_head(alloc, site, o, locals, head, ds)?;
                check_called(alloc, site, o, locals, Front::Value(v), *i, es, ds)
            }
        },
        StepKind::Index(y) => {
            let v = check_head(alloc, site, o, locals, head, ds)?;
            check_index_behind(alloc, site, o, locals, step.at, v.ty, y, ds)
        }
    }
}

/// The further steps, one after another.
#[tactic(auto, using(crate::proofs::SpineSteps::further_steps))]
#[cycle(expressions)]
fn check_steps(
    alloc: Global,
    site: &Site<'_>,
    o: &Oracle,
    locals: &[Local],
    first: Value,
    steps: &[Step<'_>],
    ds: &mut DiagList,
) -> Result<Value, Need>
    requires { site.now.spot.now.file < 2 ^ 31 }
    ensures { Reads (reply_to o.now) (steps_typed (site_of site.now) locals.now first (map step_tree steps.now) ds.old) (with_diags result ds.new) }
{
    let mut v = first;
    for step in steps {
        v = check_step(alloc, site, o, locals, v, step, ds)?;
    }
    Ok(v)
}

/// A step behind the value of another.
#[tactic(auto, using(crate::proofs::SpineSteps::one_steps))]
#[cycle(expressions)]
fn check_step(
    alloc: Global,
    site: &Site<'_>,
    o: &Oracle,
    locals: &[Local],
    v: Value,
    step: &Step<'_>,
    ds: &mut DiagList,
) -> Result<Value, Need>
    requires { site.now.spot.now.file < 2 ^ 31 }
    ensures { Reads (reply_to o.now) (step_typed (site_of site.now) locals.now v step.now.at (step_kind_tree step.now.kind) ds.old) (with_diags result ds.new) }
{
    match &step.kind {
        StepKind::Field(i) => check_field(alloc, site, o, false, v.ty, *i, ds),
        StepKind::Call(i, es) => {
            check_called(alloc, site, o, locals, Front::Value(v), *i, es, ds)
        }
        StepKind::Index(y) => { check_index_behind(alloc, site, o, locals, step.at, v.ty, y, ds) }
    }
}

/// A call by a simple name, with its arguments.
#[tactic(auto, using(crate::proofs::StatementEnds::end_steps), unfolding(crate::specs::Behind::bare_called))]
#[cycle(expressions)]
fn check_called_bare(
    alloc: Global,
    site: &Site<'_>,
    o: &Oracle,
    locals: &[Local],
    i: Ident,
    es: &Vec<Expr>,
    ds: &mut DiagList,
) -> Result<Value, Need>
    requires { site.now.spot.now.file < 2 ^ 31 }
    ensures { Reads (reply_to o.now) (bare_called (site_of site.now) locals.now i (expr_trees es.now.items) ds.old) (with_diags result ds.new) }
{
    let arguments = check_arguments(alloc, site, o, locals, es.as_slice(), ds)?;
    let ty = check_bare_call(alloc, site, o, i, arguments.as_slice(), ds)?;
    Ok(value(ty))
}

/// A call behind a value or a type, with its arguments.
#[tactic(auto, using(crate::proofs::StatementEnds::end_steps), unfolding(crate::specs::Behind::front_called))]
#[cycle(expressions)]
fn check_called(
    alloc: Global,
    site: &Site<'_>,
    o: &Oracle,
    locals: &[Local],
    front: Front,
    i: Ident,
    es: &[Expr],
    ds: &mut DiagList,
) -> Result<Value, Need>
    requires { site.now.spot.now.file < 2 ^ 31 }
    ensures { Reads (reply_to o.now) (front_called (site_of site.now) locals.now front i (expr_trees es.now) ds.old) (with_diags result ds.new) }
{
    let arguments = check_arguments(alloc, site, o, locals, es, ds)?;
    let ty = check_front_call(alloc, site, o, front, i, arguments.as_slice(), ds)?;
    Ok(value(ty))
}

/// A call through `super`, with its arguments.
#[tactic(auto, using(crate::proofs::StatementEnds::end_steps), unfolding(crate::specs::Behind::super_behind))]
#[cycle(expressions)]
fn check_called_super(
    alloc: Global,
    site: &Site<'_>,
    o: &Oracle,
    locals: &[Local],
    at: u32,
    i: Ident,
    es: &Vec<Expr>,
    ds: &mut DiagList,
) -> Result<Value, Need>
    requires { site.now.spot.now.file < 2 ^ 31 }
    ensures { Reads (reply_to o.now) (super_behind (site_of site.now) locals.now at i (expr_trees es.now.items) ds.old) (with_diags result ds.new) }
{
    let arguments = check_arguments(alloc, site, o, locals, es.as_slice(), ds)?;
    let ty = check_super_call(alloc, site, o, at, i, arguments.as_slice(), ds)?;
    Ok(value(ty))
}

/// A class instance creation, with its arguments.
#[tactic(auto, using(crate::proofs::StatementEnds::end_steps), unfolding(crate::specs::Behind::new_called))]
#[cycle(expressions)]
fn check_called_new(
    alloc: Global,
    site: &Site<'_>,
    o: &Oracle,
    locals: &[Local],
    name: &Name,
    es: &Vec<Expr>,
    ds: &mut DiagList,
) -> Result<Value, Need>
    requires { site.now.spot.now.file < 2 ^ 31 }
    ensures { Reads (reply_to o.now) (new_called (site_of site.now) locals.now (ids_of name.now) (expr_trees es.now.items) ds.old) (with_diags result ds.new) }
{
    let reference = check_named(alloc, site, o, name, ds)?;
    let arguments = check_arguments(alloc, site, o, locals, es.as_slice(), ds)?;
    let at = start_of(name.ids.as_slice());
    let ty = check_new(
        alloc,
        site,
        o,
        reference.meaning,
        at,
        arguments.as_slice(),
        ds,
    )?;
    Ok(value(ty))
}

/// An array creation with sizes.
#[tactic(auto, using(crate::proofs::StatementEnds::end_steps), unfolding(crate::specs::Behind::array_made))]
#[cycle(expressions)]
fn check_array(
    alloc: Global,
    site: &Site<'_>,
    o: &Oracle,
    locals: &[Local],
    ty: &TypeRef,
    es: &Vec<Expr>,
    ds: &mut DiagList,
) -> Result<Value, Need>
    requires { site.now.spot.now.file < 2 ^ 31 }
    ensures { Reads (reply_to o.now) (array_made (site_of site.now) locals.now (type_tree ty.now) (expr_trees es.now.items) ds.old) (with_diags result ds.new) }
{
    let base = check_written(alloc, site, o, ty, ds)?;
    check_sizes(alloc, site, o, locals, es, ds)?;
    Ok(value(array_type(base, es)))
}

/// An array creation with a list.
#[tactic(auto, using(crate::proofs::StatementEnds::end_steps), unfolding(crate::specs::Behind::list_made))]
#[cycle(expressions)]
fn check_list(
    alloc: Global,
    site: &Site<'_>,
    o: &Oracle,
    locals: &[Local],
    ty: &TypeRef,
    list: &Vec<Init>,
    ds: &mut DiagList,
) -> Result<Value, Need>
    requires { site.now.spot.now.file < 2 ^ 31 }
    ensures { Reads (reply_to o.now) (list_made (site_of site.now) locals.now (type_tree ty.now) (init_trees list.now.items) ds.old) (with_diags result ds.new) }
{
    let array = check_written(alloc, site, o, ty, ds)?;
    check_inits(alloc, site, o, locals, element_needed(array), list, ds)?;
    Ok(value(array))
}

/// An index behind an array.
#[tactic(auto, using(crate::proofs::StatementEnds::end_steps), unfolding(crate::specs::Behind::index_behind))]
#[cycle(expressions)]
fn check_index_behind(
    alloc: Global,
    site: &Site<'_>,
    o: &Oracle,
    locals: &[Local],
    at: u32,
    array: Ty,
    y: &Expr,
    ds: &mut DiagList,
) -> Result<Value, Need>
    requires { site.now.spot.now.file < 2 ^ 31 }
    ensures { Reads (reply_to o.now) (index_behind (site_of site.now) locals.now at array (expr_tree y.now) ds.old) (with_diags result ds.new) }
{
    let w = check_expr(alloc, site, o, locals, y, ds)?;
    let ty = check_index(alloc, site, at, array, w.ty, ds)?;
    Ok(value(ty))
}

/// The operators of a chain behind its first operand.
#[tactic(auto, using(crate::proofs::StatementEnds::end_steps), unfolding(crate::specs::Behind::linked))]
#[cycle(expressions)]
fn check_linked(
    alloc: Global,
    site: &Site<'_>,
    o: &Oracle,
    locals: &[Local],
    first: Ty,
    links: &Vec<(u32, u8, Operand)>,
    ds: &mut DiagList,
) -> Result<Value, Need>
    requires { site.now.spot.now.file < 2 ^ 31 }
    ensures { Reads (reply_to o.now) (linked (site_of site.now) locals.now first (link_trees links.now.items) ds.old) (with_diags result ds.new) }
{
    let ty = check_links(alloc, site, o, locals, first, links, ds)?;
    Ok(value(ty))
}

/// The operand of a cast.
#[tactic(auto, using(crate::proofs::StatementEnds::end_steps), unfolding(crate::specs::Behind::cast_behind))]
#[cycle(expressions)]
fn check_cast_behind(
    alloc: Global,
    site: &Site<'_>,
    o: &Oracle,
    locals: &[Local],
    at: u32,
    to: Ty,
    x: &Expr,
    ds: &mut DiagList,
) -> Result<Value, Need>
    requires { site.now.spot.now.file < 2 ^ 31 }
    ensures { Reads (reply_to o.now) (cast_behind (site_of site.now) locals.now at to (expr_tree x.now) ds.old) (with_diags result ds.new) }
{
    let v = check_expr(alloc, site, o, locals, x, ds)?;
    let ty = check_cast(alloc, site, o, at, to, v.ty, ds)?;
    Ok(value(ty))
}

/// The last operand of a conditional.
#[tactic(auto, using(crate::proofs::StatementEnds::end_steps), unfolding(crate::specs::Behind::choice_behind))]
#[cycle(expressions)]
fn check_choice_behind(
    alloc: Global,
    site: &Site<'_>,
    o: &Oracle,
    locals: &[Local],
    at: u32,
    condition: Ty,
    left: Ty,
    z: &Expr,
    ds: &mut DiagList,
) -> Result<Value, Need>
    requires { site.now.spot.now.file < 2 ^ 31 }
    ensures { Reads (reply_to o.now) (choice_behind (site_of site.now) locals.now at condition left (expr_tree z.now) ds.old) (with_diags result ds.new) }
{
    let w = check_expr(alloc, site, o, locals, z, ds)?;
    let ty = check_choice(alloc, site, o, at, condition, (left, w.ty), ds)?;
    Ok(value(ty))
}

/// The right side of an assignment.
#[tactic(auto, using(crate::proofs::StatementEnds::end_steps), unfolding(crate::specs::Behind::assign_behind))]
#[cycle(expressions)]
fn check_assign_behind(
    alloc: Global,
    site: &Site<'_>,
    o: &Oracle,
    locals: &[Local],
    at: u32,
    op: u8,
    place: u32,
    variable: bool,
    v: Value,
    y: &Expr,
    ds: &mut DiagList,
) -> Result<Value, Need>
    requires { site.now.spot.now.file < 2 ^ 31 }
    ensures { Reads (reply_to o.now) (assign_behind (site_of site.now) locals.now at op place variable v (expr_tree y.now) ds.old) (with_diags result ds.new) }
{
    let w = check_expr(alloc, site, o, locals, y, ds)?;
    let ty = check_assign(alloc, site, o, at, op, place, variable, v, y.at, w.ty, ds)?;
    Ok(value(ty))
}

/// The types of arguments, one after another.
#[tactic(auto, using(crate::proofs::ExpressionLists::expression_list_steps))]
#[cycle(expressions)]
pub(crate) fn check_arguments(
    alloc: Global,
    site: &Site<'_>,
    o: &Oracle,
    locals: &[Local],
    es: &[Expr],
    ds: &mut DiagList,
) -> Result<ArgumentList, Need>
    requires { site.now.spot.now.file < 2 ^ 31 }
    ensures { Reads (reply_to o.now) (arguments_typed (site_of site.now) locals.now (expr_trees es.now) [] ds.old) (with_diags result ds.new) }
{
    let mut arguments = ArgumentList::empty(alloc);
    for e in es {
        let v = check_expr(alloc, site, o, locals, e, ds)?;
        arguments.push(Argument { at: e.at, ty: v.ty })?;
    }
    Ok(arguments)
}

/// The sizes of an array, one after another.
#[tactic(auto, using(crate::proofs::ExpressionLists::expression_list_steps))]
#[cycle(expressions)]
fn check_sizes(
    alloc: Global,
    site: &Site<'_>,
    o: &Oracle,
    locals: &[Local],
    es: &Vec<Expr>,
    ds: &mut DiagList,
) -> Result<(), Need>
    requires { site.now.spot.now.file < 2 ^ 31 }
    ensures { Reads (reply_to o.now) (sizes_typed (site_of site.now) locals.now (expr_trees es.now.items) ds.old) (only_diags result ds.new) }
{
    for e in es {
        let v = check_expr(alloc, site, o, locals, e, ds)?;
        add_size(alloc, site, e.at, v.ty, ds)?;
    }
    Ok(())
}

/// The operators of a chain, one after another.
#[tactic(auto, using(crate::proofs::ExpressionLists::expression_list_steps))]
#[cycle(expressions)]
fn check_links(
    alloc: Global,
    site: &Site<'_>,
    o: &Oracle,
    locals: &[Local],
    first: Ty,
    links: &Vec<(u32, u8, Operand)>,
    ds: &mut DiagList,
) -> Result<Ty, Need>
    requires { site.now.spot.now.file < 2 ^ 31 }
    ensures { Reads (reply_to o.now) (links_typed (site_of site.now) locals.now first (link_trees links.now.items) ds.old) (with_diags result ds.new) }
{
    let mut ty = first;
    for link in links {
        ty = check_link(alloc, site, o, locals, ty, link.0, link.1, &link.2, ds)?;
    }
    Ok(ty)
}

/// An operator of a chain with its second operand.
#[tactic(auto, using(crate::proofs::ExpressionCases::operand_steps))]
#[cycle(expressions)]
fn check_link(
    alloc: Global,
    site: &Site<'_>,
    o: &Oracle,
    locals: &[Local],
    first: Ty,
    at: u32,
    op: u8,
    operand: &Operand,
    ds: &mut DiagList,
) -> Result<Ty, Need>
    requires { site.now.spot.now.file < 2 ^ 31 }
    ensures { Reads (reply_to o.now) (link_typed (site_of site.now) locals.now first at op (operand_tree operand.now) ds.old) (with_diags result ds.new) }
{
    match operand {
        Operand::Expr(e) => {
            let v = check_expr(alloc, site, o, locals, e, ds)?;
            check_binary(alloc, site, o, at, op, first, v.ty, ds)
        }
        Operand::Of(written) => {
            let ty = check_written(alloc, site, o, written, ds)?;
            check_binary(alloc, site, o, at, op, first, ty, ds)
        }
    }
}

/// An initializer of a variable of a type (JLS 10.6, 14.4).
#[tactic(auto, using(crate::proofs::ExpressionCases::init_steps))]
#[cycle(expressions)]
pub(crate) fn check_init(
    alloc: Global,
    site: &Site<'_>,
    o: &Oracle,
    locals: &[Local],
    ty: Ty,
    init: &Init,
    ds: &mut DiagList,
) -> Result<(), Need>
    requires { site.now.spot.now.file < 2 ^ 31 }
    ensures { Reads (reply_to o.now) (init_typed (site_of site.now) locals.now ty (init_tree init.now) ds.old) (only_diags result ds.new) }
{
    match init {
        Init::One(e) => {
            let v = check_expr(alloc, site, o, locals, e, ds)?;
            check_assigned(alloc, site, o, e.at, v.ty, ty, ds)
        }
        Init::List(at, inits) => {
            add_list(alloc, site, *at, ty, ds)?;
            check_inits(alloc, site, o, locals, element_needed(ty), inits, ds)
        }
    }
}

/// The elements of a list, one after another.
#[tactic(auto, using(crate::proofs::ExpressionLists::expression_list_steps))]
#[cycle(expressions)]
fn check_inits(
    alloc: Global,
    site: &Site<'_>,
    o: &Oracle,
    locals: &[Local],
    ty: Ty,
    inits: &Vec<Init>,
    ds: &mut DiagList,
) -> Result<(), Need>
    requires { site.now.spot.now.file < 2 ^ 31 }
    ensures { Reads (reply_to o.now) (inits_typed (site_of site.now) locals.now ty (init_trees inits.now.items) ds.old) (only_diags result ds.new) }
{
    for init in inits {
        check_init(alloc, site, o, locals, ty, init, ds)?;
    }
    Ok(())
}
