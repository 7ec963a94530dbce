//! Operators, casts, conditionals, indexes and assignments by the types of their operands.

ghost use Rattle.std.specs.Prelude.{◌≡◌, OnOk, IfOk, not};
ghost use Rattle.std.specs.String.{string_bytes};
ghost use Rattle.sg_reading.specs.Stop.{Reads};
ghost use Rattle.jv_names.specs.Replies.{reply_to};
ghost use Rattle.jv_expr.specs.Checking.{with_diags, only_diags};
ghost use Rattle.jv_expr.specs.Operators.{assign_compound, assign_on, assign_plain, bad_for, binary_on, both_texts, branch_sides, cast_on, casted, choice_by, choice_on, choice_text, choice_type, compound_result, element_type, index_on, is_open, may_be_instance, may_cast, operand_sides, operated, operator_of, operator_type, signed, simply_assigned, stepped, unary_on, unless_faulty, with_cast, with_refused, with_sealed, with_target};
ghost use Rattle.jv_expr.specs.Site.{type_text};
ghost use Rattle.jv_expr.specs.Sites.{site_of};

use crate::conversions::check_assigned;
use crate::faults::{BAD, BOOLEAN, add_fault, is_condition, is_index};
use crate::need::Need;
use crate::sides::{Pair, bare_sides, read_sides};
use crate::site::Site;
use crate::texts::{both_texts, choice_text, operator_text};
use crate::value::Value;
use jv_diag::{DiagList, codes};
use jv_instance::Ty;
use jv_layout::text_of;
use jv_names::Oracle;
use jv_tree::NameId;
use jv_types::{binary, castable, conditional, is_type, unary};
use std::alloc::{AllocError, Global};

/// A type where nothing was wrong, and else a bad one.
fn unless_faulty(faulty: bool, ty: Ty) -> Ty
    ensures { result ≡ unless_faulty faulty ty }
{
    if faulty { BAD } else { ty }
}

/// Whether a variable is assigned with nothing wrong.
fn is_open(variable: bool, v: Value) -> bool
    ensures { result ≡ is_open variable v }
{
    variable && v.sealed.is_none()
}

/// Adds that the operands of an operator have no types that it takes.
fn add_refused(
    alloc: Global,
    site: &Site<'_>,
    at: u32,
    op: u8,
    operands: String,
    ds: &mut DiagList,
) -> Result<(), AllocError>
    ensures { OnOk result (ds.new ≡ with_refused (site_of site.now) at op (string_bytes operands) ds.old) }
{
    let operator = String::from_str(alloc, operator_text(op))?;
    add_fault(
        alloc,
        site,
        at,
        codes::OPERANDS,
        &[operator.as_str(), operands.as_str()],
        ds,
    )
}

/// The same of one operand.
fn refuse_one(
    alloc: Global,
    site: &Site<'_>,
    at: u32,
    op: u8,
    ty: Ty,
    ds: &mut DiagList,
) -> Result<(), AllocError>
    ensures { OnOk result (ds.new ≡ with_refused (site_of site.now) at op (type_text (site_of site.now) ty) ds.old) }
{
    let text = site.layout.type_text(alloc, site.names, ty)?;
    add_refused(alloc, site, at, op, text, ds)
}

/// The same of two operands.
fn refuse_both(
    alloc: Global,
    site: &Site<'_>,
    at: u32,
    op: u8,
    left: Ty,
    right: Ty,
    ds: &mut DiagList,
) -> Result<(), AllocError>
    ensures { OnOk result (ds.new ≡ with_refused (site_of site.now) at op (both_texts (site_of site.now) left right) ds.old) }
{
    let text = both_texts(alloc, site, left, right)?;
    add_refused(alloc, site, at, op, text, ds)
}

/// A sign, `~` or `!`.
fn check_sign(
    alloc: Global,
    site: &Site<'_>,
    at: u32,
    op: u8,
    ty: Ty,
    ds: &mut DiagList,
) -> Result<Ty, AllocError>
    ensures { IfOk result (λ t. (t, ds.new) ≡ signed (site_of site.now) at op ty ds.old) }
{
    if let Some(found) = unary(op, ty) {
        return Ok(found);
    }
    refuse_one(alloc, site, at, op, ty, ds)?;
    Ok(BAD)
}

/// Adds that a variable cannot be assigned, where it cannot.
fn add_sealed(
    alloc: Global,
    site: &Site<'_>,
    at: u32,
    sealed: Option<NameId>,
    ds: &mut DiagList,
) -> Result<(), AllocError>
    ensures { OnOk result (ds.new ≡ with_sealed (site_of site.now) at sealed ds.old) }
{
    match sealed {
        Some(name) => add_fault(
            alloc,
            site,
            at,
            codes::FINAL_VARIABLE,
            &[text_of(site.names, name)],
            ds,
        ),
        None => Ok(()),
    }
}

/// Adds that what is assigned is no variable, or one that cannot be assigned, unless its type is bad.
fn add_target(
    alloc: Global,
    site: &Site<'_>,
    at: u32,
    variable: bool,
    v: Value,
    ds: &mut DiagList,
) -> Result<(), AllocError>
    ensures { OnOk result (ds.new ≡ with_target (site_of site.now) at variable v ds.old) }
{
    if v.ty.is_bad() {
        return Ok(());
    }
    if !variable {
        return add_fault(alloc, site, at, codes::NO_VARIABLE, &[], ds);
    }
    add_sealed(alloc, site, at, v.sealed, ds)
}

/// `++` and `--`.
fn check_step(
    alloc: Global,
    site: &Site<'_>,
    at: u32,
    op: u8,
    place: u32,
    variable: bool,
    v: Value,
    ds: &mut DiagList,
) -> Result<Ty, AllocError>
    ensures { IfOk result (λ t. (t, ds.new) ≡ stepped (site_of site.now) at op place variable v ds.old) }
{
    add_target(alloc, site, place, variable, v, ds)?;
    let faulty = !is_open(variable, v);
    if let Some(found) = unary(op, v.ty) {
        return Ok(unless_faulty(faulty, found));
    }
    refuse_one(alloc, site, at, op, v.ty, ds)?;
    Ok(unless_faulty(faulty, BAD))
}

/// What decides an operator with two operands; only some compare classes.
#[tactic(auto, using(sg_reading::proofs::Steps::reading_steps), unfolding(crate::specs::Operators::operand_sides))]
fn operand_sides(
    alloc: Global,
    site: &Site<'_>,
    o: &Oracle,
    op: u8,
    left: Ty,
    right: Ty,
) -> Result<Pair, Need>
    ensures { Reads (reply_to o.now) (operand_sides (site_of site.now) op left right) result }
{
    if op == 20 || op == 23 || op == 153 {
        return read_sides(alloc, site.layout, o, left, right);
    }
    Ok(bare_sides(alloc, site.layout, left, right))
}

/// The type of an operator by both operands.
fn operator_type(site: &Site<'_>, op: u8, p: &Pair) -> Option<Ty>
    ensures { result ≡ operator_type (site_of site.now) op p.now }
{
    binary(
        op,
        p.left.as_side(),
        p.right.as_side(),
        site.layout.string(),
        site.layout.object(),
    )
}

/// Whether one of two types may be cast to the other, or one is bad.
fn may_cast(site: &Site<'_>, p: &Pair) -> bool
    ensures { result ≡ may_cast (site_of site.now) p.now }
{
    p.left.ty().is_bad()
        || p.right.ty().is_bad()
        || castable(p.left.as_side(), p.right.as_side(), site.layout.object())
}

/// `instanceof` asks that too.
fn may_be_instance(site: &Site<'_>, op: u8, p: &Pair) -> bool
    ensures { result ≡ may_be_instance (site_of site.now) op p.now }
{
    op != 153 || may_cast(site, p)
}

/// Adds that a type cannot be cast to another one, where it cannot.
fn add_cast(
    alloc: Global,
    ok: bool,
    site: &Site<'_>,
    at: u32,
    from: Ty,
    to: Ty,
    ds: &mut DiagList,
) -> Result<(), AllocError>
    ensures { OnOk result (ds.new ≡ with_cast ok (site_of site.now) at from to ds.old) }
{
    if !ok {
        let one = site.layout.type_text(alloc, site.names, from)?;
        let other = site.layout.type_text(alloc, site.names, to)?;
        add_fault(
            alloc,
            site,
            at,
            codes::NO_CAST,
            &[one.as_str(), other.as_str()],
            ds,
        )?;
    }
    Ok(())
}

/// An operator with two operands by what is known of them.
fn operated(
    alloc: Global,
    site: &Site<'_>,
    at: u32,
    op: u8,
    p: &Pair,
    ds: &mut DiagList,
) -> Result<Ty, AllocError>
    ensures { IfOk result (λ t. (t, ds.new) ≡ operated (site_of site.now) at op p.now ds.old) }
{
    let ok = may_be_instance(site, op, p);
    let left = p.left.ty();
    let right = p.right.ty();
    if let Some(found) = operator_type(site, op, p) {
        add_cast(alloc, ok, site, at, left, right, ds)?;
        return Ok(unless_faulty(!ok, found));
    }
    refuse_both(alloc, site, at, op, left, right, ds)?;
    add_cast(alloc, ok, site, at, left, right, ds)?;
    Ok(unless_faulty(!ok, BAD))
}

/// A cast by what is known of both types.
fn casted(
    alloc: Global,
    site: &Site<'_>,
    at: u32,
    p: &Pair,
    ds: &mut DiagList,
) -> Result<Ty, AllocError>
    ensures { IfOk result (λ t. (t, ds.new) ≡ casted (site_of site.now) at p.now ds.old) }
{
    let ok = may_cast(site, p);
    let from = p.left.ty();
    let to = p.right.ty();
    add_cast(alloc, ok, site, at, from, to, ds)?;
    Ok(unless_faulty(!ok, to))
}

/// Bad in place of a type.
fn bad_for(found: Option<Ty>) -> Option<Ty>
    ensures { result ≡ bad_for found }
{
    match found {
        Some(_) => Some(BAD),
        None => None,
    }
}

/// The type of a conditional: bad where a branch is. With a bad condition the branches have to fit one another all the same.
fn choice_type(site: &Site<'_>, condition: Ty, p: &Pair) -> Option<Ty>
    ensures { result ≡ choice_type (site_of site.now) condition p.now }
{
    if p.left.ty().is_bad() || p.right.ty().is_bad() {
        return Some(BAD);
    }
    if condition.is_bad() {
        let found = conditional(p.left.as_side(), p.right.as_side(), site.layout.object());
        return bad_for(found);
    }
    if is_type(condition, BOOLEAN) {
        return conditional(p.left.as_side(), p.right.as_side(), site.layout.object());
    }
    None
}

/// What decides a conditional; only with a condition that is boolean or bad are its branches compared.
#[tactic(auto, using(sg_reading::proofs::Steps::reading_steps), unfolding(crate::specs::Operators::branch_sides))]
fn branch_sides(
    alloc: Global,
    site: &Site<'_>,
    o: &Oracle,
    condition: Ty,
    left: Ty,
    right: Ty,
) -> Result<Pair, Need>
    ensures { Reads (reply_to o.now) (branch_sides (site_of site.now) condition left right) result }
{
    if is_condition(condition) {
        return read_sides(alloc, site.layout, o, left, right);
    }
    Ok(bare_sides(alloc, site.layout, left, right))
}

/// A conditional by what is known of its branches.
fn chosen(
    alloc: Global,
    site: &Site<'_>,
    at: u32,
    condition: Ty,
    p: &Pair,
    ds: &mut DiagList,
) -> Result<Ty, AllocError>
    ensures { IfOk result (λ t. (t, ds.new) ≡ choice_by (site_of site.now) at condition p.now ds.old) }
{
    if let Some(found) = choice_type(site, condition, p) {
        return Ok(found);
    }
    let text = choice_text(alloc, site, condition, p.left.ty(), p.right.ty())?;
    add_refused(alloc, site, at, 17, text, ds)?;
    Ok(BAD)
}

/// The type of an element of an array.
fn element_type(array: Ty, index: Ty) -> Option<Ty>
    ensures { result ≡ element_type array index }
{
    if array.is_bad() || index.is_bad() {
        return Some(BAD);
    }
    if array.dims > 0 && is_index(index) {
        return Some(Ty {
            base: array.base,
            dims: array.dims - 1,
        });
    }
    None
}

/// Checks that the right side of `=` fits the left one, where that is not bad.
#[tactic(auto, using(crate::proofs::DiagSteps::diag_steps))]
fn simply_assigned(
    alloc: Global,
    site: &Site<'_>,
    o: &Oracle,
    at: u32,
    left: Ty,
    right: Ty,
    ds: &mut DiagList,
) -> Result<(), Need>
    ensures { Reads (reply_to o.now) (simply_assigned (site_of site.now) at left right ds.old) (only_diags result ds.new) }
{
    if left.is_bad() {
        return Ok(());
    }
    check_assigned(alloc, site, o, at, right, left, ds)
}

/// `=` to what starts at `place`, of a value that starts at `at`.
#[tactic(auto, using(crate::proofs::DiagSteps::diag_steps))]
fn assign_plain(
    alloc: Global,
    site: &Site<'_>,
    o: &Oracle,
    place: u32,
    variable: bool,
    v: Value,
    at: u32,
    ty: Ty,
    ds: &mut DiagList,
) -> Result<Ty, Need>
    ensures { Reads (reply_to o.now) (assign_plain (site_of site.now) place variable v at ty ds.old) (with_diags result ds.new) }
{
    add_target(alloc, site, place, variable, v, ds)?;
    simply_assigned(alloc, site, o, at, v.ty, ty, ds)?;
    Ok(unless_faulty(!is_open(variable, v), v.ty))
}

/// Whether what the operator of `op=` gives may be cast to the left type; where it gives none that is said.
#[tactic(auto, using(crate::proofs::DiagSteps::diag_steps))]
fn compound_result(
    alloc: Global,
    site: &Site<'_>,
    o: &Oracle,
    at: u32,
    op: u8,
    v: Value,
    ty: Ty,
    found: Option<Ty>,
    ds: &mut DiagList,
) -> Result<bool, Need>
    ensures { Reads (reply_to o.now) (compound_result (site_of site.now) at op v ty found ds.old) (with_diags result ds.new) }
{
    match found {
        None => {
            refuse_both(alloc, site, at, op, v.ty, ty, ds)?;
            Ok(false)
        }
        Some(given) => {
            let p = read_sides(alloc, site.layout, o, given, v.ty)?;
            let ok = may_cast(site, &p);
            add_cast(alloc, ok, site, at, given, v.ty, ds)?;
            Ok(ok)
        }
    }
}

/// The operator of `op=`.
fn operator_of(op: u8) -> u8
    ensures { result ≡ operator_of op }
{
    op.saturating_sub(11)
}

/// `op=` to what starts at `place`.
#[tactic(auto, using(crate::proofs::DiagSteps::diag_steps))]
fn assign_compound(
    alloc: Global,
    site: &Site<'_>,
    o: &Oracle,
    at: u32,
    op: u8,
    place: u32,
    variable: bool,
    v: Value,
    ty: Ty,
    ds: &mut DiagList,
) -> Result<Ty, Need>
    ensures { Reads (reply_to o.now) (assign_compound (site_of site.now) at op place variable v ty ds.old) (with_diags result ds.new) }
{
    let plain = operator_of(op);
    let p = operand_sides(alloc, site, o, plain, v.ty, ty)?;
    add_target(alloc, site, place, variable, v, ds)?;
    let found = operator_type(site, plain, &p);
    let ok = compound_result(alloc, site, o, at, op, v, ty, found, ds)?;
    Ok(unless_faulty(!(is_open(variable, v) && ok), v.ty))
}

/// An operator with one operand, which starts at `place` (JLS 15.14, 15.15).
pub(crate) fn check_unary(
    alloc: Global,
    site: &Site<'_>,
    at: u32,
    op: u8,
    place: u32,
    variable: bool,
    v: Value,
    ds: &mut DiagList,
) -> Result<Ty, AllocError>
    ensures { IfOk result (λ t. (t, ds.new) ≡ unary_on (site_of site.now) at op place variable v ds.old) }
{
    if op == 26 || op == 27 {
        return check_step(alloc, site, at, op, place, variable, v, ds);
    }
    check_sign(alloc, site, at, op, v.ty, ds)
}

/// An operator with two operands; that of `instanceof` is 153 (JLS 15.17 to 15.24).
#[tactic(auto, using(crate::proofs::DiagSteps::diag_steps), unfolding(crate::specs::Operators::binary_on))]
pub(crate) fn check_binary(
    alloc: Global,
    site: &Site<'_>,
    o: &Oracle,
    at: u32,
    op: u8,
    left: Ty,
    right: Ty,
    ds: &mut DiagList,
) -> Result<Ty, Need>
    ensures { Reads (reply_to o.now) (binary_on (site_of site.now) at op left right ds.old) (with_diags result ds.new) }
{
    let p = operand_sides(alloc, site, o, op, left, right)?;
    let ty = operated(alloc, site, at, op, &p, ds)?;
    Ok(ty)
}

/// A cast to a type (JLS 15.16).
#[tactic(auto, using(crate::proofs::DiagSteps::diag_steps), unfolding(crate::specs::Operators::cast_on))]
pub(crate) fn check_cast(
    alloc: Global,
    site: &Site<'_>,
    o: &Oracle,
    at: u32,
    to: Ty,
    from: Ty,
    ds: &mut DiagList,
) -> Result<Ty, Need>
    ensures { Reads (reply_to o.now) (cast_on (site_of site.now) at to from ds.old) (with_diags result ds.new) }
{
    let p = read_sides(alloc, site.layout, o, from, to)?;
    let ty = casted(alloc, site, at, &p, ds)?;
    Ok(ty)
}

/// A conditional by the types of its condition and of its two branches (JLS 15.25).
#[tactic(auto, using(crate::proofs::DiagSteps::diag_steps), unfolding(crate::specs::Operators::choice_on))]
pub(crate) fn check_choice(
    alloc: Global,
    site: &Site<'_>,
    o: &Oracle,
    at: u32,
    condition: Ty,
    branches: (Ty, Ty),
    ds: &mut DiagList,
) -> Result<Ty, Need>
    ensures { Reads (reply_to o.now) (choice_on (site_of site.now) at condition branches.0 branches.1 ds.old) (with_diags result ds.new) }
{
    let (left, right) = branches;
    let p = branch_sides(alloc, site, o, condition, left, right)?;
    let ty = chosen(alloc, site, at, condition, &p, ds)?;
    Ok(ty)
}

/// An index (JLS 15.10.3).
pub(crate) fn check_index(
    alloc: Global,
    site: &Site<'_>,
    at: u32,
    array: Ty,
    index: Ty,
    ds: &mut DiagList,
) -> Result<Ty, AllocError>
    ensures { IfOk result (λ t. (t, ds.new) ≡ index_on (site_of site.now) at array index ds.old) }
{
    if let Some(ty) = element_type(array, index) {
        return Ok(ty);
    }
    refuse_both(alloc, site, at, 50, array, index, ds)?;
    Ok(BAD)
}

/// An assignment to what starts at `place`, of a value that starts at `right` (JLS 15.26).
#[tactic(auto, using(crate::proofs::DiagSteps::diag_steps), unfolding(crate::specs::Operators::assign_on))]
pub(crate) fn check_assign(
    alloc: Global,
    site: &Site<'_>,
    o: &Oracle,
    at: u32,
    op: u8,
    place: u32,
    variable: bool,
    v: Value,
    right: u32,
    ty: Ty,
    ds: &mut DiagList,
) -> Result<Ty, Need>
    ensures { Reads (reply_to o.now) (assign_on (site_of site.now) at op place variable v right ty ds.old) (with_diags result ds.new) }
{
    if op == 12 {
        return assign_plain(alloc, site, o, place, variable, v, right, ty, ds);
    }
    assign_compound(alloc, site, o, at, op, place, variable, v, ty, ds)
}
