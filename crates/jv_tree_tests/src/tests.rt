//! Names and nodes, each call with ample memory.

use jv_tree::nodes::{
    assignment, bare, block, bool_literal, call, cast, chain, conditional, do_loop, effect, empty,
    field, for_loop, if_else, import, index, int_literal, name_expression, on, operand, postfix,
    prefix, this, type_ref, while_loop,
};
use jv_tree::{
    Base, Expr, ExprKind, Ident, Import, Name, NameId, Names, Step, StepKind, Stmt, StmtKind,
    Target,
};
use std::alloc::{AllocError, Global};
use std::test::Fail;

fn ident(at: u32) -> Ident {
    Ident { at, id: NameId(0) }
}

/// A name of one identifier at the offset.
fn named(alloc: Global, at: u32) -> Result<Expr, Fail> {
    let ids = vec![in alloc; ident(at)]?;
    Ok(name_expression(at, Name { ids }))
}

/// Texts in the order in which they are seen, with their numbers and how many names there are then.
const FIRST_SEEN: [(&str, u32, u32); 5] = [
    ("x", 0, 1),
    ("größe", 1, 2),
    ("x", 0, 2),
    ("", 2, 3),
    ("y", 3, 4),
];

/// Whether a text has this name, which is one of the names.
fn has_name(names: &Names, text: &str, id: NameId) -> bool {
    names.find(text) == Some(id) && id.0 < names.len() && names.text(id) == text
}

/// Whether a text is given this number, and there are so many names then.
fn is_numbered(names: &mut Names, text: &str, number: u32, len: u32) -> Result<bool, Fail> {
    if names.len() >= 100 {
        return Ok(false);
    }
    let id = names.intern(text)?;
    Ok(id == NameId(number) && names.len() == len && has_name(names, text, id))
}

/// The first of the texts that is given another number.
fn wrong_number(names: &mut Names) -> Result<Option<&'static str>, Fail> {
    for (text, number, len) in &FIRST_SEEN {
        if !is_numbered(names, text, *number, *len)? {
            return Ok(Some(*text));
        }
    }
    Ok(None)
}

#[test]
fn numbers_in_first_seen_order(rt: HostRuntime) -> Result<(), Fail> {
    let mut names = Names::new(rt.alloc());
    assert_eq!(rt; names.len(), 0);
    assert_eq!(rt; wrong_number(&mut names)?, None);
    assert_eq!(rt; names.find("z"), None);
    Ok(())
}

/// A field of `this`.
fn access(alloc: Global) -> Result<Expr, AllocError> {
    field(alloc, 1, this(1), ident(6))
}

/// A call on a field of `this`, with one argument.
fn called(alloc: Global) -> Result<Expr, AllocError> {
    let target = on(alloc, access(alloc)?)?;
    let arguments = vec![in alloc; int_literal(10)]?;
    Ok(call(1, target, ident(8), arguments))
}

fn field_has_its_parts(alloc: Global) -> Result<bool, AllocError> {
    let access = access(alloc)?;
    Ok(matches!(&access.kind, ExprKind::Field(object, name) if object.at == 1 && name.at == 6))
}

fn target_has_its_object(alloc: Global) -> Result<bool, AllocError> {
    let target = on(alloc, access(alloc)?)?;
    Ok(matches!(&target, Target::On(object) if object.at == 1))
}

fn call_has_its_parts(alloc: Global) -> Result<bool, AllocError> {
    let called = called(alloc)?;
    Ok(
        matches!(&called.kind, ExprKind::Call(_, name, arguments) if name.at == 8 && arguments.len() == 1),
    )
}

fn index_has_its_parts(alloc: Global) -> Result<bool, AllocError> {
    let element = index(alloc, 1, called(alloc)?, int_literal(12))?;
    Ok(matches!(&element.kind, ExprKind::Index(array, place) if array.at == 1 && place.at == 12))
}

#[test]
fn primaries(rt: HostRuntime) -> Result<(), Fail> {
    let alloc = rt.alloc();
    assert!(rt; field_has_its_parts(alloc)?);
    assert!(rt; target_has_its_object(alloc)?);
    assert!(rt; call_has_its_parts(alloc)?);
    assert!(rt; index_has_its_parts(alloc)?);
    Ok(())
}

/// `this` with an operator behind it.
fn raised(alloc: Global) -> Result<Expr, AllocError> {
    postfix(alloc, 1, 14, 26, this(1))
}

/// An operator in front of what has one behind it.
fn negated(alloc: Global) -> Result<Expr, AllocError> {
    prefix(alloc, 0, 0, 29, raised(alloc)?)
}

fn postfix_has_its_parts(alloc: Global) -> Result<bool, AllocError> {
    let raised = raised(alloc)?;
    Ok(matches!(&raised.kind, ExprKind::Post(14, 26, of) if of.at == 1))
}

fn prefix_has_its_parts(alloc: Global) -> Result<bool, AllocError> {
    let negated = negated(alloc)?;
    Ok(matches!(&negated.kind, ExprKind::Pre(0, 29, of) if of.at == 1))
}

fn chain_has_its_parts(alloc: Global) -> Result<bool, AllocError> {
    let others = vec![in alloc; (16, 28, operand(int_literal(17)))]?;
    let sum = chain(alloc, 0, negated(alloc)?, others)?;
    Ok(matches!(&sum.kind, ExprKind::Chain(first, others) if first.at == 0 && others.len() == 1))
}

#[test]
fn operators(rt: HostRuntime) -> Result<(), Fail> {
    let alloc = rt.alloc();
    assert!(rt; postfix_has_its_parts(alloc)?);
    assert!(rt; prefix_has_its_parts(alloc)?);
    assert!(rt; chain_has_its_parts(alloc)?);
    Ok(())
}

/// A cast of `this`.
fn converted(alloc: Global) -> Result<Expr, AllocError> {
    cast(alloc, 20, type_ref(21, Base::Long, 0), this(22))
}

/// A choice between a cast and a literal.
fn chosen(alloc: Global) -> Result<Expr, AllocError> {
    conditional(
        alloc,
        30,
        bool_literal(30, true),
        converted(alloc)?,
        int_literal(40),
    )
}

fn cast_has_its_parts(alloc: Global) -> Result<bool, AllocError> {
    let converted = converted(alloc)?;
    Ok(matches!(&converted.kind, ExprKind::Cast(ty, of) if ty.at == 21 && of.at == 22))
}

fn choice_has_its_parts(alloc: Global) -> Result<bool, AllocError> {
    let chosen = chosen(alloc)?;
    Ok(
        matches!(&chosen.kind, ExprKind::Cond(test, yes, no) if test.at == 30 && yes.at == 20 && no.at == 40),
    )
}

/// An assignment of a choice to a name.
fn assigned(alloc: Global) -> Result<Expr, Fail> {
    let left = named(alloc, 50)?;
    let right = chosen(alloc)?;
    Ok(assignment(alloc, 50, 52, 12, left, right)?)
}

fn assignment_has_its_parts(alloc: Global) -> Result<bool, Fail> {
    let assigned = assigned(alloc)?;
    Ok(
        matches!(&assigned.kind, ExprKind::Assign(52, 12, left, right) if left.at == 50 && right.at == 30),
    )
}

#[test]
fn choices(rt: HostRuntime) -> Result<(), Fail> {
    let alloc = rt.alloc();
    assert!(rt; cast_has_its_parts(alloc)?);
    assert!(rt; choice_has_its_parts(alloc)?);
    assert!(rt; assignment_has_its_parts(alloc)?);
    Ok(())
}

/// Whether a literal is `true` or `false`, as it is to be.
fn has_value(literal: &Expr, wanted: bool) -> bool {
    literal.at == 3 && matches!(&literal.kind, ExprKind::Bool(value) if *value == wanted)
}

#[test]
fn literals_keep_their_value(rt: HostRuntime) -> Result<(), Fail> {
    let yes = bool_literal(3, true);
    let no = bool_literal(3, false);
    assert!(rt; has_value(&yes, true) && !has_value(&yes, false));
    assert!(rt; has_value(&no, false) && !has_value(&no, true));
    Ok(())
}

/// An import of a name of one identifier.
fn imported(alloc: Global, all: bool, is_static: bool) -> Result<Import, AllocError> {
    let ids = vec![in alloc; ident(7)]?;
    Ok(import(Name { ids }, all, is_static))
}

/// Whether an import is of one identifier, on demand and static as it is to be.
fn is_import(import: &Import, all: bool, is_static: bool) -> bool {
    import.name.ids.len() == 1 && import.all == all && import.is_static == is_static
}

#[test]
fn imports(rt: HostRuntime) -> Result<(), Fail> {
    let alloc = rt.alloc();
    assert!(rt; is_import(&imported(alloc, true, false)?, true, false));
    assert!(rt; is_import(&imported(alloc, false, true)?, false, true));
    Ok(())
}

/// A loop over a block of one statement.
fn looped(alloc: Global) -> Result<Stmt, AllocError> {
    let body = block(9, vec![in alloc; empty(10)]?);
    while_loop(alloc, 1, bool_literal(7, true), body)
}

fn while_has_its_parts(alloc: Global) -> Result<bool, AllocError> {
    let looped = looped(alloc)?;
    Ok(matches!(&looped.kind, StmtKind::While(test, body) if test.at == 7 && body.at == 9))
}

fn do_has_its_parts(alloc: Global) -> Result<bool, AllocError> {
    let repeated = do_loop(alloc, 20, looped(alloc)?, bool_literal(30, false))?;
    Ok(matches!(&repeated.kind, StmtKind::Do(body, test) if body.at == 1 && test.at == 30))
}

#[test]
fn loops(rt: HostRuntime) -> Result<(), Fail> {
    let alloc = rt.alloc();
    assert!(rt; while_has_its_parts(alloc)?);
    assert!(rt; do_has_its_parts(alloc)?);
    Ok(())
}

/// A loop with one statement in front and one expression after each round.
fn round(alloc: Global) -> Result<Stmt, AllocError> {
    let called = call(40, bare(), ident(40), Vec::new(alloc));
    let first = vec![in alloc; effect(40, called)]?;
    let after = vec![in alloc; int_literal(50)]?;
    for_loop(
        alloc,
        35,
        first,
        Some(bool_literal(45, false)),
        after,
        empty(60),
    )
}

fn is_round(round: &Stmt) -> bool {
    matches!(&round.kind, StmtKind::For(first, Some(test), after, body)
        if first.len() == 1 && test.at == 45 && after.len() == 1 && body.at == 60)
}

fn round_has_its_parts(alloc: Global) -> Result<bool, AllocError> {
    Ok(is_round(&round(alloc)?))
}

#[test]
fn rounds(rt: HostRuntime) -> Result<(), Fail> {
    assert!(rt; round_has_its_parts(rt.alloc())?);
    Ok(())
}

/// A branch.
fn one_branch(alloc: Global) -> Result<Vec<(Expr, Stmt)>, AllocError> {
    let branches = vec![in alloc; (bool_literal(60, true), empty(65))]?;
    Ok(branches)
}

/// An `if` of a branch and an `else`.
fn guarded(alloc: Global) -> Result<Stmt, AllocError> {
    if_else(alloc, 58, one_branch(alloc)?, Some(empty(70)))
}

fn if_has_its_parts(alloc: Global) -> Result<bool, AllocError> {
    let guarded = guarded(alloc)?;
    Ok(
        matches!(&guarded.kind, StmtKind::If(branches, Some(otherwise)) if branches.len() == 1 && otherwise.at == 70),
    )
}

#[test]
fn branches(rt: HostRuntime) -> Result<(), Fail> {
    assert!(rt; if_has_its_parts(rt.alloc())?);
    Ok(())
}

/// `this.a.b(1)`.
fn call_of_field(alloc: Global) -> Result<Expr, AllocError> {
    let target = on(alloc, field(alloc, 3, this(4), ident(9))?)?;
    let arguments = vec![in alloc; int_literal(13)]?;
    Ok(call(2, target, ident(11), arguments))
}

/// `this.a.b(1)[2]`.
fn index_of_call(alloc: Global) -> Result<Expr, AllocError> {
    index(alloc, 1, call_of_field(alloc)?, int_literal(16))
}

fn is_head(head: &Expr) -> bool {
    head.at == 4 && matches!(&head.kind, ExprKind::This)
}

fn is_first(step: &Step<'_>) -> bool {
    step.at == 3 && matches!(&step.kind, StepKind::Field(name) if name.at == 9)
}

fn is_second(step: &Step<'_>) -> bool {
    step.at == 2
        && matches!(&step.kind, StepKind::Call(name, arguments) if name.at == 11 && arguments.len() == 1)
}

fn is_third(step: &Step<'_>) -> bool {
    step.at == 1 && matches!(&step.kind, StepKind::Index(place) if place.at == 16)
}

fn are_steps(steps: &[Step<'_>]) -> bool {
    match steps {
        [first, second, third] => is_first(first) && is_second(second) && is_third(third),
        _ => false,
    }
}

/// Whether the spine of an expression has the head and the steps of `this.a.b(1)[2]`.
fn spine_has_its_parts(alloc: Global, element: &Expr) -> Result<bool, AllocError> {
    let spine = element.spine(alloc)?;
    Ok(is_head(spine.head) && are_steps(&spine.steps))
}

#[test]
fn spines(rt: HostRuntime) -> Result<(), Fail> {
    let element = index_of_call(rt.alloc())?;
    assert!(rt; spine_has_its_parts(rt.alloc(), &element)?);
    Ok(())
}

/// A call on a field of an expression.
fn call_behind(alloc: Global, object: Expr) -> Result<Expr, AllocError> {
    let target = on(alloc, field(alloc, 0, object, ident(1))?)?;
    Ok(call(0, target, ident(2), Vec::new(alloc)))
}

/// An index into a field of an expression.
fn index_behind(alloc: Global, object: Expr) -> Result<Expr, AllocError> {
    index(alloc, 0, field(alloc, 0, object, ident(3))?, int_literal(4))
}

/// Fields, calls and indexes, so many times four.
fn long_spine(alloc: Global, times: u32) -> Result<Expr, AllocError> {
    let mut whole = this(0);
    for _time in 0..times {
        whole = index_behind(alloc, call_behind(alloc, whole)?)?;
    }
    Ok(whole)
}

/// Fields, calls and indexes, two million in all, are walked and let go on the stack of this thread.
#[test]
fn long_spines(rt: HostRuntime) -> Result<(), Fail> {
    let alloc = rt.alloc();
    let whole = long_spine(alloc, 500_000)?;
    assert_eq!(rt; whole.spine(alloc)?.steps.len(), 2_000_000);
    Ok(())
}
