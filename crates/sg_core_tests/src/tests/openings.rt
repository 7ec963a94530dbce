//! The runs with which cases begin.

use sg_base::{Label, Scope};
use sg_core::Core;
use sg_expr::Expr;
use sg_numbers::{FIRST, Numbers, SECOND};
use sg_order::Order;
use sg_query::{Kind, KindTable};
use sg_state::Opening;
use std::alloc::{AllocError, Global};
use std::test::Fail;

/// A run of units that end with numbers.
pub(crate) type Run = Core<Numbers, u64>;

/// The table of one kind that follows these words.
pub(crate) fn table_of(alloc: Global, expr: Expr) -> Result<KindTable, Fail> {
    let Ok(order) = Order::new(&[]) else {
        return Err(Fail::new("no order"));
    };
    if !expr.names_at_most(63) {
        return Err(Fail::new("too many names"));
    }
    let mut kinds = Vec::new(alloc);
    kinds.push(Kind { expr, order })?;
    Ok(KindTable::new(alloc, kinds)?)
}

/// One step with label 0.
pub(crate) fn one_step() -> Expr {
    Expr::One(Label::new(0))
}

/// For each unit the row with label 0 that it holds.
fn row_holds(alloc: Global) -> Result<Vec<(u32, Scope, Label)>, AllocError> {
    let holds = vec![in alloc; (0, FIRST, Label::new(0)), (1, SECOND, Label::new(0))]?;
    Ok(holds)
}

/// Two scopes, of which each unit holds one's row, with these data.
fn rows(alloc: Global, given: Vec<(Scope, u64)>) -> Result<Opening<u64>, AllocError> {
    Ok(Opening {
        scopes: vec![in alloc; FIRST, SECOND]?,
        edges: Vec::new(alloc),
        given,
        row_holds: row_holds(alloc)?,
        datum_holds: Vec::new(alloc),
        units: 2,
    })
}

/// One scope, whose datum unit 1 holds.
fn datum(alloc: Global) -> Result<Opening<u64>, AllocError> {
    Ok(Opening {
        scopes: vec![in alloc; FIRST]?,
        edges: Vec::new(alloc),
        given: Vec::new(alloc),
        row_holds: Vec::new(alloc),
        datum_holds: vec![in alloc; (1, FIRST)]?,
        units: 2,
    })
}

/// The opening of a name, and what queries follow there.
fn opening_of(alloc: Global, name: &str) -> Result<(Opening<u64>, Expr), Fail> {
    if name == "rows" {
        return Ok((rows(alloc, Vec::new(alloc))?, one_step()));
    }
    if name == "rows 7" {
        return Ok((rows(alloc, vec![in alloc; (FIRST, 7)]?)?, one_step()));
    }
    if name == "datum" {
        return Ok((datum(alloc)?, Expr::Empty));
    }
    Err(Fail::new("no such opening"))
}

/// A run that begins with the opening of a name.
pub(crate) fn begun(alloc: Global, name: &str) -> Result<Run, Fail> {
    let (opening, expr) = opening_of(alloc, name)?;
    if !opening.is_sound() {
        return Err(Fail::new("not sound"));
    }
    let table = table_of(alloc, expr)?;
    Ok(Core::<Numbers, u64>::open(alloc, opening, table)?)
}
