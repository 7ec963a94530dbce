//! Which of several methods is called.

ghost use Rattle.std.specs.Prelude.{◌≡◌, ◌∷◌};
ghost use Rattle.sg_reading.specs.Reading.{each};
ghost use Rattle.sg_reading.specs.Stop.{Reads};
ghost use Rattle.jv_names.specs.Replies.{reply_to};
ghost use Rattle.jv_expr.specs.Calls.{chosen, result_type};
ghost use Rattle.jv_expr.specs.Fields.{result_of};

use crate::applying::bad_type;
use crate::need::Need;
use jv_instance::{Ty, TypeList};
use jv_layout::Layout;
use jv_names::{Oracle, ReadSignature, first_concrete, read_first_fitting, read_signature_of};
use sg_base::Scope;
use std::alloc::Global;

/// The result of a signature; where there is none, a bad one.
fn result_of(signature: &Option<ReadSignature>) -> Ty
    ensures { result ≡ result_of signature.now }
{
    match signature {
        None => bad_type(),
        Some(found) => found.result,
    }
}

/// The result of a method.
#[tactic(auto, using(crate::proofs::CallSteps::call_steps))]
fn read_result_type(alloc: Global, l: &Layout, o: &Oracle, method: Scope) -> Result<Ty, Need>
    ensures { Reads (reply_to o.now) (result_type l.now method) result }
{
    let signature = read_signature_of(alloc, l, o, method)?;
    Ok(result_of(&signature))
}

/// The results of methods.
#[tactic(auto, using(crate::proofs::ChoosingSteps::result_steps))]
fn read_result_types(
    alloc: Global,
    l: &Layout,
    o: &Oracle,
    methods: &[Scope],
) -> Result<TypeList, Need>
    ensures { Reads (reply_to o.now) (each (result_type l.now) methods.now) result }
{
    let mut results = Vec::new(alloc);
    for method in methods {
        let ty = read_result_type(alloc, l, o, *method)?;
        results.push(ty)?;
    }
    Ok(TypeList::new(results))
}

/// Of several methods, with the first of them and the others, the one that is called (JLS 15.12.2.5): the first that is not abstract,
/// else the first whose result fits all others, else the first.
#[tactic(auto, using(crate::proofs::ChoosingSteps::choosing_steps))]
pub(crate) fn read_chosen(
    alloc: Global,
    l: &Layout,
    o: &Oracle,
    first: Scope,
    others: &[Scope],
    methods: &[Scope],
) -> Result<Scope, Need>
    requires { methods.now ≡ first ∷ others.now }
    ensures { Reads (reply_to o.now) (chosen l.now first others.now) result }
{
    if others.is_empty() {
        return Ok(first);
    }
    if let Some(method) = first_concrete(l, methods) {
        return Ok(method);
    }
    let results = read_result_types(alloc, l, o, methods)?;
    read_first_fitting(l, o, results.as_slice(), first, methods, results.as_slice())
}
