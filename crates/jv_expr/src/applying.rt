//! The arguments of a call against a signature.

ghost use Rattle.std.specs.Prelude.{◌≡◌, [], ◌∷◌, OnOk};
ghost use Rattle.sg_reading.specs.Stop.{Reads};
ghost use Rattle.jv_diag.specs.declared.codes.TheConstants.{NUMBER_OF_ARGUMENTS};
ghost use Rattle.jv_types.specs.Operators.{bad_type};
ghost use Rattle.jv_names.specs.Replies.{reply_to};
ghost use Rattle.jv_expr.specs.Calls.{applied, applied_by, applied_to, arguments_fit};
ghost use Rattle.jv_expr.specs.Checking.{only_diags, with_diags};
ghost use Rattle.jv_expr.specs.Site.{with_fault};
ghost use Rattle.jv_expr.specs.Sites.{site_of};

use crate::argument::Argument;
use crate::conversions::check_assigned;
use crate::faults::add_fault;
use crate::need::Need;
use crate::site::Site;
use jv_diag::{DiagList, codes};
use jv_instance::{Ty, TypeBase};
use jv_names::{Oracle, ReadSignature};
use std::alloc::{AllocError, Global};

/// A type where something was wrong.
pub(crate) fn bad_type() -> Ty
    ensures { result ≡ bad_type }
{
    Ty {
        base: TypeBase::Bad,
        dims: 0,
    }
}

/// Adds that a call has another number of arguments than its signature takes.
fn add_wrong_count(
    alloc: Global,
    site: &Site<'_>,
    at: u32,
    text: &str,
    ds: &mut DiagList,
) -> Result<(), AllocError>
    ensures { OnOk result (ds.new ≡ with_fault (site_of site.now) at NUMBER_OF_ARGUMENTS (text.now ∷ []) ds.old) }
{
    add_fault(alloc, site, at, codes::NUMBER_OF_ARGUMENTS, &[text], ds)
}

/// Checks that each argument fits its parameter.
#[tactic(auto, using(crate::proofs::ApplyingSteps::fit_steps))]
fn check_arguments_fit(
    alloc: Global,
    site: &Site<'_>,
    o: &Oracle,
    params: &[Ty],
    arguments: &[Argument],
    ds: &mut DiagList,
) -> Result<(), Need>
    ensures { Reads (reply_to o.now) (arguments_fit (site_of site.now) params.now arguments.now ds.old) (only_diags result ds.new) }
{
    let mut rest = params;
    let mut left = arguments;
    while let Some((param, later)) = rest.split_first() {
        let Some((argument, more)) = left.split_first() else {
            return Ok(());
        };
        check_assigned(alloc, site, o, argument.at, argument.ty, *param, ds)?;
        rest = later;
        left = more;
    }
    Ok(())
}

/// A signature is called with arguments, by a text at an offset.
#[tactic(auto, using(crate::proofs::CallSteps::call_steps))]
fn check_applied_to(
    alloc: Global,
    site: &Site<'_>,
    o: &Oracle,
    at: u32,
    text: &str,
    arguments: &[Argument],
    signature: &ReadSignature,
    ds: &mut DiagList,
) -> Result<Option<Ty>, Need>
    ensures { Reads (reply_to o.now) (applied_to (site_of site.now) at text.now arguments.now signature.now ds.old) (with_diags result ds.new) }
{
    if signature.params.as_slice().len() == arguments.len() {
        check_arguments_fit(alloc, site, o, signature.params.as_slice(), arguments, ds)?;
        return Ok(Some(signature.result));
    }
    add_wrong_count(alloc, site, at, text, ds)?;
    Ok(None)
}

/// A signature, where there is one, is called with arguments, by a text at an offset: its result, where it takes so many (JLS
/// 15.12.2). What has no signature gives a bad result.
#[tactic(auto, using(crate::proofs::CallSteps::call_steps), unfolding(crate::specs::Calls::applied))]
pub(crate) fn check_applied(
    alloc: Global,
    site: &Site<'_>,
    o: &Oracle,
    at: u32,
    text: &str,
    arguments: &[Argument],
    signature: &Option<ReadSignature>,
    ds: &mut DiagList,
) -> Result<Option<Ty>, Need>
    ensures { Reads (reply_to o.now) (applied (site_of site.now) at text.now arguments.now signature.now ds.old) (with_diags result ds.new) }
{
    match signature {
        None => Ok(Some(bad_type())),
        Some(found) => check_applied_to(alloc, site, o, at, text, arguments, found, ds),
    }
}
