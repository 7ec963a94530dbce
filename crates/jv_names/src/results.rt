//! Which result a method that overrides another one may have.

ghost use Rattle.std.specs.Prelude.{◌≡◌};
ghost use Rattle.sg_reading.specs.Stop.{Reads};
ghost use Rattle.jv_names.specs.Replies.{reply_to};
ghost use Rattle.jv_names.specs.Read.{base_fits, is_under_object, result_fits};

use crate::answers::has_end;
use crate::counts::Counts;
use crate::kinds;
use crate::oracle::Oracle;
use crate::queries::{ask, for_any};
use jv_instance::{JavaPred, Ty, TypeBase};
use jv_layout::Layout;
use jv_types::{is_reference, is_type, subtype};
use sg_base::Scope;
use sg_query::Query;
use sg_reading::Stop;

/// Whether an interface is compared with `Object`.
fn is_under_object(l: &Layout, class: Scope, above: Scope) -> bool
    ensures { result ≡ is_under_object l.now class above }
{
    l.is_interface(class) && above == l.object()
}

/// Whether a result of one base fits another one with the same brackets.
#[tactic(auto, using(crate::proofs::ResultSteps::result_steps))]
fn read_base_fits(l: &Layout, o: &Oracle, from: Ty, to: Ty) -> Result<bool, Stop<Query<JavaPred>>>
    requires { from.dims ≡ to.dims }
    ensures { Reads (reply_to o.now) (base_fits l.now from to from.base to.base) result }
{
    let TypeBase::Class(class) = from.base else {
        return Ok(false);
    };
    let TypeBase::Class(above) = to.base else {
        return Ok(false);
    };
    if is_under_object(l, class, above) {
        return Ok(true);
    }
    let answer = ask(o, for_any(kinds::SUPERS, class))?;
    Ok(has_end(l, Counts::Supertypes, above, answer))
}

/// Whether a result fits another one as far as the replies tell it, or the query that has no reply: an equal type, or a
/// reference type below a reference type (JLS 8.4.5). Supertypes are asked for where two different classes are compared that have
/// as many brackets, but not of an interface against `Object`. It takes the time of the paths of the answer.
#[tactic(auto, using(crate::proofs::ResultSteps::result_steps), unfolding(crate::specs::Read::result_fits))]
pub fn read_result_fits(
    l: &Layout,
    o: &Oracle,
    from: Ty,
    to: Ty,
) -> Result<bool, Stop<Query<JavaPred>>>
    ensures { Reads (reply_to o.now) (result_fits l.now from to) result }
{
    if is_type(from, to) {
        return Ok(true);
    }
    if !(is_reference(from) && is_reference(to)) {
        return Ok(false);
    }
    if from.dims == to.dims {
        return read_base_fits(l, o, from, to);
    }
    Ok(subtype(from, to, &[], l.object()))
}
