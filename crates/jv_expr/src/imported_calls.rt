//! Calls of static methods that a file's static imports bring (JLS 7.5.3, 7.5.4, 15.12.1).

ghost use Rattle.std.specs.Prelude.{◌≡◌, ◌<◌, ◌^◌, true};
ghost use Rattle.sg_reading.specs.Reading.{and_then};
ghost use Rattle.sg_reading.specs.Stop.{Reads};
ghost use Rattle.jv_diag.specs.declared.codes.TheConstants.{UNKNOWN_METHOD};
ghost use Rattle.jv_names.specs.declared.static_kind.StaticKind.TheVariants.{Methods};
ghost use Rattle.jv_names.specs.Replies.{reply_to};
ghost use Rattle.jv_names.specs.Statics.{static_members};
ghost use Rattle.jv_expr.specs.Calls.{bad_call, imported, imported_among, imported_call};
ghost use Rattle.jv_expr.specs.Checking.{with_diags};
ghost use Rattle.jv_expr.specs.Manners.{manner_of};
ghost use Rattle.jv_expr.specs.Sites.{site_of};

use crate::argument::Argument;
use crate::imported_meaning::brought_meaning;
use crate::manner::Manner;
use crate::method_calls::{add_bad_call, check_method_called};
use crate::need::Need;
use crate::site::Site;
use jv_diag::{DiagList, codes};
use jv_instance::Ty;
use jv_names::{Meaning, Oracle, StaticKind, read_static_members};
use jv_tree::Ident;
use std::alloc::Global;

/// The manner of a call of an imported method.
fn imported() -> Manner
    ensures { manner_of result ≡ imported }
{
    Manner {
        through: None,
        free: true,
        concrete: false,
        on_value: false,
    }
}

/// A call of a static method that imports on demand bring.
#[tactic(auto, using(crate::proofs::ImportedSteps::imported_call_steps))]
fn check_on_demand_call(
    alloc: Global,
    site: &Site<'_>,
    o: &Oracle,
    i: Ident,
    arguments: &[Argument],
    ds: &mut DiagList,
) -> Result<Ty, Need>
    requires { site.now.spot.now.file < 2 ^ 31 }
    ensures { Reads (reply_to o.now)
        (and_then (static_members site.now.layout.now site.now.spot.now.file true Methods i.id) (imported_among (site_of site.now) i arguments.now ds.old (bad_call (site_of site.now) i UNKNOWN_METHOD ds.old)))
        (with_diags result ds.new) }
{
    let file = site.spot.file;
    let brought = read_static_members(
        alloc,
        site.layout,
        o,
        file,
        true,
        StaticKind::Methods,
        i.id,
    )?;
    match brought_meaning(&brought) {
        Meaning::One(method) => {
            check_method_called(alloc, site, o, imported(), i, arguments, method, ds)
        }
        Meaning::Nothing => Ok(add_bad_call(alloc, site, i, codes::UNKNOWN_METHOD, ds)?),
        Meaning::Ambiguous => Ok(add_bad_call(alloc, site, i, codes::AMBIGUOUS_NAME, ds)?),
        Meaning::TooMany => Ok(add_bad_call(alloc, site, i, codes::TOO_MANY_PATHS, ds)?),
    }
}

/// A call of a static method that single static imports of the file bring, and else of one that those on demand bring. It takes
/// the time of the answers, and looks at each static import of the file.
#[tactic(auto, using(crate::proofs::ImportedSteps::imported_call_steps), unfolding(crate::specs::Calls::imported_call))]
pub(crate) fn check_imported_call(
    alloc: Global,
    site: &Site<'_>,
    o: &Oracle,
    i: Ident,
    arguments: &[Argument],
    ds: &mut DiagList,
) -> Result<Ty, Need>
    requires { site.now.spot.now.file < 2 ^ 31 }
    ensures { Reads (reply_to o.now) (imported_call (site_of site.now) i arguments.now ds.old) (with_diags result ds.new) }
{
    let file = site.spot.file;
    let brought = read_static_members(
        alloc,
        site.layout,
        o,
        file,
        false,
        StaticKind::Methods,
        i.id,
    )?;
    match brought_meaning(&brought) {
        Meaning::One(method) => {
            check_method_called(alloc, site, o, imported(), i, arguments, method, ds)
        }
        Meaning::Nothing => check_on_demand_call(alloc, site, o, i, arguments, ds),
        Meaning::Ambiguous => Ok(add_bad_call(alloc, site, i, codes::AMBIGUOUS_NAME, ds)?),
        Meaning::TooMany => Ok(add_bad_call(alloc, site, i, codes::TOO_MANY_PATHS, ds)?),
    }
}
