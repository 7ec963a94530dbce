//! Conversions over replies.

ghost use Rattle.std.specs.Prelude.{◌≡◌};
ghost use Rattle.sg_reading.specs.Stop.{Reads};
ghost use Rattle.jv_names.specs.Replies.{reply_to};
ghost use Rattle.jv_expr.specs.Checking.{only_diags};
ghost use Rattle.jv_expr.specs.Conversions.{fits};
ghost use Rattle.jv_expr.specs.Operators.{assigned_to};
ghost use Rattle.jv_expr.specs.Sites.{site_of};

use crate::faults::add_misfit;
use crate::need::Need;
use crate::sides::{asks_supers, base_supers, known_supers};
use crate::site::Site;
use jv_diag::DiagList;
use jv_instance::Ty;
use jv_layout::Layout;
use jv_names::Oracle;
use jv_types::assignable;
use std::alloc::Global;

/// Whether a value of the first type may be assigned to a variable of the second (JLS 5.2).
#[tactic(auto, using(sg_reading::proofs::Steps::reading_steps), unfolding(crate::specs::Conversions::fits))]
pub(crate) fn read_fits(
    alloc: Global,
    l: &Layout,
    o: &Oracle,
    from: Ty,
    to: Ty,
) -> Result<bool, Need>
    ensures { Reads (reply_to o.now) (fits l.now from to) result }
{
    if !asks_supers(l, from, to) {
        let known = known_supers(alloc, l, from.base)?;
        return Ok(assignable(from, to, known.as_slice(), l.object()));
    }
    let up = base_supers(alloc, l, o, from.base)?;
    Ok(assignable(from, to, up.as_slice(), l.object()))
}

/// Checks that a value that starts at an offset may be assigned to a variable.
#[tactic(auto, using(crate::proofs::DiagSteps::diag_steps), unfolding(crate::specs::Operators::assigned_to))]
pub(crate) fn check_assigned(
    alloc: Global,
    site: &Site<'_>,
    o: &Oracle,
    at: u32,
    found: Ty,
    needed: Ty,
    ds: &mut DiagList,
) -> Result<(), Need>
    ensures { Reads (reply_to o.now) (assigned_to (site_of site.now) at found needed ds.old) (only_diags result ds.new) }
{
    let ok = read_fits(alloc, site.layout, o, found, needed)?;
    add_misfit(alloc, ok, site, at, found, needed, ds)?;
    Ok(())
}
