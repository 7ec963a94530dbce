//! The least holder of each need.

ghost use Rattle.std.specs.Prelude.{◌≡◌, IfOk, OnOk};
ghost use Rattle.sg_state.specs.declared.need.Need.{Need as NeedOf};
ghost use Rattle.sg_waits.specs.Shown.{IsLeastAt, Lowers, holder_at};

use sg_state::Need;
use std::alloc::{AllocError, Global};
use std::collections::BTreeMap;

/// Notes a holder of a need, unless a lesser one is known, by a look-up.
pub fn lower(least: &mut BTreeMap<Need, u32>, need: &Need, holder: u32) -> Result<(), AllocError>
    ensures { OnOk result (Lowers least.old.entries least.new.entries need.now holder) }
{
    let known = least.get(need).copied();
    let lesser = match known {
        Some(known) => holder.min(known),
        None => holder,
    };
    match least.insert(*need, lesser) {
        Ok(_) => Ok(()),
        Err(_) => Err(AllocError),
    }
}

/// For each need the least of its holders in a list. Costs a look-up for each entry of the list.
pub fn least(alloc: Global, holder_of: &[(Need, u32)]) -> Result<BTreeMap<Need, u32>, AllocError>
    ensures { IfOk result (λ m. (n : NeedOf) → IsLeastAt holder_of.now n (holder_at m.entries n)) }
{
    let mut least = BTreeMap::new(alloc);
    for pair in holder_of {
        match lower(&mut least, &pair.0, pair.1) {
            Ok(()) => {}
            Err(error) => return Err(error),
        }
    }
    Ok(least)
}
