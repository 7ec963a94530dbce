ghost use Rattle.std.specs.Prelude.{◌≡◌, ◌<◌, ◌^◌, length, IfOk, IfSome, IfNone, [], ◌∷◌};
ghost use Rattle.sg_waits.specs.Shown.{item_of, items_below};
ghost use Rattle.sg_waits.specs.Waits.{needs_at};

use crate::status::Status;
use crate::units;
use sg_state::Need;
use std::alloc::{AllocError, Global};
use std::collections::BTreeMap;
use std::marker::Model;

/// A waiting unit, the least of its needs, and the least holder of that need.
#[derive(Clone, Copy, Debug, PartialEq, Eq)]
pub struct ShownItem {
    pub unit: u32,
    pub need: Need,
    pub holder: u32,
}

/// Items that a stuck table shows, which contracts see as their list.
#[derive(Debug, Drop)]
pub struct ShownItems {
    items: Vec<ShownItem>,
}

impl Model for ShownItems {
    ghost use Rattle.std.specs.Prelude.{List};
    ghost use Rattle.sg_waits.specs.declared.shown.ShownItem.{ShownItem};

    ghost Value = { List ShownItem };

    ghost view = { λ s. s.items.items };
}

impl ShownItems {
    /// The items in rising order of their units.
    pub fn as_slice(&self) -> &[ShownItem]
        ensures { result.now ≡ self.now }
    {
        self.items.as_slice()
    }
}

/// Who waits for what, and who holds it: an item for each waiting unit, in rising order of units.
#[derive(Debug, Drop)]
pub struct Shown {
    pub items: ShownItems,
}

/// The item of a unit, if it waits and its least need has a holder.
pub fn item_of(units: &[Status], least: &BTreeMap<Need, u32>, unit: u32) -> Option<ShownItem>
    ensures some { IfSome result (λ i. item_of (needs_at units.now unit) least.now.entries unit ≡ i ∷ []) }
    ensures none { IfNone result (item_of (needs_at units.now unit) least.now.entries unit ≡ []) }
{
    match units::needs_at(units, unit) {
        [need, ..] => match least.get(need) {
            Some(holder) => Some(ShownItem {
                unit,
                need: *need,
                holder: *holder,
            }),
            None => None,
        },
        [] => None,
    }
}

/// The items of all units, by the least holders of needs.
pub fn items(
    alloc: Global,
    units: &[Status],
    least: &BTreeMap<Need, u32>,
) -> Result<ShownItems, AllocError>
    requires few { length units.now < 2 ^ 32 }
    ensures { IfOk result (λ s. s ≡ items_below units.now least.now.entries (length units.now)) }
{
    let mut items = Vec::new(alloc);
    for unit in 0..units.len() as u32 {
        match item_of(units, least, unit) {
            Some(item) => match items.push(item) {
                Ok(()) => {}
                Err(_) => return Err(AllocError),
            },
            None => {}
        }
    }
    Ok(ShownItems { items })
}
