ghost use Rattle.std.specs.Prelude.{◌≡◌, ℕ, ◌<◌, ◌↔◌, IsTrue, length, slice_set, replicate, fold, take, IfOk, OnOk, OnErr, IfSome, IfNone};
ghost use Rattle.std.specs.List.{Contains};
ghost use Rattle.std.specs.Ordering.{nat_cmp};
ghost use Rattle.sg_base.specs.List.{IsRising};
ghost use Rattle.sg_state.specs.Need.{need_cmp};
ghost use Rattle.sg_waits.specs.declared.status.Status.TheVariants.{Ended, Runs, Waits as WaitsFor};
ghost use Rattle.sg_waits.specs.Shown.{AreShown, NamesHolders};
ghost use Rattle.sg_waits.specs.Waits.{AllWait, IsLeastRunning, IsLive, IsWaiting, Notes, WaitsForOne, Wakes, runs, status_at, needs_at, set_running};

use crate::listing::Listing;
use crate::need_list::NeedList;
use crate::shown::Shown;
use crate::status::Status;
use crate::woken::Woken;
use crate::{blocks, holders, listings, shown, units};
use sg_state::Need;
use std::alloc::{AllocError, Global};
use std::collections::BTreeSet;
use std::marker::Model;
use std::mem;

/// Which units are live, and what those that wait need. Contracts see how each unit stands, by its number. After want of
/// memory nothing has changed.
#[derive(Drop)]
pub struct Waits {
    alloc: Global,
    units: Vec<Status>,
    /// How each unit stood when it last waited, for which it is listed until it waits again or ends.
    kept: Vec<Status>,
    listings: BTreeSet<Listing>,
    flags: Vec<bool>,
    running: u32,
    waiting: u32,
}

impl Model for Waits {
    ghost use Rattle.sg_waits.specs.Waits.{WaitsOf};

    ghost Value = { WaitsOf };

    ghost use Rattle.sg_waits.specs.Block.{IsFlagged};
    ghost use Rattle.sg_waits.specs.Table.{IsTable};

    ghost view = { λ w. w.units.items };

    ghost invariant = { λ w. IsTable w.units.items w.kept.items w.listings.keys w.running w.waiting × IsFlagged w.units.items w.flags.items };
}

impl Waits {
    /// The table of so many units, all of which are live and run.
    pub fn open(alloc: Global, units: u32) -> Result<Waits, AllocError>
        ensures { IfOk result (λ w. w ≡ replicate units Runs) }
    {
        let list = units::running(alloc, units)?;
        let kept = units::running(alloc, units)?;
        let flags = blocks::all(alloc, units)?;
        Ok(Waits {
            alloc,
            units: list,
            kept,
            listings: BTreeSet::new(alloc),
            flags,
            running: units,
            waiting: 0,
        })
    }

    /// Makes a live unit wait for these needs, in place of earlier ones. Costs one sort and a binary search for each need, of
    /// these and of those that it waited for last, and a look-up for each that only one of the two has.
    pub fn note(&mut self, unit: u32, needs: &[Need]) -> Result<(), AllocError>
        requires live { IsLive self.old unit }
        requires some { 0 < length needs.now }
        ensures ok { OnOk result (Notes self.old self.new unit needs.now) }
        ensures rising { OnOk result (IsRising need_cmp needs.now → self.new ≡ slice_set self.old unit (WaitsFor needs.now)) }
        ensures err { OnErr result (self.new ≡ self.old) }
    {
        let list = NeedList::of(self.alloc, needs)?;
        let before = units::listed_at(&self.units, &self.kept, unit);
        listings::change(&mut self.listings, before, list.as_slice(), unit)?;
        if units::runs(&self.units, unit) {
            self.running -= 1;
            self.waiting += 1;
        }
        self.units[unit as usize] = Status::Waits(list);
        self.kept[unit as usize] = Status::Runs;
        blocks::refresh(&self.units, &mut self.flags, unit);
        Ok(())
    }

    /// Makes a live unit run. Takes constant time and no memory: it stays listed until it waits again or ends.
    pub fn forget(&mut self, unit: u32)
        requires live { IsLive self.old unit }
        ensures { self.new ≡ slice_set self.old unit Runs }
    {
        if units::waits(&self.units, unit) {
            self.waiting -= 1;
            self.running += 1;
            self.kept[unit as usize] = mem::replace(&mut self.units[unit as usize], Status::Runs);
            blocks::mark(&mut self.flags, unit);
        }
    }

    /// Ends a unit, by a look-up for each need that it waited for last; one that is no live unit stays as it is. Takes no memory.
    pub fn end(&mut self, unit: u32)
        ensures { self.new ≡ slice_set self.old unit Ended }
    {
        if units::is_live(&self.units, unit) {
            self.end_live(unit);
        }
    }

    /// Ends a live unit.
    fn end_live(&mut self, unit: u32)
        requires live { IsLive self.old unit }
        ensures { self.new ≡ slice_set self.old unit Ended }
    {
        self.forget(unit);
        let needs = units::needs_at(&self.kept, unit);
        listings::take_off(&mut self.listings, needs, &[], unit);
        self.running -= 1;
        self.units[unit as usize] = Status::Ended;
        self.kept[unit as usize] = Status::Runs;
        blocks::refresh(&self.units, &mut self.flags, unit);
    }

    /// Makes all these live units run, in constant time each. Takes no memory.
    pub fn wake(&mut self, list: &[u32])
        requires live { (u : ℕ) → Contains list.now u → IsLive self.old u }
        ensures { self.new ≡ fold set_running self.old list.now }
    {
        for unit in list {
            self.forget(*unit);
        }
    }

    /// The units that wait for one of these needs, in rising order. Costs a look-up for each need, and for each unit that
    /// waits for it or waited for it last. Changes nothing.
    pub fn waiting_for(&self, gone: &[Need]) -> Result<Vec<u32>, AllocError>
        ensures exact { IfOk result (λ v. (u : ℕ) → (Contains v.items u) ↔ (WaitsForOne self.now u gone.now)) }
        ensures rising { IfOk result (λ v. IsRising nat_cmp v.items) }
    {
        let found = listings::listed_for(self.alloc, &self.listings, gone)?;
        let woken = Woken::of(self.alloc, &found, &self.units)?;
        Ok(woken.into_vec())
    }

    /// Makes the units run that wait for one of these needs, and gives them in rising order. Costs a look-up for each
    /// need that has gone, and for each unit that waits for it or waited for it last.
    pub fn woken_by(&mut self, gone: &[Need]) -> Result<Woken, AllocError>
        ensures woken { IfOk result (λ w. (u : ℕ) → (Contains w u) ↔ (WaitsForOne self.old u gone.now)) }
        ensures rising { IfOk result (λ w. IsRising nat_cmp w) }
        ensures ok { OnOk result (Wakes self.old self.new gone.now) }
        ensures err { OnErr result (self.new ≡ self.old) }
    {
        let found = listings::listed_for(self.alloc, &self.listings, gone)?;
        let woken = Woken::of(self.alloc, &found, &self.units)?;
        self.wake(woken.as_slice());
        Ok(woken)
    }

    /// Whether a unit is one of the table that has not ended. Takes constant time.
    pub fn live(&self, unit: u32) -> bool
        ensures { IsTrue result ↔ IsLive self.now unit }
    {
        units::is_live(&self.units, unit)
    }

    /// Whether a unit is live and does not wait. Takes constant time.
    pub fn runnable(&self, unit: u32) -> bool
        ensures { IsTrue result ↔ (status_at self.now unit ≡ Runs) }
    {
        units::runs(&self.units, unit)
    }

    /// What a unit waits for, in rising order. Empty where it does not wait. Takes constant time.
    pub fn needs(&self, unit: u32) -> &[Need]
        ensures needs { result.now ≡ needs_at self.now unit }
        ensures rising { IsRising need_cmp result.now }
    {
        units::needs_at(&self.units, unit)
    }

    /// Whether some unit is live and each live unit waits. Takes constant time.
    pub fn is_stuck(&self) -> bool
        ensures { IsTrue result ↔ AllWait self.now }
    {
        self.running == 0 && self.waiting > 0
    }

    /// Whether, without this unit, some unit is live and each live unit waits. The unit itself runs. Takes constant time.
    pub fn is_stuck_without(&self, unit: u32) -> bool
        requires runs { status_at self.now unit ≡ Runs }
        ensures { IsTrue result ↔ AllWait (slice_set self.now unit Ended) }
    {
        self.running == 1 && self.waiting > 0
    }

    /// For each waiting unit its least need, with that need's least holder as listed, in rising order of units. Costs a
    /// look-up for each entry of the list and for each unit.
    pub fn shown(&self, holder_of: &[(Need, u32)]) -> Result<Shown, AllocError>
        requires named { NamesHolders self.now holder_of.now }
        ensures { IfOk result (λ s. AreShown self.now holder_of.now s.items) }
    {
        let least = holders::least(self.alloc, holder_of)?;
        let items = shown::items(self.alloc, &self.units, &least)?;
        Ok(Shown { items })
    }

    /// The least unit that is live and does not wait, if there is one. Looks at a flag for each block of 256 units,
    /// and at the units of one block.
    pub fn least_runnable(&self) -> Option<u32>
        ensures some { IfSome result (IsLeastRunning self.now) }
        ensures none { IfNone result ((u : ℕ) → status_at self.now u ≡ Runs → ⊥) }
    {
        blocks::least(&self.units, &self.flags)
    }
}
