ghost use Rattle.std.specs.Prelude.{◌≡◌, cond};
ghost use Rattle.sg_state.specs.declared.slot.Slot.TheVariants.{Waits, Empty};
ghost use Rattle.sg_state.specs.Slot.{waits_for, without_holder};

/// The datum of a scope: given, held by a unit that may give it, or absent for good.
#[derive(Drop)]
pub enum Slot<D> {
    Given(D),
    Waits(u32),
    Empty,
}

impl<D> Slot<D> {
    /// The datum of a scope that a unit has just made, unset where one is wanted.
    pub fn fresh(unit: u32, datum: bool) -> Slot<D>
        ensures { result ≡ cond datum (Waits unit) Empty }
    {
        if datum {
            Slot::Waits(unit)
        } else {
            Slot::Empty
        }
    }

    /// Whether the datum is unset, with this holder.
    pub fn waits_for(&self, unit: u32) -> bool
        ensures { result ≡ waits_for self.now unit }
    {
        match self {
            Slot::Waits(holder) => *holder == unit,
            _ => false,
        }
    }

    /// Gives up the datum, if the unit holds it.
    pub fn give_up(&mut self, unit: u32)
    where
        D: Drop,
        ensures { self.new ≡ without_holder unit self.old }
    {
        if self.waits_for(unit) {
            *self = Slot::Empty;
        }
    }
}
