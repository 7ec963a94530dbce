//! Events that were kept beside the turn are handed in.

ghost use Rattle.std.specs.Prelude.{◌≡◌, ◌≤◌, [], OnOk, OnErr, ◌⊎◌, length, vec_capacity};
ghost use Rattle.sg_core.specs.declared.found_ask.FoundAsk.TheVariants.{Nothing};
ghost use Rattle.sg_core.specs.Beside.{KeepsAll, HandsIn, KeepsOn, ask_found};
ghost use Rattle.sg_core.specs.Core.{IsCore, run};
ghost use Rattle.sg_unit.specs.Run.{IsFreeUnit};

use crate::ask::Ask;
use crate::found_ask::FoundAsk;
use crate::kept::Kept;
use crate::machine::Core;
use sg_base::Instance;
use std::alloc::AllocError;
use std::mem;

/// What a core keeps of an ask whose answer was found.
fn ask_of<I: Instance>(found: FoundAsk<I::Datum>) -> Ask<I>
    ensures { result ≡ ask_found found }
{
    match found {
        FoundAsk::Nothing => Ask::Nothing,
        FoundAsk::Found(answer) => Ask::Found(answer),
        FoundAsk::Ready(answer) => Ask::Ready(answer),
    }
}

impl<I: Instance, R: Drop> Core<I, R> {
    /// Logs the events that were kept of a live unit that asks nothing: asks that are settled in what the run holds, each with
    /// its advance and its take, of which the last may lack its take, or its advance too. None of them is kept from then on.
    /// After want of memory nothing has changed, and all are kept.
    ///
    /// Takes room for all of them at once, and moves each. The list that they stood in keeps its room.
    pub fn apply_kept(&mut self, unit: u32, kept: &mut Kept<I, R>) -> Result<(), AllocError>
        requires free { (kept.old.events.items ≡ []) ⊎ IsFreeUnit (run I.wants I.same_datum self.old) unit }
        requires kept { KeepsAll I.wants I.same_datum self.old.kinds (run I.wants I.same_datum self.old).held unit Nothing kept.old.events.items kept.old.ask }
        ensures ok { OnOk result (HandsIn self.old self.new kept.old.events.items kept.new.events.items kept.new.ask) }
        ensures room { OnOk result (length kept.old.events.items ≤ vec_capacity kept.new.events) }
        ensures core { IsCore I.wants I.same_datum self.new }
        ensures err { OnErr result (KeepsOn self.old self.new kept.old.events.items kept.new.events.items kept.old.ask kept.new.ask) }
    {
        if kept.events.is_empty() {
            let _log = self.log();
            return Ok(());
        }
        self.log.append(&mut kept.events)?;
        self.asks[unit as usize] = ask_of(mem::replace(&mut kept.ask, FoundAsk::Nothing));
        Ok(())
    }
}
