ghost use Rattle.std.specs.Prelude.{◌≡◌, [], IfOk, OnErr, ◌⊎◌};
ghost use Rattle.sg_core.specs.declared.found_ask.FoundAsk.TheVariants.{Nothing};
ghost use Rattle.sg_core.specs.Ahead.{IsAheadOf};
ghost use Rattle.sg_core.specs.Beside.{KeepsAll, KeepsOn, with_events};
ghost use Rattle.sg_core.specs.Core.{IsCore, MayDo, Applies, run};
ghost use Rattle.sg_unit.specs.Run.{IsFreeUnit};

use crate::ahead::Ahead;
use crate::kept::Kept;
use crate::machine::Core;
use crate::searching::forget_ask;
use crate::taking_back::take_back;
use sg_base::Instance;
use sg_unit::{Op, Reply};
use std::alloc::AllocError;

impl<I: Instance, R: Drop> Core<I, R> {
    /// Hands in what was kept of a unit (`apply_kept`), and applies one operation of it behind that (`apply_with`). After want of
    /// memory nothing has changed, and all is kept: the log is as it was.
    pub fn apply_behind(
        &mut self,
        unit: u32,
        kept: &mut Kept<I, R>,
        op: Op<I, R>,
        ahead: Option<Ahead<I>>,
    ) -> Result<Reply<I>, AllocError>
        requires free { (kept.old.events.items ≡ []) ⊎ IsFreeUnit (run I.wants I.same_datum self.old) unit }
        requires kept { KeepsAll I.wants I.same_datum self.old.kinds (run I.wants I.same_datum self.old).held unit Nothing kept.old.events.items kept.old.ask }
        requires may { MayDo I.wants I.same_datum (with_events self.old kept.old.events.items) unit op }
        requires ahead { IsAheadOf I.wants I.same_datum self.old.kinds (run I.wants I.same_datum (with_events self.old kept.old.events.items)).held op ahead }
        ensures ok { IfOk result (Applies I.wants I.same_datum (with_events self.old kept.old.events.items) self.new unit op) }
        ensures none { IfOk result (λ _. (kept.new.events.items ≡ []) × (kept.new.ask ≡ Nothing)) }
        ensures core { IsCore I.wants I.same_datum self.new }
        ensures err { OnErr result (KeepsOn self.old self.new kept.old.events.items kept.new.events.items kept.old.ask kept.new.ask) }
    {
        if kept.events.is_empty() {
            return self.apply_with(unit, op, ahead);
        }
        self.apply_behind_some(unit, kept, op, ahead)
    }

    /// The same behind some event. Where the operation finds no memory, the events are taken back out of the log.
    fn apply_behind_some(
        &mut self,
        unit: u32,
        kept: &mut Kept<I, R>,
        op: Op<I, R>,
        ahead: Option<Ahead<I>>,
    ) -> Result<Reply<I>, AllocError>
        requires free { IsFreeUnit (run I.wants I.same_datum self.old) unit }
        requires kept { KeepsAll I.wants I.same_datum self.old.kinds (run I.wants I.same_datum self.old).held unit Nothing kept.old.events.items kept.old.ask }
        requires may { MayDo I.wants I.same_datum (with_events self.old kept.old.events.items) unit op }
        requires ahead { IsAheadOf I.wants I.same_datum self.old.kinds (run I.wants I.same_datum (with_events self.old kept.old.events.items)).held op ahead }
        ensures ok { IfOk result (Applies I.wants I.same_datum (with_events self.old kept.old.events.items) self.new unit op) }
        ensures none { IfOk result (λ _. (kept.new.events.items ≡ []) × (kept.new.ask ≡ Nothing)) }
        ensures core { IsCore I.wants I.same_datum self.new }
        ensures err { OnErr result (KeepsOn self.old self.new kept.old.events.items kept.new.events.items kept.old.ask kept.new.ask) }
    {
        let before = self.log().len();
        let ask = kept.ask.share()?;
        self.apply_kept(unit, kept)?;
        match self.apply_with(unit, op, ahead) {
            Ok(reply) => Ok(reply),
            Err(e) => {
                forget_ask(&mut self.asks, unit);
                take_back(&mut self.log, before, &mut kept.events);
                kept.set_ask(ask);
                Err(e)
            }
        }
    }
}
