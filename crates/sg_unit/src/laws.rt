//! Laws of runs, each the contract of a function that does nothing.

ghost use Rattle.sg_unit.specs.Law.{StatesFollow, AnswersLast, OwnEntriesAllow, RunsAllow, OwnEntriesRun, OwnEntriesReply, TracesAllow, TracesHand, TracesTell, RunsGrow, RunsHold, OwnRunsGrow, TracesGrow, WaitersAreHeldUp, StuckUnitsAreHeldUp, ShownHoldersWait, ItemsAreFew, AsksFall, StuckRunsStayStuck, StuckIsTold, OwnEntriesEnd, EndIsTold, EndedUnitsAskNothing, EndedUnitsTook, NewUnitsAreHonest, CallsKeepHonest, SomeGetStuck, LonelyUnitsGetStuck, AskersDoNotEnd, HoldersAloneAdd, WaitersAreWoken, AnswersAreHanded};

use crate::unit::Unit;
use sg_base::Instance;

/// Each later state of a run follows each earlier one, so its graph extends it.
pub fn states_follow<I: Instance, R>()
    ensures { StatesFollow I R I.Datum I.Pred }
{}

/// An answer that was taken in a run is the answer in each later graph of it.
pub fn answers_last<I: Instance, R>()
    ensures { AnswersLast I R I.Datum I.Pred }
{}

/// What a unit may do, and what it can be replied, its own entries tell: what they allow, the run allows, and the other way
/// round where the unit knows the operation's scopes; and each entry's reply is one that its operation can have.
pub fn own_entries_tell<I: Instance, R>()
    ensures allow { OwnEntriesAllow I R I.Datum I.Pred }
    ensures allowed { RunsAllow I R I.Datum I.Pred }
    ensures own { OwnEntriesRun I R I.Datum I.Pred }
    ensures reply { OwnEntriesReply I R I.Datum I.Pred }
{}

/// A run grows by a legal entry, a unit's own entries by what they allow, and its trace by what the entry tells.
pub fn runs_grow<I: Instance, R>()
    ensures run { RunsGrow I R I.Datum I.Pred }
    ensures holds { RunsHold I R I.Datum I.Pred }
    ensures own { OwnRunsGrow I R I.Datum I.Pred }
    ensures told { TracesGrow I R I.Datum I.Pred }
{}

/// Who waits has an open ask that is not settled, and all that blocks it has a live holder. In a stuck run this holds of
/// each live unit, and the holder that is shown for it waits too.
pub fn waiters_are_held_up<I: Instance, R>()
    ensures waiters { WaitersAreHeldUp I R I.Datum I.Pred }
    ensures stuck { StuckUnitsAreHeldUp I R I.Datum I.Pred }
    ensures shown { ShownHoldersWait I R I.Datum I.Pred }
{}

/// A unit's trace tells what it may do while it asks nothing, and its entries tell what it can be handed then.
pub fn traces_tell<I: Instance, R>()
    ensures run { TracesTell I R I.Datum I.Pred }
    ensures own { TracesAllow I R I.Datum I.Pred }
    ensures hand { TracesHand I R I.Datum I.Pred }
{}

/// While nobody writes, asks come to an end: a query has few items, and each advance of a unit that does not wait and each
/// take lowers the unit's weight.
pub fn asks_fall<I: Instance, R>()
    ensures items { ItemsAreFew I.Datum }
    ensures fall { AsksFall I R I.Datum I.Pred }
{}

/// Whether a run is over, the entries of its units tell: it is stuck from the first entry on whose reply is that every live
/// unit waits, and each later one is an advance with that reply; a unit has ended where it has ended by its own entries; and
/// where each has, no unit is live.
pub fn ends_are_told<I: Instance, R>()
    ensures stay { StuckRunsStayStuck I R I.Datum I.Pred }
    ensures stuck { StuckIsTold I R I.Datum I.Pred }
    ensures own { OwnEntriesEnd I R I.Datum I.Pred }
    ensures ended { EndIsTold I R I.Datum I.Pred }
{}

/// A unit that has ended asks nothing, and each of its asks was followed by its take.
pub fn ended_units_took<I: Instance, R>()
    ensures nothing { EndedUnitsAskNothing I R I.Datum I.Pred }
    ensures took { EndedUnitsTook I R I.Datum I.Pred }
{}

/// A new unit is honest, and stays so by each call that gives what it owes.
pub fn calls_keep_units_honest<U: Unit>()
    ensures new { (f : U.Fixed) → NewUnitsAreHonest U.Inst (U.owes_edge f) (U.owes_datum f) (U.may_ask f) (U.comes_to f) }
    ensures kept { (f : U.Fixed) → CallsKeepHonest U.Inst (U.owes_edge f) (U.owes_datum f) (U.may_ask f) (U.comes_to f) }
{}

/// Some runs get stuck.
pub fn some_get_stuck<I: Instance, R>()
    ensures { SomeGetStuck I R I.Datum I.Pred }
{}

/// In runs of one scope and one or two units: who waits for itself is told Stuck and nothing else; who asks does not end; only
/// a holder adds, and not after it closed its row or ended; who closes a row wakes who waits for it; and a unit is handed the
/// answer that was taken.
pub fn small_runs_are_told_apart<I: Instance, R>()
    ensures stuck { LonelyUnitsGetStuck I R I.Datum I.Pred }
    ensures asks { AskersDoNotEnd I R I.Datum I.Pred }
    ensures holds { HoldersAloneAdd I R I.Datum I.Pred }
    ensures woken { WaitersAreWoken I R I.Datum I.Pred }
    ensures handed { AnswersAreHanded I R I.Datum I.Pred }
{}
