//! Laws of traces, each the contract of a function that does nothing. `R` is what a unit comes to.

ghost use Rattle.sg_trace.specs.Law.{TracesTellAsks, EntriesFollowTraces, WritesAreEntries, ToldAnswersStand, EdgesAreAdded, HoldsWereHeld, RowsAreGivenUp, GivenUpStays};

use sg_base::Instance;

/// A unit's trace tells what the unit asks, an entry's operation is what its unit gave next after what it was handed by then,
/// and what a unit wrote by its trace is an entry.
pub fn traces_tell_entries<I: Instance, R>()
    ensures asks { TracesTellAsks I R I.Datum I.Pred }
    ensures entries { EntriesFollowTraces I R I.Datum I.Pred }
    ensures writes { WritesAreEntries I R I.Datum I.Pred }
{}

/// What a unit was told was settled by then, and is the answer in the graph of each later state.
pub fn told_answers_stand<I: Instance, R>()
    ensures { ToldAnswersStand I R I.Datum I.Pred }
{}

/// An edge of the graph is the opening's or was added by an entry.
pub fn edges_are_added<I: Instance, R>()
    ensures { EdgesAreAdded I R I.Datum I.Pred }
{}

/// A row that was held at the opening is held, or its holder gave it up; and where no unit makes a scope, what is held was held
/// before, and what was closed or set is held no longer.
pub fn holds_are_given_up<I: Instance, R>()
    ensures before { HoldsWereHeld I R I.Datum I.Pred }
    ensures rows { RowsAreGivenUp I R I.Datum I.Pred }
    ensures stays { GivenUpStays I R I.Datum I.Pred }
{}
