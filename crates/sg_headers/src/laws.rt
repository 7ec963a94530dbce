//! Laws of the runs of orderly units, each the contract of a function that does nothing. `R` is what a unit comes to, and `Q`
//! what a header's query is.

ghost use Rattle.sg_headers.specs.Follower.{FollowersReadHeaders, FollowersReadImports, FollowersAskSignaturesLast};
ghost use Rattle.sg_headers.specs.Law.{ClosedHeadersAreGreatest, RunsLeaveAlike, StuckWhereHeadersWait, ReadersStayOrderly, OrderlyReadersAreHonest, ImportersStayOrderly, ImportRulesGiveImports, UntouchedQueriesAreSettled, SomeRunsAreOrderly};
ghost use Rattle.sg_headers.specs.Small.{SmallProgramsAreSolved};

use sg_base::Instance;

/// In every run of orderly units that is over, the types whose rows are closed are the greatest stratified set, and the
/// reader of each other type waits for the first open query of its header. Two such runs leave the same, and a run is stuck
/// exactly where a type's row is open.
pub fn closed_headers_are_greatest<I: Instance, R, Q>()
    ensures greatest { ClosedHeadersAreGreatest I R Q I.Datum I.Pred }
    ensures alike { RunsLeaveAlike I R Q I.Datum I.Pred }
    ensures stuck { StuckWhereHeadersWait I R Q I.Datum I.Pred }
{}

/// A reader of a header that is orderly by its trace gave what its header gives, in every graph that answers as it was
/// told.
pub fn orderly_readers_are_honest<I: Instance, R, Q>()
    ensures { OrderlyReadersAreHonest I R Q I.Datum I.Pred }
{}

/// A new unit is orderly, and stays so by each call whose operation may come next.
pub fn calls_keep_units_orderly<I: Instance, R, Q>()
    ensures readers { ReadersStayOrderly I R Q I.Datum I.Pred }
    ensures importers { ImportersStayOrderly I R Q I.Datum I.Pred }
{}

/// A unit that reads a rule of imports whose queries are settled from the start gives the imports of the skeleton; and
/// queries that touch nothing open are settled.
pub fn import_rules_give_imports<I: Instance, R, Q>()
    ensures settled { UntouchedQueriesAreSettled I.Datum }
    ensures imports { ImportRulesGiveImports I R Q I.Datum I.Pred }
{}

/// A unit that follows a script whose first stage writes the row of a header is orderly as the reader of that header, whatever
/// its later stages are.
pub fn followers_read_headers<I: Instance, R>()
    ensures { FollowersReadHeaders I R I.Datum I.Pred }
{}

/// A unit that follows a script whose first stage alone writes rows, all that it holds, is orderly as the reader of that rule
/// of imports.
pub fn followers_read_imports<I: Instance, R>()
    ensures { FollowersReadImports I R I.Datum I.Pred }
{}

/// A unit that follows a script whose first stages set all data that it holds, and ask no signature, asks none before that.
pub fn followers_ask_signatures_last<I: Instance, R, Q>()
    ensures { FollowersAskSignaturesLast I R Q I.Datum I.Pred }
{}

/// Some runs are orderly: that of a header which asks along its own row gets stuck, and that of one which asks nothing closes
/// the row and ends.
pub fn some_runs_are_orderly<I: Instance, R>()
    ensures { SomeRunsAreOrderly I R I.Datum I.Pred }
{}

/// Small programs of three types, each with its ranks, its first open queries and its greatest set: two types above one another,
/// a header that looks at its own row through another's, three ranks, two headers that look at one another's rows, and one that
/// looks at its own.
pub fn small_programs_are_solved<I: Instance>()
    ensures { SmallProgramsAreSolved I.Datum I.Pred }
{}
