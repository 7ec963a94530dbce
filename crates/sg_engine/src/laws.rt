//! Laws of searches, each the contract of a function that does nothing.

ghost use Rattle.sg_engine.specs.Keyed.{PassesOverLater};
ghost use Rattle.sg_engine.specs.Law.{StandsLater, SearchesEnd};

use sg_base::Instance;

/// Where a search stands in a state, it stands in each state that follows.
pub fn stands_later<I: Instance>()
    ensures { StandsLater I.Datum }
{}

/// A search that passed over what it is to pass over has done so in each later graph that keeps the parts of rows.
pub fn passes_over_later<I: Instance>()
    ensures { PassesOverLater I.Datum }
{}

/// A search that is advanced in one state in which its query is settled moves once for each 64 of the query's items at
/// most, and is then ready.
pub fn searches_end<I: Instance>()
    ensures { SearchesEnd I.Pred I.Datum }
{}
