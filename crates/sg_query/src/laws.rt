//! Laws of answers, each the contract of a function that does nothing.

ghost use Rattle.sg_query.specs.Example.{LooksAreToldApart, WaitsAreToldApart};
ghost use Rattle.sg_query.specs.Law.{
  AnswersExist,
  AnswersAreOne,
  SettledAnswersAreStable,
  SettledAnswersAreLocal,
  LaterStatesLookAlike,
  SettledQueriesStaySettled,
  WaitingQueriesStayOpen,
  ItemsAreKept,
};

use sg_base::Instance;

/// In a sound graph each query has an answer, and only one.
pub fn every_query_has_one_answer<I: Instance>()
    ensures exists { AnswersExist I.Datum }
    ensures one { AnswersAreOne I.Datum }
{}

/// The answer of a settled query is its answer in every graph that the state grows into. More than that, it is its
/// answer wherever the ends of the closed paths that the query follows look the same, and later states look so.
pub fn settled_answers_are_stable<I: Instance>()
    ensures stable { SettledAnswersAreStable I.Datum }
    ensures local { SettledAnswersAreLocal I.Datum }
    ensures later { LaterStatesLookAlike I.Datum }
{}

/// While the graph grows, a settled query keeps its answer, and one that waits stays open as long as all that it waits
/// for.
pub fn queries_settle_once<I: Instance>()
    ensures settled { SettledQueriesStaySettled I.Datum }
    ensures waiting { WaitingQueriesStayOpen I.Datum }
{}

/// While the graph grows, a search keeps what it has looked at: none of its items goes away.
pub fn searches_keep_their_items<I: Instance>()
    ensures { ItemsAreKept I.Datum }
{}

/// In graphs of two scopes: open rows and unset data that a query comes to make it wait, and others do not; what it
/// looks at is closed and set; and edges that it does not follow do not change what it sees.
pub fn settled_queries_are_told_apart()
    ensures waits { WaitsAreToldApart }
    ensures looks { LooksAreToldApart }
{}
