//! Laws of rules, each the contract of a function that does nothing.

ghost use Rattle.sg_reading.specs.Law.{
  ReadsOnlyItsQueries,
  NeedsOnlyItsQueries,
  ValuesAreOne,
  NeedsAreOne,
  ValuesNeedNothing,
  QueriesAreListed,
  ValuesWhereReplied,
  RulesAreKnown,
  KnownInOneWay,
  GivesInTurn,
  AsksInTurn,
  LastRepliesAreAdded,
  ResidualsAreKnown,
  ResidualsStay,
};

use crate::answers::Answers;

/// A rule looks at a set of answers only by the queries that it asks: where another set answers these alike, it comes
/// to the same end there.
pub fn readings_read_only_their_queries<
    U,
    R: Answers,
    S: Answers<Query = R::Query, Answer = R::Answer>,
>()
    ensures value { ReadsOnlyItsQueries U R.has_answer S.has_answer }
    ensures need { NeedsOnlyItsQueries U R.has_answer S.has_answer }
{}

/// A rule has one value or comes to one query without an answer, and never both.
pub fn readings_have_one_end<U, R: Answers>()
    ensures value { ValuesAreOne U R.has_answer }
    ensures need { NeedsAreOne U R.has_answer }
    ensures either { ValuesNeedNothing U R.has_answer }
    ensures listed { QueriesAreListed U R.has_answer }
{}

/// What is read over replies is exact: it is the rule's value where all that the rule asks has a reply, and else the
/// query that has none.
pub fn replies_decide_readings<Q, A, U>()
    ensures value { ValuesWhereReplied Q A U }
    ensures known { RulesAreKnown Q A U }
    ensures one { KnownInOneWay Q A U }
{}

/// One rule after another asks the queries of both, and gives what the second gives.
pub fn readings_follow_one_another<U, W, R: Answers>()
    ensures value { GivesInTurn U W R.has_answer }
    ensures asked { AsksInTurn U W R.has_answer }
{}

/// A reply that is put last, to a query without one, is added, and no other reply changes.
pub fn last_replies_are_added<Q: Eq, A>()
    ensures { LastRepliesAreAdded A Q.eq }
{}

/// What is left of a rule, once the queries that it asks first have replies, stays so where replies are added, and comes to what the
/// rule comes to.
pub fn residuals_go_on<Q, A, U>()
    ensures stay { ResidualsStay Q A U }
    ensures known { ResidualsAreKnown Q A U }
{}
