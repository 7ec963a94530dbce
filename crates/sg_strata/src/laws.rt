//! Laws of headers, each the contract of a function that does nothing. `Q` is what a query is, and `D` a datum.

ghost use Rattle.sg_strata.specs.Law.{
  StratifiedGraphsAreSound,
  StratifiedGraphsAreUnique,
  StratifiedRowsStand,
  GreatestIsUnique,
  StuckSetsAreGreatest,
  StuckSetsHaveRuns,
  HeaderRunsAreGreatest,
  WaitingHeadersAreOpen,
};

/// Two stratified pairs with one set have equal graphs, whatever their ranks, in which each header gives what it gave.
pub fn stratified_graphs_are_unique<Q, D>()
    ensures unique { StratifiedGraphsAreUnique Q D }
    ensures sound { StratifiedGraphsAreSound Q D }
    ensures stands { StratifiedRowsStand Q D }
{}

/// At most one pair is the greatest.
pub fn greatest_is_unique<Q, D>()
    ensures { GreatestIsUnique Q D }
{}

/// A stratified set whose other types all have an open query is the greatest, and is what some header run leaves.
pub fn stuck_sets_are_greatest<Q, D>()
    ensures greatest { StuckSetsAreGreatest Q D }
    ensures runs { StuckSetsHaveRuns Q D }
{}

/// The rows that a header run leaves closed are the greatest stratified set, and every other header waits for its first
/// open query. What a header run is stands in `specs/Run.antt`; that the runs of units are such is said where they are tied.
pub fn header_runs_are_greatest<Q, D>()
    ensures greatest { HeaderRunsAreGreatest Q D }
    ensures others { WaitingHeadersAreOpen Q D }
{}
