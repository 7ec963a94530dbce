//! Laws of orders, each the contract of a function that does nothing.

ghost use Rattle.sg_order.specs.Law.{NoPathIsBeforeItself, PathsAreChained, RisingPairsAreStrict};

/// A strict order of marks orders paths strictly.
pub fn paths_are_strictly_ordered()
    ensures irreflexive { NoPathIsBeforeItself }
    ensures transitive { PathsAreChained }
{}

/// Pairs that rise in some rank of marks are an order.
pub fn rising_pairs_are_strict()
    ensures { RisingPairsAreStrict }
{}
