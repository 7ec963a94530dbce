//! Runs of two units as texts, worked out by hand.
//!
//! A case begins with its opening: `rows`, where unit 0 holds the row of `a`, unit 1 that of `b`, and queries take one step; `rows 7`, where `a` has
//! the datum 7 besides; or `datum`, where unit 1 holds the datum of `a`, and queries take no step. A line that begins with a number is what that unit
//! does, with what it is told behind the colon, or `no` where it may not do this. Each other line is what stands then. `c` and `d` are the scopes that
//! unit 0 makes first.

/// Two units that ask one another are stuck.
const ASKERS_OF_ONE_ANOTHER: &str = "\
rows
0 ask b: moved
0 advance: suspended
1 ask a: moved
1 advance: stuck
0 advance: stuck
phase: stuck, 2 units, least none
unit 0: open, waits for row b 0
unit 1: open, waits for row a 0
";

/// A stuck run shows who holds what, and shows nothing before.
const A_STUCK_RUN_SHOWN: &str = "\
rows
0 ask b: moved
0 advance: suspended
1 ask a: moved
shown: none
1 advance: stuck
unit 0: open, waits for row b 0
unit 1: open, waits for row a 0
shown: 0 waits for row b 0 of 1, 1 waits for row a 0 of 0
";

/// A closed row lets its asker go on.
const A_CLOSED_ROW: &str = "\
rows
0 ask b: moved
0 advance: suspended
1 close b: done 0
0 advance: ready
0 take: paths
plain b: paths
";

/// An answer stands when all units have ended: it is still what the plain resolver answers.
const AN_ANSWER_STANDS: &str = "\
rows 7
0 ask b: moved
0 advance: suspended
1 link b a: done
1 end 9: done 0
0 advance: ready
0 take: paths 1-7
0 link a b: done
0 end 8: done
phase: ended, 2 units, least none
plain b: paths 1-7
";

/// An asker waits for its row, and may go on once that is closed.
const AN_ASKER_WAITS: &str = "\
rows
0 ask b: moved
0 advance: suspended
phase: running, 2 units, least 1
unit 0: open, waits for row b 0
unit 1: idle, may go on
1 close b: done 0
0 advance: ready
phase: running, 2 units, least 0
unit 0: ready, may go on
unit 1: idle, may go on
";

/// A datum that is unset is waited for.
const AN_UNSET_DATUM: &str = "\
datum
0 ask a: moved
0 advance: suspended
unit 0: open, waits for datum a
";

/// A datum that is set is found.
const A_SET_DATUM: &str = "\
datum
0 ask a: moved
0 advance: suspended
1 set a 7: done 0
0 advance: ready
0 take: paths 0-7
unit 0: idle, may go on
unit 1: idle, may go on
";

/// A datum that is given up is not found.
const A_DATUM_GIVEN_UP: &str = "\
datum
0 ask a: moved
0 advance: suspended
1 end 9: done 0
0 advance: ready
0 take: paths
unit 0: idle, may go on
unit 1: idle, ended with 9
";

/// A unit that ends has a result, and no other unit has.
const A_UNIT_THAT_ENDS: &str = "\
datum
unit 1: idle, may go on
1 end 9: done
unit 0: idle, may go on
unit 1: idle, ended with 9
0 end 8: done
unit 0: idle, ended with 8
unit 1: idle, ended with 9
phase: ended, 2 units, least none
";

/// A fresh scope is its maker's, whose row others wait for.
const A_FRESH_SCOPE: &str = "\
rows
0 link a c: no
0 make: made c
0 make: made d
1 link c a: no
0 link c a: done
1 set c 5: no
0 set c 5: done
0 set c 5: no
1 ask c: moved
1 advance: suspended
unit 1: open, waits for row c 0
graph: c 5 to a, d, a, b
";

/// Units do only what they may. Neither a row with label 1 is held by a unit nor is kind 1 one of the table.
const WHAT_UNITS_MAY: &str = "\
rows
2 make: no
0 advance: no
0 take: no
0 ask c: no
0 link b a: no
0 set a 7: no
0 close b: no
1 close b: done
1 close b: no
1 link b a: no
0 link a b 1: no
0 ask a 1: no
";

/// A unit that asks does nothing else until it has taken its answer.
const A_UNIT_THAT_ASKS: &str = "\
rows
1 close b: done
0 ask b: moved
0 make: no
0 link a b: no
0 close a: no
0 ask b: no
0 take: no
0 end 7: no
0 advance: ready
0 advance: no
0 end 7: no
0 take: paths
0 take: no
0 end 7: done
0 make: no
0 end 7: no
";

/// Two units one after the other.
const ONE_BY_ONE: &str = "\
rows
0 link a b: done
0 close a: done
0 end 7: done
1 link b a: done
1 close b: done
1 end 8: done
phase: ended, 2 units, least none
graph: a to b, b to a
";

/// The same two units in turns, which give the same graph.
const IN_TURNS: &str = "\
rows
1 link b a: done
0 link a b: done
1 close b: done
1 end 8: done
0 close a: done
0 end 7: done
phase: ended, 2 units, least none
graph: a to b, b to a
";

/// All cases.
pub(crate) const CASES: [&str; 14] = [
    ASKERS_OF_ONE_ANOTHER,
    A_STUCK_RUN_SHOWN,
    A_CLOSED_ROW,
    AN_ANSWER_STANDS,
    AN_ASKER_WAITS,
    AN_UNSET_DATUM,
    A_SET_DATUM,
    A_DATUM_GIVEN_UP,
    A_UNIT_THAT_ENDS,
    A_FRESH_SCOPE,
    WHAT_UNITS_MAY,
    A_UNIT_THAT_ASKS,
    ONE_BY_ONE,
    IN_TURNS,
];
