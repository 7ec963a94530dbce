ghost use Rattle.std.specs.Prelude.{Option, List, None, []};

use std::marker::Brand;

/// What all units of a run have in common: the desk at which they sit, and the units that the run began with. Each run picks
/// it.
pub trait Site<U, K> {
    /// The desk, where one is named.
    ghost desk: { Option K };

    /// The units, by their numbers.
    ghost start: { List U };
}

impl<U, K> Site<U, K> for Brand {
    ghost desk = { None };

    ghost start = { [] };
}
