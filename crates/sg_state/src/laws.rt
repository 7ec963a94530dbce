//! Laws of held graphs, each the contract of a function that does nothing.

ghost use Rattle.std.specs.Prelude.{◌≡◌};
ghost use Rattle.sg_state.specs.declared.need.Need.{Need as NeedOf};
ghost use Rattle.sg_state.specs.Need.{need_cmp};
ghost use Rattle.sg_state.specs.Opening.{SoundOpeningsOpen};
ghost use Rattle.sg_state.specs.Rest.{RowsSplit, RestStays};
ghost use Rattle.sg_state.specs.Write.{WritesExtend};

use crate::need::Need;
use sg_base::Instance;

/// After any list of writes the graph extends the state before them, and at scopes that were there before, a row that
/// is open and a datum that is unset were so before.
pub fn writes_extend<I: Instance>()
    ensures { WritesExtend I.Datum }
{}

/// The targets of a row with a key and the rest are the row, none is both, and each has one key.
pub fn rows_split<I: Instance>()
    ensures { RowsSplit I.Datum }
{}

/// After any list of writes each target of a row keeps its key or stays one of the rest, and a row that was closed before
/// them has the same targets of each key, and the same rest.
pub fn rest_stays<I: Instance>()
    ensures { RestStays I.Datum }
{}

/// The held graph of a sound opening is one with which a run begins.
pub fn sound_openings_open<I: Instance>()
    ensures { SoundOpeningsOpen I.Datum }
{}

/// Needs compare as their order says: rows come first, by scope and then label, and then data by scope.
pub fn needs_compare()
    ensures { (a b : NeedOf) → ⟦<Need as Ord>⟧.cmp a b ≡ need_cmp a b }
{}
