use crate::unit_set::UnitSet;
use sg_base::ScopeSet;

/// What a row has: its targets, and the units that hold it.
#[derive(Drop)]
pub struct Row {
    pub targets: ScopeSet,
    pub holders: UnitSet,
}
