use crate::dependence::Dependence;

/// A row that was read in part: how many of its first types were, and what these tell of the dependence of the row's type.
#[derive(Clone, Copy)]
pub(crate) struct BegunDependence {
    pub(crate) count: usize,
    pub(crate) found: Dependence,
}
