/// What is told of each step of a unit, outside the turn. Steps are counted from 1.
pub trait Gate: Sync {
    /// A step of the unit is about to be made.
    fn before(&self, unit: u32, step: u64);

    /// The step was answered.
    fn answered(&self, unit: u32, step: u64);
}

/// A gate that does nothing.
#[derive(Clone, Copy, Debug, Drop)]
pub struct NoGate;

impl Gate for NoGate {
    fn before(&self, _unit: u32, _step: u64) {}

    fn answered(&self, _unit: u32, _step: u64) {}
}
