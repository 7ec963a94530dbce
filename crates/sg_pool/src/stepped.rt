use crate::after::After;
use crate::doing::Doing;

/// What comes next for a unit after a step, and what the step told.
#[derive(Clone, Copy, Debug, Drop)]
pub struct Stepped {
    pub doing: Doing,
    pub after: After,
}
