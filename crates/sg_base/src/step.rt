use crate::label::Label;
use crate::scope::Scope;

/// One step of a path: the label of its edge, and the scope where the edge ends.
#[derive(Clone, Copy, Debug, PartialEq, Eq, PartialOrd, Ord, Hash)]
pub struct Step {
    pub label: Label,
    pub to: Scope,
}
