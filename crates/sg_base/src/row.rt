use crate::scope::Scope;

/// The row of a scope and a label, which is kept as its number, below 16. Rows are ordered by scope, then label.
#[derive(Clone, Copy, Debug, PartialEq, Eq, PartialOrd, Ord)]
pub struct Row {
    pub from: Scope,
    pub label: u8,
}
