//! Forms of expressions.

/// The outermost form of an expression that has no parentheses round it.
#[derive(Clone, Copy, Debug, PartialEq, Eq)]
pub enum Form {
    /// What may stand in front of an assignment operator: a name, a field, a field of `super`, or an index.
    Target,
    /// What may stand as a statement: an assignment, `++`, `--`, a call, or a new object.
    Effect,
    /// Everything else, and whatever stands in parentheses.
    Other,
}
