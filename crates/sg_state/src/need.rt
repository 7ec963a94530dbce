use sg_base::{Label, Scope};

/// What a query may wait for: a row that is open, or a datum that is unset. Rows come first, by scope and then label, and
/// then data by scope.
#[derive(Clone, Copy, Debug, PartialEq, Eq, PartialOrd, Ord, Hash)]
pub enum Need {
    Row(Scope, Label),
    Datum(Scope),
}
