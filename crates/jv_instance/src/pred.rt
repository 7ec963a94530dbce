use jv_tree::NameId;

/// What a query asks of the datum at a path's end: a name, or nothing.
#[derive(Clone, Copy, Debug, PartialEq, Eq, Hash)]
pub enum JavaPred {
    Named(NameId),
    Any,
}
