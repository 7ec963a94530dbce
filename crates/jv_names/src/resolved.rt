use crate::meaning::Meaning;
use crate::scope_list::ScopeList;

/// What a name means, and the types that its parts mean, from left to right.
#[derive(Debug, Drop)]
pub struct Resolved {
    pub meaning: Meaning,
    pub types: ScopeList,
}
