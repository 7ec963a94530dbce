use sg_base::ScopeSet;

/// The distinct ends of the paths that count, or that an answer had too many paths to look at.
#[derive(Debug, Drop)]
pub enum Ends {
    Scopes(ScopeSet),
    TooMany,
}
