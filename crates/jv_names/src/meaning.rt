use sg_base::Scope;

/// What a name means: one scope, none, several, or an answer had too many paths to look at.
#[derive(Clone, Copy, Debug, PartialEq, Eq)]
pub enum Meaning {
    One(Scope),
    Nothing,
    Ambiguous,
    TooMany,
}
