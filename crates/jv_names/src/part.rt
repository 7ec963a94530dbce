use crate::meaning::Meaning;
use sg_base::Scope;

/// What a part of a name means behind the parts in front of it: a type or a package in which the next part is looked for, or
/// a meaning with which the name ends there.
#[derive(Clone, Copy, Debug, PartialEq, Eq)]
pub enum Part {
    FoundType(Scope),
    FoundPackage(Scope),
    Ends(Meaning),
}
