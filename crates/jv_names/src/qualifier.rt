use sg_base::Scope;

/// What the parts of a name so far mean, in which the next part is looked for (JLS 6.5.2).
#[derive(Clone, Copy, Debug, PartialEq, Eq)]
pub enum Qualifier {
    InPackage(Scope),
    InType(Scope),
}
