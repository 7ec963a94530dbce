/// Which of the paths that a query found count: those to a scope of the kind that is looked for, and of these the ones that
/// are inherited or seen.
#[derive(Clone, Copy, Debug, PartialEq, Eq)]
pub enum Counts {
    /// Each package.
    OwnPackages,
    /// Each type.
    OwnTypes,
    /// The types that are inherited along their path (JLS 8.5, 9.5).
    MemberTypes,
    /// The types that a file sees: not those on demand that are not accessible from its package (JLS 7.5.2).
    FileTypes,
    /// The fields that are inherited along their path (JLS 8.3, 9.3).
    Fields,
    /// The methods that are inherited along their path (JLS 8.4.8, 9.4.1).
    Methods,
    /// Each constructor.
    Constructors,
    /// Each type, reached by its subtypes.
    Supertypes,
}
