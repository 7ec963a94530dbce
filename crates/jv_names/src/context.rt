/// Where a name stands that means a type or a package (JLS 6.5.1).
#[derive(Clone, Copy, Debug, PartialEq, Eq)]
pub enum Context {
    /// In a header, a signature, a body: it must mean a type.
    TypeName,
    /// In a single import: it must mean a type (JLS 7.5.1).
    SingleImport,
    /// In an import on demand: it must mean a type or a package (JLS 7.5.2).
    OnDemandImport,
}
