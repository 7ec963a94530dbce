/// From where a type, a field, a method or a constructor may be used (JLS 6.6).
#[derive(Clone, Copy, Debug, PartialEq, Eq)]
pub enum Access {
    Public,
    Protected,
    /// From its own package, where no other access is written.
    Package,
    Private,
}
