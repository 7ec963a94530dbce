/// What static imports bring: member types, fields or methods (JLS 7.5.3, 7.5.4).
#[derive(Clone, Copy, Debug, PartialEq, Eq)]
pub enum StaticKind {
    Types,
    Fields,
    Methods,
}
