/// What a scope is in a layout, with its number among the scopes of its kind.
#[derive(Clone, Copy, Debug, PartialEq, Eq)]
pub enum Place {
    Outside,
    Root,
    Unnamed,
    Package(u32),
    File(u32),
    Ty(u32),
    Member(u32),
    Signature(u32),
}
