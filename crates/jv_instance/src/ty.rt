ghost use Rattle.std.specs.Prelude.{◌≡◌, ◌↔◌, IsTrue};
ghost use Rattle.jv_instance.specs.Types.{is_bad, IsBad};

use crate::type_base::TypeBase;

/// A type: its base, and how many pairs of brackets it has (JLS 4, 10.1).
///
/// A type of base `Bad` is bad whatever its brackets. `==` compares base and brackets, so bad types with different
/// brackets are different values: where a rule passes over bad types, ask `is_bad` first.
#[derive(Clone, Copy, Debug, PartialEq, Eq)]
pub struct Ty {
    pub base: TypeBase,
    pub dims: u8,
}

impl Ty {
    /// Whether the type is bad, which its base says alone.
    pub fn is_bad(self) -> bool
        ensures value { result ≡ is_bad self }
        ensures exact { IsTrue result ↔ IsBad self }
    {
        matches!(self.base, TypeBase::Bad)
    }
}
