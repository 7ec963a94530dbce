use sg_base::Scope;

/// A type without its brackets: a primitive type, a class or an interface by its scope, the type of `null`, the result
/// of what gives no value, or the type of what has a diagnostic already (JLS 4).
#[derive(Clone, Copy, Debug, PartialEq, Eq)]
pub enum TypeBase {
    Boolean,
    Char,
    Int,
    Long,
    Class(Scope),
    Null,
    Void,
    Bad,
}
