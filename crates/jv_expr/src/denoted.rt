use crate::value::Value;
use sg_base::Scope;

/// What a name, or the front of one, stands for (JLS 6.5.2): a variable; a type, and whether it stands behind another type; a
/// package; or nothing, where a diagnostic has said so.
#[derive(Clone, Copy, Debug)]
pub enum Denoted {
    Variable(Value),
    TypeName(Scope, bool),
    Package(Scope),
    Nothing,
}
