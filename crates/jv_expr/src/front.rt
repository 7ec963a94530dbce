use crate::value::Value;
use sg_base::Scope;

/// What stands in front of the dot of a call: a value, or the name of a type (JLS 15.12.1).
#[derive(Clone, Copy, Debug)]
pub enum Front {
    Value(Value),
    TypeName(Scope),
}
