use jv_instance::{Ty, TypeBase};
use jv_tree::NameId;

/// What an expression is: its type, and the name of the variable where it is one that cannot be assigned (JLS 4.12.4, 15.1).
#[derive(Clone, Copy, Debug)]
pub struct Value {
    pub ty: Ty,
    pub sealed: Option<NameId>,
}
