use jv_instance::Ty;
use jv_tree::NameId;

/// A local variable or a parameter: its name, its type, and whether it cannot be assigned: a final parameter, or a final local
/// variable with an initializer (JLS 4.12.4, 14.4).
#[derive(Clone, Copy, Debug)]
pub struct Local {
    pub name: NameId,
    pub ty: Ty,
    pub sealed: bool,
}
