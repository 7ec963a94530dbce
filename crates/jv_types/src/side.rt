use jv_instance::Ty;
use sg_base::Scope;

/// The type of an operand, and what is known of its class: its supertypes with itself (and `Object` for an interface), whether
/// it is an interface, and whether it is final. For a type without a class `up` is empty.
#[derive(Clone, Copy, Debug)]
pub struct Side<'a> {
    pub ty: Ty,
    pub up: &'a [Scope],
    pub interface: bool,
    pub is_final: bool,
}
