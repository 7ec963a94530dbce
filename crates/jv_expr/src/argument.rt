use jv_instance::Ty;

/// An argument of a call: where it starts, in bytes from 0, and its type (JLS 15.12.2).
#[derive(Clone, Copy, Debug)]
pub struct Argument {
    pub at: u32,
    pub ty: Ty,
}
