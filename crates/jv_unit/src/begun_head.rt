use jv_header::{DependenceProgress, Header};

/// The head of a type whose header was read: that, and how far its row was read for its dependence on itself.
#[derive(Drop)]
pub(crate) struct BegunHead {
    pub(crate) header: Header,
    pub(crate) dependence: DependenceProgress,
}
