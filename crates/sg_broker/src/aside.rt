use sg_base::Instance;
use sg_core::{Kept, Sight};

/// What a seat has beside its turns: what the run holds, once nobody holds anything of it, how many events the seat has seen,
/// and the events that it keeps until its next turn.
#[derive(Drop)]
pub(crate) struct Aside<I: Instance, R> {
    pub(crate) sight: Option<Sight<I>>,
    pub(crate) count: usize,
    pub(crate) kept: Kept<I, R>,
}
