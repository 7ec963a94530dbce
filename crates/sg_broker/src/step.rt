use sg_base::Instance;
use sg_core::Ahead;
use sg_unit::{Op, Reply};

/// What comes of an operation at its seat: its reply, where it needs no turn, or the operation, with what its search came to
/// before the turn.
#[derive(Drop)]
pub(crate) enum Step<I: Instance, R> {
    Told(Reply<I>),
    Turn(Op<I, R>, Option<Ahead<I>>),
}
