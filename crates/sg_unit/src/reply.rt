use crate::woken::Woken;
use sg_base::{Instance, Scope};
use sg_query::Answer;

/// What an operation is told: the scope that it made; that it is done, with the waiting units that it lets go on; how far a
/// search has come; the answer of a query; or that every live unit waits.
#[derive(Drop)]
pub enum Reply<I: Instance> {
    Made(Scope),
    Done { woken: Woken },
    Moved,
    Ready,
    Suspended,
    Answer(Answer<I::Datum>),
    Stuck,
}
