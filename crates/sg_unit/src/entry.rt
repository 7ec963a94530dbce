use crate::op::Op;
use crate::reply::Reply;
use sg_base::Instance;

/// One event of a run: an operation, the unit that it was for, and its reply.
#[derive(Drop)]
pub struct Entry<I: Instance, R> {
    pub unit: u32,
    pub op: Op<I, R>,
    pub reply: Reply<I>,
}
