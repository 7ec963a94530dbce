use crate::work::Work;

/// The queue that an advance came to the end of, kept until the advance has succeeded.
#[derive(Drop)]
pub struct Spent {
    pub queue: Vec<Work>,
}
