use crate::outcome::Outcome;
use crate::status::Status;

/// What a run comes to.
#[derive(Drop)]
pub struct Ran {
    /// How it ended.
    pub status: Status,
    /// What the sources came to, where all that is shown of them was written.
    pub outcome: Option<Outcome>,
}
