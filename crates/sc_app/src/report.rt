use crate::outcome::Outcome;
use crate::status::Status;

/// What is to be written, and the status that it has; and where it is shown of an outcome, that outcome.
#[derive(Drop)]
pub(crate) struct Report {
    pub(crate) bytes: Vec<u8>,
    pub(crate) status: Status,
    pub(crate) outcome: Option<Outcome>,
}
