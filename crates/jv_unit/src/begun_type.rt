use crate::begun_checks::BegunChecks;
use crate::begun_head::BegunHead;

/// What was begun of a type, its head or the checks behind that.
#[derive(Drop)]
pub(crate) enum BegunType {
    Head(BegunHead),
    Checks(BegunChecks),
}
