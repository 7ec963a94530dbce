ghost use Rattle.std.specs.Prelude.{◌≡◌, None, Some};

use crate::begun_body::BegunBody;

/// How far the check of a body came: nowhere yet, or behind some of the statements at its top.
#[derive(Drop)]
pub struct BodyProgress {
    begun: Option<BegunBody>,
}

impl BodyProgress {
    /// Nothing was checked yet. It takes no memory.
    pub fn new() -> BodyProgress
        ensures { result.begun ≡ None }
    {
        BodyProgress { begun: None }
    }

    /// Takes what was begun, so that nothing is.
    pub(crate) fn take(&mut self) -> Option<BegunBody>
        ensures begun { result ≡ self.old.begun }
        ensures new { self.new.begun ≡ None }
    {
        self.begun.take()
    }

    /// Keeps what was begun.
    pub(crate) fn keep(&mut self, body: BegunBody)
        ensures { self.new.begun ≡ Some body }
    {
        self.begun = Some(body);
    }
}
