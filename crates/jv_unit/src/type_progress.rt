ghost use Rattle.std.specs.Prelude.{◌≡◌, None, Some};

use crate::begun_type::BegunType;

/// How far the checker of a type came: nowhere yet, behind its header, or to one of the checks behind its head.
#[derive(Drop)]
pub(crate) struct TypeProgress {
    begun: Option<BegunType>,
}

impl TypeProgress {
    /// Nothing was checked yet. It takes no memory.
    pub(crate) fn new() -> TypeProgress
        ensures { result.begun ≡ None }
    {
        TypeProgress { begun: None }
    }

    /// Takes what was begun, so that nothing is.
    pub(crate) fn take(&mut self) -> Option<BegunType>
        ensures begun { result ≡ self.old.begun }
        ensures new { self.new.begun ≡ None }
    {
        self.begun.take()
    }

    /// Keeps what was begun.
    pub(crate) fn keep(&mut self, begun: BegunType)
        ensures { self.new.begun ≡ Some begun }
    {
        self.begun = Some(begun);
    }
}
