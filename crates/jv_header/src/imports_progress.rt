use crate::references::References;
use std::alloc::Global;

/// What the imports of a file mean that were read so far, from the first on.
#[derive(Drop)]
pub struct ImportsProgress {
    pub(crate) found: References,
}

impl ImportsProgress {
    ghost use Rattle.std.specs.Prelude.{◌≡◌, []};

    /// No import was read yet. It takes no memory.
    pub fn new(alloc: Global) -> ImportsProgress
        ensures { result.found ≡ [] }
    {
        ImportsProgress {
            found: References::empty(alloc),
        }
    }
}
