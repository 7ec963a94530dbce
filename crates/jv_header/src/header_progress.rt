use crate::references::References;
use std::alloc::Global;

/// The references of a header that were read so far, of each clause from its first on.
#[derive(Drop)]
pub struct HeaderProgress {
    pub(crate) extended: References,
    pub(crate) implemented: References,
}

impl HeaderProgress {
    ghost use Rattle.std.specs.Prelude.{◌≡◌, []};

    /// No reference was read yet. It takes no memory.
    pub fn new(alloc: Global) -> HeaderProgress
        ensures extended { result.extended ≡ [] }
        ensures implemented { result.implemented ≡ [] }
    {
        HeaderProgress {
            extended: References::empty(alloc),
            implemented: References::empty(alloc),
        }
    }
}
