ghost use Rattle.std.specs.Prelude.{◌≡◌, IfOk};

use crate::found_paths::FoundPaths;
use std::alloc::AllocError;

/// The answer of a query: its visible paths in rising order, or that too many paths go on to look at them all.
#[derive(Debug, Drop)]
pub enum Answer<D: Drop> {
    Paths(FoundPaths<D>),
    TooMany,
}

impl<D: Drop> Answer<D> {
    /// The same answer once more, which shares its paths: it costs a count. An error where too many share them.
    pub fn share(&self) -> Result<Answer<D>, AllocError>
        ensures { IfOk result (λ r. r ≡ self.now) }
    {
        match self {
            Answer::Paths(paths) => Ok(Answer::Paths(paths.share()?)),
            Answer::TooMany => Ok(Answer::TooMany),
        }
    }
}
