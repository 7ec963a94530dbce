ghost use Rattle.std.specs.Prelude.{◌≡◌, IfOk};

use sg_query::Answer;
use std::alloc::AllocError;

/// What a unit asks by events that were kept beside the turn: nothing, a query whose answer was found and is not told yet,
/// or one whose answer is ready to be taken.
#[derive(Drop)]
pub enum FoundAsk<D: Drop> {
    Nothing,
    Found(Answer<D>),
    Ready(Answer<D>),
}

impl<D: Drop> FoundAsk<D> {
    /// The same once more, which shares the answer: it costs a count. An error where too many share it.
    pub(crate) fn share(&self) -> Result<FoundAsk<D>, AllocError>
        ensures { IfOk result (λ r. r ≡ self.now) }
    {
        match self {
            FoundAsk::Nothing => Ok(FoundAsk::Nothing),
            FoundAsk::Found(answer) => Ok(FoundAsk::Found(answer.share()?)),
            FoundAsk::Ready(answer) => Ok(FoundAsk::Ready(answer.share()?)),
        }
    }
}
