use crate::stop::Stop;
use std::alloc::AllocError;

/// What a rule comes to over the replies that have come so far: its value, or the first query that has no reply.
#[derive(Debug, Drop, PartialEq, Eq)]
pub enum Known<T, Q> {
    Is(T),
    Need(Q),
}

impl<T, Q> Known<T, Q> {
    ghost use Rattle.std.specs.Prelude.{◌≡◌};
    ghost use Rattle.sg_reading.specs.Stop.{known_of};

    /// A missing reply as a value, and want of memory alone as an error. Takes constant time.
    pub fn from_found(found: Result<T, Stop<Q>>) -> Result<Known<T, Q>, AllocError>
        ensures { result ≡ known_of found }
    {
        match found {
            Ok(value) => Ok(Known::Is(value)),
            Err(Stop::NoReply(query)) => Ok(Known::Need(query)),
            Err(Stop::OutOfMemory) => Err(AllocError),
        }
    }
}
