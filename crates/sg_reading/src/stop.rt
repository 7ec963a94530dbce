use std::alloc::{AllocError, AllocFailed};

/// Why a rule that is read over replies stopped before its end.
#[derive(Debug, Drop, PartialEq, Eq)]
pub enum Stop<Q> {
    /// This query has no reply yet.
    NoReply(Q),
    /// Memory ran out.
    OutOfMemory,
}

impl<Q> From<AllocError> for Stop<Q> {
    ghost use Rattle.std.specs.Prelude.{◌≡◌};
    ghost use Rattle.sg_reading.specs.declared.stop.Stop.TheVariants.{OutOfMemory};

    ghost from_gives = { λ _ r. r ≡ OutOfMemory };

    fn from(_error: AllocError) -> Stop<Q> {
        Stop::OutOfMemory
    }
}

impl<T: Drop, Q> From<AllocFailed<T>> for Stop<Q> {
    ghost use Rattle.std.specs.Prelude.{◌≡◌};
    ghost use Rattle.sg_reading.specs.declared.stop.Stop.TheVariants.{OutOfMemory};

    ghost from_gives = { λ _ r. r ≡ OutOfMemory };

    fn from(_error: AllocFailed<T>) -> Stop<Q> {
        Stop::OutOfMemory
    }
}
