ghost use Rattle.std.specs.Prelude.{◌≡◌};

use std::alloc::{AllocError, AllocFailed};
use thiserror::Error;

/// Why a tree gave no answer.
#[derive(Debug, Drop, Error)]
pub enum TreeFault {
    #[error("the source tree cannot be read")]
    Failed,
    #[error("out of memory")]
    OutOfMemory,
}

/// Why a sink did not take a piece.
#[derive(Debug, Drop, Error)]
pub enum SinkFault {
    #[error("the output cannot be written")]
    Failed,
    #[error("out of memory")]
    OutOfMemory,
}

impl From<AllocError> for TreeFault {
    ghost use Rattle.sc_io.specs.declared.fault.TreeFault.TheVariants.{OutOfMemory};

    ghost from_gives = { λ _ e. e ≡ OutOfMemory };

    fn from(_e: AllocError) -> TreeFault {
        TreeFault::OutOfMemory
    }
}

impl<T: Drop> From<AllocFailed<T>> for TreeFault {
    ghost use Rattle.sc_io.specs.declared.fault.TreeFault.TheVariants.{OutOfMemory};

    ghost from_gives = { λ _ e. e ≡ OutOfMemory };

    fn from(_e: AllocFailed<T>) -> TreeFault {
        TreeFault::OutOfMemory
    }
}

impl From<AllocError> for SinkFault {
    ghost use Rattle.sc_io.specs.declared.fault.SinkFault.TheVariants.{OutOfMemory};

    ghost from_gives = { λ _ e. e ≡ OutOfMemory };

    fn from(_e: AllocError) -> SinkFault {
        SinkFault::OutOfMemory
    }
}
