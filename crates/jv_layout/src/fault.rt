use std::alloc::{AllocError, AllocFailed};
use thiserror::Error;

/// Why a folder has no layout.
#[derive(Debug, Drop, PartialEq, Eq, Error)]
pub enum LayoutFault {
    /// More than 32,768 types are declared beside the prelude's.
    #[error("too many types")]
    TooManyTypes,
    #[error("out of memory")]
    OutOfMemory,
}

impl From<AllocError> for LayoutFault {
    ghost use Rattle.std.specs.Prelude.{◌≡◌};
    ghost use Rattle.jv_layout.specs.declared.fault.LayoutFault.TheVariants.{OutOfMemory};

    ghost from_gives = { λ _ e. e ≡ OutOfMemory };

    fn from(_error: AllocError) -> LayoutFault {
        LayoutFault::OutOfMemory
    }
}

impl<T: Drop> From<AllocFailed<T>> for LayoutFault {
    ghost use Rattle.std.specs.Prelude.{◌≡◌};
    ghost use Rattle.jv_layout.specs.declared.fault.LayoutFault.TheVariants.{OutOfMemory};

    ghost from_gives = { λ _ e. e ≡ OutOfMemory };

    fn from(_error: AllocFailed<T>) -> LayoutFault {
        LayoutFault::OutOfMemory
    }
}
