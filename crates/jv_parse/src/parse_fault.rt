use std::alloc::{AllocError, AllocFailed};
use thiserror::Error;

/// Why the tokens of a source gave no tree. A token has its number, from 0.
#[derive(Debug, Drop, PartialEq, Eq, Error)]
pub enum ParseFault {
    /// The source is nested too deep: the load is 201 behind this token, and behind none before it.
    #[error("nested too deep at token {token}")]
    TooDeep { token: u32 },
    /// The tokens are no file of the grammar: those before this one begin a file, and with it they do not. Where all of
    /// them begin one, it is the number of tokens: the source ends too soon.
    #[error("not in the grammar at token {token}")]
    NotInGrammar { token: u32 },
    #[error("out of memory")]
    OutOfMemory,
}

impl From<AllocError> for ParseFault {
    ghost use Rattle.std.specs.Prelude.{◌≡◌};
    ghost use Rattle.jv_parse.specs.declared.parse_fault.ParseFault.TheVariants.{OutOfMemory};

    ghost from_gives = { λ _ e. e ≡ OutOfMemory };

    fn from(_error: AllocError) -> ParseFault {
        ParseFault::OutOfMemory
    }
}

impl<T: Drop> From<AllocFailed<T>> for ParseFault {
    ghost use Rattle.std.specs.Prelude.{◌≡◌};
    ghost use Rattle.jv_parse.specs.declared.parse_fault.ParseFault.TheVariants.{OutOfMemory};

    ghost from_gives = { λ _ e. e ≡ OutOfMemory };

    fn from(_error: AllocFailed<T>) -> ParseFault {
        ParseFault::OutOfMemory
    }
}
