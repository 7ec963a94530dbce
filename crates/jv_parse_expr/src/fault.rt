//! How reading terminals ends where it gives nothing.

ghost use Rattle.std.specs.Prelude.{◌≡◌, length};
ghost use Rattle.jv_parse_expr.specs.declared.fault.Fault.TheVariants.{OutOfMemory, Refused};

use jv_grammar::Terminal;
use std::alloc::{AllocError, AllocFailed};

/// Why nothing was read.
#[derive(Debug, Drop)]
pub enum Fault {
    /// Memory ran out.
    OutOfMemory,
    /// A terminal was refused; this many terminals are left, and it is the first of them. None is left where they end too soon.
    Refused(usize),
}

impl From<AllocError> for Fault {
    ghost from_gives = { λ _ e. e ≡ OutOfMemory };

    fn from(_: AllocError) -> Fault {
        Fault::OutOfMemory
    }
}

impl<T: Drop> From<AllocFailed<T>> for Fault {
    ghost from_gives = { λ _ e. e ≡ OutOfMemory };

    fn from(_: AllocFailed<T>) -> Fault {
        Fault::OutOfMemory
    }
}

/// The refusal of the first of the terminals, or of their end.
pub fn refused(terminals: &[Terminal]) -> Fault
    ensures { result ≡ Refused (length terminals.now) }
{
    Fault::Refused(terminals.len())
}
