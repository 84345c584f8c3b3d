//! Why a script was not run to its end.

ghost use Rattle.std.specs.Prelude.{◌≡◌};
ghost use Rattle.fak_run.specs.declared.fault.Fault.TheVariants.{Memory};

use std::alloc::{AllocError, AllocFailed};
use thiserror::Error;

/// Why there is no report.
#[derive(Clone, Copy, Debug, PartialEq, Eq, Error)]
pub enum Fault {
    /// Memory ran out.
    #[error("fak: out of memory")]
    Memory,
    /// A seat had used up its stint.
    #[error("fak: a seat is worn")]
    Worn,
    /// The gate refused a processor.
    #[error("fak: the gate refused")]
    Gate,
    /// The number of processors is not 1 to 8.
    #[error("fak: processors out of range")]
    BadProcessors,
    /// The system could not start a thread.
    #[error("fak: no thread")]
    NoThread,
}

impl From<AllocError> for Fault {
    ghost from_gives = { λ _ e. e ≡ Memory };

    fn from(_e: AllocError) -> Fault {
        Fault::Memory
    }
}

impl<T: Drop> From<AllocFailed<T>> for Fault {
    ghost from_gives = { λ _ e. e ≡ Memory };

    fn from(_e: AllocFailed<T>) -> Fault {
        Fault::Memory
    }
}
