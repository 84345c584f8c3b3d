//! Why the program has no answer.

ghost use Rattle.std.specs.Prelude.{◌≡◌};
ghost use Rattle.fak_places.specs.Program.{status_of_fault};
ghost use Rattle.fak_places.specs.declared.fault.WhereFault.TheVariants.{Memory};

use std::alloc::{AllocError, AllocFailed};
use thiserror::Error;

/// Why the program has no answer. Its text is one line on standard error.
#[derive(Clone, Copy, Debug, PartialEq, Eq, Error)]
pub enum WhereFault {
    /// The words of the command line name no format.
    #[error("fak_where: usage: fak_where replay, fak_where check, fak_where run, fak_where --version")]
    Usage,
    /// There was no memory.
    #[error("fak_where: out of memory")]
    Memory,
    /// The reader failed.
    #[error("fak_where: input could not be read")]
    Read,
    /// The writer failed.
    #[error("fak_where: output could not be written")]
    Write,
}

impl WhereFault {
    /// The program's exit status: 2 for bad usage, 1 for what the program lacked.
    pub fn status(&self) -> u8
        ensures { result ≡ status_of_fault self.now }
    {
        match self {
            WhereFault::Usage => 2,
            _ => 1,
        }
    }
}

impl From<AllocError> for WhereFault {
    ghost from_gives = { λ _ e. e ≡ Memory };

    fn from(_e: AllocError) -> WhereFault {
        WhereFault::Memory
    }
}

impl<T: Drop> From<AllocFailed<T>> for WhereFault {
    ghost from_gives = { λ _ e. e ≡ Memory };

    fn from(_e: AllocFailed<T>) -> WhereFault {
        WhereFault::Memory
    }
}
