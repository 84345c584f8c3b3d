//! Why the program has no answer.

ghost use Rattle.std.specs.Prelude.{◌≡◌};
ghost use Rattle.fak_replay.specs.Faults.{fault_of, fault_of_run, status_of};
ghost use Rattle.fak_replay.specs.declared.fault.MainFault.TheVariants.{Memory};

use fak_run::Fault;
use fak_text::TextFault;
use std::alloc::{AllocError, AllocFailed};
use thiserror::Error;

/// Why the program has no answer. Its text is one line on standard error.
#[derive(Clone, Copy, Debug, PartialEq, Eq, Error)]
pub enum MainFault {
    /// The words of the command line are no command.
    #[error("fak: usage: fak replay, fak check, fak run --processors N")]
    Usage,
    /// The input is at fault.
    #[error(transparent)]
    Text(TextFault),
    /// The run of a script failed.
    #[error(transparent)]
    Kernel(Fault),
    /// There was no memory.
    #[error("fak: out of memory")]
    Memory,
    /// The reader failed, or did not end within 2,097,152 reads.
    #[error("fak: input could not be read")]
    Read,
    /// The writer failed.
    #[error("fak: output could not be written")]
    Write,
}

impl From<AllocError> for MainFault {
    ghost from_gives = { λ _ e. e ≡ Memory };

    fn from(_e: AllocError) -> MainFault {
        MainFault::Memory
    }
}

impl<T: Drop> From<AllocFailed<T>> for MainFault {
    ghost from_gives = { λ _ e. e ≡ Memory };

    fn from(_e: AllocFailed<T>) -> MainFault {
        MainFault::Memory
    }
}

impl From<TextFault> for MainFault {
    ghost from_gives = { λ fault e. e ≡ fault_of fault };

    fn from(fault: TextFault) -> MainFault {
        match fault {
            TextFault::Memory => MainFault::Memory,
            fault => MainFault::Text(fault),
        }
    }
}

impl From<Fault> for MainFault {
    ghost from_gives = { λ fault e. e ≡ fault_of_run fault };

    fn from(fault: Fault) -> MainFault {
        match fault {
            Fault::Memory => MainFault::Memory,
            fault => MainFault::Kernel(fault),
        }
    }
}

impl MainFault {
    /// The program's exit status: 2 for bad input or usage, 1 for what the program lacked.
    pub fn status(&self) -> u8
        ensures { result ≡ status_of self.now }
    {
        match self {
            MainFault::Usage | MainFault::Text(_) | MainFault::Kernel(Fault::BadProcessors) => 2,
            _ => 1,
        }
    }
}
