//! Why the processors of a run could not do their work, layer by layer.

ghost use Rattle.std.specs.Prelude.{◌≡◌};
ghost use Rattle.fak_processor.specs.declared.fault.StepFault.TheVariants as step;
ghost use Rattle.fak_processor.specs.declared.fault.LoopFault.TheVariants as loop;
ghost use Rattle.fak_kernel.specs.declared.fault.RunFault.TheVariants as run;
ghost use Rattle.fak_kernel.specs.declared.fault.StartFault.TheVariants as start;

use fak_processor::{LoopFault, StepFault};
use fak_run::Fault;
use std::alloc::{AllocError, AllocFailed};

/// Why not all threads could be begun.
#[derive(Clone, Copy, Debug, PartialEq, Eq)]
pub(crate) enum StartFault {
    /// There was no memory for the handles of the threads, or for their results.
    Memory,
    /// The system gave no thread.
    NoThread,
}

/// Why the processors did not all leave.
#[derive(Clone, Copy, Debug, PartialEq, Eq)]
pub(crate) enum RunFault {
    /// A processor met this fault, or there was no memory for the run.
    Loop(LoopFault),
    /// The system gave no thread.
    NoThread,
}

impl<T: Drop> From<AllocFailed<T>> for StartFault {
    ghost from_gives = { λ _ e. e ≡ start.Memory };

    fn from(_e: AllocFailed<T>) -> StartFault {
        StartFault::Memory
    }
}

impl From<StartFault> for RunFault {
    ghost use Rattle.std.specs.Prelude.{◌≡◌};
    ghost use Rattle.fak_kernel.specs.Layers.{fault_of_start};

    ghost from_gives = { λ fault e. e ≡ fault_of_start fault };

    fn from(fault: StartFault) -> RunFault {
        match fault {
            StartFault::Memory => RunFault::Loop(LoopFault::Step(StepFault::Memory)),
            StartFault::NoThread => RunFault::NoThread,
        }
    }
}

impl From<AllocError> for RunFault {
    ghost from_gives = { λ _ e. e ≡ run.Loop (loop.Step step.Memory) };

    fn from(_e: AllocError) -> RunFault {
        RunFault::Loop(LoopFault::Step(StepFault::Memory))
    }
}

impl From<StepFault> for RunFault {
    ghost from_gives = { λ fault e. e ≡ run.Loop (loop.Step fault) };

    fn from(fault: StepFault) -> RunFault {
        RunFault::Loop(LoopFault::Step(fault))
    }
}

impl From<LoopFault> for RunFault {
    ghost from_gives = { λ fault e. e ≡ run.Loop fault };

    fn from(fault: LoopFault) -> RunFault {
        RunFault::Loop(fault)
    }
}

impl From<RunFault> for Fault {
    ghost use Rattle.std.specs.Prelude.{◌≡◌};
    ghost use Rattle.fak_kernel.specs.Layers.{fault_of_run};

    ghost from_gives = { λ fault e. e ≡ fault_of_run fault };

    fn from(fault: RunFault) -> Fault {
        match fault {
            RunFault::Loop(fault) => fault.into(),
            RunFault::NoThread => Fault::NoThread,
        }
    }
}
