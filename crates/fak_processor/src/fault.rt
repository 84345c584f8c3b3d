//! Why a processor could not go on, layer by layer. The only fault of a call on a shared object is `Worn`.

ghost use Rattle.std.specs.Prelude.{◌≡◌};
ghost use Rattle.fak_processor.specs.declared.fault.LoopFault.TheVariants as loop;
ghost use Rattle.fak_processor.specs.declared.fault.StepFault.TheVariants as step;

use fak_count::Worn;
use fak_run::Fault;
use std::alloc::{AllocError, AllocFailed};
use thiserror::Error;

/// Why a processor could not take a step.
#[derive(Clone, Copy, Debug, PartialEq, Eq, Error)]
pub enum StepFault {
    /// There was no memory.
    #[error("out of memory")]
    Memory,
    /// A seat had used up its stint.
    #[error("a seat is worn")]
    Worn,
}

/// Why the loop of a processor ended early.
#[derive(Clone, Copy, Debug, PartialEq, Eq, Error)]
pub enum LoopFault {
    /// A step could not be taken.
    #[error("{0}")]
    Step(StepFault),
    /// The gate refused the processor.
    #[error("the gate refused")]
    Gate,
}

impl From<AllocError> for StepFault {
    ghost from_gives = { λ _ e. e ≡ step.Memory };

    fn from(_e: AllocError) -> StepFault {
        StepFault::Memory
    }
}

impl<T: Drop> From<AllocFailed<T>> for StepFault {
    ghost from_gives = { λ _ e. e ≡ step.Memory };

    fn from(_e: AllocFailed<T>) -> StepFault {
        StepFault::Memory
    }
}

impl From<Worn> for StepFault {
    ghost from_gives = { λ _ e. e ≡ step.Worn };

    fn from(_e: Worn) -> StepFault {
        StepFault::Worn
    }
}

impl From<StepFault> for LoopFault {
    ghost from_gives = { λ fault e. e ≡ loop.Step fault };

    fn from(fault: StepFault) -> LoopFault {
        LoopFault::Step(fault)
    }
}

impl From<AllocError> for LoopFault {
    ghost from_gives = { λ _ e. e ≡ loop.Step step.Memory };

    fn from(_e: AllocError) -> LoopFault {
        LoopFault::Step(StepFault::Memory)
    }
}

impl From<Worn> for LoopFault {
    ghost from_gives = { λ _ e. e ≡ loop.Step step.Worn };

    fn from(_e: Worn) -> LoopFault {
        LoopFault::Step(StepFault::Worn)
    }
}

impl From<StepFault> for Fault {
    ghost use Rattle.std.specs.Prelude.{◌≡◌};
    ghost use Rattle.fak_processor.specs.Layers.{fault_of_step};

    ghost from_gives = { λ fault e. e ≡ fault_of_step fault };

    fn from(fault: StepFault) -> Fault {
        match fault {
            StepFault::Memory => Fault::Memory,
            StepFault::Worn => Fault::Worn,
        }
    }
}

impl From<LoopFault> for Fault {
    ghost use Rattle.std.specs.Prelude.{◌≡◌};
    ghost use Rattle.fak_processor.specs.Layers.{fault_of_loop};

    ghost from_gives = { λ fault e. e ≡ fault_of_loop fault };

    fn from(fault: LoopFault) -> Fault {
        match fault {
            LoopFault::Step(fault) => Fault::from(fault),
            LoopFault::Gate => Fault::Gate,
        }
    }
}
