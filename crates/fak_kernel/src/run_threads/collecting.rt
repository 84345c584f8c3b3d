//! What a run makes of the results of its threads.

ghost use Rattle.std.specs.Prelude.{◌≡◌, ◌⊎◌, Some, None, map, IfOk, IfErr};
ghost use Rattle.fak_kernel.specs.Threads.{as_left, first_fault};

use fak_processor::{LoopFault, StepFault};
use std::alloc::{AllocError, Global};

/// What the threads returned, if all processors have left.
///
/// # Errors
///
/// The fault of the lowest-numbered processor that has one. Otherwise `Memory`: the list could not grow, or a processor
/// stopped for a fault that no other returned, which happens in no run.
pub(crate) fn all_left<A: Drop>(
    alloc: Global,
    results: Vec<Result<Option<A>, LoopFault>>,
) -> Result<Vec<A>, LoopFault>
    ensures left { IfOk result (λ left. map as_left left.items ≡ results.items) }
    ensures fault { IfErr result (λ fault. (first_fault results.items ≡ Some fault)
        ⊎ ((first_fault results.items ≡ None) × (fault ≡ LoopFault.Step StepFault.Memory))) }
{
    if let Some(fault) = first_fault(results.as_slice()) {
        return Err(fault);
    }
    Ok(those_left(alloc, results)?)
}

/// The fault of the lowest-numbered processor that has one.
fn first_fault<A>(results: &[Result<Option<A>, LoopFault>]) -> Option<LoopFault>
    ensures { result ≡ first_fault results.now }
{
    for returned in results {
        if let Err(fault) = returned {
            return Some(*fault);
        }
    }
    None
}

/// What the threads returned, if all processors have left. Otherwise, and if the list cannot grow, `AllocError`.
fn those_left<A: Drop>(
    alloc: Global,
    results: Vec<Result<Option<A>, LoopFault>>,
) -> Result<Vec<A>, AllocError>
    ensures left { IfOk result (λ left. map as_left left.items ≡ results.items) }
{
    let mut left = Vec::new(alloc);
    for returned in results {
        let Ok(Some(seats)) = returned else {
            return Err(AllocError);
        };
        left.push(seats)?;
    }
    Ok(left)
}
