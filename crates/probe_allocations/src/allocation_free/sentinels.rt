//! The allocations between which calls are made, so that a check can tell whether the calls allocate.

use std::alloc::Global;

/// The bytes of the allocation before the calls. Nothing else allocates as many.
const BEFORE: usize = 40_961;

/// The bytes of the allocation behind the calls. Nothing else allocates as many.
const BEHIND: usize = 40_963;

/// Allocates this many bytes, and gives them back. If they are refused, only the check misses them.
fn allocate(alloc: Global, bytes: usize) {
    let _ = Vec::<u8>::with_capacity(alloc, bytes);
}

/// Begins a row of calls.
pub(super) fn begin(rt: &impl AllocGlobal) {
    allocate(rt.alloc(), BEFORE);
}

/// Ends a row of calls, and prints which they were, and whether each returned what it should.
pub(super) fn end(rt: &(impl Print + AllocGlobal), calls: &str, are_as_expected: bool) {
    allocate(rt.alloc(), BEHIND);
    if are_as_expected {
        let _ = println!(rt; "between allocations of {BEFORE} and {BEHIND} bytes: {calls}");
    } else {
        let _ = println!(rt; "unexpected returns: {calls}");
    }
}
