//! The texts of faults.

use super::examples::assert_with;
use fak_kernel::Fault;
use std::alloc::Global;
use std::process::Abort;

/// Checks that the fault is written so.
fn is_written(rt: &impl Abort, alloc: Global, fault: Fault, want: &str) {
    let text = fault.to_string(alloc).expect(rt, want);
    assert_with(rt, text.as_str() == want, want, fault, 0, 0);
}

const ROWS: &[(Fault, &str)] = &[
    (Fault::Memory, "fak: out of memory"),
    (Fault::Worn, "fak: a seat is worn"),
    (Fault::Gate, "fak: the gate refused"),
    (Fault::BadProcessors, "fak: processors out of range"),
    (Fault::NoThread, "fak: no thread"),
];

#[test]
fn faults(rt: HostRuntime) {
    for &(fault, want) in ROWS {
        is_written(&rt, rt.alloc(), fault, want);
    }
}
