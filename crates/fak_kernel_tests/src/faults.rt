//! Faults among several processors: the others leave, and the run returns the fault of the first one.

use super::examples::{fault_of, fault_with, is_left, script_in_parts};
use super::gates::{Chosen, Late, Second, Slow, Slowing};
use fak_kernel::{Fault, FreeGate};

/// A processor is held this many turns at most.
const MANY: u64 = 100_000_000;

/// No processor has this number.
const NOBODY: u64 = 8;

/// A process that wears a seat in its first turn. The processor that has it meets the fault, and the process is neither
/// ready nor ended, so that the others wait for it until they learn of the fault.
const WORN: &str =
    r#"{"version":1,"slots":1,"births":0,"quantum":9,"stint":4,"semaphores":[0],"files":1,
"programs":[[["up",0],["up",0],["up",0],["up",0],["up",0]]],"start":[0]}"#;

#[test]
fn the_others_leave_if_one_is_worn(rt: HostRuntime) {
    for processors in 2..9u64 {
        let gate = Late::new(NOBODY, MANY);
        let fault = fault_of(&rt, rt.alloc(), WORN, processors, &gate);
        is_left(
            &rt,
            fault,
            Fault::Worn,
            gate.is_left_behind.is_set(),
            NOBODY,
            processors,
        );
    }
}

#[test]
fn the_others_leave_by_the_free_gate(rt: HostRuntime) {
    for processors in 2..9u64 {
        let fault = fault_of(&rt, rt.alloc(), WORN, processors, &FreeGate);
        is_left(&rt, fault, Fault::Worn, false, NOBODY, processors);
    }
}

#[test]
fn the_fault_of_the_first_processor_is_returned(rt: HostRuntime) {
    for &(refused, returned) in &[(1u64, Fault::Worn), (0, Fault::Gate)] {
        let gate = Late::new(refused, MANY);
        let fault = fault_of(&rt, rt.alloc(), WORN, 2, &gate);
        is_left(
            &rt,
            fault,
            returned,
            gate.is_left_behind.is_set(),
            refused,
            2,
        );
    }
}

#[test]
fn the_fault_of_a_later_processor_is_returned(rt: HostRuntime) {
    let fault = fault_of(&rt, rt.alloc(), WORN, 2, &Slow::new(MANY));
    is_left(&rt, fault, Fault::Worn, false, 0, 2);
}

#[test]
fn whoever_is_worn_the_others_leave(rt: HostRuntime) {
    for processors in 2..9u64 {
        for chosen in 0..processors {
            let gate = Chosen::new(chosen, MANY);
            let fault = fault_of(&rt, rt.alloc(), WORN, processors, &gate);
            is_left(
                &rt,
                fault,
                Fault::Worn,
                gate.is_left_behind.is_set(),
                chosen,
                processors,
            );
        }
    }
}

/// Eight processes that end at once, and after them one that wears a seat in its first turn.
const WORN_BEHIND_EIGHT: [(u64, &str); 3] = [
    (
        1,
        r#"{"version":1,"slots":9,"births":0,"quantum":99,"stint":40,"semaphores":[0],"files":1,"programs":[[],["#,
    ),
    (40, r#"["up",0],"#),
    (1, r#"["up",0]]],"start":[0,0,0,0,0,0,0,0,1]}"#),
];

#[test]
fn the_others_leave_after_each_has_seen_an_end(rt: HostRuntime) {
    let script = script_in_parts(&rt, rt.alloc(), &WORN_BEHIND_EIGHT);
    for processors in 2..9u64 {
        for chosen in 0..processors {
            let gate = Second::new(chosen, processors, MANY);
            let fault = fault_with(&rt, rt.alloc(), &script, processors, &gate);
            is_left(
                &rt,
                fault,
                Fault::Worn,
                gate.chosen.is_left_behind.is_set(),
                chosen,
                processors,
            );
        }
    }
}

/// Eight processes of 1,000 turns each: a processor that runs all of them makes 8,000 looks.
const MANY_TURNS: [(u64, &str); 3] = [
    (
        1,
        r#"{"version":1,"slots":8,"births":0,"quantum":1,"semaphores":[],"files":1,"programs":[["#,
    ),
    (999, r#"["yield"],"#),
    (1, r#"["yield"]]],"start":[0,0,0,0,0,0,0,0]}"#),
];

#[test]
fn whoever_is_refused_the_others_leave_at_their_next_look(rt: HostRuntime) {
    let script = script_in_parts(&rt, rt.alloc(), &MANY_TURNS);
    for processors in 2..9u64 {
        for refused in 0..processors {
            let gate = Slowing::new(refused, MANY);
            let fault = fault_with(&rt, rt.alloc(), &script, processors, &gate);
            is_left(
                &rt,
                fault,
                Fault::Gate,
                gate.is_left_behind.is_set(),
                refused,
                processors,
            );
        }
    }
}
