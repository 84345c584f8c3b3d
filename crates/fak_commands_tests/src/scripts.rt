//! Runs of scripts, and their faults.

use crate::answers::{has_answer, has_fault, have_faults};
use crate::rows::faults::{
    FAULT_NO_QUANTUM, FAULT_QUANTUM_OUT_OF_RANGE, FAULT_SCRIPT_CUT_OFF, FAULT_UNKNOWN_STEP,
    FAULT_WORN_SEAT,
};
use crate::rows::scripts::{SCRIPT_EMPTY_PROGRAM, SCRIPT_FILE_AND_CHILD};
use crate::rows::{Row, are_answered, scripts};
use fak_commands::{Command, MainFault};
use fak_kernel::Fault;
use fak_text::{Field, TextFault};

#[test]
fn faults_of_a_script(rt: HostRuntime) {
    const SCENARIOS: &[(Row, TextFault)] = &[
        (FAULT_SCRIPT_CUT_OFF, TextFault::NotJson),
        (FAULT_NO_QUANTUM, TextFault::Missing(Field::Quantum)),
        (FAULT_QUANTUM_OUT_OF_RANGE, TextFault::Range(Field::Quantum)),
        (FAULT_UNKNOWN_STEP, TextFault::UnknownOp(1)),
    ];
    const ROWS: &[(&str, TextFault)] = &[
        (
            r#"{"version":1,"slots":1,"births":0,"quantum":4,"semaphores":[0],"files":1,"programs":[[["shutdown"]]],"start":[0]}"#,
            TextFault::UnknownOp(0),
        ),
        (
            r#"{"version":1,"slots":1,"births":0,"quantum":4,"semaphores":[0],"files":1,"programs":[[["down",1]]],"start":[0]}"#,
            TextFault::Range(Field::Programs),
        ),
        (
            r#"{"version":1,"slots":1,"births":0,"quantum":4,"semaphores":[0],"files":1,"programs":[[]],"start":[1]}"#,
            TextFault::Range(Field::Start),
        ),
    ];
    for &(row, fault) in SCENARIOS {
        has_fault(&rt, Command::Run(1), row.input, MainFault::Text(fault));
    }
    have_faults(&rt, Command::Run(1), ROWS);
}

#[test]
fn scenarios(rt: HostRuntime) {
    are_answered(&rt, scripts::ROWS);
}

#[test]
fn the_same_report_on_1_to_8_processors(rt: HostRuntime) {
    let row = SCRIPT_FILE_AND_CHILD;
    for processors in 1..9u64 {
        has_answer(
            &rt,
            Command::Run(processors),
            row.input,
            row.status,
            row.output,
        );
    }
}

#[test]
fn no_other_number_of_processors(rt: HostRuntime) {
    let script = SCRIPT_EMPTY_PROGRAM.input;
    let fault = MainFault::Kernel(Fault::BadProcessors);
    for processors in [0, 9, u64::MAX] {
        has_fault(&rt, Command::Run(processors), script, fault);
    }
    // The script is read first.
    let fault = MainFault::Text(TextFault::NotJson);
    has_fault(&rt, Command::Run(9), "[", fault);
}

#[test]
fn a_seat_is_worn(rt: HostRuntime) {
    for processors in 1..3u64 {
        has_fault(
            &rt,
            Command::Run(processors),
            FAULT_WORN_SEAT.input,
            MainFault::Kernel(Fault::Worn),
        );
    }
}
