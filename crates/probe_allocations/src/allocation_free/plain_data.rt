//! Calls on plain data: of the model, the cores and scripts.

use super::sentinels::{begin, end};
use fak_core::{QueueCall, QueueCore, RoomCall, RoomCore};
use fak_model::{BIAS, Kind, Mark, NameSet, cell_of, count_of, first_fault, round_of};
use fak_text::{Script, read_script};

const SCRIPT: &str =
    r#"{"version":1,"slots":1,"births":2,"quantum":4,"semaphores":[3],"files":5,"programs":[[]],"start":[0]}"#;

/// Judges a history, and computes with tickets, counts and names.
pub(super) fn call_model(rt: &(impl Print + AllocGlobal)) -> bool {
    const MARKS: &[Mark<u64>] = &[Mark {
        seat: 0,
        kind: Kind::NoRoom,
    }];
    begin(rt);
    let mut names = NameSet::of(0);
    names.insert(1);
    let are_as_expected = first_fault(1, MARKS) == Some(0)
        && cell_of(5, 3) == 2
        && round_of(5, 3) == 1
        && count_of(BIAS + 5) == 5
        && names.has_all(2);
    end(
        rt,
        "first_fault, cell_of, round_of, count_of, NameSet",
        are_as_expected,
    );
    true
}

/// Calls of a room of one seat, which has claimed.
pub(super) fn call_room_core(rt: &(impl Print + AllocGlobal)) -> bool {
    let alloc = rt.alloc();
    let Ok(mut core) = RoomCore::new(alloc, 5, 1) else {
        return false;
    };
    if core.begin(0, RoomCall::Tir(2)).is_err()
        || core.advance(alloc, 0).is_err()
        || core.advance(alloc, 0).is_err()
    {
        return false;
    }
    begin(rt);
    let are_as_expected = core.marks().len() == 1
        && core.value() == 2
        && core.begin(0, RoomCall::Release(3)).is_err()
        && core.begin(0, RoomCall::Release(2)).is_ok();
    end(rt, "RoomCore: marks, value, begin", are_as_expected);
    true
}

/// Calls of a queue of one seat, which has inserted.
pub(super) fn call_queue_core(rt: &(impl Print + AllocGlobal)) -> bool {
    let alloc = rt.alloc();
    let Ok(mut core) = QueueCore::new(alloc, 1, 1) else {
        return false;
    };
    if core.begin(0, QueueCall::Insert(7)).is_err() {
        return false;
    }
    for _ in 0..7u8 {
        if core.advance(alloc, 0).is_err() {
            return false;
        }
    }
    begin(rt);
    let are_as_expected = core.marks().len() == 4
        && core.begin(0, QueueCall::Delete).is_ok()
        && core.begin(0, QueueCall::Delete).is_err();
    end(rt, "QueueCore: marks, begin", are_as_expected);
    true
}

/// Whether the script has what its text states.
fn has_what_it_says(script: &Script) -> bool {
    script.version() == 1
        && script.slots() == 1
        && script.births() == 2
        && script.quantum() == 4
        && script.stint() == 1_099_511_627_776
        && script.semaphores() == [3].as_slice()
        && script.files() == 5
        && script.programs().len() == 1
        && script.start() == [0].as_slice()
}

/// The parts of a script.
pub(super) fn call_script(rt: &(impl Print + AllocGlobal)) -> bool {
    let Ok(script) = read_script(rt.alloc(), SCRIPT.as_bytes()) else {
        return false;
    };
    begin(rt);
    let are_as_expected = has_what_it_says(&script);
    end(
        rt,
        "Script: version, slots, births, quantum, stint, semaphores, files, programs, start",
        are_as_expected,
    );
    true
}
