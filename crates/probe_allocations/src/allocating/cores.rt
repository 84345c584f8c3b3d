//! The cores, stepped by one thread.

use crate::printing::{show, show_count};
use crate::retrying::try_twice;
use fak_core::{QueueCall, QueueCore, RoomCall, RoomCore};

/// One step of a seat of a room.
fn advance(rt: &(impl Print + Eprint + AllocGlobal), core: &mut RoomCore, seat: u64) -> bool {
    let line = try_twice!(rt, "RoomCore::advance", core.advance(rt.alloc(), seat));
    show(rt, "RoomCore::advance", &line);
    true
}

/// A claim of one more than this, and its release.
fn claim_and_release(rt: &(impl Print + Eprint + AllocGlobal), core: &mut RoomCore, i: u8) -> bool {
    let d = u64::from(i) + 1;
    let seat = d % 2;
    core.begin(seat, RoomCall::Tir(d)).is_ok()
        && advance(rt, core, seat)
        && advance(rt, core, seat)
        && core.begin(seat, RoomCall::Release(d)).is_ok()
        && advance(rt, core, seat)
}

/// A room of two seats, of which each claims and releases.
pub(super) fn step_room(rt: &(impl Print + Eprint + AllocGlobal)) -> bool {
    let mut core = try_twice!(rt, "RoomCore::new", RoomCore::new(rt.alloc(), 100, 2));
    show_count(rt, "RoomCore::new", core.marks().len(), "marks");
    for i in 0..39u8 {
        if !claim_and_release(rt, &mut core, i) {
            return false;
        }
    }
    let _ = println!(rt; "{} marks, value {}", core.marks().len(), core.value());
    true
}

/// A queue of two seats, of which one inserts and the other deletes.
pub(super) fn step_queue(rt: &(impl Print + Eprint + AllocGlobal)) -> bool {
    let alloc = rt.alloc();
    let mut core = try_twice!(rt, "QueueCore::new", QueueCore::new(alloc, 3, 2));
    show_count(rt, "QueueCore::new", core.marks().len(), "marks");
    for item in 0..20u64 {
        let calls = [QueueCall::Insert(item), QueueCall::Delete];
        for seat in 0..2u64 {
            if core.begin(seat, calls[seat as usize]).is_err() {
                return false;
            }
            for _step in 0..7u8 {
                let line = try_twice!(rt, "QueueCore::advance", core.advance(alloc, seat));
                show(rt, "QueueCore::advance", &line);
            }
        }
    }
    let _ = println!(rt; "{} marks", core.marks().len());
    true
}
