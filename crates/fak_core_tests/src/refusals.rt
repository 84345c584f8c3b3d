//! A refused call leaves a core as it was, and a call that failed because memory ran out can be tried again.

use super::assertions::assert_equal;
use crate::queues::{DELETED, INSERTED, Step, advances, begins, opened};
use crate::rooms;
use fak_core::{CoreFault, CoreMove, Line, LineMark, QueueCall, QueueCore, RoomCall, RoomCore};
use std::fmt::Debug;
use std::process::Abort;

/// Checks that a call or a step was refused with this fault and left the core as it was before.
fn assert_refused<R: Drop, C: PartialEq + Debug>(
    rt: &impl Abort,
    found: Result<R, CoreFault>,
    fault: CoreFault,
    core: &C,
    before: &C,
) {
    assert_equal(rt, found.err(), Some(fault));
    assert_equal(rt, core, before);
}

/// A queue with one item, in which seat 0 has claimed it, and seat 1 is idle.
fn claimed_queue(rt: &(impl AllocGlobal + Abort)) -> QueueCore {
    let mut core = opened(rt, 1, 2);
    begins(rt, &mut core, 0, QueueCall::Insert(7));
    advances(rt, &mut core, &[0; 7]);
    begins(rt, &mut core, 0, QueueCall::Delete);
    advances(rt, &mut core, &[0; 2]);
    core
}

/// Checks that a queue refuses what seats may not do, and stays as it was before.
fn refuses_calls(rt: &(impl AllocGlobal + Abort), core: &mut QueueCore, before: &QueueCore) {
    for call in [QueueCall::Insert(8), QueueCall::Delete, QueueCall::Shut] {
        let found = core.begin(2, call);
        assert_refused(rt, found, CoreFault::NoSuchSeat, &*core, before);
        let found = core.begin(0, call);
        assert_refused(rt, found, CoreFault::MidCall, &*core, before);
    }
    let found = core.advance(rt.alloc(), 2);
    assert_refused(rt, found, CoreFault::NoSuchSeat, &*core, before);
    let found = core.advance(rt.alloc(), 1);
    assert_refused(rt, found, CoreFault::IdleSeat, &*core, before);
}

#[test]
fn a_refused_call_leaves_a_queue_as_it_was(rt: HostRuntime) {
    let before = claimed_queue(&rt);
    let mut core = claimed_queue(&rt);
    refuses_calls(&rt, &mut core, &before);
    begins(&rt, &mut core, 1, QueueCall::Shut);
    assert_equal(&rt, core == before, false);
}

/// A room of 5 in which seat 0 holds 3 and seat 1 holds nothing.
fn claimed_room(rt: &(impl AllocGlobal + Abort)) -> RoomCore {
    let mut core = rooms::opened(rt, 5, 2);
    rooms::begins(rt, &mut core, 0, RoomCall::Tir(3));
    rooms::advances(rt, &mut core, &[0; 2]);
    core
}

/// Checks that a room refuses what seats may not do, and stays as it was before.
fn refuses_claims(rt: &(impl AllocGlobal + Abort), core: &mut RoomCore, before: &RoomCore) {
    for (seat, call, fault) in [
        (2, RoomCall::Tir(1), CoreFault::NoSuchSeat),
        (2, RoomCall::Release(1), CoreFault::NoSuchSeat),
        (2, RoomCall::Release(4), CoreFault::NoSuchSeat),
        (0, RoomCall::Release(4), CoreFault::NotHeld),
        (0, RoomCall::Release(1024), CoreFault::NotHeld),
        (1, RoomCall::Release(1), CoreFault::NotHeld),
    ] {
        assert_refused(rt, core.begin(seat, call), fault, &*core, before);
    }
    let found = core.advance(rt.alloc(), 2);
    assert_refused(rt, found, CoreFault::NoSuchSeat, &*core, before);
    let found = core.advance(rt.alloc(), 1);
    assert_refused(rt, found, CoreFault::IdleSeat, &*core, before);
}

#[test]
fn a_refused_call_leaves_a_room_as_it_was(rt: HostRuntime) {
    let before = claimed_room(&rt);
    let mut core = claimed_room(&rt);
    refuses_claims(&rt, &mut core, &before);
    rooms::begins(&rt, &mut core, 0, RoomCall::Release(1));
    assert_equal(&rt, core == before, false);
}

/// Checks that seat 0 may neither claim nor give back, since it has an open call.
fn claims_nothing(rt: &impl Abort, core: &mut RoomCore) {
    for call in [RoomCall::Tir(1), RoomCall::Release(1), RoomCall::Release(4)] {
        assert_equal(rt, core.begin(0, call), Err(CoreFault::MidCall));
    }
}

/// The next step of seat 0 is to test, to add, to withdraw or to give back, and the seat holds 3. Whatever it asks for
/// then is refused with `MidCall`, even an amount that it does not hold.
#[test]
fn a_room_seat_in_mid_call_begins_nothing(rt: HostRuntime) {
    let cases: [(RoomCall, &[u64]); 4] = [
        (RoomCall::Tir(2), &[]),
        (RoomCall::Tir(2), &[0]),
        (RoomCall::Tir(2), &[0, 1, 1, 0]),
        (RoomCall::Release(2), &[]),
    ];
    for (call, seats) in cases {
        let mut core = claimed_room(&rt);
        rooms::begins(&rt, &mut core, 0, call);
        rooms::begins(&rt, &mut core, 1, RoomCall::Tir(2));
        rooms::advances(&rt, &mut core, seats);
        claims_nothing(&rt, &mut core);
    }
}

/// A queue of one cell with two seats in this call. If they delete, it has one item.
fn called_queue(rt: &(impl AllocGlobal + Abort), call: QueueCall) -> QueueCore {
    let mut core = opened(rt, 1, 2);
    if matches!(call, QueueCall::Delete) {
        begins(rt, &mut core, 1, QueueCall::Insert(7));
        advances(rt, &mut core, &[1; 7]);
    }
    begins(rt, &mut core, 0, call);
    begins(rt, &mut core, 1, call);
    core
}

/// Checks that seat 0 may begin no call, since it has an open one.
fn begins_nothing(rt: &impl Abort, core: &mut QueueCore) {
    for call in [QueueCall::Insert(8), QueueCall::Delete, QueueCall::Shut] {
        assert_equal(rt, core.begin(0, call), Err(CoreFault::MidCall));
    }
}

/// Calls of two seats, the steps that they take, and the next step of seat 0 after them.
const MID_CALLS: &[(QueueCall, &[u64], CoreMove)] = &[
    (QueueCall::Insert(7), &[], CoreMove::TestUp),
    (QueueCall::Insert(7), &[0], CoreMove::AddUp),
    (QueueCall::Insert(7), &[0, 1, 1, 0], CoreMove::BackUp),
    (QueueCall::Insert(7), &[0; 2], CoreMove::TicketIn),
    (QueueCall::Insert(7), &[0; 3], CoreMove::TurnIn),
    (QueueCall::Insert(7), &[0; 4], CoreMove::StoreItem),
    (QueueCall::Insert(7), &[0; 5], CoreMove::SetFull),
    (QueueCall::Insert(7), &[0; 6], CoreMove::EndIn),
    (QueueCall::Delete, &[], CoreMove::TestLow),
    (QueueCall::Delete, &[0], CoreMove::SubLow),
    (QueueCall::Delete, &[0, 1, 1, 0], CoreMove::BackLow),
    (QueueCall::Delete, &[0; 2], CoreMove::TicketOut),
    (QueueCall::Delete, &[0; 3], CoreMove::TurnOut),
    (QueueCall::Delete, &[0; 4], CoreMove::LoadItem),
    (QueueCall::Delete, &[0; 5], CoreMove::SetFree),
    (QueueCall::Delete, &[0; 6], CoreMove::EndOut),
    (QueueCall::Shut, &[], CoreMove::Shut),
];

/// Checks that seat 0, after these steps of a call, may begin no other call, and that its next step is this one.
fn stays_in_call(rt: &(impl AllocGlobal + Abort), call: QueueCall, seats: &[u64], next: CoreMove) {
    let mut core = called_queue(rt, call);
    advances(rt, &mut core, seats);
    begins_nothing(rt, &mut core);
    let step = core.advance(rt.alloc(), 0).map(|line| line.step);
    assert_equal(rt, step, Ok(next));
}

/// The call of seat 0 reaches each step that it can have, and after a refused call its next step is still that one.
#[test]
fn a_queue_seat_in_mid_call_begins_nothing(rt: HostRuntime) {
    for &(call, seats, next) in MID_CALLS {
        stays_in_call(&rt, call, seats, next);
    }
}

/// A queue of one cell with one seat, opened again if memory ran out at the first try.
fn reopened(rt: &(impl AllocGlobal + Abort)) -> QueueCore {
    match QueueCore::new(rt.alloc(), 1, 1) {
        Ok(core) => core,
        Err(fault) => {
            assert_equal(rt, fault, CoreFault::Memory);
            opened(rt, 1, 1)
        }
    }
}

/// The next step of a core, tried once more if memory ran out: the failed try has changed nothing.
fn insists(
    rt: &(impl AllocGlobal + Abort),
    core: &mut QueueCore,
    before: &QueueCore,
    seat: u64,
) -> Result<Line, CoreFault> {
    let first = core.advance(rt.alloc(), seat);
    if first != Err(CoreFault::Memory) {
        return first;
    }
    assert_equal(rt, &*core, before);
    core.advance(rt.alloc(), seat)
}

/// Takes this step on both cores, each of which tries it once more if memory ran out.
fn makes_both(
    rt: &(impl AllocGlobal + Abort),
    core: &mut QueueCore,
    twin: &mut QueueCore,
    (seat, step, found, kind): Step,
) {
    let line = Line {
        seat,
        step,
        found,
        mark: kind.map(LineMark::Queue),
    };
    assert_equal(rt, insists(rt, core, twin, seat), Ok(line));
    if twin.advance(rt.alloc(), seat) == Err(CoreFault::Memory) {
        assert_equal(rt, twin.advance(rt.alloc(), seat), Ok(line));
    }
    assert_equal(rt, &*core, &*twin);
}

/// Begins a call of seat 0 on both cores, and takes these steps of it.
fn plays_both(
    rt: &(impl AllocGlobal + Abort),
    core: &mut QueueCore,
    twin: &mut QueueCore,
    call: QueueCall,
    trace: &[Step],
) {
    begins(rt, core, 0, call);
    begins(rt, twin, 0, call);
    for &step in trace {
        makes_both(rt, core, twin, step);
    }
}

/// With `rt try --test --fail-alloc N` the Nth allocation fails: here that of an opening or of a mark.
#[test]
fn a_step_that_found_no_memory_is_made_at_the_next_try(rt: HostRuntime) {
    let mut core = reopened(&rt);
    let mut twin = reopened(&rt);
    plays_both(&rt, &mut core, &mut twin, QueueCall::Insert(7), &INSERTED);
    plays_both(&rt, &mut core, &mut twin, QueueCall::Delete, &DELETED);
}
