//! Schedules on a room, step by step, and each refusal.

ghost use Rattle.std.specs.Prelude.{◌≡◌, ◌≤◌, length};
ghost use Rattle.fak_core.specs.Room.{amount_of};

use super::assertions::assert_equal;
use fak_core::{CoreFault, CoreMove, Line, LineMark, RoomCall, RoomCore};
use fak_model::{RoomKind, RoomMark};
use std::alloc::Global;
use std::process::Abort;

/// A room of this bound with this many seats.
pub(crate) fn opened(rt: &(impl AllocGlobal + Abort), bound: u64, seats: u64) -> RoomCore
    ensures { length result.seats ≡ seats }
{
    RoomCore::new(rt.alloc(), bound, seats)
        .ok()
        .expect(rt, "a room")
}

/// Begins a call and checks that it is not refused.
pub(crate) fn begins(rt: &impl Abort, core: &mut RoomCore, seat: u64, call: RoomCall)
    requires { (1 ≤ amount_of call) × (amount_of call ≤ 1024) }
    ensures { length core.new.seats ≡ length core.old.seats }
{
    assert!(rt; core.begin(seat, call).is_ok());
}

/// Takes the next steps of these seats, in this order, and checks that none is refused.
pub(crate) fn advances(rt: &(impl AllocGlobal + Abort), core: &mut RoomCore, seats: &[u64]) {
    for &seat in seats {
        assert!(rt; core.advance(rt.alloc(), seat).is_ok());
    }
}

/// A step of a seat: which it is, what it finds, and the mark that it leaves.
type Step = (u64, CoreMove, i128, Option<RoomKind>);

/// Takes the next step of a seat and checks that it is this one.
fn makes(rt: &(impl AllocGlobal + Abort), core: &mut RoomCore, next: Step)
    ensures { length core.new.seats ≡ length core.old.seats }
{
    let (seat, step, found, kind) = next;
    let line = Line {
        seat,
        step,
        found,
        mark: kind.map(LineMark::Room),
    };
    assert_equal(rt, core.advance(rt.alloc(), seat), Ok(line));
}

/// Takes the next steps and checks that they are these.
fn steps(rt: &(impl AllocGlobal + Abort), core: &mut RoomCore, trace: &[Step]) {
    for &step in trace {
        makes(rt, core, step);
    }
}

#[test]
fn a_second_claim_is_refused_at_the_test(rt: HostRuntime) {
    const MARKS: &[RoomMark] = &[
        RoomMark {
            seat: 0,
            kind: RoomKind::Up(1),
        },
        RoomMark {
            seat: 1,
            kind: RoomKind::No(1),
        },
    ];
    let mut core = opened(&rt, 1, 2);
    begins(&rt, &mut core, 0, RoomCall::Tir(1));
    makes(&rt, &mut core, (0, CoreMove::Test, 0, None));
    makes(&rt, &mut core, (0, CoreMove::Add, 0, Some(RoomKind::Up(1))));
    begins(&rt, &mut core, 1, RoomCall::Tir(1));
    makes(
        &rt,
        &mut core,
        (1, CoreMove::Test, 1, Some(RoomKind::No(1))),
    );
    assert_equal(&rt, core.value(), 1);
    assert_equal(&rt, core.held(0), 1);
    assert_equal(&rt, core.held(1), 0);
    assert_equal(&rt, core.marks(), MARKS);
}

#[test]
fn a_claim_over_the_bound_is_withdrawn(rt: HostRuntime) {
    let mut core = opened(&rt, 1, 2);
    begins(&rt, &mut core, 0, RoomCall::Tir(1));
    begins(&rt, &mut core, 1, RoomCall::Tir(1));
    const WITHDRAWN: &[Step] = &[
        (0, CoreMove::Test, 0, None),
        (1, CoreMove::Test, 0, None),
        (0, CoreMove::Add, 0, Some(RoomKind::Up(1))),
        (1, CoreMove::Add, 1, Some(RoomKind::Over(1))),
        (1, CoreMove::Back, 2, Some(RoomKind::Back(1))),
    ];
    steps(&rt, &mut core, WITHDRAWN);
    assert_equal(&rt, core.value(), 1);
}

#[test]
fn refused_calls_leave_the_others_as_they_were(rt: HostRuntime) {
    let mut core = opened(&rt, 5, 2);
    begins(&rt, &mut core, 0, RoomCall::Tir(3));
    const GRANTED: &[Step] = &[
        (0, CoreMove::Test, 0, None),
        (0, CoreMove::Add, 0, Some(RoomKind::Up(3))),
    ];
    steps(&rt, &mut core, GRANTED);
    begins(&rt, &mut core, 1, RoomCall::Tir(3));
    const REFUSED: &[Step] = &[(1, CoreMove::Test, 3, Some(RoomKind::No(3)))];
    steps(&rt, &mut core, REFUSED);
    begins(&rt, &mut core, 1, RoomCall::Tir(2));
    assert_equal(
        &rt,
        core.begin(1, RoomCall::Tir(2)),
        Err(CoreFault::MidCall),
    );
    const GRANTED_TOO: &[Step] = &[
        (1, CoreMove::Test, 3, None),
        (1, CoreMove::Add, 3, Some(RoomKind::Up(2))),
    ];
    steps(&rt, &mut core, GRANTED_TOO);
    assert_equal(&rt, core.advance(rt.alloc(), 1), Err(CoreFault::IdleSeat));
    assert_equal(
        &rt,
        core.begin(0, RoomCall::Release(4)),
        Err(CoreFault::NotHeld),
    );
    begins(&rt, &mut core, 0, RoomCall::Release(3));
    const RELEASED: &[Step] = &[(0, CoreMove::Release, 5, Some(RoomKind::Release(3)))];
    steps(&rt, &mut core, RELEASED);
    assert_equal(&rt, core.advance(rt.alloc(), 2), Err(CoreFault::NoSuchSeat));
    assert_equal(
        &rt,
        core.begin(2, RoomCall::Release(1)),
        Err(CoreFault::NoSuchSeat),
    );
    assert_equal(&rt, core.value(), 2);
}

/// The fault of an opening, if any.
fn fault_of(alloc: Global, bound: u64, seats: u64) -> Option<CoreFault> {
    RoomCore::new(alloc, bound, seats).err()
}

#[test]
fn bounds_and_seats_out_of_range_are_refused(rt: HostRuntime) {
    const ROWS: &[(u64, u64, Option<CoreFault>)] = &[
        (4_294_967_297, 0, Some(CoreFault::BadSize)),
        (0, 0, Some(CoreFault::BadSeats)),
        (0, 65, Some(CoreFault::BadSeats)),
        (4_294_967_296, 64, None),
    ];
    for &(bound, seats, fault) in ROWS {
        assert_equal(&rt, fault_of(rt.alloc(), bound, seats), fault);
    }
}
