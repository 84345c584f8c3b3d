//! Schedules on a queue, step by step, and each refusal.

use super::assertions::assert_equal;
use fak_core::{CoreFault, CoreMove, Line, LineMark, QueueCall, QueueCore};
use fak_model::{Kind, Mark};
use std::alloc::Global;
use std::process::Abort;

/// A step of a seat: which it is, what it finds, and the mark that it leaves.
pub(crate) type Step = (u64, CoreMove, i128, Option<Kind<u64>>);

/// Takes the next steps and checks that they are these.
fn steps(rt: &(impl AllocGlobal + Abort), core: &mut QueueCore, trace: &[Step]) {
    for &(seat, step, found, kind) in trace {
        let line = Line {
            seat,
            step,
            found,
            mark: kind.map(LineMark::Queue),
        };
        assert_equal(rt, core.advance(rt.alloc(), seat), Ok(line));
    }
}

/// Begins a call and checks that it is not refused.
pub(crate) fn begins(rt: &impl Abort, core: &mut QueueCore, seat: u64, call: QueueCall) {
    assert!(rt; core.begin(seat, call).is_ok());
}

/// Takes the next steps of these seats, in this order, and checks that none is refused.
pub(crate) fn advances(rt: &(impl AllocGlobal + Abort), core: &mut QueueCore, seats: &[u64]) {
    for &seat in seats {
        assert!(rt; core.advance(rt.alloc(), seat).is_ok());
    }
}

/// A queue of this size with this many seats.
pub(crate) fn opened(rt: &(impl AllocGlobal + Abort), size: u64, seats: u64) -> QueueCore {
    QueueCore::new(rt.alloc(), size, seats)
        .ok()
        .expect(rt, "a queue")
}

/// A call that a seat begins, and the steps that are taken after it.
pub(crate) type Stretch<'a> = (u64, QueueCall, &'a [Step]);

/// Opens a queue, plays a schedule on it, and checks that its steps are these.
pub(crate) fn plays(rt: &(impl AllocGlobal + Abort), size: u64, seats: u64, schedule: &[Stretch]) {
    let mut core = opened(rt, size, seats);
    for &(seat, call, trace) in schedule {
        begins(rt, &mut core, seat, call);
        steps(rt, &mut core, trace);
    }
}

/// The steps of the first insertion, of 7, into a queue of one cell by seat 0.
pub(crate) const INSERTED: [Step; 7] = [
    (0, CoreMove::TestUp, 0, None),
    (0, CoreMove::AddUp, 0, Some(Kind::ClaimIn)),
    (0, CoreMove::TicketIn, 0, Some(Kind::Put(7))),
    (0, CoreMove::TurnIn, 0, None),
    (0, CoreMove::StoreItem, 7, None),
    (0, CoreMove::SetFull, 1, Some(Kind::Fill(0))),
    (0, CoreMove::EndIn, 0, Some(Kind::EndIn)),
];

/// The steps of the first deletion after that, by seat 0.
pub(crate) const DELETED: [Step; 7] = [
    (0, CoreMove::TestLow, 1, None),
    (0, CoreMove::SubLow, 1, Some(Kind::ClaimOut)),
    (0, CoreMove::TicketOut, 0, Some(Kind::Got(7))),
    (0, CoreMove::TurnOut, 1, None),
    (0, CoreMove::LoadItem, 7, None),
    (0, CoreMove::SetFree, 2, Some(Kind::Take(0))),
    (0, CoreMove::EndOut, 1, Some(Kind::EndOut)),
];

/// The marks of both.
const MARKED: &[Mark<u64>] = &[
    Mark {
        seat: 0,
        kind: Kind::ClaimIn,
    },
    Mark {
        seat: 0,
        kind: Kind::Put(7),
    },
    Mark {
        seat: 0,
        kind: Kind::Fill(0),
    },
    Mark {
        seat: 0,
        kind: Kind::EndIn,
    },
    Mark {
        seat: 0,
        kind: Kind::ClaimOut,
    },
    Mark {
        seat: 0,
        kind: Kind::Got(7),
    },
    Mark {
        seat: 0,
        kind: Kind::Take(0),
    },
    Mark {
        seat: 0,
        kind: Kind::EndOut,
    },
];

#[test]
fn an_item_is_inserted_and_deleted(rt: HostRuntime) {
    let mut core = opened(&rt, 1, 1);
    begins(&rt, &mut core, 0, QueueCall::Insert(7));
    steps(&rt, &mut core, &INSERTED);
    begins(&rt, &mut core, 0, QueueCall::Delete);
    steps(&rt, &mut core, &DELETED);
    assert_equal(&rt, core.marks(), MARKED);
}

#[test]
fn a_deletion_too_many_is_withdrawn(rt: HostRuntime) {
    const SCHEDULE: &[Stretch] = &[
        (
            0,
            QueueCall::Delete,
            &[(0, CoreMove::TestLow, 0, Some(Kind::NoItem))],
        ),
        (0, QueueCall::Insert(7), &INSERTED),
        (1, QueueCall::Delete, &[(1, CoreMove::TestLow, 1, None)]),
        (
            2,
            QueueCall::Delete,
            &[
                (2, CoreMove::TestLow, 1, None),
                (2, CoreMove::SubLow, 1, Some(Kind::ClaimOut)),
                (1, CoreMove::SubLow, 0, Some(Kind::OverOut)),
            ],
        ),
        (
            0,
            QueueCall::Delete,
            &[
                (0, CoreMove::TestLow, -1, Some(Kind::NoItem)),
                (1, CoreMove::BackLow, -1, Some(Kind::BackOut)),
            ],
        ),
    ];
    plays(&rt, 1, 3, SCHEDULE);
}

#[test]
fn an_insertion_into_a_full_queue_is_refused(rt: HostRuntime) {
    const SCHEDULE: &[Stretch] = &[
        (0, QueueCall::Insert(7), &INSERTED),
        (
            0,
            QueueCall::Insert(8),
            &[(0, CoreMove::TestUp, 1, Some(Kind::NoRoom))],
        ),
    ];
    plays(&rt, 1, 1, SCHEDULE);
}

#[test]
fn an_insertion_that_has_not_ended_gives_no_item(rt: HostRuntime) {
    plays(
        &rt,
        1,
        2,
        &[
            (0, QueueCall::Insert(7), &INSERTED[..6]),
            (
                1,
                QueueCall::Delete,
                &[(1, CoreMove::TestLow, 0, Some(Kind::NoItem))],
            ),
        ],
    );
}

#[test]
fn a_claim_not_yet_withdrawn_refuses_others(rt: HostRuntime) {
    const SCHEDULE: &[Stretch] = &[
        (0, QueueCall::Insert(7), &[]),
        (
            1,
            QueueCall::Insert(8),
            &[
                (0, CoreMove::TestUp, 0, None),
                (1, CoreMove::TestUp, 0, None),
                (0, CoreMove::AddUp, 0, Some(Kind::ClaimIn)),
                (1, CoreMove::AddUp, 1, Some(Kind::OverIn)),
                (0, CoreMove::TicketIn, 0, Some(Kind::Put(7))),
                (0, CoreMove::TurnIn, 0, None),
                (0, CoreMove::StoreItem, 7, None),
                (0, CoreMove::SetFull, 1, Some(Kind::Fill(0))),
                (0, CoreMove::EndIn, 0, Some(Kind::EndIn)),
            ],
        ),
        (
            0,
            QueueCall::Delete,
            &[
                (0, CoreMove::TestLow, 1, None),
                (0, CoreMove::SubLow, 1, Some(Kind::ClaimOut)),
                (0, CoreMove::TicketOut, 0, Some(Kind::Got(7))),
                (0, CoreMove::TurnOut, 1, None),
                (0, CoreMove::LoadItem, 7, None),
                (0, CoreMove::SetFree, 2, Some(Kind::Take(0))),
                (0, CoreMove::EndOut, 2, Some(Kind::EndOut)),
            ],
        ),
        (
            2,
            QueueCall::Insert(9),
            &[
                (2, CoreMove::TestUp, 1, Some(Kind::NoRoom)),
                (1, CoreMove::BackUp, 1, Some(Kind::BackIn)),
            ],
        ),
    ];
    plays(&rt, 1, 3, SCHEDULE);
}

#[test]
fn calls_overlap_in_a_queue_of_three_cells(rt: HostRuntime) {
    const SCHEDULE: &[Stretch] = &[
        (
            0,
            QueueCall::Insert(10),
            &[
                (0, CoreMove::TestUp, 0, None),
                (0, CoreMove::AddUp, 0, Some(Kind::ClaimIn)),
                (0, CoreMove::TicketIn, 0, Some(Kind::Put(10))),
            ],
        ),
        (
            1,
            QueueCall::Insert(11),
            &[
                (1, CoreMove::TestUp, 1, None),
                (1, CoreMove::AddUp, 1, Some(Kind::ClaimIn)),
                (1, CoreMove::TicketIn, 1, Some(Kind::Put(11))),
                (1, CoreMove::TurnIn, 0, None),
                (1, CoreMove::StoreItem, 11, None),
                (1, CoreMove::SetFull, 1, Some(Kind::Fill(1))),
                (1, CoreMove::EndIn, 0, Some(Kind::EndIn)),
            ],
        ),
        (
            2,
            QueueCall::Delete,
            &[
                (2, CoreMove::TestLow, 1, None),
                (2, CoreMove::SubLow, 1, Some(Kind::ClaimOut)),
                (2, CoreMove::TicketOut, 0, Some(Kind::Got(10))),
                (2, CoreMove::TurnOut, 0, None),
            ],
        ),
        (
            1,
            QueueCall::Insert(12),
            &[
                (1, CoreMove::TestUp, 2, None),
                (1, CoreMove::AddUp, 2, Some(Kind::ClaimIn)),
                (1, CoreMove::TicketIn, 2, Some(Kind::Put(12))),
                (1, CoreMove::TurnIn, 0, None),
                (1, CoreMove::StoreItem, 12, None),
                (1, CoreMove::SetFull, 1, Some(Kind::Fill(2))),
                (1, CoreMove::EndIn, 0, Some(Kind::EndIn)),
            ],
        ),
        (
            3,
            QueueCall::Delete,
            &[
                (3, CoreMove::TestLow, 1, None),
                (3, CoreMove::SubLow, 1, Some(Kind::ClaimOut)),
                (3, CoreMove::TicketOut, 1, Some(Kind::Got(11))),
                (3, CoreMove::TurnOut, 1, None),
                (3, CoreMove::LoadItem, 11, None),
                (3, CoreMove::SetFree, 2, Some(Kind::Take(1))),
                (3, CoreMove::EndOut, 3, Some(Kind::EndOut)),
            ],
        ),
        (
            1,
            QueueCall::Insert(13),
            &[
                (1, CoreMove::TestUp, 2, None),
                (1, CoreMove::AddUp, 2, Some(Kind::ClaimIn)),
                (1, CoreMove::TicketIn, 3, Some(Kind::Put(13))),
                (1, CoreMove::TurnIn, 0, None),
                (0, CoreMove::TurnIn, 0, None),
                (0, CoreMove::StoreItem, 10, None),
                (0, CoreMove::SetFull, 1, Some(Kind::Fill(0))),
                (0, CoreMove::EndIn, 0, Some(Kind::EndIn)),
                (2, CoreMove::TurnOut, 1, None),
                (2, CoreMove::LoadItem, 10, None),
                (2, CoreMove::SetFree, 2, Some(Kind::Take(0))),
                (2, CoreMove::EndOut, 3, Some(Kind::EndOut)),
                (1, CoreMove::TurnIn, 2, None),
                (1, CoreMove::StoreItem, 13, None),
                (1, CoreMove::SetFull, 3, Some(Kind::Fill(3))),
                (1, CoreMove::EndIn, 1, Some(Kind::EndIn)),
            ],
        ),
    ];
    plays(&rt, 3, 4, SCHEDULE);
}

#[test]
fn a_shut_queue_refuses_insertions(rt: HostRuntime) {
    const SCHEDULE: &[Stretch] = &[
        (0, QueueCall::Insert(5), &[(0, CoreMove::TestUp, 0, None)]),
        (
            1,
            QueueCall::Shut,
            &[
                (1, CoreMove::Shut, 0, Some(Kind::Close)),
                (0, CoreMove::AddUp, 0, Some(Kind::LateIn)),
                (0, CoreMove::BackUp, 1, Some(Kind::BackIn)),
            ],
        ),
        (
            1,
            QueueCall::Insert(6),
            &[(1, CoreMove::TestUp, 0, Some(Kind::Closed))],
        ),
        (
            1,
            QueueCall::Delete,
            &[(1, CoreMove::TestLow, 0, Some(Kind::NoItem))],
        ),
    ];
    plays(&rt, 2, 2, SCHEDULE);
}

#[test]
fn seats_without_a_step_to_make_are_refused(rt: HostRuntime) {
    let mut core = opened(&rt, 2, 2);
    assert_equal(
        &rt,
        core.begin(2, QueueCall::Shut),
        Err(CoreFault::NoSuchSeat),
    );
    assert_equal(&rt, core.advance(rt.alloc(), 2), Err(CoreFault::NoSuchSeat));
    assert_equal(&rt, core.advance(rt.alloc(), 1), Err(CoreFault::IdleSeat));
    begins(&rt, &mut core, 1, QueueCall::Insert(5));
    assert_equal(
        &rt,
        core.begin(1, QueueCall::Delete),
        Err(CoreFault::MidCall),
    );
    steps(&rt, &mut core, &[(1, CoreMove::TestUp, 0, None)]);
    assert_equal(&rt, core.marks().len(), 0);
}

/// The fault of an opening, if any.
fn fault_of(alloc: Global, size: u64, seats: u64) -> Option<CoreFault> {
    QueueCore::new(alloc, size, seats).err()
}

#[test]
fn sizes_and_seats_out_of_range_are_refused(rt: HostRuntime) {
    const ROWS: &[(u64, u64, Option<CoreFault>)] = &[
        (0, 0, Some(CoreFault::BadSize)),
        (4097, 1, Some(CoreFault::BadSize)),
        (1, 0, Some(CoreFault::BadSeats)),
        (1, 65, Some(CoreFault::BadSeats)),
        (4096, 64, None),
    ];
    for &(size, seats, fault) in ROWS {
        assert_equal(&rt, fault_of(rt.alloc(), size, seats), fault);
    }
}
