//! Rows with three and four seats, on one thread.

ghost use Rattle.std.specs.Prelude.{◌≡◌, All};

use super::assertions::{assert_equal, assert_left};
use super::steps::{A, B, C, D, Step, close_all, joined, open, take_any, walk};
use fak_queue::{InsertFault, Queue, Seat, SeatState};
use std::process::Abort;

/// Cells wait for their turns: the second item is out before the first is in.
pub const CELLS_WAIT: &[(usize, Step<u64>)] = &[
    (A, Step::ClaimInsert(10, Ok(0))),
    (A, Step::State(SeatState::Inserting(0))),
    (B, Step::ClaimInsert(11, Ok(1))),
    (B, Step::TryFill(Some(1))),
    (C, Step::ClaimDelete(Ok(0))),
    (C, Step::TryTake(None)),
    (C, Step::State(SeatState::Deleting(0))),
    (B, Step::ClaimInsert(12, Ok(2))),
    (B, Step::TryFill(Some(2))),
    (D, Step::ClaimDelete(Ok(1))),
    (D, Step::TryTake(Some((1, 11)))),
    (B, Step::ClaimInsert(13, Ok(3))),
    (B, Step::TryFill(None)),
    (A, Step::TryFill(Some(0))),
    (C, Step::TryTake(Some((0, 10)))),
    (B, Step::TryFill(Some(3))),
];

/// Closes the queue, which is to leave the third and the fourth item.
pub fn leaves_two(rt: &impl Abort, queue: Queue<u64>, seats: Vec<Seat<u64>>)
    requires { All (λ s. s.object ≡ queue.object) seats.items }
{
    assert_left(rt, close_all(rt, queue, seats), &[12, 13]);
}

#[test]
fn four_seats_over_three_cells(rt: HostRuntime) {
    let (queue, mut seats) = open(&rt, (3, 4, 100));
    walk(&rt, &queue, &mut seats, CELLS_WAIT);
    leaves_two(&rt, queue, seats);
}

#[test]
fn cells_that_are_looked_at_a_hundred_times(rt: HostRuntime) {
    const LOOK_FOR_ITEM: (usize, Step<u64>) = (C, Step::TryTake(None));
    const LOOK_FOR_ROOM: (usize, Step<u64>) = (B, Step::TryFill(None));
    let (queue, mut seats) = open(&rt, (3, 4, 100));
    walk(&rt, &queue, &mut seats, &CELLS_WAIT[..5]);
    walk(&rt, &queue, &mut seats, &[LOOK_FOR_ITEM; 100]);
    walk(&rt, &queue, &mut seats, &CELLS_WAIT[7..12]);
    walk(&rt, &queue, &mut seats, &[LOOK_FOR_ROOM; 100]);
    walk(&rt, &queue, &mut seats, &CELLS_WAIT[13..]);
    leaves_two(&rt, queue, seats);
}

#[test]
fn a_seat_that_was_dropped_in_its_insertion(rt: HostRuntime) {
    const LOOK_FOR_ITEM: (usize, Step<u64>) = (B, Step::TryTake(None));
    const STEPS: &[(usize, Step<u64>)] = &[
        (C, Step::ClaimInsert(1, Ok(0))),
        (A, Step::Insert(2, Ok(1))),
        (B, Step::ClaimDelete(Ok(0))),
        (
            A,
            Step::ClaimInsert(3, Err(InsertFault::Full { upper: 2, item: 3 })),
        ),
    ];
    let (queue, mut seats) = open(&rt, (2, 3, 10));
    walk(&rt, &queue, &mut seats, &STEPS[..1]);
    drop(take_any(&rt, &queue, &mut seats));
    walk(&rt, &queue, &mut seats, &STEPS[1..3]);
    walk(&rt, &queue, &mut seats, &[LOOK_FOR_ITEM; 100]);
    walk(&rt, &queue, &mut seats, &STEPS[3..]);
    drop(take_any(&rt, &queue, &mut seats));
    assert_equal(&rt, joined(&rt, &queue, seats).is_whole(), false);
}
