//! Bursts of one thread, in the order of its calls.

use super::assertions::{assert_equal, assert_left};
use super::bundle_steps::{BurstStep, close_with_bundle, open_bundle, walk_bursts};
use super::steps::{A, B, Step};
use fak_queue::{BundleState, BurstFault, DeleteFault, InsertFault, SeatState};
use std::process::Abort;
use std::sync::Wait;

/// Walks the steps with a bundle of this many seats, and two seats next to it. These items must be left.
fn walk_beside<R: Abort + AllocGlobal + Wait>(
    rt: &R,
    size: u64,
    bundled: u64,
    stint: u64,
    steps: &[BurstStep],
    left: &[u64],
) {
    let (queue, mut bundle, mut seats) = open_bundle(rt, size, bundled, 2, stint);
    walk_bursts(rt, &queue, &mut bundle, &mut seats, steps);
    assert_left(rt, close_with_bundle(rt, queue, bundle, seats), left);
}

#[test]
fn bursts_in_their_order(rt: HostRuntime) {
    const STEPS: &[BurstStep] = &[
        BurstStep::Delete(4, Err(DeleteFault::Empty(0)), 0),
        BurstStep::Insert(10, 3, Ok((0, 3))),
        BurstStep::Of(A, Step::Insert(13, Ok(3))),
        BurstStep::Insert(14, 9, Ok((4, 4))),
        BurstStep::Of(A, Step::Delete(Ok((0, 10)))),
        BurstStep::Delete(2, Ok((1, 2)), 11),
        BurstStep::Delete(9, Ok((3, 4)), 13),
        BurstStep::Delete(9, Ok((7, 1)), 17),
        BurstStep::Delete(9, Err(DeleteFault::Empty(0)), 0),
        BurstStep::WaitInsert(18, 3, Ok((8, 3))),
        BurstStep::WaitDelete(2, Ok((8, 2)), 18),
        BurstStep::State(BundleState::Idle),
    ];
    walk_beside(&rt, 8, 4, 100, STEPS, &[20]);
}

#[test]
fn a_burst_of_which_the_first_items_fit(rt: HostRuntime) {
    const STEPS: &[BurstStep] = &[
        BurstStep::Insert(10, 4, Ok((0, 4))),
        BurstStep::Insert(14, 4, Ok((4, 1))),
        BurstStep::Insert(15, 4, Err(BurstFault::Full { upper: 5 })),
        BurstStep::Of(A, Step::OpenWith(5)),
        BurstStep::Of(
            A,
            Step::Insert(15, Err(InsertFault::Full { upper: 5, item: 15 })),
        ),
        BurstStep::Delete(3, Ok((0, 3)), 10),
        BurstStep::Insert(15, 4, Ok((5, 3))),
        BurstStep::Of(A, Step::OpenWith(5)),
        BurstStep::Of(A, Step::ItemsReady(5)),
    ];
    walk_beside(&rt, 5, 4, 100, STEPS, &[13, 14, 15, 16, 17]);
}

#[test]
fn a_stop_in_mid_burst(rt: HostRuntime) {
    const HALF: BundleState = BundleState::Inserting {
        ticket: 0,
        ended: 0,
        granted: 3,
    };
    const STEPS: &[BurstStep] = &[
        BurstStep::Claim(10, 3, Ok((0, 3))),
        BurstStep::State(HALF),
        BurstStep::Of(A, Step::Insert(13, Ok(3))),
        BurstStep::Of(B, Step::ClaimDelete(Ok(0))),
        BurstStep::Of(B, Step::TryTake(None)),
        BurstStep::Of(A, Step::Delete(Err(DeleteFault::Empty(0)))),
        BurstStep::State(HALF),
        BurstStep::TryFill(0),
        BurstStep::State(BundleState::Idle),
        BurstStep::Of(B, Step::TryTake(Some((0, 10)))),
        BurstStep::ClaimOut(4, Ok((1, 3))),
        BurstStep::Of(A, Step::Insert(14, Ok(4))),
        BurstStep::Of(A, Step::Delete(Ok((4, 14)))),
        BurstStep::State(BundleState::Deleting {
            ticket: 1,
            ended: 0,
            granted: 3,
        }),
        BurstStep::TryTake(0, 11, 3),
        BurstStep::State(BundleState::Idle),
    ];
    walk_beside(&rt, 8, 4, 100, STEPS, &[]);
}

/// The second cell that a burst needs belongs to an open deletion, which begins in the third row. The burst is claimed in the
/// fifth.
pub const NEEDS_A_CELL: &[BurstStep] = &[
    BurstStep::Insert(10, 4, Ok((0, 4))),
    BurstStep::Of(A, Step::Delete(Ok((0, 10)))),
    BurstStep::Of(A, Step::ClaimDelete(Ok(1))),
    BurstStep::Delete(2, Ok((2, 2)), 12),
    BurstStep::Claim(14, 3, Ok((4, 3))),
    BurstStep::TryFill(2),
    BurstStep::State(BundleState::Inserting {
        ticket: 4,
        ended: 1,
        granted: 3,
    }),
    BurstStep::Of(B, Step::Delete(Ok((4, 14)))),
    BurstStep::TryFill(2),
    BurstStep::Of(A, Step::State(SeatState::Deleting(1))),
    BurstStep::Of(A, Step::TryTake(Some((1, 11)))),
    BurstStep::TryFill(0),
];

#[test]
fn a_burst_that_waits_for_its_second_cell(rt: HostRuntime) {
    walk_beside(&rt, 4, 4, 100, NEEDS_A_CELL, &[15, 16]);
}

/// The second item that a burst needs belongs to an open insertion, which begins in the second row. The burst is claimed in the
/// fourth.
pub const NEEDS_AN_ITEM: &[BurstStep] = &[
    BurstStep::Of(A, Step::Insert(10, Ok(0))),
    BurstStep::Of(A, Step::ClaimInsert(11, Ok(1))),
    BurstStep::Of(B, Step::Insert(12, Ok(2))),
    BurstStep::ClaimOut(4, Ok((0, 2))),
    BurstStep::TryTake(1, 10, 1),
    BurstStep::State(BundleState::Deleting {
        ticket: 0,
        ended: 1,
        granted: 2,
    }),
    BurstStep::TryTake(1, 0, 0),
    BurstStep::Of(A, Step::TryFill(Some(1))),
    BurstStep::TryTake(0, 11, 1),
];

#[test]
fn a_burst_that_waits_for_its_second_item(rt: HostRuntime) {
    walk_beside(&rt, 4, 4, 100, NEEDS_AN_ITEM, &[12]);
}

#[test]
fn a_bundle_that_wears_out(rt: HostRuntime) {
    const STEPS: &[BurstStep] = &[
        BurstStep::Left(6),
        BurstStep::Insert(10, 3, Ok((0, 3))),
        BurstStep::Left(3),
        BurstStep::Delete(2, Ok((0, 2)), 10),
        BurstStep::Left(1),
        BurstStep::Insert(13, 3, Ok((3, 1))),
        BurstStep::Left(0),
        BurstStep::Insert(14, 3, Err(BurstFault::Worn)),
        BurstStep::Delete(1, Err(DeleteFault::Worn), 0),
        BurstStep::Claim(14, 1, Err(BurstFault::Worn)),
        BurstStep::ClaimOut(1, Err(DeleteFault::Worn)),
        BurstStep::WaitInsert(14, 1, Err(BurstFault::Worn)),
        BurstStep::WaitDelete(1, Err(DeleteFault::Worn), 0),
    ];
    walk_beside(&rt, 8, 3, 2, STEPS, &[12, 13]);
}

#[test]
fn bursts_on_a_shut_queue(rt: HostRuntime) {
    const STEPS: &[BurstStep] = &[
        BurstStep::Insert(10, 3, Ok((0, 3))),
        BurstStep::Of(A, Step::Shut(true)),
        BurstStep::Insert(13, 3, Err(BurstFault::Closed)),
        BurstStep::Claim(13, 1, Err(BurstFault::Closed)),
        BurstStep::WaitInsert(13, 1, Err(BurstFault::Closed)),
        BurstStep::Of(A, Step::ShutWith(3)),
        BurstStep::Delete(2, Ok((0, 2)), 10),
        BurstStep::ClaimOut(2, Ok((2, 1))),
        BurstStep::TryTake(0, 12, 1),
        BurstStep::Delete(2, Err(DeleteFault::Empty(0)), 0),
        BurstStep::Of(A, Step::IsDrained(true)),
    ];
    walk_beside(&rt, 8, 3, 100, STEPS, &[]);
}

#[test]
fn a_bundle_of_one_seat(rt: HostRuntime) {
    const STEPS: &[BurstStep] = &[
        BurstStep::Insert(10, 5, Ok((0, 1))),
        BurstStep::Insert(11, 5, Ok((1, 1))),
        BurstStep::Delete(5, Ok((0, 1)), 10),
    ];
    walk_beside(&rt, 8, 1, 100, STEPS, &[11]);
}

#[test]
fn a_bundle_says_how_many_seats_it_has(rt: HostRuntime) {
    let (_, mut bundle, _) = open_bundle(&rt, 8, 5, 1, 10);
    bundle.set_pauses_in_calls(false);
    assert_equal(&rt, (bundle.seats(), bundle.left()), (5, 50));
    assert_equal(&rt, bundle.state(), BundleState::Idle);
}
