//! Bundles are made of seats, broken up, and joined to tallies.

ghost use Rattle.std.specs.Prelude.{◌≡◌, All};
ghost use Rattle.fak_queue.specs.Queues.{IsIdleSeat};
ghost use Rattle.fak_queue.specs.declared.bundle.BundleState.TheVariants.{Idle};

use super::assertions::{assert_equal, assert_left, assert_written};
use super::large;
use super::steps::{
    A, B, C, Step, assert_idle, close, close_all, joined, open, take, take_any, walk,
};
use fak_queue::{Bundle, BundleFault, BundleState, Queue, Seat, Tally};
use std::process::Abort;
use std::sync::Wait;

/// Stops if one of the seats has an open call.
fn assert_all_idle(rt: &impl Abort, queue: &Queue<u64>, seats: &[Seat<u64>])
    requires { All (λ s. s.object ≡ queue.now.object) seats.now }
    ensures { All (IsIdleSeat queue.now.object) seats.now }
{
    for seat in seats {
        assert_idle(rt, queue, seat);
    }
}

/// The bundle of these seats. If memory was missing, it is built again from the seats that come back.
fn bundle_of(
    rt: &(impl Abort + AllocGlobal),
    queue: &Queue<u64>,
    seats: Vec<Seat<u64>>,
) -> Bundle<u64>
    requires { All (λ s. s.object ≡ queue.now.object) seats.items }
    ensures { (result.object ≡ queue.now.object) × (result.state ≡ Idle) }
{
    assert_all_idle(rt, queue, &seats);
    match Bundle::of(rt.alloc(), queue, seats) {
        Ok(bundle) => bundle,
        Err(BundleFault::NoSeats) => panic!(rt; "no seats"),
        Err(BundleFault::Memory { seats }) => match Bundle::of(rt.alloc(), queue, seats) {
            Ok(bundle) => bundle,
            Err(_) => panic!(rt; "no bundle"),
        },
    }
}

/// The seats of the bundle. If memory was missing, the bundle that comes back is broken up again.
fn seats_of(
    rt: &(impl Abort + AllocGlobal),
    queue: &Queue<u64>,
    bundle: Bundle<u64>,
) -> Vec<Seat<u64>>
    requires object { bundle.object ≡ queue.now.object }
    requires idle { bundle.state ≡ Idle }
    ensures { All (λ s. s.object ≡ queue.now.object) result.items }
{
    match bundle.into_seats(rt.alloc(), queue) {
        Ok(seats) => seats,
        Err(bundle) => match bundle.into_seats(rt.alloc(), queue) {
            Ok(seats) => seats,
            Err(_) => panic!(rt; "no seats"),
        },
    }
}

/// Builds a bundle of the seats, which must have this many tickets left, and breaks it up.
fn made_and_broken(
    rt: &(impl Abort + AllocGlobal),
    queue: &Queue<u64>,
    seats: Vec<Seat<u64>>,
    left: u64,
) -> Vec<Seat<u64>>
    requires { All (λ s. s.object ≡ queue.now.object) seats.items }
    ensures { All (λ s. s.object ≡ queue.now.object) result.items }
{
    let many = seats.len() as u64;
    let bundle = bundle_of(rt, queue, seats);
    assert_equal(
        rt,
        (bundle.seats(), bundle.left(), bundle.state()),
        (many, left, BundleState::Idle),
    );
    seats_of(rt, queue, bundle)
}

/// A queue of four cells with three seats, of which two have made calls: 12 tickets are left, and the item 8.
fn with_calls(rt: &(impl Abort + AllocGlobal + Wait)) -> (Queue<u64>, Vec<Seat<u64>>)
    ensures { All (λ s. s.object ≡ result.0.object) result.1.items }
{
    const STEPS: &[(usize, Step<u64>)] = &[
        (A, Step::Insert(7, Ok(0))),
        (B, Step::Delete(Ok((0, 7)))),
        (B, Step::Insert(8, Ok(1))),
    ];
    let (queue, mut seats) = open(rt, (4, 3, 5));
    walk(rt, &queue, &mut seats, STEPS);
    (queue, seats)
}

#[test]
fn seats_get_equal_shares(rt: HostRuntime) {
    const EVEN: &[(usize, Step<u64>)] = &[
        (A, Step::Left(4)),
        (B, Step::Left(4)),
        (C, Step::Left(4)),
        (C, Step::Insert(9, Ok(2))),
    ];
    const UNEVEN: &[(usize, Step<u64>)] = &[
        (A, Step::Left(3)),
        (B, Step::Left(4)),
        (C, Step::Left(4)),
        (A, Step::Delete(Ok((1, 8)))),
        (B, Step::Insert(10, Ok(3))),
    ];
    let (queue, seats) = with_calls(&rt);
    let mut seats = made_and_broken(&rt, &queue, seats, 12);
    walk(&rt, &queue, &mut seats, EVEN);
    let mut seats = made_and_broken(&rt, &queue, seats, 11);
    walk(&rt, &queue, &mut seats, UNEVEN);
    assert_left(&rt, close_all(&rt, queue, seats), &[9, 10]);
}

#[test]
fn a_bundle_of_one_seat(rt: HostRuntime) {
    const STEPS: &[(usize, Step<u64>)] = &[(A, Step::Left(2)), (A, Step::Insert(1, Ok(0)))];
    let (queue, seats) = open(&rt, (1, 1, 2));
    let mut seats = made_and_broken(&rt, &queue, seats, 2);
    walk(&rt, &queue, &mut seats, STEPS);
    assert_left(&rt, close_all(&rt, queue, seats), &[1]);
}

#[test]
fn fewer_tickets_than_seats(rt: HostRuntime) {
    const SPENT: &[(usize, Step<u64>)] = &[
        (A, Step::Insert(1, Ok(0))),
        (B, Step::Insert(2, Ok(1))),
    ];
    const ONE_LEFT: &[(usize, Step<u64>)] = &[
        (A, Step::Left(0)),
        (B, Step::Left(0)),
        (C, Step::Left(1)),
        (C, Step::Insert(3, Ok(2))),
    ];
    let (queue, mut seats) = open(&rt, (4, 3, 1));
    walk(&rt, &queue, &mut seats, SPENT);
    let mut seats = made_and_broken(&rt, &queue, seats, 1);
    walk(&rt, &queue, &mut seats, ONE_LEFT);
    let seats = made_and_broken(&rt, &queue, seats, 0);
    assert_left(&rt, close_all(&rt, queue, seats), &[1, 2, 3]);
}

#[test]
fn a_bundle_of_all_seats_that_a_queue_may_have(rt: HostRuntime) {
    let (queue, seats) = large::open(&rt, (2, 1024, 3));
    let seats = made_and_broken(&rt, &queue, seats, 3072);
    assert_equal(&rt, seats.len(), 1024);
    assert_left(&rt, close_all(&rt, queue, seats), &[]);
}

#[test]
fn no_bundle_of_no_seats(rt: HostRuntime) {
    let (queue, _seats) = open::<u64>(&rt, (1, 1, 1));
    match Bundle::of(rt.alloc(), &queue, Vec::new(rt.alloc())) {
        Err(BundleFault::NoSeats) => {}
        _ => panic!(&rt; "a bundle of no seats"),
    }
}

#[test]
fn a_bundle_joins_a_tally(rt: HostRuntime) {
    let (queue, mut seats) = with_calls(&rt);
    let first = take(&rt, &queue, &mut seats);
    let bundle = bundle_of(&rt, &queue, seats);
    let tally = queue.join_bundle(Tally::of(first), bundle);
    assert_left(&rt, close(&rt, queue, tally), &[8]);
}

#[test]
fn a_seat_joins_the_tally_of_a_bundle(rt: HostRuntime) {
    let (queue, mut seats) = with_calls(&rt);
    let last = take(&rt, &queue, &mut seats);
    let bundle = bundle_of(&rt, &queue, seats);
    let tally = Tally::of_bundle(&queue, bundle);
    assert_equal(&rt, tally.is_whole(), false);
    let tally = queue.join(tally, last);
    assert_left(&rt, close(&rt, queue, tally), &[8]);
}

#[test]
fn the_tally_of_a_bundle_of_all_seats_is_whole(rt: HostRuntime) {
    let (queue, seats) = with_calls(&rt);
    let bundle = bundle_of(&rt, &queue, seats);
    let tally = Tally::of_bundle(&queue, bundle);
    assert_left(&rt, close(&rt, queue, tally), &[8]);
}

#[test]
fn a_tally_without_a_bundle_is_not_whole(rt: HostRuntime) {
    let (queue, mut seats) = with_calls(&rt);
    let last = take_any(&rt, &queue, &mut seats);
    let tally = joined(&rt, &queue, seats);
    assert_equal(&rt, tally.is_whole(), false);
    drop(last);
}

#[test]
fn what_a_fault_says(rt: HostRuntime) {
    let (_queue, seats) = open::<u64>(&rt, (1, 1, 1));
    assert_written(&rt, &BundleFault::<u64>::NoSeats, "NoSeats");
    let fault = BundleFault::Memory { seats };
    assert_written(
        &rt,
        &fault,
        "Memory { seats: [Seat { name: 0, state: Idle, left: 1, .. }] }",
    );
    let text = format!(in rt.alloc(); "{fault}, {}", BundleFault::<u64>::NoSeats).expect(
        &rt, "memory",
    );
    assert_equal(&rt, text.as_str(), "out of memory, there is no seat");
}
