//! Each step by itself, on one thread: what it returns, and the state in which it leaves the seat.

ghost use Rattle.std.specs.Prelude.{◌≡◌, ◌<◌, All, vec_len};

use crate::assertions::assert_equal;
use crate::bounded::ended;
use crate::steps::{A, B, leaves_nothing, open, take};
use fak_sem::{SemSeat, SemTally, SemWorn, Semaphore, StepSeat, StepState, Worn};
use std::alloc::Global;
use std::process::Abort;

/// The third seat of a test.
const C: usize = 2;

/// A step, and what it should return.
#[derive(Drop)]
enum Call {
    Down(u64, Result<Option<u64>, SemWorn<u64>>),
    Park(bool),
    Up(Result<bool, Worn>),
    Wake(Option<u64>),
}

impl Call {
    /// Takes the step if the seat is ready for it. Returns whether the result was the expected one.
    fn is_met(&self, semaphore: &Semaphore<u64>, seat: &mut StepSeat<u64>) -> bool
        requires { seat.old.seat.object ≡ semaphore.now.object }
        ensures { seat.new.seat.object ≡ semaphore.now.object }
    {
        match (self, seat.state()) {
            (Call::Down(who, answer), StepState::Idle) => {
                semaphore.claim_down(seat, *who) == *answer
            }
            (Call::Park(answer), StepState::Parking) => semaphore.try_park(seat) == *answer,
            (Call::Up(answer), StepState::Idle) => semaphore.claim_up(seat) == *answer,
            (Call::Wake(answer), StepState::Waking) => semaphore.try_wake(seat) == *answer,
            _ => false,
        }
    }
}

/// A row: the seat, its step, its state afterwards, and the calls that are left.
type Row = (usize, Call, StepState, u64);

/// Takes the step of the row. Returns whether all is as the row has it.
fn meets(semaphore: &Semaphore<u64>, seat: &mut StepSeat<u64>, row: &Row) -> bool
    requires { seat.old.seat.object ≡ semaphore.now.object }
    ensures { seat.new.seat.object ≡ semaphore.now.object }
{
    let (_, call, stands, left) = row;
    call.is_met(semaphore, seat) && seat.state() == *stands && seat.left() == *left
}

/// Takes the step of a row with the seat of this number.
fn meets_at(
    semaphore: &Semaphore<u64>,
    seats: &mut Vec<StepSeat<u64>>,
    name: usize,
    row: &Row,
) -> bool
    requires name { name < vec_len seats.old }
    requires old { All (λ s. s.seat.object ≡ semaphore.now.object) seats.old.items }
    ensures { All (λ s. s.seat.object ≡ semaphore.now.object) seats.new.items }
{
    meets(semaphore, &mut seats[name], row)
}

/// Takes the steps of the rows in their order, each with the seat of its number.
fn walk(rt: &impl Abort, semaphore: &Semaphore<u64>, seats: &mut Vec<StepSeat<u64>>, rows: &[Row])
    requires { All (λ s. s.seat.object ≡ semaphore.now.object) seats.old.items }
    ensures { All (λ s. s.seat.object ≡ semaphore.now.object) seats.new.items }
{
    for (number, row) in rows.iter().enumerate() {
        let name = row.0;
        if name >= seats.len() || !meets_at(semaphore, seats, name, row) {
            panic!(rt; "row {number}")
        }
    }
}

/// The seats, whose calls go by steps; A is the last of them.
fn by_steps(
    rt: &impl Abort,
    alloc: Global,
    semaphore: &Semaphore<u64>,
    mut seats: Vec<SemSeat<u64>>,
) -> Vec<StepSeat<u64>>
    requires { All (λ s. s.object ≡ semaphore.now.object) seats.items }
    ensures { All (λ s. s.seat.object ≡ semaphore.now.object) result.items }
{
    let mut steps = Vec::new(alloc);
    for _ in 0..seats.len() {
        let seat = StepSeat::of(take(rt, semaphore, &mut seats));
        steps.push(seat).expect(rt, "memory");
    }
    steps
}

/// Takes out the last of the seats, whose call is done.
fn take_ended(
    rt: &impl Abort,
    semaphore: &Semaphore<u64>,
    seats: &mut Vec<StepSeat<u64>>,
) -> SemSeat<u64>
    requires { All (λ s. s.seat.object ≡ semaphore.now.object) seats.old.items }
    ensures seat { result.object ≡ semaphore.now.object }
    ensures others { All (λ s. s.seat.object ≡ semaphore.now.object) seats.new.items }
{
    let Some(seat) = seats.pop() else {
        panic!(rt; "no seat is left")
    };
    ended(rt, semaphore, seat)
}

/// The tally of these seats, whose calls are done.
fn joined(
    rt: &impl Abort,
    semaphore: &Semaphore<u64>,
    mut seats: Vec<StepSeat<u64>>,
) -> SemTally<u64>
    requires { All (λ s. s.seat.object ≡ semaphore.now.object) seats.items }
    ensures { result.object ≡ semaphore.now.object }
{
    let mut tally = SemTally::of(take_ended(rt, semaphore, &mut seats));
    for _ in 0..seats.len() {
        tally = semaphore.join(tally, take_ended(rt, semaphore, &mut seats));
    }
    tally
}

#[test]
fn each_step_leaves_the_seat_where_it_says(rt: HostRuntime) {
    use Call::{Down, Park, Up, Wake};
    use StepState::{Idle, Parking, Waking};
    const ROWS: &[Row] = &[
        (A, Down(70, Ok(Some(70))), Idle, 9),
        // the claim has its cell, and the item is not in it yet
        (A, Down(71, Ok(None)), Parking, 8),
        // there is no room: the item stays in the seat
        (B, Down(72, Ok(None)), Parking, 9),
        (B, Park(false), Parking, 9),
        (C, Up(Ok(true)), Waking, 9),
        (C, Wake(None), Waking, 9),
        (A, Park(true), Idle, 8),
        (C, Wake(None), Waking, 9),
        (C, Wake(Some(71)), Idle, 9),
        (B, Park(false), Parking, 9),
        (B, Park(true), Idle, 9),
        (A, Up(Ok(true)), Waking, 7),
        (A, Wake(Some(72)), Idle, 7),
        (A, Up(Ok(false)), Idle, 6),
    ];
    // the wait queue has one cell
    let (semaphore, seats) = open(&rt, rt.alloc(), (1, 1, 3, 10));
    let mut seats = by_steps(&rt, rt.alloc(), &semaphore, seats);
    walk(&rt, &semaphore, &mut seats, ROWS);
    let tally = joined(&rt, &semaphore, seats);
    leaves_nothing(&rt, semaphore, tally);
}

#[test]
fn an_up_that_finds_no_item_claims_again(rt: HostRuntime) {
    use Call::{Down, Park, Up, Wake};
    use StepState::{Idle, Parking, Waking};
    const ROWS: &[Row] = &[
        (A, Down(1, Ok(None)), Parking, 9),
        (B, Down(2, Ok(None)), Parking, 9),
        (C, Up(Ok(true)), Waking, 9),
        (A, Park(true), Idle, 9),
        (C, Wake(None), Waking, 9),
        (C, Wake(Some(1)), Idle, 9),
        // the second down has no ticket yet, so the up finds no item
        (C, Up(Ok(true)), Waking, 8),
        (C, Wake(None), Waking, 8),
        (B, Park(false), Parking, 9),
        (C, Wake(None), Waking, 8),
        (B, Park(true), Idle, 9),
        (C, Wake(None), Waking, 8),
        (C, Wake(Some(2)), Idle, 8),
    ];
    let (semaphore, seats) = open(&rt, rt.alloc(), (0, 1, 3, 10));
    let mut seats = by_steps(&rt, rt.alloc(), &semaphore, seats);
    walk(&rt, &semaphore, &mut seats, ROWS);
}

#[test]
fn a_step_seat_wears_out(rt: HostRuntime) {
    use Call::{Down, Up};
    use StepState::Idle;
    const ROWS: &[Row] = &[
        (A, Down(5, Ok(Some(5))), Idle, 1),
        (A, Up(Ok(false)), Idle, 0),
        (A, Down(6, Err(SemWorn(6))), Idle, 0),
        (A, Up(Err(Worn)), Idle, 0),
    ];
    let (semaphore, seats) = open(&rt, rt.alloc(), (1, 1, 1, 2));
    let mut seats = by_steps(&rt, rt.alloc(), &semaphore, seats);
    walk(&rt, &semaphore, &mut seats, ROWS);
    let tally = joined(&rt, &semaphore, seats);
    leaves_nothing(&rt, semaphore, tally);
}

#[test]
fn a_step_seat_is_the_seat_that_it_was(rt: HostRuntime) {
    let (semaphore, mut seats) = open(&rt, rt.alloc(), (1, 1, 1, 3));
    let mut steps = StepSeat::of(take(&rt, &semaphore, &mut seats));
    assert_equal(&rt, semaphore.claim_down(&mut steps, 5), Ok(Some(5)));
    let mut waits = ended(&rt, &semaphore, steps);
    assert_equal(&rt, semaphore.up(&rt, &mut waits), Ok(None));
    assert_equal(&rt, StepSeat::of(waits).left(), 1);
}
