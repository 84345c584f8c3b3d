//! Seats of a queue, and calls of theirs whose results a test knows.

ghost use Rattle.std.specs.Prelude.{◌≡◌, All};
ghost use Rattle.fak_queue.specs.Queues.{IsIdleSeat};

use super::assertions::assert_case;
use fak_queue::{DeleteFault, InUse, InsertFault, Queue, Rest, Seat, SeatState, Tally};
use std::process::Abort;
use std::sync::Wait;

/// The seats of a test.
pub const A: usize = 0;

pub const B: usize = 1;

pub const C: usize = 2;

pub const D: usize = 3;

/// A call of a seat, or a question to it, and what it must return.
#[derive(Drop)]
pub enum Step<T> {
    Insert(T, Result<u64, InsertFault<T>>),
    WaitInsert(T, Result<u64, InsertFault<T>>),
    ClaimInsert(T, Result<u64, InsertFault<T>>),
    TryFill(Option<u64>),
    Delete(Result<(u64, T), DeleteFault>),
    WaitDelete(Result<(u64, T), DeleteFault>),
    ClaimDelete(Result<u64, DeleteFault>),
    TryTake(Option<(u64, T)>),
    Shut(bool),
    /// The number of cells in use, the queue open.
    OpenWith(i64),
    /// The number of cells in use, the queue shut.
    ShutWith(i64),
    ItemsReady(i64),
    IsDrained(bool),
    Pause,
    State(SeatState),
    Left(u64),
}

/// What is observed of a queue with this number of cells in use.
pub fn in_use(count: i64, is_shut: bool) -> InUse {
    InUse { count, is_shut }
}

/// Whether the result is the wanted one.
fn is<A: PartialEq + Drop>(found: A, wanted: &A) -> bool {
    found == *wanted
}

impl<T: Copy + PartialEq + Drop> Step<T> {
    /// Performs the call. Returns whether its result is the wanted one.
    pub fn is_met<R: Wait>(&self, rt: &R, queue: &Queue<T>, seat: &mut Seat<T>) -> bool
        requires { seat.old.object ≡ queue.now.object }
        ensures { seat.new.object ≡ queue.now.object }
    {
        match (seat.state(), self) {
            (SeatState::Idle, Step::Insert(item, answer)) => is(
                queue.insert(rt, seat, *item),
                answer,
            ),
            (SeatState::Idle, Step::WaitInsert(item, answer)) => is(
                queue.wait_insert(rt, seat, *item),
                answer,
            ),
            (SeatState::Idle, Step::ClaimInsert(item, answer)) => is(
                queue.claim_insert(seat, *item),
                answer,
            ),
            (SeatState::Inserting(_), Step::TryFill(answer)) => is(queue.try_fill(seat), answer),
            (SeatState::Idle, Step::Delete(answer)) => is(queue.delete(rt, seat), answer),
            (SeatState::Idle, Step::WaitDelete(answer)) => is(queue.wait_delete(rt, seat), answer),
            (SeatState::Idle, Step::ClaimDelete(answer)) => is(queue.claim_delete(seat), answer),
            (SeatState::Deleting(_), Step::TryTake(answer)) => is(queue.try_take(seat), answer),
            (SeatState::Idle, Step::Shut(answer)) => is(queue.shut(seat), answer),
            (_, Step::OpenWith(count)) => queue.cells_in_use(seat) == in_use(*count, false),
            (_, Step::ShutWith(count)) => queue.cells_in_use(seat) == in_use(*count, true),
            (_, Step::ItemsReady(answer)) => queue.items_ready(seat) == *answer,
            (_, Step::IsDrained(answer)) => queue.is_drained(seat) == *answer,
            (_, Step::Pause) => {
                queue.pause(seat);
                true
            }
            (state, Step::State(answer)) => state == *answer,
            (_, Step::Left(answer)) => seat.left() == *answer,
            _ => false,
        }
    }
}

/// An open queue with all its seats.
pub fn open<T: Drop>(
    rt: &(impl Abort + AllocGlobal),
    limits: (u64, u64, u64),
) -> (Queue<T>, Vec<Seat<T>>)
    ensures { All (λ s. s.object ≡ result.0.object) result.1.items }
{
    let (size, seats, stint) = limits;
    Queue::<T>::open(rt.alloc(), size, seats, stint).expect(rt, "open")
}

/// An open queue with its only seat.
pub fn open_one<T: Drop>(
    rt: &(impl Abort + AllocGlobal),
    size: u64,
    stint: u64,
) -> (Queue<T>, Seat<T>)
    ensures { IsIdleSeat result.0.object result.1 }
{
    let (queue, mut seats) = open(rt, (size, 1, stint));
    let seat = take(rt, &queue, &mut seats);
    (queue, seat)
}

/// Takes the step with the seat of this number. Returns whether there is such a seat and the result is the wanted one.
pub fn meets<T: Copy + PartialEq + Drop, R: Wait>(
    rt: &R,
    queue: &Queue<T>,
    seats: &mut Vec<Seat<T>>,
    name: usize,
    step: &Step<T>,
) -> bool
    requires { All (λ s. s.object ≡ queue.now.object) seats.old.items }
    ensures { All (λ s. s.object ≡ queue.now.object) seats.new.items }
{
    name < seats.len() && step.is_met(rt, queue, &mut seats[name])
}

/// Walks the steps in their order, each with the seat of its number.
pub fn walk<T: Copy + PartialEq + Drop, R: Abort + Wait>(
    rt: &R,
    queue: &Queue<T>,
    seats: &mut Vec<Seat<T>>,
    steps: &[(usize, Step<T>)],
)
    requires { All (λ s. s.object ≡ queue.now.object) seats.old.items }
    ensures { All (λ s. s.object ≡ queue.now.object) seats.new.items }
{
    for (row, (name, step)) in steps.iter().enumerate() {
        assert_case(rt, &row, meets(rt, queue, seats, *name, step));
    }
}

/// Opens a queue and walks the steps.
pub fn open_and_walk<T: Copy + PartialEq + Drop, R: Abort + AllocGlobal + Wait>(
    rt: &R,
    limits: (u64, u64, u64),
    steps: &[(usize, Step<T>)],
) {
    let (queue, mut seats) = open(rt, limits);
    walk(rt, &queue, &mut seats, steps);
}

/// Takes out the last of the seats.
pub fn take_any<T: Drop>(rt: &impl Abort, queue: &Queue<T>, seats: &mut Vec<Seat<T>>) -> Seat<T>
    requires { All (λ s. s.object ≡ queue.now.object) seats.old.items }
    ensures seat { result.object ≡ queue.now.object }
    ensures others { All (λ s. s.object ≡ queue.now.object) seats.new.items }
{
    seats.pop().expect(rt, "no seat is left")
}

/// Takes out the last of the seats, which must be between two calls.
pub fn take<T: Drop>(rt: &impl Abort, queue: &Queue<T>, seats: &mut Vec<Seat<T>>) -> Seat<T>
    requires { All (λ s. s.object ≡ queue.now.object) seats.old.items }
    ensures seat { IsIdleSeat queue.now.object result }
    ensures others { All (λ s. s.object ≡ queue.now.object) seats.new.items }
{
    let seat = take_any(rt, queue, seats);
    assert_idle(rt, queue, &seat);
    seat
}

/// Stops if the seat has an open call.
pub fn assert_idle<T: Drop>(rt: &impl Abort, queue: &Queue<T>, seat: &Seat<T>)
    requires { seat.now.object ≡ queue.now.object }
    ensures { IsIdleSeat queue.now.object seat.now }
{
    let SeatState::Idle = seat.state() else {
        panic!(rt; "a seat in mid-call")
    };
}

/// The tally of these seats.
pub fn joined<T: Drop>(rt: &impl Abort, queue: &Queue<T>, mut seats: Vec<Seat<T>>) -> Tally<T>
    requires { All (λ s. s.object ≡ queue.now.object) seats.items }
    ensures { result.object ≡ queue.now.object }
{
    let mut tally = Tally::of(take(rt, queue, &mut seats));
    for _ in 0..seats.len() {
        tally = queue.join(tally, take(rt, queue, &mut seats));
    }
    tally
}

/// The items that are left, if all seats are in the tally.
pub fn close<T: Drop>(rt: &impl Abort, queue: Queue<T>, tally: Tally<T>) -> Rest<T>
    requires { tally.object ≡ queue.object }
{
    if !tally.is_whole() {
        panic!(rt; "a seat that is not in the tally")
    }
    queue.close(tally)
}

/// The items that are left, if these are all the seats.
pub fn close_all<T: Drop>(rt: &impl Abort, queue: Queue<T>, seats: Vec<Seat<T>>) -> Rest<T>
    requires { All (λ s. s.object ≡ queue.object) seats.items }
{
    let tally = joined(rt, &queue, seats);
    close(rt, queue, tally)
}
