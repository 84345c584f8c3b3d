//! Seats of a semaphore, and calls of theirs whose results a test knows.

ghost use Rattle.std.specs.Prelude.{◌≡◌, ◌<◌, All, vec_len};

use fak_sem::{Rest, SemSeat, SemTally, SemWorn, Semaphore, Worn};
use std::alloc::Global;
use std::process::Abort;
use std::sync::Wait;

/// The seats of a test.
pub const A: usize = 0;

pub const B: usize = 1;

/// A call of a seat, and what it should return.
#[derive(Drop)]
pub enum Step {
    Down(u64, Result<Option<u64>, SemWorn<u64>>),
    Up(Result<Option<u64>, Worn>),
}

impl Step {
    /// Performs the call. Returns whether the result was the expected one.
    fn is_met<R: Wait>(&self, rt: &R, semaphore: &Semaphore<u64>, seat: &mut SemSeat<u64>) -> bool
        requires { seat.old.object ≡ semaphore.now.object }
        ensures { seat.new.object ≡ semaphore.now.object }
    {
        match self {
            Step::Down(who, answer) => semaphore.down(rt, seat, *who) == *answer,
            Step::Up(answer) => semaphore.up(rt, seat) == *answer,
        }
    }
}

/// An open semaphore with all its seats.
pub fn open<T: Drop>(
    rt: &impl Abort,
    alloc: Global,
    limits: (u64, u64, u64, u64),
) -> (Semaphore<T>, Vec<SemSeat<T>>)
    ensures { All (λ s. s.object ≡ result.0.object) result.1.items }
{
    let (start, size, seats, stint) = limits;
    let Ok((semaphore, seats)) = Semaphore::<T>::open(alloc, start, size, seats, stint) else {
        panic!(rt; "open")
    };
    (semaphore, seats)
}

/// Takes the step with the seat of this number.
fn meets<R: Wait>(
    rt: &R,
    semaphore: &Semaphore<u64>,
    seats: &mut Vec<SemSeat<u64>>,
    name: usize,
    step: &Step,
) -> bool
    requires name { name < vec_len seats.old }
    requires old { All (λ s. s.object ≡ semaphore.now.object) seats.old.items }
    ensures { All (λ s. s.object ≡ semaphore.now.object) seats.new.items }
{
    step.is_met(rt, semaphore, &mut seats[name])
}

/// Takes the steps in their order, each with the seat of its number.
pub fn walk<R: Abort + Wait>(
    rt: &R,
    semaphore: &Semaphore<u64>,
    seats: &mut Vec<SemSeat<u64>>,
    steps: &[(usize, Step)],
)
    requires { All (λ s. s.object ≡ semaphore.now.object) seats.old.items }
    ensures { All (λ s. s.object ≡ semaphore.now.object) seats.new.items }
{
    for (row, (name, step)) in steps.iter().enumerate() {
        if *name >= seats.len() || !meets(rt, semaphore, seats, *name, step) {
            panic!(rt; "row {row}")
        }
    }
}

/// Takes out the last of the seats.
pub fn take<T: Drop>(
    rt: &impl Abort,
    semaphore: &Semaphore<T>,
    seats: &mut Vec<SemSeat<T>>,
) -> SemSeat<T>
    requires { All (λ s. s.object ≡ semaphore.now.object) seats.old.items }
    ensures seat { result.object ≡ semaphore.now.object }
    ensures others { All (λ s. s.object ≡ semaphore.now.object) seats.new.items }
{
    let Some(seat) = seats.pop() else {
        panic!(rt; "no seat is left")
    };
    seat
}

/// The tally of these seats.
pub fn joined<T: Drop>(
    rt: &impl Abort,
    semaphore: &Semaphore<T>,
    mut seats: Vec<SemSeat<T>>,
) -> SemTally<T>
    requires { All (λ s. s.object ≡ semaphore.now.object) seats.items }
    ensures { result.object ≡ semaphore.now.object }
{
    let mut tally = SemTally::of(take(rt, semaphore, &mut seats));
    for _ in 0..seats.len() {
        tally = semaphore.join(tally, take(rt, semaphore, &mut seats));
    }
    tally
}

/// What is left, if all seats are in the tally.
pub fn close<T: Drop>(rt: &impl Abort, semaphore: Semaphore<T>, tally: SemTally<T>) -> Rest<T>
    requires { tally.object ≡ semaphore.object }
{
    if !tally.is_whole() {
        panic!(rt; "a seat that is not in the tally")
    }
    semaphore.close(tally)
}

/// Checks that all seats are in the tally, and that no item is left.
pub fn leaves_nothing<T: Drop>(rt: &impl Abort, semaphore: Semaphore<T>, tally: SemTally<T>)
    requires { tally.object ≡ semaphore.object }
{
    let None = close(rt, semaphore, tally).next() else {
        panic!(rt; "an item that was left")
    };
}
