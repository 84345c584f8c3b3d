//! The parts of semaphores: two threads perform downs of numbers, and two perform ups. In each of these pairs, one
//! thread waits in its calls, and the other goes by steps.

ghost use Rattle.std.specs.Prelude.{◌≡◌, IfOk, IfSome};
ghost use Rattle.soak.specs.Seats.{AreSeatsOf};

use crate::crew::{Crew, PAIRS, Seen, THREADS};
use crate::fault::Fault;
use crate::items::{Arrivals, item_of};
use crate::parts::Machine;
use crate::queues::note;
use crate::stepwise::{down_by_steps, up_by_steps};
use fak_sem::{LONGEST_STINT, Rest, SemSeat, SemTally, Semaphore, StepSeat};
use std::alloc::Global;
use std::sync::Wait;
use std::thread::map_vec;

/// The start of a semaphore.
const START: u64 = 3;

/// The number of items that are left parked at the end, as many as the smallest wait queue has cells.
const LEFT: u64 = 2;

/// Performs downs of this many numbers of a lane, by calls that wait.
fn downs<R: Wait>(
    rt: &R,
    semaphore: &Semaphore<u64>,
    crew: &Crew,
    mut seat: SemSeat<u64>,
    lane: u64,
    numbers: u64,
) -> SemSeat<u64>
    requires { seat.object ≡ semaphore.now.object }
    ensures { result.object ≡ semaphore.now.object }
{
    let mut asked = Seen::NONE;
    let mut passed = Arrivals::new();
    for number in 0..numbers {
        let item = item_of(lane, number);
        if let Ok(answer) = semaphore.down(rt, &mut seat, item) {
            asked = asked.with(item);
            if let Some(who) = answer {
                passed.add(who);
            }
        }
    }
    crew.went_in.add(asked);
    note(crew, &passed);
    seat
}

/// As `downs`, by steps.
fn downs_by_steps<R: Wait>(
    rt: &R,
    semaphore: &Semaphore<u64>,
    crew: &Crew,
    seat: SemSeat<u64>,
    lane: u64,
    numbers: u64,
) -> SemSeat<u64>
    requires { seat.object ≡ semaphore.now.object }
    ensures { result.object ≡ semaphore.now.object }
{
    let mut asked = Seen::NONE;
    let mut passed = Arrivals::new();
    let mut steps = StepSeat::of(seat);
    for number in 0..numbers {
        let item = item_of(lane, number);
        asked = asked.with(item);
        if let Some(who) = down_by_steps(rt, semaphore, &mut steps, item) {
            passed.add(who);
        }
    }
    crew.went_in.add(asked);
    note(crew, &passed);
    steps.into_seat()
}

/// Performs this many ups, by calls that wait.
fn ups<R: Wait>(
    rt: &R,
    semaphore: &Semaphore<u64>,
    crew: &Crew,
    mut seat: SemSeat<u64>,
    numbers: u64,
) -> SemSeat<u64>
    requires { seat.object ≡ semaphore.now.object }
    ensures { result.object ≡ semaphore.now.object }
{
    let mut woken = Arrivals::new();
    for _ in 0..numbers {
        if let Ok(Some(who)) = semaphore.up(rt, &mut seat) {
            woken.add(who);
        }
    }
    note(crew, &woken);
    seat
}

/// As `ups`, by steps.
fn ups_by_steps<R: Wait>(
    rt: &R,
    semaphore: &Semaphore<u64>,
    crew: &Crew,
    seat: SemSeat<u64>,
    numbers: u64,
) -> SemSeat<u64>
    requires { seat.object ≡ semaphore.now.object }
    ensures { result.object ≡ semaphore.now.object }
{
    let mut woken = Arrivals::new();
    let mut steps = StepSeat::of(seat);
    for _ in 0..numbers {
        if let Some(who) = up_by_steps(rt, semaphore, &mut steps) {
            woken.add(who);
        }
    }
    note(crew, &woken);
    steps.into_seat()
}

/// What one thread does. The downs of all threads are `START` and `LEFT` more than the ups.
fn work<R: Wait>(
    rt: &R,
    semaphore: &Semaphore<u64>,
    crew: &Crew,
    numbers: u64,
    seat: SemSeat<u64>,
) -> SemSeat<u64>
    requires { seat.object ≡ semaphore.now.object }
    ensures { result.object ≡ semaphore.now.object }
{
    match crew.meet() {
        None => seat,
        Some(0) => downs(rt, semaphore, crew, seat, 0, numbers),
        Some(1) => downs_by_steps(rt, semaphore, crew, seat, 1, numbers),
        Some(2) => ups(rt, semaphore, crew, seat, numbers),
        Some(_) => {
            let fewer = numbers.saturating_sub(START + LEFT);
            ups_by_steps(rt, semaphore, crew, seat, fewer)
        }
    }
}

/// Lets all seats work at once.
fn work_all<R: Machine>(
    rt: &R,
    semaphore: &Semaphore<u64>,
    crew: &Crew,
    numbers: u64,
    seats: Vec<SemSeat<u64>>,
) -> Result<Vec<SemSeat<u64>>, Fault>
    requires { AreSeatsOf semaphore.now.object seats.items }
    ensures { IfOk result (λ seats. AreSeatsOf semaphore.now.object seats.items) }
{
    let part = move |seat: SemSeat<u64>| -> SemSeat<u64>
        requires { seat.object ≡ semaphore.now.object }
        ensures { result.object ≡ semaphore.entry.now.object }
    { work(rt, semaphore, crew, numbers, seat) };
    match map_vec(rt, seats, &part) {
        Ok(seats) => Ok(seats),
        Err(_) => Err(Fault::Memory),
    }
}

/// The tally of these seats, or `None` if there are no seats.
fn joined(semaphore: &Semaphore<u64>, mut seats: Vec<SemSeat<u64>>) -> Option<SemTally<u64>>
    requires { AreSeatsOf semaphore.now.object seats.items }
    ensures { IfSome result (λ tally. tally.object ≡ semaphore.now.object) }
{
    let Some(seat) = seats.pop() else {
        return None;
    };
    let mut tally = SemTally::of(seat);
    while let Some(seat) = seats.pop() {
        tally = semaphore.join(tally, seat);
    }
    Some(tally)
}

/// What is left, or `None` if a seat is not in the tally.
fn close(semaphore: Semaphore<u64>, tally: SemTally<u64>) -> Option<Rest<u64>>
    requires { tally.object ≡ semaphore.object }
{
    if !tally.is_whole() {
        return None;
    }
    Some(semaphore.close(tally))
}

/// An open semaphore with its seats.
fn open(alloc: Global, size: u64) -> Result<(Semaphore<u64>, Vec<SemSeat<u64>>), Fault>
    ensures { IfOk result (λ r. AreSeatsOf r.0.object r.1.items) }
{
    let Ok((semaphore, seats)) = Semaphore::<u64>::open(alloc, START, size, THREADS, LONGEST_STINT)
    else {
        return Err(Fault::Memory);
    };
    Ok((semaphore, seats))
}

/// Downs of this many numbers by each of two threads, over a wait queue of this many cells.
pub fn semaphore_part<R: Machine>(
    rt: &R,
    alloc: Global,
    size: u64,
    numbers: u64,
) -> Result<(), Fault> {
    let crew = Crew::new();
    let (semaphore, seats) = open(alloc, size)?;
    let seats = work_all(rt, &semaphore, &crew, numbers, seats)?;
    let Some(tally) = joined(&semaphore, seats) else {
        return Err(Fault::Semaphore);
    };
    let Some(mut rest) = close(semaphore, tally) else {
        return Err(Fault::Semaphore);
    };
    let mut left = Arrivals::new();
    // One more than `LEFT`, to find out if more items are left.
    for _ in 0..LEFT + 1 {
        if let Some(who) = rest.next() {
            left.add(who);
        }
    }
    crew.expect(left.seen.count == LEFT);
    note(&crew, &left);
    crew.verdict(PAIRS.wrapping_mul(numbers), Fault::Semaphore)
}
