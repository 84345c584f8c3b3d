//! The parts of queues: two threads insert numbers, and two delete them. In each of these pairs, one thread has a port,
//! and the other performs its calls in each form in turn.

ghost use Rattle.std.specs.Prelude.{IfOk};
ghost use Rattle.fak_queue.specs.Queues.{IsIdleSeat};
ghost use Rattle.soak.specs.Seats.{AreIdleSeats};

use crate::crew::{Crew, PAIRS, Seen, THREADS};
use crate::fault::Fault;
use crate::forms::{Form, put, take};
use crate::items::{Arrivals, item_of};
use crate::parts::Machine;
use crate::ports::{receive_all, send_all};
use crate::seats::{close_all, open};
use fak_queue::{Port, Queue, Seat};
use std::alloc::Global;
use std::sync::Wait;
use std::thread::map_vec;

/// Inserts this many numbers of a lane. Returns what went in.
fn put_all<R: Wait>(
    rt: &R,
    queue: &Queue<u64>,
    seat: &mut Seat<u64>,
    lane: u64,
    numbers: u64,
) -> Seen
    requires { IsIdleSeat queue.now.object seat.old }
    ensures { IsIdleSeat queue.now.object seat.new }
{
    let mut seen = Seen::NONE;
    for number in 0..numbers {
        let item = item_of(lane, number);
        if put(rt, queue, seat, Form::of(number), item) {
            seen = seen.with(item);
        }
    }
    seen
}

/// Deletes this many numbers. Returns what came out.
fn take_all<R: Wait>(rt: &R, queue: &Queue<u64>, seat: &mut Seat<u64>, numbers: u64) -> Arrivals
    requires { IsIdleSeat queue.now.object seat.old }
    ensures { IsIdleSeat queue.now.object seat.new }
{
    let mut arrivals = Arrivals::new();
    for number in 0..numbers {
        if let Some(item) = take(rt, queue, seat, Form::of(number)) {
            arrivals.add(item);
        }
    }
    arrivals
}

/// Inserts a lane of this many numbers. The first thread uses a port.
fn insert_lane<R: Wait>(
    rt: &R,
    queue: &Queue<u64>,
    crew: &Crew,
    mut seat: Seat<u64>,
    lane: u64,
    numbers: u64,
) -> Seat<u64>
    requires { IsIdleSeat queue.now.object seat }
    ensures { IsIdleSeat queue.now.object result }
{
    if lane == 0 {
        let (seat, seen) = send_all(rt, Port::new(queue, seat), lane, numbers);
        crew.went_in.add(seen);
        return seat;
    }
    crew.went_in
        .add(put_all(rt, queue, &mut seat, lane, numbers));
    seat
}

/// Deletes this many numbers. The first thread uses a port.
fn delete_share<R: Wait>(
    rt: &R,
    queue: &Queue<u64>,
    crew: &Crew,
    mut seat: Seat<u64>,
    share: u64,
    numbers: u64,
) -> Seat<u64>
    requires { IsIdleSeat queue.now.object seat }
    ensures { IsIdleSeat queue.now.object result }
{
    if share == 0 {
        let (seat, arrivals) = receive_all(rt, Port::new(queue, seat), numbers);
        note(crew, &arrivals);
        return seat;
    }
    note(crew, &take_all(rt, queue, &mut seat, numbers));
    seat
}

/// Notes what came to a thread.
pub fn note(crew: &Crew, arrivals: &Arrivals) {
    crew.came_out.add(arrivals.seen);
    crew.expect(arrivals.are_in_order);
}

/// What one thread does.
fn work<R: Wait>(
    rt: &R,
    queue: &Queue<u64>,
    crew: &Crew,
    numbers: u64,
    seat: Seat<u64>,
) -> Seat<u64>
    requires { IsIdleSeat queue.now.object seat }
    ensures { IsIdleSeat queue.now.object result }
{
    match crew.meet() {
        None => seat,
        Some(lane) if lane < PAIRS => insert_lane(rt, queue, crew, seat, lane, numbers),
        Some(turn) => delete_share(rt, queue, crew, seat, turn - PAIRS, numbers),
    }
}

/// Lets all seats work at once.
fn work_all<R: Machine>(
    rt: &R,
    queue: &Queue<u64>,
    crew: &Crew,
    numbers: u64,
    seats: Vec<Seat<u64>>,
) -> Result<Vec<Seat<u64>>, Fault>
    requires { AreIdleSeats queue.now.object seats.items }
    ensures { IfOk result (λ seats. AreIdleSeats queue.now.object seats.items) }
{
    let part = move |seat: Seat<u64>| -> Seat<u64>
        requires { IsIdleSeat queue.now.object seat }
        ensures { IsIdleSeat queue.entry.now.object result }
    { work(rt, queue, crew, numbers, seat) };
    match map_vec(rt, seats, &part) {
        Ok(seats) => Ok(seats),
        Err(_) => Err(Fault::Memory),
    }
}

/// Passes this many numbers of each inserting thread through a queue of this many cells.
pub fn queue_part<R: Machine>(rt: &R, alloc: Global, size: u64, numbers: u64) -> Result<(), Fault> {
    let crew = Crew::new();
    let (queue, seats) = open(alloc, size, THREADS)?;
    let seats = work_all(rt, &queue, &crew, numbers, seats)?;
    let Some(mut rest) = close_all(queue, seats) else {
        return Err(Fault::Queue);
    };
    crew.expect(rest.next().is_none());
    crew.verdict(PAIRS.wrapping_mul(numbers), Fault::Queue)
}

/// Passes this many numbers through the queue, with each form of insertion followed by each form of deletion. Returns
/// whether each number came out at once.
fn pass_alone<R: Wait>(rt: &R, queue: &Queue<u64>, seat: &mut Seat<u64>, numbers: u64) -> bool
    requires { IsIdleSeat queue.now.object seat.old }
    ensures { IsIdleSeat queue.now.object seat.new }
{
    for number in 0..numbers {
        let is_in = put(rt, queue, seat, Form::of(number), number);
        if !is_in || take(rt, queue, seat, Form::of(number / 3)) != Some(number) {
            return false;
        }
    }
    true
}

/// Passes this many numbers through a queue of this many cells, by one thread.
pub fn alone_part<R: Machine>(rt: &R, alloc: Global, size: u64, numbers: u64) -> Result<(), Fault> {
    let (queue, mut seats) = open(alloc, size, 1)?;
    let Some(mut seat) = seats.pop() else {
        return Err(Fault::Queue);
    };
    if pass_alone(rt, &queue, &mut seat, numbers) {
        Ok(())
    } else {
        Err(Fault::Queue)
    }
}
