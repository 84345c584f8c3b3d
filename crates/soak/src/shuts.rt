//! The part that shuts queues. In each round some threads insert until the queue is shut, and one deletes for a while and
//! shuts it. Each item is one holder of a shared value, so the dropped items can be counted by the remaining holders.

ghost use Rattle.std.specs.Prelude.{IfOk};
ghost use Rattle.fak_queue.specs.Queues.{IsIdleSeat};
ghost use Rattle.soak.specs.Seats.{AreIdleSeats};

use crate::crew::{Crew, Seen, THREADS};
use crate::fault::Fault;
use crate::forms::{Form, put, take};
use crate::parts::Machine;
use crate::seats::{close_all, open};
use fak_queue::{Queue, Rest, Seat};
use std::alloc::Global;
use std::sync::{Arc, Wait};
use std::thread::map_vec;

/// The number of cells of the queue.
const CELLS: u64 = 3;

/// The number of deletions before a queue is shut.
const DELETIONS: u64 = 50;

/// The last of the threads deletes and shuts; the others insert.
const LAST: u64 = THREADS - 1;

/// Inserts holders until the queue is shut. Returns how many went in.
fn insert_until_shut<R: Wait>(
    rt: &R,
    queue: &Queue<Arc<u8>>,
    seat: &mut Seat<Arc<u8>>,
    shared: &Arc<u8>,
) -> Seen
    requires { IsIdleSeat queue.now.object seat.old }
    ensures { IsIdleSeat queue.now.object seat.new }
{
    let mut seen = Seen::NONE;
    for number in 0..u64::MAX {
        let Ok(held) = Arc::try_clone(shared) else {
            return seen;
        };
        if !put(rt, queue, seat, Form::of(number), held) {
            return seen;
        }
        seen = seen.with(0);
    }
    seen
}

/// Deletes holders, and shuts the queue. Returns how many came out.
fn delete_and_shut<R: Wait>(rt: &R, queue: &Queue<Arc<u8>>, seat: &mut Seat<Arc<u8>>) -> Seen
    requires { IsIdleSeat queue.now.object seat.old }
    ensures { IsIdleSeat queue.now.object seat.new }
{
    let mut seen = Seen::NONE;
    for number in 0..DELETIONS {
        if let Some(_held) = take(rt, queue, seat, Form::of(number)) {
            seen = seen.with(0);
        }
    }
    queue.shut(seat);
    seen
}

/// What one thread does.
fn work<R: Wait>(
    rt: &R,
    queue: &Queue<Arc<u8>>,
    crew: &Crew,
    shared: &Arc<u8>,
    mut seat: Seat<Arc<u8>>,
) -> Seat<Arc<u8>>
    requires { IsIdleSeat queue.now.object seat }
    ensures { IsIdleSeat queue.now.object result }
{
    match crew.meet() {
        None => {}
        Some(turn) if turn < LAST => {
            crew.went_in
                .add(insert_until_shut(rt, queue, &mut seat, shared));
        }
        Some(_) => crew.came_out.add(delete_and_shut(rt, queue, &mut seat)),
    }
    seat
}

/// Lets all seats work at once.
fn work_all<R: Machine>(
    rt: &R,
    queue: &Queue<Arc<u8>>,
    crew: &Crew,
    shared: &Arc<u8>,
    seats: Vec<Seat<Arc<u8>>>,
) -> Result<Vec<Seat<Arc<u8>>>, Fault>
    requires { AreIdleSeats queue.now.object seats.items }
    ensures { IfOk result (λ seats. AreIdleSeats queue.now.object seats.items) }
{
    let part = move |seat: Seat<Arc<u8>>| -> Seat<Arc<u8>>
        requires { IsIdleSeat queue.now.object seat }
        ensures { IsIdleSeat queue.entry.now.object result }
    { work(rt, queue, crew, shared, seat) };
    match map_vec(rt, seats, &part) {
        Ok(seats) => Ok(seats),
        Err(_) => Err(Fault::Memory),
    }
}

/// Takes out one of the items that are left, and drops the others with the rest. Returns how many items were left.
fn drop_rest(crew: &Crew, shared: &Arc<u8>, mut rest: Rest<Arc<u8>>) -> Seen {
    let holders = Arc::strong_count(shared);
    let left = holders.wrapping_sub(1) as u64;
    crew.expect(left <= CELLS);
    let first = rest.next();
    crew.expect(first.is_some() == (left > 0));
    drop(rest);
    drop(first);
    crew.expect(Arc::strong_count(shared) == 1);
    let mut seen = Seen::NONE;
    seen.count = left;
    seen
}

/// Runs one round.
fn round<R: Machine>(rt: &R, alloc: Global, shared: &Arc<u8>) -> Result<(), Fault> {
    let crew = Crew::new();
    let (queue, seats) = open(alloc, CELLS, THREADS)?;
    let seats = work_all(rt, &queue, &crew, shared, seats)?;
    let Some(rest) = close_all(queue, seats) else {
        return Err(Fault::Shut);
    };
    crew.came_out.add(drop_rest(&crew, shared, rest));
    crew.verdict(crew.went_in.seen().count, Fault::Shut)
}

/// Runs rounds in which about this many holders come out.
pub fn shut_part<R: Machine>(rt: &R, alloc: Global, calls: u64) -> Result<(), Fault> {
    let shared = Arc::new(alloc, 7u8)?;
    for _ in 0..calls / DELETIONS {
        round(rt, alloc, &shared)?;
    }
    Ok(())
}
