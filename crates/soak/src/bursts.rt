//! The parts of bursts: two threads insert numbers by bursts, and two delete them, each by all forms in turn.

ghost use Rattle.std.specs.Prelude.{◌≡◌, IfOk};
ghost use Rattle.soak.specs.Seats.{AreIdleSeats};

use crate::burst_forms::{delete_some, drain, insert_some};
use crate::crew::{Crew, PAIRS, Seen, THREADS};
use crate::fault::Fault;
use crate::forms::Form;
use crate::items::{Arrivals, item_of};
use crate::parts::{Job, Machine, run_all};
use crate::queues::note;
use crate::seats::open;
use crossbeam_utils::Backoff;
use fak_queue::{Bundle, BundleState, DeleteFault, Queue, Seat};
use std::alloc::Global;
use std::collections::VecDeque;
use std::sync::Wait;

/// The seats of a bundle, and the most numbers in a burst.
const WIDTH: u64 = 5;

/// A thread with a bundle, which inserts this many numbers of a lane, or deletes as many.
#[derive(Drop)]
struct BundleThread<'q> {
    queue: &'q Queue<u64>,
    bundle: Bundle<u64>,
    /// The numbers that are to be inserted next, or that were deleted last.
    items: VecDeque<u64>,
    lane: u64,
    numbers: u64,
    ghost same: { bundle.object ≡ queue.now.object },
}

impl<'q> BundleThread<'q> {
    /// Adds numbers to those that are to be inserted next, as many as a burst has. Returns all that were added so far.
    fn add_items(&mut self, asked: Seen) -> Seen {
        let mut added = asked;
        for _ in self.items.len() as u64..WIDTH {
            let item = item_of(self.lane, added.count);
            if added.count >= self.numbers || self.items.push_back(item).is_err() {
                return added;
            }
            added = added.with(item);
        }
        added
    }

    /// Inserts the lane.
    fn insert_lane<R: Wait>(&mut self, rt: &R, crew: &Crew) {
        let backoff = Backoff::new();
        let mut asked = Seen::NONE;
        let mut granted = 0u64;
        let mut bursts = 0u64;
        for _ in rt.forever() {
            asked = self.add_items(asked);
            if self.items.is_empty() && self.bundle.state() == BundleState::Idle {
                break;
            }
            let form = Form::of(bursts);
            match insert_some(rt, self.queue, &mut self.bundle, form, &mut self.items) {
                0 => backoff.snooze(),
                more => {
                    granted = granted.wrapping_add(more);
                    bursts = bursts.wrapping_add(1);
                }
            }
        }
        crew.went_in.add(asked);
        crew.expect(granted == asked.count);
    }

    /// Deletes its share. A burst asks for no more than are left to this thread. So if it waits, more numbers will come: together
    /// the threads delete as many as are inserted.
    fn delete_share<R: Wait>(&mut self, rt: &R, crew: &Crew) {
        let backoff = Backoff::new();
        let mut arrivals = Arrivals::new();
        let mut left = self.numbers;
        let mut bursts = 0u64;
        for _ in rt.forever() {
            drain(&mut self.items, &mut arrivals);
            if left == 0 && self.bundle.state() == BundleState::Idle {
                break;
            }
            let form = Form::of(bursts);
            match delete_some(
                rt,
                self.queue,
                &mut self.bundle,
                form,
                left,
                &mut self.items,
            ) {
                0 => backoff.snooze(),
                more => {
                    left = left.saturating_sub(more);
                    bursts = bursts.wrapping_add(1);
                }
            }
        }
        note(crew, &arrivals);
        crew.expect(arrivals.seen.count == self.numbers);
    }
}

impl<'q> Job for BundleThread<'q> {
    fn work<R: Wait>(&mut self, rt: &R, crew: &Crew) {
        if self.lane < PAIRS {
            self.insert_lane(rt, crew);
        } else {
            self.delete_share(rt, crew);
        }
    }
}

/// A thread with a bundle of these seats.
fn thread_of<'q>(
    alloc: Global,
    queue: &'q Queue<u64>,
    seats: Vec<Seat<u64>>,
    lane: u64,
    numbers: u64,
) -> Result<BundleThread<'q>, Fault>
    requires { AreIdleSeats queue.now.object seats.items }
{
    let items = VecDeque::with_capacity(alloc, WIDTH as usize)?;
    let Ok(bundle) = Bundle::of(alloc, queue, seats) else {
        return Err(Fault::Memory);
    };
    Ok(BundleThread {
        queue,
        bundle,
        items,
        lane,
        numbers,
    })
}

/// A thread for each lane, with an equal share of the seats.
fn threads<'q>(
    alloc: Global,
    queue: &'q Queue<u64>,
    mut seats: Vec<Seat<u64>>,
    numbers: u64,
) -> Result<Vec<BundleThread<'q>>, Fault>
    requires { AreIdleSeats queue.now.object seats.items }
{
    let mut jobs = Vec::new(alloc);
    for lane in 0..THREADS {
        let others = seats.len().saturating_sub(WIDTH as usize);
        let own = seats.split_off(others)?;
        jobs.push(thread_of(alloc, queue, own, lane, numbers)?)?;
    }
    Ok(jobs)
}

/// Passes this many numbers of each inserting thread through a queue of this many cells. At the end it is empty.
pub fn burst_part<R: Machine>(rt: &R, alloc: Global, size: u64, numbers: u64) -> Result<(), Fault> {
    let crew = Crew::new();
    let (queue, mut seats) = open(alloc, size, THREADS * WIDTH + 1)?;
    let Some(mut last) = seats.pop() else {
        return Err(Fault::Bursts);
    };
    run_all(rt, &crew, threads(alloc, &queue, seats, numbers)?)?;
    crew.expect(queue.delete(rt, &mut last) == Err(DeleteFault::Empty(0)));
    crew.verdict(PAIRS.wrapping_mul(numbers), Fault::Bursts)
}
