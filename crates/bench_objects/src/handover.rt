//! The cases of semaphores: one thread that goes down and up, or two that let each other through in turn.

ghost use Rattle.std.specs.Prelude.{◌≡◌, IfOk};

use crate::fault::Fault;
use crate::run::{Job, Machine, Passed, numbers_below, run_all, run_one};
use crate::semaphore_handle::{LockedSemaphore, SeatSemaphore, SemaphoreHandle};
use fak_queue::LONGEST_STINT;
use fak_sem::{SemSeat, Semaphore};
use std::alloc::Global;
use std::sync::{Condvar, Mutex, Wait};
use std::thread::Parker;
use std::time::Clock;

/// A thread that goes down and up with its handle, this many times.
#[derive(Drop)]
struct Alone<G> {
    handle: G,
    count: u64,
}

/// One of two threads that let each other through, this many times, with its own semaphore and the other's.
#[derive(Drop)]
struct InTurn<G> {
    handles: (G, G),
    count: u64,
    begins: bool,
}

impl<G: SemaphoreHandle + Send> Job for Alone<G> {
    fn work<R: Wait + Clock>(&mut self, rt: &R) -> Passed {
        let mut passed = Passed::NONE;
        for number in 0..self.count {
            if self.handle.down(rt) && self.handle.up(rt) {
                passed = passed.with(number);
            }
        }
        passed
    }
}

/// The other's semaphore up, then its own down.
fn serve<R: Wait, G: SemaphoreHandle>(rt: &R, ours: &mut G, theirs: &mut G, count: u64) -> Passed {
    let mut passed = Passed::NONE;
    for number in 0..count {
        if theirs.up(rt) && ours.down(rt) {
            passed = passed.with(number);
        }
    }
    passed
}

/// Its own semaphore down, then the other's up.
fn answer<R: Wait, G: SemaphoreHandle>(rt: &R, ours: &mut G, theirs: &mut G, count: u64) {
    for _ in 0..count {
        if !ours.down(rt) || !theirs.up(rt) {
            return;
        }
    }
}

impl<G: SemaphoreHandle + Send> Job for InTurn<G> {
    /// Who begins counts.
    fn work<R: Wait + Clock>(&mut self, rt: &R) -> Passed {
        let (ours, theirs) = (&mut self.handles.0, &mut self.handles.1);
        if self.begins {
            return serve(rt, ours, theirs, self.count);
        }
        answer(rt, ours, theirs, self.count);
        Passed::NONE
    }
}

/// Which semaphore.
#[derive(Clone, Copy)]
pub enum SemaphoreKind {
    /// This repository's, with a parker for the thread that waits.
    Seats,
    /// A count under a lock, with a condition variable.
    Lock,
}

/// A semaphore by one thread, or two by two threads.
#[derive(Clone, Copy)]
pub struct SemaphoreCase {
    pub semaphore_kind: SemaphoreKind,
    pub is_shared: bool,
}

/// A semaphore with its two seats.
type Opened = (Semaphore<()>, SemSeat<()>, SemSeat<()>);

/// The semaphore with its two seats.
fn open_semaphore(alloc: Global, start: u64) -> Result<Opened, Fault>
    ensures { IfOk result (λ r. (r.1.object ≡ r.0.object) × (r.2.object ≡ r.0.object)) }
{
    let Ok((semaphore, mut seats)) = Semaphore::<()>::open(alloc, start, 2, 2, LONGEST_STINT) else {
        return Err(Fault::Memory);
    };
    let (Some(second), Some(first)) = (seats.pop(), seats.pop()) else {
        return Err(Fault::Memory);
    };
    Ok((semaphore, first, second))
}

/// A seat's handle.
fn seat_handle<'s>(
    semaphore: &'s Semaphore<()>,
    bell: &'s Parker,
    seat: SemSeat<()>,
) -> SeatSemaphore<'s>
    requires { seat.object ≡ semaphore.now.object }
{
    SeatSemaphore {
        semaphore,
        bell,
        seat,
    }
}

/// One thread with one handle; a time for each down and up.
fn run_alone<R: Machine, G: SemaphoreHandle + Send>(
    rt: &R,
    alloc: Global,
    handle: G,
    items: u64,
) -> Result<u64, Fault> {
    let job = Alone {
        handle,
        count: items,
    };
    let nanos = run_one(rt, alloc, job, numbers_below(items))?;
    Ok(nanos / items.max(1))
}

/// Two threads with two handles; a time for each time that one lets the other through.
fn run_both<R: Machine, G: SemaphoreHandle + Send>(
    rt: &R,
    alloc: Global,
    first: (G, G),
    second: (G, G),
    items: u64,
) -> Result<u64, Fault> {
    let mut jobs = Vec::new(alloc);
    jobs.push(InTurn {
        handles: first,
        count: items,
        begins: true,
    })?;
    jobs.push(InTurn {
        handles: second,
        count: items,
        begins: false,
    })?;
    let nanos = run_all(rt, jobs, numbers_below(items))?;
    Ok(nanos / 2 / items.max(1))
}

/// One thread at one semaphore of two seats.
fn alone_by_seats<R: Machine>(rt: &R, alloc: Global, items: u64) -> Result<u64, Fault> {
    let (semaphore, seat, _other) = open_semaphore(alloc, 1)?;
    let bell = Parker::new();
    run_alone(rt, alloc, seat_handle(&semaphore, &bell, seat), items)
}

/// Two threads at these two semaphores, a seat of each for each thread.
fn both_at<R: Machine>(
    rt: &R,
    alloc: Global,
    left: Opened,
    right: Opened,
    items: u64,
) -> Result<u64, Fault>
    requires left { (left.1.object ≡ left.0.object) × (left.2.object ≡ left.0.object) }
    requires right { (right.1.object ≡ right.0.object) × (right.2.object ≡ right.0.object) }
{
    let bells = (Parker::new(), Parker::new());
    let (left, a, b) = left;
    let (right, c, d) = right;
    let first = (
        seat_handle(&left, &bells.0, a),
        seat_handle(&right, &bells.1, c),
    );
    let second = (
        seat_handle(&right, &bells.1, d),
        seat_handle(&left, &bells.0, b),
    );
    run_both(rt, alloc, first, second, items)
}

/// Two threads at two semaphores of two seats.
fn both_by_seats<R: Machine>(rt: &R, alloc: Global, items: u64) -> Result<u64, Fault> {
    let left = open_semaphore(alloc, 0)?;
    let right = open_semaphore(alloc, 0)?;
    both_at(rt, alloc, left, right, items)
}

/// One thread at one count under a lock.
fn alone_by_lock<R: Machine>(rt: &R, alloc: Global, items: u64) -> Result<u64, Fault> {
    let count = Mutex::new(1u64);
    let risen = Condvar::new();
    let handle = LockedSemaphore {
        count: &count,
        risen: &risen,
    };
    run_alone(rt, alloc, handle, items)
}

/// Two threads at two counts under locks.
fn both_by_lock<R: Machine>(rt: &R, alloc: Global, items: u64) -> Result<u64, Fault> {
    let counts = (Mutex::new(0u64), Mutex::new(0u64));
    let signals = (Condvar::new(), Condvar::new());
    let left = LockedSemaphore {
        count: &counts.0,
        risen: &signals.0,
    };
    let right = LockedSemaphore {
        count: &counts.1,
        risen: &signals.1,
    };
    run_both(rt, alloc, (left, right), (right, left), items)
}

impl SemaphoreCase {
    /// Runs it once, and returns the nanoseconds for a down and an up, or for each time that one lets the other through.
    pub fn once<R: Machine>(&self, rt: &R, alloc: Global, items: u64) -> Result<u64, Fault> {
        match (self.semaphore_kind, self.is_shared) {
            (SemaphoreKind::Seats, false) => alone_by_seats(rt, alloc, items),
            (SemaphoreKind::Seats, true) => both_by_seats(rt, alloc, items),
            (SemaphoreKind::Lock, false) => alone_by_lock(rt, alloc, items),
            (SemaphoreKind::Lock, true) => both_by_lock(rt, alloc, items),
        }
    }
}
