//! The pool: the thread that puts jobs in, the threads that take them out, and how the seats are joined.

ghost use Rattle.std.specs.Prelude.{◌≡◌, ◌≢◌, ◌+◌, ◌<◌, ◌≤◌, ◌^◌, [], length, Err, IfErr, IfOk, IsTrue, vec_len};
ghost use Rattle.std.specs.List.{All, count_by};
ghost use Rattle.std.specs.Thread.{IsSync};
ghost use Rattle.fak_queue.specs.Queues.{IsIdleSeat};
ghost use Rattle.example_workers.specs.Leap.{is_leap};
ghost use Rattle.fak_queue.specs.Sums.{AreJoined, Balances};
ghost use Rattle.example_workers.specs.Counts.{HaveWorked, IsFresh, Stands, leaps};
ghost use Rattle.example_workers.specs.Workers.{AreWorkers};
ghost use Rattle.example_workers.specs.declared.fault.Fault.TheVariants.{BadWorkers, Memory};

use crate::calls::{put, take};
use crate::fault::Fault;
use crate::work::{Work, is_leap};
use fak_queue::{LONGEST_STINT, Queue, Seat, Tally};
use std::alloc::Global;
use std::sync::Wait;
use std::thread::{Threads, join};

/// The cells of the queue: fewer than there are jobs, so the thread that puts them in waits for the workers.
const CELLS: u64 = 8;

/// One worker: it takes jobs until it gets a `Stop`. Returns its seat, and how many leap years it got.
fn work<R: Wait>(rt: &R, queue: &Queue<Work>, mut seat: Seat<Work>) -> (Seat<Work>, u64)
    requires { IsFresh queue.now.object seat }
    ensures done { Stands queue.now.object 0 result.1 result.0 }
    ensures few { result.1 ≤ 2 ^ 40 }
{
    let mut leap_years = 0u64;
    for _ in rt.forever() {
        match take(rt, queue, &mut seat) {
            Some(Work::Year(year)) => {
                if is_leap(year) {
                    leap_years += 1;
                }
            }
            Some(Work::Stop) | None => break,
        }
    }
    (seat, leap_years)
}

/// All workers, each in a thread of its own. Returns their seats, joined, and how many leap years they got.
fn work_all<R: Threads + Wait + Sync>(
    rt: &R,
    queue: &Queue<Work>,
    mut seats: Vec<Seat<Work>>,
) -> (Tally<Work>, u64)
    requires some { (0 < vec_len seats) × (vec_len seats ≤ 64) }
    requires fresh { All (IsFresh queue.now.object) seats.items }
    ensures { HaveWorked queue.now (vec_len seats) result.1 result.0 }
{
    let Some(seat) = seats.pop() else {
        unreachable!()
    };
    if seats.is_empty() {
        let (seat, leap_years) = work(rt, queue, seat);
        return (Tally::of(seat), leap_years);
    }
    let ((seat, leap_years), (tally, others)) = join(
        rt,
        move || -> (Seat<Work>, u64)
            requires { IsFresh queue.now.object seat }
            ensures { Stands queue.entry.now.object 0 result.1 result.0 × (result.1 ≤ 2 ^ 40) }
        { work(rt, queue, seat) },
        move || -> (Tally<Work>, u64)
            requires sync { IsSync R.row }
            requires some { (0 < vec_len seats) × (vec_len seats ≤ 64) }
            requires fresh { All (IsFresh queue.now.object) seats.items }
            ensures { HaveWorked queue.entry.now (vec_len seats) result.1 result.0 }
        { work_all(rt, queue, seats) },
    );
    (queue.join(tally, seat), leap_years + others)
}

/// Puts all years in, then a `Stop` for each worker, and shuts the queue. Returns whether nothing was refused.
fn give<R: Wait>(
    rt: &R,
    queue: &Queue<Work>,
    mut seat: Seat<Work>,
    years: &[u64],
    workers: u64,
) -> (Seat<Work>, bool)
    requires { Stands queue.now.object 0 0 seat }
    ensures idle { IsIdleSeat queue.now.object result.0 }
    ensures given { IsTrue result.1 → Stands queue.now.object (count_by is_leap years.now) 0 result.0 }
{
    for &year in years {
        if !put(rt, queue, &mut seat, Work::Year(year)) {
            return (seat, false);
        }
    }
    for _ in 0..workers {
        if !put(rt, queue, &mut seat, Work::Stop) {
            return (seat, false);
        }
    }
    queue.shut(&mut seat);
    (seat, true)
}

/// The calling thread gives the years out while the workers work.
fn give_and_work<R: Threads + Wait + Sync>(
    rt: &R,
    queue: &Queue<Work>,
    seat: Seat<Work>,
    others: Vec<Seat<Work>>,
    years: &[u64],
    workers: u64,
) -> ((Seat<Work>, bool), (Tally<Work>, u64))
    requires seat { Stands queue.now.object 0 0 seat }
    requires some { (vec_len others ≡ workers) × (0 < workers) × (workers ≤ 63) }
    requires fresh { All (IsFresh queue.now.object) others.items }
    ensures idle { IsIdleSeat queue.now.object result.0.0 }
    ensures given { IsTrue result.0.1 → Stands queue.now.object (count_by is_leap years.now) 0 result.0.0 }
    ensures worked { HaveWorked queue.now (vec_len others) result.1.1 result.1.0 }
{
    join(
        rt,
        move || -> (Seat<Work>, bool)
            requires { Stands queue.now.object 0 0 seat }
            ensures idle { IsIdleSeat queue.entry.now.object result.0 }
            ensures given { IsTrue result.1
                → Stands queue.entry.now.object (count_by is_leap years.entry.now) 0 result.0 }
        { give(rt, queue, seat, years, workers) },
        move || -> (Tally<Work>, u64)
            requires some { (0 < vec_len others) × (vec_len others ≤ 64) }
            requires fresh { All (IsFresh queue.now.object) others.items }
            ensures { HaveWorked queue.entry.now (vec_len others) result.1 result.0 }
        { work_all(rt, queue, others) },
    )
}

/// Closes the queue, and returns whether all seats are back and all that went in came out.
fn is_done(queue: Queue<Work>, tally: Tally<Work>) -> bool
    requires { tally.object ≡ queue.object }
    ensures { IsTrue result → (seats : _) → AreJoined queue.size seats tally
        → queue.object.seats ≡ length seats → Balances leaps seats [] }
{
    let whole = tally.is_whole();
    if !whole {
        return false;
    }
    queue.close(tally).next().is_none()
}

/// A new queue, the seat of the calling thread, and one for each worker.
fn open_pool(
    alloc: Global,
    workers: u64,
) -> Result<(Queue<Work>, Seat<Work>, Vec<Seat<Work>>), Fault>
    requires { AreWorkers workers }
    ensures seat { IfOk result (λ r. Stands r.0.object 0 0 r.1) }
    ensures others { IfOk result (λ r. (vec_len r.2 ≡ workers) × All (IsFresh r.0.object) r.2.items) }
    ensures seats { IfOk result (λ r. r.0.object.seats ≡ workers + 1) }
    ensures fault { IfErr result (λ fault. fault ≡ Memory) }
{
    let Ok((queue, mut seats)) = Queue::<Work>::open(alloc, CELLS, workers + 1, LONGEST_STINT)
    else {
        return Err(Fault::Memory);
    };
    let Some(seat) = seats.pop() else {
        unreachable!()
    };
    Ok((queue, seat, seats))
}

/// How many of the years are leap years, counted by this many workers.
///
/// # Errors
///
/// `BadWorkers` for any number but 1 to 63, `Memory`, and `Unfinished`.
pub fn leap_years<R: Threads + Wait + Sync>(
    rt: &R,
    alloc: Global,
    years: &[u64],
    workers: u64,
) -> Result<u64, Fault>
    ensures ok { IfOk result (λ n. n ≡ count_by is_leap years.now) }
    ensures outside { (AreWorkers workers → ⊥) → result ≡ Err BadWorkers }
    ensures fault { AreWorkers workers → IfErr result (λ fault. fault ≢ BadWorkers) }
{
    if workers < 1 || workers > 63 {
        return Err(Fault::BadWorkers);
    }
    let (queue, seat, seats) = open_pool(alloc, workers)?;
    let ((seat, given), (tally, count)) = give_and_work(rt, &queue, seat, seats, years, workers);
    if !given {
        return Err(Fault::Unfinished);
    }
    let tally = queue.join(tally, seat);
    if !is_done(queue, tally) {
        return Err(Fault::Unfinished);
    }
    Ok(count)
}
